//! The groups that a cut splits the nodes into.
//!
//! Formats: Scripts

ghost use Rattle.std.specs.Prelude.{◌≡◌, ◌-◌, slice_index};
ghost use Rattle.ring_base.specs.Processors.{has, nobody};
ghost use Rattle.ring_script.specs.Cuts.{isolation, cut_at, placed_from, parse_group, member_set};
ghost use Rattle.ring_script.specs.Reading.{IsParseResult};

use crate::words::Words;
use ring_base::{Fault, Fixed, PROCESSORS, Proc, ProcSet};
use std::marker::Model;

/// A partition of the nodes into the groups of a cut: each node is in exactly one group.
///
/// Contracts see it as the list of the groups of the processors 1 to 16.
///
/// Formats: Scripts
#[derive(Clone, Copy, Debug, PartialEq, Eq)]
pub struct Groups {
    parse_group: [ProcSet; PROCESSORS],
}

impl Model for Groups {
    ghost use Rattle.std.specs.Prelude.{◌≡◌, ℕ, List, length};

    ghost Value = { List ℕ };

    ghost view = { λ groups. groups.parse_group };

    ghost invariant = { λ groups. length groups.parse_group ≡ 16 };

    ghost inverse = { λ words. record { parse_group = words } };
}

impl Groups {
    /// Returns the partition into two groups: only `node`, and all other processors from 1 to 16.
    ///
    /// Formats: The command line
    pub fn isolating_one(node: Proc) -> Groups
        ensures { result ≡ isolation node }
    {
        let own = ProcSet::singleton(node);
        let others = ProcSet::from_bits(u16::MAX).without_members(own);
        let mut parse_group = [others; PROCESSORS];
        parse_group[usize::from(node.number()) - 1] = own;
        Groups { parse_group }
    }

    /// Returns whether the two nodes are in one group, so that each hears the other under this cut.
    ///
    /// Formats: Pump
    pub fn are_connected(&self, a: Proc, b: Proc) -> bool
        ensures { result ≡ has (slice_index self.now (a - 1)) b }
    {
        self.parse_group[a.number() as usize - 1].contains(b)
    }

    /// Takes the remaining words and parses them as the groups of a cut.
    ///
    /// A word is a group: node numbers with single commas between them.
    ///
    /// Errors: `BadScript` unless there are at least two groups, and each node is in exactly one of them, once. The
    /// remaining words are then unspecified.
    ///
    /// Formats: Scripts
    #[tactic(auto, unfolding(crate::proofs::Cutting::cut_after))]
    pub(crate) fn parse(words: &mut Words<'_>, nodes: Fixed) -> Result<Groups, Fault>
        ensures { IsParseResult (λ groups. (groups, words.new)) result (cut_at nodes words.old) }
    {
        let mut groups = Groups {
            parse_group: [ProcSet::new(); PROCESSORS],
        };
        let mut count = 0u8;
        let mut placed = ProcSet::new();
        while let Some(word) = words.next_word() {
            let group = parse_group(word, nodes)?;
            if !placed.intersection(group).is_empty() {
                return Err(Fault::BadScript);
            }
            count = count.saturating_add(1);
            placed = placed.union(group);
            groups.set_group_of_members(group);
        }
        if count < 2 || placed != nodes.everybody() {
            return Err(Fault::BadScript);
        }
        Ok(groups)
    }

    /// Sets `group` as the group of each of its members.
    fn set_group_of_members(&mut self, group: ProcSet)
        ensures { self.new ≡ placed_from 1 group self.old }
    {
        for (i, kept) in self.parse_group.iter_mut().enumerate() {
            if group.contains(Proc::new(i as u8 + 1)) {
                *kept = group;
            }
        }
    }
}

/// Parses a group: node numbers separated by single commas.
///
/// Errors: `BadScript` if a word isn't the number of a node, or a number occurs twice.
#[tactic(auto, unfolding(crate::specs::Cuts::parse_group))]
fn parse_group(word: &[u8], nodes: Fixed) -> Result<ProcSet, Fault>
    ensures { IsParseResult (λ set. set) result (parse_group nodes word.now) }
{
    member_set(nodes, &mut Words::new(word, b','))
}

/// Takes the remaining numbers, and returns the set of the nodes with these numbers.
///
/// Errors: `BadScript` if a word isn't the number of a node, or a number occurs twice.
#[tactic(auto, unfolding(crate::specs::Cuts::member_set))]
fn member_set(nodes: Fixed, numbers: &mut Words<'_>) -> Result<ProcSet, Fault>
    ensures { IsParseResult (λ set. set) result (member_set nodes nobody numbers.old) }
{
    let mut group = ProcSet::new();
    while !numbers.is_over() {
        let node = numbers.node(nodes)?;
        if group.contains(node) {
            return Err(Fault::BadScript);
        }
        group.insert(node);
    }
    Ok(group)
}
