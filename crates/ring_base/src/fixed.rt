//! The group's configuration, fixed for a run: the processors and their votes.
//!
//! Rules: Processors and sets 1, 2 and 4

ghost use Rattle.std.specs.Prelude.{◌≡◌, ℕ, ◌+◌, ◌*◌, ◌≤◌, ◌↔◌, IsTrue, IfErr, OkIff, nat_lt, length, replicate};
ghost use Rattle.std.specs.List.{sum};
ghost use Rattle.ring_base.specs.Group.{AreVotes, votes_in, IsPrimary, is_primary};
ghost use Rattle.ring_base.specs.Processors.{IsProc, IsMember, everybody};

use crate::fault::Fault;
use crate::limits::{MAX_PROCESSORS, PROCESSORS};
use crate::proc_set::ProcSet;
use crate::processor::Proc;
use std::marker::Model;

/// `Fixed`: the group's configuration in a run: the number of processors and the votes of each.
///
/// It never changes in a run. Processors are numbered from 1. Contracts see the number of processors and the list of
/// votes.
///
/// Rules: Processors and sets 1
#[derive(Clone, Copy, Debug, PartialEq, Eq)]
pub struct Fixed {
    count: u8,
    /// The votes of the processors in order, followed by zeros.
    votes: [u8; PROCESSORS],
}

impl Model for Fixed {
    ghost use Rattle.std.specs.Prelude.{take};
    ghost use Rattle.ring_base.specs.Group.{Group, padded_votes, IsPaddedVotes};

    ghost Value = { Group };

    ghost view = { λ fixed. record { count = fixed.count; votes = take fixed.count fixed.votes } };

    ghost invariant = { λ fixed. IsPaddedVotes fixed.count fixed.votes };

    ghost inverse = { λ group. record { count = group.count; votes = padded_votes group.votes } };

    ghost inverse_ok = { λ a h. Prim.rw h.zeros (λ i. a) };
}

impl Fixed {
    /// Returns the configuration of the processors 1 to `count`, each with one vote.
    ///
    /// Errors: `NotMember` unless `count` is 1 to [`MAX_PROCESSORS`].
    ///
    /// Rules: Processors and sets 1
    pub fn new(count: u8) -> Result<Fixed, Fault>
        ensures ok { OkIff result (IsProc count) (record { count = count; votes = replicate count 1 }) }
        ensures refused { IfErr result (λ fault. fault ≡ Fault.NotMember) }
    {
        if count > MAX_PROCESSORS {
            return Err(Fault::NotMember);
        }
        Fixed::with_votes(&[1; PROCESSORS][..usize::from(count)])
    }

    /// Returns the configuration that has a processor for each vote: processor 1 has the first of `votes`, and so on.
    ///
    /// Errors: `NotMember` unless there are 1 to [`MAX_PROCESSORS`] votes, each at least 1.
    ///
    /// Rules: Processors and sets 1
    pub fn with_votes(votes: &[u8]) -> Result<Fixed, Fault>
        ensures ok { OkIff result (AreVotes votes.now) (record { count = length votes.now; votes = votes.now }) }
        ensures refused { IfErr result (λ fault. fault ≡ Fault.NotMember) }
    {
        let count = votes.len();
        if count < 1 || count > PROCESSORS || votes.contains(&0) {
            return Err(Fault::NotMember);
        }
        let mut all = [0; PROCESSORS];
        all[..count].copy_from_slice(votes);
        Ok(Fixed {
            count: count as u8,
            votes: all,
        })
    }

    /// Returns the number of processors of the group, 1 to 16.
    ///
    /// It is also the greatest processor number.
    ///
    /// Rules: Processors and sets 1
    pub fn count(self) -> u8
        ensures value { result ≡ self.count }
        ensures in_range { IsProc result }
    {
        self.count
    }

    /// Returns processor `number` of the group.
    ///
    /// Errors: `NotMember` unless `number` is 1 to [`count`](Fixed::count).
    ///
    /// Rules: Processors and sets 2
    pub fn proc(self, number: u8) -> Result<Proc, Fault>
        ensures ok { OkIff result ((1 ≤ number) × (number ≤ self.count)) number }
        ensures refused { IfErr result (λ fault. fault ≡ Fault.NotMember) }
    {
        if number < 1 || number > self.count {
            return Err(Fault::NotMember);
        }
        Ok(Proc::new(number))
    }

    /// Returns the set of all processors of the group, 1 to [`count`](Fixed::count).
    ///
    /// It is never empty.
    ///
    /// Rules: Processors and sets 1 to 3
    pub fn everybody(self) -> ProcSet
        ensures members { (i : ℕ) → IsMember result i ↔ ((1 ≤ i) × (i ≤ self.count)) }
        ensures value { result ≡ everybody self.count }
    {
        ProcSet::from_bits(u16::MAX >> (16 - self.count))
    }

    /// Returns whether `set` is primary: its members all belong to this group, and together they have more than half of
    /// all votes.
    ///
    /// Exactly half of the votes isn't enough.
    ///
    /// Rules: Processors and sets 4
    pub fn is_primary(self, set: ProcSet) -> bool
        ensures primary { IsTrue result ↔ IsPrimary self set }
        ensures value { result ≡ is_primary self set }
    {
        set.is_subset(self.everybody()) && self.has_majority(set)
    }

    /// Returns the sum of the votes of all processors of the group, 1 to 4,080.
    ///
    /// Rules: Processors and sets 1 and 4
    pub fn all_votes(self) -> u32
        ensures value { result ≡ sum self.votes }
    {
        let (inside, outside) = self.split_votes(ProcSet::new());
        inside + outside
    }

    /// Returns the sum of the votes of the members of `set`, 0 to 4,080.
    ///
    /// A member outside the group has no votes.
    ///
    /// Rules: Processors and sets 4
    pub fn votes_in(self, set: ProcSet) -> u32
        ensures value { result ≡ votes_in self set }
    {
        let (inside, _) = self.split_votes(set);
        inside
    }

    /// Returns whether the members of `set` have more votes than all other processors together.
    fn has_majority(self, set: ProcSet) -> bool
        ensures { result ≡ nat_lt (sum self.votes) (2 * votes_in self set) }
    {
        let (inside, outside) = self.split_votes(set);
        inside > outside
    }

    /// Returns the sum of the votes of the members of `set`, then the sum of all other votes.
    fn split_votes(self, set: ProcSet) -> (u32, u32)
        ensures members { result.0 ≡ votes_in self set }
        ensures all { result.0 + result.1 ≡ sum self.votes }
        ensures fits { result.0 + result.1 ≤ 4080 }
    {
        let (mut inside, mut outside) = (0, 0);
        for (i, votes) in self.votes.iter().enumerate() {
            if set.contains(Proc::new(i as u8 + 1)) {
                inside += u32::from(*votes);
            } else {
                outside += u32::from(*votes);
            }
        }
        (inside, outside)
    }
}
