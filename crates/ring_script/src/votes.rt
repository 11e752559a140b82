//! The votes of the nodes, and the line that gives them.
//!
//! Formats: Scripts

ghost use Rattle.std.specs.Prelude.{◌≡◌, codes, IfOk};
ghost use Rattle.ring_script.specs.Reading.{IsParseResult};
ghost use Rattle.ring_script.specs.Scripts.{Answers};
ghost use Rattle.ring_script.specs.Votes.{votes_at, votes_of, is_votes, votes_in};

use crate::lines::Lines;
use crate::scripts::{ScriptFault, are_ascii, at_line, is_skipped};
use crate::words::{Words, equals_word};
use ring_base::{Fault, Fixed, PROCESSORS};

/// Takes the line of votes, if it is the next effective line, and returns the nodes with these votes.
///
/// If it isn't, returns `nodes`, and the next effective line is still the next one of `lines`.
///
/// Errors: `AtLine` with the number of the line of votes, unless it has one vote from 1 to 255 for each node.
///
/// Formats: Scripts
#[tactic(auto, unfolding(crate::specs::Votes::votes_in))]
pub(crate) fn read_votes(lines: &mut Lines<'_>, nodes: Fixed) -> Result<Fixed, ScriptFault>
    ensures count { IfOk result (λ voted. voted.count ≡ nodes.count) }
    ensures read { Answers (λ voted. (voted, lines.new)) result
        (votes_in nodes lines.old.before lines.old.lines) }
{
    let mut from = lines.copied_lines();
    while let Some((number, line)) = lines.next_line() {
        if is_votes(line) {
            return match parse_votes_line(line, nodes) {
                Ok(voted) => Ok(voted),
                Err(fault) => Err(at_line(fault, number)),
            };
        }
        if !are_ascii(line) || !is_skipped(line) {
            *lines = from;
            return Ok(nodes);
        }
        from = lines.copied_lines();
    }
    Ok(nodes)
}

fn is_votes(line: &[u8]) -> bool
    ensures { result ≡ is_votes line.now }
{
    match Words::new(line, b' ').next_word() {
        Some(word) => equals_word(word, b"votes"),
        None => false,
    }
}

/// Parses a line `votes V1 .. VN`, and returns `nodes` with these votes.
///
/// Errors: `BadScript` unless there is one vote for each node, each 1 to 255.
#[tactic(auto, unfolding(crate::specs::Votes::votes_of))]
fn parse_votes_line(line: &[u8], nodes: Fixed) -> Result<Fixed, Fault>
    ensures count { IfOk result (λ voted. voted.count ≡ nodes.count) }
    ensures read { IsParseResult (λ voted. voted) result (votes_of nodes line.now) }
{
    let mut words = Words::new(line, b' ');
    if words.next_word().is_none() {
        return Err(Fault::BadScript);
    }
    match take_votes(&mut words, nodes) {
        Ok(voted) if words.is_over() => Ok(voted),
        _ => Err(Fault::BadScript),
    }
}

/// Takes one word for each node, and returns `nodes` with these votes.
///
/// Errors: `BadScript` unless each word is a number from 1 to 255.
fn take_votes(words: &mut Words<'_>, nodes: Fixed) -> Result<Fixed, Fault>
    ensures count { IfOk result (λ voted. voted.count ≡ nodes.count) }
    ensures read { IsParseResult (λ voted. (voted.votes, words.new)) result (votes_at nodes.count words.old) }
{
    let mut votes = [0; PROCESSORS];
    let count = usize::from(nodes.count());
    for i in 0..count {
        votes[i] = words.number(1, 255)? as u8;
    }
    match Fixed::with_votes(&votes[..count]) {
        Ok(voted) => Ok(voted),
        Err(_) => Err(Fault::BadScript),
    }
}
