//! The parsing of the votes on a command line.
//!
//! Formats: The command line

use arrayvec::ArrayVec;
use ring_base::PROCESSORS;

/// The votes of all nodes, one number for each node, in the order of the nodes.
///
/// Does not allocate.
pub(crate) type VoteList = ArrayVec<u8, PROCESSORS>;

/// Returns the votes of the nodes: those in `word`, separated by commas, or one vote for each node if there is no word.
///
/// Returns `None` unless the word has exactly one number from 1 to 255 for each node.
///
/// Formats: The command line
pub(crate) fn votes_of(nodes: u8, word: Option<&str>) -> Option<VoteList> {
    let votes = match word {
        Some(word) => named_votes(word),
        None => even_votes(nodes),
    }?;
    if votes.len() == usize::from(nodes) {
        Some(votes)
    } else {
        None
    }
}

/// Returns one vote for each node.
fn even_votes(nodes: u8) -> Option<VoteList> {
    let mut votes = VoteList::new();
    for _ in 0..nodes {
        votes.try_push(1).ok()?;
    }
    Some(votes)
}

/// Parses the votes in a word.
fn named_votes(word: &str) -> Option<VoteList> {
    let mut votes = VoteList::new();
    for part in word.split(',') {
        votes.try_push(vote_of(part)?).ok()?;
    }
    Some(votes)
}

/// Parses the votes of one node, 1 to 255.
fn vote_of(word: &str) -> Option<u8> {
    match word.parse::<u8>() {
        Ok(vote) if vote > 0 => Some(vote),
        _ => None,
    }
}
