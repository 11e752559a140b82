//! The share of a set of nodes in all votes.
//!
//! Rules: Processors and sets 4

ghost use Rattle.std.specs.Prelude.{◌≡◌};
ghost use Rattle.ring_trace_words.specs.Shares.{vote_share};

use ring_base::{Fixed, ProcSet};
use std::fmt;

/// The share of a set of nodes in all votes, displayed as `V of W votes`.
///
/// Rules: Processors and sets 4
/// Formats: The command line
#[derive(Clone, Copy)]
pub struct VoteShare {
    /// The sum of the votes of the set's members.
    pub own: u32,
    /// The sum of the votes of all nodes.
    pub all: u32,
    /// Whether the set is primary: it has more than half of all votes.
    pub is_primary: bool,
}

impl VoteShare {
    /// Returns the share of the set `set` in the votes of `nodes`.
    ///
    /// Processors outside the group have no votes.
    ///
    /// Rules: Processors and sets 4
    pub fn of(nodes: Fixed, set: ProcSet) -> VoteShare
        ensures value { result ≡ vote_share nodes set }
    {
        VoteShare {
            own: nodes.votes_in(set),
            all: nodes.all_votes(),
            is_primary: nodes.is_primary(set),
        }
    }
}

impl fmt::Display for VoteShare {
    fn fmt<W: fmt::Write>(&self, f: &mut fmt::Formatter<W>) -> fmt::Result {
        let (own, all) = (self.own, self.all);
        write!(f, "{own} of {all} votes")
    }
}
