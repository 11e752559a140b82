//! The changes of a node in an event.
//!
//! Formats: The command line

use crate::vote_share::VoteShare;
use ring_base::{ProcSet, RingId, State};
use ring_failure::state_name;
use std::fmt;

/// One change of a node in an event, displayed in words that follow the node's name.
///
/// Formats: The command line
#[derive(Clone, Copy)]
pub enum Change {
    /// The node's new state.
    ///
    /// A new ring already implies the state operational.
    State(State),
    /// The node installed this ring, with these members.
    ///
    /// `share` is the share of the members in all votes.
    Ring {
        ring: RingId,
        members: ProcSet,
        share: VoteShare,
    },
    /// The node's new committed length, dropped places included.
    Committed(u64),
    /// The node dropped the first places of its log, this number in all by now, and keeps their snapshot.
    Trimmed(u64),
    /// The node restored a snapshot, which replaces this number of places at the beginning of the log.
    Restored(u64),
}

/// Displays the change, in words that follow the node's name.
impl fmt::Display for Change {
    fn fmt<W: fmt::Write>(&self, f: &mut fmt::Formatter<W>) -> fmt::Result {
        match *self {
            Change::State(State::Stopped) => write!(f, "has stopped"),
            Change::State(state) => write!(f, "is in {}", state_name(state)),
            Change::Ring {
                ring,
                members,
                share,
            } => {
                let kind = if share.is_primary {
                    "primary"
                } else {
                    "not primary"
                };
                write!(f, "installs ring {ring} of {members} with {share}, {kind}")
            }
            Change::Committed(length) => write!(f, "has committed {length}"),
            Change::Trimmed(length) => write!(f, "drops its first {length} places for a snapshot"),
            Change::Restored(length) => write!(f, "restores a snapshot of {length} places"),
        }
    }
}
