//! The reasons why calls have no answer.
//!
//! Formats: The command line

use crate::vote_share::VoteShare;
use ring_base::{ProcSet, State};
use ring_failure::state_name;
use std::fmt;

/// The reason why a node has not answered a call, displayed in words.
///
/// Formats: The command line
#[derive(Clone, Copy)]
pub enum WaitReason {
    /// The node has stopped.
    Stopped,
    /// The node is in this state, which isn't operational.
    State(State),
    /// The node's ring, with these members and this share of all votes, isn't primary.
    Minority { members: ProcSet, share: VoteShare },
    /// The node is operational in a primary ring and has not sent the call yet.
    NotSent,
    /// The node is operational in a primary ring and has sent the call, which isn't known to be safe yet.
    ///
    /// A node that is alone in its ring sends no frame; the call is then in its log.
    NotSafe,
}

impl WaitReason {
    /// Returns the reason's name in JSON.
    ///
    /// Formats: The command line
    pub fn code(&self) -> &'static str {
        match *self {
            WaitReason::Stopped => "stopped",
            WaitReason::State(state) => state_name(state),
            WaitReason::Minority { .. } => "not primary",
            WaitReason::NotSent => "not sent",
            WaitReason::NotSafe => "not safe",
        }
    }
}

impl fmt::Display for WaitReason {
    fn fmt<W: fmt::Write>(&self, f: &mut fmt::Formatter<W>) -> fmt::Result {
        match *self {
            WaitReason::Stopped => write!(f, "its node has stopped"),
            WaitReason::State(state) => write!(f, "its node is in {}", state_name(state)),
            WaitReason::Minority { members, share } => write!(
                f,
                "its ring {{{members}}} has {share}"
            ),
            WaitReason::NotSent => write!(f, "not sent yet"),
            WaitReason::NotSafe => write!(f, "sent, and not safe yet"),
        }
    }
}
