//! The outcome of a commit token at a node.
//!
//! Rules: The commit token 11

use ring_wire::{CommitToken, Token};

/// The outcome of a commit token, or of a proposal, at a node.
///
/// Rules: The commit token 11
#[derive(Drop)]
pub enum CommitOutcome {
    /// First round, or a proposal: the node sends this token to the next member, and takes part in the ring from now
    /// on.
    Pass(CommitToken),
    /// Second round: the node sends this token to the next member. Its entries are the plan for the recovery of its old
    /// ring.
    Recover(CommitToken),
    /// After both rounds: the representative visits this token, the first of the ring. It is never sent as a frame.
    Start(Token),
    /// The node ignores the commit token, or proposes nothing.
    Ignored,
}
