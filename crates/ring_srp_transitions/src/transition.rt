//! The transitions of a ring core.
//!
//! Rules: Rings and states 8 and 9; Timeouts 2

use ring_payload::Payload;
use ring_wire::{BoxedCommitToken, Join, Message, Token};
use std::alloc::{Allocator, Global};

/// The transition that [`RunningCore::decide`](crate::RunningCore::decide) chose for an input.
///
/// Its conditions have been checked; applying it checks nothing.
///
/// Rules: Rings and states 8 and 9; Timeouts 2
#[derive(Drop)]
pub enum Transition<A: Allocator + Copy = Global> {
    /// Nothing changes, and there is no output.
    ///
    /// Rules: Processors and sets 6
    Ignore,
    /// The payload is appended to the send queue.
    ///
    /// Rules: Rings and states 9
    Enqueue(Payload<A>),
    /// The kept token is sent again, if there is one.
    ///
    /// Rules: Timeouts 3
    Repeat,
    /// The node's own join is sent to all other processors.
    ///
    /// Rules: Timeouts 2; Gather 7
    Announce,
    /// A join is sent to the processors outside the running ring.
    ///
    /// Rules: Timeouts 4
    Invite,
    /// Each candidate that doesn't agree is given up, and the node's own join is sent.
    ///
    /// Rules: Gather 6 and 7
    GiveUp,
    /// Gather is entered, and the node's own join is sent.
    ///
    /// The cause is a loss timeout, or a join that is ignored once Gather is entered.
    ///
    /// Rules: Gather 1, 7 and 13; Timeouts 5
    EnterGather,
    /// The join has the node's own sets: its sender agrees.
    ///
    /// Rules: Gather 4 and 8
    Agree(Join),
    /// The join widens the node's sets, and the node's own join is sent.
    ///
    /// Rules: Gather 5 and 7
    MergeJoin(Join),
    /// This join makes the node enter Gather and has the sets with which Gather begins: its sender agrees.
    ///
    /// The node's own join is sent.
    ///
    /// Rules: Gather 7 and 13
    EnterGatherAndAgree(Join),
    /// This join makes the node enter Gather, and then widens the sets. The node's own join is sent.
    ///
    /// Rules: Gather 7 and 13
    EnterGatherAndMergeJoin(Join),
    /// The message is taken: the node holds it.
    ///
    /// Rules: Token and window 11
    Take(Message<A>),
    /// The token is accepted: the node visits it.
    ///
    /// Rules: Token and window 6 and 7; The commit token 7
    Visit(Token),
    /// The commit token is in its first round: the node adds its entry and is then in Commit.
    ///
    /// Rules: The commit token 5
    Fill(BoxedCommitToken<A>),
    /// The commit token is in its second round: the node makes its plan and is then in Recovery.
    ///
    /// Rules: The commit token 6
    Learn(BoxedCommitToken<A>),
}
