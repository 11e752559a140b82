//! The outputs of a node's step.
//!
//! Rules: Outputs 1 and 2; The replicated log 14, 18 and 20

ghost use Rattle.ring_node.specs.EmptyResults.{IsEmptyResult};

use ring_core_spec::OutgoingFrame;
use ring_payload::Call;
use ring_replica::TicketAnswer;
use std::alloc::{Allocator, Global};

/// `Outs`: the outputs of one step of a node.
///
/// Rules: Outputs 2; The replicated log 18
#[derive(Drop)]
pub struct Outs<A: Allocator + Copy + Drop = Global> {
    /// The frames sent, each with its receivers: a join, a commit token, repeated messages, new messages, then the
    /// token.
    ///
    /// Rules: Outputs 2
    pub sends: Vec<OutgoingFrame<A>, A>,
    /// The answers to tickets, in the order of the calls' places, and at one place in the order of the tickets.
    ///
    /// Rules: The replicated log 14
    pub answers: Vec<TicketAnswer<A>, A>,
    /// The calls at the newly committed places, in order, including repeats, except those that a snapshot replaces.
    ///
    /// Rules: The replicated log 12 and 18
    pub committed: Vec<Call<A>, A>,
    /// The calls at the places dropped at the end of the step, in order.
    ///
    /// `Node::committed` now begins after these places.
    ///
    /// Rules: The replicated log 20
    pub dropped: Vec<Call<A>, A>,
    /// The number of places of the snapshot that the step restored, or `None` if it restored none.
    ///
    /// `Node::committed` now begins after these places. If this node hadn't committed some of them, no step of it
    /// reports their calls.
    ///
    /// Rules: The replicated log 6 and 18
    pub restored: Option<u64>,
}

impl<A: Allocator + Copy + Drop> Outs<A> {
    /// Creates empty outputs.
    ///
    /// Does not allocate.
    ///
    /// Rules: Outputs 2
    pub fn new(alloc: A) -> Outs<A>
        ensures { IsEmptyResult result }
    {
        Outs {
            sends: Vec::new(alloc),
            answers: Vec::new(alloc),
            committed: Vec::new(alloc),
            dropped: Vec::new(alloc),
            restored: None,
        }
    }

    /// Empties the outputs.
    ///
    /// The lists keep their capacity.
    pub(crate) fn clear(&mut self)
        ensures { IsEmptyResult self.new }
    {
        self.sends.clear();
        self.answers.clear();
        self.committed.clear();
        self.dropped.clear();
        self.restored = None;
    }
}
