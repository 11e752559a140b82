//! The output of a replica's step.
//!
//! Rules: The replicated log 14 and 18

ghost use Rattle.std.specs.Prelude.{◌≡◌, [], None};

use ring_payload::{Call, Payload};
use ring_session::TicketAnswer;
use std::alloc::{Allocator, Global};

/// The output of a replica's step, which the node passes on to its core, its clients and the readers of its log.
///
/// Rules: The replicated log 14 and 18
#[derive(Drop)]
pub struct ReplicaOutput<A: Allocator + Copy + Drop = Global> {
    /// The payloads to be handed to the core, in this order.
    pub due: Vec<Payload<A>, A>,
    /// The answers to tickets, in the order of the calls' places, and at one place in the order of the tickets.
    pub answers: Vec<TicketAnswer<A>, A>,
    /// The calls at the newly committed places, in order, including repeats, except those that a snapshot replaces.
    pub committed: Vec<Call<A>, A>,
    /// The number of places of the snapshot that the step restored, or `None` if it restored none.
    pub restored: Option<u64>,
}

impl<A: Allocator + Copy + Drop> ReplicaOutput<A> {
    /// Creates an empty output.
    ///
    /// Does not allocate.
    pub(crate) fn new(alloc: A) -> ReplicaOutput<A>
        ensures due { result.due.items ≡ [] }
        ensures answers { result.answers.items ≡ [] }
        ensures committed { result.committed.items ≡ [] }
        ensures restored { result.restored ≡ None }
    {
        ReplicaOutput {
            due: Vec::new(alloc),
            answers: Vec::new(alloc),
            committed: Vec::new(alloc),
            restored: None,
        }
    }
}
