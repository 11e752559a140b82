//! The reports of the nodes of a world.
//!
//! Rules: The book and the threads 5

ghost use Rattle.std.specs.Prelude.{◌≡◌};

use ring_base::Proc;
use ring_core_spec::Call;
use ring_session::Answer;
use std::alloc::{AllocError, Allocator, Global};

/// `Told`: a report of a node to its clients that a world records: an answer to a ticket, or the refusal of a submit.
///
/// Rules: The book and the threads 5
#[derive(Drop)]
pub enum Told<A: Allocator + Copy = Global> {
    /// The node gave this answer to a ticket of the call.
    ///
    /// Rules: The replicated log 14
    Answer(Proc, Call<A>, Answer),
    /// The node refused the submit of the call, with this fault number: 2 (`PendingFull`), 8 (`Stopped`) or 11
    /// (`Memory`).
    ///
    /// Rules: The replicated log 13; Refusals 1
    Refused(Proc, Call<A>, u8),
}

impl<A: Allocator + Copy> Clone for Told<A> {
    ghost is_clone = { λ told copy. copy ≡ told };

    fn clone(&self) -> Result<Told<A>, AllocError> {
        match self {
            Told::Answer(node, call, answer) => Ok(Told::Answer(*node, call.clone()?, *answer)),
            Told::Refused(node, call, reason) => Ok(Told::Refused(*node, call.clone()?, *reason)),
        }
    }
}
