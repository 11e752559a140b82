//! The events of a world of nodes.
//!
//! Rules: The book and the threads 2 to 4

ghost use Rattle.std.specs.Prelude.{◌≡◌};

use crate::noise::Noise;
use ring_base::{Kind, Proc};
use ring_core_spec::Call;
use std::alloc::{AllocError, Allocator, Global};

/// `Event`: one event of a world, which is a step of one node or a submit at it.
///
/// An event of a processor outside the group changes nothing. Nor does an event of a stopped node, except that a submit
/// there is recorded as refused.
///
/// Rules: The book and the threads 2 and 4
#[derive(Drop)]
pub enum Event<A: Allocator + Copy = Global> {
    /// The call is submitted at the node.
    ///
    /// Rules: The replicated log 13
    Issue(Proc, Call<A>),
    /// The node receives the frame with this number; frames are numbered from 1 in the order in which they are sent.
    ///
    /// Changes nothing if the frame wasn't sent, or wasn't sent to this node.
    ///
    /// Rules: The book and the threads 3 and 4
    Deliver(Proc, u64),
    /// The node receives bytes that aren't a frame, which changes nothing.
    ///
    /// If the bytes are a frame, nothing changes either: a frame is delivered only by its number.
    ///
    /// Rules: Rings and states 11; The book and the threads 4
    Noise(Proc, Noise<A>),
    /// A timeout of this kind is due at the node.
    ///
    /// Rules: Timeouts 1 and 2
    Timeout(Proc, Kind),
    /// The node stops for good.
    ///
    /// Rules: Rings and states 12
    Stop(Proc),
}

impl<A: Allocator + Copy> Clone for Event<A> {
    ghost is_clone = { λ event copy. copy ≡ event };

    fn clone(&self) -> Result<Event<A>, AllocError> {
        match self {
            Event::Issue(node, call) => Ok(Event::Issue(*node, call.clone()?)),
            Event::Deliver(node, number) => Ok(Event::Deliver(*node, *number)),
            Event::Noise(node, noise) => Ok(Event::Noise(*node, noise.clone()?)),
            Event::Timeout(node, kind) => Ok(Event::Timeout(*node, *kind)),
            Event::Stop(node) => Ok(Event::Stop(*node)),
        }
    }
}
