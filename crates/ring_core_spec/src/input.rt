//! The inputs of a ring core.
//!
//! Rules: Rings and states 8 and 9

use ring_base::Kind;
use ring_token::{Frame, Payload};
use std::alloc::{Allocator, Global};

/// An input of a ring core's step. What the core does with it depends on the core's state.
///
/// Rules: Rings and states 8
#[derive(Drop)]
pub enum Input<A: Allocator + Copy = Global> {
    /// A frame of any kind has arrived. It must be within the limits of its format, as every decoded frame is.
    ///
    /// Rules: Rings and states 8
    Frame(Frame<A>),
    /// A timeout of this kind is due. The core measures no time, so a timeout may come at any moment and in any state.
    ///
    /// Rules: Timeouts 1 and 2
    Timeout(Kind),
    /// A payload is to be sent as a message of the ring.
    ///
    /// In Operational it is queued, in every other state dropped. An End, a Wrapped or a Pack is dropped in every
    /// state, since only a visit makes these.
    ///
    /// Rules: Rings and states 9
    Send(Payload<A>),
}
