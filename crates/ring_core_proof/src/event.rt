//! The events of a world of ring cores.
//!
//! Rules: Rings and states 14

use ring_base::{Kind, Proc};
use ring_payload::Payload;
use std::alloc::{Allocator, Global};

/// An event of a world of ring cores: one step of one core.
///
/// It changes nothing if it names a processor that isn't 1 to N.
///
/// Rules: Rings and states 14
#[derive(Drop)]
pub enum RingEvent<A: Allocator + Copy = Global> {
    /// A payload is handed to the processor, to be sent as a message of its ring.
    ///
    /// Rules: Rings and states 9
    Send(Proc, Payload<A>),
    /// The frame with this number arrives at the processor.
    ///
    /// Frames are numbered from 1 in the order in which they are sent. The event changes nothing if no frame with this
    /// number was sent, or not to this processor.
    ///
    /// Rules: Rings and states 14
    Deliver(Proc, u64),
    /// A timeout of this kind is due at the processor.
    ///
    /// Rules: Timeouts 2
    Timeout(Proc, Kind),
    /// The processor stops for good.
    ///
    /// Rules: Rings and states 12
    Stop(Proc),
}
