//! The outputs of a ring core.
//!
//! Rules: Outputs 1 to 6

use ring_base::{ProcSet, RingId};
use ring_token::{Frame, Message};
use std::alloc::{Allocator, Global};

/// An output of a ring core's step.
///
/// A step returns its outputs in the order of these variants, except that `Agreed` and `Safe` of a newly installed ring
/// follow its `Regular`.
///
/// Rules: Outputs 1
#[derive(Drop)]
pub enum Out<A: Allocator + Copy = Global> {
    /// The frame is to be sent to these processors, of which there is at least one.
    ///
    /// Rules: Outputs 2; Token and window 12
    Send(ProcSet, Frame<A>),
    /// The ring, a number, and the user message of that number: the next one in the order of this ring.
    ///
    /// The node holds every message before it.
    ///
    /// Rules: Outputs 3
    Agreed(RingId, u64, Message<A>),
    /// The ring, and a number up to which every member of this ring holds its messages, so they are safely delivered.
    ///
    /// Rules: Outputs 4
    Safe(RingId, u64),
    /// A transitional configuration begins: the old ring, the new ring, and the members of the new one that come from
    /// the old one.
    ///
    /// Rules: Outputs 1 and 9
    Trans(RingId, RingId, ProcSet),
    /// The old ring, a number, and the user message of that number, which is delivered in the transitional
    /// configuration.
    ///
    /// Rules: Outputs 5
    Rest(RingId, u64, Message<A>),
    /// A regular configuration begins: the new ring and its members.
    ///
    /// Rules: Outputs 1 and 9
    Regular(RingId, ProcSet),
}
