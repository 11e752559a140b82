//! Which payloads the send queue accepts.
//!
//! Rules: Rings and states 9

ghost use Rattle.std.specs.Prelude.{◌≡◌};
ghost use Rattle.ring_payload.specs.Packing.{is_queued};

use ring_payload::Payload;
use std::alloc::Allocator;

/// Returns whether a send may queue this payload, that is, whether it is a Call, a Head, a Part or a Snap.
///
/// Only a visit makes a Pack, an End or a Wrapped, so sending one does nothing. Does not allocate.
///
/// Rules: Rings and states 9
pub fn is_queued<A: Allocator + Copy>(payload: &Payload<A>) -> bool
    ensures { result ≡ is_queued payload.now }
{
    match payload {
        Payload::Call(_) | Payload::Head(_) | Payload::Part(_) | Payload::Snap(_) => true,
        Payload::Wrapped(_) | Payload::End | Payload::Pack(_) => false,
    }
}
