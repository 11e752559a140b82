//! Distinguishes user payloads from the payloads of recovery.
//!
//! Rules: Recovery 4

ghost use Rattle.std.specs.Prelude.{◌≡◌};
ghost use Rattle.ring_window.specs.Payloads.{is_user, is_end};

use ring_window::Payload;
use std::alloc::Allocator;

/// Returns whether this is a user payload: a Call, a Pack, a Head, a Part or a Snap.
///
/// The other two, Wrapped and End, belong to recovery.
///
/// Rules: Recovery 4
pub fn is_user_payload<A: Allocator + Copy>(payload: &Payload<A>) -> bool
    ensures { result ≡ is_user payload.now }
{
    match payload {
        Payload::Call(_)
        | Payload::Head(_)
        | Payload::Part(_)
        | Payload::Pack(_)
        | Payload::Snap(_) => true,
        Payload::Wrapped(_) | Payload::End => false,
    }
}

/// Returns whether the payload is an End, by which a member announces that it has wrapped all that it had to wrap.
///
/// Rules: Recovery 4
pub(crate) fn is_end<A: Allocator + Copy>(payload: &Payload<A>) -> bool
    ensures { result ≡ is_end payload.now }
{
    match payload {
        Payload::End => true,
        Payload::Call(_)
        | Payload::Wrapped(_)
        | Payload::Head(_)
        | Payload::Part(_)
        | Payload::Pack(_)
        | Payload::Snap(_) => false,
    }
}
