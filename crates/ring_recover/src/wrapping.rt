//! Wraps a message of the old ring as a payload of the new one.
//!
//! Rules: Recovery 4 and 11

ghost use Rattle.std.specs.Prelude.{◌≡◌, IfOk, IfErr};
ghost use Rattle.ring_base.specs.declared.fault.Fault.TheVariants.{Memory};
ghost use Rattle.ring_window.specs.Payloads.{content_of};
ghost use Rattle.ring_recover.specs.Wrapping.{wrap};

use ring_base::Fault;
use ring_window::{Message, Payload, Wrapped, WrappedPayload};
use std::alloc::Allocator;

/// Returns a Wrapped with a copy of a user message of the old ring: its ring, number, sender and payload.
///
/// Returns `None` for an End or a Wrapped, which are never wrapped.
///
/// Errors: `Memory` if an allocation fails.
///
/// Rules: Recovery 4 and 11
pub fn wrap<A: Allocator + Copy>(message: &Message<A>) -> Result<Option<Payload<A>>, Fault>
    ensures ok { IfOk result (λ wrapped. wrapped ≡ wrap message.now) }
    ensures refused { IfErr result (λ fault. fault ≡ Memory) }
{
    match content_from_payload(&message.payload)? {
        Some(payload) => Ok(Some(Payload::Wrapped(Wrapped {
            ring: message.ring,
            number: message.number,
            sender: message.sender,
            payload,
        }))),
        None => Ok(None),
    }
}

/// Returns a copy of a user payload as the content of a Wrapped, or `None` for any other payload.
///
/// Errors: `Memory` if an allocation fails.
fn content_from_payload<A: Allocator + Copy>(
    payload: &Payload<A>,
) -> Result<Option<WrappedPayload<A>>, Fault>
    ensures ok { IfOk result (λ content. content ≡ content_of payload.now) }
    ensures refused { IfErr result (λ fault. fault ≡ Memory) }
{
    match payload {
        Payload::Call(call) => Ok(Some(WrappedPayload::Call(call.clone()?))),
        Payload::Head(head) => Ok(Some(WrappedPayload::Head(*head))),
        Payload::Part(part) => Ok(Some(WrappedPayload::Part(part.clone()?))),
        Payload::Pack(pack) => Ok(Some(WrappedPayload::Pack(pack.clone()?))),
        Payload::Snap(snap) => Ok(Some(WrappedPayload::Snap(snap.clone()?))),
        Payload::Wrapped(_) | Payload::End => Ok(None),
    }
}
