//! Adds the inner message of a Wrapped to the old ring's window.
//!
//! Rules: Recovery 6 and 11

ghost use Rattle.std.specs.Prelude.{◌≡◌, ◌&&◌, ◌++◌, IfOk, IfErr, OnOk, OnErr};
ghost use Rattle.ring_base.specs.Rings.{same_ring};
ghost use Rattle.ring_base.specs.declared.fault.Fault.TheVariants.{Memory};
ghost use Rattle.ring_window.specs.Payloads.{payload_of};
ghost use Rattle.ring_window.specs.Held.{is_new};
ghost use Rattle.ring_recover.specs.Wrapping.{inner_if_new};

use ring_base::Fault;
use ring_window::{Message, Payload, Window, Wrapped, WrappedPayload};
use std::alloc::Allocator;

/// Adds the inner message of a Wrapped to the old ring's window, if it belongs to that ring and its number is new
/// there.
///
/// Returns whether it was added. If it wasn't, nothing has changed.
///
/// Errors: `Memory` if an allocation fails; the window is unchanged.
///
/// Rules: Recovery 6 and 11
pub fn unwrap<A: Allocator + Copy>(
    wrapped: &Wrapped<A>,
    window: &mut Window<A>,
) -> Result<bool, Fault>
    ensures answer { IfOk result (λ taken. taken ≡ (same_ring wrapped.now.ring window.old.ring
        && is_new window.old.held window.old.mark window.old.ring wrapped.now.number)) }
    ensures held { OnOk result (window.new ≡ record window.old {
      held =
          inner_if_new window.old.ring window.old.mark window.old.held wrapped.now ++ window.old.held;
    }) }
    ensures refused { IfErr result (λ fault. fault ≡ Memory) }
    ensures kept { OnErr result (window.new ≡ window.old) }
{
    if wrapped.ring != window.ring() || !window.is_new(wrapped.number) {
        return Ok(false);
    }
    let message = Message {
        ring: wrapped.ring,
        number: wrapped.number,
        sender: wrapped.sender,
        payload: payload_from_content(&wrapped.payload)?,
    };
    Ok(window.take(message))
}

/// Returns a copy of the wrapped content as a payload.
///
/// Errors: `Memory` if an allocation fails.
fn payload_from_content<A: Allocator + Copy>(
    content: &WrappedPayload<A>,
) -> Result<Payload<A>, Fault>
    ensures ok { IfOk result (λ payload. payload ≡ payload_of content.now) }
    ensures refused { IfErr result (λ fault. fault ≡ Memory) }
{
    match content {
        WrappedPayload::Call(call) => Ok(Payload::Call(call.clone()?)),
        WrappedPayload::Head(head) => Ok(Payload::Head(*head)),
        WrappedPayload::Part(part) => Ok(Payload::Part(part.clone()?)),
        WrappedPayload::Pack(pack) => Ok(Payload::Pack(pack.clone()?)),
        WrappedPayload::Snap(snap) => Ok(Payload::Snap(snap.clone()?)),
    }
}
