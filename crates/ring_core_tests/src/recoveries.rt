//! Tests of `wrap` and `unwrap` where memory is refused, with a call of ring 1.1.
//! Rules: Recovery 11

use crate::rings::ring;
use refusing_alloc::{RefusingHeap, refuse_in_turn};
use ring_base::{Fault, Proc};
use ring_payload::{Call, Payload, Wrapped, WrappedPayload};
use ring_recover::{unwrap, wrap};
use ring_window::Window;
use ring_wire::Message;
use std::alloc::{AllocError, Allocator};

/// Returns a Wrapped with client 7's first call.
fn wrapped<A: Allocator + Copy>(alloc: A, number: u64) -> Result<Wrapped<A>, Fault> {
    Ok(Wrapped {
        ring: ring(1),
        number,
        sender: Proc::new(1),
        payload: WrappedPayload::Call(Call::new(alloc, 7, 1, &[0])?),
    })
}

/// Returns whether `wrap` returns a payload for a message with client 7's first call.
fn wraps<A: Allocator + Copy>(heap: A) -> Result<bool, Fault> {
    let message = Message {
        ring: ring(1),
        number: 1,
        sender: Proc::new(1),
        payload: Payload::Call(Call::new(heap, 7, 1, &[0])?),
    };
    match wrap(&message) {
        Ok(payload) => Ok(payload.is_some()),
        Err(fault) => Err(fault),
    }
}

/// `wrap` makes one allocation, for the copy of the call: with that of the call itself there are two to refuse.
#[test]
fn wrapping_is_refused_memory(rt: HostRuntime) {
    let refused = refuse_in_turn(
        rt.alloc(),
        &|heap: &RefusingHeap| match wraps(heap) {
            Ok(true) => Ok(()),
            _ => Err(AllocError),
        },
    );
    assert!(rt; refused == Some(2));
}

/// Unwraps into a window and returns whether memory was refused, or `None` where the front isn't as it should be: 1
/// after a success, 0 after a refusal.
fn is_refused<A: Allocator + Copy>(window: &mut Window<A>, wrapped: &Wrapped<A>) -> Option<bool> {
    match (unwrap(wrapped, window), window.front()) {
        (Ok(true), 1) => Some(false),
        (Err(Fault::Memory), 0) => Some(true),
        _ => None,
    }
}

/// Unwraps a call into a new window.
fn unwrapped<A: Allocator + Copy>(heap: A) -> Result<Option<bool>, Fault> {
    let mut window = Window::new(heap, ring(1))?;
    let wrapped = wrapped(heap, 1)?;
    Ok(is_refused(&mut window, &wrapped))
}

/// `unwrap` makes one allocation, for the copy of the call. Where it is refused the window is unchanged.
#[test]
fn unwrapping_is_refused_memory(rt: HostRuntime) {
    let refused = refuse_in_turn(
        rt.alloc(),
        &|heap: &RefusingHeap| match unwrapped(heap) {
            Ok(Some(true)) | Err(Fault::Memory) => Err(AllocError),
            _ => Ok(()),
        },
    );
    assert!(rt; refused == Some(3));
}
