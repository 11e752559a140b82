//! Tests of a window where memory is refused, with ring 1.1.
//! Rules: Token and window 14

use crate::rings::ring;
use refusing_alloc::{RefusingHeap, refuse_in_turn};
use ring_base::{Fault, Proc};
use ring_payload::Payload;
use ring_window::Window;
use ring_wire::Message;
use std::alloc::{AllocError, Allocator};

/// Makes a window that takes the messages numbered 1 to `end - 1`.
fn filled<A: Allocator + Copy>(heap: A, end: u64) -> Result<(), Fault> {
    let mut window = Window::new(heap, ring(1))?;
    for number in 1..end {
        window.take(Message {
            ring: ring(1),
            number,
            sender: Proc::new(2),
            payload: Payload::End,
        });
    }
    Ok(())
}

/// A window allocates once, when it is made.
#[test]
fn a_window_is_refused_memory(rt: HostRuntime) {
    let refused = refuse_in_turn(
        rt.alloc(),
        &|heap: &RefusingHeap| filled(heap, 300).map_err(|_| AllocError),
    );
    assert!(rt; refused == Some(1));
}
