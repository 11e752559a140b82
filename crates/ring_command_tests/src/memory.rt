//! Each request for memory of a node that takes four records is refused in turn.
//! Rules: Nodes that records drive 4 and 5

use crate::served::{ServedOutput, served_on};
use refusing_alloc::{RefusingHeap, refuse_in_turn};
use ring_base::Fixed;
use ring_things::Counters;
use std::alloc::{AllocError, Allocator, Global};

/// A call, the join timeout, a stop, and a query.
const INPUT: [u8; 35] = [
    0x43, 0, 0x16, 0, 0, 0, 7, 0, 0, 0, 0, 0, 0, 0, 1, 1, 0, 0, 0, 0, 0, 0, 0, 0, 5, 0x54, 0, 1, 1,
    0x53, 0, 0, 0x51, 0, 0,
];

/// The record of a refusal for want of memory.
const REFUSED: [u8; 4] = [0x58, 0, 1, 11];

/// The line on standard error where memory is refused at the start, for a record or for its output.
const LINE: &str = "totem: 11 out of memory\n";

/// Whether the output has a refusal, or a refusal ended the node: then the output is a proper prefix of that without refusals.
fn tells_refusal<A: Allocator + Copy + Drop>(
    served: &ServedOutput<A>,
    whole: &ServedOutput<A>,
) -> bool {
    let out = served.out.as_slice();
    if served.status == 1 {
        return served.err.as_slice() == LINE.as_bytes()
            && whole.out.as_slice().starts_with(out)
            && out.len() < whole.out.len();
    }
    let mut found = false;
    for place in 0..out.len() {
        found = found || out[place..].starts_with(&REFUSED);
    }
    found
}

/// Serves the records with and without refused requests. Fails where the refusal is reported.
fn told_on(alloc: Global, heap: &RefusingHeap) -> Result<(), AllocError> {
    let Ok(fixed) = Fixed::new(1) else {
        return Ok(());
    };
    let ample = RefusingHeap::new(alloc, u64::MAX);
    let whole = served_on::<Counters<&RefusingHeap>, _>(alloc, &ample, fixed, 1, &INPUT);
    let served = served_on::<Counters<&RefusingHeap>, _>(alloc, heap, fixed, 1, &INPUT);
    if tells_refusal(&served, &whole) {
        Err(AllocError)
    } else {
        Ok(())
    }
}

#[test]
fn each_refused_request_is_told(rt: HostRuntime) {
    let alloc = rt.alloc();
    let refused = refuse_in_turn(alloc, &|heap: &RefusingHeap| told_on(alloc, heap));
    assert!(rt; refused.is_some_and(|count| count > 5));
}
