//! Tests of ghost values: they take no memory, and they move to another thread with the value that holds them.

use ring_base::{Ghost, RingId, ghost_of};
use std::thread;

#[test]
fn the_past_takes_no_room() {
    let ghost_value: Ghost<u64> = ghost_of(&0u8);
    prove!(size_of::<Ghost<u64>>() == 0);
    prove!(size_of::<Ghost<[RingId; 0]>>() == 0);
    drop(ghost_value);
}

/// A sum, with a ghost count of the additions.
#[derive(Drop)]
struct Counter {
    sum: u64,
    times: Ghost<u64>,
}

/// Adds one and returns the sum.
fn add_one(counter: &mut Counter) -> u64 {
    counter.sum = counter.sum.saturating_add(1);
    counter.sum
}

#[test]
fn a_past_goes_to_a_thread(rt: HostRuntime) {
    let mut counter = Counter {
        sum: 7,
        times: ghost_of(&0u8),
    };
    let lent = &mut counter;
    let (sum, ()) = thread::join(&rt, move || add_one(lent), || ());
    assert!(rt; sum == 8);
    let read = &counter;
    let (one, other) = thread::join(&rt, || read.sum, || read.sum);
    assert!(rt; one == 8 && other == 8);
}
