//! Refusals of generating a script.

use refusing_alloc::{RefusingHeap, refuse_in_turn};
use ring_base::Fault;
use ring_script_generator::generate_script;
use std::alloc::AllocError;

#[test]
fn groups_that_are_none_are_refused(rt: HostRuntime) {
    let groups: [&[u8]; 3] = [&[], &[1, 0], &[1; 17]];
    for votes in groups {
        assert!(rt; generate_script(rt.alloc(), votes, 1, 10).err() == Some(Fault::NotMember));
    }
}

#[test]
fn refused_memory_is_told(rt: HostRuntime) {
    let make = |heap: &RefusingHeap| match generate_script(heap, &[1, 1, 1], 7, 50) {
        Err(Fault::Memory) => Err(AllocError),
        _ => Ok(()),
    };
    assert!(rt; refuse_in_turn(rt.alloc(), &make).is_some());
}
