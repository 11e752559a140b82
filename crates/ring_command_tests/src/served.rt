//! A node that serves the records of some bytes.

use ring_base::Fixed;
use ring_object::Object;
use ring_record_node::serve;
use std::alloc::Allocator;

/// The standard output and standard error of a node, and its exit status.
#[derive(Drop)]
pub(crate) struct ServedOutput<A: Allocator + Copy + Drop> {
    pub(crate) out: Vec<u8, A>,
    pub(crate) err: Vec<u8, A>,
    pub(crate) status: u8,
}

/// Runs `serve` for this processor, with its memory from `heap`. The memory of its outputs is from `ample`.
pub(crate) fn served_on<O: Object, A: Allocator + Copy + Drop>(
    ample: A,
    heap: O::Alloc,
    fixed: Fixed,
    me: u8,
    input: &[u8],
) -> ServedOutput<A> {
    let mut input = input;
    let mut out = Vec::new(ample);
    let mut err = Vec::new(ample);
    let status = serve::<O, _, _, _>(heap, fixed, me, &mut input, &mut out, &mut err);
    ServedOutput { out, err, status }
}
