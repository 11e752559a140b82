//! The output of a listing of a long or failing file, or with refused memory. The listings in `totem_examples` show the lines of
//! frames, also where the output fails.
//! Formats: Listing frames

use crate::inputs::FailingReader;
use crate::printed::RunOutput;
use refusing_alloc::{RefusingHeap, refuse_in_turn};
use ring_console::frames;
use std::alloc::{AllocError, Allocator, Global};
use std::io::{Read, Write};
use std::test::Fail;

/// A join.
const JOIN: &[u8] = b"\x54\x52\x01\x03\0\0\0\x0d\x02\0\0\0\0\0\0\0\x05\0\x07\0\x04";

/// That join, a token, a message and a commit token, one after another.
const FOUR: &[u8] = b"\x54\x52\x01\x03\0\0\0\x0d\x02\0\0\0\0\0\0\0\x05\0\x07\0\x04\
    \x54\x52\x01\x02\0\0\0\x33\0\0\0\0\0\0\0\x01\x01\0\0\0\0\0\0\0\x04\0\0\0\0\0\0\0\x0a\0\0\0\0\0\0\0\
    \x08\x02\x02\0\0\0\0\0\0\0\x09\0\0\0\0\0\0\0\x0a\
    \x54\x52\x01\x01\0\0\0\x2c\0\0\0\0\0\0\0\x01\x01\0\0\0\0\0\0\0\x03\x01\x01\0\0\0\x07\0\0\0\0\0\0\0\
    \x01\0\x0b\x01\x01\0\0\0\0\0\0\0\0\x05\
    \x54\x52\x01\x04\0\0\0\x45\0\0\0\0\0\0\0\x01\x01\0\x01\x01\0\0\0\0\0\0\0\0\x01\0\0\0\0\0\0\0\0\0\0\0\
    \0\0\0\0\0\0\0\0\0\0\0\0\0\0\0\0\0\0\0\0\0\0\0\0\0\0\0\0\0\0\0\0\0\0\0\0\0";

/// The lines of these frames.
const FOUR_LINES: &str = "join 2 number 5 procs 1,2,3 fails 3\n\
    token 1.1 number 4 seq 10 aru 8 id 2 asks 9,10\n\
    message 1.1 seq 3 from 1 call 7.1 op 11\n\
    commit 1.1 members 1 hop 1 entries 1\n";

/// Lists frames and returns the exit status. All tests use this, so that `frames` is compiled for a single reader and writer.
fn status_of<A: Allocator + Copy>(
    heap: A,
    mut input: &mut dyn Read,
    mut out: &mut dyn Write,
    mut err: &mut dyn Write,
) -> u8 {
    frames(heap, &mut input, &mut out, &mut err)
}

fn listing_of<A: Allocator + Copy>(heap: A, alloc: Global, input: &mut dyn Read) -> RunOutput {
    let mut out = Vec::new(alloc);
    let mut err = Vec::new(alloc);
    let status = status_of(heap, input, &mut out, &mut err);
    RunOutput { out, err, status }
}

/// Lists this number of joins and one more byte. Returns the number of requests for memory and of printed bytes, if the listing
/// fails with this line.
fn requests_of(alloc: Global, count: usize, err: &str) -> Result<Option<(u64, usize)>, AllocError> {
    let mut joins = Vec::new(alloc);
    for _ in 0..count {
        joins.extend_from_slice(JOIN)?;
    }
    joins.push(0)?;
    let heap = RefusingHeap::new(alloc, u64::MAX);
    let printed = listing_of(&heap, alloc, &mut joins.as_slice());
    let told = (heap.request_count(), printed.out.len());
    Ok(printed.is_refused(err, 1).then_some(told))
}

#[test]
fn a_long_file_takes_no_more_memory_than_a_short_one(rt: HostRuntime) -> Result<(), Fail> {
    let short = requests_of(rt.alloc(), 1, "totem: 12 bad frame at byte 21\n")?;
    let long = requests_of(rt.alloc(), 10_000, "totem: 12 bad frame at byte 210000\n")?;
    assert!(rt; matches!((short, long), (Some((few, 36)), Some((many, 360_000))) if few == many));
    Ok(())
}

/// A file of this length whose reading then fails, and the number of lines in its listing.
#[test]
fn a_file_that_fails_is_bad_at_byte_0_after_its_whole_frames(rt: HostRuntime) {
    let ample = RefusingHeap::new(rt.alloc(), u64::MAX);
    for (length, lines) in [(0, 0), (20, 0), (21, 1), (80, 2), (208, 3), (209, 4)] {
        let read = FOUR.get(..length).unwrap_or(FOUR);
        let printed = listing_of(&ample, rt.alloc(), &mut FailingReader(read));
        let told = printed.out.iter().filter(|byte| **byte == b'\n').count();
        let is_refused = printed.is_refused("totem: 12 bad frame at byte 0\n", 1);
        assert!(rt; is_refused && told == lines, "of {length}");
    }
}

/// Where a request is refused, standard output is a prefix of the lines.
#[test]
fn each_request_for_memory_may_be_refused(rt: HostRuntime) {
    let alloc = rt.alloc();
    let list = |heap: &RefusingHeap| {
        let mut input = FOUR;
        let printed = listing_of(heap, alloc, &mut input);
        let is_front = FOUR_LINES.as_bytes().starts_with(printed.out.as_slice());
        if is_front && printed.is_refused("totem: 11 out of memory\n", 1) {
            Err(AllocError)
        } else {
            Ok(())
        }
    };
    assert!(rt; refuse_in_turn(alloc, &list) > Some(2));
}
