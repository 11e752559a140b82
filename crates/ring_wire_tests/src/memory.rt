//! Refused memory: each request in turn, while frames are decoded, copied and encoded.
//! Rules: Refusals 3 to 5

ghost use Rattle.ring_wire.specs.Frames.{FrameFits};

use crate::hex_words::bytes_of;
use crate::vectors::{COMMIT, HEAD, JOIN, MESSAGE, PACK, PART, SNAP, TOKEN, TRIMMED_HEAD, WRAPPED};
use bytes::BytesMut;
use refusing_alloc::{RefusingHeap, refuse_in_turn};
use ring_base::Fault;
use ring_payload::Call;
use ring_wire::{Frame, Wire, decode_frame};
use std::alloc::{AllocError, Allocator, Global};
use std::test::Fail;

/// Returns the result that `refuse_in_turn` expects of work done twice with an allocator that refuses one request:
/// the work that was refused it returned `Memory`, and the other was done.
fn answered(
    heap: &RefusingHeap,
    first: Result<(), Fault>,
    again: Result<(), Fault>,
) -> Result<(), AllocError> {
    let refused = heap.has_refused();
    let is_right = match (first, again) {
        (Ok(()), Ok(())) => !refused,
        (Err(Fault::Memory), Ok(())) | (Ok(()), Err(Fault::Memory)) => refused,
        _ => false,
    };
    if is_right == refused {
        Err(AllocError)
    } else {
        Ok(())
    }
}

fn copy<A: Allocator + Copy + Drop>(frame: &Frame<A>) -> Result<(), Fault> {
    let _copy = frame.clone()?;
    Ok(())
}

/// Decodes the frame, and copies it.
fn read_and_copy<A: Allocator + Copy + Drop>(alloc: A, bytes: &[u8]) -> Result<(), Fault> {
    let frame = decode_frame(alloc, bytes)?;
    copy(&frame)
}

/// A call takes memory for its operation when it is decoded and when it is copied. A part and a pack also take some
/// for their lists, a snapshot's piece for its bytes, and a commit token for itself. Heads, tokens and joins take
/// none.
#[test]
fn refused_reads_and_copies(rt: HostRuntime) -> Result<(), Fail> {
    for (vector, least) in &[
        (MESSAGE, 4),
        (WRAPPED, 4),
        (PART, 8),
        (PACK, 12),
        (SNAP, 4),
        (COMMIT, 4),
        (HEAD, 0),
        (TRIMMED_HEAD, 0),
        (TOKEN, 0),
        (JOIN, 0),
    ] {
        let bytes = bytes_of(rt.alloc(), *vector)?;
        let frame = bytes.as_slice();
        let requests = refuse_in_turn(
            rt.alloc(),
            &|heap: &RefusingHeap| answered(
                heap,
                read_and_copy(heap, frame),
                read_and_copy(heap, frame),
            ),
        );
        let are_enough = requests >= Some(*least) && (requests == Some(0)) == (*least == 0);
        assert!(rt; are_enough, "at least {least}");
    }
    Ok(())
}

/// Appends the frame, whose encoding is `bytes`, to the buffer. A refusal leaves the buffer unchanged.
fn put_frame<A: Allocator + Copy>(
    frame: &Frame<A>,
    bytes: &[u8],
    out: &mut BytesMut<A>,
    wanted: &mut Vec<u8>,
) -> Result<(), Fault>
    requires { FrameFits frame.now }
{
    let answer = frame.put(out);
    if answer.is_ok() {
        wanted.extend_from_slice(bytes)?;
    }
    if out.as_slice() != wanted.as_slice() {
        return Err(Fault::Conflict);
    }
    answer
}

/// Does the same with the frame that the bytes encode.
fn put_behind<A: Allocator + Copy + Drop>(
    heap: A,
    bytes: &[u8],
    out: &mut BytesMut<A>,
    wanted: &mut Vec<u8>,
) -> Result<(), Fault> {
    let frame = decode_frame(heap, bytes)?;
    put_frame(&frame, bytes, out, wanted)
}

/// Appends the frame five times, so that the buffer grows.
fn put_repeated<A: Allocator + Copy + Drop>(
    heap: A,
    alloc: Global,
    bytes: &[u8],
) -> Result<(), Fault> {
    let mut out = BytesMut::new(heap);
    let mut wanted = Vec::new(alloc);
    for _ in 0..5 {
        put_behind(heap, bytes, &mut out, &mut wanted)?;
    }
    Ok(())
}

/// Returns the greatest frame: message 1 of ring 3.1 from 2, which wraps message 1 of ring 2.1 from 1, a part of
/// seven calls of 1,024 bytes each.
fn greatest(alloc: Global) -> Result<Vec<u8>, Fail> {
    let mut bytes = bytes_of(
        alloc,
        "5452010100001c91 000000000000000301 0000000000000001 02 02 000000000000000201 0000000000000001 01 \
        05 0000000000000000 07",
    )?;
    for number in 1..8u8 {
        bytes.extend_from_slice(&[0, 0, 0, 7, 0, 0, 0, 0, 0, 0, 0, number, 4, 0])?;
        bytes.extend_from_slice(&[number; 1024])?;
    }
    Ok(bytes)
}

/// The buffer takes memory as it grows. The greatest frame also takes some for seven operations and their list.
#[test]
fn refused_puts(rt: HostRuntime) -> Result<(), Fail> {
    let alloc = rt.alloc();
    let token = bytes_of(alloc, TOKEN)?;
    let message = bytes_of(alloc, MESSAGE)?;
    let greatest = greatest(alloc)?;
    for frame in &[token.as_slice(), message.as_slice(), greatest.as_slice()] {
        let requests = refuse_in_turn(
            alloc,
            &|heap: &RefusingHeap| answered(
                heap,
                put_repeated(heap, alloc, *frame),
                put_repeated(heap, alloc, *frame),
            ),
        );
        assert!(rt; requests >= Some(4));
    }
    Ok(())
}

/// Returns the client, the number and the operation's length of a new call whose operation has `length` bytes.
fn new_call<A: Allocator + Copy>(
    heap: A,
    alloc: Global,
    number: u64,
    length: usize,
) -> Result<(u32, u64, usize), Fault> {
    let op = vec![in alloc; 7u8; length]?;
    let call = Call::new(heap, 1, number, op.as_slice())?;
    Ok((call.client, call.number, call.op.as_slice().len()))
}

/// A new call is refused in this order: operation too long, number 0, no memory.
#[test]
fn new_calls(rt: HostRuntime) {
    let heap = RefusingHeap::new(rt.alloc(), 0);
    for (number, length, told) in &[
        (0, 1025, Err(Fault::OpTooLong)),
        (0, 1024, Err(Fault::NumberGap)),
        (1, 1024, Err(Fault::Memory)),
        (1, 1024, Ok((1, 1, 1024))),
    ] {
        assert!(rt;
            new_call(&heap, rt.alloc(), *number, *length) == *told,
            "{number} {length}"
        );
    }
}
