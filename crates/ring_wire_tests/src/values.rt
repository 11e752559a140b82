//! The values that the vectors decode to, and copies of them.
//! Formats: Vectors

use crate::hex_words::bytes_of;
use crate::vectors::{
    COMMIT, END, HEAD, HEAD_OF_NONE, JOIN, MESSAGE, PACK, PART, SNAP, TOKEN, TRIMMED_HEAD, WRAPPED,
    WRAPPED_PACK,
};
use ring_base::{Fault, Proc, ProcSet, RingId};
use ring_payload::Payload;
use ring_wire::{CommitEntry, Frame, Join, decode_frame};
use std::alloc::Allocator;
use std::test::Fail;

/// Returns whether the frame is the vector of its kind; false for a message.
fn is_a_vector<A: Allocator + Copy>(frame: &Frame<A>) -> bool {
    let ring = RingId {
        seq: 1,
        rep: Proc::new(1),
    };
    let told = Join {
        sender: Proc::new(2),
        number: 5,
        proc_set: ProcSet::from_bits(0b111),
        fail_set: ProcSet::from_bits(0b100),
    };
    match frame {
        Frame::Join(join) => *join == told,
        Frame::Token(token) => {
            token.ring == ring
                && token.number == 4
                && (token.seq, token.aru) == (10, 8)
                && token.aru_id == Some(Proc::new(2))
                && token.requests.as_slice() == [9, 10].as_slice()
        }
        Frame::Commit(boxed) => {
            let commit = boxed.token();
            commit.ring == ring
                && commit.members == ProcSet::from_bits(1)
                && commit.hop == 1
                && commit.entries.as_slice() == [CommitEntry::default()].as_slice()
        }
        Frame::Message(_) => false,
    }
}

/// Returns the payload's tag and four of its numbers, 0 where it has fewer.
/// A call: client, number, length. A head: the number of the last primary, and the three lengths. A part: first
/// place, count. A pack: count. A piece of a snapshot: places, total, offset, length. A Wrapped: ring, number,
/// sender.
fn payload_fields<A: Allocator + Copy>(payload: &Payload<A>) -> [u64; 5] {
    match payload {
        Payload::Call(call) => {
            let length = call.op.as_slice().len() as u64;
            [1, u64::from(call.client), call.number, length, 0]
        }
        Payload::Wrapped(wrapped) => {
            let sender = u64::from(wrapped.sender.number());
            [2, wrapped.ring.seq, wrapped.number, sender, 0]
        }
        Payload::End => [3, 0, 0, 0, 0],
        Payload::Head(head) => {
            let last = match head.last {
                Some(ring) => ring.seq,
                None => 0,
            };
            [4, last, head.length, head.committed, head.trimmed]
        }
        Payload::Part(part) => [5, part.first, part.calls.as_slice().len() as u64, 0, 0],
        Payload::Pack(pack) => [6, pack.calls.as_slice().len() as u64, 0, 0, 0],
        Payload::Snap(snap) => {
            let (total, offset) = (u64::from(snap.total), u64::from(snap.offset));
            let length = snap.bytes.as_slice().len() as u64;
            [8, snap.at, total, offset, length]
        }
    }
}

/// The fields that a test compares: whether the frame is the vector of its kind and no message; a message's ring,
/// number and sender; and the fields of its payload.
type Fields = (bool, Option<(u64, u64, u8)>, Option<[u64; 5]>);

fn fields<A: Allocator + Copy>(frame: &Frame<A>) -> Fields {
    match frame {
        Frame::Message(message) => {
            let message_fields = (message.ring.seq, message.number, message.sender.number());
            (
                false,
                Some(message_fields),
                Some(payload_fields(&message.payload)),
            )
        }
        _ => (is_a_vector(frame), None, None),
    }
}

/// Returns the fields of the frame, and those of its copy.
fn both_fields<A: Allocator + Copy + Drop>(frame: &Frame<A>) -> Result<[Fields; 2], Fault> {
    let copy = frame.clone()?;
    Ok([fields(frame), fields(&copy)])
}

/// Returns the same for the frame that the bytes encode.
fn fields_of<A: Allocator + Copy + Drop>(alloc: A, bytes: &[u8]) -> Result<[Fields; 2], Fault> {
    let frame = decode_frame(alloc, bytes)?;
    both_fields(&frame)
}

#[test]
fn fields_of_the_vectors(rt: HostRuntime) -> Result<(), Fail> {
    for (vector, fields) in &[
        (JOIN, (true, None, None)),
        (TOKEN, (true, None, None)),
        (COMMIT, (true, None, None)),
        (MESSAGE, (false, Some((1, 3, 1)), Some([1, 7, 1, 11, 0]))),
        (END, (false, Some((1, 1, 1)), Some([3, 0, 0, 0, 0]))),
        (
            HEAD_OF_NONE,
            (false, Some((1, 5, 2)), Some([4, 0, 0, 0, 0])),
        ),
        (HEAD, (false, Some((8, 4, 1)), Some([4, 4, 3, 2, 0]))),
        (
            TRIMMED_HEAD,
            (false, Some((8, 4, 1)), Some([4, 4, 300, 290, 256])),
        ),
        (PART, (false, Some((8, 7, 1)), Some([5, 0, 1, 0, 0]))),
        (PACK, (false, Some((1, 3, 1)), Some([6, 2, 0, 0, 0]))),
        (
            SNAP,
            (false, Some((8, 6, 1)), Some([8, 256, 7003, 7000, 3])),
        ),
        (WRAPPED, (false, Some((2, 1, 2)), Some([2, 1, 3, 1, 0]))),
        (
            WRAPPED_PACK,
            (false, Some((2, 1, 2)), Some([2, 1, 3, 1, 0])),
        ),
    ] {
        let bytes = bytes_of(rt.alloc(), *vector)?;
        let told = fields_of(rt.alloc(), bytes.as_slice())?;
        assert!(rt; told == [*fields, *fields], "{vector}");
    }
    Ok(())
}
