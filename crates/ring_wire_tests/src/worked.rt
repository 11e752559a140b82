//! The vectors encoded and decoded, and bytes near them that are no frames.
//! Formats: Vectors; What is no frame

use crate::hex_words::{bytes_of, is_frame};
use crate::vectors::{
    ALL, COMMIT, COMMIT_OF_TWO, EACH_KIND, HEAD, JOIN, MESSAGE, PACK, PART, SNAP, TOKEN,
    TRIMMED_HEAD, WRAPPED,
};
use ring_base::{Fault, Proc, ProcSet};
use ring_wire::{Frame, Join, Wire};
use std::alloc::{Allocator, Global};
use std::test::Fail;

/// Each vector is a frame with this encoding, and no frame with one byte more.
#[test]
fn vectors_both_ways(rt: HostRuntime) -> Result<(), Fail> {
    for vector in &ALL {
        let mut bytes = bytes_of(rt.alloc(), *vector)?;
        assert!(rt; is_frame(rt.alloc(), bytes.as_slice())?, "{vector}");
        bytes.push(0)?;
        assert!(rt; !is_frame(rt.alloc(), bytes.as_slice())?, "{vector}");
    }
    Ok(())
}

/// Returns two pairs: the number of proper prefixes of the vector, the empty one included, and how many of them are
/// frames; the number of inputs that differ from it in one bit, and how many of them are frames.
fn changes(alloc: Global, bytes: &[u8]) -> Result<[(u32, u32); 2], Fault> {
    let mut fronts = (0u32, 0u32);
    let mut bits = (0u32, 0u32);
    for place in 0..bytes.len() {
        let is = is_frame(alloc, &bytes[..place])?;
        fronts = (
            fronts.0.wrapping_add(1),
            fronts.1.wrapping_add(u32::from(is)),
        );
        for bit in 0..8u32 {
            let mut changed = Vec::from_slice(alloc, bytes)?;
            if let Some(byte) = changed.as_mut_slice().get_mut(place) {
                *byte ^= 1 << bit;
            }
            let is = is_frame(alloc, changed.as_slice())?;
            bits = (bits.0.wrapping_add(1), bits.1.wrapping_add(u32::from(is)));
        }
    }
    Ok([fronts, bits])
}

/// None of the 21 + 59 + 52 + 77 proper prefixes is a frame. Of the inputs with one bit changed, eight times as many,
/// a given number are frames.
#[test]
fn fronts_and_changed_bits(rt: HostRuntime) -> Result<(), Fail> {
    let table = [(21, 168, 78), (59, 472, 192), (52, 416, 312), (77, 616, 76)];
    for (vector, (length, all, frames)) in EACH_KIND.iter().zip(table.iter()) {
        let bytes = bytes_of(rt.alloc(), *vector)?;
        let changes = changes(rt.alloc(), bytes.as_slice())?;
        assert!(rt; changes == [(*length, 0), (*all, *frames)], "{length}");
    }
    Ok(())
}

/// A vector, a place in it, and the hexadecimal bytes that replace those from there on: the result is no frame.
const NO_FRAMES: [(&str, usize, &str); 66] = [
    (JOIN, 2, "00"),
    (JOIN, 2, "02"),
    (JOIN, 2, "03"),
    (JOIN, 3, "00"),
    (JOIN, 3, "05"),
    (JOIN, 4, "0000000c"),
    (JOIN, 4, "0000000e"),
    (TOKEN, 2, "00"),
    (TOKEN, 2, "02"),
    (TOKEN, 2, "03"),
    (TOKEN, 3, "00"),
    (TOKEN, 3, "05"),
    (TOKEN, 4, "00000032"),
    (TOKEN, 4, "00000034"),
    (MESSAGE, 2, "00"),
    (MESSAGE, 2, "02"),
    (MESSAGE, 2, "03"),
    (MESSAGE, 3, "00"),
    (MESSAGE, 3, "05"),
    (MESSAGE, 4, "0000002b"),
    (MESSAGE, 4, "0000002d"),
    (COMMIT, 2, "00"),
    (COMMIT, 2, "02"),
    (COMMIT, 2, "03"),
    (COMMIT, 3, "00"),
    (COMMIT, 3, "05"),
    (COMMIT, 4, "00000044"),
    (COMMIT, 4, "00000046"),
    (PACK, 2, "01"),
    (PACK, 2, "03"),
    (PACK, 3, "00"),
    (PACK, 3, "05"),
    (PACK, 4, "0000003d"),
    (PACK, 4, "0000003f"),
    (TOKEN, 43, "000000000000000a 0000000000000009"),
    (TOKEN, 41, "00"),
    (COMMIT, 19, "03"),
    (COMMIT, 19, "00"),
    (COMMIT, 17, "000302"),
    (COMMIT_OF_TWO, 19, "01"),
    (COMMIT_OF_TWO, 77, "000000000000000002"),
    (
        COMMIT_OF_TWO,
        20,
        "000000000000000003 0000000000000000 0000000000000000 \
        0000000000000000000000000000000000000000000000000000000000000000 000000000000000001",
    ),
    (JOIN, 19, "0008"),
    (WRAPPED, 45, "02"),
    (WRAPPED, 45, "03"),
    (WRAPPED, 2, "02"),
    (PACK, 27, "01"),
    (PACK, 27, "11"),
    (TRIMMED_HEAD, 52, "0000000000000000"),
    (TRIMMED_HEAD, 52, "0000000000000123"),
    (SNAP, 27, "0000000000000000"),
    (SNAP, 27, "4000000000000001"),
    (SNAP, 35, "00000000"),
    (SNAP, 35, "00001b5b 00001b57"),
    (SNAP, 35, "00001b5a 00001b58"),
    (SNAP, 35, "00001b5a 00001b57"),
    (SNAP, 43, "0001"),
    (WRAPPED, 27, "0000000000000002"),
    (PART, 35, "00"),
    (PART, 35, "02"),
    (MESSAGE, 31, "0000000000000000"),
    (PART, 40, "0000000000000000"),
    (PACK, 57, "0000000000000000"),
    (WRAPPED, 50, "0000000000000000"),
    (MESSAGE, 39, "000a"),
    (HEAD, 27, "000000000000000000"),
];

/// Rows of bytes that are no frame: vectors with a few bytes changed.
#[test]
fn what_is_no_frame(rt: HostRuntime) -> Result<(), Fail> {
    for (vector, place, words) in &NO_FRAMES {
        let mut bytes = bytes_of(rt.alloc(), *vector)?;
        let patch = bytes_of(rt.alloc(), *words)?;
        for (i, byte) in patch.iter().enumerate() {
            if let Some(target) = bytes.as_mut_slice().get_mut(place.wrapping_add(i)) {
                *target = *byte;
            }
        }
        assert!(rt; !is_frame(rt.alloc(), bytes.as_slice())?, "{place} {words}");
    }
    assert!(rt; !is_frame(rt.alloc(), &[])?);
    Ok(())
}

/// Returns the join that begins the bytes and its length, or `None` if another frame does.
fn join_at_the_front<A: Allocator + Copy + Drop>(
    alloc: A,
    bytes: &[u8],
) -> Result<Option<(Join, usize)>, Fault> {
    let (frame, length): (Frame<A>, usize) = Wire::get(alloc, bytes)?;
    match &frame {
        Frame::Join(join) => Ok(Some((*join, length))),
        _ => Ok(None),
    }
}

/// The join and its length are read from the front of two frames; decoding wants exactly one frame.
#[test]
fn a_frame_at_the_front(rt: HostRuntime) -> Result<(), Fail> {
    let mut two = bytes_of(rt.alloc(), JOIN)?;
    two.extend_from_slice(bytes_of(rt.alloc(), TOKEN)?.as_slice())?;
    let join = Join {
        sender: Proc::new(2),
        number: 5,
        proc_set: ProcSet::from_bits(0b111),
        fail_set: ProcSet::from_bits(0b100),
    };
    assert!(rt; join_at_the_front(rt.alloc(), two.as_slice()) == Ok(Some((join, 21))));
    assert!(rt; is_frame(rt.alloc(), two.as_slice()) == Ok(false));
    Ok(())
}
