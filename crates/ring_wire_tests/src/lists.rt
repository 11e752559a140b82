//! Rows of bytes that are no frame and need long inputs: each list one longer than allowed, beside the longest that
//! is a frame.
//! Formats: What is no frame

use crate::hex_words::{bytes_of, is_frame};
use Item::{Call, Entry, Piece, Request};
use Start::{Commit, Message, Packing, Snap, Token, Wrapped, WrappedPacking};
use std::alloc::Global;
use std::test::Fail;

/// The beginning of a frame, up to its items.
#[derive(Clone, Copy)]
enum Start {
    /// Token 1 of ring 1.1: `seq` 100, `aru` 0, `aru_id` 1.
    Token,
    /// The commit token of ring 32.1 of all 16 processors.
    Commit,
    /// Message 1 of ring 3.1 from 2, of each version.
    Message,
    Packing,
    Snap,
    /// The same message, which wraps message 1 of ring 2.1 from 1.
    Wrapped,
    WrappedPacking,
}

impl Start {
    /// Returns the fixed bytes, the version and the kind of the frame, in hexadecimal.
    fn head(self) -> &'static str {
        match self {
            Start::Token => "54520102",
            Start::Commit => "54520104",
            Start::Message | Start::Wrapped => "54520101",
            Start::Packing | Start::WrappedPacking => "54520201",
            Start::Snap => "54520301",
        }
    }

    /// Returns the beginning of the frame's body, in hexadecimal.
    fn body(self) -> &'static str {
        match self {
            Start::Token => {
                "000000000000000101 0000000000000001 0000000000000064 0000000000000000 01"
            }
            Start::Commit => "000000000000002001 ffff",
            Start::Message | Start::Packing | Start::Snap => {
                "000000000000000301 0000000000000001 02"
            }
            Start::Wrapped | Start::WrappedPacking => {
                "000000000000000301 0000000000000001 02 02 000000000000000201 0000000000000001 01"
            }
        }
    }
}

/// An item of a list. Items are numbered from 1.
#[derive(Clone, Copy)]
enum Item {
    /// The request of the item's number.
    Request,
    /// The entry of a member that held nothing. Its old ring has the item's number and representative 1.
    Entry,
    /// The call of client 7 with the item's number, and an operation of this many zeros.
    Call(u16),
    /// A piece of a snapshot of as many places as the item's number: the snapshot's length, the offset, and the
    /// number of zeros.
    Piece(u32, u32, u16),
}

/// The beginning of a frame; the bytes before its items (their count, the hop, the payload's tag); the kind of item;
/// the number of items; the length of the whole in bytes; whether it is a frame.
type Row = (Start, &'static str, Item, u8, u32, bool);

const LISTS: [Row; 49] = [
    (Token, "20", Request, 32, 299, true),
    (Token, "21", Request, 33, 307, false),
    (Commit, "0f", Entry, 15, 875, true),
    (Commit, "10", Entry, 16, 932, true),
    (Commit, "11", Entry, 16, 932, true),
    (Commit, "20", Entry, 16, 932, true),
    (Commit, "21", Entry, 16, 932, false),
    (Commit, "0f", Entry, 16, 932, false),
    (Commit, "10", Entry, 15, 875, false),
    (Commit, "10", Entry, 17, 989, false),
    (Commit, "11", Entry, 17, 989, false),
    (Message, "01", Call(1024), 1, 1065, true),
    (Message, "01", Call(1025), 1, 1066, false),
    (Message, "05 0000000000000000 00", Call(0), 0, 36, false),
    (Message, "05 0000000000000000 07", Call(0), 7, 134, true),
    (Message, "05 0000000000000000 08", Call(0), 8, 148, false),
    (Message, "05 0000000000000000 07", Call(1024), 7, 7302, true),
    (
        Message,
        "05 0000000000000000 07",
        Call(1025),
        7,
        7309,
        false,
    ),
    (
        Message,
        "05 0000000000000000 08",
        Call(1024),
        8,
        8340,
        false,
    ),
    (Packing, "0601", Call(0), 1, 42, false),
    (Packing, "0602", Call(0), 2, 56, true),
    (Packing, "0610", Call(0), 16, 252, true),
    (Packing, "0611", Call(0), 17, 266, false),
    (Packing, "0602", Call(1024), 2, 2104, true),
    (Packing, "0602", Call(1025), 2, 2106, false),
    (Packing, "0607", Call(1024), 7, 7294, true),
    (Packing, "0608", Call(1024), 8, 8332, false),
    (Packing, "0608", Call(895), 8, 7300, true),
    (Packing, "0608", Call(896), 8, 7308, false),
    (Snap, "08", Piece(0, 0, 0), 1, 45, false),
    (Snap, "08", Piece(7000, 7000, 0), 1, 45, false),
    (Snap, "08", Piece(7000, 0, 6999), 1, 7044, false),
    (Snap, "08", Piece(7000, 0, 7000), 1, 7045, true),
    (Snap, "08", Piece(7001, 0, 7000), 1, 7045, true),
    (Snap, "08", Piece(7001, 0, 7001), 1, 7046, false),
    (Snap, "08", Piece(16_777_216, 0, 7000), 1, 7045, true),
    (
        Snap,
        "08",
        Piece(16_777_216, 16_772_000, 5216),
        1,
        5261,
        true,
    ),
    (Snap, "08", Piece(16_777_217, 0, 7000), 1, 7045, false),
    (
        Snap,
        "08",
        Piece(16_777_217, 16_772_000, 5217),
        1,
        5262,
        false,
    ),
    (Wrapped, "01", Call(0), 1, 60, true),
    (
        Wrapped,
        "02 000000000000000101 0000000000000001 01 01",
        Call(0),
        1,
        79,
        false,
    ),
    (Wrapped, "03", Call(0), 0, 46, false),
    (Wrapped, "05 0000000000000000 07", Call(1024), 7, 7321, true),
    (Wrapped, "05 0000000000000000 08", Call(0), 8, 167, false),
    (Wrapped, "0602", Call(0), 2, 75, false),
    (WrappedPacking, "0602", Call(0), 2, 75, true),
    (WrappedPacking, "0607", Call(1024), 7, 7313, true),
    (WrappedPacking, "0608", Call(896), 8, 7327, false),
    (WrappedPacking, "01", Call(0), 1, 60, false),
];

/// Appends the bytes that the words stand for.
fn put(alloc: Global, out: &mut Vec<u8>, words: &str) -> Result<(), Fail> {
    let bytes = bytes_of(alloc, words)?;
    out.extend_from_slice(bytes.as_slice())?;
    Ok(())
}

/// Appends `many` zeros.
fn put_zeros(out: &mut Vec<u8>, many: u16) -> Result<(), Fail> {
    for _ in 0..many {
        out.push(0)?;
    }
    Ok(())
}

/// Appends a call of client 7, with an operation of `length` zeros.
fn put_call(out: &mut Vec<u8>, number: u64, length: u16) -> Result<(), Fail> {
    out.extend_from_slice(&7u32.to_be_bytes())?;
    out.extend_from_slice(&number.to_be_bytes())?;
    out.extend_from_slice(&length.to_be_bytes())?;
    put_zeros(out, length)
}

/// Appends a piece of a snapshot, of `length` zeros.
fn put_piece(out: &mut Vec<u8>, at: u64, total: u32, offset: u32, length: u16) -> Result<(), Fail> {
    out.extend_from_slice(&at.to_be_bytes())?;
    out.extend_from_slice(&total.to_be_bytes())?;
    out.extend_from_slice(&offset.to_be_bytes())?;
    out.extend_from_slice(&length.to_be_bytes())?;
    put_zeros(out, length)
}

/// Appends the entry of a member of the old ring with this number and representative 1.
fn put_entry(out: &mut Vec<u8>, ring: u64) -> Result<(), Fail> {
    out.extend_from_slice(&ring.to_be_bytes())?;
    out.push(1)?;
    put_zeros(out, 48)
}

/// Appends the item with this number.
fn put_item(out: &mut Vec<u8>, item: Item, number: u64) -> Result<(), Fail> {
    match item {
        Item::Request => Ok(out.extend_from_slice(&number.to_be_bytes())?),
        Item::Entry => put_entry(out, number),
        Item::Call(length) => put_call(out, number, length),
        Item::Piece(total, offset, length) => put_piece(out, number, total, offset, length),
    }
}

/// Appends the bytes of a row.
fn put_row(alloc: Global, out: &mut Vec<u8>, row: &Row) -> Result<(), Fail> {
    let (start, then, item, times, length, _) = *row;
    put(alloc, out, start.head())?;
    out.extend_from_slice(&length.wrapping_sub(8).to_be_bytes())?;
    put(alloc, out, start.body())?;
    put(alloc, out, then)?;
    for number in 0..times {
        put_item(out, item, u64::from(number).wrapping_add(1))?;
    }
    Ok(())
}

/// Returns whether a row's bytes have its length, and are a frame exactly if it says so.
fn is_as_expected(alloc: Global, row: &Row) -> Result<bool, Fail> {
    let mut bytes = Vec::new(alloc);
    put_row(alloc, &mut bytes, row)?;
    let is = is_frame(alloc, bytes.as_slice())?;
    Ok(is == row.5 && bytes.as_slice().len() == row.4 as usize)
}

#[test]
fn longest_lists(rt: HostRuntime) -> Result<(), Fail> {
    for row in &LISTS {
        assert!(rt; is_as_expected(rt.alloc(), row)?, "{} {}", row.1, row.3);
    }
    Ok(())
}
