//! Bytes from hexadecimal words, and whether they are a frame.

ghost use Rattle.ring_wire.specs.Frames.{FrameFits};

use bytes::BytesMut;
use ring_base::Fault;
use ring_wire::{Frame, Wire, decode_frame};
use std::alloc::{Allocator, Global};
use std::test::Fail;

/// Returns the bytes that the hexadecimal words stand for, in order.
pub fn bytes_of(alloc: Global, words: &str) -> Result<Vec<u8>, Fail> {
    let mut bytes = Vec::new(alloc);
    for word in words.split_whitespace() {
        let hex_words = hex::decode(alloc, word)?;
        bytes.extend_from_slice(hex_words.as_slice())?;
    }
    Ok(bytes)
}

/// Returns true if the frame is encoded as these bytes.
/// Errors: `Conflict` if it is encoded otherwise; `Memory`.
fn is_hex_of<A: Allocator + Copy>(alloc: A, frame: &Frame<A>, bytes: &[u8]) -> Result<bool, Fault>
    requires { FrameFits frame.now }
{
    let mut out = BytesMut::new(alloc);
    match frame.put(&mut out) {
        Ok(()) if out.as_slice() == bytes => Ok(true),
        Ok(()) => Err(Fault::Conflict),
        Err(fault) => Err(fault),
    }
}

/// Returns whether the bytes are exactly one frame.
/// Errors: `Conflict` if that frame is encoded as other bytes; `Memory`.
pub fn is_frame<A: Allocator + Copy>(alloc: A, bytes: &[u8]) -> Result<bool, Fault> {
    match decode_frame(alloc, bytes) {
        Ok(frame) => is_hex_of(alloc, &frame, bytes),
        Err(Fault::BadFrame) => Ok(false),
        Err(fault) => Err(fault),
    }
}
