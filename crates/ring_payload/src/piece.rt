//! The bytes of a piece of a snapshot.
//!
//! Formats: Payloads

ghost use Rattle.std.specs.Prelude.{◌≡◌, ℕ, ◌≤◌, List, length, IfOk, IfErr};
ghost use Rattle.ring_codec.specs.Reading.{Appends};
ghost use Rattle.ring_codec.specs.FaultReexports.{Memory};

use bytes::BytesMut;
use ring_codec::Fault;
use std::alloc::{AllocError, Allocator, Global};
use std::marker::Model;

/// The bytes of a [`Snap`](crate::Snap), on the heap.
///
/// Contracts see the bytes.
///
/// Formats: Payloads
#[derive(Drop)]
pub struct PieceBytes<A: Allocator + Copy = Global> {
    bytes: Vec<u8, A>,
}

impl<A: Allocator + Copy> Model for PieceBytes<A> {
    ghost Value = { List ℕ };

    ghost view = { λ piece. piece.bytes.items };
}

impl<A: Allocator + Copy> PieceBytes<A> {
    /// Returns a piece with a copy of `bytes`, of any length.
    ///
    /// To be encoded, a piece must have 1 to 7,000 bytes.
    ///
    /// Errors: `Memory` if an allocation fails.
    ///
    /// Formats: Payloads
    pub fn from_slice(alloc: A, bytes: &[u8]) -> Result<PieceBytes<A>, Fault>
        ensures ok { IfOk result (λ piece. piece ≡ bytes.now) }
        ensures refused { IfErr result (λ fault. fault ≡ Memory) }
    {
        Ok(PieceBytes {
            bytes: Vec::from_slice(alloc, bytes)?,
        })
    }

    /// Returns the bytes of the piece.
    pub fn as_slice(&self) -> &[u8]
        ensures { result.now ≡ self.now }
    {
        self.bytes.as_slice()
    }

    /// Appends the bytes of the piece to `out`, without their number.
    ///
    /// `out` must have room for them. Does not allocate.
    ///
    /// Formats: Payloads
    pub(crate) fn write<B: Allocator + Copy>(&self, out: &mut BytesMut<B>)
        requires { length self.now ≤ out.old.spare }
        ensures { Appends out.old out.new self.now }
    {
        out.extend_reserved(self.as_slice());
    }
}

impl<A: Allocator + Copy> Clone for PieceBytes<A> {
    ghost is_clone = { λ piece copy. copy ≡ piece };

    fn clone(&self) -> Result<PieceBytes<A>, AllocError> {
        Ok(PieceBytes {
            bytes: self.bytes.clone()?,
        })
    }
}
