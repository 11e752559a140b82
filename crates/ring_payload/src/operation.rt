//! Operations: the bytes that a call passes to the replicated object.
//!
//! Rules: Sessions 1
//! Formats: Numbers and parts

ghost use Rattle.std.specs.Prelude.{◌≡◌, ℕ, ◌+◌, ◌^◌, ◌<◌, ◌≤◌, List, [], ◌∷◌, ◌++◌, length, IfOk, IfErr};
ghost use Rattle.ring_codec.specs.Reading.{Appends, IsReadResult};
ghost use Rattle.ring_codec.specs.FaultReexports.{Memory};

use bytes::BytesMut;
use ring_codec::{Decode, Encode, Fault, Reader};
use std::alloc::{AllocError, Allocator, Global};
use std::marker::Model;
use std::sync::ArcSlice;

/// The maximum length of an operation in bytes.
///
/// An operation may be empty.
///
/// Rules: Limits 1
pub const MAX_OPERATION: usize = 1024;

/// The operation of a call, on the heap.
///
/// Its copies share its bytes, so copying does not allocate. Contracts see the bytes.
///
/// Rules: Sessions 1
#[derive(Drop)]
pub struct CallOperation<A: Allocator + Copy = Global> {
    bytes: ArcSlice<u8, A>,
}

impl<A: Allocator + Copy> Model for CallOperation<A> {
    ghost use Rattle.std.specs.Prelude.{ℕ, List};
    ghost use Rattle.std.specs.Arc.{arc_slice_items};

    ghost Value = { List ℕ };

    ghost view = { λ op. arc_slice_items op.bytes };
}

impl<A: Allocator + Copy> CallOperation<A> {
    /// Returns an operation with a copy of `bytes`, of any length.
    ///
    /// To be encoded, an operation must have at most 1,024 bytes.
    ///
    /// Errors: `Memory` if an allocation fails.
    ///
    /// Rules: Sessions 1
    pub fn from_slice(alloc: A, bytes: &[u8]) -> Result<CallOperation<A>, Fault>
        ensures ok { IfOk result (λ op. op ≡ bytes.now) }
        ensures refused { IfErr result (λ fault. fault ≡ Memory) }
    {
        Ok(CallOperation {
            bytes: ArcSlice::from_slice(alloc, bytes)?,
        })
    }

    /// Returns the bytes of the operation.
    pub fn as_slice(&self) -> &[u8]
        ensures { result.now ≡ self.now }
    {
        self.bytes.as_slice()
    }
}

impl<A: Allocator + Copy> Clone for CallOperation<A> {
    ghost is_clone = { λ op copy. copy ≡ op };

    fn clone(&self) -> Result<CallOperation<A>, AllocError> {
        Ok(CallOperation {
            bytes: self.bytes.clone()?,
        })
    }
}

impl<A: Allocator + Copy> Encode for CallOperation<A> {
    ghost use Rattle.ring_payload.specs.Operations.{op_encoding, OpFits, op_at, op_format};

    ghost encoding = { op_encoding };

    ghost max_encoded_len = { 1026 };

    ghost is_within_limits = { OpFits };

    ghost decoding_at_front = { op_at };

    ghost decoding_is_exact = { op_format };

    fn encoded_len(&self) -> usize {
        2 + self.as_slice().len()
    }

    fn write<B: Allocator + Copy>(&self, out: &mut BytesMut<B>) {
        let bytes = self.as_slice();
        (bytes.len() as u16).write(out);
        out.extend_reserved(bytes);
    }
}

impl<A: Allocator + Copy> Decode<A> for CallOperation<A> {
    #[tactic(auto, unfolding(crate::specs::Operations::op_at))]
    fn read(alloc: A, from: &mut Reader<'_>) -> Result<CallOperation<A>, Fault> {
        let len: u16 = Decode::read(alloc, from)?;
        if len as usize > MAX_OPERATION {
            return Err(Fault::BadFrame);
        }
        let bytes = from.take_bytes(len as usize)?;
        CallOperation::from_slice(alloc, bytes)
    }
}
