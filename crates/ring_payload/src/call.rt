//! Clients' calls.
//!
//! Formats: Numbers and parts

ghost use Rattle.std.specs.Prelude.{◌≡◌, ℕ, ◌+◌, ◌^◌, ◌<◌, ◌≤◌, List, [], ◌∷◌, ◌++◌, length};
ghost use Rattle.ring_codec.specs.Reading.{Appends, IsReadResult};

use crate::operation::{CallOperation, MAX_OPERATION};
use bytes::BytesMut;
use ring_codec::{Decode, Encode, Fault, Reader};
use std::alloc::{Allocator, Global};

/// `Call`: a client's request: the client, the call's number and the operation.
///
/// Rules: Sessions 1
/// Formats: Numbers and parts
#[derive(Clone, Drop)]
pub struct Call<A: Allocator + Copy = Global> {
    /// The client's number, 0 to 2^32 - 1.
    pub client: u32,
    /// The call's number among the calls of this client, which are numbered from 1.
    pub number: u64,
    /// The operation on the replicated object, 0 to 1,024 bytes.
    pub op: CallOperation<A>,
}

impl<A: Allocator + Copy> Call<A> {
    ghost use Rattle.ring_payload.specs.Calls.{call_bytes, IsNewCall};

    /// Returns the call with these fields and a copy of the operation `op`.
    ///
    /// Errors: the first that applies of `OpTooLong` if `op` has more than 1,024 bytes, `NumberGap` if `number` is 0,
    /// and `Memory` if an allocation fails.
    ///
    /// Rules: Sessions 1; Refusals 4
    /// Formats: Numbers and parts
    pub fn new(alloc: A, client: u32, number: u64, op: &[u8]) -> Result<Call<A>, Fault>
        ensures { IsNewCall client number op.now result }
    {
        if op.len() > MAX_OPERATION {
            return Err(Fault::OpTooLong);
        }
        if number == 0 {
            return Err(Fault::NumberGap);
        }
        Ok(Call {
            client,
            number,
            op: CallOperation::from_slice(alloc, op)?,
        })
    }

    /// Returns the length of the call's encoding in bytes: 14 plus the length of its operation.
    ///
    /// That is 14 to 1,038 for a call within the limits of its format.
    ///
    /// Formats: Numbers and parts
    pub fn encoded_call_len(&self) -> usize
        ensures { result ≡ call_bytes self.now }
    {
        14 + self.op.as_slice().len()
    }
}

impl<A: Allocator + Copy> Encode for Call<A> {
    ghost use Rattle.ring_payload.specs.Calls.{call_encoding, CallFits, call_at, call_format};

    ghost encoding = { call_encoding };

    ghost max_encoded_len = { 1038 };

    ghost is_within_limits = { CallFits };

    ghost decoding_at_front = { call_at };

    ghost decoding_is_exact = { call_format };

    fn encoded_len(&self) -> usize {
        12 + self.op.encoded_len()
    }

    fn write<B: Allocator + Copy>(&self, out: &mut BytesMut<B>) {
        self.client.write(out);
        self.number.write(out);
        self.op.write(out);
    }
}

impl<A: Allocator + Copy> Decode<A> for Call<A> {
    #[tactic(auto, unfolding(crate::specs::Calls::call_at))]
    fn read(alloc: A, from: &mut Reader<'_>) -> Result<Call<A>, Fault> {
        let client = Decode::read(alloc, from)?;
        let number = Decode::read(alloc, from)?;
        if number < 1 {
            return Err(Fault::BadFrame);
        }
        let op = Decode::read(alloc, from)?;
        Ok(Call { client, number, op })
    }
}
