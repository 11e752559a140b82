//! Lists of calls, parts of a log, and packs of calls.
//!
//! Rules: Token and window 9; The replicated log 2
//! Formats: Payloads

ghost use Rattle.std.specs.Prelude.{◌≡◌, ℕ, ◌+◌, ◌^◌, ◌<◌, ◌≤◌, List, [], ◌∷◌, ◌++◌, length};
ghost use Rattle.ring_codec.specs.Reading.{Appends, IsReadResult};
ghost use Rattle.ring_payload.specs.Packs.{is_within_pack_bytes as is_short_pack};

use crate::call::Call;
use bytes::BytesMut;
use ring_codec::{Decode, Encode, Fault, MAX, Reader, decode_list, encode_list, list_encoded_len};
use std::alloc::{AllocError, Allocator, Global};
use std::marker::Model;

/// An owned list of calls.
///
/// Contracts see the list.
///
/// Formats: Payloads
#[derive(Drop)]
pub struct CallList<A: Allocator + Copy = Global> {
    calls: Vec<Call<A>, A>,
}

impl<A: Allocator + Copy> Model for CallList<A> {
    ghost use Rattle.std.specs.Prelude.{List};
    ghost use Rattle.ring_payload.specs.declared.call.Call.{Call as OneCall};

    ghost Value = { List (OneCall A) };

    ghost view = { λ c. c.calls.items };
}

impl<A: Allocator + Copy> CallList<A> {
    /// Returns the list of `calls`, in their order.
    ///
    /// It takes ownership of the vector. Does not allocate.
    pub fn from_vec(calls: Vec<Call<A>, A>) -> CallList<A>
        ensures { result ≡ calls.items }
    {
        CallList { calls }
    }

    /// Returns the calls as an owned vector, in their order.
    ///
    /// Does not allocate.
    pub fn into_vec(self) -> Vec<Call<A>, A>
        ensures { result.items ≡ self }
    {
        self.calls
    }

    /// Returns the calls, in their order.
    pub fn as_slice(&self) -> &[Call<A>]
        ensures { result.now ≡ self.now }
    {
        self.calls.as_slice()
    }
}

impl<A: Allocator + Copy> Clone for CallList<A> {
    ghost is_clone = { λ calls copy. copy ≡ calls };

    fn clone(&self) -> Result<CallList<A>, AllocError> {
        Ok(CallList {
            calls: self.calls.clone()?,
        })
    }
}

/// The maximum number of calls of a [`Part`].
///
/// The minimum is 1.
///
/// Rules: Limits 1
pub const MAX_PART_CALLS: u8 = 7;

/// `Part`: a part of a log: one to seven calls at consecutive places.
///
/// Rules: The replicated log 2
/// Formats: Payloads
#[derive(Clone, Drop)]
pub struct Part<A: Allocator + Copy = Global> {
    /// The place of the first call in the log, counted from 0 and at most `MAX`.
    pub first: u64,
    /// The calls, 1 to 7, in the order of their places.
    pub calls: CallList<A>,
}

impl<A: Allocator + Copy> Encode for Part<A> {
    ghost use Rattle.ring_payload.specs.Parts.{part_encoding, PartFits, part_at, part_format};

    ghost encoding = { part_encoding };

    ghost max_encoded_len = { 7275 };

    ghost is_within_limits = { PartFits };

    ghost decoding_at_front = { part_at };

    ghost decoding_is_exact = { part_format };

    fn encoded_len(&self) -> usize {
        9 + list_encoded_len(self.calls.as_slice())
    }

    fn write<B: Allocator + Copy>(&self, out: &mut BytesMut<B>) {
        let calls = self.calls.as_slice();
        self.first.write(out);
        (calls.len() as u8).write(out);
        encode_list(calls, out);
    }
}

impl<A: Allocator + Copy> Decode<A> for Part<A> {
    #[tactic(auto, unfolding(crate::specs::Parts::part_at))]
    fn read(alloc: A, from: &mut Reader<'_>) -> Result<Part<A>, Fault> {
        let first = Decode::read(alloc, from)?;
        if first > MAX {
            return Err(Fault::BadFrame);
        }
        let count: u8 = Decode::read(alloc, from)?;
        if count < 1 || count > MAX_PART_CALLS {
            return Err(Fault::BadFrame);
        }
        let calls = decode_list(alloc, count as usize, from)?;
        Ok(Part {
            first,
            calls: CallList::from_vec(calls),
        })
    }
}

/// `Pack`: a batch of calls in one message: 2 to 16 calls, in at most 7,276 bytes of payload.
///
/// Rules: Token and window 9
/// Formats: Payloads
#[derive(Clone, Drop)]
pub struct Pack<A: Allocator + Copy = Global> {
    /// The calls, 2 to 16, in the order in which their sender queued them.
    pub calls: CallList<A>,
}

/// The maximum number of calls of a [`Pack`].
///
/// The minimum is 2.
///
/// Rules: Token and window 9
pub const MAX_PACK_CALLS: u8 = 16;

/// The maximum length in bytes of a [`Pack`] as a whole payload, including its tag and count.
///
/// Rules: Token and window 9
pub const MAX_PACK_BYTES: usize = 7276;

/// Returns whether a pack of `calls` is at most `MAX_PACK_BYTES` long.
fn is_within_pack_bytes<A: Allocator + Copy>(calls: &[Call<A>]) -> bool
    ensures { result ≡ is_short_pack calls.now }
{
    let mut left = MAX_PACK_BYTES - 2;
    for call in calls {
        let bytes = call.encoded_call_len();
        if bytes > left {
            return false;
        }
        left -= bytes;
    }
    true
}

impl<A: Allocator + Copy> Encode for Pack<A> {
    ghost use Rattle.ring_payload.specs.Packs.{pack_encoding, PackFits, pack_at, pack_format};

    ghost encoding = { pack_encoding };

    ghost max_encoded_len = { 7275 };

    ghost is_within_limits = { PackFits };

    ghost decoding_at_front = { pack_at };

    ghost decoding_is_exact = { pack_format };

    fn encoded_len(&self) -> usize {
        1 + list_encoded_len(self.calls.as_slice())
    }

    fn write<B: Allocator + Copy>(&self, out: &mut BytesMut<B>) {
        let calls = self.calls.as_slice();
        (calls.len() as u8).write(out);
        encode_list(calls, out);
    }
}

impl<A: Allocator + Copy> Decode<A> for Pack<A> {
    #[tactic(auto, unfolding(crate::specs::Packs::pack_at))]
    fn read(alloc: A, from: &mut Reader<'_>) -> Result<Pack<A>, Fault> {
        let count: u8 = Decode::read(alloc, from)?;
        if count < 2 || count > MAX_PACK_CALLS {
            return Err(Fault::BadFrame);
        }
        let calls = decode_list(alloc, count as usize, from)?;
        if !is_within_pack_bytes(calls.as_slice()) {
            return Err(Fault::BadFrame);
        }
        Ok(Pack {
            calls: CallList::from_vec(calls),
        })
    }
}
