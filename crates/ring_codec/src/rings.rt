//! How the names of rings are encoded: the number, then the representative.
//!
//! Nine bytes 0 encode `None`.
//!
//! Formats: Numbers and parts; Payloads

ghost use Rattle.std.specs.Prelude.{◌≡◌, ℕ, ◌+◌, ◌^◌, ◌<◌, ◌≤◌, List, [], ◌∷◌, ◌++◌, length};
ghost use Rattle.ring_codec.specs.Reading.{Appends, IsReadResult};
ghost use Rattle.ring_codec.specs.Rings.{ring_encoding, RingFits, ring_at, ring_format, some_ring_encoding, SomeRingFits, some_ring_at, some_ring_format};

use crate::codec::{Decode, Encode};
use crate::reader::Reader;
use bytes::BytesMut;
use ring_base::{Fault, MAX, MAX_PROCESSORS, Proc, RingId};
use std::alloc::Allocator;

impl Encode for RingId {
    ghost encoding = { ring_encoding };

    ghost max_encoded_len = { 9 };

    ghost is_within_limits = { RingFits };

    ghost decoding_at_front = { ring_at };

    ghost decoding_is_exact = { ring_format };

    fn encoded_len(&self) -> usize {
        9
    }

    fn write<B: Allocator + Copy>(&self, out: &mut BytesMut<B>) {
        self.seq.write(out);
        self.rep.write(out);
    }
}

impl<A: Allocator + Copy> Decode<A> for RingId {
    #[tactic(auto, unfolding(crate::specs::Rings::ring_at))]
    fn read(alloc: A, from: &mut Reader<'_>) -> Result<RingId, Fault> {
        let seq = Decode::read(alloc, from)?;
        if seq > MAX {
            return Err(Fault::BadFrame);
        }
        let rep = Decode::read(alloc, from)?;
        Ok(RingId { seq, rep })
    }
}

/// Encoded in nine bytes: a ring of number at least 1, or nine bytes 0 for `None`.
///
/// Formats: Payloads
impl Encode for Option<RingId> {
    ghost encoding = { some_ring_encoding };

    ghost max_encoded_len = { 9 };

    ghost is_within_limits = { SomeRingFits };

    ghost decoding_at_front = { some_ring_at };

    ghost decoding_is_exact = { some_ring_format };

    fn encoded_len(&self) -> usize {
        9
    }

    fn write<B: Allocator + Copy>(&self, out: &mut BytesMut<B>) {
        match self {
            Some(ring) => ring.write(out),
            None => {
                0u64.write(out);
                0u8.write(out);
            }
        }
    }
}

impl<A: Allocator + Copy> Decode<A> for Option<RingId> {
    #[tactic(auto, unfolding(crate::specs::Rings::some_ring_at))]
    fn read(alloc: A, from: &mut Reader<'_>) -> Result<Option<RingId>, Fault> {
        let seq: u64 = Decode::read(alloc, from)?;
        let rep: u8 = Decode::read(alloc, from)?;
        if seq == 0 && rep == 0 {
            return Ok(None);
        }
        if seq < 1 || seq > MAX || rep < 1 || rep > MAX_PROCESSORS {
            return Err(Fault::BadFrame);
        }
        Ok(Some(RingId {
            seq,
            rep: Proc::new(rep),
        }))
    }
}
