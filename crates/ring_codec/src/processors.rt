//! How processors and sets of them are encoded: a processor as its number, a set as its word.
//!
//! Formats: Numbers and parts

ghost use Rattle.std.specs.Prelude.{◌≡◌, ℕ, ◌+◌, ◌^◌, ◌<◌, ◌≤◌, List, [], ◌∷◌, ◌++◌, length};
ghost use Rattle.byteorder.specs.Endian.{big_bytes};
ghost use Rattle.ring_base.specs.Processors.{IsProc};
ghost use Rattle.ring_codec.specs.Reading.{Appends, IsReadResult, number_at, IsWord};
ghost use Rattle.ring_codec.specs.NumberFormats.{number_format2};
ghost use Rattle.ring_codec.specs.Processors.{proc_encoding, proc_at, proc_format, some_proc_encoding, SomeProcFits, some_proc_at, some_proc_format};

use crate::codec::{Decode, Encode};
use crate::reader::Reader;
use bytes::BytesMut;
use ring_base::{Fault, MAX_PROCESSORS, Proc, ProcSet};
use std::alloc::Allocator;

impl Encode for Proc {
    ghost encoding = { proc_encoding };

    ghost max_encoded_len = { 1 };

    ghost is_within_limits = { IsProc };

    ghost decoding_at_front = { proc_at };

    ghost decoding_is_exact = { proc_format };

    fn encoded_len(&self) -> usize {
        1
    }

    fn write<B: Allocator + Copy>(&self, out: &mut BytesMut<B>) {
        self.number().write(out);
    }
}

impl<A: Allocator + Copy> Decode<A> for Proc {
    #[tactic(auto, unfolding(crate::specs::Processors::proc_at))]
    fn read(alloc: A, from: &mut Reader<'_>) -> Result<Proc, Fault> {
        let number: u8 = Decode::read(alloc, from)?;
        if number < 1 || number > MAX_PROCESSORS {
            return Err(Fault::BadFrame);
        }
        Ok(Proc::new(number))
    }
}

/// Encoded in one byte: the processor's number, or 0 for `None`.
///
/// Formats: Frames
impl Encode for Option<Proc> {
    ghost encoding = { some_proc_encoding };

    ghost max_encoded_len = { 1 };

    ghost is_within_limits = { SomeProcFits };

    ghost decoding_at_front = { some_proc_at };

    ghost decoding_is_exact = { some_proc_format };

    fn encoded_len(&self) -> usize {
        1
    }

    fn write<B: Allocator + Copy>(&self, out: &mut BytesMut<B>) {
        match self {
            None => 0u8.write(out),
            Some(proc) => proc.write(out),
        }
    }
}

impl<A: Allocator + Copy> Decode<A> for Option<Proc> {
    #[tactic(auto, unfolding(crate::specs::Processors::some_proc_at))]
    fn read(alloc: A, from: &mut Reader<'_>) -> Result<Option<Proc>, Fault> {
        let number: u8 = Decode::read(alloc, from)?;
        if number > MAX_PROCESSORS {
            return Err(Fault::BadFrame);
        }
        if number == 0 {
            return Ok(None);
        }
        Ok(Some(Proc::new(number)))
    }
}

impl Encode for ProcSet {
    ghost encoding = { λ set. big_bytes 2 set };

    ghost max_encoded_len = { 2 };

    ghost is_within_limits = { IsWord 2 };

    ghost decoding_at_front = { number_at 2 };

    ghost decoding_is_exact = { number_format2 };

    fn encoded_len(&self) -> usize {
        2
    }

    fn write<B: Allocator + Copy>(&self, out: &mut BytesMut<B>) {
        self.bits().write(out);
    }
}

impl<A: Allocator + Copy> Decode<A> for ProcSet {
    fn read(alloc: A, from: &mut Reader<'_>) -> Result<ProcSet, Fault> {
        let bits = Decode::read(alloc, from)?;
        Ok(ProcSet::from_bits(bits))
    }
}
