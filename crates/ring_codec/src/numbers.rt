//! Numbers of 1, 2, 4 and 8 bytes, big-endian.
//!
//! Formats: Numbers and parts

ghost use Rattle.std.specs.Prelude.{◌≡◌, ℕ, ◌+◌, ◌^◌, ◌<◌, ◌≤◌, List, [], ◌∷◌, ◌++◌, length, IsOk};
ghost use Rattle.byteorder.specs.Endian.{big_bytes};
ghost use Rattle.ring_codec.specs.Reading.{Appends, IsReadResult, number_at, byte_at, IsWord};
ghost use Rattle.ring_codec.specs.NumberFormats.{byte_format, number_format2, number_format4, number_format8};

use crate::codec::{Decode, Encode};
use crate::reader::Reader;
use byteorder::{BigEndian, ByteOrder};
use bytes::BytesMut;
use ring_base::Fault;
use std::alloc::Allocator;

impl Encode for u8 {
    ghost encoding = { λ n. n ∷ [] };

    ghost max_encoded_len = { 1 };

    ghost is_within_limits = { λ n. n < 256 };

    ghost decoding_at_front = { byte_at };

    ghost decoding_is_exact = { byte_format };

    fn encoded_len(&self) -> usize {
        1
    }

    fn write<B: Allocator + Copy>(&self, out: &mut BytesMut<B>) {
        out.extend_reserved(&[*self]);
    }
}

impl<A: Allocator + Copy> Decode<A> for u8 {
    fn read(_alloc: A, from: &mut Reader<'_>) -> Result<u8, Fault> {
        let byte = from.take_bytes(1)?;
        Ok(byte[0])
    }
}

impl Encode for u16 {
    ghost encoding = { λ n. big_bytes 2 n };

    ghost max_encoded_len = { 2 };

    ghost is_within_limits = { IsWord 2 };

    ghost decoding_at_front = { number_at 2 };

    ghost decoding_is_exact = { number_format2 };

    fn encoded_len(&self) -> usize {
        2
    }

    fn write<B: Allocator + Copy>(&self, out: &mut BytesMut<B>) {
        let mut word = [0; 2];
        BigEndian::write_u16(&mut word, *self);
        out.extend_reserved(&word);
    }
}

impl<A: Allocator + Copy> Decode<A> for u16 {
    fn read(_alloc: A, from: &mut Reader<'_>) -> Result<u16, Fault> {
        let word = from.take_bytes(2)?;
        Ok(BigEndian::read_u16(word))
    }
}

impl Encode for u32 {
    ghost encoding = { λ n. big_bytes 4 n };

    ghost max_encoded_len = { 4 };

    ghost is_within_limits = { IsWord 4 };

    ghost decoding_at_front = { number_at 4 };

    ghost decoding_is_exact = { number_format4 };

    fn encoded_len(&self) -> usize {
        4
    }

    fn write<B: Allocator + Copy>(&self, out: &mut BytesMut<B>) {
        let mut word = [0; 4];
        BigEndian::write_u32(&mut word, *self);
        out.extend_reserved(&word);
    }
}

impl<A: Allocator + Copy> Decode<A> for u32 {
    fn read(_alloc: A, from: &mut Reader<'_>) -> Result<u32, Fault> {
        let word = from.take_bytes(4)?;
        Ok(BigEndian::read_u32(word))
    }
}

impl Encode for u64 {
    ghost encoding = { λ n. big_bytes 8 n };

    ghost max_encoded_len = { 8 };

    ghost is_within_limits = { IsWord 8 };

    ghost decoding_at_front = { number_at 8 };

    ghost decoding_is_exact = { number_format8 };

    fn encoded_len(&self) -> usize {
        8
    }

    fn write<B: Allocator + Copy>(&self, out: &mut BytesMut<B>) {
        let mut word = [0; 8];
        BigEndian::write_u64(&mut word, *self);
        out.extend_reserved(&word);
    }
}

impl<A: Allocator + Copy> Decode<A> for u64 {
    fn read(_alloc: A, from: &mut Reader<'_>) -> Result<u64, Fault> {
        let word = from.take_bytes(8)?;
        Ok(BigEndian::read_u64(word))
    }
}
