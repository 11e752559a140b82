//! Arrays of bytes, encoded as they are.
//!
//! Formats: Numbers and parts

ghost use Rattle.std.specs.Prelude.{◌≡◌, ℕ, ◌+◌, ◌^◌, ◌<◌, ◌≤◌, List, [], ◌∷◌, ◌++◌, length};
ghost use Rattle.ring_codec.specs.Reading.{Appends, IsReadResult, raw_bytes_at};
ghost use Rattle.ring_codec.specs.ReadingLaws.{text_format};

use crate::codec::{Decode, Encode};
use crate::reader::Reader;
use bytes::BytesMut;
use ring_base::Fault;
use std::alloc::Allocator;

impl<const N: usize> Encode for [u8; N] {
    ghost encoding = { λ bytes. bytes };

    ghost max_encoded_len = { N };

    ghost is_within_limits = { λ bytes. length bytes ≡ N };

    ghost decoding_at_front = { raw_bytes_at N };

    ghost decoding_is_exact = { text_format N };

    fn encoded_len(&self) -> usize {
        N
    }

    fn write<B: Allocator + Copy>(&self, out: &mut BytesMut<B>) {
        out.extend_reserved(self);
    }
}

impl<A: Allocator + Copy, const N: usize> Decode<A> for [u8; N] {
    fn read(_alloc: A, from: &mut Reader<'_>) -> Result<[u8; N], Fault> {
        let bytes = from.take_bytes(N)?;
        let mut array = [0; N];
        array.copy_from_slice(bytes);
        Ok(array)
    }
}
