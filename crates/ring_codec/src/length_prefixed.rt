//! Values prefixed by their length in bytes, a big-endian `u32`.
//!
//! Formats: Frames

ghost use Rattle.std.specs.Prelude.{◌≡◌, ℕ, ◌+◌, ◌^◌, ◌<◌, ◌≤◌, List, [], ◌∷◌, ◌++◌, length};
ghost use Rattle.byteorder.specs.Endian.{big_bytes};
ghost use Rattle.ring_codec.specs.Reading.{Appends, IsReadResult, sized_at, ◌⊕◌};

use crate::codec::{Decode, Encode};
use crate::reader::Reader;
use bytes::BytesMut;
use ring_base::Fault;
use std::alloc::Allocator;

/// Decodes a length in bytes, a big-endian `u32`, and then a value that takes exactly that many bytes.
///
/// Moves `from` past both.
///
/// Errors: `BadFrame`, only if `from` doesn't begin with a length and a value of exactly that length. `Memory` if an
/// allocation fails. What is then left to read is unspecified.
///
/// Formats: Numbers and parts; Frames
pub fn decode_length_prefixed<A: Allocator + Copy, T: Decode<A> + Drop>(
    alloc: A,
    from: &mut Reader<'_>,
) -> Result<T, Fault>
    ensures { IsReadResult result from.new (sized_at T.decoding_at_front from.old) }
{
    let len: u32 = Decode::read(alloc, from)?;
    let mut body = Reader::new(from.take_bytes(len as usize)?);
    let value = T::read(alloc, &mut body)?;
    if body.len() != 0 {
        return Err(Fault::BadFrame);
    }
    Ok(value)
}

/// Appends the value's encoding to `out`, preceded by its length in bytes as a big-endian `u32`.
///
/// `value` must be within the limits of its format, the encodings of `T` must be shorter than 2^32 bytes, and `out`
/// must have room for the length and the encoding. Does not allocate.
///
/// Formats: Numbers and parts; Frames
pub fn encode_length_prefixed<T: Encode, B: Allocator + Copy>(value: &T, out: &mut BytesMut<B>)
    requires fits { T.is_within_limits value.now }
    requires short { T.max_encoded_len < 2 ^ 32 }
    requires room { 4 + length (T.encoding value.now) ≤ out.old.spare }
    ensures { Appends out.old out.new
        (big_bytes 4 (length (T.encoding value.now)) ⊕ T.encoding value.now) }
{
    (value.encoded_len() as u32).write(out);
    value.write(out);
}
