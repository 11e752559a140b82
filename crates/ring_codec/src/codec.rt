//! The traits of values that are encoded into a buffer with room for them, and decoded from the front of bytes.
//!
//! A type states its encoding, the limits of its values and how they are read. Its law `decoding_is_exact` proves that
//! reading is exact.
//!
//! Formats: Numbers and parts; Frames

ghost use Rattle.std.specs.Prelude.{◌≡◌, ℕ, ◌+◌, ◌^◌, ◌<◌, ◌≤◌, List, ◌++◌, length, Option};
ghost use Rattle.ring_codec.specs.Reading.{IsFormat, IsReadResult, Appends};

use crate::reader::Reader;
use bytes::BytesMut;
use ring_base::Fault;
use std::alloc::Allocator;

/// A type whose values have exactly one encoding each, a list of bytes.
///
/// The law `decoding_is_exact` proves that reading is exact.
///
/// Formats: Numbers and parts; Frames
pub trait Encode: Sized {
    /// The value's encoding: a list of bytes.
    ghost encoding: { Self → List ℕ };

    /// The maximum length of an encoding of this type, in bytes.
    ghost max_encoded_len: { ℕ };

    /// True of the values that are within the limits of their format.
    ///
    /// Only these are written.
    ghost is_within_limits: { Self → Type 0 };

    /// Reads from the front of bytes: returns the value there with the bytes after it, or nothing if no encoding begins
    /// the bytes.
    ghost decoding_at_front: { List ℕ → Option (Self × List ℕ) };

    /// Returns the length of the value's encoding in bytes.
    ///
    /// The value must be within the limits of its format.
    ///
    /// Formats: Numbers and parts; Frames
    fn encoded_len(&self) -> usize
        requires { is_within_limits self.now }
        ensures value { result ≡ length (encoding self.now) }
        ensures small { result ≤ max_encoded_len };

    /// Appends the value's encoding to `out`, and changes nothing before it.
    ///
    /// The value must be within the limits of its format, and `out` must have room for the encoding. Does not allocate.
    ///
    /// Formats: Numbers and parts; Frames
    fn write<B: Allocator + Copy>(&self, out: &mut BytesMut<B>)
        requires fits { is_within_limits self.now }
        requires room { length (encoding self.now) ≤ out.old.spare }
        ensures { Appends out.old out.new (encoding self.now) };

    /// States that reading is exact: if the bytes begin with the encoding of a value within the limits,
    /// `decoding_at_front` returns that value.
    ///
    /// Otherwise it returns nothing.
    ghost decoding_is_exact: { IsFormat encoding is_within_limits decoding_at_front };
}

/// A type whose values are decoded from the front of bytes, into memory of the given allocator.
///
/// Formats: Numbers and parts; Frames
pub trait Decode<A: Allocator + Copy>: Encode {
    /// Decodes the value at the front of `from`, and moves `from` past its encoding.
    ///
    /// The decoded value is within the limits of its format.
    ///
    /// Errors: `BadFrame`, only if no value's encoding begins `from`. `Memory` if an allocation fails, even if the
    /// bytes would turn out to be invalid. What is then left to read is unspecified.
    ///
    /// Formats: Numbers and parts; Frames
    fn read(alloc: A, from: &mut Reader<'_>) -> Result<Self, Fault>
        ensures { IsReadResult result from.new (Self.decoding_at_front from.old) };
}
