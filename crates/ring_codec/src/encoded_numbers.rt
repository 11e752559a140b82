//! Lists of numbers that are read in place, from the bytes that encode them.

ghost use Rattle.std.specs.Prelude.{◌≡◌, ℕ, ◌<◌, ◌≤◌, List, length, slice_index, IfOk};
ghost use Rattle.ring_codec.specs.Reading.{IsReadResult, number_at, repeated_at};

use crate::reader::Reader;
use byteorder::{BigEndian, ByteOrder};
use ring_base::Fault;
use std::marker::Model;

/// A list of numbers of eight bytes each, big-endian, borrowed from the bytes that encode them.
///
/// Contracts see the list.
///
/// Formats: Numbers and parts
#[derive(Drop)]
pub struct EncodedNumbers<'a> {
    bytes: &'a [u8],
    count: usize,
}

impl<'a> Model for EncodedNumbers<'a> {
    ghost use Rattle.std.specs.Prelude.{◌≡◌, ℕ, ◌*◌, List, length};
    ghost use Rattle.ring_codec.specs.EncodedNumbers.{encoded_numbers};

    ghost Value = { List ℕ };

    ghost view = { λ w. encoded_numbers w.count w.bytes.now };

    ghost invariant = { λ w. length w.bytes.now ≡ 8 * w.count };
}

impl<'a> EncodedNumbers<'a> {
    /// Takes the `count` numbers at the front of `from`, which stay borrowed from its bytes.
    ///
    /// `count` must be at most 1,024. Does not allocate.
    ///
    /// Errors: `BadFrame` if fewer than 8 * `count` bytes are left. What is then left to read is unspecified.
    ///
    /// Formats: Numbers and parts
    pub fn read(count: usize, from: &mut Reader<'a>) -> Result<EncodedNumbers<'a>, Fault>
        requires { count ≤ 1024 }
        ensures read { IsReadResult result from.new (repeated_at count (number_at 8) from.old) }
        ensures counted { IfOk result (λ words. length words ≡ count) }
    {
        let bytes = from.take_bytes(8 * count)?;
        Ok(EncodedNumbers { bytes, count })
    }

    /// Returns the length of the list, 0 to 1,024.
    pub fn len(&self) -> usize
        ensures { result ≡ length self.now }
    {
        self.count
    }

    /// Returns the number at `index`, counted from 0.
    ///
    /// `index` must be below the length of the list.
    ///
    /// Formats: Numbers and parts
    pub fn number(&self, index: usize) -> u64
        requires { index < length self.now }
        ensures { result ≡ slice_index self.now index }
    {
        BigEndian::read_u64(&self.bytes[8 * index..])
    }
}
