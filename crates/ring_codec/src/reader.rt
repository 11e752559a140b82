//! A reader that takes bytes from the front of a slice.

ghost use Rattle.std.specs.Prelude.{◌≡◌, ℕ, ◌-◌, ◌≤◌, List, length, take, drop};
ghost use Rattle.ring_codec.specs.Reading.{IsReadResultBy, raw_bytes_at};

use ring_base::Fault;
use std::marker::Model;

/// A reader that takes bytes from the front of borrowed bytes.
///
/// Contracts see the bytes that are left to read.
#[derive(Drop)]
pub struct Reader<'a> {
    rest: &'a [u8],
}

impl<'a> Model for Reader<'a> {
    ghost Value = { List ℕ };

    ghost view = { λ r. r.rest.now };
}

impl<'a> Reader<'a> {
    /// Returns a reader of `bytes` that has all of them left to read.
    pub fn new(bytes: &'a [u8]) -> Reader<'a>
        ensures { result ≡ bytes.now }
    {
        Reader { rest: bytes }
    }

    /// Returns the number of bytes that are left to read.
    pub fn len(&self) -> usize
        ensures { result ≡ length self.now }
    {
        self.rest.len()
    }

    /// Takes the next `count` bytes and returns them, borrowed from the bytes that are read.
    ///
    /// Errors: `BadFrame` if fewer than `count` bytes are left. What is then left to read is unspecified.
    pub fn take_bytes(&mut self, count: usize) -> Result<&'a [u8], Fault>
        ensures { IsReadResultBy (λ x. x.now) result self.new (raw_bytes_at count self.old) }
    {
        if self.rest.len() < count {
            return Err(Fault::BadFrame);
        }
        let (front, rest) = self.rest.split_at(count);
        self.rest = rest;
        Ok(front)
    }
}
