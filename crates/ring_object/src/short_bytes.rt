//! Short byte strings, stored inline.

ghost use Rattle.std.specs.Prelude.{◌≡◌, ◌==◌, ◌≤◌, length};

use std::fmt;
use std::marker::Model;

/// The maximum length of a reply in bytes.
///
/// Rules: Limits 1
pub const MAX_REPLY: usize = 64;

/// The reply to an operation: 0 to 64 bytes, stored inline.
///
/// Rules: Objects 1
pub type Reply = ShortBytes<MAX_REPLY>;

/// A string of 0 to `N` bytes, stored inline.
///
/// Copying and comparing such strings does not allocate. Contracts see the bytes.
///
/// Rules: Limits 1
#[derive(Clone, Copy, PartialEq, Eq)]
pub struct ShortBytes<const N: usize> {
    bytes: [u8; N],
    len: usize,
}

impl<const N: usize> Model for ShortBytes<N> {
    ghost use Rattle.std.specs.Prelude.{ℕ, List, length, take};
    ghost use Rattle.ring_object.specs.ShortBytes.{padded_bytes, IsPaddedBytes};

    ghost Value = { List ℕ };

    ghost view = { λ short. take short.len short.bytes };

    ghost invariant = { λ short. IsPaddedBytes N short.len short.bytes };

    ghost inverse = { λ bytes. record { bytes = padded_bytes N bytes; len = length bytes } };

    ghost inverse_ok = { λ short is_filled. Prim.rw (is_filled.zeros, is_filled.exact) (λ i. short) };
}

impl<const N: usize> ShortBytes<N> {
    /// Returns a string that holds `bytes`, which must be at most `N` bytes.
    ///
    /// Does not allocate.
    pub fn from_slice(bytes: &[u8]) -> ShortBytes<N>
        requires { length bytes.now ≤ N }
        ensures { result ≡ bytes.now }
    {
        let mut filled = [0; N];
        filled[..bytes.len()].copy_from_slice(bytes);
        ShortBytes {
            bytes: filled,
            len: bytes.len(),
        }
    }

    /// Returns the number of bytes, 0 to `N`.
    pub fn len(&self) -> usize
        ensures value { result ≡ length self.now }
        ensures in_range { result ≤ N }
    {
        self.len
    }

    /// Returns whether the string has no bytes.
    pub fn is_empty(&self) -> bool
        ensures { result ≡ (length self.now == 0) }
    {
        self.len == 0
    }

    /// Returns the bytes of the string, 0 to `N`.
    pub fn as_slice(&self) -> &[u8]
        ensures value { result.now ≡ self.now }
        ensures in_range { length result.now ≤ N }
    {
        &self.bytes[..self.len]
    }
}

impl<const N: usize> fmt::Debug for ShortBytes<N> {
    fn fmt<W: fmt::Write>(&self, f: &mut fmt::Formatter<W>) -> fmt::Result {
        let bytes = self.as_slice();
        write!(f, "{bytes:?}")
    }
}
