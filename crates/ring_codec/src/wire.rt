//! Values that are appended to a growing buffer, and read from the front of bytes.
//!
//! Formats: Frames

ghost use Rattle.std.specs.Prelude.{◌≡◌, ℕ, ◌+◌, ◌^◌, ◌<◌, ◌≤◌, List, ◌++◌, length, take, OnOk, OnErr, IfOk, IfErr, MatchResult};
ghost use Rattle.ring_base.specs.declared.fault.Fault.TheVariants.{Memory, BadFrame};
ghost use Rattle.ring_codec.specs.EncodedPrefixes.{IsEncodedPrefix, HasNoEncodedPrefix, IsReadFault, same_prefix};

use crate::codec::{Decode, Encode};
use crate::reader::Reader;
use bytes::BytesMut;
use ring_base::Fault;
use std::alloc::Allocator;

/// `Wire`: a type with a wire format: each value has exactly one encoding, and no encoding is a proper prefix of
/// another.
///
/// Formats: Frames
pub trait Wire<A: Allocator + Copy>: Sized {
    /// The value's encoding: a list of bytes.
    ghost encoding: { Self → List ℕ };

    /// True of the values that are within the limits of their format.
    ghost fits: { Self → Type 0 };

    /// Appends the value's encoding to `out`, which grows as needed, and changes nothing before it.
    ///
    /// The value must be within the limits of its format.
    ///
    /// Errors: `Memory` if an allocation fails; the content of `out` is then unchanged.
    ///
    /// Formats: Frames
    fn put(&self, out: &mut BytesMut<A>) -> Result<(), Fault>
        requires { fits self.now }
        ensures ok { OnOk result (out.new.items ≡ out.old.items ++ encoding self.now) }
        ensures err { OnErr result (out.new.items ≡ out.old.items) }
        ensures memory { IfErr result (λ fault. fault ≡ Memory) };

    /// Returns the one value whose encoding begins `src`, and the length of that encoding in bytes.
    ///
    /// More bytes may follow it.
    ///
    /// Errors: `BadFrame`, only if no encoding begins `src`. `Memory` if an allocation fails, even if the bytes would
    /// turn out to be invalid.
    ///
    /// Formats: Frames
    fn get(alloc: A, src: &[u8]) -> Result<(Self, usize), Fault>
        ensures found { IfOk result (λ got. IsEncodedPrefix encoding fits src.now got.0 got.1) }
        ensures bad { IfErr result (λ fault. fault ≡ BadFrame → HasNoEncodedPrefix encoding fits src.now) }
        ensures only { (v : Self) (rest : List ℕ) → fits v → src.now ≡ encoding v ++ rest
            → MatchResult result (λ got. (got.0 ≡ v) × (got.1 ≡ length (encoding v)))
            (λ fault. fault ≡ Memory) }
        ensures faults { IfErr result IsReadFault };

    /// States that no encoding is a prefix of another: if two encodings begin the same bytes, they are of the same
    /// value.
    ghost prefix_free: { (v w : Self) (x y : List ℕ) → fits v → fits w
        → encoding v ++ x ≡ encoding w ++ y → (v ≡ w) × (x ≡ y) };
}

impl<A: Allocator + Copy, T: Decode<A> + Drop> Wire<A> for T {
    ghost encoding = { T.encoding };

    ghost fits = { T.is_within_limits };

    ghost prefix_free = { λ v w x y f g e. same_prefix T.decoding_is_exact v w x y f g e };

    fn put(&self, out: &mut BytesMut<A>) -> Result<(), Fault> {
        out.reserve(self.encoded_len())?;
        self.write(out);
        Ok(())
    }

    fn get(alloc: A, src: &[u8]) -> Result<(T, usize), Fault> {
        let mut from = Reader::new(src);
        let value = T::read(alloc, &mut from)?;
        let len = src.len() - from.len();
        Ok((value, len))
    }
}
