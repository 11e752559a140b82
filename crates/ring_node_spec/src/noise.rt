//! Received bytes that aren't a frame, or that aren't known to be one.

ghost use Rattle.std.specs.Prelude.{◌≡◌};

use std::alloc::{AllocError, Allocator, Global};
use std::marker::Model;

/// Received bytes that aren't a frame, or that aren't known to be one.
///
/// Contracts see the bytes.
///
/// Rules: Rings and states 11
#[derive(Drop)]
pub struct Noise<A: Allocator + Copy = Global> {
    bytes: Vec<u8, A>,
}

impl<A: Allocator + Copy> Model for Noise<A> {
    ghost use Rattle.std.specs.Prelude.{ℕ, List};

    ghost Value = { List ℕ };

    ghost view = { λ noise. noise.bytes.items };
}

impl<A: Allocator + Copy> Noise<A> {
    /// Wraps received bytes as noise.
    ///
    /// Whether they encode a frame isn't checked: a step on noise changes nothing, whatever the bytes are. Does not
    /// allocate.
    ///
    /// Rules: Rings and states 11
    pub fn from_vec(bytes: Vec<u8, A>) -> Noise<A>
        ensures { result ≡ bytes.items }
    {
        Noise { bytes }
    }

    /// Returns the received bytes, in order.
    pub fn as_slice(&self) -> &[u8]
        ensures { result.now ≡ self.now }
    {
        self.bytes.as_slice()
    }
}

impl<A: Allocator + Copy> Clone for Noise<A> {
    ghost is_clone = { λ noise copy. copy ≡ noise };

    fn clone(&self) -> Result<Noise<A>, AllocError> {
        Ok(Noise {
            bytes: self.bytes.clone()?,
        })
    }
}
