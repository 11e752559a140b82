//! The bytes of a snapshot.
//!
//! Rules: The replicated log 20; Sessions 12
//! Formats: Snapshots

ghost use Rattle.std.specs.Prelude.{◌≡◌, ℕ, List};

use std::alloc::{AllocError, Allocator, Global};
use std::marker::Model;

/// The bytes of a snapshot of the sessions, which replaces the places of a log that were dropped.
///
/// Contracts see the bytes.
///
/// Rules: The replicated log 20; Sessions 12
/// Formats: Snapshots
#[derive(Drop)]
pub struct Snapshot<A: Allocator + Copy = Global> {
    bytes: Vec<u8, A>,
}

impl<A: Allocator + Copy> Model for Snapshot<A> {
    ghost Value = { List ℕ };

    ghost view = { λ snapshot. snapshot.bytes.items };
}

impl<A: Allocator + Copy> Clone for Snapshot<A> {
    ghost is_clone = { λ snapshot copy. copy ≡ snapshot };

    fn clone(&self) -> Result<Snapshot<A>, AllocError> {
        Ok(Snapshot {
            bytes: self.bytes.clone()?,
        })
    }
}

impl<A: Allocator + Copy> Snapshot<A> {
    /// Creates a snapshot from its bytes.
    ///
    /// Whether they encode a snapshot isn't checked. Does not allocate.
    pub fn from_vec(bytes: Vec<u8, A>) -> Snapshot<A>
        ensures { result ≡ bytes.items }
    {
        Snapshot { bytes }
    }

    /// Returns the bytes of the snapshot, in order.
    pub fn as_slice(&self) -> &[u8]
        ensures { result.now ≡ self.now }
    {
        self.bytes.as_slice()
    }
}
