//! Pieces of a snapshot of the sessions.
//!
//! Rules: The replicated log 2
//! Formats: Payloads

ghost use Rattle.std.specs.Prelude.{◌≡◌, ℕ, ◌+◌, ◌^◌, ◌<◌, ◌≤◌, List, [], ◌∷◌, ◌++◌, length};
ghost use Rattle.ring_codec.specs.Reading.{Appends, IsReadResult};
ghost use Rattle.ring_payload.specs.Snaps.{is_piece as is_piece_of};

use crate::piece::PieceBytes;
use bytes::BytesMut;
use ring_codec::{Decode, Encode, Fault, MAX, Reader};
use std::alloc::{Allocator, Global};

/// The maximum length in bytes of a whole snapshot (16 MiB).
///
/// A node whose snapshot would be longer doesn't drop its places.
///
/// Rules: Limits 1 and 2; The replicated log 20
pub const MAX_SNAPSHOT: u32 = 16_777_216;

/// The length in bytes of every piece of a snapshot except the last, which may be shorter.
///
/// Rules: Limits 1
/// Formats: Payloads
pub const MAX_PIECE_BYTES: u32 = 7000;

/// `Snap`: a piece of a snapshot of the sessions.
///
/// Rules: The replicated log 2
/// Formats: Payloads
#[derive(Clone, Drop)]
pub struct Snap<A: Allocator + Copy = Global> {
    /// The number of places at the beginning of the log that the snapshot replaces, 1 to `MAX`.
    pub at: u64,
    /// The length of the whole snapshot in bytes, 1 to 16,777,216.
    pub total: u32,
    /// The number of the snapshot's bytes before this piece, a multiple of 7,000 below `total`.
    pub offset: u32,
    /// The bytes of the piece: 7,000, or all that are left of the snapshot if fewer are.
    pub bytes: PieceBytes<A>,
}

/// Returns whether a piece may have these fields and `count` bytes.
fn is_piece(at: u64, total: u32, offset: u32, count: u16) -> bool
    ensures { result ≡ is_piece_of at total offset count }
{
    at >= 1
        && at <= MAX
        && total >= 1
        && total <= MAX_SNAPSHOT
        && offset < total
        && offset % MAX_PIECE_BYTES == 0
        && u32::from(count) == MAX_PIECE_BYTES.min(total - offset)
}

impl<A: Allocator + Copy> Encode for Snap<A> {
    ghost use Rattle.ring_payload.specs.Snaps.{snap_encoding, SnapFits, snap_at, snap_format};

    ghost encoding = { snap_encoding };

    ghost max_encoded_len = { 7018 };

    ghost is_within_limits = { SnapFits };

    ghost decoding_at_front = { snap_at };

    ghost decoding_is_exact = { snap_format };

    fn encoded_len(&self) -> usize {
        18 + self.bytes.as_slice().len()
    }

    fn write<B: Allocator + Copy>(&self, out: &mut BytesMut<B>) {
        self.at.write(out);
        self.total.write(out);
        self.offset.write(out);
        (self.bytes.as_slice().len() as u16).write(out);
        self.bytes.write(out);
    }
}

impl<A: Allocator + Copy> Decode<A> for Snap<A> {
    #[tactic(auto, unfolding(crate::specs::Snaps::snap_at))]
    fn read(alloc: A, from: &mut Reader<'_>) -> Result<Snap<A>, Fault> {
        let at = Decode::read(alloc, from)?;
        let total = Decode::read(alloc, from)?;
        let offset = Decode::read(alloc, from)?;
        let count = Decode::read(alloc, from)?;
        if !is_piece(at, total, offset, count) {
            return Err(Fault::BadFrame);
        }
        let bytes = from.take_bytes(count as usize)?;
        Ok(Snap {
            at,
            total,
            offset,
            bytes: PieceBytes::from_slice(alloc, bytes)?,
        })
    }
}
