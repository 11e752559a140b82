//! A snapshot divided into pieces, the contents of Snaps.
//!
//! Rules: The replicated log 2

ghost use Rattle.std.specs.Prelude.{◌≡◌, ◌≤◌, length, IfOk, IfErr};
ghost use Rattle.ring_base.specs.declared.fault.Fault.TheVariants.{Memory};
ghost use Rattle.ring_wire.specs.Payloads.{max_snapshot};
ghost use Rattle.ring_log.specs.Parts.{pieces_of};

use ring_base::Fault;
use ring_wire::{MAX_PIECE_BYTES, PieceBytes, Snap};
use std::alloc::Allocator;

/// The number of bytes in a piece, 7,000; the last piece may have fewer.
const BYTES_PER_PIECE: usize = MAX_PIECE_BYTES as usize;

/// Returns the Snaps of a snapshot of a log's first `at` places, in order.
///
/// Each has 7,000 of its bytes, the last perhaps fewer. `bytes` must have at most 16,777,216 bytes. If it is empty,
/// there are no Snaps.
///
/// Errors: `Memory` if an allocation fails.
///
/// Rules: The replicated log 2 and 19; Limits 1
#[tactic(auto, using(ring_base::proofs::ListPlaces::map_numbers, ring_base::proofs::ListFronts::take_shorter))]
pub fn pieces_of<A: Allocator + Copy>(
    alloc: A,
    at: u64,
    bytes: &[u8],
) -> Result<Vec<Snap<A>, A>, Fault>
    requires limit { length bytes.now ≤ max_snapshot }
    ensures ok { IfOk result (λ pieces. pieces.items ≡ pieces_of at bytes.now) }
    ensures refused { IfErr result (λ fault. fault ≡ Memory) }
{
    let mut pieces = Vec::new(alloc);
    for k in 0..(bytes.len() + (BYTES_PER_PIECE - 1)) / BYTES_PER_PIECE {
        let start = BYTES_PER_PIECE * k;
        let rest = &bytes[start..];
        pieces.push(Snap {
            at,
            total: bytes.len() as u32,
            offset: start as u32,
            bytes: PieceBytes::from_slice(alloc, &rest[..rest.len().min(BYTES_PER_PIECE)])?,
        })?;
    }
    Ok(pieces)
}
