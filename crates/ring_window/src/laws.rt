//! Laws about held messages: the front, and the held bits of a commit entry.
//!
//! Rules: Token and window 2
//! Formats: The commit entry

ghost use Rattle.std.specs.Prelude.{◌≡◌, ◌+◌, ◌<◌, ℕ, List};
ghost use Rattle.ring_base.specs.declared.ring_id.RingId.{RingId};
ghost use Rattle.ring_wire.specs.declared.message.Message.{Message};
ghost use Rattle.ring_wire.specs.Entries.{bit_of};
ghost use Rattle.ring_window.specs.Bits.{held_bits};
ghost use Rattle.ring_window.specs.Held.{IsFrontIn, front_of, holds};
ghost use Rattle.ring_base.specs.Numbers.{window_size};

use std::alloc::Allocator;

/// States that the front is the only number k such that 1 to k are held and k + 1 isn't.
///
/// This holds for every ring and every list of messages held.
///
/// Rules: Token and window 2
pub fn unique_front_law<A: Allocator + Copy>()
    ensures is { (held : List (Message A)) (ring : RingId) → IsFrontIn held ring (front_of held ring) }
    ensures only { (held : List (Message A)) (ring : RingId) (k : ℕ) → IsFrontIn held ring k → k ≡ front_of held ring }
{}

/// States that bit j of the held bits in a commit entry is set exactly if the number front + 1 + j is held.
///
/// This holds for every ring, every list of messages held, and j from 0 to 255.
///
/// Formats: The commit entry
pub fn held_bits_law<A: Allocator + Copy>()
    ensures { (held : List (Message A)) (ring : RingId) (j : ℕ) → j < window_size → bit_of (held_bits held ring) j ≡ holds held ring (front_of held ring + 1 + j) }
{}
