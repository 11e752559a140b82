//! The law of lives, for every run from the opening.
//!
//! Rules: Outputs 9 and 10

ghost use Rattle.std.specs.Prelude.{◌≡◌, ℕ, List, true};
ghost use Rattle.std.specs.declared.alloc.Global.{Global as Heap};
ghost use Rattle.ring_core_proof.specs.declared.event.RingEvent.{RingEvent};
ghost use Rattle.ring_core_proof.specs.Worlds.{run, unformed};
ghost use Rattle.ring_core_proof.specs.Lives.{life_of, has_ordered_outputs};
ghost use Rattle.ring_synchrony_proof.specs.LifeOfCore.{core_life};

use std::alloc::{Allocator, Global};

/// States that a processor's life consists of what its core's facts say, in every run from the opening.
///
/// For each ring that it installed, the user messages up to its front are `Agreed`, and its safe mark is `Safe`.
/// Between two rings are the transitional members and the `Rest` messages, by the plan of the newer ring. Each output
/// comes while the configuration that it belongs to is the newest, with the message's own number, and the numbers of
/// `Safe` rise.
///
/// Rules: Outputs 9 and 10
pub fn life_law<A: Allocator + Copy>()
    ensures lives { (n : ℕ) (events : List (RingEvent A)) (i : ℕ) → life_of (run (unformed n) events) i ≡ core_life ((run (unformed n) events).cores i) }
    ensures told { (n : ℕ) (events : List (RingEvent A)) (i : ℕ) → has_ordered_outputs (run (unformed n) events) i ≡ true }
{}

/// States the first half of [`life_law`] for the allocator that programs use. Nothing calls this function.
///
/// A law is proved for all allocators that meet its bounds; this function shows that `Global` does.
///
/// Rules: Outputs 9 and 10
pub fn life_at_global()
    ensures { (n : ℕ) (events : List (RingEvent Heap)) (i : ℕ) → life_of (run (unformed n) events) i ≡ core_life ((run (unformed n) events).cores i) }
{
    life_law::<Global>();
}
