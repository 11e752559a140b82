//! Laws of limits: if inputs are within the limits of their format, so are the frames that cores and worlds send.
//!
//! Rules: Limits 1

ghost use Rattle.std.specs.Prelude.{◌≡◌, ℕ, ◌≤◌, List};
ghost use Rattle.std.specs.declared.alloc.Global.{Global as Heap};
ghost use Rattle.std.specs.List.{AllByRecursion};
ghost use Rattle.ring_core_spec.specs.declared.input.Input.{Input};
ghost use Rattle.ring_core_spec.specs.State.{Core, opening, formed, halted};
ghost use Rattle.ring_core_spec.specs.Stepping.{ring_step};
ghost use Rattle.ring_core_proof.specs.declared.event.RingEvent.{RingEvent};
ghost use Rattle.ring_core_proof.specs.Worlds.{run, unformed, run_formed};
ghost use Rattle.ring_core_proof.specs.Limits.{InputFits, EventFits, OutFits, CoreFits, WorldFits};

use std::alloc::{Allocator, Global};

/// States that a core stays within the limits of the format, and so do the frames that it sends, if its inputs are.
///
/// Each processor of a group of up to 16 is within them at both openings, and so is its core after a step with such an
/// input and after a stop.
///
/// Rules: Limits 1
/// Formats: Frames
pub fn core_within_limits_law<A: Allocator + Copy>()
    ensures opens { (n me : ℕ) → 1 ≤ me → me ≤ n → n ≤ 16 → CoreFits (opening {A = A} n me) }
    ensures formed { (n me : ℕ) → 1 ≤ me → me ≤ n → n ≤ 16 → CoreFits (formed {A = A} n me) }
    ensures steps { (c : Core A) (input : Input A) → CoreFits c → InputFits input → CoreFits (ring_step c input).core }
    ensures sends { (c : Core A) (input : Input A) → CoreFits c → InputFits input → AllByRecursion OutFits (ring_step c input).outs }
    ensures stops { (c : Core A) → CoreFits c → CoreFits (halted c) }
{}

/// States that every core and every frame ever sent is within the limits of its format, in every world of up to 16
/// processors.
///
/// The law holds from the opening and from a formed ring, for all lists of events whose payloads are within the limits.
///
/// Rules: Limits 1
/// Formats: Frames
pub fn frames_within_limits_law<A: Allocator + Copy>()
    ensures unformed { (n : ℕ) (events : List (RingEvent A)) → n ≤ 16 → AllByRecursion EventFits events → WorldFits (run (unformed n) events) }
    ensures formed { (n : ℕ) (events : List (RingEvent A)) → 1 ≤ n → n ≤ 16 → AllByRecursion EventFits events → WorldFits (run_formed n events) }
{}

/// States [`frames_within_limits_law`] from the opening for the allocator that programs use. Nothing calls this function.
///
/// A law is proved for all allocators that meet its bounds; this function shows that `Global` does.
///
/// Rules: Limits 1
pub fn limits_laws_at_global()
    ensures { (n : ℕ) (events : List (RingEvent Heap)) → n ≤ 16 → AllByRecursion EventFits events → WorldFits (run (unformed n) events) }
{
    core_within_limits_law::<Global>();
    frames_within_limits_law::<Global>();
}
