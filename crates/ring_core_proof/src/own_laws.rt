//! Laws of what one core knows of itself after any inputs, forged frames included.
//!
//! Rules: Rings and states 2 to 7; Token and window 1, 4 and 6; The commit token 2, 3, 5 and 6

ghost use Rattle.std.specs.Prelude.{◌≡◌, ℕ, List};
ghost use Rattle.std.specs.declared.alloc.Global.{Global as Heap};
ghost use Rattle.ring_base.specs.declared.ring_id.RingId.{RingId};
ghost use Rattle.ring_core_spec.specs.declared.input.Input.{Input};
ghost use Rattle.ring_core_spec.specs.State.{Core, opening};
ghost use Rattle.ring_core_spec.specs.Stepping.{after_inputs};
ghost use Rattle.ring_core_proof.specs.declared.event.RingEvent.{RingEvent};
ghost use Rattle.ring_core_proof.specs.Worlds.{run, unformed};
ghost use Rattle.ring_core_proof.specs.CoreInvariants.{LocalFacts};
ghost use Rattle.ring_core_proof.specs.KnowledgeOfRings.{HasLeft, IsBetweenRings, KeepsKnowledge, KeepsReport};

use std::alloc::{Allocator, Global};

/// States the local facts of a core, after any inputs from the opening, and for each core of every world.
///
/// - The core's rings fit its state.
/// - Each message held, visit, raised mark and plan belongs to a ring that the core has taken part in, and in Commit
///   none belongs to the newest ring.
/// - Each number of a ring is held with one message, and the core holds what it numbered itself.
/// - The core visits the tokens of a ring in the order of their numbers.
/// - The entry that it would report is exact, and its reports are true.
///
/// Rules: Rings and states 2 to 7; Token and window 1, 4 and 6; The commit token 2 and 3
pub fn local_law<A: Allocator + Copy>()
    ensures core { (n me : ℕ) (inputs : List (Input A)) → LocalFacts (after_inputs (opening n me) inputs) }
    ensures world { (n i : ℕ) (events : List (RingEvent A)) → LocalFacts ((run (unformed n) events).cores i) }
{}

/// States that what a core knows of a ring that it has left never changes: messages, visits, front and safe mark.
///
/// A core has left a ring that neither runs nor is installed and whose number is at most the floor. The law holds for
/// every core, whatever the inputs.
///
/// Rules: Rings and states 7; The commit token 5
pub fn left_ring_unchanged_law<A: Allocator + Copy>()
    ensures { (c : Core A) (later : List (Input A)) (ring : RingId) → HasLeft c ring → KeepsKnowledge ring c (after_inputs c later) }
{}

/// States that what a core knows of its installed ring doesn't change between the two rounds of a commit token.
///
/// That is from its first round until the full commit token arrives in its second. So the core would then write the
/// same report as it did on its way into the new ring. If a recovery breaks off, the messages unwrapped and the mark
/// raised in it stay until the next recovery begins.
///
/// Rules: The commit token 3, 5 and 6; Recovery 10
pub fn report_unchanged_law<A: Allocator + Copy>()
    ensures { (c : Core A) (later : List (Input A)) → IsBetweenRings c → KeepsReport c (after_inputs c later) }
{}

/// States [`local_law`] for one core and for the allocator that programs use. Nothing calls this function.
///
/// A law is proved for all allocators that meet its bounds; this function shows that `Global` does.
///
/// Rules: Rings and states 2 to 7
pub fn own_laws_at_global()
    ensures { (n me : ℕ) (inputs : List (Input Heap)) → LocalFacts (after_inputs (opening n me) inputs) }
{
    left_ring_unchanged_law::<Global>();
    report_unchanged_law::<Global>();
    local_law::<Global>();
}
