//! Laws of every run from the opening: three of the five facts of virtual synchrony, and the fact from which the other
//! two follow.
//!
//! Rules: Outputs 11; Recovery 3, 6 and 7

ghost use Rattle.std.specs.Prelude.{◌≡◌, ℕ, List};
ghost use Rattle.ring_base.specs.declared.state.State.TheVariants.{Recovery};
ghost use Rattle.ring_synchrony_proof.specs.Recovery.{HoldsEnds, IsRecovering};
ghost use Rattle.std.specs.declared.alloc.Global.{Global as Heap};
ghost use Rattle.ring_core_proof.specs.declared.event.RingEvent.{RingEvent};
ghost use Rattle.ring_core_proof.specs.Worlds.{run, unformed};
ghost use Rattle.ring_synchrony_proof.specs.Changes.{IsNode};
ghost use Rattle.ring_synchrony_proof.specs.Synchrony.{DeliversAlike, DeliversOwn, HasConfigurations, IsVirtuallySynchronous};
ghost use Rattle.ring_synchrony_proof.specs.Installed.{HoldersHaveInstalled};

use std::alloc::{Allocator, Global};

/// States three of the five facts of virtual synchrony, for every run from the opening.
///
/// - `same_deliveries`: if two lives go from one regular configuration to the same next one, all three configurations
///   have the same members in both. The deliveries are the same, divided alike before and after the transitional one.
/// - `configurations`: a processor is a member of its configurations, regular and transitional ones alternate, and the
///   numbers of regular rings rise.
/// - `own_delivery`: a processor's own user messages of a ring are delivered before its next regular configuration.
///
/// Rules: Outputs 11
pub fn three_facts_law<A: Allocator + Copy>()
    ensures same_deliveries { (n : ℕ) (events : List (RingEvent A)) → DeliversAlike (run (unformed n) events) }
    ensures configurations { (n : ℕ) (events : List (RingEvent A)) (i : ℕ) → IsNode (run (unformed n) events) i
        → HasConfigurations (run (unformed n) events) i }
    ensures own_delivery { (n : ℕ) (events : List (RingEvent A)) → DeliversOwn (run (unformed n) events) }
{}

/// States the facts of recovery, for every core of every run from the opening.
///
/// The front of each installed ring covers every member's End. In Recovery:
///
/// - The processor is one of its plan's transitional members.
/// - Its safe mark in the old ring is the greatest that one of them reported.
/// - Every number that it holds of that ring was reported by one of them.
/// - It holds the inner messages of the running ring's messages.
///
/// Rules: Recovery 1, 3, 6 and 7
pub fn recovery_facts_law<A: Allocator + Copy>()
    ensures ends { (n : ℕ) (events : List (RingEvent A)) (q : ℕ) → HoldsEnds ((run (unformed n) events).cores q) }
    ensures recovers { (n : ℕ) (events : List (RingEvent A)) (q : ℕ) → ((run (unformed n) events).cores q).state
        ≡ Recovery → IsRecovering ((run (unformed n) events).cores q) }
{}

/// States that a run from the opening is virtually synchronous if one more fact holds.
///
/// That fact is that a processor that holds a user message of a ring within its front has installed the ring.
/// `ready_rings_installed_law` states it for every run.
///
/// Rules: Recovery 7; Outputs 11
pub fn synchrony_if_installed_law<A: Allocator + Copy>()
    ensures { (n : ℕ) (events : List (RingEvent A)) → HoldersHaveInstalled (run (unformed n) events) → IsVirtuallySynchronous (run (unformed n) events) }
{}

/// States the first fact of [`three_facts_law`] for the allocator that programs use. Nothing calls this function.
///
/// A law is proved for all allocators that meet its bounds; this function shows that `Global` does.
///
/// Rules: Outputs 11
pub fn changes_at_global()
    ensures { (n : ℕ) (events : List (RingEvent Heap)) → DeliversAlike (run (unformed n) events) }
{
    three_facts_law::<Global>();
    synchrony_if_installed_law::<Global>();
    recovery_facts_law::<Global>();
}
