//! The meaning of the tests: each succeeds exactly if its fact holds.
//!
//! Rules: Outputs 11

ghost use Rattle.std.specs.Prelude.{ℕ};
ghost use Rattle.std.specs.Bool.{Decides};
ghost use Rattle.std.specs.declared.alloc.Global.{Global as Heap};
ghost use Rattle.ring_core_proof.specs.Worlds.{World};
ghost use Rattle.ring_synchrony_proof.specs.Changes.{IsNode};
ghost use Rattle.ring_synchrony_proof.specs.Synchrony.{HasSameText, DeliversSafely, DeliversAlike, HasConfigurations, DeliversOwn, IsVirtuallySynchronous};
ghost use Rattle.ring_synchrony_proof.specs.Tests.{has_same_text, delivers_safely, delivers_alike, have_configurations, delivers_own, is_virtually_synchronous};

use std::alloc::{Allocator, Global};

/// States that the test for each of the five facts of virtual synchrony succeeds exactly if the fact holds.
///
/// So does the test for all five together. The law holds for every world of ring cores, with any outputs.
///
/// Rules: Outputs 11
pub fn tests_decide_facts_law<A: Allocator + Copy>()
    ensures same_text { (w : World A) → Decides (has_same_text w) (HasSameText w) }
    ensures safe_delivery { (w : World A) → Decides (delivers_safely w) (DeliversSafely w) }
    ensures same_deliveries { (w : World A) → Decides (delivers_alike w) (DeliversAlike w) }
    ensures configurations { (w : World A) → Decides (have_configurations w) ((i : ℕ) → IsNode w i → HasConfigurations w i) }
    ensures own_delivery { (w : World A) → Decides (delivers_own w) (DeliversOwn w) }
    ensures all { (w : World A) → Decides (is_virtually_synchronous w) (IsVirtuallySynchronous w) }
{}

/// States for the allocator that programs use that the test for all five facts decides them. Nothing calls this
/// function.
///
/// A law is proved for all allocators that meet its bounds; this function shows that `Global` does.
///
/// Rules: Outputs 11
pub fn tests_at_global()
    ensures { (w : World Heap) → Decides (is_virtually_synchronous w) (IsVirtuallySynchronous w) }
{
    tests_decide_facts_law::<Global>();
}
