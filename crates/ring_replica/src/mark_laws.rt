//! Laws of safe marks.
//!
//! Rules: Outputs 4 and 9

ghost use Rattle.std.specs.Prelude.{◌≡◌, ℕ, List, true, false};
ghost use Rattle.ring_payload.specs.declared.content.Payload.{Payload};
ghost use Rattle.ring_core_spec.specs.declared.input.Input.{Input};
ghost use Rattle.ring_core_spec.specs.State.{Core, opening};
ghost use Rattle.ring_core_spec.specs.Giving.{may_install};
ghost use Rattle.ring_core_spec.specs.Stepping.{ring_step};
ghost use Rattle.ring_log.specs.Epochs.{Epoch, history_opening_of, epochs_with_sends};
ghost use Rattle.ring_replication.specs.NodeSpec.{epochs_after, is_stopped, handed_over};
ghost use Rattle.ring_replication.specs.Replications.{rises};
ghost use Rattle.ring_replica.specs.Marks.{IsMarked};

use std::alloc::Allocator;

/// States that a node's newest epoch always is in the core's installed ring, with a safe mark of at most the core's.
///
/// This holds at the opening, after each step of the core, and after payloads are handed over. So a step never reports
/// a safe mark below the one before. Also: a core's processor never changes, no step stops a core, and payloads handed
/// over change neither its state nor its ring.
///
/// Rules: Outputs 4 and 9; The replicated log 1
pub fn epoch_safe_marks_law<A: Allocator + Copy>()
    ensures opening { (total me : ℕ) → IsMarked {A = A} (opening total me) (history_opening_of me) }
    ensures rises { (c : Core A) (epochs : List (Epoch A)) (input : Input A) → IsMarked c epochs → rises epochs (ring_step c input).outs ≡ true }
    ensures step { (c : Core A) (epochs : List (Epoch A)) (input : Input A) →
        IsMarked c epochs → IsMarked (ring_step c input).core (epochs_after epochs (ring_step c input).outs) }
    ensures handed { (c : Core A) (epochs : List (Epoch A)) (payloads : List (Payload A)) →
        IsMarked c epochs → IsMarked (handed_over c payloads) (epochs_with_sends payloads epochs) }
    ensures going { (c : Core A) (input : Input A) → is_stopped c.state ≡ false → is_stopped (ring_step c input).core.state ≡ false }
    ensures me { (c : Core A) (input : Input A) → (ring_step c input).core.me ≡ c.me }
    ensures me_handed { (c : Core A) (payloads : List (Payload A)) → (handed_over c payloads).me ≡ c.me }
    ensures state { (c : Core A) (payloads : List (Payload A)) → may_install c ≡ false → (handed_over c payloads).state ≡ c.state }
    ensures installed { (c : Core A) (payloads : List (Payload A)) → may_install c ≡ false → (handed_over c payloads).installed ≡ c.installed }
{}
