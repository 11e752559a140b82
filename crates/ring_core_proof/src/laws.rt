//! Laws of the ring core: facts about every core after any inputs, forged frames included.
//!
//! Rules: Rings and states 7, 8 and 13; Gather 3 and 9; The commit token 1 and 10; Token and window 3, 4 and 7 to 9;
//! Recovery 4

ghost use Rattle.std.specs.Prelude.{◌≡◌, ℕ, List, ◌+◌, ◌≤◌, ◌++◌, length, true};
ghost use Rattle.std.specs.declared.alloc.Global.{Global as Heap};
ghost use Rattle.std.specs.List.{list_all, flat_map, AllByRecursion};
ghost use Rattle.ring_base.specs.Numbers.{numbers_from, window_size};
ghost use Rattle.ring_base.specs.declared.ring_id.RingId.{RingId};
ghost use Rattle.ring_payload.specs.declared.content.Payload.{Payload};
ghost use Rattle.ring_payload.specs.PayloadKinds.{is_user, unpacked_payloads};
ghost use Rattle.ring_payload.specs.Packing.{AreQueued, IsLongestRun, longest_call_run, packed_payloads, unpacked_rest};
ghost use Rattle.ring_payload.specs.Payloads.{PayloadFits};
ghost use Rattle.ring_wire.specs.declared.commit.CommitToken.{CommitToken};
ghost use Rattle.ring_core_spec.specs.Windows.{holds};
ghost use Rattle.ring_core_spec.specs.Joins.{AllHaveOwnSets};
ghost use Rattle.ring_core_spec.specs.Commits.{receiver};
ghost use Rattle.ring_core_spec.specs.declared.input.Input.{Input};
ghost use Rattle.ring_core_spec.specs.State.{Core, opening};
ghost use Rattle.ring_core_spec.specs.Views.{front, mark};
ghost use Rattle.ring_core_spec.specs.Deciding.{decide};
ghost use Rattle.ring_core_spec.specs.Stepping.{after_inputs};
ghost use Rattle.ring_core_proof.specs.declared.event.RingEvent.{RingEvent};
ghost use Rattle.ring_core_proof.specs.Worlds.{World, run, unformed};
ghost use Rattle.ring_core_proof.specs.CommitRounds.{has_rising_rings, is_taken, takings};
ghost use Rattle.ring_core_proof.specs.Moves.{IsMoved};
ghost use Rattle.ring_core_proof.specs.LawConditions.{IsInputOf, HasPassed, IsFalling, TakesCommit, AreTurnsOf, AreFreshOf, HasEnded};

use ring_core_spec::{finish_law, held_bits_law, two_visits_safe_law, unique_front_law};
use std::alloc::{Allocator, Global};

/// States that the transition chosen for an input has passed the tests that the rules name for it.
///
/// The law holds for every core and every input.
///
/// Rules: Rings and states 8
pub fn decision_law<A: Allocator + Copy>()
    ensures { (c : Core A) (input : Input A) → HasPassed c (decide c input) }
{}

/// States that the transition chosen for an input carries the frame, timeout or payload of this input and no other.
///
/// The law holds for every core and every input.
///
/// Rules: Rings and states 8
pub fn transition_carries_input_law<A: Allocator + Copy>()
    ensures { (c : Core A) (input : Input A) → IsInputOf c input (decide c input) }
{}

/// States that a commit token is taken only by the member to which its hop is sent.
///
/// The law holds for every core and every commit token, forged ones included.
///
/// Rules: The commit token 1
pub fn hop_taken_by_receiver_law<A: Allocator + Copy>()
    ensures { (c : Core A) (k : CommitToken) → TakesCommit c k → receiver k ≡ c.me }
{}

/// States that each step of a core consists of at most three moves.
///
/// At most two come before the outputs of the step, and perhaps an installation after them. A move is one of the six
/// kinds of change that the proofs about worlds follow. The law holds for every core and every input.
///
/// Rules: Rings and states 13
pub fn moves_law<A: Allocator + Copy>()
    ensures { (c : Core A) (input : Input A) → IsMoved c input }
{}

/// States that the numbers of the rings that a core takes part in strictly rise, after any inputs from the opening.
///
/// Rules: Rings and states 7; The commit token 10
pub fn ring_numbers_rise_law<A: Allocator + Copy>()
    ensures { (n me : ℕ) (inputs : List (Input A)) → IsFalling (after_inputs (opening n me) inputs).rings }
{}

/// States that a core's safe mark in any ring is at most its front there, after any inputs from the opening.
///
/// Rules: Token and window 3
pub fn mark_within_front_law<A: Allocator + Copy>()
    ensures { (n me : ℕ) (inputs : List (Input A)) (ring : RingId) → mark (after_inputs (opening n me) inputs)
        ring ≤ front (after_inputs (opening n me) inputs) ring }
{}

/// States that a core holds no number of a ring that is more than 256 above its safe mark there.
///
/// The law holds after any inputs from the opening.
///
/// Rules: Token and window 4
pub fn held_within_window_law<A: Allocator + Copy>()
    ensures { (n me : ℕ) (inputs : List (Input A)) (ring : RingId) (k : ℕ)
        → holds (after_inputs (opening n me) inputs).held ring k ≡ true
        → k ≤ mark (after_inputs (opening n me) inputs) ring + window_size }
{}

/// States that each join that a core has counted has exactly the core's present sets, after any inputs from the
/// opening.
///
/// So consensus, as `ring_join` tests it, is among processors that sent exactly these sets.
///
/// Rules: Gather 3 and 9
pub fn agreement_law<A: Allocator + Copy>()
    ensures { (n me : ℕ) (inputs : List (Input A)) → AllHaveOwnSets (after_inputs (opening n me) inputs).gathering }
{}

/// States that each visit of a core follows the rules, after any inputs from the opening, whatever the token requests.
///
/// The new messages are made from some queue, with runs of calls packed, or they are the Wrapped messages of some plan
/// and the End. A single core may receive forged tokens. For every run of cores, `ring_chain_proof` also states that
/// each visit continues the visit before, at the member whose turn it is.
///
/// Rules: Token and window 7 to 9
pub fn visit_law<A: Allocator + Copy>()
    ensures turns { (n me : ℕ) (inputs : List (Input A)) → AreTurnsOf (after_inputs (opening n me) inputs).me
        (after_inputs (opening n me) inputs).held (after_inputs (opening n me) inputs).turns }
    ensures fresh { (n me : ℕ) (inputs : List (Input A)) → AreFreshOf (after_inputs (opening n me) inputs).me
        (after_inputs (opening n me) inputs).held (after_inputs (opening n me) inputs).turns }
{}

/// States that a core in Recovery that has sent an End has nothing left to wrap, after any inputs from the opening.
///
/// Suppose that the core sent an End in a visit of the running ring's token. Then each user message that it holds of
/// the old ring above the least reported front is wrapped by a message that it holds of the running ring. It isn't
/// enough that the core holds an End of its own, since a forged frame may have brought it.
///
/// Rules: Recovery 4
pub fn end_follows_wraps_law<A: Allocator + Copy>()
    ensures { (n me : ℕ) (inputs : List (Input A)) → HasEnded (after_inputs (opening n me) inputs) }
{}

/// States how a visit packs a queue: the run of calls that becomes the first message is the longest that fits one
/// message.
///
/// No payload is lost, duplicated or reordered. The messages are within the limits of their format if the payloads are,
/// and they are user messages if the payloads are. The law holds for every queue.
///
/// Rules: Token and window 9
pub fn packing_law<A: Allocator + Copy>()
    ensures longest { (queue : List (Payload A)) → IsLongestRun queue (longest_call_run queue) }
    ensures few { (count : ℕ) (queue : List (Payload A)) → length (packed_payloads count queue) ≤ count }
    ensures unpacked_payloads { (count : ℕ) (queue : List (Payload A)) → AreQueued queue → flat_map unpacked_payloads (packed_payloads count queue) ++ unpacked_rest count queue ≡ queue }
    ensures fits { (count : ℕ) (queue : List (Payload A)) → AllByRecursion PayloadFits queue → AllByRecursion PayloadFits (packed_payloads count queue) }
    ensures users { (count : ℕ) (queue : List (Payload A)) → AllByRecursion (λ (p : Payload A). is_user p ≡ true)
        queue → AllByRecursion (λ (p : Payload A). is_user p ≡ true) (packed_payloads count queue) }
{}

/// States five laws of one core for each processor of every world of ring cores, after any events from the opening.
///
/// Safe marks are at most fronts. Nothing is held above the window. Each visit follows the rules. Each counted join has
/// exactly the core's sets. After an End nothing is left to wrap.
///
/// Rules: Gather 3; Token and window 3, 4 and 7 to 9; Recovery 4
pub fn core_laws_of_worlds<A: Allocator + Copy>()
    ensures marks { (n i : ℕ) (events : List (RingEvent A)) (ring : RingId) → mark ((run (unformed n) events).cores i)
        ring ≤ front ((run (unformed n) events).cores i) ring }
    ensures window { (n i : ℕ) (events : List (RingEvent A)) (ring : RingId) (k : ℕ)
        → holds ((run (unformed n) events).cores i).held ring k ≡ true → k ≤ mark ((run (unformed n) events).cores i)
        ring + window_size }
    ensures visits { (n i : ℕ) (events : List (RingEvent A)) → AreTurnsOf ((run (unformed n) events).cores i).me
        ((run (unformed n) events).cores i).held ((run (unformed n) events).cores i).turns }
    ensures fresh { (n i : ℕ) (events : List (RingEvent A)) → AreFreshOf ((run (unformed n) events).cores i).me
        ((run (unformed n) events).cores i).held ((run (unformed n) events).cores i).turns }
    ensures joins { (n i : ℕ) (events : List (RingEvent A)) → AllHaveOwnSets ((run (unformed n) events).cores i).gathering }
    ensures ends { (n i : ℕ) (events : List (RingEvent A)) → HasEnded ((run (unformed n) events).cores i) }
{}

/// States two of the five facts of `CommitRounds`, the two rounds of the commit tokens, for every run of ring cores.
///
/// The numbers of the rings that a processor takes part in rise. A commit token, even a forged one, is taken only by
/// the member at its position, and in the second round only if it has the report that this member would write now.
/// `ring_chain_proof` states all five facts.
///
/// Rules: The commit token 10
pub fn second_round_law<A: Allocator + Copy>()
    ensures rings { (n : ℕ) (events : List (RingEvent A)) → list_all (λ i. has_rising_rings ((run (unformed n) events).cores i)) (numbers_from 1 n) ≡ true }
    ensures taken { (w : World A) (events : List (RingEvent A)) → list_all is_taken (takings w events) ≡ true }
{}

/// States [`mark_within_front_law`] for the allocator that programs use. Nothing calls this function.
///
/// A law is proved for all allocators that meet its bounds; this function shows that `Global` does.
///
/// Rules: Token and window 3
pub fn core_laws_at_global()
    ensures { (n me : ℕ) (inputs : List (Input Heap)) (ring : RingId) → mark (after_inputs (opening n me) inputs)
        ring ≤ front (after_inputs (opening n me) inputs) ring }
{
    unique_front_law::<Global>();
    held_bits_law::<Global>();
    two_visits_safe_law::<Global>();
    finish_law::<Global>();
    decision_law::<Global>();
    transition_carries_input_law::<Global>();
    hop_taken_by_receiver_law::<Global>();
    moves_law::<Global>();
    ring_numbers_rise_law::<Global>();
    held_within_window_law::<Global>();
    agreement_law::<Global>();
    visit_law::<Global>();
    end_follows_wraps_law::<Global>();
    packing_law::<Global>();
    core_laws_of_worlds::<Global>();
    second_round_law::<Global>();
    mark_within_front_law::<Global>();
}
