//! Laws of every run, whatever events happen: from the opening, and from a formed ring.
//!
//! Rules: Rings and states 2, 7 and 14; The commit token 1 and 10; Token and window 7 and 13; Recovery 1; Outputs 3 to
//! 5

ghost use Rattle.std.specs.Prelude.{◌≡◌, ℕ, ◌≤◌, List, [], ◌∷◌};
ghost use Rattle.std.specs.declared.alloc.Global.{Global as Heap};
ghost use Rattle.ring_base.specs.Numbers.{numbers_from};
ghost use Rattle.ring_base.specs.declared.ring_id.RingId.{RingId};
ghost use Rattle.ring_core_spec.specs.State.{formed_ring_of};
ghost use Rattle.ring_core_spec.specs.Views.{front};
ghost use Rattle.ring_core_proof.specs.declared.event.RingEvent.{RingEvent};
ghost use Rattle.ring_core_proof.specs.Worlds.{run, unformed, run_formed};
ghost use Rattle.ring_core_proof.specs.CommitRounds.{CommitRounds};
ghost use Rattle.ring_core_proof.specs.Texts.{HasOneText};
ghost use Rattle.ring_core_proof.specs.CoreInvariants.{LocalFacts};
ghost use Rattle.ring_chain_proof.specs.ChainWords.{SharesRings};
ghost use Rattle.ring_chain_proof.specs.ChainFacts.{AllHoldMarks, AllIsOfFormed, AllTakePart, ArePlans, HasChains, HasNumbered};
ghost use Rattle.ring_chain_proof.specs.ChainFacts.{HaveOnePlan, MarksAreSafe, NameSameMembers, ReportsAreSafe, SafeOutputsAreSafe};
ghost use Rattle.ring_chain_proof.specs.ChainFacts.{OutputsAreHeld, VisitInTurn, agreed_numbers};

use std::alloc::{Allocator, Global};

/// States that all processors that take part in a ring name the same members: those that its representative named.
///
/// Each of these processors is one of the members, and the representative is the smallest. The law holds for every run.
/// In a run from a formed ring, that ring is the only one that a processor takes part in.
///
/// Rules: Rings and states 2 and 14
pub fn ring_members_law<A: Allocator + Copy>()
    ensures shared { (n : ℕ) (events : List (RingEvent A)) → SharesRings (run (unformed n) events).cores }
    ensures same { (n : ℕ) (events : List (RingEvent A)) → NameSameMembers (run (unformed n) events).cores }
    ensures parts { (n : ℕ) (events : List (RingEvent A)) → AllTakePart (run (unformed n) events).cores }
    ensures formed { (n q : ℕ) (events : List (RingEvent A)) → ((run_formed n events).cores q).rings ≡ formed_ring_of n ∷ [] }
{}

/// States the facts of the two rounds of the commit tokens, in every run from the opening.
///
/// - Each processor takes part in rings of rising numbers.
/// - Each hop is sent by the member before it, with the reports of the first members.
/// - All commit tokens of one ring name the same members.
/// - Only the member at a hop's position takes the hop, and each hop of a ring is taken at most once.
///
/// Rules: The commit token 1 and 10
pub fn commit_rounds_law<A: Allocator + Copy>()
    ensures { (n : ℕ) (events : List (RingEvent A)) → CommitRounds (unformed n) events }
{}

/// States that all visits of a ring's token form one list, in every run, from the opening and from a formed ring.
///
/// In each visit the member whose turn it is takes the token as the visit before forwarded it, and follows the rules.
/// The visits that a processor records are its own in this list. By `ring_core_spec::two_visits_safe_law` they make the ring safe
/// up to their marks.
///
/// Rules: Token and window 7 and 13
pub fn one_chain_of_visits_law<A: Allocator + Copy>()
    ensures unformed { (n : ℕ) (events : List (RingEvent A)) → HasChains (run (unformed n) events).cores }
    ensures formed { (n : ℕ) (events : List (RingEvent A)) → 1 ≤ n → HasChains (run_formed n events).cores }
{}

/// States under which token numbers a member visits the token, in every run, from the opening and from a formed ring.
///
/// In a ring of m members a member first visits the token whose number is the member's position, and then every m-th
/// number. Positions count from 0, in ascending order of the members. So two successive visits of one member are one
/// whole round apart.
///
/// Rules: Token and window 7
pub fn visit_numbers_law<A: Allocator + Copy>()
    ensures unformed { (n : ℕ) (events : List (RingEvent A)) → VisitInTurn (run (unformed n) events).cores }
    ensures formed { (n : ℕ) (events : List (RingEvent A)) → 1 ≤ n → VisitInTurn (run_formed n events).cores }
{}

/// States that each number of a ring has one sender and one payload, whichever processors hold it, in every run.
///
/// Every message held was numbered by its sender in one of the visits of [`one_chain_of_visits_law`], and so was the message that it
/// wraps.
///
/// Rules: Outputs 8
pub fn one_text_law<A: Allocator + Copy>()
    ensures unformed { (n : ℕ) (events : List (RingEvent A)) (ring : RingId) → HasOneText (run (unformed n) events) ring }
    ensures formed { (n : ℕ) (events : List (RingEvent A)) (ring : RingId) → 1 ≤ n → HasOneText (run_formed n events) ring }
    ensures numbered { (n : ℕ) (events : List (RingEvent A)) → HasNumbered (run (unformed n) events).cores }
    ensures numbered_formed { (n : ℕ) (events : List (RingEvent A)) → 1 ≤ n → HasNumbered (run_formed n events).cores }
{}

/// States that each member of a ring holds every number up to any processor's safe mark there, in every run.
///
/// The members are those that the ring's representative named; of a formed ring, all processors. The same holds of the
/// safe mark that a processor reported of its last installed ring, on its way into a new one.
///
/// Rules: Token and window 13
pub fn safe_mark_law<A: Allocator + Copy>()
    ensures unformed { (n : ℕ) (events : List (RingEvent A)) → MarksAreSafe (run (unformed n) events).cores }
    ensures formed { (n : ℕ) (events : List (RingEvent A)) → 1 ≤ n → AllHoldMarks n (run_formed n events).cores }
    ensures reported { (n : ℕ) (events : List (RingEvent A)) → ReportsAreSafe (run (unformed n) events).cores }
{}

/// States that all processors that recover in a ring have the same plan, in every run from the opening.
///
/// They have the same members, and the same entry of each: what the member reported when it took part in the ring.
///
/// Rules: The commit token 10; Recovery 1
pub fn one_plan_law<A: Allocator + Copy>()
    ensures reports { (n : ℕ) (events : List (RingEvent A)) → ArePlans (run (unformed n) events).cores }
    ensures one { (n : ℕ) (events : List (RingEvent A)) → HaveOnePlan (run (unformed n) events).cores }
{}

/// States that processors output what they hold, in every run.
///
/// Each message given under a number, as `Agreed` or `Rest`, is the user message that the processor holds under that
/// number, then and ever after. By [`one_text_law`] it is the ring's only message of that number. In a formed ring the
/// `Agreed` of each processor have the numbers 1, 2, 3 and so on up to its front, each once.
///
/// Rules: Outputs 3 and 5
pub fn outputs_are_held_law<A: Allocator + Copy>()
    ensures unformed { (n : ℕ) (events : List (RingEvent A)) → OutputsAreHeld (run (unformed n) events) }
    ensures formed { (n : ℕ) (events : List (RingEvent A)) → 1 ≤ n → OutputsAreHeld (run_formed n events) }
    ensures numbers { (n i : ℕ) (events : List (RingEvent A)) → agreed_numbers (run_formed n events) i
        ≡ numbers_from 1 (front ((run_formed n events).cores i) (formed_ring_of n).ring) }
{}

/// States that each member of a ring holds every number that any processor's `Safe` covers, then and ever after.
///
/// The members are those that the ring's representative named; of a formed ring, all processors. The law holds for
/// every run. In a run from a formed ring all outputs other than frames are `Agreed` or `Safe` of that ring.
///
/// Rules: Outputs 4
pub fn safe_outputs_law<A: Allocator + Copy>()
    ensures unformed { (n : ℕ) (events : List (RingEvent A)) → SafeOutputsAreSafe (run (unformed n) events) }
    ensures formed { (n : ℕ) (events : List (RingEvent A)) → 1 ≤ n → AllIsOfFormed n (run_formed n events) }
{}

/// States the local facts of each processor in every run from a formed ring.
///
/// They are those of `ring_core_proof::local_law`, which states them from the opening: which rings and messages a
/// core has, the order of its visits, and that its reports are true.
///
/// Rules: Rings and states 2 to 7 and 14; Token and window 1, 4 and 6; The commit token 2 and 3
pub fn formed_facts_law<A: Allocator + Copy>()
    ensures { (n i : ℕ) (events : List (RingEvent A)) → 1 ≤ i → i ≤ n → LocalFacts ((run_formed n events).cores i) }
{}

/// States [`one_text_law`] from the opening for the allocator that programs use. Nothing calls this function.
///
/// A law is proved for all allocators that meet its bounds; this function shows that `Global` does.
///
/// Rules: Outputs 8
pub fn chain_laws_at_global()
    ensures { (n : ℕ) (events : List (RingEvent Heap)) (ring : RingId) → HasOneText (run (unformed n) events) ring }
{
    ring_members_law::<Global>();
    commit_rounds_law::<Global>();
    one_chain_of_visits_law::<Global>();
    visit_numbers_law::<Global>();
    safe_mark_law::<Global>();
    one_plan_law::<Global>();
    safe_outputs_law::<Global>();
    formed_facts_law::<Global>();
    outputs_are_held_law::<Global>();
    one_text_law::<Global>();
}
