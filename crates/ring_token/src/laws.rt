//! The safe lemma.
//!
//! Rules: Token and window 13

ghost use Rattle.ring_token.specs.Rounds.{MarksAreSafe, PairsAreSafe};

use std::alloc::Allocator;

/// States the safe lemma: each number up to which one member forwarded the `aru` on two successive visits is safe.
///
/// Safe means that the front of every member has reached the number. So every number up to a safe mark that visits gave
/// is safe. The lemma holds for a ring of any size and for all visits of its token in their cyclic order, whatever
/// messages are lost.
///
/// Rules: Token and window 13
pub fn two_visits_safe_law<A: Allocator + Copy>()
    ensures marks { MarksAreSafe A }
    ensures pairs { PairsAreSafe A }
{}
