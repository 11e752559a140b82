//! Laws of recovery: members that come from the same old ring deliver the same messages of it.
//!
//! Rules: Recovery 1, 8 and 9

ghost use Rattle.std.specs.Prelude.{◌≡◌, ℕ, List, Option, Some, true};
ghost use Rattle.ring_commit.specs.Tokens.{CommitToken};
ghost use Rattle.ring_window.specs.Messages.{Message};
ghost use Rattle.ring_recover.specs.Plans.{Plan, plan_from};
ghost use Rattle.ring_recover.specs.Deliveries.{is_complete, finish, rest_messages, SameText};

use std::alloc::Allocator;

/// States that two members that come from the same old ring make the same plan from a commit token.
///
/// The law holds for every commit token and any two processors. If each of the two gets a plan, and both plans name the
/// same old ring, then the plans are equal.
///
/// Rules: Recovery 1
pub fn plan_law()
    ensures { (k : CommitToken) (i j : ℕ) (p q : Plan) → plan_from i k ≡ Some p → plan_from j k ≡ Some q → p.old ≡ q.old → p ≡ q }
{}

/// States that two members with the same plan deliver the same numbers and the same messages.
///
/// The law holds for every plan and any two lists of held messages. Each list must have every number that a
/// transitional member reported. Under each number of the old ring that both lists have, they must have the same
/// message.
///
/// Rules: Recovery 8 and 9
pub fn finish_law<A: Allocator + Copy>()
    ensures parts { (p : Plan) (a b : List (Message A)) → SameText p.old a b → is_complete p a ≡ true → is_complete p b ≡ true → finish p a ≡ finish p b }
    ensures messages { (p : Plan) (a b : List (Message A)) → SameText p.old a b → is_complete p a ≡ true → is_complete p b ≡ true → rest_messages p a ≡ rest_messages p b }
{}
