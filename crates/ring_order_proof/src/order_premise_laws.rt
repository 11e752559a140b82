//! The law that every run of nodes has the facts about ring cores from which the one order follows.
//!
//! The facts hold for the epochs as nodes know them, and for the epochs filled with the places that snapshots replace.
//! They also hold when a core has run its step and nothing has been handed over yet.
//!
//! Rules: Outputs 3, 8, 9 and 11; Rings and states 2 and 7; Token and window 13

ghost use Rattle.std.specs.Prelude.{ℕ, ◌≤◌, List};
ghost use Rattle.ring_base.specs.Group.{Group};
ghost use Rattle.ring_core_spec.specs.declared.input.Input.{Input};
ghost use Rattle.ring_node_spec.specs.declared.event.Event.{Event};
ghost use Rattle.ring_node_spec.specs.Worlds.{world_opening, run};
ghost use Rattle.ring_order_proof.specs.RunFacts.{HasFacts};
ghost use Rattle.ring_order_proof.specs.MidStep.{MayCome, world_after_core_step};

use ring_object::Object;

/// States the facts about the nodes' epochs from which the one order follows.
///
/// They hold for every object, every group of at most 16 processors and every list of events:
/// - Ring numbers rise. A ring's name determines its members, and each node that installs the ring is one of them.
/// - The messages that a node received in a ring are a prefix of the ring's text: its user messages, in the order of
///   their numbers.
/// - The payloads that a core sent in its visits there are a prefix of those that its node handed to it in its epoch
///   there.
/// - Each member received there, before all else, the messages that are safe by any node's safe mark, or that every
///   member's front has reached.
///
/// Rules: Outputs 3, 8, 9 and 11; Rings and states 2 and 7; Token and window 13
pub fn order_premises_law<O: Object>()
    ensures runs { (group : Group) (events : List (Event O.Alloc)) → group.count ≤ 16 → HasFacts (run O.sequential (world_opening group) events) }
    ensures steps { (group : Group) (events : List (Event O.Alloc)) (node : ℕ) (input : Input O.Alloc) → group.count ≤ 16 → 1 ≤ node → node ≤ group.count →
        let w = run O.sequential (world_opening group) events in
        MayCome w node input → HasFacts (world_after_core_step w node input) }
{}
