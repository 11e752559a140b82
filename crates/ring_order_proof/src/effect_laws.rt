//! How many places the nodes of a run have committed, and how many of their calls took effect.
//!
//! Rules: The replicated log 1, 18 and 20

ghost use Rattle.std.specs.Prelude.{◌≡◌, ℕ, ◌≤◌, List, length};
ghost use Rattle.std.specs.List.{AllByRecursion};
ghost use Rattle.ring_base.specs.Group.{Group};
ghost use Rattle.ring_log.specs.EpochHistories.{committed_of};
ghost use Rattle.ring_session.specs.Deduplicated.{deduplicated};
ghost use Rattle.ring_node_spec.specs.Nodes.{node_known_log, effects_at};
ghost use Rattle.ring_node_spec.specs.declared.event.Event.{Event};
ghost use Rattle.ring_node_spec.specs.Worlds.{world_opening, run, whole_epochs_in};
ghost use Rattle.ring_order_proof.specs.Counts.{CountsCommittedPlaces};
ghost use Rattle.ring_order_proof.specs.Linear.{IsEventCallWithinLimits};

use ring_object::Object;

/// States that a node has committed exactly the places that it has dropped and those that it keeps, at most 2^62 in
/// all.
///
/// This holds for every list of events. If each issued call is within the limits of a call, the number of effects that
/// the node's sessions count is exact: the calls that take effect at all its committed places, from the log's
/// beginning, whatever snapshot it restored.
///
/// Rules: The replicated log 1, 18 and 20; Sessions 6
pub fn committed_effects_law<O: Object>()
    ensures places { (group : Group) (events : List (Event O.Alloc)) (node : ℕ) → group.count ≤ 16 → 1 ≤ node → node ≤ group.count →
        let w = run O.sequential (world_opening group) events in
        CountsCommittedPlaces (w.nodes node) }
    ensures effects { (group : Group) (events : List (Event O.Alloc)) (node : ℕ) → group.count ≤ 16 → AllByRecursion IsEventCallWithinLimits events →
        1 ≤ node → node ≤ group.count →
        let w = run O.sequential (world_opening group) events in
        effects_at O.sequential (node_known_log (w.nodes node)) (node_known_log (w.nodes node)).committed
        ≡ length (deduplicated (committed_of group (whole_epochs_in w node))) }
{}
