//! The law of the longest of the nodes' committed logs, in every run of nodes.
//!
//! Rules: Sessions 10 and 11

ghost use Rattle.std.specs.Prelude.{◌≡◌, ℕ, ◌≤◌, ◌⊎◌, List, [], take};
ghost use Rattle.ring_base.specs.Group.{Group};
ghost use Rattle.ring_log.specs.EpochHistories.{committed_of};
ghost use Rattle.ring_session.specs.Deduplicated.{deduplicated};
ghost use Rattle.ring_node_spec.specs.Nodes.{node_known_log};
ghost use Rattle.ring_node_spec.specs.declared.event.Event.{Event};
ghost use Rattle.ring_node_spec.specs.Worlds.{world_opening, run, whole_epochs_in, order};

use ring_object::Object;

/// States that the calls newly committed by steps, with each place taken once, are the longest of the nodes' committed
/// logs.
///
/// This holds for every list of events. Each node's committed places, from the log's beginning, are a prefix of that
/// list, as long as the node's committed length. The list is some node's committed log, or empty. Its calls that take
/// effect are the order.
///
/// Rules: Sessions 10 and 11; The replicated log 12
pub fn longest_committed_log_law<O: Object>()
    ensures takes { (group : Group) (events : List (Event O.Alloc)) (node : ℕ) → group.count ≤ 16 → 1 ≤ node → node ≤ group.count →
        let w = run O.sequential (world_opening group) events in
        committed_of group (whole_epochs_in w node) ≡ take (node_known_log (w.nodes node)).committed w.longest }
    ensures some { (group : Group) (events : List (Event O.Alloc)) → group.count ≤ 16 →
        let w = run O.sequential (world_opening group) events in
        (w.longest ≡ []) ⊎ ((node : ℕ) × (1 ≤ node) × (node ≤ group.count) × (w.longest ≡ committed_of group (whole_epochs_in w node))) }
    ensures order { (group : Group) (events : List (Event O.Alloc)) → group.count ≤ 16 →
        let w = run O.sequential (world_opening group) events in
        order w ≡ deduplicated w.longest }
{}
