//! The one order of every run of nodes.
//!
//! It exists whatever events happen: any calls may be issued; frames may be delivered, lost, repeated, reordered and
//! delayed; nodes may time out and stop.
//!
//! Rules: Sessions 10 and 11; The replicated log 8, 16 and 17

ghost use Rattle.std.specs.Prelude.{◌≡◌, ℕ, ◌≤◌, List, true};
ghost use Rattle.std.specs.List.{AllByRecursion};
ghost use Rattle.ring_base.specs.Prefixes.{IsListPrefix};
ghost use Rattle.ring_base.specs.Group.{Group};
ghost use Rattle.ring_core_spec.specs.declared.input.Input.{Input};
ghost use Rattle.ring_log.specs.KnownLog.{known_log_of};
ghost use Rattle.ring_log.specs.EpochHistories.{committed_of};
ghost use Rattle.ring_order_proof.specs.RunEpochs.{whole_epochs_in};
ghost use Rattle.ring_order_proof.specs.MidStep.{MayCome, stepped_node, world_after_core_step};
ghost use Rattle.ring_order_proof.specs.RunFacts.{HasFacts};
ghost use Rattle.ring_node_spec.specs.Nodes.{is_restored};
ghost use Rattle.ring_session.specs.Deduplicated.{deduplicated};
ghost use Rattle.ring_node_spec.specs.declared.event.Event.{Event};
ghost use Rattle.ring_node_spec.specs.Histories.{IsLinearization};
ghost use Rattle.ring_node_spec.specs.Worlds.{world_opening, run, order};
ghost use Rattle.ring_order_proof.specs.Linear.{IsEventCallWithinLimits, SafeLogPersists, ReachedLogPersists, BasesKeepCommitted, KeepsCommittedPlaces, AreOnlyIssuedCalls, HasCommittedPlaces, FollowsOrder};

use ring_object::Object;

/// States that every run of nodes has one order of the calls that take effect, and what this order guarantees.
///
/// This holds for every object, every group of at most 16 processors and every list of events:
/// - The order only grows. Each node's committed calls, from the log's beginning and with repeats removed, are a prefix
///   of it.
/// - If each issued call is within the limits of a call, the order is a linearization of the history. The calls at the
///   places that a node dropped, with repeats removed, are then a prefix of the order. The node's snapshot is the
///   object's state after it, and its committed log, with repeats removed, comes next in the order.
/// - A primary ring's log, up to a message that every member received or that every member's front has reached, is a
///   prefix of the base of every later primary ring.
/// - Whatever input a node gets next, each base that it adopts begins with its committed places, in the whole log and
///   in its known log. If issued calls are within their limits, the bytes that it restores are a snapshot. So neither
///   test ever stops a node.
/// - Each ticket's call was issued, and so was each call that a node hands over.
///
/// Rules: Sessions 10 and 11; The replicated log 8, 16 and 17
pub fn linear_law<O: Object>()
    ensures explains { (group : Group) (events : List (Event O.Alloc)) → group.count ≤ 16 → AllByRecursion IsEventCallWithinLimits events →
        let w = run O.sequential (world_opening group) events in
        IsLinearization O.sequential (order w) w.history }
    ensures grows { (group : Group) (events later : List (Event O.Alloc)) → group.count ≤ 16 →
        let w = run O.sequential (world_opening group) events in
        IsListPrefix (order w) (order (run O.sequential w later)) }
    ensures fronts { (group : Group) (events : List (Event O.Alloc)) (node : ℕ) → group.count ≤ 16 → 1 ≤ node → node ≤ group.count →
        let w = run O.sequential (world_opening group) events in
        IsListPrefix (deduplicated (committed_of group (whole_epochs_in w node))) (order w) }
    ensures follows { (group : Group) (events : List (Event O.Alloc)) (node : ℕ) → group.count ≤ 16 → AllByRecursion IsEventCallWithinLimits events →
        1 ≤ node → node ≤ group.count →
        let w = run O.sequential (world_opening group) events in
        let committed = committed_of group (whole_epochs_in w node) in
        HasCommittedPlaces O.sequential (w.nodes node) committed × FollowsOrder O.sequential (w.nodes node) committed (order w) }
    ensures stays { (group : Group) (events : List (Event O.Alloc)) → group.count ≤ 16 →
        let w = run O.sequential (world_opening group) events in
        (facts : HasFacts w) × SafeLogPersists group (whole_epochs_in w) facts.members facts.text × ReachedLogPersists group w facts.members facts.text }
    ensures never { (group : Group) (events : List (Event O.Alloc)) (node : ℕ) (input : Input O.Alloc) → group.count ≤ 16 → 1 ≤ node → node ≤ group.count →
        let w = run O.sequential (world_opening group) events in
        MayCome w node input →
        BasesKeepCommitted group (whole_epochs_in (world_after_core_step w node input) node) × KeepsCommittedPlaces group (stepped_node (w.nodes node) input).epochs }
    ensures restores { (group : Group) (events : List (Event O.Alloc)) (node : ℕ) (input : Input O.Alloc) → group.count ≤ 16 →
        AllByRecursion IsEventCallWithinLimits events → 1 ≤ node → node ≤ group.count →
        let w = run O.sequential (world_opening group) events in
        MayCome w node input → is_restored O.sequential (known_log_of group (stepped_node (w.nodes node) input).epochs) ≡ true }
    ensures issued { (group : Group) (events : List (Event O.Alloc)) → group.count ≤ 16 →
        let w = run O.sequential (world_opening group) events in
        AreOnlyIssuedCalls w }
{}
