//! Laws of every run of nodes about what nodes hand to their cores, how their epochs are extended, and when they drop
//! places.
//!
//! They hold for the epochs as nodes know them, and for the epochs filled with the places that snapshots replace. A
//! snapshot replaces the first places of its sender's log. Which places these are is settled once the exchange is
//! complete.
//!
//! Rules: The replicated log 2, 10 and 20

ghost use Rattle.std.specs.Prelude.{◌≡◌, ℕ, ◌≤◌, List, true, false};
ghost use Rattle.std.specs.List.{AllByRecursion};
ghost use Rattle.ring_base.specs.Group.{Group};
ghost use Rattle.ring_core_spec.specs.declared.input.Input.{Input};
ghost use Rattle.ring_node_spec.specs.declared.event.Event.{Event};
ghost use Rattle.ring_node_spec.specs.Nodes.{is_closed, node_known_log};
ghost use Rattle.ring_node_spec.specs.Stepping.{drops};
ghost use Rattle.ring_node_spec.specs.Worlds.{world_opening, run};
ghost use Rattle.ring_log.specs.KnownLog.{known_log_of};
ghost use Rattle.ring_log_proof.specs.Discipline.{KeepsDiscipline, DropsCommitted, KeepsRules};
ghost use Rattle.ring_log_proof.specs.EpochEvents.{IsEpochsExtended};
ghost use Rattle.ring_order_proof.specs.MidStep.{MayCome, stepped_node, world_after_core_step};
ghost use Rattle.ring_order_proof.specs.Linear.{IsEventCallWithinLimits};
ghost use Rattle.ring_order_proof.specs.RunEpochs.{epochs_in, whole_epochs_in};

use ring_object::Object;

/// States what nodes hand to their cores in a ring, and that events only extend epochs, for every list of events.
///
/// - A node that hands over anything in a ring first hands over the Head of its log from before that ring, and then
///   only Snaps, Parts of its log and calls. The ring is then primary.
/// - A node has dropped only committed places.
/// - What belongs to rings that a node has left never changes. The messages, safe mark, payloads and trimmed length of
///   its newest ring only grow.
///
/// This also holds when a core has run its step and nothing has been handed over yet.
///
/// Rules: The replicated log 2, 10 and 20
pub fn hand_over_law<O: Object>()
    ensures discipline { (group : Group) (events : List (Event O.Alloc)) → KeepsDiscipline group (epochs_in (run O.sequential (world_opening group) events)) }
    ensures drops { (group : Group) (events : List (Event O.Alloc)) → DropsCommitted group (epochs_in (run O.sequential (world_opening group) events)) }
    ensures goes_on { (group : Group) (before later : List (Event O.Alloc)) (i : ℕ) →
        IsEpochsExtended (epochs_in (run O.sequential (world_opening group) before) i)
        (epochs_in (run O.sequential (run O.sequential (world_opening group) before) later) i) }
    ensures rules { (group : Group) (events : List (Event O.Alloc)) → KeepsRules group (whole_epochs_in (run O.sequential (world_opening group) events)) }
    ensures whole_goes_on { (group : Group) (before later : List (Event O.Alloc)) (i : ℕ) → group.count ≤ 16 →
        IsEpochsExtended (whole_epochs_in (run O.sequential (world_opening group) before) i)
        (whole_epochs_in (run O.sequential (run O.sequential (world_opening group) before) later) i) }
    ensures steps { (group : Group) (events : List (Event O.Alloc)) (node : ℕ) (input : Input O.Alloc) → group.count ≤ 16 → 1 ≤ node → node ≤ group.count →
        let w = run O.sequential (world_opening group) events in
        MayCome w node input → KeepsRules group (whole_epochs_in (world_after_core_step w node input)) × ((i : ℕ) → IsEpochsExtended (whole_epochs_in w i) (whole_epochs_in (world_after_core_step w node input) i)) }
{}

/// States that nodes drop their committed places as soon as these are due, in every run with issued calls of valid
/// sizes.
///
/// Places are due if enough of them are kept and their snapshot isn't too long. After each event no node has any that
/// are due, even if an exchange is open. So a step that changes nothing has nothing to drop. Nor is anything due if a
/// step ends with an exchange open, so the test for an open exchange never decides.
///
/// Rules: The replicated log 20
pub fn prompt_trim_law<O: Object>()
    ensures after { (group : Group) (events : List (Event O.Alloc)) (node : ℕ) → group.count ≤ 16 →
        AllByRecursion IsEventCallWithinLimits events → 1 ≤ node → node ≤ group.count →
        let w = run O.sequential (world_opening group) events in
        drops O.sequential true (node_known_log (w.nodes node)) ≡ false }
    ensures in_steps { (group : Group) (events : List (Event O.Alloc)) (node : ℕ) (input : Input O.Alloc) → group.count ≤ 16 →
        AllByRecursion IsEventCallWithinLimits events → 1 ≤ node → node ≤ group.count →
        let w = run O.sequential (world_opening group) events in
        MayCome w node input →
        let epochs = (stepped_node (w.nodes node) input).epochs in
        let known = known_log_of group epochs in
        drops O.sequential (is_closed group epochs) known ≡ drops O.sequential true known }
{}
