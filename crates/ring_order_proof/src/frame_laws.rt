//! Laws of a node's step, and of every run of nodes: how many outputs a step has, and that frames are within their
//! limits.
//!
//! Rules: Limits 1; The replicated log 13 to 15

ghost use Rattle.std.specs.Prelude.{◌≡◌, ℕ, ◌+◌, ◌≤◌, List, Some, filter_map, length};
ghost use Rattle.std.specs.List.{AllByRecursion};
ghost use Rattle.ring_base.specs.Group.{Group};
ghost use Rattle.ring_payload.specs.Calls.{CallFits};
ghost use Rattle.ring_payload.specs.Payloads.{PayloadFits};
ghost use Rattle.ring_wire.specs.Frames.{FrameFits, encoding_of};
ghost use Rattle.ring_wire.specs.declared.frame.Frame.{Frame};
ghost use Rattle.ring_core_spec.specs.declared.input.Input.{Input};
ghost use Rattle.ring_core_spec.specs.State.{Core, OutgoingFrame, Transmission, frame_at};
ghost use Rattle.ring_core_spec.specs.Stepping.{ring_step};
ghost use Rattle.ring_log.specs.EpochHistories.{committed_of};
ghost use Rattle.ring_log.specs.Epochs.{Epoch};
ghost use Rattle.ring_log_proof.specs.RingFacts.{HasEpoch};
ghost use Rattle.ring_core_proof.specs.Limits.{InputFits, OutFits, CoreFits};
ghost use Rattle.ring_node_spec.specs.declared.input.Input.{Input as NodeInput};
ghost use Rattle.ring_node_spec.specs.NodeLimits.{InputFits as NodeInputFits};
ghost use Rattle.ring_node_spec.specs.Nodes.{Node, node_known_log, node_pending};
ghost use Rattle.ring_node_spec.specs.Stepping.{node_step, send_of};
ghost use Rattle.ring_node_spec.specs.declared.event.Event.{Event};
ghost use Rattle.ring_node_spec.specs.WorldLimits.{EventFits};
ghost use Rattle.ring_node_spec.specs.Worlds.{world_opening, world_after_event, run, whole_epochs_in};
ghost use Rattle.ring_order_proof.specs.Done.{HasDone};
ghost use Rattle.ring_order_proof.specs.Linear.{IsEventCallWithinLimits};

use ring_object::Object;

/// States that one step sends at most 64 frames and gives at most as many answers as there are unanswered tickets.
///
/// This holds for every core and every node in any state. The bound on frames requires that the input is within the
/// limits of its format.
///
/// Rules: Limits 1; The replicated log 14
pub fn step_counts_law<O: Object>()
    ensures frames { (c : Core O.Alloc) (input : Input O.Alloc) → InputFits input → length (filter_map send_of (ring_step c input).outs) ≤ 64 }
    ensures sends { (n : Node O.Alloc) (input : NodeInput O.Alloc) → NodeInputFits input → length (node_step O.sequential n input).sends ≤ 64 }
    ensures answers { (n : Node O.Alloc) (input : NodeInput O.Alloc) → length (node_step O.sequential n input).answers ≤ length (node_pending n) }
{}

/// States that a node of a run has at most 64 unanswered tickets, so that no step gives more than 64 answers.
///
/// Rules: The replicated log 13 and 14
pub fn pending_tickets_law<O: Object>()
    ensures pending { (group : Group) (events : List (Event O.Alloc)) (node : ℕ) →
        let w = run O.sequential (world_opening group) events in
        length (node_pending (w.nodes node)) ≤ 64 }
    ensures answers { (group : Group) (events : List (Event O.Alloc)) (node : ℕ) (input : NodeInput O.Alloc) →
        let w = run O.sequential (world_opening group) events in
        length (node_step O.sequential (w.nodes node) input).answers ≤ 64 }
{}

/// States that a node has done exactly the calls that it has committed, except those that restored snapshots replace.
///
/// The node's tickets count the calls done. Each answer that it ever gave is that of the session table after all places
/// before the call's in the log, including restored ones. This holds for every run whose issued calls are within the
/// limits of a call.
///
/// Rules: The replicated log 14; Sessions 8
pub fn done_calls_law<O: Object>()
    ensures { (group : Group) (events : List (Event O.Alloc)) (node : ℕ) → group.count ≤ 16 → AllByRecursion IsEventCallWithinLimits events → 1 ≤ node →
        node ≤ group.count →
        let w = run O.sequential (world_opening group) events in
        HasDone O.sequential (w.nodes node) (committed_of group (whole_epochs_in w node)) }
{}

/// States that each frame ever sent, and each node's core, is within the limits of frames.
///
/// This holds for every run of at most 16 nodes whose issued calls are within the limits of a call, whatever is
/// delivered, lost, repeated, reordered or delayed, and whatever times out or stops. Within the limits are also:
/// - the outputs of the next step of a node and of its core,
/// - each payload that a node ever handed to its core: its Heads, the pieces of its snapshots, its Parts and its calls,
/// - each call of its known log.
///
/// Rules: Limits 1
pub fn sent_frames_fit_law<O: Object>()
    ensures frames { (group : Group) (events : List (Event O.Alloc)) → group.count ≤ 16 → AllByRecursion EventFits events →
        let w = run O.sequential (world_opening group) events in
        AllByRecursion (λ (f : Transmission O.Alloc). FrameFits f.frame) w.frames }
    ensures numbered { (group : Group) (events : List (Event O.Alloc)) (number : ℕ) (f : Transmission O.Alloc) → group.count ≤ 16 →
        AllByRecursion EventFits events →
        let w = run O.sequential (world_opening group) events in
        frame_at w.frames number ≡ Some f → FrameFits f.frame }
    ensures cores { (group : Group) (events : List (Event O.Alloc)) (node : ℕ) → group.count ≤ 16 → AllByRecursion EventFits events →
        1 ≤ node → node ≤ group.count →
        let w = run O.sequential (world_opening group) events in
        CoreFits (w.nodes node).core }
    ensures outs { (group : Group) (events : List (Event O.Alloc)) (node : ℕ) (input : Input O.Alloc) → group.count ≤ 16 →
        AllByRecursion EventFits events → 1 ≤ node → node ≤ group.count → InputFits input →
        let w = run O.sequential (world_opening group) events in
        AllByRecursion OutFits (ring_step (w.nodes node).core input).outs }
    ensures steps { (group : Group) (events : List (Event O.Alloc)) (node : ℕ) (input : NodeInput O.Alloc) → group.count ≤ 16 →
        AllByRecursion EventFits events → 1 ≤ node → node ≤ group.count → NodeInputFits input →
        let w = run O.sequential (world_opening group) events in
        AllByRecursion (λ (s : OutgoingFrame O.Alloc). FrameFits s.frame) (node_step O.sequential (w.nodes node) input).sends }
    ensures handed { (group : Group) (events : List (Event O.Alloc)) (node : ℕ) (s : Epoch O.Alloc) (older : List (Epoch O.Alloc)) → group.count ≤ 16 →
        AllByRecursion EventFits events → 1 ≤ node → node ≤ group.count →
        let w = run O.sequential (world_opening group) events in
        HasEpoch (w.nodes node).epochs s older → AllByRecursion PayloadFits s.sent }
    ensures logs { (group : Group) (events : List (Event O.Alloc)) (node : ℕ) → group.count ≤ 16 → AllByRecursion EventFits events →
        1 ≤ node → node ≤ group.count →
        let w = run O.sequential (world_opening group) events in
        AllByRecursion CallFits (node_known_log (w.nodes node)).calls }
{}

/// States that an event adds at most 64 frames to a world, 64 items to its history, and 64 reports to clients.
///
/// This holds for every run of at most 16 nodes whose issued calls are within the limits of a call.
///
/// Rules: Limits 1; The replicated log 13 and 14
pub fn event_growth_law<O: Object>()
    ensures frames { (group : Group) (events : List (Event O.Alloc)) (e : Event O.Alloc) → group.count ≤ 16 → AllByRecursion EventFits events →
        let w = run O.sequential (world_opening group) events in
        length (world_after_event O.sequential w e).frames ≤ length w.frames + 64 }
    ensures history { (group : Group) (events : List (Event O.Alloc)) (e : Event O.Alloc) → group.count ≤ 16 → AllByRecursion EventFits events →
        let w = run O.sequential (world_opening group) events in
        length (world_after_event O.sequential w e).history ≤ length w.history + 64 }
    ensures told { (group : Group) (events : List (Event O.Alloc)) (e : Event O.Alloc) → group.count ≤ 16 → AllByRecursion EventFits events →
        let w = run O.sequential (world_opening group) events in
        length (world_after_event O.sequential w e).told ≤ length w.told + 64 }
{}

/// States that the encoding of a frame that is within its limits has at most 7,321 bytes.
///
/// Rules: Limits 1
/// Formats: Frames
pub fn frame_size_law<O: Object>()
    ensures { (f : Frame O.Alloc) → FrameFits f → length (encoding_of f) ≤ 7321 }
{}
