//! The law that a node's log is determined by the texts of rings.
//!
//! Rules: The replicated log 16

ghost use Rattle.std.specs.Prelude.{ℕ, ◌≤◌, List};
ghost use Rattle.ring_base.specs.Group.{Group};
ghost use Rattle.ring_order_proof.specs.LogTexts.{IsLogText, AreCommittedTexts};
ghost use Rattle.ring_log.specs.EpochHistories.{log_of, committed_of};
ghost use Rattle.ring_node_spec.specs.declared.event.Event.{Event};
ghost use Rattle.ring_node_spec.specs.Worlds.{world_opening, run, whole_epochs_in};

use ring_object::Object;

/// States that a node's log and its committed places are determined by the texts of rings, for every list of events.
///
/// A ring's text is its user messages, in the order of their numbers.
///
/// - The log, from its beginning, is the base of its last primary, then the calls of that ring's text up to the node's
///   front there. It is empty if the node adopted no ring.
/// - The committed places are the longest of these candidates: for each ring that the node adopted, such a log up to
///   its safe mark there, and the places of the snapshot sent there. They are empty if there is none.
///
/// Rules: The replicated log 16
pub fn log_text_law<O: Object>()
    ensures log { (group : Group) (events : List (Event O.Alloc)) (node : ℕ) → group.count ≤ 16 → 1 ≤ node → node ≤ group.count →
        let w = run O.sequential (world_opening group) events in
        IsLogText group w node (log_of group (whole_epochs_in w node)) }
    ensures committed { (group : Group) (events : List (Event O.Alloc)) (node : ℕ) → group.count ≤ 16 → 1 ≤ node → node ≤ group.count →
        let w = run O.sequential (world_opening group) events in
        AreCommittedTexts group w node (committed_of group (whole_epochs_in w node)) }
{}
