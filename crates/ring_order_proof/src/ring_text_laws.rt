//! Laws of the texts of rings, in every run of ring cores from the opening, and in every run of nodes.
//!
//! Rules: Outputs 8; Token and window 9

ghost use Rattle.std.specs.Prelude.{ℕ, List};
ghost use Rattle.std.specs.declared.alloc.Global.{Global as Heap};
ghost use Rattle.ring_base.specs.Group.{Group};
ghost use Rattle.ring_node_spec.specs.declared.event.Event.{Event};
ghost use Rattle.ring_node_spec.specs.Worlds.{world_opening, run as run_nodes};
ghost use Rattle.ring_core_proof.specs.declared.event.RingEvent.{RingEvent};
ghost use Rattle.ring_core_proof.specs.Worlds.{run, unformed};
ghost use Rattle.ring_order_proof.specs.SendOrder.{SendsInOrder};
ghost use Rattle.ring_order_proof.specs.Texts.{HasTexts};

use ring_object::Object;
use std::alloc::{Allocator, Global};

/// States that each ring has one text in every run of ring cores: its user messages, in the order of their numbers.
///
/// A sender numbers its messages when the ring's token visits it. The messages that a processor received of the ring,
/// up to its front, are a prefix of the text. The payloads that a processor sent there, with the calls of Packs one by
/// one, are those of its own visits, in the same order.
///
/// Rules: Outputs 8; Token and window 9
pub fn ring_texts_law<A: Allocator + Copy>()
    ensures { (n : ℕ) (events : List (RingEvent A)) → HasTexts (run (unformed n) events) }
{}

/// States that a node's core sends payloads in the order in which the node hands them over, in every run of nodes.
///
/// The payloads that the core sent in a ring, with the calls of Packs one by one, are a prefix of those handed to it
/// there. If the node had no epoch in the ring, its core sent nothing there.
///
/// Rules: Token and window 9; The replicated log 1
pub fn send_order_law<O: Object>()
    ensures { (group : Group) (events : List (Event O.Alloc)) (i : ℕ) → SendsInOrder ((run_nodes O.sequential (world_opening group) events).nodes i) }
{}

/// States `ring_texts_law` for the global allocator.
///
/// Nothing calls this function. It shows that an allocator meets the bounds for which the law is proved.
///
/// Rules: Outputs 8
pub fn ring_texts_law_for_global()
    ensures { (n : ℕ) (events : List (RingEvent Heap)) → HasTexts (run (unformed n) events) }
{
    ring_texts_law::<Global>();
}
