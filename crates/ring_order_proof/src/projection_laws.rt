//! The law that the ring part of every run of nodes is a run of ring cores.
//!
//! Rules: Rings and states 14; The replicated log 1

ghost use Rattle.std.specs.Prelude.{ℕ, List, ◌++◌};
ghost use Rattle.ring_base.specs.Prefixes.{IsListPrefix};
ghost use Rattle.ring_base.specs.Group.{Group};
ghost use Rattle.ring_node_spec.specs.declared.event.Event.{Event};
ghost use Rattle.ring_node_spec.specs.Worlds.{world_opening};
ghost use Rattle.ring_order_proof.specs.Projection.{IsProjected, core_events_of_run};

use ring_object::Object;

/// States that the nodes' cores and the frames sent are those of a run of ring cores from their opening.
///
/// This holds for every list of events. In the run of cores, handing a payload to a core is an event of its own. Each
/// node's epochs, without their payloads and trimmed lengths, consist of its core's outputs. If a node's log stops the
/// node, its core stops. The cores' events and outputs are determined by the nodes' events, one after another, so that
/// a longer run extends a shorter one.
///
/// Rules: Rings and states 14; The replicated log 1
pub fn projection_law<O: Object>()
    ensures ring { (group : Group) (events : List (Event O.Alloc)) → IsProjected O.sequential group events }
    ensures events_grow { (group : Group) (events more : List (Event O.Alloc)) →
        IsListPrefix (core_events_of_run O.sequential (world_opening group) events).events (core_events_of_run O.sequential (world_opening group) (events ++ more)).events }
    ensures outs_grow { (group : Group) (events more : List (Event O.Alloc)) →
        IsListPrefix (core_events_of_run O.sequential (world_opening group) events).outs (core_events_of_run O.sequential (world_opening group) (events ++ more)).outs }
{}
