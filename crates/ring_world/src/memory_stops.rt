//! Which node an event stopped because an allocation failed in its step.
//!
//! Rules: The book and the threads 7; Refusals 6

ghost use Rattle.std.specs.Prelude.{◌≡◌, ◌↔◌, ℕ, Some, [], ◌∷◌};
ghost use Rattle.ring_node_spec.specs.declared.event.Event.{Event as OneEvent};
ghost use Rattle.ring_world.specs.WorldView.{WorldView, IsRunOfEvents};
ghost use Rattle.ring_world.specs.Refusals.{last_stop, stopped_for_memory, IsStoppedAt};

use crate::world::World;
use ring_base::Proc;
use ring_node_spec::Event;
use ring_object::Object;
use std::alloc::Allocator;

impl<O: Object> World<O> {
    /// Returns the node that the event stopped because an allocation failed in its step, or `None` if there is none.
    ///
    /// `event` must be the one that `run_one`, or `run` of only this event, has just run with Ok. Only a delivery and a
    /// timeout can stop a node in this way: a `Stop` event stops its node on request. `stopped_for_memory_law` states
    /// that the result is exact. Does not allocate.
    ///
    /// Rules: The book and the threads 7; Refusals 6
    pub fn stopped_for_memory(&self, event: &Event<O::Alloc>) -> Option<Proc>
        ensures { result ≡ stopped_for_memory event.now self.now.events }
    {
        match event {
            Event::Deliver(_, _) | Event::Timeout(_, _) => last_stop(self.events()),
            Event::Issue(_, _) | Event::Noise(_, _) | Event::Stop(_) => None,
        }
    }
}

/// Returns the node that the last event stops, if that event is a stop.
fn last_stop<A: Allocator + Copy>(events: &[Event<A>]) -> Option<Proc>
    ensures { result ≡ last_stop events.now }
{
    match events.last() {
        Some(Event::Stop(node)) => Some(*node),
        _ => None,
    }
}

/// States when `World::stopped_for_memory` returns a node: exactly if an allocation failed in the step that the event
/// requires.
///
/// This holds for every object, every event, every node and every two worlds, the second of which is the first after a
/// run of only this event.
///
/// Rules: The book and the threads 7; Refusals 6
pub fn stopped_for_memory_law<O: Object>()
    ensures { (e : OneEvent O.Alloc) (p q : WorldView O.Alloc) (node : ℕ) → IsRunOfEvents O.sequential (e ∷ []) p q
        → (stopped_for_memory e q.events ≡ Some node) ↔ IsStoppedAt O.sequential e node p q }
{}
