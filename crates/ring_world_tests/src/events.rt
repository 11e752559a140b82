//! The actions of a test on a world, and the events of these actions.

ghost use Rattle.std.specs.Prelude.{IfOk};
ghost use Rattle.std.specs.List.{AllByRecursion};
ghost use Rattle.ring_node_spec.specs.WorldLimits.{EventFits};
ghost use Rattle.ring_payload.specs.Calls.{CallFits};

use crate::knowing::run;
use ring_base::{Fault, Fixed, Kind, MAX_PROCESSORS, Proc};
use ring_object::Object;
use ring_payload::Call;
use ring_things::Counters;
use ring_world::{Event, World};
use std::alloc::Allocator;

/// An action on a world. The first number names a processor.
#[derive(Clone, Copy)]
pub enum Line {
    /// Submits client 7's call of this number, `add 0 5` on an object of counters.
    Issue(u8, u16),
    /// Delivers the frame of this number.
    Hand(u8, u64),
    /// Gives a join timeout.
    Join(u8),
}

/// Returns the processor of this number.
fn processor(number: u8) -> Result<Proc, Fault> {
    let any = Fixed::new(MAX_PROCESSORS)?;
    any.proc(number)
}

/// Returns client 7's call of this number, `add 0 5`.
fn call_of<A: Allocator + Copy>(alloc: A, number: u16) -> Result<Call<A>, Fault>
    ensures { IfOk result (λ call. CallFits call) }
{
    let add = Counters::add(0, 5);
    Call::new(alloc, 7, u64::from(number), add.as_slice())
}

/// Returns the event that this call is submitted at the node.
fn issue<A: Allocator + Copy>(alloc: A, node: Proc, number: u16) -> Result<Event<A>, Fault>
    ensures { IfOk result (λ event. EventFits event) }
{
    let call = call_of(alloc, number)?;
    Ok(Event::Issue(node, call))
}

/// Returns the event of a line.
fn event_of<A: Allocator + Copy>(alloc: A, line: Line) -> Result<Event<A>, Fault>
    ensures { IfOk result (λ event. EventFits event) }
{
    match line {
        Line::Issue(node, number) => issue(alloc, processor(node)?, number),
        Line::Hand(node, frame) => Ok(Event::Deliver(processor(node)?, frame)),
        Line::Join(node) => Ok(Event::Timeout(processor(node)?, Kind::Join)),
    }
}

/// Returns the events of these lines.
/// Errors: `NotMember` for a processor that isn't 1 to 16, those of `Call::new`, `Memory`.
fn events_of<A: Allocator + Copy>(alloc: A, lines: &[Line]) -> Result<Vec<Event<A>, A>, Fault>
    ensures { IfOk result (λ events. AllByRecursion EventFits events.items) }
{
    let mut events = Vec::new(alloc);
    for line in lines {
        let event = event_of(alloc, *line)?;
        events.push(event)?;
    }
    Ok(events)
}

/// Runs the events of the lines in the world.
/// Errors: those of `events_of`, and `Memory` of the world.
pub fn run_lines<O: Object>(
    world: &mut World<O>,
    alloc: O::Alloc,
    lines: &[Line],
) -> Result<(), Fault> {
    let events = events_of(alloc, lines)?;
    run(world, &events)
}
