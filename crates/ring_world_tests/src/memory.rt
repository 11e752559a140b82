//! Refuses each request for memory of a short run in turn.
//! Rules: The book and the threads 7; Refusals 3 and 6

use crate::events::{Line, run_lines};
use refusing_alloc::{RefusingHeap, refuse_in_turn};
use ring_base::{Fault, Fixed};
use ring_object::Object;
use ring_things::Counters;
use ring_world::{Event, Told, World};
use std::alloc::{AllocError, Allocator};

/// One node forms its ring, takes a call meanwhile and another in the ring, and answers both.
const SHORT_RUN: [Line; 9] = [
    Line::Join(1),
    Line::Hand(1, 1),
    Line::Issue(1, 1),
    Line::Hand(1, 2),
    Line::Hand(1, 3),
    Line::Hand(1, 4),
    Line::Issue(1, 2),
    Line::Hand(1, 5),
    Line::Hand(1, 6),
];

/// Runs the short run from this index on.
fn run_from<O: Object>(world: &mut World<O>, ample: O::Alloc, place: usize) -> Result<(), Fault> {
    run_lines(world, ample, SHORT_RUN.get(place..).unwrap_or(&[]))
}

/// Does the whole short run, and returns how often the world itself was refused memory. After a refusal it continues
/// behind the events that `done` counts.
fn refused_runs<O: Object>(world: &mut World<O>, ample: O::Alloc) -> Result<u64, Fault> {
    match run_from(world, ample, 0) {
        Ok(()) => Ok(0),
        Err(Fault::Memory) => {
            let done = world.done() as usize;
            run_from(world, ample, done)?;
            Ok(1)
        }
        Err(fault) => Err(fault),
    }
}

/// Returns the number of stops, which replace the steps that were refused memory.
fn stops<A: Allocator + Copy>(events: &[Event<A>]) -> u64 {
    let mut stops = 0u64;
    for event in events {
        if let Event::Stop(_) = event {
            stops = stops.saturating_add(1);
        }
    }
    stops
}

/// Returns the number of answered calls, and the number of submits that were refused memory.
fn answers_and_refusals<A: Allocator + Copy>(told: &[Told<A>]) -> (u64, u64) {
    let (mut answers, mut refusals) = (0u64, 0u64);
    for one in told {
        match one {
            Told::Answer(_, _, _) => answers = answers.saturating_add(1),
            Told::Refused(_, _, reason) => {
                let is_memory_refusal = *reason == Fault::Memory.number();
                refusals = refusals.saturating_add(u64::from(is_memory_refusal));
            }
        }
    }
    (answers, refusals)
}

/// Returns how often steps and submits of the short run were refused memory. Where no step was refused, each call is
/// answered or its submit was refused; otherwise the result is `Conflict`.
fn refused_events<O: Object>(world: &World<O>) -> Result<u64, Fault> {
    let stops = stops(world.events());
    let (answers, refusals) = answers_and_refusals(world.told());
    if stops == 1 || answers.saturating_add(refusals) == 2 {
        Ok(stops.saturating_add(refusals))
    } else {
        Err(Fault::Conflict)
    }
}

/// A call of a world that takes memory: its copy, its order, or the committed places of its node.
#[derive(Clone, Copy)]
enum CallKind {
    Copy,
    Order,
    Committed,
}

/// Makes this call.
fn ask<O: Object>(world: &World<O>, question: CallKind) -> Result<(), Fault> {
    match question {
        CallKind::Copy => drop(world.copy()?),
        CallKind::Order => drop(world.order()?),
        CallKind::Committed => drop(world.committed(world.fixed().proc(1)?)?),
    }
    Ok(())
}

/// Makes this call, again after a refusal, and returns how often memory was refused.
fn refused_answers<O: Object>(world: &World<O>, question: CallKind) -> Result<u64, Fault> {
    match ask(world, question) {
        Ok(()) => Ok(0),
        Err(Fault::Memory) => {
            ask(world, question)?;
            Ok(1)
        }
        Err(fault) => Err(fault),
    }
}

/// Runs the short run in the world, and then asks for its copy, its order and a committed log. Returns how often memory
/// was refused, in addition to `before`.
fn refused_then<O: Object>(
    world: &mut World<O>,
    ample: O::Alloc,
    before: u64,
) -> Result<u64, Fault> {
    let runs = refused_runs(world, ample)?;
    let events = refused_events(world)?;
    let copies = refused_answers(world, CallKind::Copy)?;
    let orders = refused_answers(world, CallKind::Order)?;
    let committed = refused_answers(world, CallKind::Committed)?;
    let done = before.saturating_add(runs).saturating_add(events);
    let answered = copies.saturating_add(orders).saturating_add(committed);
    Ok(done.saturating_add(answered))
}

/// Makes a world, again after a refusal, and does this with it.
fn refusals<O: Object>(heap: O::Alloc, ample: O::Alloc) -> Result<u64, Fault> {
    let fixed = Fixed::new(1)?;
    let (made, before) = match World::<O>::new(heap, fixed) {
        Err(Fault::Memory) => (World::<O>::new(heap, fixed), 1),
        made => (made, 0),
    };
    let mut world = made?;
    let refused = refused_then(&mut world, ample, before);
    drop(world);
    refused
}

/// Adapts the result to `refuse_in_turn`: the run is right where it counts one refusal if a request was refused, else
/// none.
fn told(heap: &RefusingHeap, refusals: Result<u64, Fault>) -> Result<(), AllocError> {
    heap.expected_result(refusals == Ok(u64::from(heap.has_refused())))
}

#[test]
fn each_request_is_refused_in_turn(rt: HostRuntime) {
    let ample = RefusingHeap::new(rt.alloc(), u64::MAX);
    let requests = refuse_in_turn(
        rt.alloc(),
        &|heap: &RefusingHeap| told(heap, refusals::<Counters<&RefusingHeap>>(heap, &ample)),
    );
    assert!(rt; requests > Some(30));
}
