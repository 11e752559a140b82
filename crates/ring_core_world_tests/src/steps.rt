//! Events of ring cores, one line for each.

ghost use Rattle.std.specs.Prelude.{IfOk};
ghost use Rattle.std.specs.List.{AllByRecursion};
ghost use Rattle.ring_core_proof.specs.Limits.{EventFits};
ghost use Rattle.ring_payload.specs.Payloads.{PayloadFits};

use ring_base::{Fault, Fixed, Kind, Proc, pair_result};
use ring_core_spec::Out;
use ring_core_world::{CoreWorld, FixedRing, RingEvent, Rings};
use ring_payload::Payload;
use ring_wire::Wire;
use std::alloc::Allocator;

/// Call 7.1 `add 0 5`.
const CALL: &[u8] = b"\x01\0\0\0\x07\0\0\0\0\0\0\0\x01\0\x0b\x01\x01\0\0\0\0\0\0\0\0\x05";

/// Decodes that call.
fn call_payload<A: Allocator + Copy>(alloc: A) -> Result<Payload<A>, Fault>
    ensures { IfOk result (λ payload. PayloadFits payload) }
{
    let (payload, _) = Payload::<A>::get(alloc, CALL)?;
    Ok(payload)
}

/// Parses a word as a number.
fn number_of(word: Option<&str>) -> Result<u64, Fault> {
    match word.unwrap_or("").parse() {
        Ok(number) => Ok(number),
        Err(_) => Err(Fault::BadScript),
    }
}

/// Returns the event of a line.
/// `call 1` is a send of processor 1; `join 1` is its timeout; `hand 1 2` delivers frame 2 to it.
pub(crate) fn event_of<A: Allocator + Copy>(
    alloc: A,
    fixed: Fixed,
    line: &str,
) -> Result<RingEvent<A>, Fault>
    ensures { IfOk result EventFits }
{
    let mut words = line.split(' ');
    let word = words.next().unwrap_or("");
    let number = number_of(words.next())?;
    let node = fixed.proc(number.min(17) as u8)?;
    match word {
        "call" => Ok(RingEvent::Send(node, call_payload(alloc)?)),
        "hand" => Ok(RingEvent::Deliver(node, number_of(words.next())?)),
        "join" => Ok(RingEvent::Timeout(node, Kind::Join)),
        _ => Err(Fault::BadScript),
    }
}

pub(crate) fn happens<A: Allocator + Copy>(
    cores: CoreWorld<A>,
    event: &RingEvent<A>,
) -> Result<CoreWorld<A>, Fault>
    requires { EventFits event.now }
{
    cores.apply_event(event)
}

/// Applies the event of a line.
pub(crate) fn happened<A: Allocator + Copy>(
    alloc: A,
    fixed: Fixed,
    cores: CoreWorld<A>,
    line: &str,
) -> Result<CoreWorld<A>, Fault> {
    let event = event_of(alloc, fixed, line);
    let (cores, event) = pair_result(cores, event)?;
    let happened = happens(cores, &event);
    drop(event);
    happened
}

/// Returns the events of the first `count` lines.
fn events_of<A: Allocator + Copy>(
    alloc: A,
    fixed: Fixed,
    script: &str,
    count: u64,
) -> Result<Vec<RingEvent<A>, A>, Fault>
    ensures { IfOk result (λ events. AllByRecursion EventFits events.items) }
{
    let mut events = Vec::new(alloc);
    for line in script.lines().take(count as usize) {
        let event = event_of(alloc, fixed, line)?;
        events.push(event)?;
    }
    Ok(events)
}

/// The opening of a run: in Gather, or in a formed ring.
#[derive(Clone, Copy)]
pub(crate) enum Opening {
    Gather,
    FormedRing,
}

/// The result of a run: the number of events done, and the outputs, unless memory was refused.
pub(crate) type WorldRun<A> = (u64, Option<Vec<(Proc, Out<A>), A>>);

/// Runs events from Gather, with the memory of the cores in `heap`.
fn ran_from_gather<A: Allocator + Copy>(
    heap: A,
    fixed: Fixed,
    events: &[RingEvent<A>],
) -> Result<WorldRun<A>, Fault>
    requires { AllByRecursion EventFits events.now }
{
    let mut rings = Rings::new(heap, fixed)?;
    let outs = rings.run(events).ok();
    Ok((rings.done(), outs))
}

/// Runs events from a formed ring, with the memory of the cores in `heap`.
fn ran_on_formed_ring<A: Allocator + Copy>(
    heap: A,
    fixed: Fixed,
    events: &[RingEvent<A>],
) -> Result<WorldRun<A>, Fault>
    requires { AllByRecursion EventFits events.now }
{
    let mut ring = FixedRing::new(heap, fixed)?;
    let outs = ring.run(events).ok();
    Ok((ring.done(), outs))
}

/// Runs the events of the first `count` lines.
/// The memory of the payloads is in `ample`, that of the cores in `heap`.
/// Errors: `Memory` where the opening is refused memory.
pub(crate) fn ran<A: Allocator + Copy>(
    heap: A,
    ample: A,
    (opening, processors): (Opening, u8),
    script: &str,
    count: u64,
) -> Result<WorldRun<A>, Fault> {
    let fixed = Fixed::new(processors)?;
    let events = events_of(ample, fixed, script, count)?;
    match opening {
        Opening::Gather => ran_from_gather(heap, fixed, &events),
        Opening::FormedRing => ran_on_formed_ring(heap, fixed, &events),
    }
}
