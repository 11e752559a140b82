//! Runs a list of events, from either opening.
//!
//! Rules: Rings and states 14 and 15

ghost use Rattle.std.specs.Prelude.{◌≡◌, ◌<◌, [], ◌∷◌, length, filter, IfOk, IfErr, OnOk, OnErr};
ghost use Rattle.std.specs.List.{AllByRecursion};
ghost use Rattle.ring_base.specs.declared.fault.Fault.TheVariants.{Memory};
ghost use Rattle.ring_core_proof.specs.Limits.{EventFits};
ghost use Rattle.ring_core_proof.specs.Worlds.{has_effect_on_formed};
ghost use Rattle.ring_core_world.specs.Running.{world_of, run_extended, acts};

use crate::cores::CoreWorld;
use ring_base::{Fault, Kind, Proc};
use ring_core_proof::RingEvent;
use ring_core_spec::Out;
use std::alloc::Allocator;

/// Runs a list of events, and returns all outputs in order, each with its processor.
///
/// If `formed`, the timeouts other than retransmit are skipped. `done` is set to the number of events done, skipped
/// ones included.
///
/// Errors: `Memory` if an allocation fails; `done` is then below the number of events.
///
/// Rules: Rings and states 14 and 15
pub(crate) fn run_events<A: Allocator + Copy>(
    cores: CoreWorld<A>,
    formed: bool,
    events: &[RingEvent<A>],
    done: &mut u64,
) -> Result<Vec<(Proc, Out<A>), A>, Fault>
    requires fit { AllByRecursion EventFits events.now }
    ensures outs { IfOk result (λ outs. outs.items ≡ (world_of (run_extended cores (filter (acts formed) events.now))).outs) }
    ensures all { OnOk result (done.new ≡ length events.now) }
    ensures some { OnErr result (done.new < length events.now) }
    ensures refused { IfErr result (λ fault. fault ≡ Memory) }
{
    let mut world = cores;
    *done = 0;
    for event in events {
        world = apply_if_effective(world, formed, event)?;
        *done += 1;
    }
    Ok(world.into_outs())
}

/// Applies an event, unless it has no effect from this opening.
fn apply_if_effective<A: Allocator + Copy>(
    world: CoreWorld<A>,
    formed: bool,
    event: &RingEvent<A>,
) -> Result<CoreWorld<A>, Fault>
    requires { EventFits event.now }
    ensures ok { IfOk result (λ after. after ≡ run_extended world (filter (acts formed) (event.now ∷ []))) }
    ensures refused { IfErr result (λ fault. fault ≡ Memory) }
{
    if has_effect(formed, event) {
        world.apply_event(event)
    } else {
        Ok(world)
    }
}

/// Returns whether an event has an effect: from the opening every event does.
fn has_effect<A: Allocator + Copy>(formed: bool, event: &RingEvent<A>) -> bool
    ensures { result ≡ acts formed event.now }
{
    !formed || has_effect_on_formed(event)
}

/// Returns whether an event has an effect from a formed ring: of the timeouts only retransmit does.
fn has_effect_on_formed<A: Allocator + Copy>(event: &RingEvent<A>) -> bool
    ensures { result ≡ has_effect_on_formed event.now }
{
    match event {
        RingEvent::Timeout(_, kind) => matches!(kind, Kind::Retransmit),
        RingEvent::Send(_, _) | RingEvent::Deliver(_, _) | RingEvent::Stop(_) => true,
    }
}
