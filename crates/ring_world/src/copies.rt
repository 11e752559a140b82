//! Copies of events, of reports to clients, and of histories.

ghost use Rattle.std.specs.Prelude.{◌≡◌, IfOk, IfErr};
ghost use Rattle.ring_base.specs.declared.fault.Fault.TheVariants.{Memory};
ghost use Rattle.ring_node_spec.specs.WorldLimits.{EventFits};
ghost use Rattle.ring_order_proof.specs.Linear.{IsEventCallWithinLimits};

use ring_base::Fault;
use ring_node_spec::{Event, Item, Told};
use ring_order_proof::limit_laws::call_fits_snapshot_law;
use std::alloc::Allocator;

/// Returns a copy of the event.
///
/// If a call in it is within the limits of frames, it can also be encoded in a snapshot, which the laws of runs
/// require.
///
/// Errors: `Memory` if an allocation fails.
pub(crate) fn copy_event<A: Allocator + Copy>(event: &Event<A>) -> Result<Event<A>, Fault>
    ensures ok { IfOk result (λ copy. copy ≡ event.now) }
    ensures keeps { IfOk result (λ _. EventFits event.now → IsEventCallWithinLimits event.now) }
    ensures refused { IfErr result (λ fault. fault ≡ Memory) }
{
    // A law: no effect at run time. The proof takes from it that a call within the limits of frames is within those of
    // snapshots.
    event_keeps_law(event);
    let copy = event.clone()?;
    Ok(copy)
}

/// Returns a list with copies of the events, in the same order.
///
/// Errors: `Memory` if an allocation fails.
pub(crate) fn copy_events<A: Allocator + Copy>(
    events: &Vec<Event<A>, A>,
) -> Result<Vec<Event<A>, A>, Fault>
    ensures ok { IfOk result (λ copies. copies.items ≡ events.now.items) }
    ensures refused { IfErr result (λ fault. fault ≡ Memory) }
{
    let copies = events.clone()?;
    Ok(copies)
}

/// Returns a list with copies of the reports to clients, in the same order.
///
/// Errors: `Memory` if an allocation fails.
pub(crate) fn copy_told<A: Allocator + Copy>(
    told: &Vec<Told<A>, A>,
) -> Result<Vec<Told<A>, A>, Fault>
    ensures ok { IfOk result (λ copies. copies.items ≡ told.now.items) }
    ensures refused { IfErr result (λ fault. fault ≡ Memory) }
{
    let copies = told.clone()?;
    Ok(copies)
}

/// Returns a copy of the history: the same items in the same order.
///
/// Errors: `Memory` if an allocation fails.
pub(crate) fn copy_history<A: Allocator + Copy>(
    history: &Vec<Item<A>, A>,
) -> Result<Vec<Item<A>, A>, Fault>
    ensures ok { IfOk result (λ copies. copies.items ≡ history.now.items) }
    ensures refused { IfErr result (λ fault. fault ≡ Memory) }
{
    let copies = history.clone()?;
    Ok(copies)
}

/// States that a call that is within the limits of frames can be encoded in a snapshot.
fn event_keeps_law<A: Allocator + Copy>(event: &Event<A>)
    ensures { EventFits event.now → IsEventCallWithinLimits event.now }
{
    match event {
        Event::Issue(_, call) => call_fits_snapshot_law(call),
        Event::Deliver(_, _) | Event::Noise(_, _) | Event::Timeout(_, _) | Event::Stop(_) => {}
    }
}
