//! The payloads that a delivered message makes due: the owner's snapshot and Parts, and the pending calls.
//!
//! Rules: The replicated log 2 and 10

ghost use Rattle.std.specs.Prelude.{◌≡◌, ◌≤◌, ◌++◌, length, IfErr, OnOk};
ghost use Rattle.ring_base.specs.declared.fault.Fault.TheVariants.{Memory};
ghost use Rattle.ring_payload.specs.Limits.{max_snapshot};
ghost use Rattle.ring_node_spec.specs.DueSends.{parts_due, snaps_due, places_due};
ghost use Rattle.ring_replication.specs.Replications.{calls_to_resend, owner_asked, if_runs};

use crate::delivery_context::DeliveryContext;
use crate::held_log::HeldLog;
use ring_base::Fault;
use ring_log::{Log, Wanted, pieces_of};
use ring_payload::{Call, MAX_SNAPSHOT, Payload};
use ring_session::{PendingTicket, contains_call, copy_of};
use std::alloc::Allocator;

/// Appends the owner's payloads to `due`, if the message was the last Head, the ring runs and this node is the owner.
///
/// They are the Snaps of the node's snapshot, if one is wanted, and the Parts of its log. `before` and `after` are what
/// the exchange wanted before and after the message.
///
/// Errors: `Memory` if an allocation fails; the contents of `due` are then unspecified.
///
/// Rules: The replicated log 2
pub(crate) fn add_owner_sends<A: Allocator + Copy + Drop>(
    alloc: A,
    delivery_context: &DeliveryContext,
    held: &HeldLog<A>,
    before: Option<Wanted>,
    after: Option<Wanted>,
    due: &mut Vec<Payload<A>, A>,
) -> Result<(), Fault>
    ensures ok { OnOk result (due.new.items ≡ due.old.items ++ if_runs delivery_context.now.runs (owner_asked delivery_context.now.me held.now before after)) }
    ensures refused { IfErr result (λ fault. fault ≡ Memory) }
{
    match (before, after) {
        (None, Some(wanted)) => {
            if delivery_context.runs && wanted.owner == delivery_context.me {
                add_wanted_sends(alloc, held, &wanted, due)
            } else {
                Ok(())
            }
        }
        _ => Ok(()),
    }
}

/// Appends the wanted snapshot and places, as far as the node has them.
///
/// A wanted snapshot is sent only if it is the one that the node keeps. If none is wanted, no wanted place may be
/// dropped.
fn add_wanted_sends<A: Allocator + Copy + Drop>(
    alloc: A,
    held: &HeldLog<A>,
    wanted: &Wanted,
    due: &mut Vec<Payload<A>, A>,
) -> Result<(), Fault>
    ensures ok { OnOk result (due.new.items ≡ due.old.items ++ places_due held.now.snapshot held.now.log wanted.now wanted.now.snapshot) }
    ensures refused { IfErr result (λ fault. fault ≡ Memory) }
{
    let log = held.log();
    match wanted.snapshot {
        Some(at) => {
            let bytes = held.snapshot();
            if log.trimmed() == at && bytes.len() <= MAX_SNAPSHOT as usize {
                add_snaps(alloc, at, bytes, due)?;
                add_parts(alloc, log, wanted, due)
            } else {
                Ok(())
            }
        }
        None => {
            if log.trimmed() <= wanted.from {
                add_parts(alloc, log, wanted, due)
            } else {
                Ok(())
            }
        }
    }
}

/// Appends the pieces of the snapshot of the first `at` places.
fn add_snaps<A: Allocator + Copy>(
    alloc: A,
    at: u64,
    bytes: &[u8],
    due: &mut Vec<Payload<A>, A>,
) -> Result<(), Fault>
    requires limit { length bytes.now ≤ max_snapshot }
    ensures ok { OnOk result (due.new.items ≡ due.old.items ++ snaps_due at bytes.now) }
    ensures refused { IfErr result (λ fault. fault ≡ Memory) }
{
    for snap in pieces_of(alloc, at, bytes)? {
        due.push(Payload::Snap(snap))?;
    }
    Ok(())
}

/// Appends the Parts of the wanted places.
fn add_parts<A: Allocator + Copy>(
    alloc: A,
    log: &Log<A>,
    wanted: &Wanted,
    due: &mut Vec<Payload<A>, A>,
) -> Result<(), Fault>
    ensures ok { OnOk result (due.new.items ≡ due.old.items ++ parts_due log.now wanted.now) }
    ensures refused { IfErr result (λ fault. fault ≡ Memory) }
{
    for part in log.parts(alloc, wanted)? {
        due.push(Payload::Part(part))?;
    }
    Ok(())
}

/// Appends to `due`, in the order of tickets, the call of each unanswered ticket that isn't in `places`.
///
/// Errors: `Memory` if an allocation fails; the contents of `due` are then unspecified.
///
/// Rules: The replicated log 10
pub(crate) fn add_pending_calls<A: Allocator + Copy + Drop>(
    pending: &[PendingTicket<A>],
    places: &[Call<A>],
    due: &mut Vec<Payload<A>, A>,
) -> Result<(), Fault>
    ensures ok { OnOk result (due.new.items ≡ due.old.items ++ calls_to_resend pending.now places.now) }
    ensures refused { IfErr result (λ fault. fault ≡ Memory) }
{
    for asked in pending {
        if !contains_call(places, &asked.call) {
            due.push(Payload::Call(copy_of(&asked.call)?))?;
        }
    }
    Ok(())
}
