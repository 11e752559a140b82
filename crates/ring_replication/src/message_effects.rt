//! How a message of the newest ring changes the stored log and its exchange.
//!
//! Rules: The replicated log 2 to 11

ghost use Rattle.std.specs.Prelude.{◌≡◌, ◌+◌, ◌++◌, true, length, unwrap_or, option_map, IfOk, IfErr, OnOk};
ghost use Rattle.ring_base.specs.Prefixes.{IsListPrefix};
ghost use Rattle.ring_base.specs.declared.fault.Fault.TheVariants.{Memory};
ghost use Rattle.ring_payload.specs.PayloadKinds.{calls_of};
ghost use Rattle.ring_log.specs.Logs.{committed_calls, appended, log_length, is_log_length, is_adoptable};
ghost use Rattle.ring_node_spec.specs.DueSends.{uncommitted_places};
ghost use Rattle.ring_replication.specs.Replications.{message_effect, exchanging_effect, stage_after, fits_if, held_if, calls_if, calls_to_resend};
ghost use Rattle.ring_replication.specs.Replications.{if_runs, watermark_at, reported_log, held_log_adopted};

use crate::delivery_context::DeliveryContext;
use crate::due_sends::{add_owner_sends, add_pending_calls};
use crate::exchange_stage::ExchangeStage;
use crate::held_log::HeldLog;
use ring_base::Fault;
use ring_log::{Base, Exchange, Log};
use ring_payload::{Call, Payload};
use ring_session::PendingTicket;
use ring_wire::Message;
use std::alloc::Allocator;

/// Applies a message to the stored log and to its exchange, and appends to `due` the payloads to be handed to the core.
///
/// Returns whether the log stays valid. It doesn't if the ring's base can't be adopted or the log would be too long.
/// The committed places are then unchanged, and the rest of the log is unspecified.
///
/// Errors: `Memory` if an allocation fails; the committed places are then unchanged, and all else is unspecified.
///
/// Rules: The replicated log 2 to 11
pub(crate) fn apply_message<A: Allocator + Copy + Drop>(
    alloc: A,
    delivery_context: &DeliveryContext,
    pending: &[PendingTicket<A>],
    stage: &mut ExchangeStage<A>,
    message: &Message<A>,
    held: &mut HeldLog<A>,
    due: &mut Vec<Payload<A>, A>,
) -> Result<bool, Fault>
    requires { is_log_length (log_length held.old.log) ≡ true }
    ensures stage { OnOk result (stage.new ≡ (message_effect delivery_context.now pending.now held.old stage.old message.now).stage) }
    ensures fits { IfOk result (λ fits. fits ≡ (message_effect delivery_context.now pending.now held.old stage.old message.now).fits) }
    ensures held { OnOk result ((message_effect delivery_context.now pending.now held.old stage.old message.now).fits ≡ true
        → held.new ≡ (message_effect delivery_context.now pending.now held.old stage.old message.now).held) }
    ensures due { OnOk result ((message_effect delivery_context.now pending.now held.old stage.old message.now).fits ≡ true
        → due.new.items ≡ due.old.items ++ (message_effect delivery_context.now pending.now held.old stage.old message.now).due) }
    ensures front { IsListPrefix (committed_calls (reported_log held.old)) (committed_calls (reported_log held.new)) }
    ensures refused { IfErr result (λ fault. fault ≡ Memory) }
{
    match stage {
        ExchangeStage::NotPrimary => Ok(true),
        ExchangeStage::Exchanging(exchange) => {
            match continue_exchange(
                alloc,
                delivery_context,
                pending,
                exchange,
                message,
                held,
                due,
            )? {
                None => Ok(true),
                Some(fits) => {
                    *stage = ExchangeStage::Adopted;
                    Ok(fits)
                }
            }
        }
        ExchangeStage::Adopted => append_calls(&message.payload, held),
    }
}

/// Applies a message to an exchange that isn't complete.
///
/// Returns `None` if it still isn't, otherwise whether the base could be adopted.
fn continue_exchange<A: Allocator + Copy + Drop>(
    alloc: A,
    delivery_context: &DeliveryContext,
    pending: &[PendingTicket<A>],
    exchange: &mut Exchange<A>,
    message: &Message<A>,
    held: &mut HeldLog<A>,
    due: &mut Vec<Payload<A>, A>,
) -> Result<Option<bool>, Fault>
    ensures stage { IfOk result (λ fits. (exchanging_effect delivery_context.now pending.now held.old exchange.old message.now).stage ≡ stage_after exchange.new fits) }
    ensures fits { IfOk result (λ fits. (exchanging_effect delivery_context.now pending.now held.old exchange.old message.now).fits ≡ unwrap_or fits true) }
    ensures held { OnOk result ((exchanging_effect delivery_context.now pending.now held.old exchange.old message.now).fits ≡ true
        → held.new ≡ (exchanging_effect delivery_context.now pending.now held.old exchange.old message.now).held) }
    ensures due { OnOk result ((exchanging_effect delivery_context.now pending.now held.old exchange.old message.now).fits ≡ true
        → due.new.items ≡ due.old.items ++ (exchanging_effect delivery_context.now pending.now held.old exchange.old
        message.now).due) }
    ensures front { IsListPrefix (committed_calls (reported_log held.old)) (committed_calls (reported_log held.new)) }
    ensures refused { IfErr result (λ fault. fault ≡ Memory) }
{
    let before = exchange.wanted();
    let base = exchange.hear(message.sender, &message.payload)?;
    add_owner_sends(
        alloc,
        delivery_context,
        held,
        before,
        exchange.wanted(),
        due,
    )?;
    adopt_if_complete(delivery_context, pending, base, held, due)
}

/// Adopts the ring if its base is known, and returns whether the base could be adopted; `None` without a base.
fn adopt_if_complete<A: Allocator + Copy + Drop>(
    delivery_context: &DeliveryContext,
    pending: &[PendingTicket<A>],
    base: Option<Base<A>>,
    held: &mut HeldLog<A>,
    due: &mut Vec<Payload<A>, A>,
) -> Result<Option<bool>, Fault>
    ensures fits { IfOk result (λ fits. fits ≡ option_map (is_adoptable held.old.log) base) }
    ensures held { OnOk result (fits_if held.old.log base ≡ true → held.new ≡ held_if delivery_context.now held.old base) }
    ensures due { OnOk result (fits_if held.old.log base ≡ true → due.new.items ≡ due.old.items ++ calls_if delivery_context.now pending.now held.old base) }
    ensures front { IsListPrefix (committed_calls (reported_log held.old)) (committed_calls (reported_log held.new)) }
    ensures refused { IfErr result (λ fault. fault ≡ Memory) }
{
    match base {
        None => Ok(None),
        Some(base) => Ok(Some(adopt_base_and_add_calls(
            delivery_context,
            pending,
            base,
            held,
            due,
        )?)),
    }
}

/// Adopts the ring with this base if it may be adopted, and returns whether it may.
///
/// If the ring runs, appends the pending calls that the base lacks to `due`.
fn adopt_base_and_add_calls<A: Allocator + Copy + Drop>(
    delivery_context: &DeliveryContext,
    pending: &[PendingTicket<A>],
    base: Base<A>,
    held: &mut HeldLog<A>,
    due: &mut Vec<Payload<A>, A>,
) -> Result<bool, Fault>
    ensures fits { IfOk result (λ fits. fits ≡ is_adoptable held.old.log base) }
    ensures held { OnOk result (is_adoptable held.old.log base ≡ true → held.new ≡ held_log_adopted held.old delivery_context.now.ring base) }
    ensures due { OnOk result (is_adoptable held.old.log base ≡ true → due.new.items ≡ due.old.items
        ++ if_runs delivery_context.now.runs (calls_to_resend pending.now (uncommitted_places delivery_context.now.committed (held_log_adopted held.old delivery_context.now.ring base).log))) }
    ensures front { IsListPrefix (committed_calls (reported_log held.old)) (committed_calls (reported_log held.new)) }
    ensures refused { IfErr result (λ fault. fault ≡ Memory) }
{
    let fits = held.adopt(delivery_context.ring, base)?;
    if !fits {
        return Ok(false);
    }
    if delivery_context.runs {
        add_pending_calls(
            pending,
            uncommitted_places(held.log(), delivery_context.committed),
            due,
        )?;
    }
    Ok(true)
}

/// Returns the places of a log that are neither dropped nor among the first `committed` places.
fn uncommitted_places<A: Allocator + Copy>(log: &Log<A>, committed: u64) -> &[Call<A>]
    ensures { result.now ≡ uncommitted_places committed log.now }
{
    let calls = log.calls();
    let first = committed.max(log.trimmed()) - log.trimmed();
    &calls[calls.len().min(first as usize)..]
}

/// Appends the calls in a payload, unless the log would be too long.
///
/// Returns whether they were appended.
fn append_calls<A: Allocator + Copy + Drop>(
    payload: &Payload<A>,
    held: &mut HeldLog<A>,
) -> Result<bool, Fault>
    requires { is_log_length (log_length held.old.log) ≡ true }
    ensures fits { IfOk result (λ fits. fits ≡ is_log_length (log_length held.old.log + length (calls_of payload.now))) }
    ensures held { OnOk result (is_log_length (log_length held.old.log + length (calls_of payload.now)) ≡ true
        → held.new ≡ record held.old { log = appended held.old.log (calls_of payload.now) }) }
    ensures front { IsListPrefix (committed_calls (reported_log held.old)) (committed_calls (reported_log held.new)) }
    ensures refused { IfErr result (λ fault. fault ≡ Memory) }
{
    match payload {
        Payload::Call(call) => held.append_call(call.clone()?),
        Payload::Pack(pack) => held.append_call_list(pack.calls.as_slice()),
        Payload::Wrapped(_)
        | Payload::End
        | Payload::Head(_)
        | Payload::Part(_)
        | Payload::Snap(_) => Ok(true),
    }
}

/// Returns the log's length if the ring has been adopted, otherwise 0.
pub(crate) fn watermark_at<A: Allocator + Copy>(stage: &ExchangeStage<A>, log: &Log<A>) -> u64
    ensures { result ≡ watermark_at stage.now log.now }
{
    match stage {
        ExchangeStage::Adopted => log.length(),
        ExchangeStage::NotPrimary | ExchangeStage::Exchanging(_) => 0,
    }
}
