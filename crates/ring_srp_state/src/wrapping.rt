//! The new messages of a visit in Recovery: a Wrapped for each message that is left to wrap, then one End.
//!
//! Rules: Recovery 4

ghost use Rattle.std.specs.Prelude.{◌≡◌, ◌+◌, ◌≤◌, ◌<◌, take, IfOk, IfErr};
ghost use Rattle.ring_base.specs.declared.fault.Fault.TheVariants.{Memory};
ghost use Rattle.ring_window.specs.Held.{highest};
ghost use Rattle.ring_recover.specs.Plans.{safe};
ghost use Rattle.ring_srp_state.specs.Wraps.{wrap_left, left_and_end};
ghost use Rattle.ring_base.specs.Numbers.{window_size};

use ring_base::Fault;
use ring_payload::Payload;
use ring_recover::{Plan, wrap};
use ring_window::Window;
use std::alloc::Allocator;

/// Returns the payloads that a visit in Recovery sends, at most `most`.
///
/// They are a Wrapped for each user message above the least reported front that the window holds and that hasn't been
/// seen wrapped, in ascending order, and then an End, unless an End of this node was seen. The list is empty if `most`
/// is 0 or nothing is left. The plan and the window are unchanged.
///
/// `window` must be the window of the old ring. Its safe mark must be at most the greatest reported one, and it must
/// hold no number more than 256 above that.
///
/// Errors: `Memory` if an allocation fails.
///
/// Rules: Recovery 4
pub fn first_recovery_messages<A: Allocator + Copy>(
    alloc: A,
    plan: &Plan<A>,
    window: &Window<A>,
    most: u64,
) -> Result<Vec<Payload<A>, A>, Fault>
    requires ring { window.now.ring ≡ plan.now.plan.old }
    requires mark { window.now.mark ≤ safe plan.now.plan }
    requires near { highest window.now.held window.now.ring ≤ safe plan.now.plan + window_size }
    ensures items { IfOk result (λ payloads. payloads.items ≡ take most (left_and_end plan.now window.now.held)) }
    ensures refused { IfErr result (λ fault. fault ≡ Memory) }
{
    // No effect at run time. The proof uses it: a number above the least front is above the greatest safe mark.
    let sound = plan.greatest_reported_safe_mark() <= plan.least_reported_front();
    prove!(sound);
    let mut payloads = Vec::new(alloc);
    for before in plan.least_reported_front()..window.highest() {
        if payloads.len() as u64 == most {
            return Ok(payloads);
        }
        if let Some(payload) = wrap_if_left(plan, window, before + 1)? {
            payloads.push(payload)?;
        }
    }
    if (payloads.len() as u64) < most && !plan.has_ended() {
        payloads.push(Payload::End)?;
    }
    Ok(payloads)
}

/// Returns the Wrapped of the old ring's message `number`, or `None` if it was seen wrapped or isn't a held user
/// message.
///
/// `number` must be one of the 256 after the greatest reported safe mark.
///
/// Errors: `Memory` if an allocation fails.
fn wrap_if_left<A: Allocator + Copy>(
    plan: &Plan<A>,
    window: &Window<A>,
    number: u64,
) -> Result<Option<Payload<A>>, Fault>
    requires ring { window.now.ring ≡ plan.now.plan.old }
    requires mark { window.now.mark ≤ safe plan.now.plan }
    requires low { safe plan.now.plan < number }
    requires high { number ≤ safe plan.now.plan + window_size }
    ensures ok { IfOk result (λ payload. payload ≡ wrap_left plan.now window.now.held number) }
    ensures refused { IfErr result (λ fault. fault ≡ Memory) }
{
    if plan.has_wrapped(number) {
        return Ok(None);
    }
    match window.get(number) {
        Some(message) => wrap(message),
        None => Ok(None),
    }
}
