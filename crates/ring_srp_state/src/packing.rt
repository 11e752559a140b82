//! Makes a visit's new messages from the front of the send queue.
//!
//! A function marked `inline(never)` keeps the large stack slot of a payload out of its caller.
//!
//! Rules: Token and window 9

ghost use Rattle.std.specs.Prelude.{◌≡◌, drop, length, IfOk, IfErr, OnOk, OnErr, option_to_list};
ghost use Rattle.ring_base.specs.declared.fault.Fault.TheVariants.{Memory};
ghost use Rattle.ring_payload.specs.Packing.{longest_call_run, behind, packed_payloads, unpacked_rest};
ghost use Rattle.ring_srp_state.specs.Packing.{call_of, bytes_of, IsLeftOf};

use ring_base::Fault;
use ring_payload::{Call, CallList, MAX_PACK_BYTES, MAX_PACK_CALLS, Pack, Payload};
use std::alloc::Allocator;
use std::collections::VecDeque;

/// The maximum number of calls in one Pack, 16.
const MAX_CALLS: usize = MAX_PACK_CALLS as usize;

/// Takes the payloads of at most `max_messages` new messages from the front of the queue, and returns them in order.
///
/// Each is made from what the ones before it have left. Calls at the front become a Pack: the longest run of them that
/// fits one, with at most 16 calls and 7,276 bytes of payload. A single Call stays a Call. Any other payload becomes a
/// message of its own. The rest of the queue keeps its order. An empty queue, or a `max_messages` of 0, gives an empty
/// list and leaves the queue unchanged.
///
/// Errors: `Memory` if an allocation fails. Some of the queue's first payloads may then be lost; the rest is unchanged.
///
/// Rules: Token and window 9
/// Formats: Payloads
pub fn take_packed<A: Allocator + Copy>(
    alloc: A,
    queue: &mut VecDeque<Payload<A>, A>,
    max_messages: u64,
) -> Result<Vec<Payload<A>, A>, Fault>
    ensures items { IfOk result (λ payloads. payloads.items ≡ packed_payloads max_messages queue.old.items) }
    ensures queue { OnOk result (queue.new.items ≡ unpacked_rest max_messages queue.old.items) }
    ensures rest { OnErr result (IsLeftOf queue.new.items queue.old.items) }
    ensures refused { IfErr result (λ fault. fault ≡ Memory) }
{
    if queue.is_empty() {
        return Ok(Vec::new(alloc));
    }
    take_from_nonempty(alloc, queue, max_messages)
}

/// Does the same for a queue that isn't empty.
#[inline(never)]
fn take_from_nonempty<A: Allocator + Copy>(
    alloc: A,
    queue: &mut VecDeque<Payload<A>, A>,
    max_messages: u64,
) -> Result<Vec<Payload<A>, A>, Fault>
    ensures items { IfOk result (λ payloads. payloads.items ≡ packed_payloads max_messages queue.old.items) }
    ensures queue { OnOk result (queue.new.items ≡ unpacked_rest max_messages queue.old.items) }
    ensures rest { OnErr result (IsLeftOf queue.new.items queue.old.items) }
    ensures refused { IfErr result (λ fault. fault ≡ Memory) }
{
    let mut payloads = Vec::with_capacity(alloc, queue.len().min(max_messages as usize))?;
    for _ in 0..max_messages {
        let Some(payload) = take_next_payload(alloc, queue)? else {
            return Ok(payloads);
        };
        payloads.push(payload)?;
    }
    Ok(payloads)
}

/// Takes the payload of one new message from the queue, if there is one. The Calls of a Pack are moved, not copied.
///
/// Errors: `Memory` if an allocation fails. Some of the queue's first payloads may then be lost; the rest is unchanged.
fn take_next_payload<A: Allocator + Copy>(
    alloc: A,
    queue: &mut VecDeque<Payload<A>, A>,
) -> Result<Option<Payload<A>>, Fault>
    ensures message { IfOk result (λ message. option_to_list message ≡ packed_payloads 1 queue.old.items) }
    ensures queue { OnOk result (queue.new.items ≡ behind queue.old.items) }
    ensures rest { OnErr result (IsLeftOf queue.new.items queue.old.items) }
    ensures refused { IfErr result (λ fault. fault ≡ Memory) }
{
    let count = first_run_length(queue);
    if count < 2 {
        return Ok(queue.pop_front());
    }
    let calls = take_calls(alloc, queue, count)?;
    Ok(Some(Payload::Pack(Pack {
        calls: CallList::from_vec(calls),
    })))
}

/// Returns the number of Calls at the queue's front that fit one Pack, 0 to 16.
fn first_run_length<A: Allocator + Copy>(queue: &VecDeque<Payload<A>, A>) -> usize
    ensures { result ≡ length (longest_call_run queue.now.items) }
{
    let mut left = MAX_PACK_BYTES - 2;
    for count in 0..MAX_CALLS {
        let Some(payload) = queue.get(count) else {
            return count;
        };
        let Some(bytes) = packed_call_size(payload) else {
            return count;
        };
        if bytes > left {
            return count;
        }
        left -= bytes;
    }
    MAX_CALLS
}

/// Takes `count` Calls from the queue's front. `count` must be what `first_run_length` returns.
fn take_calls<A: Allocator + Copy>(
    alloc: A,
    queue: &mut VecDeque<Payload<A>, A>,
    count: usize,
) -> Result<Vec<Call<A>, A>, Fault>
    requires { count ≡ length (longest_call_run queue.old.items) }
    ensures calls { IfOk result (λ calls. calls.items ≡ longest_call_run queue.old.items) }
    ensures queue { OnOk result (queue.new.items ≡ drop count queue.old.items) }
    ensures rest { OnErr result (IsLeftOf queue.new.items queue.old.items) }
    ensures refused { IfErr result (λ fault. fault ≡ Memory) }
{
    let mut calls = Vec::with_capacity(alloc, count)?;
    for _ in 0..count {
        let Some(payload) = queue.pop_front() else {
            unreachable!()
        };
        let Some(call) = into_call(payload) else {
            unreachable!()
        };
        calls.push(call)?;
    }
    Ok(calls)
}

/// Returns the call of a Call, or `None` for any other payload.
fn into_call<A: Allocator + Copy>(payload: Payload<A>) -> Option<Call<A>>
    ensures { result ≡ call_of payload }
{
    match payload {
        Payload::Call(call) => Some(call),
        Payload::Wrapped(_)
        | Payload::End
        | Payload::Head(_)
        | Payload::Part(_)
        | Payload::Pack(_)
        | Payload::Snap(_) => None,
    }
}

/// Returns the length in bytes of a Call's encoding in a Pack, or `None` for any other payload.
fn packed_call_size<A: Allocator + Copy>(payload: &Payload<A>) -> Option<usize>
    ensures { result ≡ bytes_of payload.now }
{
    match payload {
        Payload::Call(call) => Some(call.encoded_call_len()),
        Payload::Wrapped(_)
        | Payload::End
        | Payload::Head(_)
        | Payload::Part(_)
        | Payload::Pack(_)
        | Payload::Snap(_) => None,
    }
}
