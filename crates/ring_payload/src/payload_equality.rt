//! Equality of calls, lists of calls and payloads.

ghost use Rattle.std.specs.Prelude.{◌≡◌, ◌↔◌, ◌<◌, take, length, IsTrue};
ghost use Rattle.ring_base.specs.Prefixes.{IsListPrefix};

use crate::call::Call;
use crate::calls::{Pack, Part};
use crate::content::{Payload, Wrapped, WrappedPayload};
use crate::head::Head;
use crate::snap::Snap;
use ring_codec::RingId;
use std::alloc::Allocator;

impl<A: Allocator + Copy> Call<A> {
    ghost use Rattle.ring_payload.specs.SameCalls.{is_same};

    /// Returns whether the two are the same call: equal in client, number and operation.
    ///
    /// Formats: Numbers and parts
    pub fn equals_call(&self, other: &Call<A>) -> bool
        ensures value { result ≡ is_same self.now other.now }
        ensures same { IsTrue result ↔ (self.now ≡ other.now) }
    {
        other.client == self.client
            && other.number == self.number
            && other.op.as_slice() == self.op.as_slice()
    }
}

/// Returns whether two lists have the same calls in the same order.
pub fn are_same_calls<A: Allocator + Copy>(some: &[Call<A>], others: &[Call<A>]) -> bool
    ensures { IsTrue result ↔ (some.now ≡ others.now) }
{
    if some.len() != others.len() {
        return false;
    }
    for i in 0..some.len() {
        if !some[i].equals_call(&others[i]) {
            return false;
        }
    }
    true
}

/// Returns whether `front` is a prefix of `calls`: the same calls at the same places. The empty list is a prefix of
/// every list.
pub fn is_call_prefix<A: Allocator + Copy>(front: &[Call<A>], calls: &[Call<A>]) -> bool
    ensures { IsTrue result ↔ IsListPrefix front.now calls.now }
{
    front.len() <= calls.len() && are_same_calls(front, &calls[..front.len()])
}

impl<A: Allocator + Copy> Payload<A> {
    /// Returns whether the two payloads are of the same kind and equal in every field.
    ///
    /// Equal payloads have the same encoding.
    ///
    /// Formats: Payloads
    pub fn equals_payload(&self, other: &Payload<A>) -> bool
        ensures { IsTrue result ↔ (self.now ≡ other.now) }
    {
        match (self, other) {
            (Payload::Call(one), Payload::Call(other)) => one.equals_call(other),
            (Payload::Wrapped(one), Payload::Wrapped(other)) => is_same_wrapped(one, other),
            (Payload::End, Payload::End) => true,
            (Payload::Head(one), Payload::Head(other)) => is_same_head(one, other),
            (Payload::Part(one), Payload::Part(other)) => is_same_part(one, other),
            (Payload::Pack(one), Payload::Pack(other)) => is_same_pack(one, other),
            (Payload::Snap(one), Payload::Snap(other)) => is_same_snap(one, other),
            _ => false,
        }
    }
}

fn is_same_content<A: Allocator + Copy>(one: &WrappedPayload<A>, other: &WrappedPayload<A>) -> bool
    ensures { IsTrue result ↔ (one.now ≡ other.now) }
{
    match (one, other) {
        (WrappedPayload::Call(one), WrappedPayload::Call(other)) => one.equals_call(other),
        (WrappedPayload::Head(one), WrappedPayload::Head(other)) => is_same_head(one, other),
        (WrappedPayload::Part(one), WrappedPayload::Part(other)) => is_same_part(one, other),
        (WrappedPayload::Pack(one), WrappedPayload::Pack(other)) => is_same_pack(one, other),
        (WrappedPayload::Snap(one), WrappedPayload::Snap(other)) => is_same_snap(one, other),
        _ => false,
    }
}

fn is_same_wrapped<A: Allocator + Copy>(one: &Wrapped<A>, other: &Wrapped<A>) -> bool
    ensures { IsTrue result ↔ (one.now ≡ other.now) }
{
    is_same_payload_ring(one.ring, other.ring)
        && one.number == other.number
        && one.sender.number() == other.sender.number()
        && is_same_content(&one.payload, &other.payload)
}

fn is_same_part<A: Allocator + Copy>(one: &Part<A>, other: &Part<A>) -> bool
    ensures { IsTrue result ↔ (one.now ≡ other.now) }
{
    one.first == other.first && are_same_calls(one.calls.as_slice(), other.calls.as_slice())
}

fn is_same_pack<A: Allocator + Copy>(one: &Pack<A>, other: &Pack<A>) -> bool
    ensures { IsTrue result ↔ (one.now ≡ other.now) }
{
    are_same_calls(one.calls.as_slice(), other.calls.as_slice())
}

fn is_same_snap<A: Allocator + Copy>(one: &Snap<A>, other: &Snap<A>) -> bool
    ensures { IsTrue result ↔ (one.now ≡ other.now) }
{
    one.at == other.at
        && one.total == other.total
        && one.offset == other.offset
        && one.bytes.as_slice() == other.bytes.as_slice()
}

fn is_same_head(one: &Head, other: &Head) -> bool
    ensures { IsTrue result ↔ (one.now ≡ other.now) }
{
    is_same_last_primary(one.last, other.last)
        && one.length == other.length
        && one.committed == other.committed
        && one.trimmed == other.trimmed
}

fn is_same_last_primary(one: Option<RingId>, other: Option<RingId>) -> bool
    ensures { IsTrue result ↔ (one ≡ other) }
{
    match (one, other) {
        (Some(one), Some(other)) => is_same_payload_ring(one, other),
        (None, None) => true,
        _ => false,
    }
}

fn is_same_payload_ring(one: RingId, other: RingId) -> bool
    ensures { IsTrue result ↔ (one ≡ other) }
{
    one.seq == other.seq && one.rep.number() == other.rep.number()
}
