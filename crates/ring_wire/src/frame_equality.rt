//! Equality of frames.

ghost use Rattle.std.specs.Prelude.{◌≡◌, ◌↔◌, ◌<◌, take, length, IsTrue};

use crate::commit::CommitToken;
use crate::entries::CommitEntry;
use crate::frame::Frame;
use crate::join::Join;
use crate::message::Message;
use crate::token::Token;
use ring_payload::{Proc, RingId};
use std::alloc::Allocator;

impl<A: Allocator + Copy> Frame<A> {
    /// Returns whether the two frames are of the same kind and equal in every field.
    ///
    /// Frames that are equal have the same encoding.
    ///
    /// Formats: Frames
    pub fn equals_frame(&self, other: &Frame<A>) -> bool
        ensures { IsTrue result ↔ (self.now ≡ other.now) }
    {
        match (self, other) {
            (Frame::Message(one), Frame::Message(other)) => is_same_message(one, other),
            (Frame::Token(one), Frame::Token(other)) => is_same_token(one, other),
            (Frame::Join(one), Frame::Join(other)) => is_same_join(one, other),
            (Frame::Commit(one), Frame::Commit(other)) => is_same_commit_token(
                one.token(),
                other.token(),
            ),
            _ => false,
        }
    }
}

fn is_same_message<A: Allocator + Copy>(one: &Message<A>, other: &Message<A>) -> bool
    ensures { IsTrue result ↔ (one.now ≡ other.now) }
{
    is_same_frame_ring(one.ring, other.ring)
        && one.number == other.number
        && one.sender.number() == other.sender.number()
        && one.payload.equals_payload(&other.payload)
}

fn is_same_token(one: &Token, other: &Token) -> bool
    ensures { IsTrue result ↔ (one.now ≡ other.now) }
{
    is_same_frame_ring(one.ring, other.ring)
        && one.number == other.number
        && one.seq == other.seq
        && one.aru == other.aru
        && is_same_processor(one.aru_id, other.aru_id)
        && one.requests.as_slice() == other.requests.as_slice()
}

fn is_same_join(one: &Join, other: &Join) -> bool
    ensures { IsTrue result ↔ (one.now ≡ other.now) }
{
    one.sender.number() == other.sender.number()
        && one.number == other.number
        && one.proc_set.bits() == other.proc_set.bits()
        && one.fail_set.bits() == other.fail_set.bits()
}

fn is_same_commit_token(one: &CommitToken, other: &CommitToken) -> bool
    ensures { IsTrue result ↔ (one.now ≡ other.now) }
{
    is_same_frame_ring(one.ring, other.ring)
        && one.members.bits() == other.members.bits()
        && one.hop == other.hop
        && are_same_entries(one.entries.as_slice(), other.entries.as_slice())
}

fn are_same_entries(some: &[CommitEntry], others: &[CommitEntry]) -> bool
    ensures { IsTrue result ↔ (some.now ≡ others.now) }
{
    if some.len() != others.len() {
        return false;
    }
    for i in 0..some.len() {
        if !is_same_commit_entry(&some[i], &others[i]) {
            return false;
        }
    }
    true
}

fn is_same_commit_entry(one: &CommitEntry, other: &CommitEntry) -> bool
    ensures { IsTrue result ↔ (one.now ≡ other.now) }
{
    is_same_frame_ring(one.old, other.old)
        && one.front == other.front
        && one.mark == other.mark
        && one.held.as_slice() == other.held.as_slice()
}

fn is_same_frame_ring(one: RingId, other: RingId) -> bool
    ensures { IsTrue result ↔ (one ≡ other) }
{
    one.seq == other.seq && one.rep.number() == other.rep.number()
}

fn is_same_processor(one: Option<Proc>, other: Option<Proc>) -> bool
    ensures { IsTrue result ↔ (one ≡ other) }
{
    match (one, other) {
        (Some(one), Some(other)) => one.number() == other.number(),
        (None, None) => true,
        _ => false,
    }
}
