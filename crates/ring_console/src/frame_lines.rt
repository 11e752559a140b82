//! The lines of a listing, one for each frame.
//!
//! Formats: Listing frames

ghost use Rattle.std.specs.Prelude.{◌≡◌, ℕ, ◌+◌, ◌*◌, ◌≤◌, List, [], ◌++◌, length, codes};
ghost use Rattle.std.specs.Fmt.{decimal};
ghost use Rattle.std.specs.Iterator.{AlwaysYields, IsFinite, size};
ghost use Rattle.ring_base.specs.Processors.{elements};
ghost use Rattle.ring_base.specs.Rings.{ring_text};
ghost use Rattle.ring_console.specs.OutputLines.{trimmed_text};
ghost use Rattle.ring_console.specs.FrameLines.{numbers_text, call_text, primary_text, head_text, part_text};
ghost use Rattle.ring_console.specs.FrameLines.{pack_text, snap_text, content_text, wrapped_text, payload_text};
ghost use Rattle.ring_console.specs.FrameLines.{message_text, lowered_text, token_text, join_text, commit_text, frame_text};

use crate::line_buffer::{LineBuffer, MAX_LINE_BYTES};
use ring_base::{Proc, ProcSet, RingId};
use ring_payload::{Call, Head, Pack, Part, Payload, Snap, Wrapped, WrappedPayload};
use ring_wire::{CommitToken, Frame, Join, Message, Requests, Token};
use std::alloc::Allocator;

/// Builds a frame's line, without its line feed, in `line`, which must be empty.
///
/// Formats: Listing frames
pub(crate) fn add_frame<A: Allocator + Copy>(line: &mut LineBuffer, frame: &Frame<A>)
    requires { line.old ≡ [] }
    ensures text { line.new ≡ frame_text frame.now }
    ensures len { length line.new ≤ 900 }
{
    match frame {
        Frame::Message(message) => add_message(line, message),
        Frame::Token(token) => add_token(line, token),
        Frame::Join(join) => add_join(line, join),
        Frame::Commit(boxed) => add_commit(line, boxed.token()),
    }
}

fn add_message<A: Allocator + Copy>(line: &mut LineBuffer, message: &Message<A>)
    requires { line.old ≡ [] }
    ensures text { line.new ≡ message_text message.now }
    ensures len { length line.new ≤ 360 }
{
    add_sent(
        line,
        "message ",
        message.ring,
        message.number,
        message.sender,
    );
    add_payload(line, &message.payload);
}

fn add_payload<A: Allocator + Copy>(line: &mut LineBuffer, payload: &Payload<A>)
    requires { length line.old + 250 ≤ MAX_LINE_BYTES }
    ensures text { line.new ≡ line.old ++ payload_text payload.now }
    ensures len { length line.new ≤ length line.old + 250 }
{
    match payload {
        Payload::Call(call) => add_call(line, call),
        Payload::Wrapped(wrapped) => add_wrapped(line, wrapped),
        Payload::End => line.append_bytes(b"end"),
        Payload::Head(head) => add_head(line, head),
        Payload::Part(part) => add_part(line, part),
        Payload::Pack(pack) => add_pack(line, pack),
        Payload::Snap(snap) => add_snap(line, snap),
    }
}

fn add_wrapped<A: Allocator + Copy>(line: &mut LineBuffer, wrapped: &Wrapped<A>)
    requires { length line.old + 250 ≤ MAX_LINE_BYTES }
    ensures text { line.new ≡ line.old ++ wrapped_text wrapped.now }
    ensures len { length line.new ≤ length line.old + 250 }
{
    add_sent(
        line,
        "wrapped ",
        wrapped.ring,
        wrapped.number,
        wrapped.sender,
    );
    add_content(line, &wrapped.payload);
}

fn add_content<A: Allocator + Copy>(line: &mut LineBuffer, content: &WrappedPayload<A>)
    requires { length line.old + 140 ≤ MAX_LINE_BYTES }
    ensures text { line.new ≡ line.old ++ content_text content.now }
    ensures len { length line.new ≤ length line.old + 140 }
{
    match content {
        WrappedPayload::Call(call) => add_call(line, call),
        WrappedPayload::Head(head) => add_head(line, head),
        WrappedPayload::Part(part) => add_part(line, part),
        WrappedPayload::Pack(pack) => add_pack(line, pack),
        WrappedPayload::Snap(snap) => add_snap(line, snap),
    }
}

/// Adds the word `word`, and the ring, number and sender of a message.
fn add_sent(line: &mut LineBuffer, word: &str, ring: RingId, number: u64, sender: Proc)
    requires room { length line.old + 110 ≤ MAX_LINE_BYTES }
    requires word { length word.now ≤ 8 }
    ensures text { line.new ≡ line.old ++ word.now ++ ring_text ring ++ codes " seq " ++ decimal number
        ++ codes " from " ++ decimal sender ++ codes " " }
    ensures len { length line.new ≤ length line.old + 110 }
{
    add_ring(line, word, ring);
    line.add_number(" seq ", number);
    line.add_number(" from ", u64::from(sender.number()));
    line.append_bytes(b" ");
}

fn add_ring(line: &mut LineBuffer, word: &str, ring: RingId)
    requires { length line.old + length word.now + 41 ≤ MAX_LINE_BYTES }
    ensures text { line.new ≡ line.old ++ word.now ++ ring_text ring }
    ensures len { length line.new ≤ length line.old + length word.now + 41 }
{
    line.add_number(word, ring.seq);
    line.add_number(".", u64::from(ring.rep.number()));
}

fn add_call<A: Allocator + Copy>(line: &mut LineBuffer, call: &Call<A>)
    requires { length line.old + 140 ≤ MAX_LINE_BYTES }
    ensures text { line.new ≡ line.old ++ call_text call.now }
    ensures len { length line.new ≤ length line.old + 140 }
{
    line.add_number("call ", u64::from(call.client));
    line.add_number(".", call.number);
    line.add_number(" op ", call.op.as_slice().len() as u64);
}

fn add_head(line: &mut LineBuffer, head: &Head)
    requires { length line.old + 140 ≤ MAX_LINE_BYTES }
    ensures text { line.new ≡ line.old ++ head_text head.now }
    ensures len { length line.new ≤ length line.old + 140 }
{
    add_primary(line, head.last);
    line.add_number(" length ", head.length);
    line.add_number(" committed ", head.committed);
    add_trimmed(line, head.trimmed);
}

/// Adds a head's last primary ring, or `none` if there is none.
fn add_primary(line: &mut LineBuffer, last: Option<RingId>)
    requires { length line.old + 51 ≤ MAX_LINE_BYTES }
    ensures text { line.new ≡ line.old ++ codes "head last " ++ primary_text last }
    ensures len { length line.new ≤ length line.old + 51 }
{
    match last {
        None => line.append_bytes(b"head last none"),
        Some(ring) => add_ring(line, "head last ", ring),
    }
}

/// Adds the number of dropped places, if there are any.
fn add_trimmed(line: &mut LineBuffer, trimmed: u64)
    requires { length line.old + 29 ≤ MAX_LINE_BYTES }
    ensures text { line.new ≡ line.old ++ trimmed_text trimmed }
    ensures len { length line.new ≤ length line.old + 29 }
{
    if trimmed != 0 {
        line.add_number(" trimmed ", trimmed);
    }
}

fn add_part<A: Allocator + Copy>(line: &mut LineBuffer, part: &Part<A>)
    requires { length line.old + 140 ≤ MAX_LINE_BYTES }
    ensures text { line.new ≡ line.old ++ part_text part.now }
    ensures len { length line.new ≤ length line.old + 140 }
{
    line.add_number("part from ", part.first);
    line.add_number(" count ", part.calls.as_slice().len() as u64);
}

fn add_pack<A: Allocator + Copy>(line: &mut LineBuffer, pack: &Pack<A>)
    requires { length line.old + 140 ≤ MAX_LINE_BYTES }
    ensures text { line.new ≡ line.old ++ pack_text pack.now }
    ensures len { length line.new ≤ length line.old + 140 }
{
    line.add_number("pack count ", pack.calls.as_slice().len() as u64);
}

fn add_snap<A: Allocator + Copy>(line: &mut LineBuffer, snap: &Snap<A>)
    requires { length line.old + 140 ≤ MAX_LINE_BYTES }
    ensures text { line.new ≡ line.old ++ snap_text snap.now }
    ensures len { length line.new ≤ length line.old + 140 }
{
    line.add_number("snap at ", snap.at);
    line.add_number(" total ", u64::from(snap.total));
    line.add_number(" offset ", u64::from(snap.offset));
    line.add_number(" count ", snap.bytes.as_slice().len() as u64);
}

fn add_token(line: &mut LineBuffer, token: &Token)
    requires { line.old ≡ [] }
    ensures text { line.new ≡ token_text token.now }
    ensures len { length line.new ≤ 900 }
{
    add_ring(line, "token ", token.ring);
    line.add_number(" number ", token.number);
    line.add_number(" seq ", token.seq);
    line.add_number(" aru ", token.aru);
    add_lowered(line, token.aru_id);
    line.append_bytes(b" asks ");
    add_requests(line, &token.requests);
}

/// Adds `aru_id`, the processor that lowered the token's aru: 0 for none.
fn add_lowered(line: &mut LineBuffer, node: Option<Proc>)
    requires { length line.old + 24 ≤ MAX_LINE_BYTES }
    ensures text { line.new ≡ line.old ++ codes " id " ++ lowered_text node }
    ensures len { length line.new ≤ length line.old + 24 }
{
    match node {
        None => line.append_bytes(b" id 0"),
        Some(node) => line.add_number(" id ", u64::from(node.number())),
    }
}

fn add_join(line: &mut LineBuffer, join: &Join)
    requires { line.old ≡ [] }
    ensures text { line.new ≡ join_text join.now }
    ensures len { length line.new ≤ 900 }
{
    line.add_number("join ", u64::from(join.sender.number()));
    line.add_number(" number ", join.number);
    line.append_bytes(b" procs ");
    add_members(line, join.proc_set);
    line.append_bytes(b" fails ");
    add_members(line, join.fail_set);
}

fn add_commit(line: &mut LineBuffer, token: &CommitToken)
    requires { line.old ≡ [] }
    ensures text { line.new ≡ commit_text token.now }
    ensures len { length line.new ≤ 900 }
{
    add_ring(line, "commit ", token.ring);
    line.append_bytes(b" members ");
    add_members(line, token.members);
    line.add_number(" hop ", u64::from(token.hop));
    line.add_number(" entries ", token.entries.as_slice().len() as u64);
}

fn add_members(line: &mut LineBuffer, members: ProcSet)
    requires { length line.old + 340 ≤ MAX_LINE_BYTES }
    ensures text { line.new ≡ line.old ++ numbers_text (elements members) }
    ensures len { length line.new ≤ length line.old + 340 }
{
    add_numbers(
        line,
        members.iter().map(|member| u64::from(member.number())),
    );
}

fn add_requests(line: &mut LineBuffer, requests: &Requests)
    requires { length line.old + 680 ≤ MAX_LINE_BYTES }
    ensures text { line.new ≡ line.old ++ numbers_text requests.now }
    ensures len { length line.new ≤ length line.old + 680 }
{
    add_numbers(line, requests.as_slice().iter().copied());
}

/// Adds numbers separated by commas, or `-` if there are none.
fn add_numbers<I: Iterator<Item = u64> + Drop>(line: &mut LineBuffer, numbers: I)
    requires can { I.can_next numbers }
    requires ends { IsFinite (I.remaining numbers) }
    requires room { length line.old + 21 * size (I.remaining numbers) + 1 ≤ MAX_LINE_BYTES }
    ensures text { (all : List ℕ) → AlwaysYields I.next_gives (λ n. n) numbers all
        → line.new ≡ line.old ++ numbers_text all }
    ensures len { length line.new ≤ length line.old + 21 * size (I.remaining numbers) + 1 }
{
    let mut is_empty = true;
    for number in numbers {
        line.add_number(if is_empty { "" } else { "," }, number);
        is_empty = false;
    }
    if is_empty {
        line.append_bytes(b"-");
    }
}
