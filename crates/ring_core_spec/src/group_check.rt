//! Checks that a frame names only processors of the group.
//!
//! Rules: Processors and sets 5

ghost use Rattle.std.specs.Prelude.{◌≡◌, ◌&&◌, nat_le};
ghost use Rattle.std.specs.List.{list_all};
ghost use Rattle.ring_base.specs.Processors.{within, everybody};
ghost use Rattle.ring_token.specs.Frames.{CommitEntry as OneEntry};
ghost use Rattle.ring_token.specs.FrameVariants.{Join as JoinFrame, Commit as CommitFrame};
ghost use Rattle.ring_core_spec.specs.Naming.{last_named, holder_named, content_named, payload_named, is_named};

use ring_base::{Fixed, Proc, RingId};
use ring_token::{CommitEntry, Frame, Payload, WrappedPayload};
use std::alloc::Allocator;

/// Returns whether every processor that the frame names, in any field, is one of the group's, 1 to N.
///
/// A core ignores every other frame, in every state.
///
/// Rules: Processors and sets 5 and 6
pub fn names_only_group<A: Allocator + Copy>(fixed: Fixed, frame: &Frame<A>) -> bool
    ensures { result ≡ is_named fixed.count frame.now }
{
    let all = fixed.everybody();
    match frame {
        Frame::Message(message) => {
            is_representative_in_group(fixed, &message.ring)
                && is_proc_in_group(fixed, message.sender)
                && is_payload_in_group(fixed, &message.payload)
        }
        Frame::Token(token) => {
            is_representative_in_group(fixed, &token.ring)
                && is_aru_holder_in_group(fixed, token.aru_id)
        }
        Frame::Join(join) => {
            is_proc_in_group(fixed, join.sender)
                && join.proc_set.is_subset(all)
                && join.fail_set.is_subset(all)
        }
        Frame::Commit(boxed) => {
            let token = boxed.token();
            is_representative_in_group(fixed, &token.ring)
                && token.members.is_subset(all)
                && are_entries_in_group(fixed, token.entries.as_slice())
        }
    }
}

fn is_proc_in_group(fixed: Fixed, proc: Proc) -> bool
    ensures { result ≡ nat_le proc fixed.count }
{
    proc.number() <= fixed.count()
}

fn is_representative_in_group(fixed: Fixed, ring: &RingId) -> bool
    ensures { result ≡ nat_le ring.now.rep fixed.count }
{
    is_proc_in_group(fixed, ring.rep)
}

/// Returns whether the representative of the last primary, if there is one, is a processor of the group.
fn is_last_primary_in_group(fixed: Fixed, last: Option<RingId>) -> bool
    ensures { result ≡ last_named fixed.count last }
{
    match last {
        None => true,
        Some(ring) => is_representative_in_group(fixed, &ring),
    }
}

/// Returns whether the processor that holds `aru` back, if there is one, is a processor of the group.
fn is_aru_holder_in_group(fixed: Fixed, holder: Option<Proc>) -> bool
    ensures { result ≡ holder_named fixed.count holder }
{
    match holder {
        None => true,
        Some(proc) => is_proc_in_group(fixed, proc),
    }
}

/// Returns whether the representative of each entry's old ring is a processor of the group.
fn are_entries_in_group(fixed: Fixed, entries: &[CommitEntry]) -> bool
    ensures { result ≡ list_all (λ (e : OneEntry). nat_le e.old.rep fixed.count) entries.now }
{
    entries
        .iter()
        .all(|entry| entry.old.rep.number() <= fixed.count())
}

fn is_content_in_group<A: Allocator + Copy>(fixed: Fixed, content: &WrappedPayload<A>) -> bool
    ensures { result ≡ content_named fixed.count content.now }
{
    match content {
        WrappedPayload::Head(head) => is_last_primary_in_group(fixed, head.last),
        WrappedPayload::Call(_)
        | WrappedPayload::Part(_)
        | WrappedPayload::Pack(_)
        | WrappedPayload::Snap(_) => true,
    }
}

fn is_payload_in_group<A: Allocator + Copy>(fixed: Fixed, payload: &Payload<A>) -> bool
    ensures { result ≡ payload_named fixed.count payload.now }
{
    match payload {
        Payload::Wrapped(wrapped) => {
            is_representative_in_group(fixed, &wrapped.ring)
                && is_proc_in_group(fixed, wrapped.sender)
                && is_content_in_group(fixed, &wrapped.payload)
        }
        Payload::Head(head) => is_last_primary_in_group(fixed, head.last),
        Payload::Call(_) | Payload::End | Payload::Part(_) | Payload::Pack(_) | Payload::Snap(_) =>
            true,
    }
}
