//! Tests of exchanges of three members, and of logs that adopt their bases and drop places, with and without refused memory.

use refusing_alloc::{RefusingHeap, refuse_in_turn};
use ring_base::{Fault, Proc, ProcSet, RingId};
use ring_log::{Adoption, Base, Exchange, Log, Snapshot, Wanted, pieces_of};
use ring_payload::{Call, CallList, Head, Part, Payload, Snap};
use std::alloc::{AllocError, Allocator, Global};

/// A payload that a member sends to an exchange.
#[derive(Clone, Copy)]
enum Content {
    /// A Head: the number of its last primary; its length, its committed length and its trimmed length.
    /// The representative of the last primary is processor 1; the number 0 stands for none.
    Head(u64, u64, u64, u64),
    /// A Part: its first place and its number of places.
    Part(u64, u64),
    /// A piece of a snapshot of 7,001 bytes: 0 for the first, 1 for the second.
    Piece(usize),
}

/// Processor 1, 2 or 3, and the payload that it sends.
type Row = (u8, Content);

/// The payloads that an exchange receives, and the last one, which completes it.
type PayloadSequence = (&'static [Row], Row);

/// The places 9 to 19 of processor 1's log are wanted. A Part that doesn't continue, and one of another sender, are ignored.
const PLACES: [Row; 6] = [
    (1, Content::Head(8, 20, 16, 0)),
    (2, Content::Head(8, 18, 16, 0)),
    (3, Content::Head(4, 9, 9, 0)),
    (1, Content::Part(16, 4)),
    (2, Content::Part(9, 7)),
    (1, Content::Part(9, 7)),
];

/// Of processor 1's log, a snapshot of the first 256 places in two pieces and the places 256 to 299 are wanted.
/// A Part before a piece is ignored.
const SNAPSHOT: [Row; 13] = [
    (1, Content::Head(4, 300, 290, 256)),
    (2, Content::Head(4, 298, 290, 256)),
    (3, Content::Head(0, 0, 0, 0)),
    (1, Content::Part(256, 7)),
    (1, Content::Piece(0)),
    (1, Content::Part(256, 7)),
    (1, Content::Piece(1)),
    (1, Content::Part(256, 7)),
    (1, Content::Part(263, 7)),
    (1, Content::Part(270, 7)),
    (1, Content::Part(277, 7)),
    (1, Content::Part(284, 7)),
    (1, Content::Part(291, 7)),
];

/// Returns client 7's calls with the numbers `first` to `end` - 1.
fn calls<A: Allocator + Copy>(alloc: A, first: u64, end: u64) -> Result<CallList<A>, Fault> {
    let mut calls = Vec::new(alloc);
    for number in first..end {
        calls.push(Call::new(alloc, 7, number, &[1, 1])?)?;
    }
    Ok(CallList::from_vec(calls))
}

/// Returns a Part of a log that has client 7's call of number p + 1 at place p.
fn part<A: Allocator + Copy>(alloc: A, first: u64, count: u64) -> Result<Payload<A>, Fault> {
    let end = first.saturating_add(count);
    let calls = calls(alloc, first.saturating_add(1), end.saturating_add(1))?;
    Ok(Payload::Part(Part { first, calls }))
}

/// Returns `count` bytes whose values cycle.
fn bytes<A: Allocator + Copy>(alloc: A, count: usize) -> Result<Vec<u8, A>, Fault> {
    let mut bytes = Vec::new(alloc);
    for place in 0..count {
        bytes.push((place % 251) as u8)?;
    }
    Ok(bytes)
}

/// Returns the pieces of a snapshot of 7,001 bytes.
fn pieces<A: Allocator + Copy>(alloc: A) -> Result<Vec<Snap<A>, A>, Fault> {
    let bytes = bytes(alloc, 7_001)?;
    let most = bytes.len().min(20_000);
    pieces_of(alloc, 256, &bytes.as_slice()[..most])
}

/// Returns the piece at this place of the list.
fn piece<A: Allocator + Copy>(alloc: A, place: usize) -> Result<Payload<A>, Fault> {
    let mut pieces = pieces(alloc)?;
    pieces.truncate(place.saturating_add(1));
    match pieces.pop() {
        Some(piece) => Ok(Payload::Snap(piece)),
        None => Err(Fault::Conflict),
    }
}

/// Returns the payload of this content.
fn payload<A: Allocator + Copy>(alloc: A, content: Content) -> Result<Payload<A>, Fault> {
    match content {
        Content::Head(seq, length, committed, trimmed) => {
            let rep = Proc::new(1);
            let last = if seq == 0 {
                None
            } else {
                Some(RingId { seq, rep })
            };
            Ok(Payload::Head(Head {
                last,
                length,
                committed,
                trimmed,
            }))
        }
        Content::Part(first, count) => part(alloc, first, count),
        Content::Piece(place) => piece(alloc, place),
    }
}

/// Applies a payload, again if it was refused memory, and counts the refusals.
fn hear<A: Allocator + Copy>(
    exchange: &mut Exchange<A>,
    sender: u8,
    payload: &Payload<A>,
    refused: &mut u64,
) -> Result<Option<Base<A>>, Fault> {
    let sender = if sender == 1 {
        Proc::new(1)
    } else {
        Proc::new(sender.clamp(2, 3))
    };
    match exchange.hear(sender, payload) {
        Err(Fault::Memory) => {
            *refused = refused.saturating_add(1);
            exchange.hear(sender, payload)
        }
        receive_content => receive_content,
    }
}

/// Applies the payload that this member sends.
fn receive_content<A: Allocator + Copy>(
    heap: A,
    exchange: &mut Exchange<A>,
    (sender, content): Row,
    refused: &mut u64,
) -> Result<Option<Base<A>>, Fault> {
    let payload = payload(heap, content)?;
    hear(exchange, sender, &payload, refused)
}

/// Returns the base that the last payload of a sequence brings, if the exchange was incomplete until then.
fn ended<A: Allocator + Copy>(
    heap: A,
    exchange: &mut Exchange<A>,
    (before, last): PayloadSequence,
    refused: &mut u64,
) -> Result<Option<Base<A>>, Fault> {
    for row in before {
        if receive_content(heap, exchange, *row, refused)?.is_some() {
            return Ok(None);
        }
    }
    receive_content(heap, exchange, last, refused)
}

/// Returns the base that a new exchange brings.
fn base_of_new_exchange<A: Allocator + Copy>(
    heap: A,
    story: PayloadSequence,
    refused: &mut u64,
) -> Result<Option<Base<A>>, Fault> {
    let mut exchange = Exchange::new(heap, ProcSet::from_bits(0b111));
    ended(heap, &mut exchange, story, refused)
}

/// Adopts the base with ring 12.1 as last primary. Returns whether the log was restored.
/// `None` if there is no base or it may not be adopted.
fn adopts<A: Allocator + Copy>(
    log: &mut Log<A>,
    base: Option<Base<A>>,
) -> Result<Option<bool>, Fault> {
    let Some(base) = base else {
        return Ok(None);
    };
    let rep = Proc::new(1);
    match log.adopt(RingId { seq: 12, rep }, base) {
        Ok(Adoption::Joined) => Ok(Some(false)),
        Ok(Adoption::Restored(_, _)) => Ok(Some(true)),
        Ok(Adoption::Refused) => Ok(None),
        Err(fault) => Err(fault),
    }
}

/// Appends client 7's calls with the numbers below this one.
fn append_calls_before<A: Allocator + Copy>(
    heap: A,
    log: &mut Log<A>,
    end: u64,
) -> Result<(), Fault> {
    let calls = calls(heap, 1, end)?;
    match log.append_all_if_room(calls.as_slice()) {
        Ok(_) => Ok(()),
        Err(fault) => Err(fault),
    }
}

/// Whether the log of processor 3 joins the base that the exchange brings, and is sent in two Parts.
/// It has nine places, all committed.
fn catches_up<A: Allocator + Copy>(
    heap: A,
    log: &mut Log<A>,
    refused: &mut u64,
) -> Result<bool, Fault> {
    append_calls_before(heap, log, 10)?;
    log.commit_upto(9);
    let base = base_of_new_exchange(heap, (&PLACES, (1, Content::Part(16, 4))), refused)?;
    if adopts(log, base)? != Some(false) {
        return Ok(false);
    }
    let wanted = Wanted {
        owner: Proc::new(1),
        snapshot: None,
        from: 9,
        to: 20,
    };
    Ok(log.parts(heap, &wanted)?.len() == 2)
}

/// Whether the exchange brings a snapshot that restores the log.
fn is_restored<A: Allocator + Copy>(
    heap: A,
    log: &mut Log<A>,
    refused: &mut u64,
) -> Result<bool, Fault> {
    let base = base_of_new_exchange(heap, (&SNAPSHOT, (1, Content::Part(298, 2))), refused)?;
    Ok(adopts(log, base)? == Some(true))
}

/// Returns a base from place 250 on, with a snapshot before it.
fn base_from_250<A: Allocator + Copy>(heap: A) -> Result<Base<A>, Fault> {
    let snapshot = Snapshot::from_vec(bytes(heap, 45)?);
    Ok(Base {
        from: 250,
        snapshot: Some(snapshot),
        calls: calls(heap, 251, 311)?,
    })
}

/// Whether a log of 300 places drops the 256 committed ones, and joins a base that begins below them.
fn drops<A: Allocator + Copy>(heap: A, log: &mut Log<A>) -> Result<bool, Fault> {
    append_calls_before(heap, log, 301)?;
    log.commit_upto(256);
    let dropped = log.trim()?.into_calls().len();
    let joins = adopts(log, Some(base_from_250(heap)?))?;
    Ok(dropped == 256 && joins == Some(false) && log.calls().len() == 54)
}

/// A piece of work that takes memory.
#[derive(Clone, Copy)]
enum Work {
    /// A log catches up, and is sent in Parts.
    Parts,
    /// An exchange brings a snapshot in two pieces.
    Snapshot,
    /// A log drops places.
    Dropped,
}

/// Whether the work has the right outcome on a new log.
fn is_done(heap: &RefusingHeap, work: Work, refused: &mut u64) -> Result<bool, Fault> {
    let mut log = Log::new(heap);
    match work {
        Work::Parts => catches_up(heap, &mut log, refused),
        Work::Snapshot => is_restored(heap, &mut log, refused),
        Work::Dropped => drops(heap, &mut log),
    }
}

/// The probe for `refuse_in_turn`: returns an error exactly if a request was refused.
/// If the outcome is wrong, it returns the opposite. After a refusal, either one payload was applied again, or the whole work
/// ended with `Memory`.
fn done_or_refused(heap: &RefusingHeap, work: Work) -> Result<(), AllocError> {
    let mut refused = 0;
    let done = is_done(heap, work, &mut refused);
    let is_right = match (done, heap.has_refused()) {
        (Ok(true), is_refused) => refused == u64::from(is_refused),
        (Err(Fault::Memory), true) => refused == 0,
        _ => false,
    };
    heap.expected_result(is_right)
}

/// The number of memory requests of the work, each refused once.
fn requests_of(alloc: Global, work: Work) -> Option<u64> {
    refuse_in_turn(alloc, &|heap: &RefusingHeap| done_or_refused(heap, work))
}

#[test]
fn each_request_is_refused_in_turn(rt: HostRuntime) {
    assert!(rt; requests_of(rt.alloc(), Work::Parts) > Some(6));
    assert!(rt; requests_of(rt.alloc(), Work::Snapshot) > Some(20));
    assert!(rt; requests_of(rt.alloc(), Work::Dropped) > Some(300));
}
