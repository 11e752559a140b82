//! A turn that sends three frames, with each of its requests for memory refused in turn.
//!
//! Rules: The book and the threads 21 to 23; Refusals 5

ghost use Rattle.std.specs.Prelude.{◌≡◌};

use crate::driven::{DrivenHost, FORM};
use refusing_alloc::RefusingHeap;
use ring_base::{Fault, Fixed};
use ring_host::{BookName, INBOX, Opening};
use ring_object::Object;
use ring_things::Counters;
use std::alloc::{Allocator, Global};
use std::marker::Brand;
use std::sync::Wait;

/// The calls that one visit of the token sends as a Pack of 16 and a Call.
const CALLS: u64 = 17;

/// The frames of that visit: these two, and the token.
const FRAMES: u32 = 3;

/// The most turns in which node 2 takes all of its inbox.
const TURNS: u32 = 10;

/// The observations of a turn of node 1 and of the turns of node 2 that follow.
#[derive(Clone, Copy)]
struct Sent {
    /// The number of requests for memory before the turn of node 1.
    before: u64,
    /// The number of requests for memory after it.
    after: u64,
    /// The number of copies that it dropped; none where it was refused.
    dropped: Option<u32>,
    /// The number of frames that node 2 takes from its inbox.
    taken: u32,
}

/// Does turns of node 2 until it finds nothing, and returns the number of frames that it has taken.
///
/// Errors: `NoAnswer` if it finds something at each of `TURNS` turns, and those of a turn.
fn take_all<O: Object, K: BookName<O::Alloc>, W: Wait>(
    rt: &W,
    driven: &mut DrivenHost<O, K>,
) -> Result<u32, Fault> {
    for count in 0..TURNS {
        if driven.turn(rt, 2)?.length.is_none() {
            return Ok(count);
        }
    }
    Err(Fault::NoAnswer)
}

/// Does a turn of node 1 and returns the number of copies that it dropped; none where it was refused.
fn send<O: Object, K: BookName<O::Alloc>, W: Wait>(
    rt: &W,
    driven: &mut DrivenHost<O, K>,
) -> Option<u32> {
    match driven.turn(rt, 1) {
        Ok(turn) => Some(turn.dropped),
        Err(_) => None,
    }
}

/// Forms a ring of two, and submits the calls at node 1, which has the token in its inbox.
///
/// Its next turn sends the three frames.
fn send_three<O: Object, K: BookName<O::Alloc>, W: Wait>(
    rt: &W,
    heap: &RefusingHeap,
    driven: &mut DrivenHost<O, K>,
) -> Result<Sent, Fault> {
    driven.form(rt, FORM);
    for before in 0..CALLS {
        driven.submit(rt, 1, 7, before.saturating_add(1))?;
    }
    let before = heap.request_count();
    let dropped = send(rt, driven);
    let after = heap.request_count();
    Ok(Sent {
        before,
        after,
        dropped,
        taken: take_all(rt, driven)?,
    })
}

/// Runs `send_three` on a host of two nodes at an opening.
fn opened<O: Object, K: BookName<O::Alloc>, W: Wait>(
    rt: &W,
    alloc: O::Alloc,
    heap: &RefusingHeap,
    opening: Opening<O>,
) -> Result<Sent, Fault>
    requires { opening ≡ K.name }
{
    let mut driven = DrivenHost::<O, K>::new(alloc, opening, 2, INBOX)?;
    let sent = send_three(rt, heap, &mut driven);
    drop(driven);
    sent
}

/// Runs `opened` with counters that take their memory from this heap.
fn counted<A: Allocator + Copy + Drop, W: Wait>(
    rt: &W,
    alloc: A,
    heap: &RefusingHeap,
) -> Result<Sent, Fault> {
    let opening = Opening::<Counters<A>>::new(alloc, Fixed::new(2)?)?;
    opened::<Counters<A>, Brand, W>(rt, alloc, heap, opening)
}

/// Runs `counted` with the request after `passed` others refused.
fn refused<W: Wait>(rt: &W, alloc: Global, passed: u64) -> Result<Sent, Fault> {
    let heap = RefusingHeap::new(alloc, passed);
    counted(rt, &heap, &heap)
}

/// Whether node 2 takes each copy that was not dropped, and none where the turn was refused.
fn is_right(sent: Sent) -> bool {
    match sent.dropped {
        Some(dropped) => sent.taken.saturating_add(dropped) == FRAMES,
        None => sent.taken == 0,
    }
}

/// Refuses each request for memory of node 1's turn, one a run.
///
/// Returns the number of copies dropped in all runs, and whether all runs are right. A turn of node 2 that is refused
/// is an error.
fn refused_in_turn<W: Wait>(rt: &W, alloc: Global) -> Result<(u32, bool), Fault> {
    let ample = refused(rt, alloc, u64::MAX)?;
    let mut drops = 0u32;
    let mut are_replies_right = ample.dropped == Some(0) && is_right(ample);
    for passed in ample.before..ample.after {
        let sent = refused(rt, alloc, passed)?;
        drops = drops.saturating_add(sent.dropped.unwrap_or(0));
        are_replies_right = are_replies_right && is_right(sent);
    }
    Ok((drops, are_replies_right))
}

/// A copy of each of the three frames is dropped in some run.
///
/// It leaves no bytes behind: node 2 takes the copies of the other frames, and each of them is in the book.
#[test]
fn a_copy_that_memory_refuses_is_dropped_and_counted(rt: HostRuntime) {
    let refused = refused_in_turn(&rt, rt.alloc());
    assert!(rt; matches!(refused, Ok((FRAMES.., true))), "{refused:?}");
}
