//! Refusals of a host, and the places that refused submits give back.
//!
//! Rules: The book and the threads 24 and 25; Refusals 4 and 5

ghost use Rattle.std.specs.Prelude.{◌≡◌};

use crate::driven::DrivenHost;
use refusing_alloc::RefusingHeap;
use ring_base::{Fault, Fixed};
use ring_host::{BookName, HostTicket, INBOX, Opening};
use ring_object::Object;
use ring_things::Counters;
use std::alloc::{Allocator, Global};
use std::marker::Brand;
use std::sync::Wait;

/// The outcome of a submit, and the number of places that it added to those of the book.
type Seen = (Result<HostTicket, Fault>, u32);

/// Submits at node 1 and returns the outcome.
fn submitted<O: Object, K: BookName<O::Alloc>, W: Wait>(
    rt: &W,
    driven: &mut DrivenHost<O, K>,
    number: u64,
) -> Seen {
    let before = driven.places(rt);
    let ticket = driven.submit(rt, 1, 7, number);
    (ticket, driven.places(rt).wrapping_sub(before))
}

/// Whether a submit was taken and has a place.
fn is_taken(seen: Seen) -> bool {
    seen.0.is_ok() && seen.1 == 1
}

/// Whether a submit was refused with this fault and left the number of places as before.
fn is_refused(seen: Seen, fault: Fault) -> bool {
    seen.0.err() == Some(fault) && seen.1 == 0
}

/// Whether a node that takes no turn takes 64 submits and refuses one more with `PendingFull`, and once stopped refuses each
/// call.
fn refuses<O: Object, K: BookName<O::Alloc>, W: Wait>(
    rt: &W,
    driven: &mut DrivenHost<O, K>,
) -> bool {
    let mut are_taken = true;
    for number in 1..65u64 {
        let is = is_taken(submitted(rt, driven, number));
        are_taken = are_taken && is;
    }
    let is_full = is_refused(submitted(rt, driven, 65), Fault::PendingFull);
    let stops = driven.stop(rt, 1).is_ok() && driven.stop(rt, 1).err() == Some(Fault::Stopped);
    let is_stopped = is_refused(submitted(rt, driven, 65), Fault::Stopped);
    are_taken && is_full && stops && is_stopped
}

/// Runs `refuses` on a host of one node at an opening.
fn opened<O: Object, K: BookName<O::Alloc>, W: Wait>(
    rt: &W,
    alloc: O::Alloc,
    opening: Opening<O>,
) -> Result<bool, Fault>
    requires { opening ≡ K.name }
{
    let mut driven = DrivenHost::<O, K>::new(alloc, opening, 1, INBOX)?;
    let refuses = refuses(rt, &mut driven);
    drop(driven);
    Ok(refuses)
}

/// Runs `opened` with counters.
fn counted<W: Wait>(rt: &W, alloc: Global) -> Result<bool, Fault> {
    let opening = Opening::<Counters>::new(alloc, Fixed::new(1)?)?;
    opened::<Counters, Brand, W>(rt, alloc, opening)
}

#[test]
fn too_many_calls_and_a_stopped_node(rt: HostRuntime) {
    assert!(rt; counted(&rt, rt.alloc()) == Ok(true));
}

/// The numbers of requests for memory before a submit and after it, and whether it was refused memory, lost no place, and the
/// next submit was taken.
type Short = (u64, u64, bool);

/// Does a submit of which one request for memory may be refused.
fn short_submit<O: Object, K: BookName<O::Alloc>, W: Wait>(
    rt: &W,
    heap: &RefusingHeap,
    driven: &mut DrivenHost<O, K>,
) -> Short {
    let before = heap.request_count();
    let seen = submitted(rt, driven, 1);
    let after = heap.request_count();
    let is_next_taken = is_taken(submitted(rt, driven, 2));
    (
        before,
        after,
        is_refused(seen, Fault::Memory) && is_next_taken,
    )
}

/// Runs `short_submit` on a host of one node at an opening.
fn short<O: Object, K: BookName<O::Alloc>, W: Wait>(
    rt: &W,
    alloc: O::Alloc,
    heap: &RefusingHeap,
    opening: Opening<O>,
) -> Result<Short, Fault>
    requires { opening ≡ K.name }
{
    let mut driven = DrivenHost::<O, K>::new(alloc, opening, 1, INBOX)?;
    let short = short_submit(rt, heap, &mut driven);
    drop(driven);
    Ok(short)
}

/// Runs `short` with counters that take their memory from this heap.
fn short_of<A: Allocator + Copy + Drop, W: Wait>(
    rt: &W,
    alloc: A,
    heap: &RefusingHeap,
) -> Result<Short, Fault> {
    let opening = Opening::<Counters<A>>::new(alloc, Fixed::new(1)?)?;
    short::<Counters<A>, Brand, W>(rt, alloc, heap, opening)
}

/// Runs `short_of` with the request after `passed` others refused.
fn refused<W: Wait>(rt: &W, alloc: Global, passed: u64) -> Result<Short, Fault> {
    let heap = RefusingHeap::new(alloc, passed);
    short_of(rt, &heap, &heap)
}

/// Returns the number of requests that a submit makes, and whether each of them, when refused, leaves the host as it was.
fn refused_in_turn<W: Wait>(rt: &W, alloc: Global) -> Result<(u64, bool), Fault> {
    let (before, after, _) = refused(rt, alloc, u64::MAX)?;
    let mut are_kept = true;
    for passed in before..after {
        let (_, _, is_kept) = refused(rt, alloc, passed)?;
        are_kept = are_kept && is_kept;
    }
    Ok((after.saturating_sub(before), are_kept))
}

#[test]
fn a_submit_that_is_refused_memory_gives_its_place_back(rt: HostRuntime) {
    let refused = refused_in_turn(&rt, rt.alloc());
    assert!(rt; matches!(refused, Ok((1.., true))), "{refused:?}");
}
