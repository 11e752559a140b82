//! Runs of a lone node that has stopped, or is refused memory before a step.
//!
//! Rules: The book and the threads 22 and 27

ghost use Rattle.std.specs.Prelude.{◌≡◌};

use crate::driven::DrivenHost;
use refusing_alloc::RefusingHeap;
use ring_base::{Fault, Fixed, Kind};
use ring_host::{BookName, INBOX, Opening};
use ring_object::Object;
use ring_things::Counters;
use std::alloc::{Allocator, Global};
use std::marker::Brand;
use std::sync::Wait;
use std::thread::Threads;

/// The most turns in which the lone node forms its ring, counted from the join timeout.
const TURNS: u32 = 12;

/// More requests for memory than such a node makes in them.
const REQUESTS: u64 = 1000;

/// The turn that was refused memory before its step, and the number of places used once the node has stopped.
///
/// The turn is counted from the join timeout. Each is `None` if there is none.
type Observed = (Option<u32>, Option<u32>);

/// Does turns of a lone node from the join timeout on, until a step is refused memory, which stops the node.
fn observe<O: Object, K: BookName<O::Alloc>, W: Wait>(
    rt: &W,
    driven: &mut DrivenHost<O, K>,
) -> Observed {
    let mut refused = None;
    driven.pass(1, Kind::Join);
    for before in 0..TURNS {
        let places = driven.places(rt);
        if driven.turn(rt, 1).err() == Some(Fault::Memory) {
            let after = driven.places(rt);
            if after > places {
                return (refused, Some(after));
            }
            refused = Some(before);
            driven.pass(1, Kind::Join);
        }
    }
    (refused, None)
}

/// Runs `observe` on a host of one node at an opening.
fn opened_by_hand<O: Object, K: BookName<O::Alloc>, W: Wait>(
    rt: &W,
    alloc: O::Alloc,
    opening: Opening<O>,
) -> Result<Observed, Fault>
    requires { opening ≡ K.name }
{
    let mut driven = DrivenHost::<O, K>::new(alloc, opening, 1, INBOX)?;
    let observed = observe(rt, &mut driven);
    drop(driven);
    Ok(observed)
}

/// Runs `opened_by_hand` with counters that take their memory from this heap.
fn counted_by_hand<A: Allocator + Copy + Drop, W: Wait>(
    rt: &W,
    alloc: A,
) -> Result<Observed, Fault> {
    let opening = Opening::<Counters<A>>::new(alloc, Fixed::new(1)?)?;
    opened_by_hand::<Counters<A>, Brand, W>(rt, alloc, opening)
}

/// Runs `counted_by_hand` with two requests for memory refused.
///
/// They are the one after `first` others, and the one after `second` others that were not refused before.
fn by_hand<W: Wait>(rt: &W, alloc: Global, first: u64, second: u64) -> Result<Observed, Fault> {
    let later = RefusingHeap::new(alloc, second);
    let heap = RefusingHeap::new(&later, first);
    counted_by_hand(rt, &heap)
}

/// Runs a lone node on a thread from an opening on, which is stopped first if `is_stopped`.
///
/// Nobody closes the host. Returns the number of places used in the book when the thread has ended.
fn opened<O: Object + Send, K: BookName<O::Alloc> + Send + Sync, W: Threads + Wait + Sync>(
    rt: &W,
    heap: O::Alloc,
    ample: O::Alloc,
    is_stopped: bool,
    opening: Opening<O>,
) -> Result<u32, Fault>
where
    O::Alloc: Send + Sync,
    requires { opening ≡ K.name }
{
    let driven = DrivenHost::<O, K>::new(heap, opening, 1, INBOX)?;
    if is_stopped {
        // A refused stop shows in the number of places.
        let _ = driven.stop(rt, 1);
    }
    driven.run_first(rt, ample)
}

/// Runs `opened` with counters that take their memory from `heap`.
fn counted<A: Allocator + Copy + Drop + Send + Sync, W: Threads + Wait + Sync>(
    rt: &W,
    heap: A,
    ample: A,
    is_stopped: bool,
) -> Result<u32, Fault> {
    let opening = Opening::<Counters<A>>::new(heap, Fixed::new(1)?)?;
    opened::<Counters<A>, Brand, W>(rt, heap, ample, is_stopped, opening)
}

/// Runs `counted` with the requests refused that `by_hand` refuses.
fn by_thread<W: Threads + Wait + Sync>(
    rt: &W,
    alloc: Global,
    first: u64,
    second: u64,
    is_stopped: bool,
) -> Result<u32, Fault> {
    let later = RefusingHeap::new(alloc, second);
    let heap = RefusingHeap::new(&later, first);
    let never = RefusingHeap::new(alloc, u64::MAX);
    let ample = RefusingHeap::new(&never, u64::MAX);
    counted(rt, &heap, &ample, is_stopped)
}

/// The node's only line is its stop.
///
/// Its first turn is refused with `Stopped`, and its thread ends.
#[test]
fn a_run_ends_where_all_nodes_have_stopped(rt: HostRuntime) {
    assert!(rt; by_thread(&rt, rt.alloc(), u64::MAX, u64::MAX, true) == Ok(1));
}

/// Returns the first request for memory that is refused before the step of this turn.
fn request_of<W: Wait>(rt: &W, alloc: Global, turn: u32) -> Option<u64> {
    for first in 0..REQUESTS {
        if by_hand(rt, alloc, first, u64::MAX) == Ok((Some(turn), None)) {
            return Some(first);
        }
    }
    None
}

/// Returns the first request after that of this turn that stops the node, and the number of places used then.
fn stop_after<W: Wait>(rt: &W, alloc: Global, turn: u32, first: u64) -> Option<(u64, u32)> {
    for second in first..first.saturating_add(REQUESTS) {
        let observed = by_hand(rt, alloc, first, second);
        if let Ok((refused, Some(places))) = observed {
            if refused == Some(turn) {
                return Some((second, places));
            }
        }
    }
    None
}

/// Refuses memory before the step of this turn, and to a step after it.
///
/// Returns the number of places used at the end by hand, and on a thread.
fn ends<W: Threads + Wait + Sync>(rt: &W, alloc: Global, turn: u32) -> Option<(u32, u32)> {
    let first = request_of(rt, alloc, turn)?;
    let (second, places) = stop_after(rt, alloc, turn, first)?;
    match by_thread(rt, alloc, first, second, false) {
        Ok(end) => Some((places, end)),
        Err(_) => None,
    }
}

/// The thread goes on after both refusals, and ends once a later step has stopped the node.
///
/// The first turn is that of the join timeout, which reads nothing: the refused request is for its place in the book.
/// The second turn reads a commit token.
#[test]
fn a_thread_goes_on_where_a_place_or_a_read_is_refused_memory(rt: HostRuntime) {
    for turn in [0, 1] {
        let ends = ends(&rt, rt.alloc(), turn);
        let is_same = matches!(ends, Some((wanted, seen)) if wanted == seen);
        assert!(rt; is_same, "{turn} {ends:?}");
    }
}
