//! A ring of three, turned by hand, in which node 2 is refused memory. It stops, drops a copy or skips its item, and the others
//! go on.
//!
//! Rules: The book and the threads 22 and 23; Refusals 5 and 6

ghost use Rattle.std.specs.Prelude.{◌≡◌};

use crate::driven::{DrivenHost, FORM};
use refusing_alloc::RefusingHeap;
use ring_base::{Fault, Fixed, Kind};
use ring_host::{Book, BookName, Cause, HostTicket, INBOX, Opening, Turn};
use ring_object::Object;
use ring_session::Answer;
use ring_things::Counters;
use std::alloc::{Allocator, Global};
use std::marker::Brand;
use std::sync::Wait;

/// The most rounds until all frames under way are taken: a join just sent and the joins that reply to it.
const HEAR: u32 = 10;

/// The number of rounds observed after a call is submitted; it is answered within them.
const WATCHED: u32 = 8;

/// The outcome of a turn in which a request for memory is refused.
#[derive(Clone, Copy, PartialEq, Eq)]
enum TurnResult {
    /// A copy of a frame was dropped and counted; the step was done.
    Dropped,
    /// The turn was refused before its step: nothing was entered, and the node goes on.
    Refused,
    /// The node has stopped. Its stop is entered in the reserved place, and from then on the node refuses everything.
    Stopped,
    /// Nothing was lost: the refused request was for spare room.
    Kept,
    /// Any other outcome.
    Other,
}

/// Whether the last line is a stop of node 2.
fn ends_with_stop<O: Object, K: BookName<O::Alloc>>(book: &Book<O, K>) -> bool {
    match book.line(book.places().saturating_sub(1)) {
        Some(line) => line.node().number() == 2 && matches!(line.cause(), Cause::Stopped),
        None => false,
    }
}

/// Whether node 2 has stopped: it refuses turns, submits and stops.
fn is_stopped<O: Object, K: BookName<O::Alloc>, W: Wait>(
    rt: &W,
    driven: &mut DrivenHost<O, K>,
) -> bool {
    let has = driven.host.read_book(rt, |book| ends_with_stop(book));
    let stopped = Some(Fault::Stopped);
    has && driven.submit(rt, 2, 5, 1).err() == stopped
        && driven.stop(rt, 2).err() == stopped
        && driven.time_out(rt, 2, Kind::Join).err() == stopped
}

/// Returns the outcome of the turn; `added` is the number of places that it added.
fn came_of<O: Object, K: BookName<O::Alloc>, W: Wait>(
    rt: &W,
    driven: &mut DrivenHost<O, K>,
    turned: Result<Turn, Fault>,
    added: u32,
) -> TurnResult {
    match (turned, added) {
        (Ok(turn), 1) if turn.dropped > 0 => TurnResult::Dropped,
        (Ok(_), 1) => TurnResult::Kept,
        (Err(Fault::Memory), 0) => TurnResult::Refused,
        (Err(Fault::Memory), 1) if is_stopped(rt, driven) => TurnResult::Stopped,
        _ => TurnResult::Other,
    }
}

/// Does a turn of node 2 and returns its outcome.
fn turned<O: Object, K: BookName<O::Alloc>, W: Wait>(
    rt: &W,
    driven: &mut DrivenHost<O, K>,
) -> TurnResult {
    let before = driven.places(rt);
    let turned = driven.turn(rt, 2);
    let added = driven.places(rt).wrapping_sub(before);
    came_of(rt, driven, turned, added)
}

/// Returns the outcome of the turn of node 2 in which the request was refused; none where it wasn't in such a turn.
fn watched<O: Object, K: BookName<O::Alloc>, W: Wait>(
    rt: &W,
    heap: &RefusingHeap,
    driven: &mut DrivenHost<O, K>,
) -> Option<TurnResult> {
    for _ in 0..WATCHED {
        let _ = driven.turn(rt, 1);
        let _ = driven.turn(rt, 3);
        if heap.has_refused() {
            return None;
        }
        let outcome = turned(rt, driven);
        if heap.has_refused() {
            return Some(outcome);
        }
    }
    None
}

/// Whether the call is done, in the book too.
fn is_done<O: Object, K: BookName<O::Alloc>, W: Wait>(
    rt: &W,
    driven: &DrivenHost<O, K>,
    ticket: &HostTicket,
) -> bool {
    matches!(driven.polled(rt, ticket), (Some(Answer::Done(_)), true))
}

/// Whether calls at nodes 1 and 3 are answered once node 1 has lost the token, given up the silent node and formed a new ring.
fn goes_on<O: Object, K: BookName<O::Alloc>, W: Wait>(
    rt: &W,
    driven: &mut DrivenHost<O, K>,
) -> Result<bool, Fault> {
    let at_one = driven.submit(rt, 1, 8, 1)?;
    let at_three = driven.submit(rt, 3, 9, 1)?;
    driven.time_out(rt, 1, Kind::Loss)?;
    driven.rounds(rt, HEAR);
    driven.time_out(rt, 1, Kind::Consensus)?;
    driven.rounds(rt, FORM);
    Ok(is_done(rt, driven, &at_one) && is_done(rt, driven, &at_three))
}

/// The observations of one scenario.
#[derive(Clone, Copy)]
struct Shown {
    /// The number of requests for memory before the observed turns.
    before: u64,
    /// The number of requests for memory after them.
    after: u64,
    /// The outcome of the turn of node 2 in which a request was refused, if it was in one.
    outcome: Option<TurnResult>,
    /// Whether the others went on then, if it was.
    go_on: bool,
}

/// The scenario: a ring of three forms, a call is submitted at node 1, and in the next rounds a request for memory may be
/// refused.
fn story<O: Object, K: BookName<O::Alloc>, W: Wait>(
    rt: &W,
    heap: &RefusingHeap,
    driven: &mut DrivenHost<O, K>,
) -> Result<Shown, Fault> {
    driven.form(rt, FORM);
    driven.submit(rt, 1, 7, 1)?;
    let before = heap.request_count();
    let outcome = watched(rt, heap, driven);
    let after = heap.request_count();
    let go_on = outcome.is_none() || goes_on(rt, driven)?;
    Ok(Shown {
        before,
        after,
        outcome,
        go_on,
    })
}

/// Runs the scenario on a host of three nodes at an opening.
fn opened<O: Object, K: BookName<O::Alloc>, W: Wait>(
    rt: &W,
    alloc: O::Alloc,
    heap: &RefusingHeap,
    opening: Opening<O>,
) -> Result<Shown, Fault>
    requires { opening ≡ K.name }
{
    let mut driven = DrivenHost::<O, K>::new(alloc, opening, 3, INBOX)?;
    let story = story(rt, heap, &mut driven);
    drop(driven);
    story
}

/// Runs `opened` with counters that take their memory from this heap.
fn counted<A: Allocator + Copy + Drop, W: Wait>(
    rt: &W,
    alloc: A,
    heap: &RefusingHeap,
) -> Result<Shown, Fault> {
    let opening = Opening::<Counters<A>>::new(alloc, Fixed::new(3)?)?;
    opened::<Counters<A>, Brand, W>(rt, alloc, heap, opening)
}

/// Runs the scenario with the request after `passed` others refused.
fn refused<W: Wait>(rt: &W, alloc: Global, passed: u64) -> Result<Shown, Fault> {
    let heap = RefusingHeap::new(alloc, passed);
    counted(rt, &heap, &heap)
}

/// The outcomes of all scenarios, in each of which another request for memory of node 2 in these rounds is refused.
#[derive(Clone, Copy, Debug)]
struct Told {
    /// The number of times node 2 stopped.
    stops: u32,
    /// The number of times a copy of a frame was dropped.
    drops: u32,
    /// The number of times the turn was refused before its step.
    refusals: u32,
    /// The number of times nothing was lost.
    keeps: u32,
    /// The number of other outcomes.
    others: u32,
    /// The number of times the other nodes didn't go on.
    ends: u32,
}

/// Returns `count`, plus one if `is`.
fn more(count: u32, is: bool) -> u32 {
    count.saturating_add(u32::from(is))
}

/// Counts the outcome of one more scenario.
fn told_with(told: Told, outcome: TurnResult, go_on: bool) -> Told {
    Told {
        stops: more(told.stops, outcome == TurnResult::Stopped),
        drops: more(told.drops, outcome == TurnResult::Dropped),
        refusals: more(told.refusals, outcome == TurnResult::Refused),
        keeps: more(told.keeps, outcome == TurnResult::Kept),
        others: more(told.others, outcome == TurnResult::Other),
        ends: more(told.ends, !go_on),
    }
}

/// Runs the scenario for each of these requests and counts the outcomes.
fn refused_in_turn<W: Wait>(rt: &W, alloc: Global) -> Result<Told, Fault> {
    let mut told = Told {
        stops: 0,
        drops: 0,
        refusals: 0,
        keeps: 0,
        others: 0,
        ends: 0,
    };
    let ample = refused(rt, alloc, u64::MAX)?;
    for passed in ample.before..ample.after {
        let shown = refused(rt, alloc, passed)?;
        if let Some(outcome) = shown.outcome {
            told = told_with(told, outcome, shown.go_on);
        }
    }
    Ok(told)
}

#[test]
fn a_node_that_is_refused_memory_stops_or_drops_a_copy_and_the_others_go_on(rt: HostRuntime) {
    let told = refused_in_turn(&rt, rt.alloc());
    let are_all = matches!(
        told,
        Ok(Told {
            stops: 1..,
            drops: 1..,
            refusals: 1..,
            keeps: _,
            others: 0,
            ends: 0,
        })
    );
    assert!(rt; are_all, "{told:?}");
}
