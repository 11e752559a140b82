//! A host whose book is full: it refuses everything with `BookFull` before anything else, and a run of it ends.
//!
//! Rules: The book and the threads 24, 25 and 27; Refusals 4

ghost use Rattle.std.specs.Prelude.{◌≡◌};

use crate::driven::DrivenHost;
use ring_base::{Fault, Fixed, Kind, pair_result};
use ring_host::{BookName, HostTicket, INBOX, Opening};
use ring_object::Object;
use ring_things::Counters;
use std::alloc::Global;
use std::marker::Brand;
use std::sync::Wait;
use std::thread::Threads;

/// The most turns that fill a book: at each a ring of one hands its token to itself.
const MAX_STEPS: u32 = 300_000;

/// The observations of a full host.
#[derive(Clone, Copy, PartialEq, Eq)]
struct Shown {
    /// The number of places used in the book.
    places: u32,
    /// Whether a submit is refused with `BookFull`, at a working node and at one that was stopped before.
    are_submits_refused: bool,
    /// Whether a stop of these nodes is refused with `BookFull`.
    are_stops_refused: bool,
    /// Whether a ticket without an answer stays without one.
    is_silent: bool,
}

/// Does a turn of node 1 and returns whether it is refused with `BookFull`. Any other refusal is an error.
fn is_full<O: Object, K: BookName<O::Alloc>, W: Wait>(
    rt: &W,
    driven: &mut DrivenHost<O, K>,
) -> Result<bool, Fault> {
    match driven.turn(rt, 1) {
        Ok(_) => Ok(false),
        Err(Fault::BookFull) => Ok(true),
        Err(fault) => Err(fault),
    }
}

/// Does turns of node 1 until the book is full. Any other refusal is an error.
fn fill<O: Object, K: BookName<O::Alloc>, W: Wait>(
    rt: &W,
    driven: &mut DrivenHost<O, K>,
) -> Result<(), Fault> {
    for _ in 0..MAX_STEPS {
        if is_full(rt, driven)? {
            return Ok(());
        }
    }
    Err(Fault::NoAnswer)
}

/// Submits a call at node 2 of two and stops that node. Node 1, which loses it, goes on alone until the book is full. Returns the
/// ticket of the call.
fn filled<O: Object, K: BookName<O::Alloc>, W: Wait>(
    rt: &W,
    driven: &mut DrivenHost<O, K>,
) -> Result<HostTicket, Fault> {
    let ticket = driven.submit(rt, 2, 7, 1)?;
    driven.stop(rt, 2)?;
    driven.time_out(rt, 1, Kind::Join)?;
    driven.time_out(rt, 1, Kind::Consensus)?;
    fill(rt, driven)?;
    Ok(ticket)
}

/// Whether a submit at the node is refused with `BookFull`.
fn is_submit_refused<O: Object, K: BookName<O::Alloc>, W: Wait>(
    rt: &W,
    driven: &mut DrivenHost<O, K>,
    node: u8,
    client: u32,
) -> bool {
    driven.submit(rt, node, client, 1).err() == Some(Fault::BookFull)
}

/// Whether a stop of the node is refused with `BookFull`.
fn is_stop_refused<O: Object, K: BookName<O::Alloc>, W: Wait>(
    rt: &W,
    driven: &DrivenHost<O, K>,
    node: u8,
) -> bool {
    driven.stop(rt, node).err() == Some(Fault::BookFull)
}

/// Returns the observations of a host whose book is full, with the ticket of that call.
fn seen<O: Object, K: BookName<O::Alloc>, W: Wait>(
    rt: &W,
    driven: &mut DrivenHost<O, K>,
    ticket: &HostTicket,
) -> Shown {
    let at_one = is_submit_refused(rt, driven, 1, 8);
    let at_two = is_submit_refused(rt, driven, 2, 9);
    Shown {
        places: driven.places(rt),
        are_submits_refused: at_one && at_two,
        are_stops_refused: is_stop_refused(rt, driven, 1) && is_stop_refused(rt, driven, 2),
        is_silent: driven.polled(rt, ticket) == (None, true),
    }
}

/// Fills the host's book and returns the observations.
fn seen_full<O: Object, K: BookName<O::Alloc>, W: Wait>(
    rt: &W,
    driven: &mut DrivenHost<O, K>,
) -> Result<Shown, Fault> {
    let ticket = filled(rt, driven)?;
    Ok(seen(rt, driven, &ticket))
}

/// Runs `seen_full` at an opening. Returns also whether a run of node 1 then ends.
fn opened<O: Object + Send, K: BookName<O::Alloc> + Send + Sync, W: Threads + Wait + Sync>(
    rt: &W,
    alloc: O::Alloc,
    opening: Opening<O>,
) -> Result<(Shown, bool), Fault>
where
    O::Alloc: Send + Sync,
    requires { opening ≡ K.name }
{
    let mut driven = DrivenHost::<O, K>::new(alloc, opening, 2, INBOX)?;
    let shown = seen_full(rt, &mut driven);
    let (driven, shown) = pair_result(driven, shown)?;
    Ok((shown, driven.run_first(rt, alloc).is_ok()))
}

/// Runs `opened` with counters.
fn counted<W: Threads + Wait + Sync>(rt: &W, alloc: Global) -> Result<(Shown, bool), Fault> {
    let opening = Opening::<Counters>::new(alloc, Fixed::new(2)?)?;
    opened::<Counters, Brand, W>(rt, alloc, opening)
}

#[test]
fn a_host_whose_book_is_full_refuses_all_and_its_run_ends(rt: HostRuntime) {
    let shown = Shown {
        places: 262_144,
        are_submits_refused: true,
        are_stops_refused: true,
        is_silent: true,
    };
    assert!(rt; counted(&rt, rt.alloc()) == Ok((shown, true)));
}
