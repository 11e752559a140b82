//! Refuses each request for memory in turn, up to the first reply.
//! Rules: Refusals 3, 5 and 6; The book and the threads 14

ghost use Rattle.std.specs.Prelude.{◌≡◌};

use crate::driven::{DrivenBook, FIRST, add_five, five};
use refusing_alloc::RefusingHeap;
use ring_base::{Fault, Fixed, Proc, State};
use ring_book::{Book, BookName, Cell, Opening};
use ring_node::Input;
use ring_object::Object;
use ring_session::{Answer, Ticket};
use ring_things::Counters;
use std::alloc::{Allocator, Global};
use std::marker::Brand;

/// Forms one ring of the group's nodes, and submits a call at the last of them.
fn asked<O: Object, K: BookName<O::Alloc>>(
    driven: &mut DrivenBook<O, K>,
    nodes: u8,
) -> Result<Ticket, Fault> {
    let turns = if nodes == 1 { 4 } else { 12 };
    driven.settle(nodes, turns)?;
    driven.submit(nodes, 1, add_five().as_slice())
}

/// Returns whether the book shows the reply to the first call of processor 1.
fn shows_reply<O: Object, K: BookName<O::Alloc>>(
    book: &Book<O, K>,
    ticket: Ticket,
) -> Result<bool, Fault> {
    let history = book.history()?;
    let order = book.order()?;
    let answer = book.answer(Proc::new(1), ticket);
    Ok(history.len() == 2 && order.len() == 1 && answer == Some(Answer::Done(five())))
}

/// Runs up to the first reply in a group of one, and up to a ring and a call in a larger group. Returns whether the book
/// shows what it should.
fn goes_on<O: Object, K: BookName<O::Alloc>>(
    driven: &mut DrivenBook<O, K>,
    nodes: u8,
) -> Result<bool, Fault> {
    let ticket = asked(driven, nodes)?;
    driven.pump(2)?;
    let shows = shows_reply(&driven.book, ticket)?;
    Ok(shows == (nodes == 1))
}

/// Returns whether the node of this processor isn't stopped.
fn is_running<O: Object, K: BookName<O::Alloc>>(cells: &[Cell<O, K>], processor: u8) -> bool {
    match cells.get(usize::from(processor).wrapping_sub(1)) {
        Some(cell) => cell.node().state() != State::Stopped,
        None => false,
    }
}

/// Returns whether each place of the book has a line, so that none is left reserved.
fn has_lines_alone<O: Object, K: BookName<O::Alloc>>(book: &Book<O, K>) -> bool {
    match book.places().checked_sub(1) {
        Some(last) => book.line(last).is_some(),
        None => true,
    }
}

/// Returns whether a processor continues after a refusal, unless one of its own steps was refused and its node is stopped.
/// No place of the book may be left reserved.
fn is_kept<O: Object, K: BookName<O::Alloc>>(driven: &mut DrivenBook<O, K>, processor: u8) -> bool {
    let is_settled = has_lines_alone(&driven.book);
    let steps = driven.step(processor, Input::Noise, FIRST).is_ok();
    let submits = driven.submit(processor, 2, add_five().as_slice()).is_ok();
    let goes_on = is_running(driven.cells.as_slice(), processor);
    is_settled && steps == goes_on && submits == goes_on
}

/// Returns whether this holds for all processors.
fn are_kept<O: Object, K: BookName<O::Alloc>>(driven: &mut DrivenBook<O, K>, nodes: u8) -> bool {
    let mut are = true;
    for before in 0..nodes {
        let is = is_kept(driven, before.saturating_add(1));
        are = are && is;
    }
    are
}

/// Returns `Memory` where a call was refused memory and everything done before is kept. Otherwise returns whether the run
/// is as it should be.
fn ran_or_kept<O: Object, K: BookName<O::Alloc>>(
    driven: &mut DrivenBook<O, K>,
    nodes: u8,
) -> Result<bool, Fault> {
    let ran = goes_on(driven, nodes);
    if ran == Err(Fault::Memory) && !are_kept(driven, nodes) {
        return Ok(false);
    }
    ran
}

/// Runs at an opening.
fn ran<O: Object, K: BookName<O::Alloc>>(
    alloc: O::Alloc,
    opening: Opening<O>,
    nodes: u8,
) -> Result<bool, Fault>
    requires { opening ≡ K.name }
{
    let mut driven = DrivenBook::<O, K>::new(alloc, opening)?;
    let ran = ran_or_kept(&mut driven, nodes);
    drop(driven);
    ran
}

/// Runs with counters.
fn counted<A: Allocator + Copy + Drop>(alloc: A, nodes: u8) -> Result<bool, Fault> {
    let opening = Opening::<Counters<A>>::new(alloc, Fixed::new(nodes)?)?;
    ran::<Counters<A>, Brand>(alloc, opening, nodes)
}

/// Returns whether the run with this request refused returned `Memory`, and whether it ran as it should. It may also
/// continue without a refusal: then a frame is stored as a value.
fn one_refused(alloc: Global, nodes: u8, passed: u64) -> (bool, bool) {
    let heap = RefusingHeap::new(alloc, passed);
    let ran = counted(&heap, nodes);
    let is_refused = ran == Err(Fault::Memory);
    (
        is_refused,
        heap.has_refused() && (is_refused || ran == Ok(true)),
    )
}

/// Returns the number of requests for memory of a successful run, or 0 if the run isn't successful.
fn requests(alloc: Global, nodes: u8) -> u64 {
    let ample = RefusingHeap::new(alloc, u64::MAX);
    if counted(&ample, nodes) == Ok(true) {
        ample.request_count()
    } else {
        0
    }
}

/// Refuses each request in turn. Returns the number of runs that returned `Memory`, and whether all ran as they should.
fn refused_in_turn(alloc: Global, nodes: u8) -> (u64, bool) {
    let mut refusals = 0u64;
    let mut are_replies_right = true;
    for passed in 0..requests(alloc, nodes) {
        let (is_refused, is_right) = one_refused(alloc, nodes, passed);
        refusals = refusals.saturating_add(u64::from(is_refused));
        are_replies_right = are_replies_right && is_right;
    }
    (refusals, are_replies_right)
}

#[test]
fn each_request_is_refused_in_turn(rt: HostRuntime) {
    for nodes in [1, 3] {
        let (refusals, are_replies_right) = refused_in_turn(rt.alloc(), nodes);
        assert!(rt;
            refusals > 20 && are_replies_right,
            "{refusals} refusals of {nodes} nodes"
        );
    }
}
