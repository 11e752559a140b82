//! Books whose nodes drop committed places, one of which is restored. The expected values are those of `docs/PROTOCOL.md`.
//! Rules: The replicated log 6, 14, 18 and 20

ghost use Rattle.std.specs.Prelude.{◌≡◌};
ghost use Rattle.ring_base.specs.Processors.{IsProc};

use crate::driven::{DrivenBook, add_five};
use crate::linear::{answered, explained};
use ring_base::{Fault, Fixed, Kind, Proc, ProcSet};
use ring_book::{Book, BookName, Opening};
use ring_object::Object;
use ring_session::{Answer, Ticket};
use ring_things::{Counters, Outcome, outcome_reply_with};
use std::alloc::Allocator;
use std::marker::Brand;

/// A node's committed length, its trimmed length, the number of committed places that it keeps, and the number of calls
/// that took effect.
type Places = (u64, u64, usize, u64);

/// The length of a book's order, and its answers to three tickets of one processor.
type Shown = (usize, [Option<Answer>; 3]);

/// Returns these numbers for the node of this processor, counted from 1.
fn places<O: Object, K: BookName<O::Alloc>>(
    driven: &DrivenBook<O, K>,
    processor: u8,
) -> Option<Places> {
    let cells = driven.cells.as_slice();
    match cells.get(usize::from(processor).wrapping_sub(1)) {
        Some(cell) => {
            let node = cell.node();
            Some((
                node.committed_len(),
                node.trimmed(),
                node.committed().len(),
                node.order_len(),
            ))
        }
        None => None,
    }
}

/// Returns the length of the book's order, and its answers to these tickets of a processor.
fn shown<O: Object, K: BookName<O::Alloc>>(
    book: &Book<O, K>,
    processor: u8,
    tickets: [u64; 3],
) -> Result<Shown, Fault>
    requires { IsProc processor }
{
    let seen = explained(book)?;
    let [first, second, third] = tickets;
    let node = Proc::new(processor);
    let answers = [
        answered(book, node, Ticket::new(first)),
        answered(book, node, Ticket::new(second)),
        answered(book, node, Ticket::new(third)),
    ];
    Ok((seen.order.len(), answers))
}

/// Returns the answer to an add that raises the counter to this value.
fn done(count: u64) -> Option<Answer> {
    Some(Answer::Done(outcome_reply_with(Outcome::Done, count)))
}

/// Submits `many` calls of client 7, from number `first` on, at a processor, and then delivers at most `turns` frames.
fn calls<O: Object, K: BookName<O::Alloc>>(
    driven: &mut DrivenBook<O, K>,
    processor: u8,
    first: u64,
    many: u64,
    turns: u32,
) -> Result<(), Fault> {
    for more in 0..many {
        driven.submit(processor, first.saturating_add(more), add_five().as_slice())?;
    }
    driven.pump(turns)
}

/// Forms a ring of three nodes and does 10 calls.
fn form<O: Object, K: BookName<O::Alloc>>(driven: &mut DrivenBook<O, K>) -> Result<(), Fault> {
    driven.settle(3, 200)?;
    calls(driven, 1, 1, 10, 200)
}

/// Cuts node 3 off, and does 290 calls at nodes 1 and 2.
fn part<O: Object, K: BookName<O::Alloc>>(driven: &mut DrivenBook<O, K>) -> Result<(), Fault> {
    driven.cut(ProcSet::singleton(Proc::new(3)));
    driven.time_out(1, Kind::Loss)?;
    driven.pump(200)?;
    driven.time_out(1, Kind::Consensus)?;
    driven.time_out(2, Kind::Consensus)?;
    driven.pump(400)?;
    for first in [11, 75, 139, 203] {
        calls(driven, 1, first, 64, 400)?;
    }
    calls(driven, 1, 267, 34, 400)
}

/// Forms a ring of all three nodes again.
fn merge<O: Object, K: BookName<O::Alloc>>(driven: &mut DrivenBook<O, K>) -> Result<(), Fault> {
    driven.cut(ProcSet::new());
    driven.time(3)?;
    driven.pump(600)?;
    driven.settle(3, 600)
}

/// Returns the numbers of node 3 and of the book before the rings merge and afterwards.
fn merged<O: Object, K: BookName<O::Alloc>>(
    driven: &mut DrivenBook<O, K>,
) -> Result<[(Option<Places>, Shown); 2], Fault> {
    form(driven)?;
    part(driven)?;
    let before = shown(&driven.book, 1, [0, 299, 300])?;
    let away = places(driven, 3);
    merge(driven)?;
    calls(driven, 3, 301, 1, 200)?;
    let after = shown(&driven.book, 3, [0, 1, 2])?;
    Ok([(away, before), (places(driven, 3), after)])
}

/// Does this at an opening.
fn restored<O: Object, K: BookName<O::Alloc>>(
    alloc: O::Alloc,
    opening: Opening<O>,
) -> Result<[(Option<Places>, Shown); 2], Fault>
    requires { opening ≡ K.name }
{
    let mut driven = DrivenBook::<O, K>::new(alloc, opening)?;
    let merged = merged(&mut driven);
    drop(driven);
    merged
}

/// Cuts node 3 off and merges the rings again, with counters.
fn counted_restored<A: Allocator + Copy + Drop>(
    alloc: A,
) -> Result<[(Option<Places>, Shown); 2], Fault> {
    let opening = Opening::<Counters<A>>::new(alloc, Fixed::new(3)?)?;
    restored::<Counters<A>, Brand>(alloc, opening)
}

#[test]
fn a_node_that_was_away_is_restored(rt: HostRuntime) {
    let away = Some((10, 0, 10, 10));
    let before = (300, [done(5), done(1500), None]);
    let back = Some((301, 266, 35, 301));
    let after = (301, [done(1505), None, None]);
    let seen = counted_restored(rt.alloc());
    assert!(rt; seen == Ok([(away, before), (back, after)]));
}
