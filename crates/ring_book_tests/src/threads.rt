//! A cell and a book that move to another thread.
//! Rules: The book and the threads 12 and 13

ghost use Rattle.std.specs.Prelude.{◌≡◌};

use crate::driven::DrivenBook;
use ring_base::{Fault, Fixed};
use ring_book::{Book, BookName, Cell, Opening};
use ring_object::Object;
use ring_things::Counters;
use std::alloc::Global;
use std::marker::Brand;
use std::thread;
use std::thread::Threads;

/// Accepts only values that may be sent to another thread.
fn sends<T: Send>(_: &T) {}

/// Compiles because a cell may be sent wherever its object and its name may be sent and its memory may be shared.
fn lend_cell<O: Object + Send, K: BookName<O::Alloc> + Send>(cell: &Cell<O, K>)
where
    O::Alloc: Send + Sync,
{
    sends(cell)
}

/// Compiles because a book may be sent under the same conditions.
fn lend_book<O: Object + Send, K: BookName<O::Alloc> + Send>(book: &Book<O, K>)
where
    O::Alloc: Send + Sync,
{
    sends(book)
}

/// Checks that the book and its cells may be sent.
fn lend_all<O: Object + Send, K: BookName<O::Alloc> + Send>(driven: &DrivenBook<O, K>)
where
    O::Alloc: Send + Sync,
{
    lend_book(&driven.book);
    for cell in driven.cells.as_slice() {
        lend_cell(cell);
    }
}

/// Makes a cell and a book in this thread, and does and enters a step in another. Returns the step's result and the number
/// of places used, both seen from this thread.
fn stepped_there<O: Object + Send, K: BookName<O::Alloc> + Send + Sync, R: Threads + Sync>(
    rt: &R,
    alloc: O::Alloc,
    opening: Opening<O>,
) -> Result<(Result<(), Fault>, u32), Fault>
where
    O::Alloc: Send + Sync,
    requires { opening ≡ K.name }
{
    let mut driven = DrivenBook::<O, K>::new(alloc, opening)?;
    lend_all(&driven);
    let lent = &mut driven;
    let (done, ()) = thread::join(rt, move || lent.time(1), || ());
    let places = driven.book.places();
    drop(driven);
    Ok((done, places))
}

/// Does this for counters.
fn counted_there<R: Threads + Sync>(
    rt: &R,
    alloc: Global,
) -> Result<(Result<(), Fault>, u32), Fault> {
    let opening = Opening::<Counters>::new(alloc, Fixed::new(1)?)?;
    stepped_there::<Counters, Brand, R>(rt, alloc, opening)
}

#[test]
fn a_step_in_another_thread(rt: HostRuntime) {
    assert!(rt; counted_there(&rt, rt.alloc()) == Ok((Ok(()), 1)));
}
