//! The names of books.
//!
//! Rules: The book and the threads 12

use std::marker::Brand;

/// The name of an opening and its book, in the types of the book and of its cells.
///
/// So a book and a cell of two openings can't be used together. A program chooses the name when it calls a function
/// that is generic over it, with `std::marker::Brand`. `A` is the allocator of the journals.
///
/// Rules: The book and the threads 12
pub trait BookName<A> {
    ghost use Rattle.ring_book.specs.JournalEnds.{Name};

    ghost name: { Name A };
}

impl<A> BookName<A> for Brand {
    ghost use Rattle.std.specs.Prelude.{[]};

    ghost name = { record { group = record { count = 0; votes = [] }; rings = [] } };
}
