//! The book and its cells, each of which is what a lock holds.
//!
//! A cell is a node with its journal. The book is the list of all steps of the nodes, and that list is always a run.
//!
//! Rules: The book and the threads 9 to 18
#![tactic(auto)]

mod answer_indexes;
mod book;
mod book_name;
mod cell;
mod journal_writer;
mod opening;

pub use book::{Book, Place};
pub use book_name::BookName;
pub use cell::Cell;
pub use opening::Opening;
pub use ring_book_lines::{Cause, FrameRef, Line, LineFrames, linear_law};
pub use ring_node::Node;
pub use ring_node_spec::Input;

/// The maximum number of places in a book, used and reserved together.
///
/// A line uses one place for good.
///
/// Rules: The book and the threads 15; Limits 1 and 2
pub const PLACES: u32 = 262144;
