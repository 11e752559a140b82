//! Objects to replicate: registers, counters, a queue, a set of names, and a shelf of any four objects.
//!
//! Operations, replies and snapshots are bytes; each type lists its own in hexadecimal. A key is one byte, a value 8
//! bytes, and all numbers are big-endian. Bytes that aren't an operation change nothing, and the reply to them is `FF`.
//! In `specs/` each object is a table: how an operation is decoded, the reply to it, and the content after it.
//! [`Table`] is the content of registers and counters; user-defined objects may use it too.
//!
//! Rules: Objects 1 to 6
//! Formats: Operations and replies, Snapshots
#![tactic(auto)]

mod counters;
mod encoded_numbers;
mod keyed_operation;
mod names;
mod operations;
mod queue;
mod registers;
mod replies;
mod shelf;
mod table;
mod typed_replies;

pub use counters::Counters;
pub use keyed_operation::KeyedOperation;
pub use names::Names;
pub use operations::{Operation, ShelfOperation};
pub use queue::Queue;
pub use registers::Registers;
pub use replies::{Outcome, ReplyParts, outcome_reply, outcome_reply_with};
pub use shelf::{Shelf, ShelfPosition, StandardObjects};
pub use table::Table;
pub use typed_replies::{done, done_with, not_done_with, reply_of};
