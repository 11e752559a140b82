//! The nodes of a book on threads.
//!
//! Each node's cell has a lock and an inbox; the book has a lock; a gauge holds the committed lengths.
//!
//! Rules: The book and the threads 19 to 36; Limits 3
#![tactic(auto)]

mod answer_cache;
mod construction;
mod event_count;
mod gate;
mod gated_turn;
mod host;
mod inbox;
mod inbox_frame_and_task;
mod latch;
mod locked_node;
mod locked_step;
mod locked_submit;
mod locking;
mod node_threads;
mod paced_gate;
mod pacing;
mod turn;

pub use answer_cache::AnswerCache;
pub use gate::{Gate, GatePlace, OpenGate, TurnActivity};
pub use host::{Host, HostOf, HostTicket};
pub use inbox_frame_and_task::InboxFrame;
pub use latch::{AtomicLatch, Latch};
pub use locked_node::LockedNode;
pub use paced_gate::PacedGate;
pub use ring_book::{Book, BookName, Cause, Opening, linear_law};
pub use ring_seat::{Gauge, Seat};
pub use turn::Turn;

/// The maximum number of items of an inbox, and the number for which [`HostOf::new`] allocates.
///
/// A full inbox drops what is pushed to it.
///
/// Rules: The book and the threads 23; Limits 1 and 2
pub const INBOX: usize = 1024;
