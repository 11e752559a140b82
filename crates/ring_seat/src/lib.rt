//! A host thread's own state, which is its seat, and the gauge that all seats share.
//!
//! A seat counts turns, knows what it published and saw at the gauge, and has room for the frames that a turn sends.
//! The gauge holds, for each node, the greatest length published for it. Nothing here waits. Once the seats are made,
//! only the outbox allocates.
//!
//! Rules: The book and the threads 30 to 34
#![tactic(auto)]

mod gauge;
mod gauge_rule;
mod outbox;
mod outbox_frames;
mod seat;
mod turn_clock;

pub use gauge::Gauge;
pub use outbox::Outbox;
pub use outbox_frames::{OutboxFrame, OutboxFrames};
pub use seat::Seat;
pub use turn_clock::TurnClock;
