//! A node that a program drives over a network of its own.
//!
//! The node receives frames and gives out frames with their receivers. It has no clock and no socket: the program
//! passes the time. The types of [`Driver`], a node, and [`ValidFrame`], a frame, keep them within the limits of
//! frames. So no call of this crate has a condition that its caller must meet.
//!
//! Rules: The replicated log 13 to 15, 18 and 20; A node with a clock 9
#![tactic(auto)]

mod driver;
mod valid_frame;

pub use driver::Driver;
pub use ring_clock::{
    NodeClock, Periods, StepOutcome, Timers, is_token_or_commit_token, step_outcome, timeout_in,
};
pub use ring_node::{Input, Node, OutgoingFrame, Outs};
pub use ring_order_proof::limit_laws::{call_fits_snapshot_law, node_fits_law};
pub use ring_order_proof::linear_laws::linear_law;
pub use valid_frame::ValidFrame;
