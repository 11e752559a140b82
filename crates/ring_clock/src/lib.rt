//! The clock of a node that a program drives.
//!
//! It has the node's timers, from the first time that the program passes, and derives from each step what restarts
//! them. Nothing here waits, allocates or fails.
//!
//! Rules: A node with a clock 5 and 9; Nodes that records drive 3
#![tactic(auto)]

mod node_clock;
mod step_outcome_of;

pub use node_clock::NodeClock;
pub use ring_timers::{Periods, StepOutcome, Timers};
pub use step_outcome_of::{has_sent_frame, is_token_or_commit_token, step_outcome, timeout_in};
