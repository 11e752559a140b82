//! What is counted of a node's steps, for a person who watches it: frames by kind, tokens, what was sent again, rings
//! and calls.
//!
//! Nothing here waits, allocates or refuses.
//!
//! Formats: Records
#![tactic(auto)]

mod counted;
mod frame_counts;
mod node_counts;

pub use counted::{CountedFrame, CountedInput};
pub use frame_counts::FrameCounts;
pub use node_counts::{NodeCounts, NodeGauges};
