//! The ring core: one processor's part in the rings, as a state machine that takes one input and returns its outputs.
//!
//! It has no clock and no network.
//!
//! Rules: Rings and states 5 and 8 to 14; Timeouts 1 to 6; Outputs 1 and 2; Refusals 4 to 6
#![tactic(auto)]

mod srp;
mod stepping;

pub use ring_core_spec::{Input, Out};
pub use srp::Srp;
