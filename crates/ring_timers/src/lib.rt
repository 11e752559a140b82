//! The timers of a node that a program drives: when each of its four timeouts is due.
//!
//! The timers measure no time: the program passes the time, in milliseconds. Nothing here waits, allocates or fails.
//!
//! Rules: A node with a clock 1 to 8
#![tactic(auto)]

mod periods;
mod step_outcome;
mod timers;
mod timers_laws;

pub use periods::Periods;
pub use step_outcome::StepOutcome;
pub use timers::Timers;
pub use timers_laws::{timers_examples_law, timers_law};
