//! Recovery: how the members that come from one old ring bring its messages together before a new ring is installed.
//!
//! These are the transitional members. The crate says which messages they pass on to each other, when the new ring may
//! be installed, and what each of them then delivers of the old one.
//!
//! Rules: Recovery 1, 2, 4 to 9 and 11
#![tactic(auto)]

mod delivery;
mod ends;
mod history;
mod laws;
mod numbers;
mod offsets;
mod payload_kinds;
mod plan;
mod reports;
mod unwrapping;
mod wrapping;

pub use delivery::Delivery;
pub use ends::EndCounts;
pub use laws::{finish_law, plan_law};
pub use numbers::{NumberIterator, NumberSet};
pub use payload_kinds::is_user_payload;
pub use plan::{Plan, PlanHistory};
pub use ring_commit::Configuration;
pub use ring_window::{held_bits_law, unique_front_law};
pub use unwrapping::unwrap;
pub use wrapping::wrap;
