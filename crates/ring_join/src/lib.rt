//! Gather: how processors that hear each other's joins agree on the members of a new ring.
//!
//! Rules: Gather 1 to 6, 9, 10 and 14
#![tactic(auto)]

mod gather;
mod join_effect;
mod laws;

pub use gather::Gather;
pub use join_effect::JoinEffect;
pub use laws::consensus_test_law;
