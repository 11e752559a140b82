//! The commit token: how a ring is proposed, and how its commit token goes twice round the members.
//!
//! Rules: The commit token 1, 2, 4 to 9 and 11
#![tactic(auto)]

pub mod configuration;
pub mod outcome;
mod rounds;

pub use configuration::Configuration;
pub use outcome::CommitOutcome;
pub use ring_wire::{CommitEntry, CommitToken, Entries};
pub use rounds::{
    fill, greatest_reported_mark, is_first_round, is_second_round, is_start, is_token_at, learn,
    propose, receiver, start,
};
