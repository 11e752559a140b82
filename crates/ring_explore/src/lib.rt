//! The command `explore`: scripts are generated from many seeds, run and checked, by many threads.
//!
//! Formats: The command line
#![tactic(auto)]

mod explore_totals;
mod exploring;
mod plan;
mod seed_run;

pub use exploring::{explore, explore_of};
pub use plan::ExplorePlan;
