//! The linearizability checker, which decides whether one order of calls is a linearization of a history.
//!
//! Rules: Sessions 10
#![tactic(auto)]

mod check;
mod index;

pub use check::is_linearization;
