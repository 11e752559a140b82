//! A live run: nodes and clients on threads, the calls that were answered, and whether the history is legal.
//!
//! Rules: The book and the threads 28 and 35; Sessions 10
//! Formats: The command line
#![tactic(auto)]

mod live_caller;
mod printing;
mod running;

pub use printing::live;
pub use running::{LiveResult, run_live_nodes};
