//! Scripts generated from seeds: scenarios in which rings form, split and merge, and clients call and retry.
//!
//! A seed gives the same script on every machine.
//!
//! Formats: The command line
#![tactic(auto)]

mod draws;
mod generated_line;
mod generation;
mod operation;
mod scenario;
mod scenarios;
mod script_builder;
mod sides;

pub use generation::{MAX_LINES, generate, generate_by, generate_script, generate_script_by};
