//! The program `totem` over any files and writers: parses a command line and runs its command.
//!
//! Formats: The command line
#![tactic(auto)]

mod command_forms;
mod command_line;
mod commands;
mod listings;
mod node;
mod periods;
mod scripts;
mod seeds;
mod timing;
mod traces;
mod usage_errors;
mod value_names;
mod votes;

pub use commands::{run, run_of, words_of};
