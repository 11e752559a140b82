//! A trace as JSON: one object per line, with the version of the format and the kind of the line.
//!
//! Formats: The command line
#![tactic(auto)]

mod change_and_report_values;
mod event_details;
mod json_lines;
mod json_printer;

pub use event_details::{EventDetails, InputValue, SendValue, TurnValue};
pub use json_printer::JsonPrinter;
