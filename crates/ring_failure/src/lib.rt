//! How the program ends: the reason for ending early, the line on standard error that reports it, and the exit status.
//!
//! Also a slot for a borrowed writer, the progress of long work, and the names of the states.
//!
//! Formats: The command line
#![tactic(auto)]

mod failure;
mod progress_meter;
mod state_names;
mod status;
mod work_shares;
mod writer_slot;

pub use failure::{Failure, exit_status, output_result, report_failure};
pub use progress_meter::ProgressMeter;
pub use state_names::state_name;
pub use status::{BAD_COMMAND_LINE, FAILED, NOT_LEGAL};
pub use work_shares::{round_end, share_begin};
pub use writer_slot::{WriterSlot, fill_slot};
