//! Records, by which another program drives a node: a kind, a length and bytes.
//!
//! This crate reads a record, decodes the request in it, and writes the records of a node's outputs.
//!
//! Rules: Nodes that records drive 1 to 3 and 7
//! Formats: Records
#![tactic(auto)]

mod encoding;
mod kinds;
mod membership;
mod node_records;
mod reading;
mod record_requests;
mod timed_end;
mod token_outcome;
mod writing;

pub use encoding::encode_frame_record;
pub use membership::Membership;
pub use node_records::{
    write_all_committed, write_answers, write_counts, write_end, write_members, write_refusal,
    write_restored, write_status_record, write_ticket,
};
pub use reading::{MAX_RECORD_BYTES, read_record};
pub use record_requests::{RecordRequest, operation_in, record_request};
pub use timed_end::TimedEnd;
pub use token_outcome::TokenOutcome;
