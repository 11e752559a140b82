//! A node that another program drives with records.
//!
//! Each input record is a frame, a timeout, a call, a stop, a query or a time; its outputs are written as records, in
//! order, before the next input record is taken.
//!
//! Rules: Nodes that records drive 1 to 5, 7 and 8
//! Formats: Records
#![tactic(auto)]

mod buffered_node;
mod encoded;
mod encoding_node;
mod frame_inputs;
mod laws;
mod record_node;
mod serving;

pub use buffered_node::BufferedNode;
pub use laws::token_law;
pub use record_node::RecordNode;
pub use ring_clock::Periods;
pub use serving::{serve, serve_with_periods};
