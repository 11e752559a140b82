//! The lines of the book: the steps of a group's nodes, one after another.
//!
//! The crate defines which lists of lines are runs, finds the frames in them, and derives from them the answers, the
//! history and the one order.
//!
//! Rules: The book and the threads 9 to 11 and 15
#![tactic(auto)]

mod answers;
pub mod book_run_laws;
mod cause;
mod committed_segments;
mod encoded_frame;
mod frame_ref;
mod ghost_models;
mod histories;
mod input;
mod line;
mod line_frames;
mod orders;
mod received_frame;
mod step;

pub use answers::add_answers;
pub use cause::Cause;
pub use committed_segments::{LogSegment, extend_longest_log};
pub use encoded_frame::EncodedFrame;
pub use frame_ref::FrameRef;
pub use ghost_models::{FrameModel, StepModel};
pub use histories::history_of_lines;
pub use input::{LineInput, StepInput};
pub use line::{Line, has_bytes_at, is_deliverable};
pub use line_frames::{LineFrames, StoredFrames};
pub use orders::order_of_segments;
pub use received_frame::ReceivedFrame;
pub use ring_order_proof::limit_laws::{call_fits_snapshot_law, node_fits_law};
pub use ring_order_proof::linear_laws::linear_law;
pub use step::Step;
