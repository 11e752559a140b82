//! Frames, and how they are encoded: every frame has exactly one encoding, and no encoding is a prefix of another.
//!
//! Formats: Frames; The commit entry
#![tactic(auto)]

mod checked_value;
mod commit;
mod commit_box;
mod entries;
mod frame;
mod frame_equality;
mod join;
mod message;
mod requests;
mod token;

pub use commit::CommitToken;
pub use commit_box::BoxedCommitToken;
pub use entries::{CommitEntry, Entries};
pub use frame::{Frame, decode_frame, encoding_law, frame_length_law, unique_encoding_law};
pub use join::Join;
pub use message::Message;
pub use requests::{MAX_REQUESTS, Requests};
pub use ring_payload::{
    Call, CallList, Ghost, Head, MAX, MAX_PART_CALLS, MAX_PIECE_BYTES, MAX_SNAPSHOT, Part, Payload,
    PieceBytes, Proc, ProcSet, RingId, Snap, Wire, Wrapped, WrappedPayload, ghost_of,
};
pub use token::Token;
