//! The payloads of messages: calls, one by one or in packs, heads and parts of logs, pieces of snapshots, and messages
//! of an old ring that are sent again.
//!
//! A type has a public field for each entry of its layout, except counts and lengths.
//!
//! Formats: Payloads
#![tactic(auto)]

mod call;
mod calls;
mod content;
mod frame_versions;
mod head;
mod operation;
mod payload_equality;
mod payload_tags;
mod piece;
mod snap;

pub use call::Call;
pub use calls::{CallList, MAX_PACK_BYTES, MAX_PACK_CALLS, MAX_PART_CALLS, Pack, Part};
pub use content::{Payload, Wrapped, WrappedPayload};
pub use frame_versions::FIRST_VERSION;
pub use head::Head;
pub use operation::{CallOperation, MAX_OPERATION};
pub use payload_equality::{are_same_calls, is_call_prefix};
pub use piece::PieceBytes;
pub use ring_codec::{
    Decode, Encode, EncodedNumbers, Fault, Ghost, MAX, PROCESSORS, Proc, ProcSet, Reader, RingId,
    WINDOW_SIZE, Wire, decode_length_prefixed, decode_list_into, encode_length_prefixed,
    encode_list, ghost_of,
};
pub use snap::{MAX_PIECE_BYTES, MAX_SNAPSHOT, Snap};
