//! The request that a record makes of a node.
//!
//! Rules: Nodes that records drive 2
//! Formats: Records

ghost use Rattle.std.specs.Prelude.{◌≡◌, ◌≤◌, drop, length, IfSome, IfNone};
ghost use Rattle.ring_records.specs.RecordRequests.{IsRequest, kind_number};
ghost use Rattle.ring_records.specs.declared.record_requests.RecordRequest.{RecordRequest as OneRequest};

use crate::kinds;
use byteorder::{BigEndian, ByteOrder};
use ring_base::Kind;

/// The length in bytes of a call's record before its operation: the client (4) and the number (8).
const CALL_HEAD: usize = 12;

/// The request that a record makes of a node.
///
/// Rules: Nodes that records drive 2
/// Formats: Records
#[derive(Clone, Copy, Debug, PartialEq, Eq)]
pub enum RecordRequest {
    /// A frame was received: the one that the record's bytes encode.
    ///
    /// Bytes that don't encode a frame are noise.
    Frame,
    /// A timeout of this kind is due.
    Timeout(Kind),
    /// A client submits its call of this number.
    ///
    /// The operation is the rest of the bytes: [`operation_in`].
    Call { client: u32, number: u64 },
    /// The node stops for good.
    Stop,
    /// The node reports its status.
    ///
    /// Nothing changes.
    Status,
    /// The node reports its counts.
    ///
    /// Nothing changes.
    Counts,
    /// The time now, in milliseconds.
    Time(u64),
}

/// Decodes the request in a record with this kind and these bytes.
///
/// Returns `None` if the kind is unknown, or no record of this kind has such bytes. A frame's encoding, a call's number
/// and the length of its operation aren't checked.
///
/// Rules: Nodes that records drive 2
/// Formats: Records
pub fn record_request(kind: u8, bytes: &[u8]) -> Option<RecordRequest>
    ensures asks { IfSome result (λ asked. IsRequest kind bytes.now asked) }
    ensures nothing { IfNone result ((asked : OneRequest) → ¬ IsRequest kind bytes.now asked) }
{
    match kind {
        kinds::FRAME => Some(RecordRequest::Frame),
        kinds::TIMEOUT => timeout_request(bytes),
        kinds::CALL => call_request(bytes),
        kinds::STOP if bytes.is_empty() => Some(RecordRequest::Stop),
        kinds::STATUS if bytes.is_empty() => Some(RecordRequest::Status),
        kinds::COUNTS if bytes.is_empty() => Some(RecordRequest::Counts),
        kinds::TIME if bytes.len() == 8 => Some(RecordRequest::Time(BigEndian::read_u64(bytes))),
        _ => None,
    }
}

/// Decodes a timeout: one byte, the number of its kind.
///
/// `None` if there isn't exactly one byte, 0 to 3.
fn timeout_request(bytes: &[u8]) -> Option<RecordRequest>
    ensures asks { IfSome result (λ asked. IsRequest 84 bytes.now asked) }
    ensures nothing { IfNone result ((asked : OneRequest) → ¬ IsRequest 84 bytes.now asked) }
{
    if bytes.len() != 1 {
        return None;
    }
    match bytes[0] {
        0 => Some(RecordRequest::Timeout(Kind::Retransmit)),
        1 => Some(RecordRequest::Timeout(Kind::Join)),
        2 => Some(RecordRequest::Timeout(Kind::Consensus)),
        3 => Some(RecordRequest::Timeout(Kind::Loss)),
        _ => None,
    }
}

/// Decodes the client and the number of a call.
///
/// `None` if there are fewer than 12 bytes.
fn call_request(bytes: &[u8]) -> Option<RecordRequest>
    ensures asks { IfSome result (λ asked. IsRequest 67 bytes.now asked) }
    ensures nothing { IfNone result ((asked : OneRequest) → ¬ IsRequest 67 bytes.now asked) }
{
    if bytes.len() < CALL_HEAD {
        return None;
    }
    let client = BigEndian::read_u32(&bytes[..4]);
    let number = BigEndian::read_u64(&bytes[4..]);
    Some(RecordRequest::Call { client, number })
}

/// Returns the operation in the bytes of a call's record: all after the first 12, which must exist.
///
/// Formats: Records
pub fn operation_in(bytes: &[u8]) -> &[u8]
    requires { 12 ≤ length bytes.now }
    ensures { result.now ≡ drop 12 bytes.now }
{
    &bytes[CALL_HEAD..]
}
