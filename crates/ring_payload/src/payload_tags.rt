//! The tags of payloads: the first byte of a payload's encoding.
//!
//! Formats: Payloads

/// The tag of a Call: one call of a client.
///
/// Formats: Payloads
pub const CALL: u8 = 1;
/// The tag of a Wrapped: a message of an old ring, sent again.
///
/// Rules: Recovery 4
/// Formats: Payloads
pub const WRAPPED: u8 = 2;
/// The tag of an End: its sender has sent again all messages of its old ring that it had to send.
///
/// Rules: Recovery 4
/// Formats: Payloads
pub const END: u8 = 3;
/// The tag of a Head with a trimmed length of 0.
///
/// Formats: Payloads
pub const HEAD: u8 = 4;
/// The tag of a Part: consecutive places of a log.
///
/// Formats: Payloads
pub const PART: u8 = 5;
/// The tag of a Pack: a batch of calls.
///
/// Formats: Payloads
pub const PACK: u8 = 6;
/// The tag of a Head with a trimmed length above 0.
///
/// Formats: Payloads
pub const TRIMMED_HEAD: u8 = 7;
/// The tag of a Snap: a piece of a snapshot.
///
/// Formats: Payloads
pub const SNAP: u8 = 8;
