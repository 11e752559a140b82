//! The limits that hold in all of Totem.
//!
//! Rules: Limits 1

/// The maximum number of processors of a group, which is also the greatest processor number.
///
/// Rules: Limits 1
pub const MAX_PROCESSORS: u8 = 16;

/// [`MAX_PROCESSORS`] as a `usize`: the length of an array that has an element for each processor.
///
/// Rules: Limits 1
pub const PROCESSORS: usize = MAX_PROCESSORS as usize;

/// The greatest number of a ring, a message, a token or a ticket: 2^62.
///
/// A log has at most this many places.
///
/// Rules: Limits 1 and 2
pub const MAX: u64 = 1 << 62;

/// The length of the window: a node takes only messages whose numbers are among the 256 after its safe mark.
///
/// Rules: Token and window 4
pub const WINDOW_SIZE: u64 = 256;

/// The maximum number of new messages that a node sends in one visit of the token.
///
/// Repeated messages don't count.
///
/// Rules: Token and window 9
pub const VISIT_LIMIT: u64 = 8;

/// The maximum length in bytes of an encoded frame, including its head of 8 bytes.
///
/// Rules: Limits 1
/// Formats: Frames
pub const MAX_FRAME_BYTES: usize = 8192;
