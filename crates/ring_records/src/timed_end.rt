//! The addition of a node with a clock to the record `E`.
//!
//! Rules: Nodes that records drive 3 and 7
//! Formats: Records

ghost use Rattle.std.specs.Prelude.{◌≡◌};
ghost use Rattle.ring_records.specs.NodeRecords.{timed_end_bytes};

use crate::membership::flag_byte;
use byteorder::{BigEndian, ByteOrder};

/// What a node with a clock appends to the record `E`: whether a token brought anything, and the next time.
///
/// Rules: Nodes that records drive 7
/// Formats: Records
#[derive(Clone, Copy, Debug, PartialEq, Eq)]
pub struct TimedEnd {
    /// Whether the input was a token that the node took and that brought anything, so that the node isn't idle.
    pub has_progressed: bool,
    /// The earliest time at which a timeout is due, in milliseconds.
    ///
    /// It saturates at `u64::MAX`.
    pub next_time: u64,
}

impl TimedEnd {
    /// Returns the encoding in a record: 1 if the token brought anything, otherwise 0, then the time in 8 bytes,
    /// big-endian.
    ///
    /// Formats: Records
    pub(crate) fn encode_timed_end(self) -> [u8; 9]
        ensures { result ≡ timed_end_bytes self }
    {
        let mut bytes = [flag_byte(self.has_progressed); 9];
        BigEndian::write_u64(&mut bytes[1..], self.next_time);
        bytes
    }
}
