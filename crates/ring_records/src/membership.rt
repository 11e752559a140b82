//! The members of a ring, as records report them.
//!
//! Rules: Nodes that records drive 3 and 7
//! Formats: Records

ghost use Rattle.std.specs.Prelude.{◌≡◌};
ghost use Rattle.ring_records.specs.NodeRecords.{flag_byte_of, membership_bytes};

use byteorder::{BigEndian, ByteOrder};
use ring_base::ProcSet;

/// The members of a ring, and whether they are primary.
///
/// Rules: Nodes that records drive 7; Processors and sets 3 and 4
/// Formats: Records
#[derive(Clone, Copy, Debug, PartialEq, Eq)]
pub struct Membership {
    pub members: ProcSet,
    pub is_primary: bool,
}

impl Membership {
    /// Returns the encoding in a record: the set in 2 bytes, big-endian, then 1 if the members are primary, otherwise
    /// 0.
    ///
    /// Formats: Records
    pub(crate) fn encode_membership(self) -> [u8; 3]
        ensures { result ≡ membership_bytes self }
    {
        let mut bytes = [0; 3];
        BigEndian::write_u16(&mut bytes[..2], self.members.bits());
        bytes[2] = flag_byte(self.is_primary);
        bytes
    }
}

/// Returns 1 if the flag is set, otherwise 0.
pub(crate) fn flag_byte(is_set: bool) -> u8
    ensures { result ≡ flag_byte_of is_set }
{
    if is_set { 1 } else { 0 }
}
