//! Configurations: rings with their members.
//!
//! Rules: Rings and states 2

use ring_wire::{ProcSet, RingId};

/// A configuration: the name of a ring, with the set of its members.
///
/// Rules: Rings and states 2
#[derive(Clone, Copy, Debug, PartialEq, Eq)]
pub struct Configuration {
    /// The name of the ring. Its representative is the smallest of `members`.
    pub ring: RingId,
    /// The members of the ring, at least one.
    pub members: ProcSet,
}
