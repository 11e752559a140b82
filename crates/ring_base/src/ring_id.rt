//! The names of rings, and their order.
//!
//! Rules: Rings and states 1

ghost use Rattle.std.specs.Prelude.{◌≡◌, ◌↔◌, IsTrue};

use crate::processor::Proc;
use std::fmt::{self, Display};

/// `RingId`: the name of a ring: its number and its representative.
///
/// Rings are ordered by number, then by representative.
///
/// Rules: Rings and states 1
#[derive(Clone, Copy, Debug, PartialEq, Eq, PartialOrd, Ord)]
pub struct RingId {
    /// The ring's number, 0 to `MAX`.
    ///
    /// Only the ring of a node's opening has the number 0.
    pub seq: u64,
    /// The representative: the smallest member of the ring.
    pub rep: Proc,
}

impl RingId {
    ghost use Rattle.ring_base.specs.Rings.{IsBelow};

    /// Returns whether this ring is below `other`: it has a smaller number, or the same number and a smaller
    /// representative.
    ///
    /// Rules: Rings and states 1
    pub fn is_below(&self, other: &RingId) -> bool
        ensures { IsTrue result ↔ IsBelow self.now other.now }
    {
        self < other
    }
}

impl Display for RingId {
    ghost use Rattle.std.specs.Prelude.{Some};
    ghost use Rattle.ring_base.specs.Rings.{ring_text};

    ghost output = { λ ring. Some (ring_text ring) };

    /// Prints the number, a dot and the representative, as in `3.1`.
    fn fmt<W: fmt::Write>(&self, f: &mut fmt::Formatter<W>) -> fmt::Result {
        write!(f, "{}.{}", self.seq, self.rep)
    }
}
