//! The order of last primaries.
//!
//! A node's last primary is the newest primary ring that it has adopted; at first there is none.
//!
//! Rules: Rings and states 1

ghost use Rattle.std.specs.Prelude.{◌↔◌, IsTrue};
ghost use Rattle.ring_base.specs.Rings.{IsPrimaryBelow};

use crate::ring_id::RingId;

/// Returns whether the last primary `last` is below `other`, in the order of rings.
///
/// `None` is below every ring.
///
/// Of two equal ones neither is below the other. The log compares received Heads by the same order, without moving
/// them: `ReceivedHead::is_chosen_after` of `ring_log`.
///
/// Rules: Rings and states 1
pub fn is_primary_below(last: Option<RingId>, other: Option<RingId>) -> bool
    ensures { IsTrue result ↔ IsPrimaryBelow last other }
{
    last < other
}
