//! The old ring's messages that a node delivers when a new ring is installed.
//!
//! Rules: Recovery 8 and 9

use crate::numbers::NumberSet;

/// The numbers of the old ring's messages that a node delivers when it installs the new ring, in three lists.
///
/// Each list is ascending and has at most 256 numbers. No number is in two of them. Messages of any payload are listed.
///
/// Rules: Recovery 8 and 9
#[derive(Drop)]
pub struct Delivery {
    /// The numbers above the least safe mark that a transitional member reported, up to the greatest one.
    ///
    /// Their messages are safe in the old regular configuration.
    pub regular: NumberSet,
    /// The reported numbers above the greatest reported safe mark and below the gap.
    ///
    /// The gap is the least number, from 1 on, that no transitional member reported as held. The messages are delivered
    /// in the transitional configuration.
    pub transitional: NumberSet,
    /// The reported numbers above the gap whose messages a transitional member sent.
    ///
    /// The messages are delivered in the transitional configuration too.
    pub past_gap: NumberSet,
}
