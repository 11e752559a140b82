//! The part of the owner's log that an exchange transfers.
//!
//! Rules: The replicated log 4

use ring_base::Proc;

/// The owner of an exchange, and the part of its log that the exchange transfers: the places `from` to `to` - 1.
///
/// No place is wanted if `to` is at most `from`.
///
/// Rules: The replicated log 4
#[derive(Clone, Copy, Debug, PartialEq, Eq)]
pub struct Wanted {
    /// The member whose places are wanted: the sender of the chosen head.
    pub owner: Proc,
    /// The number of places that the snapshot replaces, which is `from`, if a snapshot is wanted besides.
    ///
    /// `None` if the owner has dropped no place that some member hasn't committed.
    pub snapshot: Option<u64>,
    /// The first wanted place, counted from 0.
    pub from: u64,
    /// The place after the last wanted one: the length of the owner's log.
    pub to: u64,
}
