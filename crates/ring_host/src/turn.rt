//! The report of one turn.
//!
//! Rules: The book and the threads 21

/// The report of a turn that succeeded.
///
/// Rules: The book and the threads 21
#[derive(Clone, Copy, Debug, PartialEq, Eq)]
pub struct Turn {
    /// The number of copies of sent frames that were dropped because an inbox was full or an allocation failed.
    pub dropped: u32,
    /// The node's committed length that the turn published, dropped places included, or `None` if the turn found
    /// nothing to do.
    pub length: Option<u64>,
}
