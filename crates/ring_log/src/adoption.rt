//! The outcome of adopting a base.
//!
//! Rules: The replicated log 6, 8 and 9

use crate::log::Log;
use crate::snapshot::Snapshot;
use std::alloc::{Allocator, Global};

/// The outcome of [`Log::adopt`](crate::Log::adopt): whether the log adopted the base, and how.
///
/// Rules: The replicated log 6 and 8
#[derive(Drop)]
pub enum Adoption<A: Allocator + Copy = Global> {
    /// The base may not be adopted. The log is unchanged.
    ///
    /// Rules: The replicated log 8 and 9
    Refused,
    /// The log kept its own places below the base's `from`, and the base's calls follow them.
    ///
    /// Rules: The replicated log 6
    Joined,
    /// The log was restored: the places that the snapshot replaces are treated as dropped, and the base's calls follow
    /// them.
    ///
    /// The fields are the snapshot, and the log as it was before.
    ///
    /// Rules: The replicated log 6
    Restored(Snapshot<A>, Log<A>),
}
