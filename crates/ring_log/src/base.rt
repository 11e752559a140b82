//! The base: the calls that a complete exchange hands out.
//!
//! Rules: The replicated log 6

use crate::snapshot::Snapshot;
use ring_wire::CallList;
use std::alloc::{Allocator, Global};

/// The outcome of a ring's exchange: the log that the owner had when it sent its Head.
///
/// Each member makes its log from it. The member keeps its own first `from` places, or takes the snapshot in their
/// place, and `calls` follow.
///
/// Rules: The replicated log 4 and 6
#[derive(Drop)]
pub struct Base<A: Allocator + Copy = Global> {
    /// The place of the first of `calls`, counted from 0. The base has no calls for the places before it.
    pub from: u64,
    /// A snapshot of the sessions after the first `from` places.
    ///
    /// There is one if the owner had dropped places that some member hasn't committed.
    pub snapshot: Option<Snapshot<A>>,
    /// The calls of the places from `from` on, in order.
    pub calls: CallList<A>,
}
