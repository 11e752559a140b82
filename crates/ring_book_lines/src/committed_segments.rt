//! The longest committed log of all nodes, as segments of lines.
//!
//! Rules: Sessions 10

ghost use Rattle.std.specs.Prelude.{◌≡◌, ◌<◌, vec_len, vec_capacity};
ghost use Rattle.ring_book_lines.specs.Logs.{log_after_step};

use crate::step::Step;
use std::alloc::Allocator;

/// A segment of the longest committed log: the calls that a line newly committed, from index `from` on.
///
/// Rules: Sessions 10
#[derive(Clone, Copy, Debug, PartialEq, Eq)]
pub struct LogSegment {
    /// The number of the line in the book's list, counted from 0.
    pub line: u32,
    /// The index of the first call among the line's committed calls, counted from 0.
    pub from: usize,
}

/// Extends the longest committed log by line `number`, which records `step`.
///
/// `total` is the log's number of places, and `segments` are its segments. If the step's node has now committed more
/// than `total` places, the step's calls at the places after them become a new last segment, and `total` becomes the
/// node's committed length. Otherwise nothing changes. There must be room for one more segment. Does not allocate.
///
/// Rules: Sessions 10
pub fn extend_longest_log<A: Allocator + Copy + Drop>(
    total: &mut usize,
    segments: &mut Vec<LogSegment, A>,
    number: u32,
    step: &Step<A>,
)
    requires { vec_len segments.old < vec_capacity segments.old }
    ensures log { record { total = total.new; segments = segments.new.items } ≡ log_after_step number
        (record { total = total.old; segments = segments.old.items }) step.now }
    ensures capacity { vec_capacity segments.new ≡ vec_capacity segments.old }
{
    if *total < step.committed {
        let beyond = step.committed - *total;
        let from = step.calls.len().saturating_sub(beyond);
        segments.push_reserved(LogSegment { line: number, from });
        *total = step.committed;
    }
}
