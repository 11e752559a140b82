//! The log's length after each message that isn't safe yet, from which a safe mark determines the committed length.
//!
//! Rules: The replicated log 12

ghost use Rattle.std.specs.Prelude.{◌≡◌, IfOk};
ghost use Rattle.ring_replication.specs.Replications.{covered_places, watermarks_above};

use std::alloc::{AllocError, Allocator};
use std::collections::VecDeque;

/// A message that isn't safe yet, with the log's length after it.
///
/// Once the message is safe, the committed length is at least that length.
///
/// Rules: The replicated log 12
#[derive(Clone, Copy)]
pub struct LogWatermark {
    /// The message's number in the ring.
    pub number: u64,
    /// The log's length after the message, including dropped places, or 0 before the exchange is complete.
    pub places: u64,
}

/// Removes the watermarks of messages numbered at most `mark`, and returns the last one's `places`, or 0 if there is
/// none.
///
/// Rules: The replicated log 12
pub(crate) fn pop_covered<A: Allocator + Copy>(
    watermarks: &mut VecDeque<LogWatermark, A>,
    mark: u64,
) -> u64
    ensures places { result ≡ covered_places mark 0 watermarks.old.items }
    ensures left { watermarks.new.items ≡ watermarks_above mark watermarks.old.items }
{
    let mut places = 0;
    for _ in 0..watermarks.len() {
        let first = watermarks[0];
        if first.number > mark {
            return places;
        }
        places = first.places;
        watermarks.pop_front();
    }
    places
}

/// Returns a copy of the watermarks, in order.
///
/// Errors: `AllocError` if an allocation fails.
pub(crate) fn copy_watermarks<A: Allocator + Copy>(
    watermarks: &VecDeque<LogWatermark, A>,
) -> Result<VecDeque<LogWatermark, A>, AllocError>
    ensures { IfOk result (λ copy. copy.items ≡ watermarks.now.items) }
{
    watermarks.clone()
}
