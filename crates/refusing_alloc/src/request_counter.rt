//! Requests for memory, numbered from 0 in the order in which they come.
//!
//! One of them is refused.
ghost use Rattle.std.specs.Prelude.{◌≡◌, ◌<◌, ◌↔◌, IsTrue};

use std::sync::atomic::{AtomicU64, Ordering};

/// A counter of requests that threads may share, which also has the number of the request to refuse.
///
/// Requests are numbered from 0.
#[derive(Drop)]
pub struct RequestCounter {
    made: AtomicU64,
    refused: u64,
}

impl RequestCounter {
    /// Returns a counter that has counted no request yet, and refuses request `refused`, counted from 0.
    pub fn refusing_request(refused: u64) -> RequestCounter
        ensures { result.refused ≡ refused }
    {
        RequestCounter {
            made: AtomicU64::new(0),
            refused,
        }
    }

    /// Counts a request, and returns whether it is the one to refuse.
    ///
    /// Exactly one call returns true, whichever thread makes it.
    pub fn count_and_is_refused(&self) -> bool {
        let number = self.made.fetch_add(1, Ordering::SeqCst);
        is_refused(number, self.refused)
    }

    /// Returns the number of requests counted so far, including the refused one.
    pub fn counted_requests(&self) -> u64 {
        self.made.load(Ordering::SeqCst)
    }

    /// Returns whether the request to refuse has been counted.
    pub fn has_reached_refused(&self) -> bool {
        is_counted(self.refused, self.counted_requests())
    }
}

/// Returns whether request `number` is the one to refuse.
fn is_refused(number: u64, refused: u64) -> bool
    ensures { IsTrue result ↔ (number ≡ refused) }
{
    number == refused
}

/// Returns whether request `number`, counted from 0, is among the first `made` requests.
fn is_counted(number: u64, made: u64) -> bool
    ensures { IsTrue result ↔ (number < made) }
{
    made > number
}
