//! An event count: threads wait on it, and a notification wakes them all.

use std::sync::Wait;
use std::sync::atomic::{AtomicU64, Ordering};
use std::time::Duration;

/// The factor of the counter's high half.
///
/// A thread waits on the low half.
const WAIT_WORD_RANGE: u64 = 1 << 32;

/// A counter of notifications on which threads wait.
///
/// It only rises, and starts at 0.
#[derive(Drop)]
pub(crate) struct EventCount {
    /// The number of notifications.
    count: AtomicU64,
    /// The number of threads that wait or are about to.
    waiters: AtomicU64,
}

impl EventCount {
    /// Creates an event count without notifications or waiters.
    ///
    /// Does not allocate.
    pub(crate) fn new() -> EventCount {
        EventCount {
            count: AtomicU64::new(0),
            waiters: AtomicU64::new(0),
        }
    }

    /// Returns the number of notifications so far, which a thread reads before it checks whether it has to wait.
    pub(crate) fn count(&self) -> u64 {
        self.count.load(Ordering::SeqCst)
    }

    /// Returns whether a thread waits for a notification or is about to.
    pub(crate) fn has_waiters(&self) -> bool {
        self.waiters.load(Ordering::SeqCst) > 0
    }

    /// Counts a notification and wakes all threads that wait for one.
    pub(crate) fn notify_all(&self) {
        self.count.fetch_add(1, Ordering::SeqCst);
        if self.has_waiters() {
            self.count.wake_all();
        }
    }

    /// Waits until a notification comes, for at most the duration `most`.
    ///
    /// `count` is the number of notifications that the thread read before. If there have been more since, it returns at
    /// once. Waits may end spuriously.
    pub(crate) fn wait<W: Wait>(&self, rt: &W, count: u64, most: Duration) {
        self.prepare_wait();
        self.park(rt, count, most);
        self.finish_wait();
    }

    /// Counts this thread as a waiter, before it waits, so that notifications wake it.
    pub(crate) fn prepare_wait(&self) {
        self.waiters.fetch_add(1, Ordering::SeqCst);
    }

    /// Removes this thread from the waiters, whether it has waited or not.
    pub(crate) fn finish_wait(&self) {
        self.waiters.fetch_sub(1, Ordering::SeqCst);
    }

    /// Waits as `wait` does, for a thread that is already counted as a waiter.
    pub(crate) fn park<W: Wait>(&self, rt: &W, count: u64, most: Duration) {
        self.count
            .park_timeout(rt, (count % WAIT_WORD_RANGE) as u32, most);
    }
}
