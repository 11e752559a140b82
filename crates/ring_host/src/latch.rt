//! The latch that closes a host.
//!
//! Rules: The book and the threads 19 and 28

use std::sync::atomic::{AtomicBool, Ordering};

/// A latch: a flag that stays set once it is set.
///
/// The close of a host knows its latch by this trait alone. Only a call of `set` states that a latch was set, and only
/// the host has the latch to call it on. So no body of [`HostOf::close`](crate::HostOf::close) can leave it out.
///
/// Rules: The book and the threads 19 and 28
pub trait Latch {
    /// True of a latch that was set. Nothing but a call of `set` states it.
    ghost was_set: { Self → Type 0 } = { λ latch. Unit {0} };

    /// Sets the latch for good.
    ///
    /// Setting it again changes nothing. Takes no lock and does not allocate.
    ///
    /// Rules: The book and the threads 28
    fn set(&self)
        ensures { was_set self.now };
}

/// The latch of each host: an atomic flag that threads set and read without a lock.
///
/// Rules: The book and the threads 19 and 28
#[derive(Drop)]
pub struct AtomicLatch {
    /// Whether the latch is set.
    flag: AtomicBool,
}

impl AtomicLatch {
    /// Creates a latch that isn't set.
    ///
    /// Does not allocate.
    pub(crate) fn new() -> AtomicLatch {
        AtomicLatch {
            flag: AtomicBool::new(false),
        }
    }

    /// Returns whether the latch is set.
    pub(crate) fn is_set(&self) -> bool {
        self.flag.load(Ordering::SeqCst)
    }
}

impl Latch for AtomicLatch {
    fn set(&self) {
        self.flag.store(true, Ordering::SeqCst);
    }
}
