//! Taking a host's locks: a thread tries for a short time before it sleeps.

use std::hint::spin_loop;
use std::sync::{Mutex, MutexGuard, Wait};

/// The number of attempts to take a lock before the thread sleeps.
const LOCK_ATTEMPTS: u32 = 30;

/// The number of pauses after each failed attempt.
const SPINS_PER_ATTEMPT: u32 = 10;

/// Takes a lock that is held for short times, and returns its guard.
///
/// Sleeping for it and waking takes longer than the work done under it. While one thread sleeps, [`Mutex::lock`] makes
/// all later ones sleep too. So the thread tries for some time first, with pauses. A thread that yielded instead would
/// run again late on a loaded machine.
pub(crate) fn lock_after_spinning<'a, T, W: Wait>(rt: &W, lock: &'a Mutex<T>) -> MutexGuard<'a, T> {
    for _ in 0..LOCK_ATTEMPTS {
        if let Some(guard) = lock.try_lock() {
            return guard;
        }
        spin();
    }
    lock.lock(rt)
}

fn spin() {
    for _ in 0..SPINS_PER_ATTEMPT {
        spin_loop();
    }
}
