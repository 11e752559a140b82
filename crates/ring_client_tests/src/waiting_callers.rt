//! A caller that waits for another one, in runs of which each request for memory is refused in turn.
//!
//! Rules: The book and the threads 28; Refusals 3

use refusing_alloc::RefusingHeap;
use ring_base::{Fault, Fixed};
use ring_client::{Client, Port};
use ring_client_threads::{Caller, run_callers};
use ring_object::Object;
use ring_things::Counters;
use std::alloc::{Allocator, Global};
use std::sync::Wait;
use std::sync::atomic::{AtomicU64, Ordering};
use std::thread::{self, Threads};

/// A client that makes no calls.
#[derive(Drop)]
struct WaitingCaller<'a, W: Wait> {
    rt: &'a W,
    /// Whether `make_calls` waits until no other client runs.
    waits: bool,
    /// The number of clients that have not ended.
    running: &'a AtomicU64,
    /// The number of times that `after_calls` was called.
    ends: AtomicU64,
}

impl<'a, W: Wait> WaitingCaller<'a, W> {
    fn new(rt: &'a W, waits: bool, running: &'a AtomicU64) -> WaitingCaller<'a, W> {
        WaitingCaller {
            rt,
            waits,
            running,
            ends: AtomicU64::new(0),
        }
    }
}

impl<'a, W: Wait> Caller for WaitingCaller<'a, W> {
    ghost first = { λ caller. 1 };

    fn first_node(&self) -> u8 {
        1
    }

    fn make_calls<P: Port>(&self, _client: &mut Client<P>) {
        if self.waits {
            wait_until_alone(self.rt, self.running);
        }
    }

    fn after_calls(&self) {
        self.ends.fetch_add(1, Ordering::SeqCst);
        self.running.fetch_sub(1, Ordering::SeqCst);
    }
}

/// Waits until only one client runs.
fn wait_until_alone<W: Wait>(rt: &W, running: &AtomicU64) {
    for _ in rt.forever() {
        if running.load(Ordering::SeqCst) <= 1 {
            return;
        }
        thread::yield_now();
    }
}

/// Runs these callers with a group of one node.
fn run_with_one_node<O: Object + Send, W: Threads + Wait + Sync>(
    rt: &W,
    alloc: O::Alloc,
    callers: &[WaitingCaller<'_, W>],
) -> Result<(), Fault>
where
    O::Alloc: Send + Sync,
{
    let group = Fixed::new(1)?;
    let calls = run_callers::<O, _, _>(rt, alloc, group, &[], callers)?;
    drop(calls);
    Ok(())
}

/// The result of a run of two callers, and how often `after_calls` of each was called.
type Seen = (Result<(), Fault>, u64, u64);

/// Runs two callers, the second of which waits for the first, with a node whose memory is in `alloc`.
fn run_of_two<A: Allocator + Copy + Drop + Send + Sync, W: Threads + Wait + Sync>(
    rt: &W,
    alloc: A,
) -> Seen {
    let running = AtomicU64::new(2);
    let callers = [
        WaitingCaller::new(rt, false, &running),
        WaitingCaller::new(rt, true, &running),
    ];
    let result = run_with_one_node::<Counters<A>, W>(rt, alloc, &callers);
    let [first, second] = &callers;
    (
        result,
        first.ends.load(Ordering::SeqCst),
        second.ends.load(Ordering::SeqCst),
    )
}

/// Refuses each request for memory in turn, up to the first run that succeeds.
///
/// Returns the number of runs that were refused after clients had been started. Returns `None` unless `after_calls` was
/// called once for each caller, or for none in a run that was refused.
fn refused_runs<W: Threads + Wait + Sync>(rt: &W, alloc: Global) -> Option<u64> {
    let mut refused = 0u64;
    for passed in 0..u64::MAX {
        let heap = RefusingHeap::new(alloc, passed);
        match run_of_two(rt, &heap) {
            (Ok(()), 1, 1) => return Some(refused),
            (Err(Fault::Memory), 1, 1) => refused = refused.saturating_add(1),
            (Err(Fault::Memory), 0, 0) => {}
            _ => return None,
        }
    }
    None
}

/// In at least one of the runs the first client gets no memory for its ports, and the second waits for it.
#[test]
fn a_caller_that_waits_for_another_ends(rt: HostRuntime) {
    let refused = refused_runs(&rt, rt.alloc());
    assert!(rt; matches!(refused, Some(1..)), "{refused:?}");
}
