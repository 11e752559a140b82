//! The progress of a run, shared by its threads.

use ring_base::MAX_PROCESSORS;
use ring_host_port::{BookName, Host};
use ring_object::Object;
use std::sync::Wait;
use std::sync::atomic::{AtomicBool, AtomicU64, Ordering};

/// How many clients have not ended, plus one for the thread that starts them, and whether starting one failed.
///
/// Rules: The book and the threads 28
#[derive(Drop)]
pub(crate) struct RunningClients {
    remaining: AtomicU64,
    has_failed: AtomicBool,
}

impl RunningClients {
    /// Counts `clients` clients as running, plus one for the thread that starts them.
    ///
    /// Nothing has failed yet.
    pub(crate) fn new(clients: usize) -> RunningClients {
        RunningClients {
            remaining: AtomicU64::new((clients as u64).saturating_add(1)),
            has_failed: AtomicBool::new(false),
        }
    }

    /// Counts a client, or the thread that starts them, as ended.
    ///
    /// The last to end closes the host, so that the nodes' threads end.
    pub(crate) fn finish_client<O: Object, K: BookName<O::Alloc>>(&self, host: &Host<O, K>) {
        if self.remaining.fetch_sub(1, Ordering::SeqCst) == 1 {
            host.close();
        }
    }

    /// Records that a thread or a client couldn't be started, and closes the host.
    ///
    /// First stops all nodes, as far as memory allows, so that clients don't try their calls for long.
    pub(crate) fn fail_and_stop_nodes<O: Object, K: BookName<O::Alloc>, W: Wait>(
        &self,
        rt: &W,
        host: &Host<O, K>,
    ) {
        self.has_failed.store(true, Ordering::SeqCst);
        for number in 1..=MAX_PROCESSORS {
            if let Ok(node) = host.proc(number) {
                // A refused stop changes nothing, and the host is closed anyway.
                let _ = host.stop(rt, node);
            }
        }
        host.close();
    }

    /// Returns whether `fail_and_stop_nodes` was called, because a thread or a client couldn't be started.
    pub(crate) fn has_failed(&self) -> bool {
        self.has_failed.load(Ordering::SeqCst)
    }
}
