//! The lock table on three nodes on threads, one of which has stopped. Two clients on threads ask for the same ten
//! locks, and each gets some of them.

use crate::lock_operation::LockOperation;
use crate::locks::Locks;
use std::io;
use std::sync::Wait;
use std::thread::Threads;
use totem_ring::{Caller, Client, Fault, Fixed, Object, Port, run_callers};

/// The most times that a client tries again a call that no node has answered: the nodes may still be forming their
/// ring.
const TRIES: u64 = 1_000;

/// A client that asks for ten locks for `holder`; `first` is the node that it tries first.
#[derive(Drop)]
struct LockCaller {
    holder: u64,
    first: u8,
}

impl Caller for LockCaller {
    ghost first = { λ asker. asker.first };

    fn first_node(&self) -> u8 {
        self.first
    }

    fn make_calls<P: Port>(&self, client: &mut Client<P>) {
        for lock in 0..10u8 {
            let acquire = LockOperation::Acquire(lock, self.holder).encode();
            if client.until_answered(acquire.as_slice(), TRIES).is_err() {
                return;
            }
        }
    }
}

/// Returns the number of calls in the one order at the end.
fn count<O: Object + Send, W: Threads + Wait + Sync>(
    rt: &W,
    alloc: O::Alloc,
) -> Result<usize, Fault>
where
    O::Alloc: Send + Sync,
{
    let group = Fixed::new(3)?;
    let clients = [
        LockCaller {
            holder: 11,
            first: 1,
        },
        LockCaller {
            holder: 22,
            first: 3,
        },
    ];
    let calls = run_callers::<O, _, _>(rt, alloc, group, &[3], &clients)?;
    let count = calls.order.len();
    drop(calls);
    Ok(count)
}

/// Runs the scenario, and prints the number of calls in the one order, or the fault if it is refused.
///
/// Waits for the threads.
///
/// Errors: those of standard output.
pub fn print_results<R: AllocGlobal + Print + Threads + Wait + Sync>(rt: &R) -> io::Result<()> {
    match count::<Locks, _>(rt, rt.alloc()) {
        Ok(count) => {
            println!(rt;
                "One of three nodes has stopped, and two clients ask for ten locks each: the one order has {count} calls."
            )
        }
        Err(fault) => println!(rt; "{fault}"),
    }
}
