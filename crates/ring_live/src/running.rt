//! Running nodes and clients on threads, and collecting the result.
//!
//! Rules: The book and the threads 28; Refusals 1
//! Formats: The command line

ghost use Rattle.std.specs.Prelude.{◌≡◌, ◌-◌, ◌^◌, min, true, length, All, IfOk, IfErr};
ghost use Rattle.ring_base.specs.declared.fault.Fault.TheVariants.{Memory};
ghost use Rattle.ring_client_threads.specs.Arguments.{IsNode};
ghost use Rattle.ring_live.specs.LiveClients.{answered_of, counter_of, live_result_of};

use crate::live_caller::{ClientResult, LiveCaller};
use ring_base::{Fault, Fixed};
use ring_client_threads::{ClientCalls, run_callers};
use ring_console::is_linearization;
use ring_object::Object;
use std::alloc::Allocator;
use std::sync::Wait;
use std::sync::atomic::AtomicU64;
use std::thread::Threads;

/// The result of a live run, once all its threads have ended.
///
/// Formats: The command line
#[derive(Clone, Copy, Debug, PartialEq, Eq)]
pub struct LiveResult {
    /// The number of nodes, 1 to 16, which is also the number of clients.
    pub nodes: u8,
    /// The number of adds that were answered, of all clients together.
    pub calls: u64,
    /// The counter that client 1 read once all other clients had ended; or the fault because of which it wasn't read.
    pub counter: Result<u64, Fault>,
    /// Whether the order of the book is a linearization of its history, as it always is.
    pub is_legal: bool,
}

/// Runs a group's nodes on threads, with as many clients, each of which adds 1 to a counter `calls` times.
///
/// `O` must be a shelf whose second object is `Counters`; this isn't checked. Returns the result once all threads have
/// ended, whatever was answered. Nodes that have nothing to do rest.
///
/// Errors: `Memory` if an allocation for the host, the clients, the check or the result fails, or a thread can't be
/// started. No thread is left then either.
///
/// Rules: The book and the threads 28
/// Formats: The command line
pub fn run_live_nodes<O: Object + Send, W: Threads + Wait + Sync>(
    rt: &W,
    alloc: O::Alloc,
    group: Fixed,
    calls: u8,
) -> Result<LiveResult, Fault>
where
    O::Alloc: Send + Sync,
    ensures live_result { IfOk result (λ live_result. (live_result.nodes ≡ group.count) × (live_result.is_legal ≡ true)) }
    ensures refused { IfErr result (λ fault. fault ≡ Memory) }
{
    let nodes = group.count();
    let running = AtomicU64::new(u64::from(nodes));
    let callers = live_callers_of(rt, alloc, nodes, calls, &running)?;
    let ClientCalls { order, history } = run_callers::<O, LiveCaller<'_, W>, W>(
        rt,
        alloc,
        group,
        &[],
        callers.as_slice(),
    )?;
    let is_legal = is_linearization::<O>(alloc, order.as_slice(), history.as_slice())?;
    let results = results_of(alloc, callers.as_slice())?;
    Ok(live_result_of(nodes, results.as_slice(), is_legal))
}

/// Makes a client for each of `nodes` nodes, which is to make `calls` adds.
///
/// `running` counts the clients that have not ended.
///
/// Errors: `Memory` if an allocation fails.
fn live_callers_of<'a, A: Allocator + Copy + Drop, W: Wait>(
    rt: &'a W,
    alloc: A,
    nodes: u8,
    calls: u8,
    running: &'a AtomicU64,
) -> Result<Vec<LiveCaller<'a, W>, A>, Fault>
    ensures count { IfOk result (λ callers. length callers.items ≡ nodes) }
    ensures numbers { IfOk result (λ callers. All (λ caller. IsNode nodes caller.number) callers.items) }
    ensures refused { IfErr result (λ fault. fault ≡ Memory) }
{
    let mut callers = Vec::new(alloc);
    for before in 0..nodes {
        callers.push(LiveCaller::new(rt, before + 1, calls, running))?;
    }
    Ok(callers)
}

/// Returns the results of the clients, in their order.
///
/// Errors: `Memory` if an allocation fails.
fn results_of<A: Allocator + Copy + Drop, W: Wait>(
    alloc: A,
    callers: &[LiveCaller<'_, W>],
) -> Result<Vec<ClientResult, A>, Fault>
    ensures refused { IfErr result (λ fault. fault ≡ Memory) }
{
    let mut results = Vec::new(alloc);
    for caller in callers {
        results.push(caller.result())?;
    }
    Ok(results)
}

/// Returns the number of adds answered to all clients.
///
/// It saturates at 2^64 - 1.
fn answered_in(results: &[ClientResult]) -> u64
    ensures { result ≡ min (2 ^ 64 - 1) (answered_of results.now) }
{
    let mut answered = 0u64;
    for client_result in results {
        answered = answered.saturating_add(client_result.answered);
    }
    answered
}

/// Returns the counter that the first client read.
///
/// Errors: the fault because of which it wasn't read; `NotMember` if there is no client.
fn counter_in(results: &[ClientResult]) -> Result<u64, Fault>
    ensures { result ≡ counter_of results.now }
{
    match results.first() {
        Some(first) => first.counter,
        None => Err(Fault::NotMember),
    }
}

/// Returns the result of a run: the number of adds answered, and the counter that the first client read.
fn live_result_of(nodes: u8, results: &[ClientResult], is_legal: bool) -> LiveResult
    ensures { result ≡ live_result_of nodes results.now is_legal }
{
    LiveResult {
        nodes,
        calls: answered_in(results),
        counter: counter_in(results),
        is_legal,
    }
}
