//! Printing the result of a live run.
//!
//! Formats: The command line

ghost use Rattle.std.specs.Prelude.{ℕ, ◌≡◌, ◌≤◌, ◌⊎◌, true, Ok, IfOk, IfErr, OnOk};
ghost use Rattle.std.specs.Io.KnownBytes.{Appends};
ghost use Rattle.ring_base.specs.Processors.{IsProc};
ghost use Rattle.ring_failure.specs.declared.failure.Failure.TheVariants.{Output};
ghost use Rattle.ring_live.specs.LiveResult.{live_result_text, IsNotRun, IsNotPrinted};
ghost use Rattle.ring_live.specs.declared.running.LiveResult.{LiveResult};

use crate::running::{LiveResult, run_live_nodes};
use ring_base::{Fault, Fixed};
use ring_console::{Failure, StandardObjects, report_failure};
use ring_failure::NOT_LEGAL;
use std::alloc::Global;
use std::io::Write;
use std::sync::Wait;
use std::thread::Threads;

/// Runs N nodes and N clients, 1 to 16, each on a thread of its own, and prints the result on `out`.
///
/// Client c tries node c first, and then the others in order. It adds 1 to one counter `calls` times, one after the
/// other, and ends at its first fault. Then client 1 reads the counter. Once all threads have ended, four lines are
/// printed: the number of nodes, the number of answered adds, the counter, and whether the history is legal. It waits
/// for these threads.
///
/// Returns the exit status: 0 if these lines are printed, the last as `legal yes`, or 1
///
/// - after `legal no`, which no run prints;
/// - if `nodes` isn't 1 to 16, the last read is refused, an allocation fails or a thread can't be started: `err` gets
///   the fault's line, and nothing is printed;
/// - if `out` fails: `err` gets nothing.
///
/// Formats: The command line
pub fn live<W: Threads + Wait + Sync, O: Write, E: Write>(
    rt: &W,
    alloc: Global,
    nodes: u8,
    calls: u8,
    out: &mut O,
    err: &mut E,
) -> u8
    ensures status { result ≤ 1 }
    ensures quiet { result ≡ 0 → err.new ≡ err.old }
    ensures kept { result ≡ 1 → (out.new ≡ out.old) ⊎ (err.new ≡ err.old) }
    ensures range { result ≡ 0 → (1 ≤ nodes) × (nodes ≤ 16) }
    ensures stranger { ¬ IsProc nodes → (result ≡ 1) × (out.new ≡ out.old) }
    ensures printed { result ≡ 0 → (live_result : LiveResult) × (counter : ℕ) × (live_result.nodes ≡ nodes) × (live_result.counter ≡ Ok counter) × (live_result.is_legal ≡ true)
        × Appends (O.contents out.old) (O.contents out.new) (live_result_text live_result counter) }
{
    let live_result = match run_standard_object(rt, alloc, nodes, calls) {
        Ok(live_result) => live_result,
        Err(fault) => return report_failure(err, Failure::Refused(fault)),
    };
    match print_live_result(live_result, out) {
        Ok(()) if live_result.is_legal => 0,
        Ok(()) => NOT_LEGAL,
        Err(failure) => report_failure(err, failure),
    }
}

/// Runs nodes and clients with the standard object.
///
/// Errors: `NotMember` if `nodes` isn't 1 to 16; otherwise `Memory` if an allocation fails or a thread can't be started.
fn run_standard_object<W: Threads + Wait + Sync>(
    rt: &W,
    alloc: Global,
    nodes: u8,
    calls: u8,
) -> Result<LiveResult, Fault>
    ensures live_result { IfOk result (λ live_result. (live_result.nodes ≡ nodes) × (live_result.is_legal ≡ true)) }
    ensures range { OnOk result ((1 ≤ nodes) × (nodes ≤ 16)) }
    ensures refused { IfErr result (IsNotRun nodes) }
{
    let group = Fixed::new(nodes)?;
    run_live_nodes::<StandardObjects<Global>, W>(rt, alloc, group, calls)
}

/// Prints the result of a run.
///
/// Errors: if the counter wasn't read, its fault, with nothing printed; otherwise `Output` if `out` fails.
fn print_live_result<O: Write>(live_result: LiveResult, out: &mut O) -> Result<(), Failure>
    ensures lines { OnOk result ((counter : ℕ) × (live_result.counter ≡ Ok counter) × Appends (O.contents out.old) (O.contents out.new) (live_result_text live_result counter)) }
    ensures refused { IfErr result (IsNotPrinted live_result out.old out.new) }
{
    let counter = match live_result.counter {
        Ok(counter) => counter,
        Err(fault) => return Err(Failure::Refused(fault)),
    };
    print_lines(live_result, counter, out)
}

/// Prints the result of a run whose counter was read.
///
/// Errors: `Output` if `out` fails.
fn print_lines<O: Write>(live_result: LiveResult, counter: u64, out: &mut O) -> Result<(), Failure>
    ensures lines { OnOk result (Appends (O.contents out.old) (O.contents out.new) (live_result_text live_result counter)) }
    ensures failed { IfErr result (λ failure. failure ≡ Output) }
{
    let LiveResult {
        nodes,
        calls,
        counter: _,
        is_legal,
    } = live_result;
    let word = if is_legal { "yes" } else { "no" };
    writeln!(
        out,
        "nodes {nodes}\ncalls {calls}\ncounter {counter}\nlegal {word}"
    )
    .map_err(|_| Failure::Output)
}
