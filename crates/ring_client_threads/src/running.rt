//! Running a group's nodes on threads, with the clients that call them.
//!
//! Rules: The book and the threads 28

ghost use Rattle.std.specs.Prelude.{◌≡◌, ◌≤◌, All, IfOk, IfErr, OnOk};
ghost use Rattle.ring_base.specs.declared.fault.Fault.TheVariants.{Memory};
ghost use Rattle.ring_client_threads.specs.Arguments.{IsNode, AreOfGroup, MayRun, IsRefused};
ghost use Rattle.ring_client_threads.specs.Callers.{AreOfRun};
ghost use Rattle.ring_host_port.specs.Clients.{AreSeats, AreForAll};

use crate::caller::{Caller, make_calls_of_client};
use crate::run_arguments::check_arguments;
use crate::running_clients::RunningClients;
use ring_base::{Fault, Fixed, Proc};
use ring_host_port::{
    BookName, ClientCalls, Gate, Host, Opening, Seat, order_and_history_of, take_seats,
};
use ring_object::Object;
use std::marker::Brand;
use std::sync::Wait;
use std::thread;
use std::thread::Threads;

/// Runs the nodes of a group and the callers, each on a thread of its own, and returns the calls of all clients.
///
/// It returns once the last caller has ended. The nodes have then ended, no thread is left, and what each caller has
/// kept can be read. Client 1 is the first caller, client 2 the second, and so on. The nodes numbered in `stopped` are
/// stopped before the first turn. Nodes that have nothing to do rest. Once the book's 262,144 places are used up, no
/// call is answered any more: later calls return `NoAnswer`.
///
/// If it starts clients, it calls [`Caller::after_calls`] exactly once for each caller, also if a caller's client can't
/// be started.
///
/// Errors, in this order:
/// - `NotMember` if a number in `stopped` or a caller's first node isn't a node of the group, or the callers would have
///   more than 256 ports. No caller has then made a call.
/// - `Stopped` if a number is in `stopped` twice. No caller has then made a call.
/// - `Memory` if an allocation fails or a thread can't be started. No caller has then made a call, except if this
///   concerns a thread, a client's ports or the result. For a thread or a client's ports, all nodes are first stopped
///   as far as memory allows, and the callers that were started run to their end.
///
/// Rules: The book and the threads 28; Refusals 4 and 5
pub fn run_callers<O: Object + Send, C: Caller + Sync, W: Threads + Wait + Sync>(
    rt: &W,
    alloc: O::Alloc,
    group: Fixed,
    stopped: &[u8],
    callers: &[C],
) -> Result<ClientCalls<O::Alloc>, Fault>
where
    O::Alloc: Send + Sync,
    ensures calls { IfOk result (AreOfRun O.sequential group) }
    ensures ok { OnOk result (MayRun group.count C.first stopped.now callers.now) }
    ensures refused { IfErr result (IsRefused group.count C.first stopped.now callers.now) }
{
    check_arguments(group, stopped, callers)?;
    let opening = Opening::<O>::new(alloc, group)?;
    run_at_opening::<O, Brand, C, W>(rt, alloc, opening, group.count(), stopped, callers)
}

/// Runs the nodes and callers at the opening that `K` names.
///
/// The arguments must have been checked.
///
/// Errors: only `Memory`, if an allocation fails or a thread can't be started.
fn run_at_opening<
    O: Object + Send,
    K: BookName<O::Alloc> + Send + Sync,
    C: Caller + Sync,
    W: Threads + Wait + Sync,
>(
    rt: &W,
    alloc: O::Alloc,
    opening: Opening<O>,
    nodes: u8,
    stopped: &[u8],
    callers: &[C],
) -> Result<ClientCalls<O::Alloc>, Fault>
where
    O::Alloc: Send + Sync,
    requires name { opening ≡ K.name }
    requires nodes { (nodes ≡ K.name.group.count) × (nodes ≤ 16) }
    requires arguments { AreOfGroup nodes C.first stopped.now callers.now }
    ensures calls { IfOk result (AreOfRun O.sequential K.name.group) }
    ensures refused { IfErr result (λ fault. fault ≡ Memory) }
{
    let ports = callers.len() * usize::from(nodes);
    let (host, seats) = Host::<O, K>::new(alloc, opening, ports as u16)?;
    stop_named_nodes(rt, &host, stopped)?;
    let gate = host.paced_gate(rt)?;
    run_nodes_and_callers(rt, alloc, &host, &gate, seats, nodes, callers)?;
    order_and_history_of(rt, &host)
}

/// Stops the nodes with these numbers, of a new host.
///
/// None of them has stopped, and no place of the book is used. So a stop can be refused only with `Memory`.
fn stop_named_nodes<O: Object, K: BookName<O::Alloc>, W: Wait>(
    rt: &W,
    host: &Host<O, K>,
    stopped: &[u8],
) -> Result<(), Fault>
    requires few { host.now.gauge.words ≤ 16 }
    requires nodes { All (IsNode host.now.gauge.words) stopped.now }
    ensures refused { IfErr result (λ fault. fault ≡ Memory) }
{
    for number in stopped {
        if host.stop(rt, Proc::new(*number)).is_err() {
            return Err(Fault::Memory);
        }
    }
    Ok(())
}

/// Runs the nodes and the clients, each on a thread of its own, with the nodes under the gate.
///
/// No thread is left when it returns.
///
/// Errors: `Memory` if a thread or a client can't be started. Nodes are then stopped as far as memory allows, and
/// started threads end.
fn run_nodes_and_callers<
    O: Object + Send,
    K: BookName<O::Alloc> + Send + Sync,
    C: Caller + Sync,
    W: Threads + Wait + Sync,
    G: Gate + Sync,
>(
    rt: &W,
    alloc: O::Alloc,
    host: &Host<O, K>,
    gate: &G,
    seats: Vec<Seat<O::Alloc>, O::Alloc>,
    nodes: u8,
    callers: &[C],
) -> Result<(), Fault>
where
    O::Alloc: Send + Sync,
    requires { AreSeats host.now.gauge nodes seats.items }
    ensures refused { IfErr result (λ fault. fault ≡ Memory) }
{
    let running = RunningClients::new(callers.len());
    let remaining = &running;
    thread::scope(
        thread::scope_env(),
        rt,
        move |scope|
            requires { AreSeats host.now.gauge nodes seats.items }
        {
            let mut seats = seats;
            let mut number = 0u32;
            for caller in callers {
                number = number.saturating_add(1);
                let seats_of_client = take_seats(host, &mut seats, nodes);
                let called = move ||
                    requires { IfOk seats_of_client (λ seats. AreForAll host.now.gauge seats.items) }
                { run_caller(rt, alloc, host, seats_of_client, number, caller, remaining) };
                if scope.spawn(called).is_err() {
                    remaining.fail_and_stop_nodes(rt, host);
                    caller.after_calls();
                    remaining.finish_client(host);
                }
            }
            remaining.finish_client(host);
            if host.run(rt, seats.as_mut_slice(), gate).is_err() {
                remaining.fail_and_stop_nodes(rt, host);
            }
        },
    );
    if running.has_failed() {
        return Err(Fault::Memory);
    }
    Ok(())
}

/// Makes the calls of client `number` if it has seats, and counts it as ended.
///
/// Calls the caller's `after_calls` before that, whether calls were made or not.
fn run_caller<O: Object, K: BookName<O::Alloc>, C: Caller, W: Wait>(
    rt: &W,
    alloc: O::Alloc,
    host: &Host<O, K>,
    seats_of_client: Result<Vec<Seat<O::Alloc>, O::Alloc>, Fault>,
    number: u32,
    caller: &C,
    running: &RunningClients,
)
    requires { IfOk seats_of_client (λ seats. AreForAll host.now.gauge seats.items) }
{
    let called = match seats_of_client {
        Ok(seats) => make_calls_of_client(rt, alloc, host, seats, number, caller),
        Err(fault) => Err(fault),
    };
    if called.is_err() {
        running.fail_and_stop_nodes(rt, host);
    }
    caller.after_calls();
    running.finish_client(host);
}
