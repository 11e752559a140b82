//! Three clients and three nodes on threads, where inboxes have two places.
//!
//! Rules: The book and the threads 23 and 27; Sessions 10
//! Formats: small inboxes

ghost use Rattle.std.specs.Prelude.{◌≡◌, ◌≤◌, IfOk};
ghost use Rattle.ring_host_port.specs.Clients.{AreSeats, AreForAll};

use ring_base::{Fault, Fixed};
use ring_checker::is_linearization;
use ring_client::{Client, Port};
use ring_host_port::{
    BookName, ClientCalls, Gate, Host, Opening, Seat, client_with_ports, order_and_history_of,
    take_seats,
};
use ring_object::Object;
use ring_things::Counters;
use std::alloc::Global;
use std::marker::Brand;
use std::sync::Wait;
use std::sync::atomic::{AtomicU64, Ordering};
use std::thread;
use std::thread::Threads;

/// The number of clients.
const CLIENTS: u8 = 3;

/// The number of seats of the clients' ports.
///
/// Each of the three clients has a port to each of three nodes.
const PORTS: u16 = 9;

/// Makes three adds, one after the other, or ends at the first fault.
fn add_thrice<P: Port>(client: &mut Client<P>) {
    let add = Counters::add(0, 1);
    for _ in 0..3u8 {
        if client.call(add.as_slice()).is_err() {
            return;
        }
    }
}

/// Makes the calls of client `number`, which tries the node of this number first.
///
/// It polls a node at most 1,000,000 times a call.
///
/// Errors: `Memory` if an allocation for the ports fails; no call has then been made.
fn make_calls<O: Object, K: BookName<O::Alloc>, W: Wait>(
    rt: &W,
    alloc: O::Alloc,
    host: &Host<O, K>,
    seats: Vec<Seat<O::Alloc>, O::Alloc>,
    number: u8,
) -> Result<(), Fault>
    requires { AreForAll host.now.gauge seats.items }
{
    let mut client = client_with_ports(rt, alloc, host, seats, u32::from(number), number)?;
    add_thrice(&mut client);
    Ok(())
}

/// Counts a client as ended, and closes the host if it is the last one.
fn finish_client<O: Object, K: BookName<O::Alloc>>(host: &Host<O, K>, running: &AtomicU64) {
    if running.fetch_sub(1, Ordering::SeqCst) == 1 {
        host.close();
    }
}

/// Makes the calls of client `number` if it has seats, and counts it as ended.
fn run_client<O: Object, K: BookName<O::Alloc>, W: Wait>(
    rt: &W,
    alloc: O::Alloc,
    host: &Host<O, K>,
    seats_of_client: Result<Vec<Seat<O::Alloc>, O::Alloc>, Fault>,
    number: u8,
    running: &AtomicU64,
)
    requires { IfOk seats_of_client (λ seats. AreForAll host.now.gauge seats.items) }
{
    let _ = match seats_of_client {
        Ok(seats) => make_calls(rt, alloc, host, seats, number),
        Err(fault) => Err(fault),
    };
    finish_client(host, running);
}

/// Runs the nodes, under the gate, and the clients, each on a thread of its own, until the last client closes the host.
fn run<
    O: Object + Send,
    K: BookName<O::Alloc> + Send + Sync,
    W: Threads + Wait + Sync,
    G: Gate + Sync,
>(
    rt: &W,
    alloc: O::Alloc,
    host: &Host<O, K>,
    gate: &G,
    seats: Vec<Seat<O::Alloc>, O::Alloc>,
    nodes: u8,
) -> Result<(), Fault>
where
    O::Alloc: Send + Sync,
    requires { AreSeats host.now.gauge nodes seats.items }
{
    let running = AtomicU64::new(u64::from(CLIENTS));
    let remaining = &running;
    let ran = thread::scope(
        thread::scope_env(),
        rt,
        move |scope| -> Result<(), Fault>
            requires { AreSeats host.now.gauge nodes seats.items }
        {
            let mut seats = seats;
            for before in 0..CLIENTS {
                let seats_of_client = take_seats(host, &mut seats, nodes);
                let called = move ||
                    requires { IfOk seats_of_client (λ seats. AreForAll host.now.gauge seats.items) }
                {
                    run_client(
                        rt,
                        alloc,
                        host,
                        seats_of_client,
                        before.saturating_add(1),
                        remaining,
                    )
                };
                if scope.spawn(called).is_err() {
                    finish_client(host, remaining);
                }
            }
            host.run(rt, seats.as_mut_slice(), gate)
        },
    );
    ran
}

/// Returns whether the order of the host's book is legal for its history.
fn is_legal<O: Object, K: BookName<O::Alloc>, W: Wait>(
    rt: &W,
    alloc: O::Alloc,
    host: &Host<O, K>,
) -> Result<bool, Fault> {
    let ClientCalls { order, history } = order_and_history_of(rt, host)?;
    is_linearization::<O>(alloc, order.as_slice(), history.as_slice())
}

/// Runs nodes and clients at an opening, and returns whether the book's order is legal then.
///
/// Nodes that have nothing to do rest.
fn opened<O: Object + Send, K: BookName<O::Alloc> + Send + Sync, W: Threads + Wait + Sync>(
    rt: &W,
    alloc: O::Alloc,
    opening: Opening<O>,
    nodes: u8,
) -> Result<bool, Fault>
where
    O::Alloc: Send + Sync,
    requires name { opening ≡ K.name }
    requires nodes { (nodes ≡ K.name.group.count) × (nodes ≤ 16) }
{
    let (host, seats) = Host::<O, K>::with_inbox(alloc, opening, PORTS, 2)?;
    let gate = host.paced_gate(rt)?;
    let legal = match run(rt, alloc, &host, &gate, seats, nodes) {
        Ok(()) => is_legal(rt, alloc, &host),
        Err(fault) => Err(fault),
    };
    drop(gate);
    drop(host);
    legal
}

/// Runs `opened` with three nodes and counters.
fn counted<W: Threads + Wait + Sync>(rt: &W, alloc: Global) -> Result<bool, Fault> {
    let group = Fixed::new(3)?;
    let opening = Opening::<Counters>::new(alloc, group)?;
    opened::<Counters, Brand, W>(rt, alloc, opening, group.count())
}

/// The order of the calls is legal for their history, whatever was answered.
#[test]
fn a_run_over_inboxes_of_two_places_is_legal(rt: HostRuntime) {
    assert!(rt; counted(&rt, rt.alloc()) == Ok(true));
}
