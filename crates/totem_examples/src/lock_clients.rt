//! A lock table, a user-defined object, on three nodes: two clients ask for one lock, and a node is cut off meanwhile.
//!
//! Client 1 tries nodes 1 and 2, client 2 nodes 2 and 3. Client 1 acquires lock 7 for holder 11. So client 2 is refused
//! it for holder 22, and learns the holder. Then node 1 is cut off. Client 1 releases the lock: it polls node 1 and
//! gets no answer, and tries the same call at node 2, where it takes effect. So client 2 gets the lock.

use crate::lock_operation::LockOperation;
use crate::locks::Locks;
use std::cell::RefCell;
use std::io;
use std::rc::Rc;
use totem_ring::{
    Client, Fault, Fixed, Network, Object, Outcome, Port, ProcSet, ReplyParts, SharedNetwork,
    World, WorldPort,
};

/// The most polls of a node for one call.
const POLLS: u64 = 400;

/// The replies to the calls, in order.
#[derive(Clone, Copy)]
struct LockSummary {
    acquired: ReplyParts,
    refused: ReplyParts,
    released: ReplyParts,
    passed_on: ReplyParts,
    holder: ReplyParts,
}

/// Runs the scenario and prints its results, or the fault if it is refused.
///
/// Errors: those of standard output.
pub fn print_results<R: AllocGlobal + Print>(rt: &R) -> io::Result<()> {
    match ask_for_lock::<Locks>(rt.alloc()) {
        Ok(summary) => print_summary(rt, &summary),
        Err(fault) => println!(rt; "{fault}"),
    }
}

/// Prints the results.
fn print_summary<R: Print>(rt: &R, summary: &LockSummary) -> io::Result<()> {
    let LockSummary {
        acquired,
        refused,
        released,
        passed_on,
        holder,
    } = summary;
    println!(rt;
        "11 acquires lock 7: {acquired:?}\n\
        22 acquires it: {refused:?}\n\
        Node 1 is cut off, and 11 releases it: {released:?}\n\
        22 acquires it: {passed_on:?}\n\
        Who has it: {holder:?}"
    )
}

/// Calls with an operation. Returns the parts of the reply.
fn ask<P: Port>(client: &mut Client<P>, operation: LockOperation) -> Result<ReplyParts, Fault> {
    let reply = client.call(operation.encode().as_slice())?;
    Ok(ReplyParts::read(reply.as_slice()).unwrap_or(ReplyParts {
        outcome: Outcome::Unreadable,
        value: None,
    }))
}

/// Returns a network of three nodes that hear each other.
fn network_of<O: Object>(alloc: O::Alloc, group: Fixed) -> Result<SharedNetwork<O>, Fault> {
    let network = Network::new(World::<O>::new(alloc, group)?);
    Ok(Rc::new(alloc, RefCell::new(network))?)
}

/// Adds a port to the node of this number.
fn add_port<O: Object>(
    shared: &SharedNetwork<O>,
    group: Fixed,
    number: u8,
    ports: &mut Vec<WorldPort<O>, O::Alloc>,
) -> Result<(), Fault> {
    let node = group.proc(number)?;
    Ok(ports.push(WorldPort::new(shared.clone()?, node))?)
}

/// Adds a port to each of these two nodes.
fn add_ports<O: Object>(
    shared: &SharedNetwork<O>,
    group: Fixed,
    (first, second): (u8, u8),
    ports: &mut Vec<WorldPort<O>, O::Alloc>,
) -> Result<(), Fault> {
    add_port(shared, group, first, ports)?;
    add_port(shared, group, second, ports)
}

/// Returns the client of this number, which tries these two nodes.
fn client_of<O: Object>(
    alloc: O::Alloc,
    shared: &SharedNetwork<O>,
    group: Fixed,
    number: u32,
    nodes: (u8, u8),
) -> Result<Client<WorldPort<O>>, Fault> {
    let mut ports = Vec::new(alloc);
    add_ports(shared, group, nodes, &mut ports)?;
    Ok(Client::new(alloc, number, ports, POLLS))
}

/// Cuts this node off: only the others hear each other from now on.
fn cut_off<O: Object>(shared: &SharedNetwork<O>, group: Fixed, node: u8) -> Result<(), Fault> {
    let others = group
        .everybody()
        .without_members(ProcSet::singleton(group.proc(node)?));
    let Ok(mut network) = shared.try_borrow_mut() else {
        return Err(Fault::NoAnswer);
    };
    network.cut(others);
    Ok(())
}

/// Makes the calls and returns their replies.
fn call_all<O: Object, P: Port>(
    shared: &SharedNetwork<O>,
    group: Fixed,
    one: &mut Client<P>,
    two: &mut Client<P>,
) -> Result<LockSummary, Fault> {
    let acquired = ask(one, LockOperation::Acquire(7, 11))?;
    let refused = ask(two, LockOperation::Acquire(7, 22))?;
    cut_off(shared, group, 1)?;
    Ok(LockSummary {
        acquired,
        refused,
        released: ask(one, LockOperation::Release(7, 11))?,
        passed_on: ask(two, LockOperation::Acquire(7, 22))?,
        holder: ask(two, LockOperation::Holder(7))?,
    })
}

/// Runs the scenario with this client and another one that tries nodes 2 and 3.
fn call_with<O: Object>(
    alloc: O::Alloc,
    shared: &SharedNetwork<O>,
    group: Fixed,
    one: &mut Client<WorldPort<O>>,
) -> Result<LockSummary, Fault> {
    let mut two = client_of(alloc, shared, group, 2, (2, 3))?;
    let summary = call_all(shared, group, one, &mut two);
    drop(two);
    summary
}

/// Runs the scenario with two clients of these nodes.
fn call_over<O: Object>(
    alloc: O::Alloc,
    shared: &SharedNetwork<O>,
    group: Fixed,
) -> Result<LockSummary, Fault> {
    let mut one = client_of(alloc, shared, group, 1, (1, 2))?;
    let summary = call_with(alloc, shared, group, &mut one);
    drop(one);
    summary
}

/// Runs the scenario on three nodes at their opening.
fn ask_for_lock<O: Object>(alloc: O::Alloc) -> Result<LockSummary, Fault> {
    let group = Fixed::new(3)?;
    let shared = network_of::<O>(alloc, group)?;
    let summary = call_over(alloc, &shared, group);
    drop(shared);
    summary
}
