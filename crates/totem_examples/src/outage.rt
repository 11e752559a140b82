//! A client in a scenario that code controls, as a test has it: who hears whom, who times out and who stops. The client
//! asks until it is answered, or until its tries are used up.
//!
//! Three nodes keep a counter, to which the client adds 1 three times. It tries nodes 1 and 2.
//!
//! - Node 1 hears nobody, and node 2 calls for a ring. Node 1 gives no answer; nodes 2 and 3 are a majority and answer.
//! - All hear each other, node 2 stops, and node 1 calls for a ring. It answers, in a ring with node 3, which knows of
//!   the first call.
//! - Node 1 hears nobody again, and node 2 has stopped, so nobody can answer. After three tries the client gives up,
//!   and its call stays open. Then all hear each other, node 1 misses its token, and the client tries the call again.
//!   All these tries have one number, so the counter that is read in the end is at 3.

use std::cell::RefCell;
use std::io;
use std::rc::Rc;
use totem_ring::{
    Client, Counters, Event, Fault, Fixed, Kind, Network, Object, Operation, Port, Proc, ProcSet,
    Reply, ReplyParts, SharedNetwork, World, WorldPort,
};

/// The most polls of a node for one call.
const POLLS: u64 = 200;

/// The number of times that a call without an answer is tried again.
const TRIES: u64 = 2;

/// The results of the client's calls.
#[derive(Clone, Copy)]
struct OutageSummary {
    /// The counter in the reply to the first add.
    first: u64,
    /// The counter in the reply to the second add.
    second: u64,
    /// The refusal of the third add, if it was refused.
    refused: Option<Fault>,
    /// The counter in the reply to the third add, once that is tried again.
    third: u64,
    /// The counter that is read in the end.
    read: u64,
}

/// Runs the scenario and prints its results, or the fault if it is refused.
///
/// Errors: those of standard output.
pub fn print_results<R: AllocGlobal + Print>(rt: &R) -> io::Result<()> {
    match call_through::<Counters>(rt.alloc()) {
        Ok(summary) => print_summary(rt, &summary),
        Err(fault) => println!(rt; "{fault}"),
    }
}

/// Prints the results.
fn print_summary<R: Print>(rt: &R, summary: &OutageSummary) -> io::Result<()> {
    let OutageSummary {
        first,
        second,
        refused,
        third,
        read,
    } = summary;
    println!(rt;
        "Node 1 hears nobody, and the client adds 1: the counter is at {first}.\n\
        All hear each other, node 2 stops, and it adds 1: the counter is at {second}.\n\
        Node 1 hears nobody, and it adds 1: {refused:?}.\n\
        All hear each other, and it tries again: the counter is at {third}, and read as {read}."
    )
}

/// Returns a network of the nodes `fixed` at their opening, in which the node `alone` hears nobody.
///
/// All other nodes hear each other.
fn cut_network<O: Object>(
    alloc: O::Alloc,
    fixed: Fixed,
    alone: Proc,
) -> Result<SharedNetwork<O>, Fault> {
    let mut network = Network::new(World::<O>::new(alloc, fixed)?);
    network.cut(fixed.everybody().without_members(ProcSet::singleton(alone)));
    Ok(Rc::new(alloc, RefCell::new(network))?)
}

/// Adds a port to this node.
fn add_port<O: Object>(
    shared: &SharedNetwork<O>,
    node: Proc,
    ports: &mut Vec<WorldPort<O>, O::Alloc>,
) -> Result<(), Fault> {
    Ok(ports.push(WorldPort::new(shared.clone()?, node))?)
}

/// Adds a port to each of these two nodes.
fn add_ports<O: Object>(
    shared: &SharedNetwork<O>,
    first: Proc,
    second: Proc,
    ports: &mut Vec<WorldPort<O>, O::Alloc>,
) -> Result<(), Fault> {
    add_port(shared, first, ports)?;
    add_port(shared, second, ports)
}

/// Returns client 7, with a port to each of two nodes, in the order in which it tries them.
fn client_of<O: Object>(
    alloc: O::Alloc,
    shared: &SharedNetwork<O>,
    first: Proc,
    second: Proc,
) -> Result<Client<WorldPort<O>>, Fault> {
    let mut ports = Vec::new(alloc);
    add_ports(shared, first, second, &mut ports)?;
    Ok(Client::new(alloc, 7, ports, POLLS))
}

/// Lets only these nodes hear each other from now on.
fn cut<O: Object>(shared: &SharedNetwork<O>, nodes: ProcSet) -> Result<(), Fault> {
    let Ok(mut network) = shared.try_borrow_mut() else {
        return Err(Fault::NoAnswer);
    };
    network.cut(nodes);
    Ok(())
}

/// Makes a node time out.
fn time_out<O: Object>(shared: &SharedNetwork<O>, node: Proc, kind: Kind) -> Result<(), Fault> {
    let Ok(mut network) = shared.try_borrow_mut() else {
        return Err(Fault::NoAnswer);
    };
    network.run_event(Event::Timeout(node, kind))
}

/// Stops a node.
fn stop<O: Object>(shared: &SharedNetwork<O>, node: Proc) -> Result<(), Fault> {
    let Ok(mut network) = shared.try_borrow_mut() else {
        return Err(Fault::NoAnswer);
    };
    network.run_event(Event::Stop(node))
}

/// Returns the count in a counter's reply, or 0 if it has none.
fn count_of(reply: &Reply) -> u64 {
    match ReplyParts::read(reply.as_slice()) {
        Some(
            ReplyParts {
                value: Some(count),
                ..
            },
        ) => count,
        _ => 0,
    }
}

/// Calls with this operation until it is answered. Returns the count in the reply.
fn ask<P: Port>(client: &mut Client<P>, operation: &Operation) -> Result<u64, Fault> {
    let reply = client.until_answered(operation.as_slice(), TRIES)?;
    Ok(count_of(&reply))
}

/// Tries the open call again. Returns the count in the reply.
fn again<P: Port>(client: &mut Client<P>) -> Result<u64, Fault> {
    let reply = client.again()?;
    Ok(count_of(&reply))
}

/// Makes the calls, and changes the network between them. At first the node `alone` hears nobody; the node `stopping`
/// stops.
fn story_of<O: Object, P: Port>(
    client: &mut Client<P>,
    shared: &SharedNetwork<O>,
    fixed: Fixed,
    alone: Proc,
    stopping: Proc,
) -> Result<OutageSummary, Fault> {
    let everybody = fixed.everybody();
    time_out(shared, stopping, Kind::Join)?;
    let add = Counters::add(0, 1);
    let first = ask(client, &add)?;
    cut(shared, everybody)?;
    stop(shared, stopping)?;
    time_out(shared, alone, Kind::Join)?;
    let second = ask(client, &add)?;
    cut(shared, everybody.without_members(ProcSet::singleton(alone)))?;
    let refused = ask(client, &add).err();
    cut(shared, everybody)?;
    time_out(shared, alone, Kind::Loss)?;
    Ok(OutageSummary {
        first,
        second,
        refused,
        third: again(client)?,
        read: ask(client, &Counters::read(0))?,
    })
}

/// Runs the scenario with a client that tries these nodes, the first of which hears nobody.
fn call_over<O: Object>(
    alloc: O::Alloc,
    shared: &SharedNetwork<O>,
    fixed: Fixed,
    one: Proc,
    two: Proc,
) -> Result<OutageSummary, Fault> {
    let mut client = client_of(alloc, shared, one, two)?;
    let summary = story_of(&mut client, shared, fixed, one, two);
    drop(client);
    summary
}

/// Runs the scenario on three nodes at their opening.
fn call_through<O: Object>(alloc: O::Alloc) -> Result<OutageSummary, Fault> {
    let fixed = Fixed::new(3)?;
    let (one, two) = (fixed.proc(1)?, fixed.proc(2)?);
    let shared = cut_network::<O>(alloc, fixed, one)?;
    let summary = call_over(alloc, &shared, fixed, one, two);
    drop(shared);
    summary
}
