//! Three nodes, a client with ports to some of them, and operations on counters, which the tests share.

ghost use Rattle.ring_node_spec.specs.WorldLimits.{EventFits};

use ring_base::{Fault, Fixed, ProcSet, pair_result};
use ring_client::Client;
use ring_object::{Object, Reply};
use ring_things::{Counters, Operation};
use ring_world_port::{Event, Network, SharedNetwork, World, WorldPort};
use std::cell::RefCell;
use std::rc::Rc;

/// Returns the operation that adds 5 to counter 0.
pub fn add() -> Operation {
    Counters::add(0, 5)
}

/// Returns the operation that reads counter 0.
pub fn read() -> Operation {
    Counters::read(0)
}

/// Returns the reply of a counter with this value.
pub fn counted(count: u8) -> Reply {
    Reply::from_slice(&[0, 0, 0, 0, 0, 0, 0, 0, count])
}

/// Returns the group of all three nodes.
pub fn everybody() -> Result<ProcSet, Fault> {
    Ok(Fixed::new(3)?.everybody())
}

/// Returns a network of three nodes that all hear each other.
/// Errors: `Memory`.
pub fn three<O: Object>(alloc: O::Alloc) -> Result<SharedNetwork<O>, Fault> {
    let network = Network::new(World::<O>::new(alloc, Fixed::new(3)?)?);
    Ok(Rc::new(alloc, RefCell::new(network))?)
}

/// Adds ports to nodes 1 and 2.
fn add_ports<O: Object>(
    shared: &SharedNetwork<O>,
    ports: &mut Vec<WorldPort<O>, O::Alloc>,
) -> Result<(), Fault> {
    for number in [1, 2] {
        let node = Fixed::new(3)?.proc(number)?;
        ports.push(WorldPort::new(shared.clone()?, node))?;
    }
    Ok(())
}

/// Returns client 7 with ports to nodes 1 and 2. It polls each at most `polls` times a call.
/// Errors: `Memory`.
pub fn client_of<O: Object>(
    alloc: O::Alloc,
    shared: &SharedNetwork<O>,
    polls: u64,
) -> Result<Client<WorldPort<O>>, Fault> {
    let mut ports = Vec::new(alloc);
    let added = add_ports(shared, &mut ports);
    let (ports, ()) = pair_result(ports, added)?;
    Ok(Client::new(alloc, 7, ports, polls))
}

/// Lets only the nodes of this group hear each other from now on.
/// Errors: `NoAnswer` where the network is borrowed.
pub fn cut<O: Object>(shared: &SharedNetwork<O>, group: ProcSet) -> Result<(), Fault> {
    let Ok(mut network) = shared.try_borrow_mut() else {
        return Err(Fault::NoAnswer);
    };
    network.cut(group);
    Ok(())
}

/// Runs this event in the world.
/// Errors: `NoAnswer` where the network is borrowed, else `Memory`.
pub fn run_event<O: Object>(shared: &SharedNetwork<O>, event: Event<O::Alloc>) -> Result<(), Fault>
    requires { EventFits event }
{
    let Ok(mut network) = shared.try_borrow_mut() else {
        return Err(Fault::NoAnswer);
    };
    network.run_event(event)
}

/// Returns the length of the world's order.
/// Errors: `NoAnswer` where the network is borrowed.
pub fn order_len<O: Object>(shared: &SharedNetwork<O>) -> Result<u64, Fault> {
    let Ok(network) = shared.try_borrow() else {
        return Err(Fault::NoAnswer);
    };
    Ok(network.world().order_len())
}
