//! Clients that have a port to each node of a host.
//!
//! Rules: Clients 1; The book and the threads 28

ghost use Rattle.std.specs.Prelude.{◌≡◌, ◌≤◌, ◌++◌, [], length, slice_get, Some, IfOk, IfErr, OnOk, OnErr};
ghost use Rattle.ring_base.specs.declared.fault.Fault.TheVariants.{Memory};
ghost use Rattle.ring_client.specs.Asking.{new_asked};
ghost use Rattle.ring_host_port.specs.Clients.{AreSeats, AreForAll, AreNotTaken, IsNew, node_after};

use crate::port::{HostPort, MAX_POLLS_AT_NODE};
use ring_base::Fault;
use ring_client::Client;
use ring_host::{BookName, Host, Seat};
use ring_object::Object;
use std::sync::Wait;

/// Removes the last `nodes` seats from the list and returns them in the same order.
///
/// `nodes` must be the host's number of nodes: a client has a port to each node, and each port needs a seat. The seats
/// must be the host's.
///
/// Errors, in this order: `NotMember` if the list has fewer seats. `Memory` if an allocation fails. The seats are then
/// unchanged.
///
/// Rules: The book and the threads 28
pub fn take_seats<O: Object, K: BookName<O::Alloc>>(
    host: &Host<O, K>,
    seats: &mut Vec<Seat<O::Alloc>, O::Alloc>,
    nodes: u8,
) -> Result<Vec<Seat<O::Alloc>, O::Alloc>, Fault>
    requires { AreSeats host.now.gauge nodes seats.old.items }
    ensures seats { AreSeats host.now.gauge nodes seats.new.items }
    ensures own { IfOk result (λ own. AreForAll host.now.gauge own.items) }
    ensures taken { IfOk result (λ own. seats.old.items ≡ seats.new.items ++ own.items) }
    ensures kept { OnErr result (seats.new.items ≡ seats.old.items) }
    ensures refused { IfErr result (AreNotTaken nodes seats.old.items) }
{
    // Only the contract uses the host: these are its seats.
    let _host = host;
    let count = usize::from(nodes);
    if seats.len() < count {
        return Err(Fault::NotMember);
    }
    Ok(seats.split_off(seats.len() - count)?)
}

/// Creates client `number`, before its first call, with a port to each node.
///
/// It tries node `first`, then the others in order, with node 1 after the last, and polls a node at most 1,000,000
/// times a call. Each port uses one of the seats, and nothing has been submitted at it. There must be as many seats as
/// nodes.
///
/// A `first` that isn't the number of a node is not refused. 0 is treated as 1. After the last node the count starts
/// again at node 1: of three nodes, 5 is node 2.
///
/// Errors: `Memory` if an allocation fails.
///
/// Rules: Clients 1; The book and the threads 28
pub fn client_with_ports<'a, O: Object, K: BookName<O::Alloc>, W: Wait>(
    rt: &'a W,
    alloc: O::Alloc,
    host: &'a Host<O, K>,
    seats: Vec<Seat<O::Alloc>, O::Alloc>,
    number: u32,
    first: u8,
) -> Result<Client<HostPort<'a, O, K, W>>, Fault>
    requires { AreForAll host.now.gauge seats.items }
    ensures client { IfOk result (IsNew (λ port. port.node) (λ port. port.asked) number host.now.gauge.words first) }
    ensures refused { IfErr result (λ fault. fault ≡ Memory) }
{
    let mut seats = seats;
    let mut ports = Vec::new(alloc);
    append_port_to_each_node(rt, host, &mut seats, first, &mut ports)?;
    Ok(Client::new(alloc, number, ports, MAX_POLLS_AT_NODE))
}

/// Appends a port to each node, in order from node `first` on, each with one of the seats, to the empty list `ports`.
///
/// Errors: `Memory` if an allocation fails.
fn append_port_to_each_node<'a, O: Object, K: BookName<O::Alloc>, W: Wait>(
    rt: &'a W,
    host: &'a Host<O, K>,
    seats: &mut Vec<Seat<O::Alloc>, O::Alloc>,
    first: u8,
    ports: &mut Vec<HostPort<'a, O, K, W>, O::Alloc>,
) -> Result<(), Fault>
    requires seats { AreForAll host.now.gauge seats.old.items }
    requires none { ports.old.items ≡ [] }
    ensures count { OnOk result (length ports.new.items ≡ host.now.gauge.words) }
    ensures order { OnOk result ((k : _) (port : _) → slice_get ports.new.items k ≡ Some port → port.node ≡ node_after host.now.gauge.words first k) }
    ensures fresh { OnOk result ((k : _) (port : _) → slice_get ports.new.items k ≡ Some port → port.asked ≡ new_asked) }
    ensures refused { IfErr result (λ fault. fault ≡ Memory) }
{
    let nodes = seats.len() as u8;
    for passed in 0..nodes {
        let port = HostPort::to_node(rt, host, seats, node_tried_after(nodes, first, passed))?;
        ports.push(port)?;
    }
    Ok(())
}

/// Returns the node that a client tries after `passed` others, if its first node is `first`.
fn node_tried_after(nodes: u8, first: u8, passed: u8) -> u8
    requires { 1 ≤ nodes }
    ensures { result ≡ node_after nodes first passed }
{
    let before = u32::from(first.saturating_sub(1)) + u32::from(passed);
    (before % u32::from(nodes)) as u8 + 1
}
