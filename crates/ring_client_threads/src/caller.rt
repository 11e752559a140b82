//! Clients that make their calls on threads of their own.
//!
//! Rules: The book and the threads 28; Clients 3 to 6

ghost use Rattle.std.specs.Prelude.{◌≡◌, ℕ, IfErr};
ghost use Rattle.ring_base.specs.declared.fault.Fault.TheVariants.{Memory};
ghost use Rattle.ring_host_port.specs.Clients.{AreForAll};

use ring_base::Fault;
use ring_client::{Client, Port};
use ring_host_port::{BookName, Host, Seat, client_with_ports};
use ring_object::Object;
use std::sync::Wait;

/// The work of a client on its own thread.
///
/// The thread only borrows the caller. So what the caller keeps for later readers must be in an atomic or behind a
/// lock.
///
/// Rules: The book and the threads 28
pub trait Caller {
    /// The number of the node that the client tries first.
    ghost first: { Self → ℕ };

    /// Returns the number of the node that the client tries first, 1 to the number of nodes.
    ///
    /// The client tries the next node if this one refuses a call or doesn't answer it within 1,000,000 polls. The order
    /// is that of the nodes' numbers, with node 1 after the last. It makes the same call, under the same number.
    /// [`run_callers`](crate::run_callers) refuses a number of no node. The result must always be the same.
    ///
    /// Rules: Clients 4; The book and the threads 28
    fn first_node(&self) -> u8
        ensures { result ≡ first self.now };

    /// Makes the client's calls, and may wait for their answers.
    ///
    /// The run calls this once at most, on the client's thread. A call returns `NoAnswer` if each node was tried
    /// without success, as happens while the nodes form a ring; so use [`Client::until_answered`]. If this function
    /// never returns, the run doesn't end either. If it waits for other clients to end, it has to learn of that from
    /// their [`after_calls`](Caller::after_calls), which are called also for clients that never start.
    ///
    /// Rules: Clients 3 to 6
    fn make_calls<P: Port>(&self, client: &mut Client<P>);

    /// Called when the client has ended: it makes no more calls.
    ///
    /// A run that starts clients calls this exactly once for each caller, on whatever thread: after `make_calls`, or in
    /// its place if the client can't be started, because a thread or memory for its ports is refused. A run that is
    /// refused before it starts clients never calls it. By default it does nothing.
    ///
    /// Rules: The book and the threads 28
    fn after_calls(&self) {}
}

/// Makes the calls of client `number`, with a port to each node of the host, and returns once the caller has made them.
///
/// Each port uses one of `seats`, of which there must be one for each node.
///
/// Errors: `Memory` if an allocation for the ports fails; no call has then been made.
///
/// Rules: The book and the threads 28
pub(crate) fn make_calls_of_client<O: Object, K: BookName<O::Alloc>, C: Caller, W: Wait>(
    rt: &W,
    alloc: O::Alloc,
    host: &Host<O, K>,
    seats: Vec<Seat<O::Alloc>, O::Alloc>,
    number: u32,
    caller: &C,
) -> Result<(), Fault>
    requires { AreForAll host.now.gauge seats.items }
    ensures refused { IfErr result (λ fault. fault ≡ Memory) }
{
    let first = caller.first_node();
    let mut client = client_with_ports(rt, alloc, host, seats, number, first)?;
    caller.make_calls(&mut client);
    Ok(())
}
