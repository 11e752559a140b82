//! The nodes of a group on threads, with clients on threads that call them.
//!
//! [`run_callers`] runs each node and each client on a thread of its own. A [`Caller`] defines what a client does. The
//! result is [`ClientCalls`]: the one order of the clients' calls, and its history.
//!
//! Rules: The book and the threads 28
#![tactic(auto)]

mod caller;
mod run_arguments;
mod running;
mod running_clients;

pub use caller::Caller;
pub use ring_host_port::{
    Book, BookName, ClientCalls, Gate, GatePlace, Gauge, Host, HostPort, HostTicket, OpenGate,
    Opening, PacedGate, Seat, Turn, TurnActivity,
};
pub use run_arguments::MAX_PORTS_OF_RUN;
pub use running::run_callers;
