//! Ports to the nodes of one world, which several clients share.
//!
//! A client submits its calls at ports, and its polls let the world run. A [`Network`] is a world, with the open copies
//! of its frames and the group of nodes that hear each other. A [`WorldPort`] is a client's way to one of its nodes.
//! The ports share the network.
//!
//! Rules: Clients 8
#![tactic(auto)]

mod network;
mod port;
mod submitted_call;

pub use network::{Network, WorldTicket};
pub use port::{SharedNetwork, WorldPort};
pub use ring_node_spec::Event;
pub use ring_world::{Item, Noise, Pump, Told, World, stopped_for_memory_law};
