//! Definitions of a node, of a world of nodes, of linearizability, and of the steps by which a run stays linearizable.
//!
//! A node is a ring core, the replicated log over it, and the clients' calls that wait for answers. A world is the
//! nodes, all frames ever sent, and the history of calls and replies.
//!
//! Rules: The replicated log 1, 2, 7 to 10, 12 to 15, 18 and 20; Sessions 9 to 11; The book and the threads 1 to 6
#![tactic(auto)]

mod client_report;
mod event;
pub mod input;
mod item;
mod linearization_laws;
mod noise;

pub use client_report::Told;
pub use event::Event;
pub use input::Input;
pub use item::Item;
pub use linearization_laws::{linearization_law, run_order_law};
pub use noise::Noise;
pub use ring_core_spec::{Out, OutgoingFrame};
