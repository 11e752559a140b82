//! The replica of a node: all of the node except its ring core.
//!
//! Its `Replication` follows the outputs of the core's step. The replica applies the calls that become committed, keeps
//! the clients' calls that wait for answers, and returns the payloads to be handed to the core next.
//!
//! Rules: The replicated log 8 to 15, 18 and 20
#![tactic(auto)]

mod mark_laws;
mod replica;
mod replica_history;
mod replica_laws;
mod replica_output;

pub use mark_laws::epoch_safe_marks_law;
pub use replica::Replica;
pub use replica_laws::replica_law;
pub use replica_output::ReplicaOutput;
pub use ring_replication::{HeldLog, Input, Replication};
pub use ring_session::{Answer, Ticket, TicketAnswer, copy_of};
