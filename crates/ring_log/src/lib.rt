//! The replicated log: how the members of a primary ring agree on one log, and how a node stores it.
//!
//! Rules: The replicated log 1 to 9, 11, 12, 16, 19 and 20
#![tactic(auto)]

mod adoption;
mod base;
mod examples;
mod exchange;
mod heads;
mod laws;
mod log;
mod parts;
mod pieces;
mod received_head;
mod snapshot;
mod wanted;

pub use adoption::Adoption;
pub use base::Base;
pub use examples::{
    adopted_snapshot, chosen_head_of_three, logs_over_epochs, wanted_parts, wanted_snapshot,
};
pub use exchange::Exchange;
pub use laws::{exchange_base_law, log_keeps_committed_law};
pub use log::Log;
pub use pieces::pieces_of;
pub use received_head::ReceivedHead;
pub use snapshot::Snapshot;
pub use wanted::Wanted;
