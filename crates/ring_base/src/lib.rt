//! The types that all of Totem uses: processors and sets of them, rings, the group's configuration, limits, and the one
//! type of refusals.
//!
//! Also ghost values, which only contracts read, and the laws of prefixes of lists.
#![tactic(auto)]

mod fault;
mod fixed;
mod ghost_value;
mod last_primary_order;
mod limits;
mod members;
mod pair_with_result;
mod proc_set;
mod processor;
mod ring_id;
mod set_and_order_laws;
mod state;
mod timeout_kind;

pub use fault::Fault;
pub use fixed::Fixed;
pub use ghost_value::{Ghost, ghost_now, ghost_of, ghost_step, ghost_step_of_two};
pub use last_primary_order::is_primary_below;
pub use limits::{MAX, MAX_FRAME_BYTES, MAX_PROCESSORS, PROCESSORS, VISIT_LIMIT, WINDOW_SIZE};
pub use members::Members;
pub use pair_with_result::pair_result;
pub use proc_set::ProcSet;
pub use processor::Proc;
pub use ring_id::RingId;
pub use set_and_order_laws::{
    limits_law, members_law, prefix_law, primary_law, primary_order_law, ring_order_law,
};
pub use state::State;
pub use timeout_kind::Kind;
