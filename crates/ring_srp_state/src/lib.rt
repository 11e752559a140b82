//! The state that a ring core keeps for one ring, and the operations on it.
//!
//! These are the window and the visits, the state of Recovery, the messages that it wraps and sends, its outputs, its
//! lists of facts, and the packing of a visit's new messages.
//!
//! Rules: Rings and states 3 and 9; Token and window 7, 9 and 12; Recovery 4 to 6; Outputs 3 to 6
#![tactic(auto)]

mod history;
mod packing;
mod queued;
mod recovery_state;
mod ring_output_lists;
mod ring_part;
mod send_list;
mod wrapping;

pub use history::{
    CoreHistory, empty_ghost_list, formed_history, ghost_list_with_first, ghost_list_with_last,
    history_with_core_visit, history_with_install, history_with_plan, history_with_ring,
    opening_history,
};
pub use packing::take_packed;
pub use queued::is_queued;
pub use recovery_state::{RecoveryState, unwrap_into};
pub use ring_output_lists::{give_agreed, give_deferred, give_rest, give_safe};
pub use ring_part::WindowAndVisits;
pub use send_list::{push_frame, send_copy, send_message};
pub use wrapping::first_recovery_messages;
