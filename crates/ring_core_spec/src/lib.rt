//! The types and definitions of the ring core: one processor's part in the rings.
//!
//! It is a state machine that takes one input at a time and returns its outputs. It has no clock and no network.
//!
//! Rules: Processors and sets 5 and 6; Rings and states 3 to 14; Outputs 1 to 7
#![tactic(auto)]

mod group_check;
pub mod input;
pub mod out;
mod outgoing_frame;

pub use group_check::names_only_group;
pub use input::Input;
pub use out::Out;
pub use outgoing_frame::OutgoingFrame;
pub use ring_recover::{Configuration, finish_law, held_bits_law, unique_front_law};
pub use ring_token::{Call, Frame, two_visits_safe_law};
