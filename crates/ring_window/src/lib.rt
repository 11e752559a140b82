//! The receive window of a ring: the messages that a node holds, and the front up to which it holds them all.
//!
//! Rules: Token and window 1 to 4 and 14
//! Formats: The commit entry
#![tactic(auto)]

mod held_bits;
mod held_history;
mod laws;
mod window;

pub use laws::{held_bits_law, unique_front_law};
pub use ring_wire::{Message, Payload, Wrapped, WrappedPayload};
pub use window::Window;
