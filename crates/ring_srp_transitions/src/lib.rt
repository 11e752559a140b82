//! The state of a running ring core, the choice of a transition for an input, and the effect of each transition.
//!
//! Each transition has one public call, whose contract equates it with its definition; `ring_srp` makes a step of these
//! calls. Apply a transition only to the core for which `RunningCore::decide` chose it. After `Memory` the core's state
//! is unspecified, unless the call says otherwise; drop it.
//!
//! Rules: Rings and states 3 to 14; Gather 1, 4 to 8, 10, 12 and 13; The commit token 4 to 8; Token and window 6 to 12;
//! Recovery 4 to 8; Outputs 1 to 6
#![tactic(auto)]

mod cloning;
mod commit_rounds;
mod deciding;
mod gathering;
mod holding;
mod installed_ring_outputs;
mod installing;
mod queueing;
mod recovery_start;
mod running_core;
mod token_forwarding;
mod transition;
mod visiting;
mod wrapping;

pub use deciding::first_token;
pub use installed_ring_outputs::RingProgress;
pub use ring_srp_state::is_queued;
pub use running_core::{RunningCore, formed_ring};
pub use transition::Transition;
