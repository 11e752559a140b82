//! The token: which tokens a member accepts, what a visit does, and the safe mark that two successive visits give.
//!
//! Rules: Token and window 5 to 8, 10, 13 and 15
#![tactic(auto)]

mod laws;
mod requests;
mod visit;

pub use laws::two_visits_safe_law;
pub use requests::{requests_after, requests_left};
pub use ring_wire::{Call, CommitEntry, Frame, Message, Payload, WrappedPayload};
pub use visit::{Visit, VisitHistory};
