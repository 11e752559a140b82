//! The session of one client: its last call that took effect, and the reply to it.
//!
//! By these a repeated call and the client's next call are recognized.
//!
//! Rules: Sessions 2, 3 and 5
#![tactic(auto)]

mod last_call;

pub use last_call::LastCall;
