//! Virtual synchrony: five facts that relate the lives of all processors, and the proof that every run meets them.
//!
//! For each fact there is a test that succeeds exactly if the fact holds, with examples of ring changes that pass and
//! of wrong lives that don't. The proof shows that a life is what the core's facts say, and that a ring that is ready
//! is complete and installed.
//!
//! Rules: Outputs 8 to 11; Recovery 1 and 3 to 8
#![tactic(auto)]

pub mod change_laws;
pub mod examples;
pub mod life_laws;
pub mod ready_laws;
pub mod test_laws;
