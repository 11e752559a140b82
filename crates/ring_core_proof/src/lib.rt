//! Proofs about ring cores: what holds of one core after any inputs, and of every world of cores.
//!
//! In a world frames may be lost, repeated and reordered. The crate also proves that all frames sent are within the
//! limits of their format, and has the worked examples, computed from the definitions.
//!
//! Rules: Rings and states 2 to 8, 13 and 14; The commit token 1 to 3 and 10; Token and window 1, 3, 4, 6 to 9 and 11;
//! Recovery 4; Outputs 8 to 10
#![tactic(auto)]

pub mod changes;
pub mod event;
pub mod examples;
pub mod laws;
pub mod limits_laws;
pub mod own_laws;

pub use event::RingEvent;
