//! Worlds of ring cores that run without logs and objects: from the opening, and from a formed ring.
//!
//! Rules: Rings and states 14 and 15
#![tactic(auto)]

mod cores;
mod fixed_ring;
mod frame_lookup;
mod history;
mod rings;
mod running;

pub use cores::CoreWorld;
pub use fixed_ring::FixedRing;
pub use ring_core_proof::RingEvent;
pub use rings::Rings;
