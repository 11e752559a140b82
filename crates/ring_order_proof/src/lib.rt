//! The proof of the one order of every run of nodes.
//!
//! The ring part of a world of nodes is a run of ring cores, nodes hand over payloads by their rules, and each ring has
//! one text. So all that logs require of ring cores holds in every run, and each event satisfies `IsOrderStep`. Also,
//! each frame that a node of a run sends is within its limits.
//!
//! Rules: Sessions 10 and 11; The replicated log 8, 16 and 17
#![tactic(auto)]

pub mod effect_laws;
pub mod frame_laws;
pub mod hand_over_laws;
pub mod limit_laws;
pub mod linear_laws;
pub mod log_text_laws;
pub mod longest_laws;
pub mod order_premise_laws;
pub mod projection_laws;
pub mod ring_text_laws;
pub mod wrong_snapshot_example;
