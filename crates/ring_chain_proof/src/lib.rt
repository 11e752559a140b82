//! Proofs about every run of ring cores, however frames are lost, repeated and reordered.
//!
//! A ring has one list of members, one chain of visits and one text, and what a safe mark covers is safe. Most of it is
//! proved for the six moves of a core, and so for every world. That a hop is taken only once, and what the outputs say,
//! is proved for the transitions of a step.
//!
//! Rules: Rings and states 2, 7 and 14; The commit token 1 and 10; Token and window 7 and 13; Recovery 1;
//! Outputs 3 to 5 and 8
#![tactic(auto)]

pub mod laws;
