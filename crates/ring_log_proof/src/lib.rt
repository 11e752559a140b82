//! The one order of the replicated log: all nodes' committed places are prefixes of one list, which only grows.
//!
//! The proof is about the epochs of all nodes together. It uses the guarantees of the ring core (`RingFacts`), the
//! rules for the payloads that nodes hand to their cores (`KeepsDiscipline`), and the fact that two primary sets share
//! a processor. It uses nothing about frames, tokens and votes.
//!
//! Rules: The replicated log 2, 6, 8, 12, 16 and 17
#![tactic(auto)]

pub mod examples;
pub mod laws;
