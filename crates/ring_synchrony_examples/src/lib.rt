//! Twelve random schedules of ring cores, with the outputs of an independent implementation, and worked runs.
//!
//! The ten schedules that begin at the opening are also tested for virtual synchrony.
//!
//! Rules: Rings and states 14; Outputs 11
//! Formats: two tokens; runs of a queue
#![tactic(auto)]

pub mod schedules;
pub mod synchrony_of_schedules;
pub mod worked_runs;
