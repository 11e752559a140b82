//! Tests of what no contract of worlds of ring cores states: that each request for memory succeeds where there is memory, and
//! how many events are done where one is refused. The outputs of worked runs are computed from the definitions, in
//! `ring_core_proof` and `ring_synchrony_examples`: contracts say that those of the code are the same.
#![tactic(auto)]

#[cfg(test)]
mod memory;
#[cfg(test)]
mod pump;
#[cfg(test)]
mod steps;
