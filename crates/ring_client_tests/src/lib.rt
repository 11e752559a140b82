//! Tests of what the contracts of the client don't state.
//!
//! A port is asked once a call, runs over scripted ports are worked through, and a refused request for memory is
//! reported as such. They also check the refusals of a run of callers, which of several refusals comes, that no caller
//! makes a call before them, and that a caller which waits for another ends also if that one can't be started. Three
//! clients and nodes with small inboxes run on threads. Other clients of nodes are in `ring_world_port_tests`.
#![tactic(auto)]

#[cfg(test)]
mod asked;
#[cfg(test)]
mod callers;
#[cfg(test)]
mod crowded;
#[cfg(test)]
mod memory;
#[cfg(test)]
mod scripted;
#[cfg(test)]
mod tests;
#[cfg(test)]
mod waiting_callers;
