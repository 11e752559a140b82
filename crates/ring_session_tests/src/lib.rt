//! Tests of what no contract of objects, sessions and tickets states. Worked operations, replies and snapshots have exactly
//! their bytes. Work that takes memory succeeds where there is memory, and reports each refused request.
//!
//! Rules: Objects 2 to 5; Sessions 3, 5 and 12; The replicated log 13 to 15
//! Formats: Operations and replies, Snapshots
#![tactic(auto)]

#[cfg(test)]
mod hex_text;
#[cfg(test)]
mod memory;
#[cfg(test)]
mod sessions;
#[cfg(test)]
mod snapshots;
#[cfg(test)]
mod things;
#[cfg(test)]
mod tickets;
