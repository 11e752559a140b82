//! Tests of the program's commands that no data can show. What the commands print is shown by the data of `totem_examples`.
//!
//! - Nodes driven by records: each request for memory refused in turn, and three nodes that report what a script prints.
//! - Sweeps: the variant that is named. No known run has a variant that isn't legal, so the tests build such results themselves.
//!
//! Rules: Nodes that records drive 2 to 5
//! Formats: Records; The command line
#![tactic(auto)]

#[cfg(test)]
mod memory;
#[cfg(test)]
mod recorded_node;
#[cfg(test)]
mod records;
#[cfg(test)]
mod script_driver;
#[cfg(test)]
mod served;
#[cfg(test)]
mod three_nodes;
#[cfg(test)]
mod variants;
