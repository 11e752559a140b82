//! Tests of nodes beyond their contracts.
//! Each call succeeds if memory is left, and each refused request for memory is reported as such, in a ring of one that answers and
//! in one that trims its log. A node may be sent to another thread. What nodes answer is shown by `ring_node_spec_examples` and by
//! the data of `totem_examples`.
#![tactic(auto)]

#[cfg(test)]
mod driven;
#[cfg(test)]
mod memory;
#[cfg(test)]
mod threads;
#[cfg(test)]
mod trimming;
