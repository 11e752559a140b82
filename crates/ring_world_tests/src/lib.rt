//! Tests of what the contracts of worlds and drivers don't state: that each call succeeds while there is memory, and each
//! request for memory of a short run refused in turn. It also states what a caller learns of a world after a run. Groups of
//! driven nodes exchange frames, and one of them is restored after it was cut off. A driver's timeouts come by the time that
//! is brought to it. Worked runs of worlds are computed from the definitions in `ring_node_spec_examples`, and are scripts in
//! the data of `totem_examples`.
#![tactic(auto)]

#[cfg(test)]
mod events;
#[cfg(test)]
mod grouped;
#[cfg(test)]
mod knowing;
#[cfg(test)]
mod memory;
#[cfg(test)]
mod restoring;
#[cfg(test)]
mod timed;
