//! Tests of what the contracts of the ports to a world don't state, since the contents of a shared network have no
//! clauses: which refusal comes when, that a poll gives the node's answer, worked runs of a client, and that a refused
//! request for memory neither loses nor repeats a call.
#![tactic(auto)]

#[cfg(test)]
mod clients;
#[cfg(test)]
mod memory;
#[cfg(test)]
mod ports;
#[cfg(test)]
mod shared;
