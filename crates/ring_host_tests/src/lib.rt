//! Tests of a host for what no contract says.
//!
//! Calls are answered; a turn's length counts dropped places; timeouts come in their order; copies are dropped and
//! counted; nodes work at the same time, and things are done in their order around both places of a gate; runs end, or
//! go on; refusals of memory do no harm; and calls are refused in their order, also once the book is full.
//!
//! Each polled answer is compared with the book's own. Wherever that is enough, the tests turn the nodes by hand, so
//! that each run of a test has the same outcome.
//!
//! Rules: The book and the threads 19 to 34; Refusals 3 to 6
#![tactic(auto)]

#[cfg(test)]
mod alone;
#[cfg(test)]
mod driven;
#[cfg(test)]
mod full;
#[cfg(test)]
mod gate_places;
#[cfg(test)]
mod gates;
#[cfg(test)]
mod gauge;
#[cfg(test)]
mod inboxes;
#[cfg(test)]
mod outboxes;
#[cfg(test)]
mod refusals;
#[cfg(test)]
mod running;
#[cfg(test)]
mod three;
#[cfg(test)]
mod timeouts;
