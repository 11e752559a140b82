//! Tests of what the contracts of the book don't state: that a call is answered, that each call succeeds while there is
//! memory, the outcome where memory is refused, that cells and books may move to other threads, and that nodes drop
//! committed places and are restored. It also states what a caller learns from the book's laws together with those of the
//! nodes.
#![tactic(auto)]

#[cfg(test)]
mod driven;
#[cfg(test)]
mod linear;
#[cfg(test)]
mod memory;
#[cfg(test)]
mod refusals;
#[cfg(test)]
mod threads;
#[cfg(test)]
mod trimmed;
