//! Tests of logs and exchanges under refused memory, which no contract covers.
//! Each call that takes memory succeeds if memory is left. As each of its requests is refused in turn, the right fault is
//! returned.
#![tactic(auto)]

#[cfg(test)]
mod tests;
