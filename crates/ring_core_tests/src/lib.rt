//! Tests of what no contract of the base and of the parts of a ring core states: texts and numbers that users see,
//! refusals of memory, and which requests `refusing_alloc` refuses, for one thread and for two. Also the votes that
//! docs/FORMATS.md works out.
#![tactic(auto)]

#[cfg(test)]
mod ghost_value;
#[cfg(test)]
mod groups;
#[cfg(test)]
mod recoveries;
#[cfg(test)]
mod requests;
#[cfg(test)]
mod rings;
#[cfg(test)]
mod texts;
#[cfg(test)]
mod windows;
