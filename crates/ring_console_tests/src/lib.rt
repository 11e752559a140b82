//! Tests of the program's output where memory is refused or an input fails, of the greatest length of a script, and of generated
//! scripts.
//!
//! Contracts say which texts are scripts and what their lines request. The data of `totem_examples` shows what scripts and
//! listings print, also where the output fails. Expected values are those of the tables and worked examples in `docs/FORMATS.md`.
//! Formats: The command line
#![tactic(auto)]

#[cfg(test)]
mod explained;
#[cfg(test)]
mod failing_runs;
#[cfg(test)]
mod failures;
#[cfg(test)]
mod inputs;
#[cfg(test)]
mod listings;
#[cfg(test)]
mod made_scripts;
#[cfg(test)]
mod making_refused;
#[cfg(test)]
mod partition;
#[cfg(test)]
mod printed;
#[cfg(test)]
mod refused_checks;
#[cfg(test)]
mod scripts;
