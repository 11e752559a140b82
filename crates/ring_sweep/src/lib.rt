//! The command `sweep`: a script is run again with a stop, and with an isolation, of each node before each of its
//! events.
//!
//! Formats: The command line
#![tactic(auto)]

mod base_run;
mod counted_run;
mod injection;
mod laws;
mod legal;
mod rounds;
mod script_position;
mod sweeping;
mod variant_range;
mod variant_script;

pub use injection::{Injection, InjectionKind};
pub use laws::{first_law, variants_law};
pub use ring_console::{
    Failure, Groups, Script, ScriptLine, ShelfVocabulary, StandardObjects, Vocabulary, frames,
    is_linearization, report_failure, script, script_check, script_of,
};
pub use ring_failure::{BAD_COMMAND_LINE, FAILED};
pub use sweeping::{
    SweepResult, sweep, sweep_by_threads, sweep_of, sweep_of_by_threads, verdict_status,
};
pub use variant_script::{print_variant, print_variant_of};
