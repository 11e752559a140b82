//! The output of the program `totem`: listings of frames and runs of scripts, over any reader and two writers.
//!
//! Each function writes the bytes for standard output and standard error, and returns the exit status.
//!
//! Formats: The command line
#![tactic(auto)]

mod frame_lines;
mod frame_reader;
mod line_buffer;
mod listing;
mod printed_lines;
mod script_command;
mod script_run;

pub use listing::frames;
pub use ring_checker::is_linearization;
pub use ring_failure::{Failure, report_failure};
pub use ring_script::{
    EmptyVocabulary, Groups, NumberedLine, Script, ScriptFault, ScriptLine, ShelfVocabulary,
    Vocabulary,
};
pub use ring_things::StandardObjects;
pub use ring_world::{Event, OpenCopy, Told, World};
pub use script_command::{is_legal, script, script_check, script_of};
pub use script_run::ScriptRun;
