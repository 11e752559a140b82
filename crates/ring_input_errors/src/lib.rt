//! Explanations of faulty files, for people: what was found at the fault, what was expected there, and what was perhaps
//! meant.
//!
//! - Of a script: `ring_script` decides whether it is at fault, and finds the line; this crate only explains it.
//! - Of a file of frames: the bytes after the last frame are explained.
//!
//! Formats: Scripts; Frames; The command line
#![tactic(auto)]

mod closest_name;
mod comment;
mod form;
mod frame_head;
mod frames;
mod groups;
mod line_position;
mod name_list;
mod operation;
mod quoted_word;
mod reason;
mod word_meaning;

pub use frames::frames_reason;
pub use quoted_word::QuotedWord;
pub use reason::reason_by;
pub use ring_script::MAX_SCRIPT_BYTES;
