//! The script language, as a text: the number of nodes, their votes, and the events, in order.
//!
//! The parser accepts a whole text or reports its first fault; it runs nothing.
//!
//! Formats: Scripts
#![tactic(auto)]

mod examples;
mod groups;
mod hex_word;
mod laws;
mod line;
mod lines;
mod operation;
mod scripts;
mod shelf_vocabulary;
mod vocabulary;
mod votes;
mod words;

pub use examples::script_example;
pub use groups::Groups;
pub use laws::cut_law;
pub use line::{MAX_TURNS, ScriptLine, timeout_name};
pub use operation::{MAX_NAME_BYTES, is_name};
pub use ring_payload::MAX_OPERATION;
pub use scripts::{MAX_SCRIPT_BYTES, NumberedLine, Script, ScriptFault, is_skipped};
pub use shelf_vocabulary::ShelfVocabulary;
pub use vocabulary::{Argument, EmptyVocabulary, OperationForm, Vocabulary};
