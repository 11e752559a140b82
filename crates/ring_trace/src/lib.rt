//! The command `trace`: the effect of each event of a script, and at the end why calls have no answer.
//!
//! The run is that of `ring_console`; a trace inspects it after each event.
//!
//! Formats: The command line
#![tactic(auto)]

mod counting;
mod details;
mod event_subject;
mod node_view;
mod places;
mod restoring;
mod selection;
mod sent_calls;
mod sent_frames;
mod sides;
mod trace_command;
mod tracer;

pub use ring_trace_formats::{ReplyForm, ReplyVocabulary, TraceFormat};
pub use selection::Selection;
pub use trace_command::{TraceOptions, trace, trace_of};
