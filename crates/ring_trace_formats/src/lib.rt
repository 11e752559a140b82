//! The formats of a trace: text, JSON, a picture in SVG, and a page in HTML.
//!
//! Formats: The command line
#![tactic(auto)]

mod text_format;
mod trace_printer;

pub use ring_trace_json::{EventDetails, InputValue, SendValue, TurnValue};
pub use ring_trace_picture::TracePicture;
pub use ring_trace_words::{
    CallWords, Change, DeliveryKind, Fold, NodeTotals, ReplyForm, ReplyVocabulary, RunCounts, Told,
    TraceVocabulary, TracedEvent, VoteShare, WaitReason, WaitingCall, WaitingCalls,
};
pub use trace_printer::{TraceFormat, TracePrinter};
