//! The words of a trace: for a node's changes and reports, for folds of events in which nothing changes, and for the
//! reasons why calls have no answer.
//!
//! Formats: The command line
#![tactic(auto)]

mod argument_words;
mod call_words;
mod delivery_kind;
mod fold;
mod node_change;
mod node_totals;
mod operation_words;
mod reason_words;
mod reply_words;
mod shelf_replies;
mod told_words;
mod trace_vocabulary;
mod traced_event;
mod vote_share;
mod wait_reason;
mod waiting;

pub use call_words::CallWords;
pub use delivery_kind::DeliveryKind;
pub use fold::Fold;
pub use node_change::Change;
pub use node_totals::NodeTotals;
pub use operation_words::OperationWords;
pub use reason_words::ReasonWords;
pub use reply_words::ReplyWords;
pub use ring_node_spec::Told;
pub use told_words::ToldWords;
pub use trace_vocabulary::{ReplyForm, ReplyVocabulary, TraceVocabulary};
pub use traced_event::{RunCounts, TracedEvent};
pub use vote_share::VoteShare;
pub use wait_reason::WaitReason;
pub use waiting::{WaitingCall, WaitingCalls};
