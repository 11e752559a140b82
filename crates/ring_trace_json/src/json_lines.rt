//! The lines of a trace, as values for JSON.
//!
//! Formats: The command line

use crate::change_and_report_values::{ChangeValue, FrameCountsValue, ToldValue};
use crate::event_details::{InputValue, SendValue, TurnValue};
use serde::Serialize;

/// The version of the format.
pub(crate) const VERSION: u8 = 1;

/// The first line: the votes of the nodes, in order.
#[derive(Drop, Serialize)]
pub(crate) struct NodesLine {
    pub version: u8,
    pub kind: &'static str,
    pub votes: Vec<u32>,
}

#[derive(Drop, Serialize)]
pub(crate) struct EventLine<'a> {
    pub version: u8,
    pub kind: &'static str,
    pub event: u64,
    pub node: u8,
    pub what: &'a str,
    #[serde(skip_serializing_if = "Option::is_none")]
    pub input: Option<InputValue>,
    pub changes: Vec<ChangeValue>,
    pub told: Vec<ToldValue>,
    pub sends: Vec<SendValue>,
}

#[derive(Drop, Serialize)]
pub(crate) struct FoldLine {
    pub version: u8,
    pub kind: &'static str,
    pub first: u64,
    pub last: u64,
    pub frames: u64,
    pub rounds: u64,
    pub lost: u64,
    pub turns: Vec<TurnValue>,
}

/// A cut into groups, or a heal, which has no groups.
#[derive(Drop, Serialize)]
pub(crate) struct CutLine {
    pub version: u8,
    pub kind: &'static str,
    pub groups: Vec<Vec<u8>>,
}

#[derive(Drop, Serialize)]
pub(crate) struct CountsLine {
    pub version: u8,
    pub kind: &'static str,
    pub events: u64,
    pub frames: u64,
}

/// The counts of a node over the whole run.
#[derive(Drop, Serialize)]
pub(crate) struct TotalsLine {
    pub version: u8,
    pub kind: &'static str,
    pub node: u8,
    pub received: FrameCountsValue,
    pub noise: u64,
    pub sent: FrameCountsValue,
    pub tokens_taken: u64,
    pub tokens_ignored: u64,
    pub messages_again: u64,
    pub tokens_again: u64,
    pub rings: u64,
    pub refusals: u64,
    pub submitted: u64,
    pub answered: u64,
    pub waiting: u64,
    pub committed: u64,
    pub dropped: u64,
}

/// A call without an answer at the end of the run.
#[derive(Drop, Serialize)]
pub(crate) struct WaitingLine {
    pub version: u8,
    pub kind: &'static str,
    pub node: u8,
    pub client: u32,
    pub number: u64,
    pub reason: &'static str,
    pub why: String,
}

/// A committed place of the log: its call, and the answer to it.
#[derive(Drop, Serialize)]
pub(crate) struct PlaceLine {
    pub version: u8,
    pub kind: &'static str,
    pub place: u64,
    pub client: u32,
    pub number: u64,
    pub operation: String,
    pub outcome: &'static str,
    pub reply: String,
}
