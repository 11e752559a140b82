//! Changes of nodes and their reports on calls, as values for JSON.
//!
//! Formats: The command line

ghost use Rattle.std.specs.Prelude.{◌≡◌, IfErr};
ghost use Rattle.ring_base.specs.declared.fault.Fault.TheVariants.{Memory};

use ring_base::{Fault, ProcSet};
use ring_counts::FrameCounts;
use ring_failure::state_name;
use ring_object::Reply;
use ring_payload::Call;
use ring_session::Answer;
use ring_trace_words::{Change, OperationWords, ReasonWords, ReplyWords, Told, TraceVocabulary};
use serde::Serialize;
use std::alloc::{AllocError, Allocator, Global};

/// A change of a node, under its name.
///
/// Formats: The command line
#[derive(Drop, Serialize)]
#[serde(rename_all = "snake_case")]
pub(crate) enum ChangeValue {
    State(&'static str),
    Ring(RingValue),
    Committed(u64),
    Trimmed(u64),
    Restored(u64),
    /// The length of the log.
    Log(u64),
}

/// A ring that a node installed.
#[derive(Drop, Serialize)]
pub(crate) struct RingValue {
    ring: String,
    members: Vec<u8>,
    votes: u32,
    all_votes: u32,
    is_primary: bool,
}

/// The number of frames of each kind.
///
/// Formats: The command line
#[derive(Drop, Serialize)]
pub(crate) struct FrameCountsValue {
    messages: u64,
    tokens: u64,
    joins: u64,
    commits: u64,
}

/// Converts the counts of frames to a value.
///
/// Formats: The command line
pub(crate) fn frame_counts_value(counts: FrameCounts) -> FrameCountsValue {
    FrameCountsValue {
        messages: counts.messages,
        tokens: counts.tokens,
        joins: counts.joins,
        commits: counts.commits,
    }
}

/// A node's report on a call: the call, the outcome, and the reply or the refusal in words.
///
/// Formats: The command line
#[derive(Drop, Serialize)]
pub(crate) struct ToldValue {
    pub client: u32,
    pub number: u64,
    pub operation: String,
    pub outcome: &'static str,
    pub reply: String,
}

/// Converts the changes of a node, and the length `log` of its log if that changed, to values.
///
/// Errors: `Memory` if an allocation fails.
///
/// Formats: The command line
pub(crate) fn change_values(
    alloc: Global,
    changes: &[Change],
    log: Option<u64>,
) -> Result<Vec<ChangeValue>, Fault>
    ensures { IfErr result (λ fault. fault ≡ Memory) }
{
    let mut values = Vec::new(alloc);
    for change in changes {
        values.push(change_value(alloc, change)?)?;
    }
    if let Some(length) = log {
        values.push(ChangeValue::Log(length))?;
    }
    Ok(values)
}

/// Converts a change to a value.
fn change_value(alloc: Global, change: &Change) -> Result<ChangeValue, Fault>
    ensures { IfErr result (λ fault. fault ≡ Memory) }
{
    match change {
        Change::State(state) => Ok(ChangeValue::State(state_name(*state))),
        Change::Ring {
            ring,
            members,
            share,
        } => {
            let ring = format!(in alloc; "{ring}")?;
            let members = member_numbers(alloc, *members)?;
            Ok(ChangeValue::Ring(RingValue {
                ring,
                members,
                votes: share.own,
                all_votes: share.all,
                is_primary: share.is_primary,
            }))
        }
        Change::Committed(length) => Ok(ChangeValue::Committed(*length)),
        Change::Trimmed(length) => Ok(ChangeValue::Trimmed(*length)),
        Change::Restored(length) => Ok(ChangeValue::Restored(*length)),
    }
}

/// Converts a node's reports to values for JSON, in the words of the object, in order.
///
/// Errors: `Memory` if an allocation fails.
///
/// Formats: The command line
pub(crate) fn told_values<A: Allocator + Copy>(
    alloc: Global,
    trace_vocabulary: &TraceVocabulary,
    told: &[Told<A>],
) -> Result<Vec<ToldValue>, Fault>
    ensures { IfErr result (λ fault. fault ≡ Memory) }
{
    let mut values = Vec::new(alloc);
    for one in told {
        let value = match one {
            Told::Answer(_, call, answer) => answer_value(alloc, trace_vocabulary, call, answer)?,
            Told::Refused(_, call, reason) => refusal_value(
                alloc,
                trace_vocabulary,
                call,
                "not taken",
                *reason,
            )?,
        };
        values.push(value)?;
    }
    Ok(values)
}

/// Converts an answer to a value, in the words of the object.
///
/// Errors: `Memory` if an allocation fails.
///
/// Formats: The command line
pub(crate) fn answer_value<A: Allocator + Copy>(
    alloc: Global,
    trace_vocabulary: &TraceVocabulary,
    call: &Call<A>,
    answer: &Answer,
) -> Result<ToldValue, Fault>
    ensures { IfErr result (λ fault. fault ≡ Memory) }
{
    match answer {
        Answer::Done(reply) => reply_value(alloc, trace_vocabulary, call, "done", reply),
        Answer::Kept(reply) => reply_value(alloc, trace_vocabulary, call, "kept", reply),
        Answer::Refused(reason) => refusal_value(alloc, trace_vocabulary, call, "refused", *reason),
    }
}

/// Converts the refusal of a call, with the number `reason` of its fault, to a value.
fn refusal_value<A: Allocator + Copy>(
    alloc: Global,
    trace_vocabulary: &TraceVocabulary,
    call: &Call<A>,
    outcome: &'static str,
    reason: u8,
) -> Result<ToldValue, Fault>
    ensures { IfErr result (λ fault. fault ≡ Memory) }
{
    let words = ReasonWords(reason);
    let text = format!(in alloc; "{words}")?;
    told_value(alloc, trace_vocabulary, call, outcome, text)
}

/// Converts a reply to a value.
fn reply_value<A: Allocator + Copy>(
    alloc: Global,
    trace_vocabulary: &TraceVocabulary,
    call: &Call<A>,
    outcome: &'static str,
    reply: &Reply,
) -> Result<ToldValue, Fault>
    ensures { IfErr result (λ fault. fault ≡ Memory) }
{
    let words = ReplyWords {
        trace_vocabulary,
        operation: call.op.as_slice(),
        reply: reply.as_slice(),
    };
    let text = format!(in alloc; "{words}")?;
    told_value(alloc, trace_vocabulary, call, outcome, text)
}

/// Converts a report on a call to a value.
fn told_value<A: Allocator + Copy>(
    alloc: Global,
    trace_vocabulary: &TraceVocabulary,
    call: &Call<A>,
    outcome: &'static str,
    reply: String,
) -> Result<ToldValue, Fault>
    ensures { IfErr result (λ fault. fault ≡ Memory) }
{
    let words = OperationWords {
        trace_vocabulary,
        operation: call.op.as_slice(),
    };
    Ok(ToldValue {
        client: call.client,
        number: call.number,
        operation: format!(in alloc; "{words}")?,
        outcome,
        reply,
    })
}

/// Returns the numbers of a set's members.
///
/// Errors: `AllocError` if an allocation fails.
pub(crate) fn member_numbers(alloc: Global, set: ProcSet) -> Result<Vec<u8>, AllocError> {
    let mut numbers = Vec::new(alloc);
    for node in set.iter() {
        numbers.push(node.number())?;
    }
    Ok(numbers)
}
