//! Counting the events of a run at their nodes.
//!
//! Formats: The command line; Records

use crate::sent_frames::SentFrame;
use ring_counts::{CountedInput, NodeCounts};
use ring_trace_formats::Told;
use std::alloc::Allocator;

/// What a node received in an event, as far as its counts depend on it.
#[derive(Clone, Copy)]
pub(crate) enum CountedEvent {
    /// A client submitted a call.
    Call,
    /// A node that hadn't stopped received an input.
    Input(CountedInput),
    /// A stopped node received an input.
    Refused,
    /// Nothing was received: a line gave a frame that wasn't sent, or not to the node.
    Nothing,
}

/// Counts an event of a node: what it received, the frames that it sent, its reports, and whether it installed a ring.
///
/// Formats: Records
pub(crate) fn count_event<A: Allocator + Copy>(
    counts: &mut NodeCounts,
    event: CountedEvent,
    sent: &[SentFrame],
    told: &[Told<A>],
    has_installed: bool,
) {
    match event {
        CountedEvent::Call => count_call(counts, told),
        CountedEvent::Input(input) => {
            counts.note_input(input);
            count_sent(counts, input, sent);
            counts.note_outcome(input, !sent.is_empty(), answers_in(told), has_installed);
        }
        CountedEvent::Refused => counts.note_refusal(),
        CountedEvent::Nothing => {}
    }
}

/// Counts a submitted call, which got a ticket unless its node refused it.
fn count_call<A: Allocator + Copy>(counts: &mut NodeCounts, told: &[Told<A>]) {
    for one in told {
        if let Told::Refused(_, _, _) = one {
            counts.note_refusal();
            return;
        }
    }
    counts.note_submit();
}

/// Counts the frames that a step on this input sent.
fn count_sent(counts: &mut NodeCounts, input: CountedInput, sent: &[SentFrame]) {
    for frame in sent {
        if let Some(counted) = frame.counted {
            counts.note_sent(input, counted);
        }
    }
}

/// Returns the number of answers among the reports.
fn answers_in<A: Allocator + Copy>(told: &[Told<A>]) -> u64 {
    let mut many = 0u64;
    for one in told {
        if let Told::Answer(_, _, _) = one {
            many = many.saturating_add(1);
        }
    }
    many
}
