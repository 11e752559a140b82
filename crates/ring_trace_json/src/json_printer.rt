//! Printing the lines of a trace as JSON.
//!
//! Formats: The command line

ghost use Rattle.std.specs.Prelude.{◌≡◌, IfErr};
ghost use Rattle.ring_base.specs.declared.fault.Fault.TheVariants.{Memory};
ghost use Rattle.ring_failure.specs.Failures.{IsOutputOrMemory};
ghost use Rattle.ring_failure.specs.declared.failure.Failure.TheVariants.{Output};

use crate::change_and_report_values::{
    answer_value, change_values, frame_counts_value, member_numbers, told_values,
};
use crate::event_details::{EventDetails, TurnValue};
use crate::json_lines::{
    CountsLine, CutLine, EventLine, FoldLine, NodesLine, PlaceLine, TotalsLine, VERSION,
    WaitingLine,
};
use ring_base::{Fault, Fixed, ProcSet};
use ring_failure::Failure;
use ring_payload::Call;
use ring_session::Answer;
use ring_trace_words::{
    Change, Fold, NodeTotals, RunCounts, Told, TraceVocabulary, TracedEvent, WaitReason,
    WaitingCall,
};
use serde::Serialize;
use serde_json::to_string;
use std::alloc::{Allocator, Global};
use std::io::Write;

/// A printer of the lines of a trace as JSON.
///
/// Each function prints one object as one line, with its line feed.
///
/// Formats: The command line
#[derive(Clone, Copy)]
pub struct JsonPrinter {
    /// The allocator for the text of a line.
    pub alloc: Global,
    /// Whether the lines are embedded in a page.
    ///
    /// Then `<` is written as `\u003c`, so that no string in them ends the page's element that contains them.
    pub is_embedded: bool,
}

impl JsonPrinter {
    /// Prints a value as a line of JSON.
    ///
    /// Errors: `Output` if `out` fails; `Refused` with `Memory` if an allocation fails.
    fn print_line<T: Serialize, W: Write>(self, out: &mut W, line: &T) -> Result<(), Failure>
        ensures { IfErr result IsOutputOrMemory }
    {
        match to_string(self.alloc, line) {
            Ok(text) if self.is_embedded => print_embedded(out, text.as_str()),
            Ok(text) => writeln!(out, "{text}").map_err(|_| Failure::Output),
            Err(_) => Err(Failure::Refused(Fault::Memory)),
        }
    }

    /// Prints the object of the nodes: the votes of each.
    ///
    /// Errors: `Output` if `out` fails; `Refused` with `Memory` if an allocation fails. How much has been written is
    /// then unspecified.
    ///
    /// Formats: The command line
    pub fn print_nodes<W: Write>(self, out: &mut W, nodes: Fixed) -> Result<(), Failure>
        ensures { IfErr result IsOutputOrMemory }
    {
        let votes = votes_of(self.alloc, nodes)?;
        let line = NodesLine {
            version: VERSION,
            kind: "nodes",
            votes,
        };
        self.print_line(out, &line)
    }

    /// Prints the object of an event: its description and its input, its changes to the node, the node's reports, and
    /// the frames that it sent.
    ///
    /// Errors: `Output` if `out` fails; `Refused` with `Memory` if an allocation fails. How much has been written is
    /// then unspecified.
    ///
    /// Formats: The command line
    pub fn print_event<A: Allocator + Copy, W: Write>(
        self,
        out: &mut W,
        trace_vocabulary: &TraceVocabulary,
        traced_event: &TracedEvent<'_>,
        changes: &[Change],
        told: &[Told<A>],
        details: EventDetails,
    ) -> Result<(), Failure>
        ensures { IfErr result IsOutputOrMemory }
    {
        let told = told_values(self.alloc, trace_vocabulary, told)?;
        let changes = change_values(self.alloc, changes, details.changed_log_len)?;
        let line = EventLine {
            version: VERSION,
            kind: "event",
            event: traced_event.event,
            node: traced_event.node.number(),
            what: traced_event.description,
            input: details.input,
            changes,
            told,
            sends: details.sent_frames,
        };
        self.print_line(out, &line)
    }

    /// Prints the object of a fold, with its turns: events that deliver frames and change nothing that a trace shows, with
    /// the copies lost between them.
    ///
    /// Errors: as for [`print_event`](JsonPrinter::print_event).
    ///
    /// Formats: The command line
    pub fn print_fold<W: Write>(
        self,
        out: &mut W,
        fold: &Fold,
        turns: Vec<TurnValue>,
    ) -> Result<(), Failure>
        ensures { IfErr result IsOutputOrMemory }
    {
        let line = FoldLine {
            version: VERSION,
            kind: "fold",
            first: fold.first,
            last: fold.last,
            frames: fold.frames,
            rounds: fold.rounds,
            lost: fold.lost,
            turns,
        };
        self.print_line(out, &line)
    }

    /// Prints the object of a cut into these groups, or of a heal.
    ///
    /// `kind` must be `cut`, or `heal` without groups; this isn't checked.
    ///
    /// Errors: as for [`print_event`](JsonPrinter::print_event).
    ///
    /// Formats: The command line
    pub fn print_cut<W: Write>(
        self,
        out: &mut W,
        kind: &'static str,
        groups: &[ProcSet],
    ) -> Result<(), Failure>
        ensures { IfErr result IsOutputOrMemory }
    {
        let groups = groups_of(self.alloc, groups)?;
        let line = CutLine {
            version: VERSION,
            kind,
            groups,
        };
        self.print_line(out, &line)
    }

    /// Prints the object with the counts of the events and frames of the whole run.
    ///
    /// Errors: as for [`print_event`](JsonPrinter::print_event).
    ///
    /// Formats: The command line
    pub fn print_run_counts<W: Write>(self, out: &mut W, counts: RunCounts) -> Result<(), Failure>
        ensures { IfErr result IsOutputOrMemory }
    {
        let line = CountsLine {
            version: VERSION,
            kind: "counts",
            events: counts.events,
            frames: counts.frames,
        };
        self.print_line(out, &line)
    }

    /// Prints, as one line, the object with a node's counts over the whole run and its gauges at the end of the run.
    ///
    /// Errors: as for [`print_event`](JsonPrinter::print_event).
    ///
    /// Formats: The command line
    pub fn print_node_counts<W: Write>(
        self,
        out: &mut W,
        totals: &NodeTotals,
    ) -> Result<(), Failure>
        ensures { IfErr result IsOutputOrMemory }
    {
        let (counts, gauges) = (totals.counts, totals.gauges);
        let line = TotalsLine {
            version: VERSION,
            kind: "node counts",
            node: totals.node.number(),
            received: frame_counts_value(counts.received),
            noise: counts.noise,
            sent: frame_counts_value(counts.sent),
            tokens_taken: counts.tokens_taken,
            tokens_ignored: counts.tokens_ignored,
            messages_again: counts.messages_again,
            tokens_again: counts.tokens_again,
            rings: counts.rings,
            refusals: counts.refusals,
            submitted: counts.submitted,
            answered: counts.answered,
            waiting: gauges.waiting,
            committed: gauges.committed,
            dropped: gauges.dropped,
        };
        self.print_line(out, &line)
    }

    /// Prints the object of a call that has no answer at the end of the run, with the reason by its name and in words.
    ///
    /// Errors: as for [`print_event`](JsonPrinter::print_event).
    ///
    /// Formats: The command line
    pub fn print_waiting<W: Write>(
        self,
        out: &mut W,
        waiting: &WaitingCall,
        why: &WaitReason,
    ) -> Result<(), Failure>
        ensures { IfErr result IsOutputOrMemory }
    {
        let reason = why.code();
        let why = match format!(in self.alloc; "{why}") {
            Ok(text) => text,
            Err(_) => return Err(Failure::Refused(Fault::Memory)),
        };
        let line = WaitingLine {
            version: VERSION,
            kind: "no answer",
            node: waiting.node.number(),
            client: waiting.client,
            number: waiting.number,
            reason,
            why,
        };
        self.print_line(out, &line)
    }

    /// Prints the object of a committed place: `place`, counted from 0, its call, and the answer that the sessions give
    /// to the call at this place.
    ///
    /// Errors: as for [`print_event`](JsonPrinter::print_event).
    ///
    /// Formats: The command line
    pub fn print_place<A: Allocator + Copy, W: Write>(
        self,
        out: &mut W,
        trace_vocabulary: &TraceVocabulary,
        place: u64,
        call: &Call<A>,
        answer: &Answer,
    ) -> Result<(), Failure>
        ensures { IfErr result IsOutputOrMemory }
    {
        let value = answer_value(self.alloc, trace_vocabulary, call, answer)?;
        let line = PlaceLine {
            version: VERSION,
            kind: "place",
            place,
            client: value.client,
            number: value.number,
            operation: value.operation,
            outcome: value.outcome,
            reply: value.reply,
        };
        self.print_line(out, &line)
    }
}

/// Prints a line of JSON with each `<` as `\u003c`.
///
/// A `<` occurs only in strings.
fn print_embedded<W: Write>(out: &mut W, text: &str) -> Result<(), Failure>
    ensures { IfErr result (λ failure. failure ≡ Output) }
{
    let mut is_first = true;
    for part in text.split('<') {
        let before = if is_first { "" } else { "\\u003c" };
        write!(out, "{before}{part}").map_err(|_| Failure::Output)?;
        is_first = false;
    }
    writeln!(out).map_err(|_| Failure::Output)
}

/// Returns the votes of the nodes, in order.
fn votes_of(alloc: Global, nodes: Fixed) -> Result<Vec<u32>, Fault>
    ensures { IfErr result (λ fault. fault ≡ Memory) }
{
    let mut votes = Vec::new(alloc);
    for node in nodes.everybody().iter() {
        votes.push(nodes.votes_in(ProcSet::singleton(node)))?;
    }
    Ok(votes)
}

/// Returns the numbers of the nodes of each group.
fn groups_of(alloc: Global, groups: &[ProcSet]) -> Result<Vec<Vec<u8>>, Fault>
    ensures { IfErr result (λ fault. fault ≡ Memory) }
{
    let mut numbers = Vec::new(alloc);
    for group in groups {
        numbers.push(member_numbers(alloc, *group)?)?;
    }
    Ok(numbers)
}
