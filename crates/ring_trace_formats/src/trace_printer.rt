//! Printing a trace in the requested format.
//!
//! A picture has no lines. It is printed separately; in a page it comes between two parts of the page.
//!
//! Formats: The command line

ghost use Rattle.std.specs.Prelude.{◌≡◌, IfErr};
ghost use Rattle.ring_failure.specs.Failures.{IsOutputOrMemory};

use crate::text_format;
use ring_base::{Fixed, ProcSet};
use ring_failure::{Failure, output_result};
use ring_payload::Call;
use ring_session::Answer;
use ring_trace_json::{EventDetails, JsonPrinter, TurnValue};
use ring_trace_page::{write_page_after_lines, write_page_after_picture, write_page_head};
use ring_trace_words::{
    Change, Fold, NodeTotals, RunCounts, Told, TraceVocabulary, TracedEvent, WaitReason,
    WaitingCall,
};
use std::alloc::{Allocator, Global};
use std::io::Write;

/// The format in which a trace is printed.
///
/// Formats: The command line
#[derive(Clone, Copy, Debug, PartialEq, Eq)]
pub enum TraceFormat {
    /// Lines for people to read.
    Text,
    /// JSON, with one object on each line.
    Json,
    /// One picture in SVG, which has no lines.
    Svg,
    /// One page in HTML, with the lines of JSON and the picture.
    Html,
}

impl TraceFormat {
    /// Returns whether the format is machine-readable, with the details of events: `Json` and `Html`.
    ///
    /// Formats: The command line
    pub fn has_details(self) -> bool {
        self == TraceFormat::Json || self == TraceFormat::Html
    }

    /// Returns whether the format has a picture: `Svg` and `Html`.
    ///
    /// Formats: The command line
    pub fn has_picture(self) -> bool {
        self == TraceFormat::Svg || self == TraceFormat::Html
    }
}

/// A printer of a trace in one format.
///
/// In the format `Svg` it prints nothing, since the picture is printed separately.
///
/// Formats: The command line
#[derive(Clone, Copy)]
pub struct TracePrinter {
    /// The allocator for the JSON text of a line.
    pub alloc: Global,
    /// The format.
    pub format: TraceFormat,
}

impl TracePrinter {
    /// Returns a printer of the lines in JSON.
    fn json(self) -> JsonPrinter {
        JsonPrinter {
            alloc: self.alloc,
            is_embedded: self.format == TraceFormat::Html,
        }
    }

    /// Prints what comes before all other lines: for `Json` the line of the nodes, and for `Html` the same after the
    /// first part of the page.
    ///
    /// For `Text` and `Svg` nothing is printed.
    ///
    /// Errors: as for [`print_event`](TracePrinter::print_event).
    ///
    /// Formats: The command line
    pub fn print_opening<W: Write>(self, out: &mut W, nodes: Fixed) -> Result<(), Failure>
        ensures picture { self.format ≡ TraceFormat.Svg → out.new ≡ out.old }
        ensures failed { IfErr result IsOutputOrMemory }
    {
        match self.format {
            TraceFormat::Text | TraceFormat::Svg => Ok(()),
            TraceFormat::Json => self.json().print_nodes(out, nodes),
            TraceFormat::Html => {
                output_result(write_page_head(out))?;
                self.json().print_nodes(out, nodes)
            }
        }
    }

    /// Prints the line of an event: its description, its changes to the node, and the node's reports, in the words of
    /// the object.
    ///
    /// `Json` and `Html` also have its details.
    ///
    /// Errors: `Output` if `out` fails; for `Json` and `Html` also `Refused` with `Memory` if an allocation fails. How
    /// much has been written is then unspecified.
    ///
    /// Formats: The command line
    pub fn print_event<A: Allocator + Copy, W: Write>(
        self,
        out: &mut W,
        trace_vocabulary: &TraceVocabulary,
        traced_event: &TracedEvent<'_>,
        changes: &[Change],
        told: &[Told<A>],
        details: EventDetails,
    ) -> Result<(), Failure>
        ensures picture { self.format ≡ TraceFormat.Svg → out.new ≡ out.old }
        ensures failed { IfErr result IsOutputOrMemory }
    {
        match self.format {
            TraceFormat::Text => {
                text_format::print_event(out, trace_vocabulary, traced_event, changes, told)
            }
            TraceFormat::Svg => Ok(()),
            TraceFormat::Json | TraceFormat::Html => self.json().print_event(
                out,
                trace_vocabulary,
                traced_event,
                changes,
                told,
                details,
            ),
        }
    }

    /// Prints the line of a fold: events that deliver frames and change nothing that a trace shows, with the copies lost
    /// between them.
    ///
    /// `Json` and `Html` also have its turns. In `Svg` nothing is printed.
    ///
    /// Errors: as for [`print_event`](TracePrinter::print_event).
    ///
    /// Formats: The command line
    pub fn print_fold<W: Write>(
        self,
        out: &mut W,
        fold: &Fold,
        turns: Vec<TurnValue>,
    ) -> Result<(), Failure>
        ensures picture { self.format ≡ TraceFormat.Svg → out.new ≡ out.old }
        ensures failed { IfErr result IsOutputOrMemory }
    {
        match self.format {
            TraceFormat::Text => text_format::print_fold(out, fold),
            TraceFormat::Svg => Ok(()),
            TraceFormat::Json | TraceFormat::Html => self.json().print_fold(out, fold, turns),
        }
    }

    /// Prints the line of a cut of the nodes into these groups.
    ///
    /// Errors: as for [`print_event`](TracePrinter::print_event).
    ///
    /// Formats: The command line
    pub fn print_cut<W: Write>(self, out: &mut W, groups: &[ProcSet]) -> Result<(), Failure>
        ensures picture { self.format ≡ TraceFormat.Svg → out.new ≡ out.old }
        ensures failed { IfErr result IsOutputOrMemory }
    {
        match self.format {
            TraceFormat::Text => text_format::print_cut(out, groups),
            TraceFormat::Svg => Ok(()),
            TraceFormat::Json | TraceFormat::Html => self.json().print_cut(out, "cut", groups),
        }
    }

    /// Prints the line that says that a cut has healed.
    ///
    /// Errors: as for [`print_event`](TracePrinter::print_event).
    ///
    /// Formats: The command line
    pub fn print_heal<W: Write>(self, out: &mut W) -> Result<(), Failure>
        ensures picture { self.format ≡ TraceFormat.Svg → out.new ≡ out.old }
        ensures failed { IfErr result IsOutputOrMemory }
    {
        match self.format {
            TraceFormat::Text => text_format::print_heal(out),
            TraceFormat::Svg => Ok(()),
            TraceFormat::Json | TraceFormat::Html => self.json().print_cut(out, "heal", &[]),
        }
    }

    /// Prints the numbers of events and frames of the whole run: two lines in text, one in JSON.
    ///
    /// Errors: as for [`print_event`](TracePrinter::print_event).
    ///
    /// Formats: The command line
    pub fn print_run_counts<W: Write>(self, out: &mut W, counts: RunCounts) -> Result<(), Failure>
        ensures picture { self.format ≡ TraceFormat.Svg → out.new ≡ out.old }
        ensures failed { IfErr result IsOutputOrMemory }
    {
        match self.format {
            TraceFormat::Text => text_format::print_run_counts(out, counts),
            TraceFormat::Svg => Ok(()),
            TraceFormat::Json | TraceFormat::Html => self.json().print_run_counts(out, counts),
        }
    }

    /// Prints the line with a node's counts over the whole run and its gauges at the end of the run.
    ///
    /// Errors: as for [`print_event`](TracePrinter::print_event).
    ///
    /// Formats: The command line
    pub fn print_node_counts<W: Write>(
        self,
        out: &mut W,
        totals: &NodeTotals,
    ) -> Result<(), Failure>
        ensures picture { self.format ≡ TraceFormat.Svg → out.new ≡ out.old }
        ensures failed { IfErr result IsOutputOrMemory }
    {
        match self.format {
            TraceFormat::Text => text_format::print_node_counts(out, totals),
            TraceFormat::Svg => Ok(()),
            TraceFormat::Json | TraceFormat::Html => self.json().print_node_counts(out, totals),
        }
    }

    /// Prints the line of a call that has no answer at the end of the run, with the reason.
    ///
    /// Errors: as for [`print_event`](TracePrinter::print_event).
    ///
    /// Formats: The command line
    pub fn print_waiting<W: Write>(
        self,
        out: &mut W,
        waiting: &WaitingCall,
        why: &WaitReason,
    ) -> Result<(), Failure>
        ensures picture { self.format ≡ TraceFormat.Svg → out.new ≡ out.old }
        ensures failed { IfErr result IsOutputOrMemory }
    {
        match self.format {
            TraceFormat::Text => text_format::print_waiting(out, waiting, why),
            TraceFormat::Svg => Ok(()),
            TraceFormat::Json | TraceFormat::Html => self.json().print_waiting(out, waiting, why),
        }
    }

    /// Prints the line of a committed place: `place`, counted from 0, its call, and the answer that the sessions give
    /// to the call at this place.
    ///
    /// Only `Json` and `Html` have such lines. For the other formats nothing is printed.
    ///
    /// Errors: as for [`print_event`](TracePrinter::print_event).
    ///
    /// Formats: The command line
    pub fn print_place<A: Allocator + Copy, W: Write>(
        self,
        out: &mut W,
        trace_vocabulary: &TraceVocabulary,
        place: u64,
        call: &Call<A>,
        answer: &Answer,
    ) -> Result<(), Failure>
        ensures picture { self.format ≡ TraceFormat.Svg → out.new ≡ out.old }
        ensures failed { IfErr result IsOutputOrMemory }
    {
        match self.format {
            TraceFormat::Text | TraceFormat::Svg => Ok(()),
            TraceFormat::Json | TraceFormat::Html => self
                .json()
                .print_place(out, trace_vocabulary, place, call, answer),
        }
    }

    /// Prints the part of a page between its lines and its picture.
    ///
    /// Only `Html` has such a part. For the other formats nothing is printed.
    ///
    /// Errors: `Output` if `out` fails. How much has been written is then unspecified.
    ///
    /// Formats: The command line
    pub fn print_page_after_lines<W: Write>(self, out: &mut W) -> Result<(), Failure>
        ensures picture { self.format ≡ TraceFormat.Svg → out.new ≡ out.old }
        ensures failed { IfErr result IsOutputOrMemory }
    {
        match self.format {
            TraceFormat::Text | TraceFormat::Json | TraceFormat::Svg => Ok(()),
            TraceFormat::Html => output_result(write_page_after_lines(out)),
        }
    }

    /// Prints the part of a page after its picture.
    ///
    /// Only `Html` has such a part. For the other formats nothing is printed.
    ///
    /// Errors: `Output` if `out` fails. How much has been written is then unspecified.
    ///
    /// Formats: The command line
    pub fn print_page_after_picture<W: Write>(self, out: &mut W) -> Result<(), Failure>
        ensures picture { self.format ≡ TraceFormat.Svg → out.new ≡ out.old }
        ensures failed { IfErr result IsOutputOrMemory }
    {
        match self.format {
            TraceFormat::Text | TraceFormat::Json | TraceFormat::Svg => Ok(()),
            TraceFormat::Html => output_result(write_page_after_picture(out)),
        }
    }
}
