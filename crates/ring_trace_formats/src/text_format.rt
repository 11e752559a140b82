//! The text format of a trace.
//!
//! Formats: The command line

ghost use Rattle.std.specs.Prelude.{◌≡◌, IfErr};
ghost use Rattle.ring_failure.specs.declared.failure.Failure.TheVariants.{Output};

use ring_base::ProcSet;
use ring_failure::Failure;
use ring_trace_words::{
    Change, Fold, NodeTotals, RunCounts, Told, ToldWords, TraceVocabulary, TracedEvent, WaitReason,
    WaitingCall,
};
use std::alloc::Allocator;
use std::io::Write;

/// Prints the line of an event: its description, its changes to the node, and the node's reports, in the words of the
/// object.
///
/// Errors: `Output` if `out` fails. How much has been written is then unspecified.
///
/// Formats: The command line
pub(crate) fn print_event<A: Allocator + Copy, W: Write>(
    out: &mut W,
    trace_vocabulary: &TraceVocabulary,
    traced_event: &TracedEvent<'_>,
    changes: &[Change],
    told: &[Told<A>],
) -> Result<(), Failure>
    ensures { IfErr result (λ failure. failure ≡ Output) }
{
    let (event, node, what) = (
        traced_event.event,
        traced_event.node,
        traced_event.description,
    );
    write!(out, "{event} {what}").map_err(|_| Failure::Output)?;
    for change in changes {
        write!(out, "; node {node} {change}").map_err(|_| Failure::Output)?;
    }
    for told in told {
        let words = ToldWords {
            trace_vocabulary,
            told,
        };
        write!(out, "; node {node} {words}").map_err(|_| Failure::Output)?;
    }
    writeln!(out).map_err(|_| Failure::Output)
}

/// Prints the line of a fold: events that deliver frames and change nothing that a trace shows, with the copies lost
/// between them.
///
/// Errors: `Output` if `out` fails. How much has been written is then unspecified.
///
/// Formats: The command line
pub(crate) fn print_fold<W: Write>(out: &mut W, fold: &Fold) -> Result<(), Failure>
    ensures { IfErr result (λ failure. failure ≡ Output) }
{
    writeln!(out, "{fold}").map_err(|_| Failure::Output)
}

/// Prints the line of a cut of the nodes into these groups.
///
/// Errors: `Output` if `out` fails. How much has been written is then unspecified.
///
/// Formats: The command line
pub(crate) fn print_cut<W: Write>(out: &mut W, groups: &[ProcSet]) -> Result<(), Failure>
    ensures { IfErr result (λ failure. failure ≡ Output) }
{
    write!(out, "cut").map_err(|_| Failure::Output)?;
    for group in groups {
        write!(out, " {group}").map_err(|_| Failure::Output)?;
    }
    writeln!(out).map_err(|_| Failure::Output)
}

/// Prints the line that says that a cut has healed.
///
/// Errors: `Output` if `out` fails. How much has been written is then unspecified.
///
/// Formats: The command line
pub(crate) fn print_heal<W: Write>(out: &mut W) -> Result<(), Failure>
    ensures { IfErr result (λ failure. failure ≡ Output) }
{
    writeln!(out, "heal").map_err(|_| Failure::Output)
}

/// Prints two lines: the number of events and the number of frames of the whole run.
///
/// Errors: `Output` if `out` fails. How much has been written is then unspecified.
///
/// Formats: The command line
pub(crate) fn print_run_counts<W: Write>(out: &mut W, counts: RunCounts) -> Result<(), Failure>
    ensures { IfErr result (λ failure. failure ≡ Output) }
{
    let RunCounts { events, frames } = counts;
    writeln!(out, "events {events}\nframes {frames}").map_err(|_| Failure::Output)
}

/// Prints the line of a node's counts over the whole run.
///
/// Errors: `Output` if `out` fails. How much has been written is then unspecified.
///
/// Formats: The command line
pub(crate) fn print_node_counts<W: Write>(out: &mut W, totals: &NodeTotals) -> Result<(), Failure>
    ensures { IfErr result (λ failure. failure ≡ Output) }
{
    writeln!(out, "{totals}").map_err(|_| Failure::Output)
}

/// Prints the line of a call that has no answer at the end of the run, with the reason.
///
/// Errors: `Output` if `out` fails. How much has been written is then unspecified.
///
/// Formats: The command line
pub(crate) fn print_waiting<W: Write>(
    out: &mut W,
    waiting: &WaitingCall,
    why: &WaitReason,
) -> Result<(), Failure>
    ensures { IfErr result (λ failure. failure ≡ Output) }
{
    let (node, client, number) = (waiting.node, waiting.client, waiting.number);
    writeln!(out, "no answer to {client}.{number} at node {node}: {why}").map_err(
        |_| Failure::Output,
    )
}
