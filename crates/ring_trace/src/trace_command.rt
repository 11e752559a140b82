//! Tracing a script, and printing the trace.
//!
//! Formats: The command line

ghost use Rattle.std.specs.Prelude.{◌≡◌, ◌≤◌, Ok, OnOk};
ghost use Rattle.std.specs.declared.alloc.Global.{Global as Heap};
ghost use Rattle.ring_script.specs.Fits.{AreFit};
ghost use Rattle.ring_script.specs.Scripts.{IsScriptOfInput, IsScriptOfInputBy};
ghost use Rattle.ring_script.specs.declared.scripts.Script.{Script};
ghost use Rattle.ring_trace.specs.WrittenFrames.{HasWrittenFrames};

use crate::selection::{Selection, SelectionFault};
use crate::tracer::Tracer;
use ring_base::Fault;
use ring_console::{Failure, Script, ShelfVocabulary, StandardObjects, Vocabulary, report_failure};
use ring_failure::{FAILED, WriterSlot, exit_status, fill_slot};
use ring_object::Object;
use ring_trace_formats::{ReplyVocabulary, TraceFormat, TracePrinter, TraceVocabulary};
use std::alloc::Global;
use std::io::{BufWriter, Write};

/// The options of a trace.
///
/// Formats: The command line
#[derive(Clone, Copy)]
pub struct TraceOptions {
    /// The format in which the trace is printed.
    pub format: TraceFormat,
    /// The events to report.
    pub selection: Selection,
}

/// Parses a text as a script for the standard object, runs it, and prints the effects of the selected events in the
/// chosen format on `out`.
///
/// Then writes the frames that were sent to `frames`. Returns the exit status: 0 if all was done, otherwise 1.
///
/// Errors:
///
/// - `BadScript` if the text isn't a script: reported on `err`, and nothing is printed.
/// - `Memory` if an allocation fails: reported on `err`. The earlier text is on `out`.
/// - The selection is empty, or isn't for the format: reported on `err`, with the nodes or events that there are. Only
///   the part of the trace that comes before all events may be printed.
/// - `out` or `frames` fails: nothing is reported.
///
/// At status 0, the text is a script, it was run to its end, and `frames` has the frames of that run.
///
/// Formats: The command line
pub fn trace<O: Write, F: Write, E: Write>(
    alloc: Global,
    text: &[u8],
    asked: TraceOptions,
    out: &mut O,
    frames: &mut F,
    err: &mut E,
) -> u8
    ensures status { result ≤ 1 }
    ensures quiet { result ≡ 0 → err.new ≡ err.old }
    ensures whole { let object = ⟦<StandardObjects<Global> as Object>⟧ in
        result ≡ 0 → (script : Script Heap) × IsScriptOfInput (Ok script) text.now
        × HasWrittenFrames object.sequential script (F.contents frames.old) (F.contents frames.new) }
{
    trace_of::<StandardObjects<Global>, ShelfVocabulary, O, F, E>(
        alloc, text, asked, out, frames, err,
    )
}

/// Traces a script as [`trace`] does, for objects `T` with the vocabulary `V` for operations and replies.
///
/// Returns the exit status: 0 if all was done, otherwise 1.
///
/// Errors: as for [`trace`].
///
/// Formats: The command line
pub fn trace_of<
    T: Object<Alloc = Global>,
    V: Vocabulary + ReplyVocabulary,
    O: Write,
    F: Write,
    E: Write,
>(alloc: Global, text: &[u8], asked: TraceOptions, out: &mut O, frames: &mut F, err: &mut E) -> u8
    ensures status { result ≤ 1 }
    ensures quiet { result ≡ 0 → err.new ≡ err.old }
    ensures whole { result ≡ 0 → (script : Script Heap) × IsScriptOfInputBy V.forms (Ok script) text.now
        × HasWrittenFrames T.sequential script (F.contents frames.old) (F.contents frames.new) }
{
    match BufWriter::new(alloc, WriterSlot { writer: None }) {
        Ok(mut buffer) => {
            fill_slot(&mut buffer, out);
            let mut fault = None;
            let done = trace_text::<T, V, _, F>(
                alloc,
                text,
                asked,
                &mut buffer,
                frames,
                &mut fault,
            );
            let status = exit_status(&mut buffer, err, done);
            report_selection(err, status, fault)
        }
        Err(_) => report_failure(err, Failure::Refused(Fault::Memory)),
    }
}

/// Writes the line of a selection's fault, if there is one, to `err`.
///
/// Returns the exit status: 1 after such a line, otherwise `status`. An error of `err` itself is ignored.
fn report_selection<E: Write>(err: &mut E, status: u8, fault: Option<SelectionFault>) -> u8
    requires { status ≤ 1 }
    ensures status { result ≤ 1 }
    ensures ok { result ≡ 0 → status ≡ 0 }
    ensures quiet { result ≡ 0 → err.new ≡ err.old }
{
    match fault {
        Some(fault) => {
            let _ = writeln!(err, "{fault}");
            FAILED
        }
        None => status,
    }
}

/// Parses a text as a script, runs it, prints the effects of its events, and writes the frames that were sent.
///
/// If the selection is empty or isn't for the format, that is stored in `fault`, and the failure is `Output`, which has
/// no line of its own.
fn trace_text<T: Object<Alloc = Global>, V: Vocabulary + ReplyVocabulary, W: Write, F: Write>(
    alloc: Global,
    text: &[u8],
    asked: TraceOptions,
    out: &mut W,
    frames: &mut F,
    fault: &mut Option<SelectionFault>,
) -> Result<(), Failure>
    ensures { OnOk result ((script : Script Heap) × IsScriptOfInputBy V.forms (Ok script) text.now
        × HasWrittenFrames T.sequential script (F.contents frames.old) (F.contents frames.new)) }
{
    let mut rest = text;
    let script = Script::read_by::<V, &[u8]>(alloc, &mut rest)?;
    *fault = asked.selection.fault_of(script.nodes.count(), asked.format);
    if fault.is_some() {
        return Err(Failure::Output);
    }
    trace_script::<T, V, W, F>(alloc, script, asked, out, frames, fault)?;
    Ok(())
}

/// Runs a script, prints the effects of its events, and writes the frames that were sent.
///
/// If the selection begins after the last event, that is stored in `fault`, and the failure is `Output`.
fn trace_script<O: Object<Alloc = Global>, V: Vocabulary + ReplyVocabulary, W: Write, F: Write>(
    alloc: Global,
    script: Script,
    asked: TraceOptions,
    out: &mut W,
    frames: &mut F,
    fault: &mut Option<SelectionFault>,
) -> Result<(), Failure>
    requires { AreFit script.lines.items }
    ensures { OnOk result (HasWrittenFrames O.sequential script (F.contents frames.old) (F.contents frames.new)) }
{
    let form = TracePrinter {
        alloc,
        format: asked.format,
    };
    let trace_vocabulary = TraceVocabulary::of::<V>();
    let mut tracer = Tracer::<O>::new(alloc, form, trace_vocabulary, &script, asked.selection)?;
    let told = tracer.trace_run(script, out, frames, fault);
    // Dropped explicitly, so it is dropped in a function generic over its type, and doesn't live until the exits.
    drop(tracer);
    told
}
