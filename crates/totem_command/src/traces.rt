//! The command `trace`, which prints the effects of a script's events.
//!
//! Formats: The command line

use crate::scripts::{explain, read_text, report_unreadable};
use clap::ArgMatches;
use ring_base::{MAX_PROCESSORS, Proc};
use ring_input_errors::QuotedWord;
use ring_object::Object;
use ring_sweep::{FAILED, Vocabulary};
use ring_trace::{ReplyVocabulary, Selection, TraceFormat, TraceOptions, trace_of};
use std::alloc::Global;
use std::io::{Read, Write};
use std::rt::Files;
use std::{fs, io};

/// The arguments of `trace`.
///
/// They are the script's file, whether a fault in it is explained, the file for the frames, if one is named, the
/// format, and the selection. The selection has the events of one node or of all, from one event number to another,
/// both included.
///
/// Formats: The command line
#[derive(Clone, Copy)]
pub(crate) struct TraceArguments<'a> {
    file: &'a str,
    is_explained: bool,
    frames: Option<&'a str>,
    format: TraceFormat,
    node: Option<u8>,
    from: u64,
    to: u64,
}

/// Returns the arguments of `trace` in the parsed words, with `file` as the script's file.
///
/// By default the format is text, and all events of all nodes are selected.
pub(crate) fn trace_arguments_in<'a>(file: &'a str, of: &ArgMatches<'a>) -> TraceArguments<'a> {
    TraceArguments {
        file,
        is_explained: of.get_flag("explain"),
        frames: of.get_str("frames"),
        format: format_in(of),
        node: of.get_one::<u8>("node"),
        from: of.get_one::<u64>("from").unwrap_or(0),
        to: of.get_one::<u64>("to").unwrap_or(u64::MAX),
    }
}

/// Returns the format in the parsed words, or text if none is named.
fn format_in(of: &ArgMatches<'_>) -> TraceFormat {
    match of.get_str("format") {
        Some("json") => TraceFormat::Json,
        Some("svg") => TraceFormat::Svg,
        Some("html") => TraceFormat::Html,
        _ => TraceFormat::Text,
    }
}

/// Returns the options without the files.
///
/// A function of its own, since no function may take both a `Proc` and borrowed words.
fn trace_options_of(traced: &TraceArguments<'_>) -> TraceOptions {
    TraceOptions {
        format: traced.format,
        selection: Selection {
            node: proc_of(traced.node),
            from: traced.from,
            to: traced.to,
        },
    }
}

/// Returns processor `number`, or `None` if there is none.
fn proc_of(number: Option<u8>) -> Option<Proc> {
    match number {
        Some(number) if 1 <= number && number <= MAX_PROCESSORS => Some(Proc::new(number)),
        _ => None,
    }
}

/// Runs the script in a file or in the input, and prints the effects of its events.
///
/// Returns the exit status: 0 or 1.
///
/// Errors: those of `trace`, and of a file that can't be read, are reported on `err`. An explanation of a bad script
/// follows in a line below if the arguments request it.
///
/// Formats: The command line
pub(crate) fn trace_file<
    T: Object<Alloc = Global>,
    V: Vocabulary + ReplyVocabulary,
    R: Files + AllocGlobal,
    I: Read,
    O: Write,
    E: Write,
>(rt: &R, traced: TraceArguments<'_>, input: &mut I, out: &mut O, err: &mut E) -> u8 {
    let text = match read_text(rt, traced.file, input) {
        Ok(text) => text,
        Err(error) => return report_unreadable(&error, traced.is_explained, err),
    };
    let status = trace_text::<T, V, R, O, E>(rt, &traced, text.as_slice(), out, err);
    if status == FAILED && traced.is_explained {
        explain::<V, E>(rt.alloc(), text.as_slice(), err);
    }
    status
}

/// Runs a script and prints the effects of its events.
///
/// Then writes the frames that were sent to the file for them, if one is named.
fn trace_text<
    T: Object<Alloc = Global>,
    V: Vocabulary + ReplyVocabulary,
    R: Files + AllocGlobal,
    O: Write,
    E: Write,
>(rt: &R, traced: &TraceArguments<'_>, text: &[u8], out: &mut O, err: &mut E) -> u8 {
    let asked = trace_options_of(traced);
    match traced.frames {
        Some(path) => {
            let mut sent = Vec::new(rt.alloc());
            let status = trace_of::<T, V, _, _, _>(rt.alloc(), text, asked, out, &mut sent, err);
            write_sent(rt, path, sent.as_slice(), status, err)
        }
        None => {
            let mut sink = io::sink();
            trace_of::<T, V, _, _, _>(rt.alloc(), text, asked, out, &mut sink, err)
        }
    }
}

/// Writes the frames of a trace to the file at `path`, given the trace's exit status `status`.
///
/// Returns the exit status.
///
/// The file is opened after the trace is printed. If standard output is closed, the file would get its descriptor, and
/// with it the trace. If the trace failed and there are no frames, the file isn't touched.
///
/// Errors: after a trace that is printed, a file that can't be opened is reported on `err`. A failed write is reported
/// only by the status.
///
/// Formats: The command line
fn write_sent<R: Files, E: Write>(rt: &R, path: &str, sent: &[u8], status: u8, err: &mut E) -> u8 {
    if status == FAILED && sent.is_empty() {
        return FAILED;
    }
    match fs::create(rt, path) {
        Ok(mut file) => match file.write_all(sent) {
            Ok(()) => status,
            Err(_) => FAILED,
        },
        Err(_) => {
            report_unopened(path, status, err);
            FAILED
        }
    }
}

/// Reports that the file for frames can't be opened, after a trace with this exit status.
///
/// If the trace failed too, only the status reports this.
fn report_unopened<E: Write>(path: &str, status: u8, err: &mut E) {
    if status == 0 {
        let path = QuotedWord(path);
        let _ = writeln!(err, "totem: {path} can't be opened to write the frames");
    }
}
