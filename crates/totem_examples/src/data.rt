//! Examples that are data: each is a file to run, with its expected output beside it. A line is printed for each.
//!
//! - `NAME.script` is run by `totem script`.
//! - `NAME.check` is run by `totem script --check`: its order is checked against its history.
//! - `NAME.sweep` is swept: run with a stop and a cut of each node before each event.
//! - `NAME.legal` is swept too, by `totem sweep`, but only the end of the output is compared.
//! - `NAME.frames` is listed by `totem frames`: frames in hexadecimal, with comments in lines that begin with `#`.
//! - `NAME.records` has records in the same way. They drive a node of a group of one, by `totem node`.
//! - `NAME.words` has the words of a command line of the program `totem`, one a line.
//! - `NAME.explain` is run by `totem script --explain`.
//! - `NAME.trace` and `NAME.svg` are the expected output of `totem trace` for `NAME.script`, as text and as a picture.
//! - `NAME.claims` has a command line, and in its other lines claims on what it prints (`expected`).
//! - `NAME.same` has command lines that all print the same, and `NAME.broken` one whose standard output fails
//!   (`repeated`).
//! - `NAME.out` is the expected standard output; of a `NAME.legal` its expected end; of a `NAME.records` in
//!   hexadecimal.
//! - `NAME.fault` has the expected exit status, a space, and the expected standard error. `2 ...` stands for a bad
//!   command line with any message.
//!
//! If `NAME.out` is missing, standard output must be empty. If `NAME.fault` is missing, standard error must be empty
//! and the exit status 0.
//!
//! Formats: The command line

use crate::command::{CommandOutput, output_of};
use crate::expected::{first_line_and_rest, is_error_expected, is_output_expected, read};
use crate::hex_lines::decode_hex;
use crate::kind::{KINDS, Kind};
use crate::repeated::{fail_silently, print_the_same};
use ring_sweep::sweep;
use std::alloc::Global;
use std::io::Write;
use std::rt::Files;
use std::sync::Wait;
use std::thread::Threads;
use std::time::Clock;
use std::{fs, io};

/// The folder of the examples: the one in which the program runs.
const FOLDER: &str = ".";

/// Runs the examples and prints a line for each, those of a kind in alphabetical order.
///
/// Returns whether all printed the expected output.
///
/// Errors: those of reading the examples' files, and those of standard output.
pub fn run_all<R: Files + AllocGlobal + Print + Threads + Wait + Clock + Sync + Clone + Drop>(
    rt: &R,
) -> io::Result<bool> {
    let mut are_replies_right = true;
    for kind in KINDS {
        let are = run_each(rt, kind)?;
        are_replies_right = are_replies_right && are;
    }
    Ok(are_replies_right)
}

/// Runs the examples of one kind.
fn run_each<R: Files + AllocGlobal + Print + Threads + Wait + Clock + Sync + Clone + Drop>(
    rt: &R,
    kind: Kind,
) -> io::Result<bool> {
    let names = names_of(rt, kind)?;
    let mut are_replies_right = true;
    for name in &names {
        let is_right = run_one(rt, name.as_str(), kind)?;
        are_replies_right = are_replies_right && is_right;
    }
    Ok(are_replies_right)
}

/// Runs the example of this kind and name.
fn run_one<R: Files + AllocGlobal + Print + Threads + Wait + Clock + Sync>(
    rt: &R,
    name: &str,
    kind: Kind,
) -> io::Result<bool> {
    let input = read(rt, name, kind.ending())?;
    let is_right = match kind {
        Kind::Same => print_the_same(rt, input.as_slice()),
        Kind::Broken => fail_silently(rt, input.as_slice()),
        _ => prints_as_expected(rt, kind, name, input.as_slice())?,
    };
    let word = if is_right { "right" } else { "wrong" };
    println!(rt; "{name}: {word}")?;
    Ok(is_right)
}

/// Returns the names of the examples of this kind, in alphabetical order.
fn names_of<R: Files + AllocGlobal + Clone + Drop>(rt: &R, kind: Kind) -> io::Result<Vec<String>> {
    let mut names = Vec::new(rt.alloc());
    add_names(rt, kind, &mut names)?;
    Ok(names)
}

/// Adds the names of the examples of this kind.
fn add_names<R: Files + AllocGlobal + Clone + Drop>(
    rt: &R,
    kind: Kind,
    names: &mut Vec<String>,
) -> io::Result<()> {
    for entry in fs::read_dir(rt, FOLDER)? {
        let entry = entry?;
        add_name(rt.alloc(), entry.file_name(), kind, names)?;
    }
    Ok(names.sort()?)
}

/// Adds the name of an example, if the file's name is that of an example of this kind.
fn add_name(alloc: Global, file: &str, kind: Kind, names: &mut Vec<String>) -> io::Result<()> {
    match file.strip_suffix(kind.ending()) {
        Some(name) => Ok(names.push(String::from_str(alloc, name)?)?),
        None => Ok(()),
    }
}

/// Returns whether the example of this name, whose file has these bytes, prints exactly the expected output.
fn prints_as_expected<R: Files + AllocGlobal + Threads + Wait + Clock + Sync>(
    rt: &R,
    kind: Kind,
    name: &str,
    input: &[u8],
) -> io::Result<bool> {
    let printed = printed_by(rt, kind, name, input)?;
    let is_out = is_output_expected(rt, kind, name, input, printed.out.as_slice())?;
    let is_fault = is_error_expected(rt, name, &printed)?;
    Ok(is_out && is_fault)
}

/// Runs an example of this kind and name whose file has these bytes.
fn printed_by<R: Files + AllocGlobal + Threads + Wait + Clock + Sync>(
    rt: &R,
    kind: Kind,
    name: &str,
    input: &[u8],
) -> io::Result<CommandOutput> {
    match kind {
        Kind::Sweep => Ok(swept(rt.alloc(), input)),
        Kind::Words => Ok(output_of(rt, input, &[])),
        Kind::Claims => Ok(output_of(rt, first_line(input), &[])),
        Kind::Frames => print_on_bytes(rt, "frames -", input),
        Kind::Records => print_on_bytes(rt, "node --me 1 --of 1", input),
        Kind::Check => print_on_file(rt, "script --check", name, ".check"),
        Kind::Legal => print_on_file(rt, "sweep", name, ".legal"),
        Kind::Explain => print_on_file(rt, "script --explain", name, ".explain"),
        Kind::Trace => print_on_file(rt, "trace", name, ".script"),
        Kind::Picture => print_on_file(rt, "trace --format svg", name, ".script"),
        _ => print_on_file(rt, "script", name, ".script"),
    }
}

/// Returns the first line of a text, without its end; the whole text if it has no line feed or isn't UTF-8.
fn first_line(text: &[u8]) -> &[u8] {
    match first_line_and_rest(text) {
        Some((first, _)) => first.as_bytes(),
        None => text,
    }
}

/// Sweeps a script, by the library's own function for one thread.
fn swept(alloc: Global, mut script: &[u8]) -> CommandOutput {
    let (mut printed, mut faults) = (Vec::new(alloc), Vec::new(alloc));
    let mut out: &mut dyn Write = &mut printed;
    let mut err: &mut dyn Write = &mut faults;
    let status = sweep(alloc, &mut script, &mut out, &mut err);
    CommandOutput {
        out: printed,
        err: faults,
        status,
    }
}

/// Runs a command on the bytes that a text has in hexadecimal.
fn print_on_bytes<R: Files + AllocGlobal + Threads + Wait + Clock + Sync>(
    rt: &R,
    line: &str,
    text: &[u8],
) -> io::Result<CommandOutput> {
    let bytes = decode_hex(rt.alloc(), text)?;
    Ok(output_of(rt, line.as_bytes(), bytes.as_slice()))
}

/// Runs a command on the example of this name and ending.
fn print_on_file<R: Files + AllocGlobal + Threads + Wait + Clock + Sync>(
    rt: &R,
    command: &str,
    name: &str,
    ending: &str,
) -> io::Result<CommandOutput> {
    let line = format!(in rt.alloc(); "{command} {name}{ending}")?;
    Ok(output_of(rt, line.as_bytes(), &[]))
}
