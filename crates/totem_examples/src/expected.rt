//! The expected output of an example that is data.
//!
//! A `NAME.claims` has a claim on standard output in each line below the command line:
//!
//! - `begins TEXT` and `ends TEXT`: the output begins with it, and ends with it and a line feed;
//! - `each TEXT`: each line begins with it, and there is one;
//! - `line TEXT`: exactly one line is this text;
//! - `N TEXT`: the text is there N times.

use crate::command::CommandOutput;
use crate::hex_lines::decode_hex;
use crate::kind::Kind;
use std::alloc::Global;
use std::io::ErrorKind;
use std::rt::Files;
use std::{fs, io, str};

/// The message of a `.fault` that isn't compared.
const ANY_MESSAGE: &str = "...";

/// Returns whether `out` is the expected standard output of an example of this kind and name whose file has the bytes
/// `input`.
///
/// For a trace or a picture the expected output is `input` itself, for claims `input` has the claims, and otherwise it
/// is in `NAME.out`, which is empty if there is no such file.
///
/// Errors: those of reading `NAME.out`; for records also those of [`decode_hex`].
pub fn is_output_expected<R: Files + AllocGlobal>(
    rt: &R,
    kind: Kind,
    name: &str,
    input: &[u8],
    out: &[u8],
) -> io::Result<bool> {
    match kind {
        Kind::Trace | Kind::Picture => Ok(out == input),
        Kind::Claims => Ok(meets_claims(input, out)),
        _ => is_in_file(rt, kind, name, out),
    }
}

/// Returns whether this is the standard output in the `.out` of an example of this kind and name.
fn is_in_file<R: Files + AllocGlobal>(
    rt: &R,
    kind: Kind,
    name: &str,
    out: &[u8],
) -> io::Result<bool> {
    let wanted = read_any(rt, name, ".out")?;
    match kind {
        Kind::Legal => Ok(out.ends_with(wanted.as_slice())),
        Kind::Records => is_hex_of(rt.alloc(), wanted.as_slice(), out),
        _ => Ok(out == wanted.as_slice()),
    }
}

/// Returns whether a text has these bytes in hexadecimal.
fn is_hex_of(alloc: Global, text: &[u8], out: &[u8]) -> io::Result<bool> {
    let wanted = decode_hex(alloc, text)?;
    Ok(wanted.as_slice() == out)
}

/// Returns whether the standard error and the exit status are those in `NAME.fault`.
///
/// If there is no such file, standard error must be empty and the exit status 0.
///
/// Errors: those of reading `NAME.fault`.
pub fn is_error_expected<R: Files + AllocGlobal>(
    rt: &R,
    name: &str,
    printed: &CommandOutput,
) -> io::Result<bool> {
    let wanted = read_any(rt, name, ".fault")?;
    Ok(is_fault(wanted.as_slice(), printed))
}

/// Returns whether a `.fault` with these bytes has the exit status and the standard error. It is empty if there is none.
fn is_fault(wanted: &[u8], printed: &CommandOutput) -> bool {
    match str::from_utf8(wanted).unwrap_or("").split_once(" ") {
        Some((status, message)) => {
            is_number(status, printed.status) && is_message(message, printed.err.as_slice())
        }
        None => wanted.is_empty() && printed.has_ended_well(),
    }
}

/// Returns whether a text is this number.
fn is_number(text: &str, number: u8) -> bool {
    matches!(text.parse::<u8>(), Ok(parsed) if parsed == number)
}

/// Returns whether the standard error is this message. `...` stands for any.
fn is_message(message: &str, err: &[u8]) -> bool {
    message.as_bytes() == err || message == ANY_MESSAGE && !err.is_empty()
}

/// Returns whether each claim in the lines of a text, but for its first line, is true of an output. There is one at
/// least.
fn meets_claims(text: &[u8], out: &[u8]) -> bool {
    let (Some((_, claims)), Ok(out)) = (first_line_and_rest(text), str::from_utf8(out)) else {
        return false;
    };
    let mut are_true = !claims.is_empty();
    for claim in claims.lines() {
        are_true = are_true && is_true(claim, out);
    }
    are_true
}

/// Returns the first line of a text, without its end, and the lines below it. Returns `None` if the text has no line
/// feed or isn't UTF-8.
pub fn first_line_and_rest(text: &[u8]) -> Option<(&str, &str)> {
    match str::from_utf8(text) {
        Ok(text) => text.split_once("\n"),
        Err(_) => None,
    }
}

/// Returns whether a claim is true of an output.
fn is_true(claim: &str, out: &str) -> bool {
    let Some((word, text)) = claim.split_once(" ") else {
        return false;
    };
    match word {
        "begins" => out.starts_with(text),
        "ends" => match out.strip_suffix("\n") {
            Some(front) => front.ends_with(text),
            None => false,
        },
        "each" => count_lines(out, text, true) == out.lines().count() && !out.is_empty(),
        "line" => count_lines(out, text, false) == 1,
        _ => match word.parse::<usize>() {
            Ok(count) => out.matches(text).count() == count,
            Err(_) => false,
        },
    }
}

/// Returns the number of lines that are this text, or only begin with it.
fn count_lines(out: &str, text: &str, only_begin: bool) -> usize {
    let mut count = 0usize;
    for line in out.lines() {
        if line == text || only_begin && line.starts_with(text) {
            count = count.saturating_add(1);
        }
    }
    count
}

/// Reads the file with this name and ending, the path being one after the other.
///
/// Errors: those of reading the file, or of kind `OutOfMemory` if an allocation fails.
pub fn read<R: Files + AllocGlobal>(rt: &R, name: &str, ending: &str) -> io::Result<Vec<u8>> {
    let path = format!(in rt.alloc(); "{name}{ending}")?;
    fs::read(rt, path.as_str())
}

/// Reads the file with this name and ending. Returns no bytes if there is no such file.
fn read_any<R: Files + AllocGlobal>(rt: &R, name: &str, ending: &str) -> io::Result<Vec<u8>> {
    match read(rt, name, ending) {
        Err(error) if error.kind() == ErrorKind::NotFound => Ok(Vec::new(rt.alloc())),
        read => read,
    }
}
