//! The commands `script` and `sweep`, which run a script.
//!
//! Formats: The command line

use crate::command_line::{RunMode, ScriptArguments};
use crate::commands::{INPUT, processors};
use crate::timing::print_time;
use ring_base::Fault;
use ring_input_errors::{MAX_SCRIPT_BYTES, reason_by};
use ring_object::Object;
use ring_sweep::{
    FAILED, Failure, Vocabulary, print_variant_of, report_failure, script_of, sweep_of_by_threads,
};
use std::alloc::Global;
use std::io::{Error, ErrorKind, Read, Write};
use std::rt::Files;
use std::thread::Threads;
use std::time::{Clock, Instant};
use std::{fs, io};

/// The maximum number of bytes read of a script: one more than a script may have, so that a longer one is recognized.
const MAX_READ: u64 = MAX_SCRIPT_BYTES + 1;

/// Reads the script in a file or in the input, and runs it in the mode of the arguments.
///
/// Returns the exit status, 0 to 2.
///
/// Errors: those of the mode are reported on `err`. A file that can't be read is reported as a bad script at line 0, or
/// as `Memory`. An explanation of a bad script follows in a line below if the arguments request it.
///
/// Formats: The command line
pub(crate) fn run_script<
    T: Object<Alloc = Global> + Send,
    V: Vocabulary,
    R: Files + AllocGlobal + Threads + Clock + Sync,
    I: Read,
    O: Write,
    E: Write,
    P: Write,
>(
    rt: &R,
    asked: ScriptArguments<'_>,
    input: &mut I,
    out: &mut O,
    err: &mut E,
    progress: Option<&mut P>,
) -> u8 {
    let text = match read_text(rt, asked.file, input) {
        Ok(text) => text,
        Err(error) => return report_unreadable(&error, asked.is_explained, err),
    };
    let status = run_text::<T, V, R, O, E, P>(rt, asked.mode, text.as_slice(), out, err, progress);
    if status == FAILED && asked.is_explained {
        explain::<V, E>(rt.alloc(), text.as_slice(), err);
    }
    status
}

/// Reads the file `file`, or the input if the name is `-`.
///
/// At most 1,048,577 bytes are read, one more than a script may have.
///
/// Errors: those of opening or reading; of kind `OutOfMemory` if an allocation fails.
pub(crate) fn read_text<R: Files + AllocGlobal, I: Read>(
    rt: &R,
    file: &str,
    input: &mut I,
) -> io::Result<Vec<u8>> {
    let mut text = Vec::new(rt.alloc());
    if file == INPUT {
        input.take(MAX_READ).read_to_end(&mut text)?;
    } else {
        let mut file = fs::open(rt, file)?;
        file.take(MAX_READ).read_to_end(&mut text)?;
    }
    Ok(text)
}

/// Runs a script in this mode.
fn run_text<
    T: Object<Alloc = Global> + Send,
    V: Vocabulary,
    R: AllocGlobal + Threads + Clock + Sync,
    O: Write,
    E: Write,
    P: Write,
>(rt: &R, mode: RunMode, text: &[u8], out: &mut O, err: &mut E, progress: Option<&mut P>) -> u8 {
    let mut rest = text;
    match mode {
        RunMode::Plain => script_of::<T, V, _, _, _>(rt.alloc(), &mut rest, false, out, err),
        RunMode::Checked => script_of::<T, V, _, _, _>(rt.alloc(), &mut rest, true, out, err),
        RunMode::Sweep(threads) => sweep_text::<T, V, R, O, E, P>(
            rt, threads, text, out, err, progress,
        ),
        RunMode::Variant(place) => print_variant_of::<T, V, _, _>(
            rt.alloc(),
            text,
            place,
            out,
            err,
        ),
    }
}

/// Sweeps a script with this number of threads, or one per processor of the machine if none is given.
///
/// If there is a `progress`, it gets a last line that says how long that took.
fn sweep_text<
    T: Object<Alloc = Global> + Send,
    V: Vocabulary,
    R: AllocGlobal + Threads + Clock + Sync,
    O: Write,
    E: Write,
    P: Write,
>(
    rt: &R,
    threads: Option<u16>,
    text: &[u8],
    out: &mut O,
    err: &mut E,
    progress: Option<&mut P>,
) -> u8 {
    let threads = threads.unwrap_or(processors(rt));
    match progress {
        Some(watched) => {
            let started = Instant::now(rt).ok();
            let status = sweep_with::<T, V, R, O, E, P>(
                rt,
                threads,
                text,
                out,
                err,
                Some(&mut *watched),
            );
            print_time(rt, started, status, watched);
            status
        }
        None => sweep_with::<T, V, R, O, E, P>(rt, threads, text, out, err, progress),
    }
}

/// Sweeps a script on `threads` threads.
fn sweep_with<
    T: Object<Alloc = Global> + Send,
    V: Vocabulary,
    R: AllocGlobal + Threads + Clock + Sync,
    O: Write,
    E: Write,
    P: Write,
>(rt: &R, threads: u16, text: &[u8], out: &mut O, err: &mut E, progress: Option<&mut P>) -> u8 {
    let mut rest = text;
    sweep_of_by_threads::<T, V, R, _, _, _, _>(
        rt,
        rt.alloc(),
        &mut rest,
        threads,
        out,
        err,
        progress,
    )
}

/// Prints an explanation on `err` if the text isn't a script.
///
/// It comes in a line below that of the fault. If an allocation fails, nothing is printed.
///
/// Formats: The command line
pub(crate) fn explain<V: Vocabulary, E: Write>(alloc: Global, text: &[u8], err: &mut E) {
    if let Ok(Some(reason)) = reason_by::<V>(alloc, text) {
        let _ = writeln!(err, "totem: {reason}");
    }
}

/// Reports on `err` that a file couldn't be read: as `Memory` if an allocation failed, otherwise as a bad script at
/// line 0.
///
/// If `is_explained`, the reason follows the bad script in a line below. Returns the exit status, always 1.
///
/// Formats: The command line
pub(crate) fn report_unreadable<E: Write>(error: &Error, is_explained: bool, err: &mut E) -> u8 {
    if error.kind() == ErrorKind::OutOfMemory {
        return report_failure(err, Failure::Refused(Fault::Memory));
    }
    let status = report_failure(err, Failure::BadScript(0));
    if is_explained {
        let _ = writeln!(err, "totem: {}", unreadable_reason(error));
    }
    status
}

/// Returns the reason why a file couldn't be read.
///
/// Formats: The command line
pub(crate) fn unreadable_reason(error: &Error) -> &'static str {
    match error.kind() {
        ErrorKind::NotFound => "there is no file of this name",
        _ => "the file can't be read",
    }
}
