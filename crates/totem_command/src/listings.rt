//! The command `frames`, which lists frames.
//!
//! Formats: The command line; Listing frames

use crate::commands::INPUT;
use crate::scripts::unreadable_reason;
use ring_base::Fault;
use ring_input_errors::frames_reason;
use ring_sweep::{Failure, frames, report_failure};
use std::alloc::Global;
use std::io::{Error, ErrorKind, Read, Write};
use std::rt::Files;
use std::{fs, io};

/// The bytes of memory for what a listing writes on standard error: one line.
const MAX_FAULT_LINE: usize = 128;

/// Lists the frames of a file or of the input.
///
/// If `is_explained`, the whole file is read first, and a bad frame is explained in a line below the fault's. Returns
/// the exit status: 0 or 1.
///
/// Errors: those of `frames` are reported on `err`. A file that can't be read is reported as a bad frame at byte 0. If
/// `is_explained`, also `Memory` if an allocation for reading the file fails.
///
/// Formats: The command line; Listing frames
pub(crate) fn list_file<R: Files + AllocGlobal, I: Read, O: Write, E: Write>(
    rt: &R,
    file: &str,
    is_explained: bool,
    input: &mut I,
    out: &mut O,
    err: &mut E,
) -> u8 {
    if is_explained {
        list_explained(rt, file, input, out, err)
    } else {
        list_plainly(rt, file, input, out, err)
    }
}

/// Lists the frames of a file or of the input as they are read.
fn list_plainly<R: Files + AllocGlobal, I: Read, O: Write, E: Write>(
    rt: &R,
    file: &str,
    input: &mut I,
    out: &mut O,
    err: &mut E,
) -> u8 {
    if file == INPUT {
        return frames(rt.alloc(), input, out, err);
    }
    match fs::open(rt, file) {
        Ok(mut file) => frames(rt.alloc(), &mut file, out, err),
        Err(_) => report_failure(err, Failure::BadFrame(0)),
    }
}

/// Reads the whole file or input, lists its frames, and explains a bad one.
fn list_explained<R: Files + AllocGlobal, I: Read, O: Write, E: Write>(
    rt: &R,
    file: &str,
    input: &mut I,
    out: &mut O,
    err: &mut E,
) -> u8 {
    match read_all(rt, file, input) {
        Ok(bytes) => list_and_explain(rt.alloc(), bytes.as_slice(), out, err),
        Err(error) => report_unread(&error, err),
    }
}

/// Reads the file `file` to its end, or the input if the name is `-`.
///
/// Errors: those of opening or reading; of kind `OutOfMemory` if an allocation fails.
fn read_all<R: Files + AllocGlobal, I: Read>(
    rt: &R,
    file: &str,
    input: &mut I,
) -> io::Result<Vec<u8>> {
    let mut bytes = Vec::new(rt.alloc());
    if file == INPUT {
        input.read_to_end(&mut bytes)?;
    } else {
        let mut file = fs::open(rt, file)?;
        file.read_to_end(&mut bytes)?;
    }
    Ok(bytes)
}

/// Reports on `err` that a file of frames couldn't be read, and the reason in a line below.
///
/// Returns the exit status, always 1.
fn report_unread<E: Write>(error: &Error, err: &mut E) -> u8 {
    if error.kind() == ErrorKind::OutOfMemory {
        return report_failure(err, Failure::Refused(Fault::Memory));
    }
    let status = report_failure(err, Failure::BadFrame(0));
    let _ = writeln!(err, "totem: {}", unreadable_reason(error));
    status
}

/// Lists the frames of these bytes.
///
/// If a fault is reported on `err`, a line below explains why no frame begins there.
fn list_and_explain<O: Write, E: Write>(
    alloc: Global,
    bytes: &[u8],
    out: &mut O,
    err: &mut E,
) -> u8 {
    let Ok(mut fault) = Vec::with_capacity(alloc, MAX_FAULT_LINE) else {
        return report_failure(err, Failure::Refused(Fault::Memory));
    };
    let mut rest = bytes;
    let status = frames(alloc, &mut rest, out, &mut fault);
    let _ = err.write_all(fault.as_slice());
    if !fault.is_empty()
        && let Ok(Some(reason)) = frames_reason(alloc, bytes)
    {
        let _ = writeln!(err, "totem: {reason}");
    }
    status
}
