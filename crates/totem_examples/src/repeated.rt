//! Examples that are data and run command lines several times.
//!
//! - The command lines of a `NAME.same` all print the same, and end well.
//! - The one in the first line of a `NAME.broken` runs once for each number in the other lines. Its standard output
//!   takes this number of bytes, and then fails. If it takes fewer than the command writes, the exit status is 1.
//!   Nothing is written on standard error.
//!
//! Formats: The command line

use crate::command::{output_of, run_line};
use crate::expected::first_line_and_rest;
use ring_sweep::FAILED;
use std::io::{self, Error, ErrorKind, Write};
use std::rt::Files;
use std::sync::Wait;
use std::thread::Threads;
use std::time::Clock;

/// Returns whether the command lines in a text, one a line, all print the same output and end well.
///
/// The output must not be empty, and there must be two lines or more.
pub fn print_the_same<R: Files + AllocGlobal + Threads + Wait + Clock + Sync>(
    rt: &R,
    text: &[u8],
) -> bool {
    match first_line_and_rest(text) {
        Some((first, others)) => print_alike(rt, first, others),
        None => false,
    }
}

/// Returns whether a command line prints what those in the lines of `others` print.
fn print_alike<R: Files + AllocGlobal + Threads + Wait + Clock + Sync>(
    rt: &R,
    first: &str,
    others: &str,
) -> bool {
    let wanted = output_of(rt, first.as_bytes(), &[]);
    let has_others = !wanted.out.is_empty() && !others.is_empty();
    wanted.has_ended_well() && has_others && all_print(rt, others, wanted.out.as_slice())
}

/// Returns whether the command lines in these lines all print this, and end well.
fn all_print<R: Files + AllocGlobal + Threads + Wait + Clock + Sync>(
    rt: &R,
    lines: &str,
    wanted: &[u8],
) -> bool {
    let mut are_same = true;
    for line in lines.lines() {
        are_same = are_same && prints(rt, line, wanted);
    }
    are_same
}

/// Returns whether a command line prints this, and ends well.
fn prints<R: Files + AllocGlobal + Threads + Wait + Clock + Sync>(
    rt: &R,
    line: &str,
    wanted: &[u8],
) -> bool {
    let printed = output_of(rt, line.as_bytes(), &[]);
    printed.has_ended_well() && printed.out.as_slice() == wanted
}

/// Returns whether a command line fails, and writes nothing on standard error, whenever standard output takes less than
/// it writes.
///
/// The text has the command line, and below it one or more numbers of bytes that standard output takes. If it takes
/// all, the command must end well.
pub fn fail_silently<R: Files + AllocGlobal + Threads + Wait + Clock + Sync>(
    rt: &R,
    text: &[u8],
) -> bool {
    match first_line_and_rest(text) {
        Some((line, rooms)) => are_silent(rt, line, rooms),
        None => false,
    }
}

/// Returns whether a command line does so for the numbers in the lines of `rooms`.
fn are_silent<R: Files + AllocGlobal + Threads + Wait + Clock + Sync>(
    rt: &R,
    line: &str,
    rooms: &str,
) -> bool {
    let whole = output_of(rt, line.as_bytes(), &[]);
    whole.has_ended_well() && !rooms.is_empty() && are_all_silent(rt, line, rooms, whole.out.len())
}

/// Returns whether a command line that writes `whole` bytes does so for all these numbers.
fn are_all_silent<R: Files + AllocGlobal + Threads + Wait + Clock + Sync>(
    rt: &R,
    line: &str,
    rooms: &str,
    whole: usize,
) -> bool {
    let mut are_silent = true;
    for room in rooms.lines() {
        are_silent = are_silent && is_silent(rt, line, room, whole);
    }
    are_silent
}

/// Returns whether a command line that writes `whole` bytes fails, with nothing on standard error, if standard output
/// takes fewer, and ends well if it takes all.
fn is_silent<R: Files + AllocGlobal + Threads + Wait + Clock + Sync>(
    rt: &R,
    line: &str,
    room: &str,
    whole: usize,
) -> bool {
    let Ok(room) = room.parse::<usize>() else {
        return false;
    };
    let mut out = BoundedWriter(room);
    let mut err = Vec::new(rt.alloc());
    let status = run_line(rt, line.as_bytes(), &[], &mut out, &mut err, None);
    let wanted = if room < whole { FAILED } else { 0 };
    status == wanted && err.is_empty()
}

/// A writer that takes this number of bytes, and then fails.
#[derive(Drop)]
struct BoundedWriter(usize);

impl Write for BoundedWriter {
    fn write(&mut self, buf: &[u8]) -> io::Result<usize> {
        let taken = buf.len().min(self.0);
        if taken == 0 {
            return Err(Error::from(ErrorKind::Other));
        }
        self.0 -= taken;
        Ok(taken)
    }

    fn flush(&mut self) -> io::Result<()> {
        Ok(())
    }
}
