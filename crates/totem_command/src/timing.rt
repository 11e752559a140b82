//! The line that says how long a command took, on a terminal.
//!
//! Formats: The command line

use std::io::Write;
use std::time::{Clock, Instant};

/// After a failure no time is printed for work that took less than this, in milliseconds.
const SHORT_WORK_MILLIS: u128 = 1_000;

/// Writes how long work took that began at `started` and has just ended with this exit status, as `took 12.3 s`.
///
/// After a failure it is written only if it is at least a second. If the clock can't be read, nothing is written.
/// Errors of `out` are ignored.
///
/// Formats: The command line
pub(crate) fn print_time<C: Clock, W: Write>(
    clock: &C,
    started: Option<Instant>,
    status: u8,
    out: &mut W,
) {
    let Some(started) = started else {
        return;
    };
    let Ok(elapsed) = started.elapsed(clock) else {
        return;
    };
    let millis = elapsed.as_millis();
    if status == 0 || millis >= SHORT_WORK_MILLIS {
        let _ = writeln!(out, "took {}.{} s", millis / 1_000, millis % 1_000 / 100);
    }
}
