//! What `sweep` and `explore` write last if standard error is a terminal: how long they took.
//!
//! Formats: The command line

use crate::command::run_line;
use std::rt::Files;
use std::sync::Wait;
use std::thread::Threads;
use std::time::Clock;
use std::{io, str};

/// A sweep of a script.
const SWEEP: &str = "sweep first_reply.script";

/// The exploration of one seed.
const EXPLORE: &str = "explore --nodes 3 --seeds 1..1 --events 20";

/// A sweep of a file that isn't there.
const FAULTY: &str = "sweep no_file.script";

/// Runs a sweep, an exploration and a sweep that fails, and prints one line: whether each of the first two says how
/// long it took, and whether the third says nothing.
///
/// Errors: those of standard output.
pub fn print_results<R: Files + AllocGlobal + Print + Threads + Wait + Clock + Sync>(
    rt: &R,
) -> io::Result<()> {
    let sweep = is_time(written(rt, SWEEP).as_slice());
    let explore = is_time(written(rt, EXPLORE).as_slice());
    let faulty = written(rt, FAULTY).is_empty();
    println!(rt;
        "On a terminal sweep says how long it took: {sweep}; explore: {explore}; not after a fault: {faulty}"
    )
}

/// Returns what this command line writes as the progress of its work.
fn written<R: Files + AllocGlobal + Threads + Wait + Clock + Sync>(rt: &R, line: &str) -> Vec<u8> {
    let alloc = rt.alloc();
    let (mut out, mut err, mut progress) = (Vec::new(alloc), Vec::new(alloc), Vec::new(alloc));
    let watched = Some(&mut progress);
    let _ = run_line(rt, line.as_bytes(), &[], &mut out, &mut err, watched);
    progress
}

/// Returns whether the text ends with a line `took S.T s`, with S a number and T a digit. Before it there may be
/// nothing but a progress that is cleared at its end.
fn is_time(text: &[u8]) -> bool {
    let text = str::from_utf8(text).unwrap_or("");
    match text.split_once("took ") {
        Some((progress, time)) => {
            (progress.is_empty() || progress.ends_with("\r\x1b[K")) && is_in_tenths(time)
        }
        None => false,
    }
}

/// Returns whether the text is `S.T s` with a line feed, with S a number and T a digit.
fn is_in_tenths(time: &str) -> bool {
    let Some((seconds, rest)) = time.split_once(".") else {
        return false;
    };
    let Some(tenths) = rest.strip_suffix(" s\n") else {
        return false;
    };
    seconds.parse::<u64>().is_ok() && tenths.len() == 1 && tenths.parse::<u8>().is_ok()
}
