//! What commands report of the same scripts, compared: `explore`, `trace` and `frames` with what `script` prints.
//!
//! Formats: The command line

use crate::command::{CommandOutput, output_of};
use ring_sweep::sweep_by_threads;
use std::alloc::Global;
use std::fmt::Write as _;
use std::io::{self, Write};
use std::rt::Files;
use std::sync::Wait;
use std::thread::Threads;
use std::time::Clock;

/// A single node forms its ring, and answers a call.
const FIRST_REPLY: &[u8] = b"nodes 1\ntimeout 1 join\npump 4\ncall 1 7 1 add 0 5\npump 2\nshow\n";

/// The output of its sweep.
const SWEPT: &[u8] = b"events 8\nvariants 18\nlegal yes\n";

/// Command lines that make a script, and that explore its seed alone.
const EXPLORED: [(&str, &str); 2] = [
    (
        "gen --nodes 3 --votes 2,1,1 --seed 3 --events 300",
        "explore --nodes 3 --votes 2,1,1 --seeds 3..3 --events 300",
    ),
    (
        "gen --nodes 3 --votes 2,1,1 --seed 7 --events 300",
        "explore --nodes 3 --votes 2,1,1 --seeds 7..7 --events 300",
    ),
];

/// Command lines that make a script.
const TRACED: [&str; 4] = [
    "gen --nodes 3 --seed 1 --events 80",
    "gen --nodes 3 --seed 2 --events 80",
    "gen --nodes 3 --seed 3 --events 80",
    "gen --nodes 3 --seed 4 --events 80",
];

/// Runs the commands and prints two lines that say whether they agree.
///
/// Errors: those of standard output, or of kind `OutOfMemory` if an allocation fails.
pub fn print_results<R: Files + AllocGlobal + Print + Threads + Wait + Clock + Sync>(
    rt: &R,
) -> io::Result<()> {
    let mut explored = true;
    for (made, explore) in EXPLORED {
        explored = explored && explores_its_script(rt, made, explore)?;
    }
    let mut traced = true;
    for made in TRACED {
        traced = traced && traces_what_is_printed(rt, made)?;
    }
    let listed = lists_the_frames(rt);
    let swept = sweeps_by_no_thread(rt);
    println!(rt;
        "Of generated scripts explore counts the calls and answers: {explored}; trace has the replies, rings and lengths: {traced}\n\
        The frames of a trace are listed, as many as it says: {listed}; a sweep by no thread is one by one: {swept}"
    )
}

/// Returns what a command line prints on this input: nothing if its exit status isn't 0 or standard error isn't empty.
fn text_of<R: Files + AllocGlobal + Threads + Wait + Clock + Sync>(
    rt: &R,
    line: &str,
    input: &str,
) -> String {
    let CommandOutput {
        mut out,
        err,
        status,
    } = output_of(rt, line.as_bytes(), input.as_bytes());
    if status != 0 || !err.is_empty() {
        out.clear();
    }
    String::from_utf8(out).unwrap_or(String::new(rt.alloc()))
}

/// Returns whether exploring one seed runs the generated script of the same numbers: it counts that script's calls and
/// printed answers, and installs rings.
fn explores_its_script<R: Files + AllocGlobal + Threads + Wait + Clock + Sync>(
    rt: &R,
    made: &str,
    explore: &str,
) -> io::Result<bool> {
    let script = text_of(rt, made, "");
    let printed = text_of(rt, "script -", script.as_str());
    let shown = text_of(rt, explore, "");
    let wanted = totals_of(rt.alloc(), script.as_str(), printed.as_str())?;
    let shown = shown.as_str();
    Ok(shown.contains(wanted.as_str()) && !shown.contains("\nrings 0\n"))
}

/// Returns the expected totals of calls and answers for this script, which prints this.
fn totals_of(alloc: Global, script: &str, printed: &str) -> io::Result<String> {
    let calls = script.matches("\ncall ").count();
    let answered = printed.matches("reply ").count();
    Ok(format!(in alloc; "\ncalls {calls}\nanswered {answered}\nrings ")?)
}

/// Returns whether the trace of a generated script agrees with the replies that the script prints and with `show`.
fn traces_what_is_printed<R: Files + AllocGlobal + Threads + Wait + Clock + Sync>(
    rt: &R,
    made: &str,
) -> io::Result<bool> {
    let script = text_of(rt, made, "");
    let shown = text_of(rt, "script -", script.as_str());
    let told = text_of(rt, "trace -", script.as_str());
    agree(rt.alloc(), shown.as_str(), told.as_str())
}

/// Returns whether a trace has the replies that a script prints, and what `show` prints.
fn agree(alloc: Global, shown: &str, trace: &str) -> io::Result<bool> {
    let replies = replies_in(alloc, shown)?;
    let answers = answers_in(alloc, trace)?;
    let have_same = !replies.is_empty() && replies.as_str() == answers.as_str();
    Ok(have_same && has_the_nodes(shown, trace))
}

/// Returns whether each line of `show` has the ring and committed length that the trace last gives for its node.
fn has_the_nodes(shown: &str, trace: &str) -> bool {
    let mut has_all = true;
    for line in shown.lines() {
        has_all = has_all && (!line.starts_with("node ") || is_as_expected(line, trace));
    }
    has_all
}

/// Splits the part at these words, and returns the text before them, which is a node, and the word after them.
fn word_behind<'a>(part: &'a str, words: &str) -> Option<(&'a str, &'a str)> {
    let (node, rest) = part.split_once(words)?;
    Some((node, rest.split(' ').next().unwrap_or("")))
}

/// Returns whether this is the word that the trace last gives for a node after these words; `at_first` if it gives
/// none.
fn is_told_last(text: &str, node: &str, words: &str, wanted: &str, at_first: bool) -> bool {
    let mut is_last = at_first;
    for line in text.lines() {
        for part in line.split("; node ") {
            if let Some((of, word)) = word_behind(part, words)
                && of == node
            {
                is_last = word == wanted;
            }
        }
    }
    is_last
}

/// Returns whether a node's line of `show` has the ring and committed length that the trace last gives for it.
fn is_as_expected(line: &str, trace: &str) -> bool {
    let mut words = line.split(' ');
    let node = words.nth(1).unwrap_or("");
    let ring = words.nth(1).unwrap_or("");
    let committed = words.nth(1).unwrap_or("");
    let is_alone = ring.starts_with("0.");
    is_told_last(trace, node, " installs ring ", ring, is_alone)
        && is_told_last(trace, node, " has committed ", committed, committed == "0")
}

/// Returns a line with node and call for each reply that a script prints.
fn replies_in(alloc: Global, shown: &str) -> io::Result<String> {
    let mut replies = String::new(alloc);
    for line in shown.lines() {
        if let Some(rest) = line.strip_prefix("reply ")
            && let Some((node, call)) = word_behind(rest, " ")
        {
            writeln!(replies, "{node} {call}")?;
        }
    }
    Ok(replies)
}

/// Returns a line with node and call for each answer of a trace.
fn answers_in(alloc: Global, trace: &str) -> io::Result<String> {
    let mut answers = String::new(alloc);
    for line in trace.lines() {
        for part in line.split("; node ") {
            if let Some((node, call)) = word_behind(part, " answers ") {
                writeln!(answers, "{node} {call}")?;
            }
        }
    }
    Ok(answers)
}

/// Returns whether the frames that a trace writes are as many as it counts, and there is one.
fn lists_the_frames<R: Files + AllocGlobal + Threads + Wait + Clock + Sync>(rt: &R) -> bool {
    let told = text_of(rt, "trace --frames sent.bytes alone.script", "");
    let listed = text_of(rt, "frames sent.bytes", "");
    let count = frames_counted(told.as_str());
    count > 0 && count == listed.as_str().lines().count()
}

/// Returns the number of frames that a trace counts.
fn frames_counted(trace: &str) -> usize {
    for line in trace.lines() {
        if let Some(number) = line.strip_prefix("frames ") {
            return number.parse::<usize>().unwrap_or(0);
        }
    }
    0
}

/// Returns whether a sweep that is given no thread prints what it prints with one.
fn sweeps_by_no_thread<R: AllocGlobal + Threads + Clock + Sync>(rt: &R) -> bool {
    let alloc = rt.alloc();
    let (mut printed, mut faults) = (Vec::new(alloc), Vec::new(alloc));
    let mut out: &mut dyn Write = &mut printed;
    let mut err: &mut dyn Write = &mut faults;
    let nobody: Option<&mut Vec<u8>> = None;
    let mut input = FIRST_REPLY;
    let status = sweep_by_threads(rt, alloc, &mut input, 0, &mut out, &mut err, nobody);
    status == 0 && faults.is_empty() && printed.as_slice() == SWEPT
}
