//! The lock table's own program, which has the commands of the program `totem` with its own words, and the output for a
//! script.

use crate::lock_vocabulary::LockVocabulary;
use crate::locks::Locks;
use std::alloc::Global;
use std::io::{Read, Write};
use std::rt::Files;
use std::sync::Wait;
use std::thread::Threads;
use std::time::Clock;
use std::{io, str};
use totem_command::run_of;

/// Three nodes settle. Client 7 acquires lock 7 for holder 11, in words, and then for holder 22, by the operation's
/// bytes.
const SCRIPT: &str = "nodes 3\n\
    timeout 1 join\n\
    timeout 2 join\n\
    timeout 3 join\n\
    pump 100\n\
    call 2 7 1 acquire 7 11\n\
    call 2 7 2 raw 01070000000000000016\n\
    pump 100\n";

/// Runs the command of these words, the first of which is the program's own name, and returns the exit status.
///
/// The reader and the writers are `dyn`, so that all commands are compiled for one of each.
///
/// Errors: as for `run_of` of `totem_command`.
pub fn run<R: Files + AllocGlobal + Threads + Wait + Clock + Sync>(
    rt: &R,
    words: &io::Result<Vec<String>>,
    mut input: &mut dyn Read,
    mut out: &mut dyn Write,
    mut err: &mut dyn Write,
) -> u8 {
    let nobody: Option<&mut Vec<u8>> = None;
    run_of::<Locks, LockVocabulary, _, _, _, _, _>(
        rt, words, &mut input, &mut out, &mut err, nobody,
    )
}

/// Prints five outputs of the program: of the script; of a sweep of it, with a stop or a cut of each node before any
/// event; of generated scripts; the replies in a trace; and those in its page.
///
/// Errors: those of standard output.
pub fn print_results<R: Files + AllocGlobal + Print + Threads + Wait + Clock + Sync>(
    rt: &R,
) -> io::Result<()> {
    let script = SCRIPT.as_bytes();
    print_run(rt, script)?;
    print_last_line(
        rt,
        "A stop or a cut before any event",
        "locks sweep -",
        script,
    )?;
    print_generated(rt)?;
    let seeds = "locks explore --nodes 3 --seeds 1..9 --events 100";
    print_last_line(rt, "The scripts of nine seeds", seeds, &[])?;
    print_trace(rt, script)?;
    print_page(rt, script)
}

/// Prints the program's output for the script.
fn print_run<R: Files + AllocGlobal + Print + Threads + Wait + Clock + Sync>(
    rt: &R,
    script: &[u8],
) -> io::Result<()> {
    let run = printed(rt, "locks script --check -", script);
    print!(rt; "{}", text_of(&run))
}

/// Prints whether a made script is legal.
fn print_generated<R: Files + AllocGlobal + Print + Threads + Wait + Clock + Sync>(
    rt: &R,
) -> io::Result<()> {
    let made = printed(rt, "locks gen --nodes 3 --seed 1 --events 100", &[]);
    let script = made.as_slice();
    print_last_line(
        rt,
        "The script that seed 1 makes",
        "locks script --check -",
        script,
    )
}

/// Prints the replies in a trace of the script.
fn print_trace<R: Files + AllocGlobal + Print + Threads + Wait + Clock + Sync>(
    rt: &R,
    script: &[u8],
) -> io::Result<()> {
    let traced = printed(rt, "locks trace -", script);
    print_replies(rt, text_of(&traced))
}

/// Prints the calls and replies that the page of the script shows, by the lines of JSON in it.
fn print_page<R: Files + AllocGlobal + Print + Threads + Wait + Clock + Sync>(
    rt: &R,
    script: &[u8],
) -> io::Result<()> {
    let page = printed(rt, "locks trace --format html -", script);
    for line in text_of(&page).lines() {
        if let Some(told) = between(line, "\"told\":[{", "}]") {
            print_told(rt, told)?;
        }
    }
    Ok(())
}

/// Prints the operation and the reply of each of an event's reports.
fn print_told<R: Print>(rt: &R, told: &str) -> io::Result<()> {
    for one in told.split("},{") {
        if let Some(operation) = between(one, "\"operation\":\"", "\"")
            && let Some(reply) = between(one, "\"reply\":\"", "\"")
        {
            println!(rt; "The page shows {operation}: {reply}")?;
        }
    }
    Ok(())
}

/// Returns the text between these two, the first of each.
fn between<'a>(text: &'a str, before: &str, behind: &str) -> Option<&'a str> {
    let (_, rest) = text.split_once(before)?;
    let (found, _) = rest.split_once(behind)?;
    Some(found)
}

/// Prints the last line of the program's output, with a title.
fn print_last_line<R: Files + AllocGlobal + Print + Threads + Wait + Clock + Sync>(
    rt: &R,
    of: &str,
    line: &str,
    input: &[u8],
) -> io::Result<()> {
    let told = printed(rt, line, input);
    println!(rt; "{of}: {}", last_line(&told))
}

/// Returns the program's standard output for a command line and an input.
fn printed<R: Files + AllocGlobal + Threads + Wait + Clock + Sync>(
    rt: &R,
    line: &str,
    input: &[u8],
) -> Vec<u8> {
    let alloc = rt.alloc();
    let words = words_in(alloc, line);
    let (mut out, mut err, mut input) = (Vec::new(alloc), Vec::new(alloc), input);
    run(rt, &words, &mut input, &mut out, &mut err);
    out
}

/// Splits a command line at spaces into its words.
fn words_in(alloc: Global, line: &str) -> io::Result<Vec<String>> {
    let mut words = Vec::new(alloc);
    add_words(alloc, line, &mut words)?;
    Ok(words)
}

/// Adds the words of a command line.
fn add_words(alloc: Global, line: &str, words: &mut Vec<String>) -> io::Result<()> {
    for word in line.split(' ') {
        words.push(String::from_str(alloc, word)?)?;
    }
    Ok(())
}

/// Returns the output as text.
fn text_of(printed: &Vec<u8>) -> &str {
    str::from_utf8(printed.as_slice()).unwrap_or("no text")
}

/// Returns the last line of the output.
fn last_line(printed: &Vec<u8>) -> &str {
    text_of(printed).lines().last().unwrap_or("nothing")
}

/// Prints the replies in a trace.
fn print_replies<R: Print>(rt: &R, trace: &str) -> io::Result<()> {
    for line in trace.lines() {
        for part in line.split("; node ") {
            if part.contains(" answers ") {
                println!(rt; "Node {part}")?;
            }
        }
    }
    Ok(())
}
