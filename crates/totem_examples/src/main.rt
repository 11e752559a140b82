//! The examples. The exit status is 0 only if all could be printed, and each example that is data printed the expected
//! output.
//!
//! - `counter` drives a node from a user's program.
//! - `outage` has a client of three nodes that asks until it is answered, while nodes are cut off and stop.
//! - `locks` is a user-defined object, a lock table. `lock_clients` has two clients of it, and `lock_threads` runs it
//!   on threads.
//! - `lock_tools` is the lock table's own program, with the commands of `totem` and the words of `lock_vocabulary`. It
//!   runs where the command line has words.
//! - `terminal` shows which commands say how long they took.
//! - `commands_agree` compares what commands report of the same scripts.
//! - `data` runs what the program `totem` runs: scripts, sweeps, listings of frames, records, command lines. `command`
//!   runs a command line, `expected` and `repeated` judge what it prints, `kind` has the kinds, and `hex_lines` reads
//!   bytes.
#![tactic(auto)]

mod command;
mod commands_agree;
mod counter;
mod data;
mod expected;
mod hex_lines;
mod kind;
mod lock_clients;
mod lock_operation;
mod lock_threads;
mod lock_tools;
mod lock_vocabulary;
mod locks;
mod outage;
mod repeated;
mod terminal;

use std::io::{self, Eprint, Input};
use std::process::ExitCode;
use std::rt::Files;
use std::sync::Wait;
use std::thread::Threads;
use std::time::Clock;
use totem_command::words_of;

fn main(rt: HostRuntime) -> ExitCode {
    let words = words_of(&rt);
    if is_bare(&words) {
        return print_results(&rt);
    }
    let (mut input, mut out, mut err) = (rt.reader(), rt.stdout(), rt.stderr());
    ExitCode::from(lock_tools::run(&rt, &words, &mut input, &mut out, &mut err))
}

/// Prints all examples. The exit status says whether all is right.
fn print_results<
    R: Files + AllocGlobal + Print + Eprint + Threads + Wait + Clock + Sync + Clone + Drop,
>(rt: &R) -> ExitCode {
    match print_all_results(rt) {
        Ok(true) => ExitCode::SUCCESS,
        Ok(false) => ExitCode::FAILURE,
        Err(error) => {
            let _ = eprintln!(rt; "{error}");
            ExitCode::FAILURE
        }
    }
}

/// Whether a command line has the program's name alone.
fn is_bare(words: &io::Result<Vec<String>>) -> bool {
    matches!(words, Ok(words) if words.len() < 2)
}

/// Prints all examples. Returns whether those that are data printed the expected output.
fn print_all_results<R: Files + AllocGlobal + Print + Threads + Wait + Clock + Sync + Clone + Drop>(
    rt: &R,
) -> io::Result<bool> {
    counter::print_results(rt)?;
    outage::print_results(rt)?;
    lock_clients::print_results(rt)?;
    lock_tools::print_results(rt)?;
    lock_threads::print_results(rt)?;
    terminal::print_results(rt)?;
    commands_agree::print_results(rt)?;
    data::run_all(rt)
}
