//! The program `totem`: passes its command line and standard streams to `totem_command`.
//!
//! Formats: The command line
#![tactic(auto)]

use std::io::{Input, IsTerminal};
use std::process::ExitCode;
use totem_command::{run, words_of};

fn main(rt: HostRuntime) -> ExitCode {
    let mut input = rt.reader();
    let mut out = rt.stdout();
    let mut err = rt.stderr();
    let mut progress = rt.stderr();
    let words = words_of(&rt);
    let watched = if err.is_terminal() {
        Some(&mut progress)
    } else {
        None
    };
    let status = run(&rt, &words, &mut input, &mut out, &mut err, watched);
    ExitCode::from(status)
}
