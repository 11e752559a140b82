//! Command lines of the program `totem`, run on inputs and outputs in memory.
//!
//! Formats: The command line

use std::alloc::Global;
use std::io::{self, Error, ErrorKind, Read, Write};
use std::rt::Files;
use std::str;
use std::sync::Wait;
use std::thread::Threads;
use std::time::Clock;
use totem_command::run;

/// The bytes that a command writes on standard output and standard error, and its exit status.
#[derive(Drop)]
pub struct CommandOutput {
    pub out: Vec<u8>,
    pub err: Vec<u8>,
    pub status: u8,
}

impl CommandOutput {
    /// Returns whether the exit status is 0, and standard error is empty.
    pub fn has_ended_well(&self) -> bool {
        self.status == 0 && self.err.is_empty()
    }
}

/// Runs the command line in this text on an input, and returns its output and exit status.
///
/// The words of the line are separated by spaces or line feeds. `totem`, the program's name, isn't among them. A bad
/// line, or one that isn't UTF-8, is reported as the program reports it.
pub fn output_of<R: Files + AllocGlobal + Threads + Wait + Clock + Sync>(
    rt: &R,
    line: &[u8],
    input: &[u8],
) -> CommandOutput {
    let alloc = rt.alloc();
    let (mut out, mut err) = (Vec::new(alloc), Vec::new(alloc));
    let status = run_line(rt, line, input, &mut out, &mut err, None);
    CommandOutput { out, err, status }
}

/// Runs the command line in this text on an input, and returns the exit status.
///
/// The words are those of [`output_of`]. The command writes on `out`, `err` and, if there is one, `progress`. The input
/// and the outputs are `dyn`, so that each command is compiled only once.
pub fn run_line<R: Files + AllocGlobal + Threads + Wait + Clock + Sync>(
    rt: &R,
    line: &[u8],
    input: &[u8],
    mut out: &mut dyn Write,
    mut err: &mut dyn Write,
    progress: Option<&mut Vec<u8>>,
) -> u8 {
    let words = words_in(rt.alloc(), line);
    let mut rest = input;
    let mut reader: &mut dyn Read = &mut rest;
    run(rt, &words, &mut reader, &mut out, &mut err, progress)
}

/// Returns the words of a command line, with the program's own name first.
fn words_in(alloc: Global, line: &[u8]) -> io::Result<Vec<String>> {
    let Ok(text) = str::from_utf8(line) else {
        return Err(Error::from(ErrorKind::InvalidData));
    };
    let mut words = Vec::new(alloc);
    add_words(alloc, text, &mut words)?;
    Ok(words)
}

/// Adds the program's own name, and the words of a text.
fn add_words(alloc: Global, text: &str, words: &mut Vec<String>) -> io::Result<()> {
    words.push(String::from_str(alloc, "totem")?)?;
    for word in text.split_ascii_whitespace() {
        words.push(String::from_str(alloc, word)?)?;
    }
    Ok(())
}
