//! Failures: the reason why the program ends early, its line on standard error, and the exit status.
//!
//! Formats: The command line
//! Rules: Refusals 1

ghost use Rattle.std.specs.Prelude.{◌≡◌, ◌≤◌, ◌⊎◌, [], Ok, Err, IsOk, OnOk, MatchResult};
ghost use Rattle.std.specs.Io.Buffered.{writer_buffer, writer_contents};
ghost use Rattle.std.specs.Io.KnownBytes.{Appends, Keeps};
ghost use Rattle.ring_failure.specs.declared.failure.Failure.TheVariants.{Output};
ghost use Rattle.ring_failure.specs.Failures.{failure_text};
ghost use Rattle.ring_failure.specs.Texts.{line_of};

use crate::status::FAILED;
use ring_base::Fault;
use ring_script::ScriptFault;
use std::alloc::Allocator;
use std::io::{BufWriter, Write};
use std::{fmt, io};

/// The reason why a command ends early.
///
/// It determines the line on standard error; the exit status is 1.
///
/// Formats: The command line
#[derive(Clone, Copy, Debug, PartialEq, Eq)]
pub enum Failure {
    /// A fault without a position in a file.
    Refused(Fault),
    /// No frame, or no whole record, begins at this byte of the input, counted from 0.
    ///
    /// It is 0 if a file of frames can't be read.
    BadFrame(u64),
    /// The line of the script that is at fault, counted from 1.
    ///
    /// It is 0 for the file as a whole, which can't be read or is too long.
    BadScript(u64),
    /// Standard output failed.
    ///
    /// Only the exit status reports this.
    Output,
}

impl From<Fault> for Failure {
    ghost use Rattle.ring_failure.specs.declared.failure.Failure.TheVariants.{Refused};

    ghost from_gives = { λ fault failure. failure ≡ Refused fault };

    fn from(fault: Fault) -> Failure {
        Failure::Refused(fault)
    }
}

impl From<ScriptFault> for Failure {
    ghost use Rattle.ring_failure.specs.Failures.{script_failure};

    ghost from_gives = { λ fault failure. failure ≡ script_failure fault };

    fn from(fault: ScriptFault) -> Failure {
        match fault {
            ScriptFault::Memory => Failure::Refused(Fault::Memory),
            ScriptFault::AtLine(line) => Failure::BadScript(line),
        }
    }
}

/// Displays the line for standard error, without its line feed; nothing for a failed output.
impl fmt::Display for Failure {
    ghost use Rattle.std.specs.Prelude.{Some};
    ghost use Rattle.ring_failure.specs.Failures.{failure_text};

    ghost output = { λ failure. Some (failure_text failure) };

    fn fmt<W: fmt::Write>(&self, f: &mut fmt::Formatter<W>) -> fmt::Result {
        match self {
            Failure::Refused(fault) => write!(f, "{}", NumberedFault(*fault)),
            Failure::BadFrame(byte) => write!(
                f,
                "{} at byte {byte}",
                NumberedFault(Fault::BadFrame)
            ),
            Failure::BadScript(line) => write!(
                f,
                "{} at line {line}",
                NumberedFault(Fault::BadScript)
            ),
            Failure::Output => Ok(()),
        }
    }
}

/// A fault's number and text: the beginning of each line on standard error.
#[derive(Clone, Copy)]
struct NumberedFault(Fault);

impl fmt::Display for NumberedFault {
    ghost use Rattle.std.specs.Prelude.{Some};
    ghost use Rattle.ring_failure.specs.Failures.{numbered_fault_text};

    ghost output = { λ numbered. Some (numbered_fault_text numbered.0) };

    fn fmt<W: fmt::Write>(&self, f: &mut fmt::Formatter<W>) -> fmt::Result {
        write!(f, "totem: {} {}", self.0.number(), self.0)
    }
}

/// Converts the result of a write to standard output into the result of a command.
///
/// Errors: `Output` for any error of the writer.
///
/// Formats: The command line
pub fn output_result(written: io::Result<()>) -> Result<(), Failure>
    ensures { MatchResult written (λ done. result ≡ Ok done) (λ _. result ≡ Err Output) }
{
    match written {
        Ok(()) => Ok(()),
        Err(_) => Err(Failure::Output),
    }
}

/// Writes the failure's line, with its line feed, to `err`, and returns the exit status, always 1.
///
/// For `Output` nothing is written. An error of `err` itself is ignored.
///
/// Rules: Refusals 1
/// Formats: The command line
pub fn report_failure<E: Write>(err: &mut E, failure: Failure) -> u8
    ensures status { result ≡ 1 }
    ensures output { failure ≡ Failure.Output → err.new ≡ err.old }
{
    if failure != Failure::Output {
        let _ = write_report(err, failure);
    }
    FAILED
}

/// Writes the failure's line, with its line feed.
fn write_report<E: Write>(err: &mut E, failure: Failure) -> io::Result<()>
    ensures { OnOk result (Appends (E.contents err.old) (E.contents err.new) (line_of (failure_text failure))) }
{
    writeln!(err, "{failure}")
}

/// Flushes the buffer over standard output, and reports `done` on `err` if it is a failure.
///
/// Returns the exit status: 0 if the work is done and all its output is written, otherwise 1. Nothing is reported on
/// `err` if the work is done or standard output failed. Whenever `err` changes, the buffer has been flushed before.
///
/// Formats: The command line
pub fn exit_status<O: Write + Drop, A: Allocator, E: Write>(
    out: &mut BufWriter<O, A>,
    err: &mut E,
    done: Result<(), Failure>,
) -> u8
    ensures status { result ≤ 1 }
    ensures ok { result ≡ 0 → IsOk done }
    ensures quiet { result ≡ 0 → err.new ≡ err.old }
    ensures kept { Keeps (writer_contents O.contents out.old) (writer_contents O.contents out.new) }
    ensures flushed { result ≡ 0 → writer_buffer out.new ≡ [] }
    ensures output { done ≡ Err Output → err.new ≡ err.old }
    ensures well { IsOk done → err.new ≡ err.old }
    ensures stands { (err.new ≡ err.old) ⊎ (writer_buffer out.new ≡ []) }
{
    let has_failed = done == Err(Failure::Output) || out.flush().is_err();
    match done {
        _ if has_failed => FAILED,
        Ok(()) => 0,
        Err(failure) => report_failure(err, failure),
    }
}
