//! The commands, each of which calls the crate that does the work: `ring_sweep`, `ring_trace`, `ring_live`,
//! `ring_script_generator`, `ring_explore` or `ring_record_node`.
//!
//! Formats: The command line

use crate::command_line::{CommandTask, ExploreArguments, task_of};
use crate::listings::list_file;
use crate::node::run_record_node;
use crate::scripts::run_script;
use crate::timing::print_time;
use crate::traces::trace_file;
use clap::Error;
use clap::error::ErrorKind;
use ring_base::Fault;
use ring_explore::{ExplorePlan, explore_of};
use ring_live::live;
use ring_object::Object;
use ring_script_generator::generate_by;
use ring_sweep::{
    BAD_COMMAND_LINE, Failure, ShelfVocabulary, StandardObjects, Vocabulary, report_failure,
};
use ring_trace::ReplyVocabulary;
use std::alloc::Global;
use std::io::{Read, Write};
use std::rt::Files;
use std::sync::Wait;
use std::thread::{self, Threads};
use std::time::{Clock, Instant};
use std::{env, io};

/// The file name `-`, which stands for standard input.
///
/// Formats: The command line
pub(crate) const INPUT: &str = "-";

/// Returns the command-line arguments of this process, in order, the program's own name first.
///
/// Errors: of kind `OutOfMemory` if an allocation fails; otherwise that of reading an argument that isn't UTF-8.
///
/// Formats: The command line
pub fn words_of<R: env::Env + Alloc>(rt: &R) -> io::Result<Vec<String<R::A>, R::A>> {
    let mut words = Vec::new(rt.alloc());
    for word in env::args(rt)? {
        words.push(word)?;
    }
    Ok(words)
}

/// Runs a command line for the standard object.
///
/// The first of `words` must be the program's own name. Returns the exit status: 0 if all was done, 1 after a fault or
/// a run that isn't legal, 2 for a bad command line.
///
/// The command `node` takes its records from `input`; other commands read it if the file is `-`. `out` and `err` get
/// what the program writes on standard output and standard error. `progress`, if there is one, gets the progress of
/// long work, and the time that the work took once it is done.
///
/// Errors: each is reported on `err` and by the status, but a failure of `out` only by the status.
///
/// Formats: The command line
pub fn run<
    R: Files + AllocGlobal + Threads + Wait + Clock + Sync,
    I: Read,
    O: Write,
    E: Write,
    P: Write,
>(
    rt: &R,
    words: &io::Result<Vec<String>>,
    input: &mut I,
    out: &mut O,
    err: &mut E,
    progress: Option<&mut P>,
) -> u8 {
    run_of::<StandardObjects<Global>, ShelfVocabulary, R, I, O, E, P>(
        rt, words, input, out, err, progress,
    )
}

/// Runs the command of these words as [`run`] does, over a user-defined object with the words of its operations and
/// replies.
///
/// `T` is the object and `V` has its words. Only `live` still calls the counters of the standard object. Returns the
/// exit status, 0 to 2, as `run` does.
///
/// Errors: as for [`run`].
///
/// Formats: The command line
pub fn run_of<
    T: Object<Alloc = Global> + Send,
    V: Vocabulary + ReplyVocabulary + Send,
    R: Files + AllocGlobal + Threads + Wait + Clock + Sync,
    I: Read,
    O: Write,
    E: Write,
    P: Write,
>(
    rt: &R,
    words: &io::Result<Vec<String>>,
    input: &mut I,
    out: &mut O,
    err: &mut E,
    progress: Option<&mut P>,
) -> u8 {
    match task_of(rt.alloc(), words) {
        Ok(CommandTask::Frames { file, is_explained }) => list_file(
            rt,
            file,
            is_explained,
            input,
            out,
            err,
        ),
        Ok(CommandTask::Script(asked)) => run_script::<T, V, _, _, _, _, _>(
            rt, asked, input, out, err, progress,
        ),
        Ok(CommandTask::Trace(asked)) => trace_file::<T, V, _, _, _, _>(rt, asked, input, out, err),
        Ok(CommandTask::Live { nodes, calls }) => live(rt, rt.alloc(), nodes, calls, out, err),
        Ok(
            CommandTask::Generate {
                votes,
                seed,
                events,
            },
        ) => generate_by::<V, _, _, _>(rt.alloc(), votes.as_slice(), seed, events, out, err),
        Ok(CommandTask::Node { me, votes, periods }) => run_record_node::<T, _, _, _>(
            rt.alloc(),
            me,
            votes.as_slice(),
            periods,
            input,
            out,
            err,
        ),
        Ok(CommandTask::Explore(asked)) => explore_seeds::<T, V, _, _, _, _>(
            rt, &asked, out, err, progress,
        ),
        Err(error) => print_parser_message(&error, out, err),
    }
}

/// Generates, runs and checks the scripts of all the seeds.
///
/// If there is a `progress`, it gets a last line that says how long that took.
fn explore_seeds<
    T: Object<Alloc = Global> + Send,
    V: Vocabulary + Send,
    R: AllocGlobal + Threads + Clock + Sync,
    O: Write,
    E: Write,
    P: Write,
>(rt: &R, asked: &ExploreArguments, out: &mut O, err: &mut E, progress: Option<&mut P>) -> u8 {
    match progress {
        Some(watched) => {
            let started = Instant::now(rt).ok();
            let status = explore_with::<T, V, R, O, E, P>(rt, asked, out, err, Some(&mut *watched));
            print_time(rt, started, status, watched);
            status
        }
        None => explore_with::<T, V, R, O, E, P>(rt, asked, out, err, progress),
    }
}

/// Generates, runs and checks the scripts of all the seeds, with one thread per processor of the machine if no number
/// of threads is given.
fn explore_with<
    T: Object<Alloc = Global> + Send,
    V: Vocabulary + Send,
    R: AllocGlobal + Threads + Clock + Sync,
    O: Write,
    E: Write,
    P: Write,
>(rt: &R, asked: &ExploreArguments, out: &mut O, err: &mut E, progress: Option<&mut P>) -> u8 {
    let plan = ExplorePlan {
        votes: asked.votes.as_slice(),
        first: asked.first,
        last: asked.last,
        lines: asked.events,
    };
    let threads = asked.threads.unwrap_or(processors(rt));
    explore_of::<T, V, R, O, E, P>(rt, rt.alloc(), plan, threads, out, err, progress)
}

/// Returns the number of the machine's processors.
///
/// It is 1 if that isn't known, and saturates at 65,535.
pub(crate) fn processors<R: Threads>(rt: &R) -> u16 {
    match thread::available_parallelism(rt) {
        Ok(many) => u16::try_from(many.get()).unwrap_or(u16::MAX),
        Err(_) => 1,
    }
}

/// Prints the parser's message: the version on `out`, any other, help included, on `err`.
///
/// Returns the exit status.
fn print_parser_message<O: Write, E: Write>(error: &Error, out: &mut O, err: &mut E) -> u8 {
    match error.kind() {
        ErrorKind::OutOfMemory => report_failure(err, Failure::Refused(Fault::Memory)),
        ErrorKind::DisplayVersion => match write!(out, "{error}") {
            Ok(()) => 0,
            Err(_) => report_failure(err, Failure::Output),
        },
        _ => {
            let _ = write!(err, "{error}");
            BAD_COMMAND_LINE
        }
    }
}
