//! The parsing of the command line.
//!
//! Formats: The command line

use crate::command_forms::command_of;
use crate::periods::periods_of;
use crate::seeds::seeds_of;
use crate::traces::{TraceArguments, trace_arguments_in};
use crate::usage_errors::{usage_error, with_usage};
use crate::votes::{VoteList, votes_of};
use clap::error::ErrorKind;
use clap::{ArgMatches, Command, Error};
use ring_record_node::Periods;
use std::alloc::{AllocError, Global};
use std::io;

/// The task that a parsed command line requests.
///
/// Formats: The command line
#[derive(Drop)]
pub(crate) enum CommandTask<'a> {
    /// List the frames of a file, and explain where no frame begins if asked.
    Frames {
        file: &'a str,
        is_explained: bool,
    },
    /// Run the script in a file, once or in a sweep.
    Script(ScriptArguments<'a>),
    /// Run 1 to 16 nodes and as many clients on threads, each client with `calls` calls, 1 to 100.
    Live {
        nodes: u8,
        calls: u8,
    },
    /// Run the script in a file and print the effects of its events.
    Trace(TraceArguments<'a>),
    /// Generate the script of a seed and print it, for nodes with these votes, with `events` lines, 1 to 10,000.
    Generate {
        votes: VoteList,
        seed: u64,
        events: u32,
    },
    /// Generate, run and check the scripts of many seeds.
    Explore(ExploreArguments),
    /// Run node `me`, 1 to 16, of a group with these votes, driven by records.
    ///
    /// The group may have no node `me`; that isn't checked here. The periods are those of the node's timeouts.
    Node {
        me: u8,
        votes: VoteList,
        periods: Periods,
    },
}

/// The arguments of `script` and of `sweep`.
///
/// Formats: The command line
#[derive(Clone, Copy)]
pub(crate) struct ScriptArguments<'a> {
    /// The name of the script's file, or `-` for the input.
    pub(crate) file: &'a str,
    /// The mode in which the script is run.
    pub(crate) mode: RunMode,
    /// Whether a fault in the script is explained, in a line below that of the fault.
    pub(crate) is_explained: bool,
}

/// The mode in which a script is run.
///
/// Formats: The command line
#[derive(Clone, Copy, Debug, PartialEq, Eq)]
pub(crate) enum RunMode {
    /// The script is run once.
    Plain,
    /// The script is run once, and whether the run is legal is printed.
    Checked,
    /// The script is run with a stop and a cut of each node before each event.
    ///
    /// The number is that of the threads, 1 to 256, if it is given.
    Sweep(Option<u16>),
    /// The script isn't run.
    ///
    /// The script of the sweep's variant with this number, counted from 1, is printed.
    Variant(u64),
}

/// The arguments of `explore`.
///
/// Formats: The command line
#[derive(Drop)]
pub(crate) struct ExploreArguments {
    /// The votes of the nodes, one for each node.
    pub votes: VoteList,
    /// The first seed.
    pub first: u64,
    /// The last seed, which is included.
    ///
    /// It isn't below the first.
    pub last: u64,
    /// The number of lines of each script, 1 to 10,000.
    pub events: u32,
    /// The number of threads, 1 to 256, if it is given.
    pub threads: Option<u16>,
}

/// The message for a missing command.
const NO_COMMAND: &str = "no command was given";

/// The message for bad votes.
const BAD_VOTES: &str =
    "--votes takes as many numbers from 1 to 255 as there are nodes, separated by commas";

/// The message for bad periods.
const BAD_PERIODS: &str =
    "--periods takes four numbers from 1 to 4294967295, separated by commas: join, retransmit, consensus, loss";

/// The message for bad seeds.
const BAD_SEEDS: &str = "--seeds takes A..B, two numbers of which A is not the greater";

/// Parses the words of a command line, the first of which is the program's own name.
///
/// Errors: the parser's message if the words couldn't be read, are at fault, or request help or the version. It has the
/// kind `OutOfMemory` if an allocation fails.
///
/// Formats: The command line
pub(crate) fn task_of<'a>(
    alloc: Global,
    words: &'a io::Result<Vec<String>>,
) -> Result<CommandTask<'a>, Error> {
    match command_of(alloc) {
        Ok(mut command) => parse_with_command(alloc, &mut command, words),
        Err(error) => Err(Error::from(error)),
    }
}

/// Parses the words with the parser `command`.
fn parse_with_command<'a>(
    alloc: Global,
    command: &mut Command<'a>,
    words: &'a io::Result<Vec<String>>,
) -> Result<CommandTask<'a>, Error> {
    match words {
        Ok(words) => parse_readable_words(alloc, command, words.as_slice()),
        Err(error) => Err(unreadable_words_error(command, error)),
    }
}

/// Parses words that could be read.
fn parse_readable_words<'a>(
    alloc: Global,
    command: &mut Command<'a>,
    words: &'a [String],
) -> Result<CommandTask<'a>, Error> {
    let matches = match command.try_get_matches_from_mut(words) {
        Ok(matches) => matches,
        Err(error) => return Err(with_usage(alloc, words, error)),
    };
    match task_of_matches(&matches) {
        Ok(task) => Ok(task),
        Err(wrong) => Err(usage_error(alloc, words, wrong)),
    }
}

/// Returns the message for words that couldn't be read.
fn unreadable_words_error(command: &mut Command<'_>, error: &io::Error) -> Error {
    if error.kind() == io::ErrorKind::OutOfMemory {
        return Error::from(AllocError);
    }
    parser_error(command, "an argument is not UTF-8")
}

/// Returns the parser's message for words with the fault `wrong`.
fn parser_error(command: &mut Command<'_>, wrong: &str) -> Error {
    match command.error(ErrorKind::InvalidValue, wrong) {
        Ok(error) => error,
        Err(error) => Error::from(error),
    }
}

/// Returns the task of the parsed words, or the message for what is wrong with them.
fn task_of_matches<'a>(matches: &ArgMatches<'a>) -> Result<CommandTask<'a>, &'static str> {
    match matches.subcommand() {
        Some((name, matches)) => task_of_command(name, matches),
        None => Err(NO_COMMAND),
    }
}

/// Returns the task of the command `name` with these words, or the message for what is wrong with them.
fn task_of_command<'a>(
    name: &str,
    matches: &ArgMatches<'a>,
) -> Result<CommandTask<'a>, &'static str> {
    match name {
        "gen" => generate_in(matches),
        "explore" => explore_in(matches),
        "node" => node_in(matches),
        "live" => live_in(matches).ok_or(NO_COMMAND),
        _ => file_in(name, matches).ok_or(NO_COMMAND),
    }
}

/// Returns the task of a command that reads a file.
fn file_in<'a>(name: &str, matches: &ArgMatches<'a>) -> Option<CommandTask<'a>> {
    let file = matches.get_str("FILE")?;
    match name {
        "frames" => Some(CommandTask::Frames {
            file,
            is_explained: matches.get_flag("explain"),
        }),
        "script" if matches.get_flag("check") => Some(script_in(file, RunMode::Checked, matches)),
        "script" => Some(script_in(file, RunMode::Plain, matches)),
        "sweep" => Some(script_in(file, sweep_in(matches), matches)),
        "trace" => Some(CommandTask::Trace(trace_arguments_in(file, matches))),
        _ => None,
    }
}

/// Returns the task of a command that runs a script in this mode.
fn script_in<'a>(file: &'a str, mode: RunMode, matches: &ArgMatches<'a>) -> CommandTask<'a> {
    CommandTask::Script(ScriptArguments {
        file,
        mode,
        is_explained: matches.get_flag("explain"),
    })
}

/// Returns the mode of `sweep`.
fn sweep_in<'a>(matches: &ArgMatches<'a>) -> RunMode {
    match matches.get_one::<u64>("variant") {
        Some(place) => RunMode::Variant(place),
        None => RunMode::Sweep(matches.get_one::<u16>("threads")),
    }
}

/// Returns the task of `live`.
fn live_in<'a>(matches: &ArgMatches<'a>) -> Option<CommandTask<'a>> {
    let nodes = matches.get_one::<u8>("nodes")?;
    let calls = matches.get_one::<u8>("calls")?;
    Some(CommandTask::Live { nodes, calls })
}

/// Returns the task of `gen`, or the message for what is wrong with its words.
fn generate_in<'a>(matches: &ArgMatches<'a>) -> Result<CommandTask<'a>, &'static str> {
    let (Some(seed), Some(events)) = (
        matches.get_one::<u64>("seed"),
        matches.get_one::<u32>("events"),
    ) else {
        return Err(NO_COMMAND);
    };
    let votes = votes_in(matches, "nodes")?;
    Ok(CommandTask::Generate {
        votes,
        seed,
        events,
    })
}

/// Returns the task of `explore`, or the message for what is wrong with its words.
fn explore_in<'a>(matches: &ArgMatches<'a>) -> Result<CommandTask<'a>, &'static str> {
    let (Some(seeds), Some(events)) = (matches.get_str("seeds"), matches.get_one::<u32>("events"))
    else {
        return Err(NO_COMMAND);
    };
    let threads = matches.get_one::<u16>("threads");
    let votes = votes_in(matches, "nodes")?;
    match seeds_of(seeds) {
        Some((first, last)) => Ok(CommandTask::Explore(ExploreArguments {
            votes,
            first,
            last,
            events,
            threads,
        })),
        None => Err(BAD_SEEDS),
    }
}

/// Returns the task of `node`, or the message for what is wrong with its words.
fn node_in<'a>(matches: &ArgMatches<'a>) -> Result<CommandTask<'a>, &'static str> {
    let Some(me) = matches.get_one::<u8>("me") else {
        return Err(NO_COMMAND);
    };
    let votes = votes_in(matches, "of")?;
    let periods = periods_of(matches.get_str("periods")).ok_or(BAD_PERIODS)?;
    Ok(CommandTask::Node { me, votes, periods })
}

/// Returns the votes of as many nodes as the word `count` says, or the message for what is wrong with them.
fn votes_in<'a>(matches: &ArgMatches<'a>, count: &str) -> Result<VoteList, &'static str> {
    match matches.get_one::<u8>(count) {
        Some(nodes) => votes_of(nodes, matches.get_str("votes")).ok_or(BAD_VOTES),
        None => Err(NO_COMMAND),
    }
}
