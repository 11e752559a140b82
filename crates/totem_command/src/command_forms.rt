//! The forms of the command line: the commands, with their words and help.
//!
//! Rules: Nodes that records drive 6
//! Formats: The command line

use crate::value_names::value_name;
use clap::builder::ValueParser;
use clap::{Arg, ArgAction, Command};
use ring_base::MAX_PROCESSORS;
use ring_script_generator::MAX_LINES;
use std::alloc::{AllocError, Global};

/// A command: its name, what it does, the end of its help, and its words.
#[derive(Clone, Copy)]
struct CommandForm {
    name: &'static str,
    about: &'static str,
    help: &'static str,
    words: &'static [CommandWord],
}

/// A word of a command: its name, its help, whether it is required, and the kind of its value.
#[derive(Clone, Copy)]
struct CommandWord {
    name: &'static str,
    help: &'static str,
    is_required: bool,
    takes: ValueKind,
}

/// The kind of a word's value.
#[derive(Clone, Copy)]
enum ValueKind {
    /// No value: the word is there or not.
    Nothing,
    /// A text.
    Text,
    /// One of these names.
    Name(&'static [&'static str]),
    /// A number in this range, both ends included.
    Number(u64, u64),
    /// The word itself is a file's name; it has no value, and its own name isn't written.
    File,
}

/// The end of `totem --help`.
const TOTEM_HELP: &str = "\
Exit status:
  0  all went well
  1  `totem: NUMBER TEXT` on standard error says why; nothing is there where the output failed
  2  a bad command line, or a call for help

Example:
  totem script first_reply.script";

/// The end of `totem script --help`.
const SCRIPT_HELP: &str = "\
A script is refused as a whole before anything runs, by its first line at fault; line 0 is a file
that can't be read or is too long. With --check a last line says `legal yes` or `legal no`: whether
one order of the calls explains all replies. The exit status is 1 after `legal no`.

Examples:
  totem script first_reply.script
  totem script --check first_reply.script";

/// The end of `totem sweep --help`.
const SWEEP_HELP: &str = "\
For each event of the script, each delivery of a pump counted, and for its end, each node is once
stopped and once cut off from all others just before it, and the rest of the script runs. Prints
how many events there are, how many variants were run, and `legal yes` or `legal no`: whether in
each of them one order of the calls explains all replies, and each node's committed calls are a
front of it. After `legal no` the exit status is 1, and standard error names the first variant that
is not legal. It takes as many runs as it prints variants. What is printed does not depend on the
number of threads. With --variant K it prints the script of the Kth variant, and runs none.

Examples:
  totem sweep first_reply.script
  totem sweep --variant 3 first_reply.script";

/// The end of `totem frames --help`.
const FRAMES_HELP: &str = "\
Where the rest of the file doesn't begin with a frame the listing ends, and tells the byte, counted
from 0; byte 0 is also a file that can't be read.

Example:
  totem frames sent.frames";

/// The end of `totem live --help`.
const LIVE_HELP: &str = "\
Each node and each client has a thread of its own. Client c tries node c first, and then the others
in order. It adds 1 to a counter, one call after the other, and ends at its first fault; then
client 1 reads the counter. Prints how many nodes there were, how many adds were answered, what the
counter was, and `legal yes` or `legal no`: whether one order of the calls explains all replies.
The exit status is 1 after `legal no`. Where the read is refused, as after a call of client 1 that
nobody answered, nothing of this is printed, and standard error tells why.

Example:
  totem live --nodes 3 --calls 10";

/// The end of `totem gen --help`.
const GENERATE_HELP: &str = "\
The script calls, delivers, cuts, heals, stops, times out, makes noise and pumps; comments say what
its lines tell. The same numbers make the same script on every machine. `show` stands last, and is
not counted.

Exit status:
  0  the script was printed
  1  `totem: NUMBER TEXT` on standard error says why not; nothing is there where the output failed
  2  a bad command line, or a call for help

Example:
  totem gen --nodes 5 --seed 7 --events 200 > seven.script";

/// The end of `totem trace --help`.
const TRACE_HELP: &str = "\
A line tells an event, counted from 1, and what it changed: states, rings that are installed, with
their members and votes, what is committed, and answers in words. Events in which frames come and
nothing changes are told in one line, as `13-112: 20 rounds`, with the copies that are lost among
them. At the end the events and the frames sent are counted, and each call that has no answer is
told, and why. With --frames the frames sent are written, as `totem frames` lists them. The format
`html` is one page with the picture and the run at each event, which any browser opens.

Exit status:
  0  the whole script was run
  1  `totem: NUMBER TEXT` on standard error says why not; nothing is there where the output failed
  2  a bad command line, or a call for help

Examples:
  totem trace first_reply.script
  totem trace --format html first_reply.script > first_reply.html";

/// The end of `totem explore --help`.
const EXPLORE_HELP: &str = "\
Each script is that of `totem gen` with this seed. Prints how many seeds there were, how many events
were run, each delivery of a pump counted, how many calls were submitted and how many answered, how
many rings were installed, and `legal yes`: in each run one order of the calls explains all replies.
Where that is not so, prints the script of the least such seed in place of all that, under a comment
`legal no`. What is printed does not depend on the number of threads.

Exit status:
  0  all runs are legal
  1  one is not; or `totem: NUMBER TEXT` on standard error says why the work was not done; nothing
     is there where the output failed
  2  a bad command line, or a call for help

Example:
  totem explore --nodes 5 --seeds 1..1000 --events 200";

/// The end of `totem node --help`.
///
/// It states the duties of the program that drives the node.
///
/// Rules: Nodes that records drive 6
const NODE_HELP: &str = "\
Records come on standard input, and what the node tells of each goes out in records on standard
output before the next is read: docs/FORMATS.md, Records, has them. The program that drives it owns
the network and brings the time. A node that ended must not come back under its number in this group, and
only frames of this group may be handed to it.

Exit status:
  0  the input ended
  1  `totem: NUMBER TEXT` on standard error says why the node ended before its input: a record asks
     for nothing, or is not whole; memory was refused for one, or to begin with; or the number is
     above the group's. Nothing is there where the output failed
  2  a bad command line, or a call for help

Example:
  totem node --me 1 --of 3";

/// The names of the formats in which a trace is printed.
const FORMATS: &[&str] = &["text", "json", "svg", "html"];

/// The maximum number of threads that are started.
const MAX_THREADS: u64 = 256;

/// The maximum number of nodes of a group.
const MAX_NODES: u64 = MAX_PROCESSORS as u64;

/// The maximum number of calls of each client of `live`.
const MAX_LIVE_CALLS: u64 = 100;

/// The word that requests a check whether a run is legal.
const CHECK: CommandWord = CommandWord {
    name: "check",
    help: "Tells behind all else whether the run is legal",
    is_required: false,
    takes: ValueKind::Nothing,
};

/// The word that requests an explanation of a script's fault.
const EXPLAIN: CommandWord = CommandWord {
    name: "explain",
    help: "Tells below a fault what stands there, and what was expected",
    is_required: false,
    takes: ValueKind::Nothing,
};

/// The word that requests an explanation of why no frame begins at the end of a listing.
const EXPLAIN_FRAME: CommandWord = CommandWord {
    name: "explain",
    help: "Tells below a fault what stands there, and what was expected; reads the whole file first",
    is_required: false,
    takes: ValueKind::Nothing,
};

/// The word that names a script.
const SCRIPT: CommandWord = CommandWord {
    name: "FILE",
    help: "The script; - is standard input",
    is_required: true,
    takes: ValueKind::File,
};

/// The word that names a file of frames.
const FRAMES: CommandWord = CommandWord {
    name: "FILE",
    help: "The file of frames, one behind another; - is standard input",
    is_required: true,
    takes: ValueKind::File,
};

/// The word for a number of threads.
const THREADS: CommandWord = CommandWord {
    name: "threads",
    help: "How many threads work, in place of one for each processor",
    is_required: false,
    takes: ValueKind::Number(1, MAX_THREADS),
};

/// The word for a variant of a sweep.
const VARIANT: CommandWord = CommandWord {
    name: "variant",
    help: "Prints the script of this variant, counted from 1, in place of a sweep",
    is_required: false,
    takes: ValueKind::Number(1, u64::MAX),
};

/// The word for a number of nodes.
const NODES: CommandWord = CommandWord {
    name: "nodes",
    help: "How many nodes",
    is_required: true,
    takes: ValueKind::Number(1, MAX_NODES),
};

/// The word for a number of lines.
const EVENTS: CommandWord = CommandWord {
    name: "events",
    help: "How many lines that ask for something",
    is_required: true,
    takes: ValueKind::Number(1, MAX_LINES as u64),
};

/// The word for a seed.
const SEED: CommandWord = CommandWord {
    name: "seed",
    help: "The seed, any number below 2^64",
    is_required: true,
    takes: ValueKind::Number(0, u64::MAX),
};

/// The word for several seeds.
const SEEDS: CommandWord = CommandWord {
    name: "seeds",
    help: "The seeds A to B, both included, as A..B",
    is_required: true,
    takes: ValueKind::Text,
};

/// The word for the votes of all nodes.
const VOTES: CommandWord = CommandWord {
    name: "votes",
    help: "The votes of each node, separated by commas, in place of one each",
    is_required: false,
    takes: ValueKind::Text,
};

/// The words of `live`.
const LIVE_WORDS: &[CommandWord] = &[
    CommandWord {
        name: "nodes",
        help: "How many nodes, and as many clients",
        is_required: true,
        takes: ValueKind::Number(1, MAX_NODES),
    },
    CommandWord {
        name: "calls",
        help: "How many adds each client makes",
        is_required: true,
        takes: ValueKind::Number(1, MAX_LIVE_CALLS),
    },
];

/// The words of `node`.
const NODE_WORDS: &[CommandWord] = &[
    CommandWord {
        name: "me",
        help: "Which node of its group it is",
        is_required: true,
        takes: ValueKind::Number(1, MAX_NODES),
    },
    CommandWord {
        name: "of",
        help: "How many nodes the group has",
        is_required: true,
        takes: ValueKind::Number(1, MAX_NODES),
    },
    VOTES,
    CommandWord {
        name: "periods",
        help: "The timeouts' periods in ms: JOIN,RETRANSMIT,CONSENSUS,LOSS, in place of 10,20,100,300",
        is_required: false,
        takes: ValueKind::Text,
    },
];

/// The words of `trace`.
const TRACE_WORDS: &[CommandWord] = &[
    CommandWord {
        name: "format",
        help: "Lines for readers, as is usual; JSON, an object a line; SVG, one picture; or HTML, one page",
        is_required: false,
        takes: ValueKind::Name(FORMATS),
    },
    CommandWord {
        name: "node",
        help: "Tells what happens at this node alone",
        is_required: false,
        takes: ValueKind::Number(1, MAX_NODES),
    },
    CommandWord {
        name: "from",
        help: "Tells no event before this one",
        is_required: false,
        takes: ValueKind::Number(1, u64::MAX),
    },
    CommandWord {
        name: "to",
        help: "Tells no event behind this one",
        is_required: false,
        takes: ValueKind::Number(1, u64::MAX),
    },
    CommandWord {
        name: "frames",
        help: "The file into which the frames sent are written",
        is_required: false,
        takes: ValueKind::Text,
    },
    EXPLAIN,
    CommandWord {
        name: "FILE",
        help: "The script",
        is_required: true,
        takes: ValueKind::File,
    },
];

/// The commands.
const FORMS: &[CommandForm] = &[
    CommandForm {
        name: "script",
        about: "Runs a script, and prints what comes of its events",
        help: SCRIPT_HELP,
        words: &[CHECK, EXPLAIN, SCRIPT],
    },
    CommandForm {
        name: "sweep",
        about: "Runs a script with a stop and a cut of each node before each event, on all processors",
        help: SWEEP_HELP,
        words: &[THREADS, VARIANT, EXPLAIN, SCRIPT],
    },
    CommandForm {
        name: "frames",
        about: "Lists the frames of a file, a line each",
        help: FRAMES_HELP,
        words: &[EXPLAIN_FRAME, FRAMES],
    },
    CommandForm {
        name: "live",
        about: "Runs nodes and clients in threads of their own",
        help: LIVE_HELP,
        words: LIVE_WORDS,
    },
    CommandForm {
        name: "trace",
        about: "Runs a script, and tells what each of its events did",
        help: TRACE_HELP,
        words: TRACE_WORDS,
    },
    CommandForm {
        name: "gen",
        about: "Makes a script by a seed, and prints it",
        help: GENERATE_HELP,
        words: &[NODES, SEED, EVENTS, VOTES],
    },
    CommandForm {
        name: "explore",
        about: "Makes, runs and checks the scripts of many seeds, on all processors",
        help: EXPLORE_HELP,
        words: &[NODES, SEEDS, EVENTS, VOTES, THREADS],
    },
    CommandForm {
        name: "node",
        about: "Runs one node, which records on standard input drive",
        help: NODE_HELP,
        words: NODE_WORDS,
    },
];

/// Returns the parser of the program's command line, with all commands as its subcommands.
///
/// Errors: `AllocError` if an allocation fails.
///
/// Formats: The command line
pub(crate) fn command_of<'a>(alloc: Global) -> Result<Command<'a>, AllocError> {
    let commands = commands_of(alloc)?;
    Command::new(alloc, "totem")
        .version("0.1.0")
        .about("Replicated objects on a token ring")
        .after_help(TOTEM_HELP)
        .subcommand_required(true)
        .subcommands(commands)?
        .bin_name("totem")
}

/// Returns the parser of only the command `name`, which shows its usage as `totem NAME`.
///
/// Returns `None` if there is no such command.
///
/// Errors: `AllocError` if an allocation fails.
///
/// Formats: The command line
pub(crate) fn named_command<'a>(
    alloc: Global,
    name: &str,
) -> Result<Option<Command<'a>>, AllocError> {
    let Some(form) = form_named(name) else {
        return Ok(None);
    };
    let shown = format!(in alloc; "totem {name}")?;
    let command = command_by(alloc, form)?;
    Ok(Some(command.bin_name(shown.as_str())?))
}

/// Returns the form of the command `name`, or `None` if there is no such command.
fn form_named(name: &str) -> Option<&'static CommandForm> {
    FORMS.iter().find(|form| form.name == name)
}

/// Returns the subcommands.
fn commands_of<'a>(alloc: Global) -> Result<Vec<Command<'a>>, AllocError> {
    let mut commands = Vec::new(alloc);
    add_commands(alloc, &mut commands)?;
    Ok(commands)
}

/// Adds the subcommands to the list.
fn add_commands<'a>(alloc: Global, commands: &mut Vec<Command<'a>>) -> Result<(), AllocError> {
    for form in FORMS {
        add_command(alloc, form, commands)?;
    }
    Ok(())
}

/// Adds a command of this form to the list.
fn add_command<'a>(
    alloc: Global,
    form: &CommandForm,
    commands: &mut Vec<Command<'a>>,
) -> Result<(), AllocError> {
    let command = command_by(alloc, form)?;
    Ok(commands.push(command)?)
}

/// Returns a command of this form.
fn command_by<'a>(alloc: Global, form: &CommandForm) -> Result<Command<'a>, AllocError> {
    let words = args_of(alloc, form.words)?;
    Command::new(alloc, form.name)
        .about(form.about)
        .after_help(form.help)
        .args(words)
}

/// Returns these words, for the parser.
fn args_of<'a>(alloc: Global, words: &[CommandWord]) -> Result<Vec<Arg<'a>>, AllocError> {
    let mut args = Vec::new(alloc);
    for word in words {
        args.push(arg_of(alloc, word))?;
    }
    Ok(args)
}

/// Returns a word, for the parser.
fn arg_of<'a>(alloc: Global, word: &CommandWord) -> Arg<'a> {
    let name = word.name;
    let arg = Arg::new(alloc, name)
        .help(word.help)
        .required(word.is_required)
        .action(action_of(word.takes));
    match word.takes {
        ValueKind::File => arg,
        ValueKind::Nothing => arg.long(name),
        ValueKind::Text => with_value(arg, name),
        ValueKind::Name(names) => { with_value(arg, name).value_parser(ValueParser::Names(names)) }
        ValueKind::Number(least, most) => {
            with_value(arg, name).value_parser(ValueParser::unsigned(least, most))
        }
    }
}

/// Makes the word an option with a value, which help and usage show under the value's own name.
fn with_value<'a>(arg: Arg<'a>, name: &'static str) -> Arg<'a> {
    arg.long(name).value_name(value_name(name))
}

/// Returns the parser's action for a word: to take a value, or to note that the word is present.
fn action_of(takes: ValueKind) -> ArgAction {
    match takes {
        ValueKind::Nothing => ArgAction::SetTrue,
        _ => ArgAction::Set,
    }
}
