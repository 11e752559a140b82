//! The lines that a script prints.
//!
//! Formats: What a script prints

ghost use Rattle.std.specs.Prelude.{◌≡◌, ◌+◌, ◌≤◌, [], ◌++◌, length, codes, IfErr, OnOk};
ghost use Rattle.std.specs.Fmt.{decimal};
ghost use Rattle.std.specs.Io.KnownBytes.{Appends};
ghost use Rattle.hex.specs.Hex.{encode_lower};
ghost use Rattle.ring_failure.specs.declared.failure.Failure.TheVariants.{Output};
ghost use Rattle.ring_failure.specs.Texts.{line_of, legal_text};
ghost use Rattle.ring_console.specs.OutputLines.{one_text, told_text, answer_text, refused_text, node_text, order_text};

use crate::line_buffer::{LineBuffer, MAX_LINE_BYTES};
use ring_base::{Proc, RingId, State};
use ring_failure::{Failure, output_result, state_name};
use ring_object::Reply;
use ring_payload::Call;
use ring_session::Answer;
use ring_world::Told;
use std::alloc::Allocator;
use std::fmt;
use std::io::Write;

/// The number of hexadecimal digits of the longest reply: two for each of its 64 bytes.
const MAX_DIGITS: usize = 128;

/// Prints the lines of the reports in order: a node's answer to a call, or a call that a node refused.
///
/// Errors: `Output` if writing fails. A part of the lines may then have been written.
///
/// Formats: What a script prints
pub(crate) fn print_told<A: Allocator + Copy + Drop, W: Write>(
    out: &mut W,
    told: &[Told<A>],
) -> Result<(), Failure>
    ensures lines { OnOk result (Appends (W.contents out.old) (W.contents out.new) (told_text told.now)) }
    ensures failed { IfErr result (λ failure. failure ≡ Output) }
{
    for one in told {
        print_report(out, one)?;
    }
    Ok(())
}

/// Prints one report of a node.
///
/// Errors: `Output` if writing fails.
fn print_report<A: Allocator + Copy + Drop, W: Write>(
    out: &mut W,
    told: &Told<A>,
) -> Result<(), Failure>
    ensures line { OnOk result (Appends (W.contents out.old) (W.contents out.new) (line_of (one_text told.now))) }
    ensures failed { IfErr result (λ failure. failure ≡ Output) }
{
    match told {
        Told::Answer(node, call, answer) => print_answer(out, *node, call, answer),
        Told::Refused(node, call, reason) => print_refused(out, *node, call, *reason),
    }
}

/// Prints a node's answer to a call.
///
/// Errors: `Output` if writing fails. For speed it doesn't use `write!`: each call has such a line.
fn print_answer<A: Allocator + Copy + Drop, W: Write>(
    out: &mut W,
    node: Proc,
    call: &Call<A>,
    answer: &Answer,
) -> Result<(), Failure>
    ensures line { OnOk result (Appends (W.contents out.old) (W.contents out.new) (line_of (answer_text node call.now answer.now))) }
    ensures failed { IfErr result (λ failure. failure ≡ Output) }
{
    let mut line = LineBuffer::new();
    add_call(&mut line, "reply ", node, call);
    match answer {
        Answer::Done(reply) => add_reply(&mut line, " done ", reply),
        Answer::Kept(reply) => add_reply(&mut line, " kept ", reply),
        Answer::Refused(reason) => line.add_number(" refused ", u64::from(*reason)),
    }
    line.print_to(out)
}

/// Prints that a node refused a call, with the number of the fault.
///
/// Errors: `Output` if writing fails.
fn print_refused<A: Allocator + Copy + Drop, W: Write>(
    out: &mut W,
    node: Proc,
    call: &Call<A>,
    reason: u8,
) -> Result<(), Failure>
    ensures line { OnOk result (Appends (W.contents out.old) (W.contents out.new) (line_of (refused_text node call.now reason))) }
    ensures failed { IfErr result (λ failure. failure ≡ Output) }
{
    let mut line = LineBuffer::new();
    add_call(&mut line, "refused ", node, call);
    line.add_number(" ", u64::from(reason));
    line.print_to(out)
}

fn add_call<A: Allocator + Copy + Drop>(
    line: &mut LineBuffer,
    word: &str,
    node: Proc,
    call: &Call<A>,
)
    requires empty { line.old ≡ [] }
    requires room { length word.now ≤ 8 }
    ensures text { line.new ≡ word.now ++ decimal node ++ codes " " ++ decimal call.now.client ++ codes "." ++ decimal call.now.number }
    ensures len { length line.new ≤ 70 }
{
    line.add_number(word, u64::from(node.number()));
    line.add_number(" ", u64::from(call.client));
    line.add_number(".", call.number);
}

/// Adds the word `word`, and a reply as two lower-case hexadecimal digits per byte.
fn add_reply(line: &mut LineBuffer, word: &str, reply: &Reply)
    requires { length line.old + length word.now + MAX_DIGITS ≤ MAX_LINE_BYTES }
    ensures text { line.new ≡ line.old ++ word.now ++ encode_lower reply.now }
    ensures len { length line.new ≤ length line.old + length word.now + MAX_DIGITS }
{
    let mut room = [0u8; MAX_DIGITS];
    let digits = &mut room[..2 * reply.len()];
    let Ok(()) = hex::encode_to_slice(reply.as_slice(), digits) else {
        unreachable!();
    };
    line.append_bytes(word.as_bytes());
    line.append_bytes(digits);
}

/// The number of dropped places, displayed as the end of a node's line. 0 is displayed as nothing.
#[derive(Drop)]
struct TrimmedSuffix(u64);

impl fmt::Display for TrimmedSuffix {
    ghost use Rattle.std.specs.Prelude.{Some};
    ghost use Rattle.ring_console.specs.OutputLines.{trimmed_text};

    ghost output = { λ trimmed. Some (trimmed_text trimmed.0) };

    fn fmt<W: fmt::Write>(&self, f: &mut fmt::Formatter<W>) -> fmt::Result {
        let length = self.0;
        if length == 0 {
            return Ok(());
        }
        write!(f, " trimmed {length}")
    }
}

/// Prints the line of a node in `show`.
///
/// It has the node's state, its last installed ring, its committed length and its log's length, and the number of
/// dropped places unless that is 0. Both lengths include the dropped places.
///
/// Errors: `Output` if writing fails.
///
/// Formats: What a script prints
pub(crate) fn print_node<W: Write>(
    out: &mut W,
    node: Proc,
    state: State,
    ring: RingId,
    committed: u64,
    log: u64,
    trimmed: u64,
) -> Result<(), Failure>
    ensures line { OnOk result (Appends (W.contents out.old) (W.contents out.new) (line_of (node_text node state ring committed log trimmed))) }
    ensures failed { IfErr result (λ failure. failure ≡ Output) }
{
    let (node, state, dropped) = (node.number(), state_name(state), TrimmedSuffix(trimmed));
    output_result(writeln!(
        out,
        "node {node} {state} {ring} committed {committed} log {log}{dropped}"
    ))
}

/// Prints the last line of `show`, with the length of the one order.
///
/// Errors: `Output` if writing fails.
///
/// Formats: What a script prints
pub(crate) fn print_order<W: Write>(out: &mut W, length: u64) -> Result<(), Failure>
    ensures line { OnOk result (Appends (W.contents out.old) (W.contents out.new) (line_of (order_text length))) }
    ensures failed { IfErr result (λ failure. failure ≡ Output) }
{
    let mut line = LineBuffer::new();
    line.add_number("order ", length);
    line.print_to(out)
}

/// Prints `legal yes` or `legal no`.
///
/// Errors: `Output` if writing fails.
///
/// Formats: The command line
pub(crate) fn print_legal<W: Write>(out: &mut W, is_legal: bool) -> Result<(), Failure>
    ensures line { OnOk result (Appends (W.contents out.old) (W.contents out.new) (line_of (legal_text is_legal))) }
    ensures failed { IfErr result (λ failure. failure ≡ Output) }
{
    let word = if is_legal { "yes" } else { "no" };
    output_result(writeln!(out, "legal {word}"))
}
