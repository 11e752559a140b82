//! Scripts: schedules of events, as a text.
//!
//! Rules: Limits 1 and 2
//! Formats: Scripts

ghost use Rattle.std.specs.Char.{is_ascii};
ghost use Rattle.std.specs.List.{list_all};
ghost use Rattle.std.specs.Prelude.{◌≡◌, ℕ, ◌≤◌, Some, List, length, map, option_and_then, option_map, IfOk, IfErr, true};
ghost use Rattle.ring_script.specs.Faults.{IsOfText};
ghost use Rattle.ring_script.specs.Fits.{AreFit};
ghost use Rattle.ring_script.specs.Lines.{request_of, request_in};
ghost use Rattle.ring_script.specs.Reading.{IsParseResultOrMemory, IsParseResult};
ghost use Rattle.ring_script.specs.Numbers.{number_at};
ghost use Rattle.ring_script.specs.Scripts.{parse_node_words, unless_skipped, at_line};
ghost use Rattle.ring_script.specs.Scripts.{nodes_in, requests_in, script_by, script_of, numbered_by, schedule_by, AreAmong, Answers};
ghost use Rattle.ring_script.specs.Scripts.{max_script_bytes, IsAllOf, IsScriptOfInputBy, IsScriptOfInput, IsInputFault};
ghost use Rattle.ring_script.specs.Votes.{nodes_with_one_vote};
ghost use Rattle.ring_script.specs.Words.{are_ascii, is_skipped, whole};

use crate::line::ScriptLine;
use crate::lines::Lines;
use crate::shelf_vocabulary::ShelfVocabulary;
use crate::vocabulary::Vocabulary;
use crate::votes::read_votes;
use crate::words::{Words, equals_word};
use ring_base::{Fault, Fixed, MAX_PROCESSORS};
use std::alloc::{Allocator, Global};
use std::io::{ErrorKind, Read};

/// The maximum length of a script in bytes: 1,048,576.
///
/// Rules: Limits 1
/// Formats: Scripts
pub const MAX_SCRIPT_BYTES: u64 = 1_048_576;

/// The maximum number of nodes of a script: 16.
const MAX_NODES: u64 = MAX_PROCESSORS as u64;

/// The reason why an input can't be read or parsed as a script.
///
/// Formats: Scripts
#[derive(Clone, Copy, Debug, PartialEq, Eq)]
pub enum ScriptFault {
    /// Memory was refused.
    ///
    /// Whether the input is a script isn't known.
    Memory,
    /// The first line at fault, counted from 1.
    ///
    /// If the only fault is that no line is effective, it is one more than the number of lines. It is 0 for the input
    /// as a whole, which can't be read or is too long.
    AtLine(u64),
}

/// A parsed script: the nodes with their votes, and the requests of all other effective lines, in order.
///
/// Formats: Scripts
#[derive(Drop)]
pub struct Script<A: Allocator + Copy = Global> {
    /// The nodes, 1 to 16, with their votes: one vote each if the script has no line `votes`.
    pub nodes: Fixed,
    /// The requests of the effective lines after `nodes` and `votes`, in the order of the lines.
    pub lines: Vec<NumberedLine<A>, A>,
}

/// The request of an effective line, and the number of the line.
///
/// Formats: Scripts
#[derive(Drop)]
pub struct NumberedLine<A: Allocator + Copy = Global> {
    /// The number of the line in the text, counted from 1.
    ///
    /// Skipped lines count.
    pub number: u64,
    /// The event or command that the line requests.
    pub line: ScriptLine<A>,
}

impl<A: Allocator + Copy> Script<A> {
    /// Reads the whole input and parses it as a script for the standard object, as [`parse`](Script::parse) does.
    ///
    /// No line names a node above the script's nodes, and each call is within the limits of a call.
    ///
    /// Errors: `AtLine(0)` if the input can't be read or is longer than 1,048,576 bytes; otherwise those of `parse`.
    /// `Memory` if an allocation fails, including while the input is read.
    ///
    /// Formats: Scripts
    pub fn read<R: Read>(alloc: A, input: &mut R) -> Result<Script<A>, ScriptFault>
        ensures among { IfOk result (λ script. AreAmong script.nodes.count script.lines.items) }
        ensures fit { IfOk result (λ script. AreFit script.lines.items) }
        ensures read { (bytes : List ℕ) × IsAllOf (R.remaining input.old) bytes
            × IsScriptOfInput result bytes }
    {
        Script::read_by::<ShelfVocabulary, R>(alloc, input)
    }

    /// Parses the text as a script for the standard object.
    ///
    /// No line names a node above the script's nodes. The length of the text isn't checked.
    ///
    /// Errors: `AtLine` with the number of the first line at fault, or of the line after the last if all lines are
    /// skipped. `Memory` if an allocation fails.
    ///
    /// Formats: Scripts
    pub fn parse(alloc: A, text: &[u8]) -> Result<Script<A>, ScriptFault>
        ensures among { IfOk result (λ script. AreAmong script.nodes.count script.lines.items) }
        ensures fit { IfOk result (λ script. AreFit script.lines.items) }
        ensures read { Answers schedule_by result (script_of text.now) }
        ensures refused { IfErr result IsOfText }
    {
        Script::parse_by::<ShelfVocabulary>(alloc, text)
    }

    /// Reads the whole input and parses it as a script for an object with the vocabulary `V`.
    ///
    /// Errors: as for [`read`](Script::read).
    ///
    /// Formats: Scripts
    pub fn read_by<V: Vocabulary, R: Read>(
        alloc: A,
        input: &mut R,
    ) -> Result<Script<A>, ScriptFault>
        ensures among { IfOk result (λ script. AreAmong script.nodes.count script.lines.items) }
        ensures fit { IfOk result (λ script. AreFit script.lines.items) }
        ensures read { (bytes : List ℕ) × IsAllOf (R.remaining input.old) bytes
            × IsScriptOfInputBy V.forms result bytes }
    {
        let text = read_text(alloc, input)?;
        Script::parse_by::<V>(alloc, text.as_slice())
    }

    /// Parses the text as a script for an object with the vocabulary `V`.
    ///
    /// Errors: as for [`parse`](Script::parse).
    ///
    /// Formats: Scripts
    #[tactic(auto, unfolding(crate::specs::Scripts::script_by))]
    pub fn parse_by<V: Vocabulary>(alloc: A, text: &[u8]) -> Result<Script<A>, ScriptFault>
        ensures among { IfOk result (λ script. AreAmong script.nodes.count script.lines.items) }
        ensures fit { IfOk result (λ script. AreFit script.lines.items) }
        ensures read { Answers schedule_by result (script_by V.forms text.now) }
        ensures refused { IfErr result IsOfText }
    {
        let mut rest = Lines::new(text);
        let one_vote_each = read_nodes(&mut rest)?;
        let nodes = read_votes(&mut rest, one_vote_each)?;
        let lines = read_lines::<V, A>(alloc, nodes, &mut rest)?;
        Ok(Script { nodes, lines })
    }
}

/// Reads the whole input.
///
/// Errors: `AtLine(0)` if it can't be read or is longer than 1,048,576 bytes; `Memory` if an allocation fails.
fn read_text<A: Allocator + Copy, R: Read>(
    alloc: A,
    input: &mut R,
) -> Result<Vec<u8, A>, ScriptFault>
    ensures whole { IfOk result (λ text. IsAllOf (R.remaining input.old) text.items) }
    ensures fits { IfOk result (λ text. length text.items ≤ max_script_bytes) }
    ensures refused { IfErr result IsInputFault }
{
    let mut text = Vec::new(alloc);
    match input.take(MAX_SCRIPT_BYTES + 1).read_to_end(&mut text) {
        Ok(length) if length as u64 <= MAX_SCRIPT_BYTES => Ok(text),
        Err(error) if error.kind() == ErrorKind::OutOfMemory => Err(ScriptFault::Memory),
        _ => Err(ScriptFault::AtLine(0)),
    }
}

/// Returns the nodes that the first effective line gives.
///
/// Errors: `AtLine` with the number of that line, unless it is `nodes N` with 1 to 16 nodes. If all lines are skipped,
/// the line after them is at fault.
#[tactic(auto, unfolding(crate::specs::Scripts::nodes_in))]
fn read_nodes(lines: &mut Lines<'_>) -> Result<Fixed, ScriptFault>
    ensures { Answers (λ nodes. (nodes, lines.new)) result
        (nodes_in lines.old.before lines.old.lines) }
{
    while let Some((number, line)) = lines.next_line() {
        match parse_nodes_line(line) {
            Ok(None) => {}
            Ok(Some(nodes)) => return Ok(nodes),
            Err(fault) => return Err(at_line(fault, number)),
        }
    }
    Err(ScriptFault::AtLine(lines.number()))
}

/// Parses the remaining lines, and returns the requests of the effective ones.
///
/// Errors: `AtLine` with the number of the first line at fault; `Memory` if an allocation fails.
#[tactic(auto, unfolding(crate::specs::Scripts::requests_in))]
fn read_lines<V: Vocabulary, A: Allocator + Copy>(
    alloc: A,
    nodes: Fixed,
    lines: &mut Lines<'_>,
) -> Result<Vec<NumberedLine<A>, A>, ScriptFault>
    ensures { Answers (λ asked. map numbered_by asked.items) result
        (requests_in V.forms nodes lines.old.before lines.old.lines) }
{
    let mut numbered_lines = Vec::new(alloc);
    let mut operation_buffer = Vec::new(alloc);
    let is_plain = lines.are_ascii();
    while let Some((number, line)) = lines.next_line() {
        match parse_line_unless_skipped::<V, A>(
            alloc,
            nodes,
            line,
            is_plain,
            &mut operation_buffer,
        ) {
            Ok(None) => {}
            Ok(Some(line)) => {
                if numbered_lines.push(NumberedLine { number, line }).is_err() {
                    return Err(ScriptFault::Memory);
                }
            }
            Err(fault) => return Err(at_line(fault, number)),
        }
    }
    Ok(numbered_lines)
}

/// Converts a fault in line `number`, counted from 1, to a script's fault.
///
/// `Memory` stays `Memory`, and any other fault becomes `AtLine(number)`.
pub(crate) fn at_line(fault: Fault, number: u64) -> ScriptFault
    ensures { result ≡ at_line fault number }
{
    match fault {
        Fault::Memory => ScriptFault::Memory,
        _ => ScriptFault::AtLine(number),
    }
}

/// Parses a line as the line `nodes`.
///
/// Returns `None` if it is skipped.
///
/// Errors: `BadScript` if it is not of the form `nodes N`.
fn parse_nodes_line(line: &[u8]) -> Result<Option<Fixed>, Fault>
    ensures { IsParseResult (λ told. told) result (unless_skipped parse_node_words line.now) }
{
    if !are_ascii(line) {
        return Err(Fault::BadScript);
    }
    if is_skipped(line) {
        return Ok(None);
    }
    match parse_node_words(line) {
        Ok(nodes) => Ok(Some(nodes)),
        Err(fault) => Err(fault),
    }
}

/// Parses a line after the line `nodes`.
///
/// Returns `None` if it is skipped.
///
/// Errors: `BadScript` if it has none of the forms; `Memory` if an allocation fails. `is_plain` must be true only if
/// the line is ASCII; it is then not checked again.
fn parse_line_unless_skipped<V: Vocabulary, A: Allocator + Copy>(
    alloc: A,
    nodes: Fixed,
    line: &[u8],
    is_plain: bool,
    operation_buffer: &mut Vec<u8, A>,
) -> Result<Option<ScriptLine<A>>, Fault>
    requires { is_plain ≡ true → are_ascii line.now ≡ true }
    ensures { IsParseResultOrMemory (option_map request_of) result (unless_skipped (request_in V.forms nodes) line.now) }
{
    if !is_plain && !are_ascii(line) {
        return Err(Fault::BadScript);
    }
    if is_skipped(line) {
        return Ok(None);
    }
    match ScriptLine::parse::<V>(alloc, nodes, line, operation_buffer) {
        Ok(line) => Ok(Some(line)),
        Err(fault) => Err(fault),
    }
}

/// Returns whether a line is skipped, and so not effective: whether it is empty or its first byte is `#`.
///
/// Formats: Scripts
pub fn is_skipped(line: &[u8]) -> bool
    ensures { result ≡ is_skipped line.now }
{
    match line.first() {
        None => true,
        Some(first) => *first == b'#',
    }
}

/// Returns whether each byte of the line is below 128.
pub(crate) fn are_ascii(line: &[u8]) -> bool
    ensures { result ≡ are_ascii line.now }
{
    line.is_ascii()
}

/// Parses a line `nodes N`, and returns that many nodes, with one vote each.
///
/// Errors: `BadScript` if it isn't such a line.
#[tactic(auto, unfolding(crate::specs::Scripts::parse_node_words))]
fn parse_node_words(line: &[u8]) -> Result<Fixed, Fault>
    ensures { IsParseResult (λ nodes. nodes) result (parse_node_words line.now) }
{
    let mut words = Words::new(line, b' ');
    match words.next_word() {
        Some(word) if equals_word(word, b"nodes") => parse_node_count(&mut words),
        _ => Err(Fault::BadScript),
    }
}

/// Parses the rest of a line `nodes N`: one number from 1 to 16, and no word after it.
///
/// Errors: `BadScript` otherwise.
fn parse_node_count(words: &mut Words<'_>) -> Result<Fixed, Fault>
    ensures { IsParseResult (λ nodes. nodes) result
        (option_and_then (λ count. option_map nodes_with_one_vote (whole count)) (number_at 1 16 words.old)) }
{
    match words.number(1, MAX_NODES) {
        Ok(count) if words.is_over() => one_vote_each(count as u8),
        _ => Err(Fault::BadScript),
    }
}

/// Returns a group of `count` nodes, with one vote each.
///
/// `count` must be 1 to 16.
fn one_vote_each(count: u8) -> Result<Fixed, Fault>
    requires { (1 ≤ count) × (count ≤ 16) }
    ensures { IsParseResult (λ nodes. nodes) result (Some (nodes_with_one_vote count)) }
{
    match Fixed::new(count) {
        Ok(nodes) => Ok(nodes),
        Err(_) => Err(Fault::BadScript),
    }
}
