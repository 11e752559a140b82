//! The reason why a line is at fault.
//!
//! Formats: Scripts; The command line

ghost use Rattle.std.specs.Prelude.{◌↔◌, IsNone, IfOk};
ghost use Rattle.ring_script.specs.ScriptTexts.{IsScript};

use crate::closest_name::{Suggestion, closest_name};
use crate::comment::{COMMENT, has_comment_behind_gap, is_comment};
use crate::form::{LINES, LineForm, TrailingWords, line_form};
use crate::groups::groups_reason;
use crate::line_position::{LinePosition, PositionedLine, line_at};
use crate::name_list::NameList;
use crate::operation::operation_reason;
use crate::quoted_word::QuotedWord;
use crate::word_meaning::{ExpectedWord, WordMeaning, timeout_names};
use ring_base::MAX_PROCESSORS;
use ring_script::{MAX_SCRIPT_BYTES, Script, ScriptFault, Vocabulary};
use std::alloc::{AllocError, Global};
use std::str::Split;

/// An explanation of the fault that was found, or `None` if none was.
///
/// It is an error only if an allocation failed.
pub(crate) type Reason = Result<Option<String>, AllocError>;

/// Explains in one sentence why the text isn't a script with the vocabulary `V`.
///
/// The sentence says what the line at fault, as `Script::parse_by` finds it, contains, and what was expected there. A
/// text of more than 1,048,576 bytes isn't a script. Returns `None` exactly if the text is a script.
///
/// Errors: `AllocError` if an allocation fails.
///
/// Formats: Scripts; The command line
pub fn reason_by<V: Vocabulary>(alloc: Global, text: &[u8]) -> Result<Option<String>, AllocError>
    ensures { IfOk result (λ reason. IsNone reason ↔ IsScript V.forms text.now) }
{
    if text.len() as u64 > MAX_SCRIPT_BYTES {
        return Ok(Some(format!(in alloc; "the text is longer than {MAX_SCRIPT_BYTES} bytes")?));
    }
    match Script::parse_by::<V>(alloc, text) {
        Ok(_) => Ok(None),
        Err(ScriptFault::AtLine(line)) => Ok(Some(line_reason::<V>(alloc, text, line)?)),
        Err(ScriptFault::Memory) => Err(AllocError),
    }
}

/// Explains why line `line`, counted from 1, is at fault.
fn line_reason<V: Vocabulary>(alloc: Global, text: &[u8], line: u64) -> Result<String, AllocError> {
    let found = match line_at(text, line) {
        Some(placed) => reason_at_position::<V>(alloc, placed)?,
        None => plain_reason(
            alloc,
            "no line tells how many nodes there are: `nodes N` comes first",
        )?,
    };
    match found {
        Some(reason) => Ok(reason),
        None => String::from_str(alloc, "the line has none of the forms of a script's lines"),
    }
}

/// Returns a copy of this text as an explanation.
///
/// Errors: `AllocError` if an allocation fails.
pub(crate) fn plain_reason(alloc: Global, words: &str) -> Reason {
    Ok(Some(String::from_str(alloc, words)?))
}

/// Explains why this line is at fault at its position.
fn reason_at_position<V: Vocabulary>(alloc: Global, placed: PositionedLine<'_>) -> Reason {
    let PositionedLine {
        line,
        line_position,
    } = placed;
    if let Some(byte) = line.iter().find(|byte| !byte.is_ascii()) {
        return Ok(Some(format!(in alloc;
            "the byte {byte:02x} stands there, and a script is ASCII"
        )?));
    }
    if let Some(words) = spacing_reason(line) {
        return plain_reason(alloc, words);
    }
    match str::from_utf8(line) {
        Ok(line) => words_reason::<V>(alloc, line_position, line),
        Err(_) => Ok(None),
    }
}

/// Explains a fault in the spaces between words, in a comment's position, or at the end of the line.
fn spacing_reason(line: &[u8]) -> Option<&'static str> {
    if line.last() == Some(&b'\r') {
        return Some("the line ends with a carriage return; a line feed alone ends a line");
    }
    if has_comment_behind_gap(line) {
        return Some(COMMENT);
    }
    if line.contains(&b'\t') {
        return Some("a tab stands there; one space parts two words");
    }
    if line.first() == Some(&b' ') {
        return Some("the line begins with a space");
    }
    if line.last() == Some(&b' ') {
        return Some("the line ends with a space");
    }
    if line.windows(2).any(|pair| pair == [b' ', b' '].as_slice()) {
        return Some("two spaces stand there; one space parts two words");
    }
    None
}

/// Explains why the words of this line aren't allowed at this position.
fn words_reason<V: Vocabulary>(alloc: Global, line_position: LinePosition, line: &str) -> Reason {
    let mut words = line.split(' ');
    let Some(first) = words.next() else {
        return Ok(None);
    };
    match line_position {
        LinePosition::First => first_reason(alloc, first, &mut words),
        LinePosition::Second(nodes) if first == "votes" => votes_reason(alloc, nodes, &mut words),
        LinePosition::Second(nodes) | LinePosition::Later(nodes) => {
            event_reason::<V>(alloc, nodes, first, &mut words)
        }
    }
}

/// Explains why the words aren't `nodes N`.
fn first_reason(alloc: Global, first: &str, words: &mut Split<'_, char>) -> Reason {
    if first != "nodes" {
        let reason = format!(in alloc;
            "{} stands there; the first line is `nodes N`, which tells how many nodes there are",
            QuotedWord(first)
        )?;
        return Ok(Some(reason));
    }
    match part_reason(alloc, MAX_PROCESSORS, WordMeaning::Count, words)? {
        Some(reason) => Ok(Some(reason)),
        None => end_reason(alloc, words),
    }
}

/// Explains why the words after `votes` aren't one vote for each of `nodes` nodes.
fn votes_reason(alloc: Global, nodes: u8, words: &mut Split<'_, char>) -> Reason {
    for before in 0..nodes.min(MAX_PROCESSORS) {
        let node = before + 1;
        let Some(word) = words.next() else {
            return Ok(Some(format!(in alloc;
                "node {node} has no votes: as many numbers stand behind `votes` as there are nodes"
            )?));
        };
        if !WordMeaning::Vote.accepts(nodes, word) {
            return mismatch_reason(alloc, word, WordMeaning::Vote, nodes);
        }
    }
    end_reason(alloc, words)
}

/// Explains why the words aren't a line that may follow `nodes` and `votes`.
fn event_reason<V: Vocabulary>(
    alloc: Global,
    nodes: u8,
    first: &str,
    words: &mut Split<'_, char>,
) -> Reason {
    match first {
        "nodes" => plain_reason(
            alloc,
            "`nodes` stands there again; it comes once, first of all",
        ),
        "votes" => plain_reason(
            alloc,
            "`votes` stands there; it comes once, directly behind `nodes`",
        ),
        _ => match line_form(first) {
            Some(form) => form_reason::<V>(alloc, nodes, form, words),
            None => unknown_reason(alloc, first),
        },
    }
}

/// Explains that no line begins with the word, and lists the words with which a line may begin.
fn unknown_reason(alloc: Global, first: &str) -> Reason {
    let meant = closest_name(alloc, first, &LINES)?;
    let listed = NameList(&LINES);
    Ok(Some(format!(in alloc; "{} begins no line; {listed} do{meant}", QuotedWord(first))?))
}

/// Explains why the words after the first aren't of this form.
fn form_reason<V: Vocabulary>(
    alloc: Global,
    nodes: u8,
    form: LineForm,
    words: &mut Split<'_, char>,
) -> Reason {
    if let Some(reason) = parts_reason(alloc, nodes, form.parts, words)? {
        return Ok(Some(reason));
    }
    match form.rest {
        TrailingWords::Nothing => end_reason(alloc, words),
        TrailingWords::Operation => operation_reason::<V>(alloc, nodes, words),
        TrailingWords::Groups => groups_reason(alloc, nodes, words),
    }
}

/// Explains why the next words don't have these meanings.
fn parts_reason(
    alloc: Global,
    nodes: u8,
    parts: &[WordMeaning],
    words: &mut Split<'_, char>,
) -> Reason {
    for part in parts {
        if let Some(reason) = part_reason(alloc, nodes, *part, words)? {
            return Ok(Some(reason));
        }
    }
    Ok(None)
}

/// Takes the next word, and explains why it can't have this meaning in a script of `nodes` nodes, or that it is
/// missing.
///
/// Returns `None` if the word can have it.
///
/// Errors: `AllocError` if an allocation fails.
pub(crate) fn part_reason(
    alloc: Global,
    nodes: u8,
    part: WordMeaning,
    words: &mut Split<'_, char>,
) -> Reason {
    match words.next() {
        Some(word) if part.accepts(nodes, word) => Ok(None),
        Some(word) => mismatch_reason(alloc, word, part, nodes),
        None => {
            let wanted = ExpectedWord {
                word_meaning: part,
                nodes,
            };
            Ok(Some(format!(in alloc; "the line ends where this is expected: {wanted}")?))
        }
    }
}

/// Explains that the word can't have the meaning `part`.
fn mismatch_reason(alloc: Global, word: &str, part: WordMeaning, nodes: u8) -> Reason {
    if is_comment(word) {
        return plain_reason(alloc, COMMENT);
    }
    let wanted = ExpectedWord {
        word_meaning: part,
        nodes,
    };
    let meant = match part {
        WordMeaning::Timeout => closest_name(alloc, word, &timeout_names())?,
        _ => Suggestion(None),
    };
    Ok(Some(format!(in alloc; "{} is not {wanted}{meant}", QuotedWord(word))?))
}

/// Takes the next word, and explains that it is one too many.
///
/// Returns `None` if no word is left.
///
/// Errors: `AllocError` if an allocation fails.
pub(crate) fn end_reason(alloc: Global, words: &mut Split<'_, char>) -> Reason {
    match words.next() {
        Some(word) if is_comment(word) => plain_reason(alloc, COMMENT),
        Some(word) => Ok(Some(format!(in alloc; "{} is a word too many", QuotedWord(word))?)),
        None => Ok(None),
    }
}
