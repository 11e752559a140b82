//! Faults in the operation of a call.
//!
//! Formats: Scripts

use crate::closest_name::closest_name;
use crate::comment::{COMMENT, is_comment};
use crate::name_list::NameList;
use crate::quoted_word::QuotedWord;
use crate::reason::{Reason, end_reason, part_reason, plain_reason};
use crate::word_meaning::WordMeaning;
use ring_script::{Argument, OperationForm, Vocabulary};
use std::alloc::{AllocError, Global};
use std::str::Split;

/// The word that introduces an operation given by its bytes.
const RAW: &str = "raw";

/// Takes the remaining words, and explains why they aren't exactly one operation of the vocabulary `V`.
///
/// Returns `None` if no fault is found.
///
/// Errors: `AllocError` if an allocation fails.
///
/// Formats: Scripts
pub(crate) fn operation_reason<V: Vocabulary>(
    alloc: Global,
    nodes: u8,
    words: &mut Split<'_, char>,
) -> Reason {
    let Some(word) = words.next() else {
        return plain_reason(alloc, "the line ends where this is expected: an operation");
    };
    if word == RAW {
        return bytes_reason(alloc, nodes, words);
    }
    match form_of(V::forms(), word) {
        Some(form) => arguments_reason(alloc, nodes, form.arguments, words),
        None if is_comment(word) => plain_reason(alloc, COMMENT),
        None => unknown_reason(alloc, V::forms(), word),
    }
}

/// Explains that the word is none of these operations, and lists them.
fn unknown_reason(alloc: Global, forms: &'static [OperationForm], word: &str) -> Reason {
    let names = operation_names(alloc, forms)?;
    let meant = closest_name(alloc, word, names.as_slice())?;
    let listed = NameList(names.as_slice());
    Ok(Some(format!(in alloc;
        "{} is none of the operations {listed}{meant}",
        QuotedWord(word)
    )?))
}

/// Explains why the remaining words aren't exactly one word with an operation's bytes.
fn bytes_reason(alloc: Global, nodes: u8, words: &mut Split<'_, char>) -> Reason {
    match part_reason(alloc, nodes, WordMeaning::Operation, words)? {
        Some(reason) => Ok(Some(reason)),
        None => end_reason(alloc, words),
    }
}

/// Explains why the remaining words aren't exactly these arguments.
fn arguments_reason(
    alloc: Global,
    nodes: u8,
    arguments: &[Argument],
    words: &mut Split<'_, char>,
) -> Reason {
    for argument in arguments {
        if let Some(reason) = part_reason(alloc, nodes, argument_meaning(*argument), words)? {
            return Ok(Some(reason));
        }
    }
    end_reason(alloc, words)
}

/// Returns the meaning of the word that gives this argument.
fn argument_meaning(argument: Argument) -> WordMeaning {
    match argument {
        Argument::Key => WordMeaning::Key,
        Argument::Value => WordMeaning::Value,
        Argument::Name => WordMeaning::Name,
    }
}

/// Returns the first of `forms` with the word `word`, or `None` if there is none.
fn form_of(forms: &'static [OperationForm], word: &str) -> Option<OperationForm> {
    for form in forms {
        if form.word == word {
            return Some(*form);
        }
    }
    None
}

/// Returns the words of these operations, each once, and `raw`.
fn operation_names(
    alloc: Global,
    forms: &'static [OperationForm],
) -> Result<Vec<&'static str>, AllocError> {
    let mut names = Vec::new(alloc);
    for form in forms {
        let word = form.word;
        if !names.iter().any(|name| *name == word) {
            names.push(word)?;
        }
    }
    names.push(RAW)?;
    Ok(names)
}
