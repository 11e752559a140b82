//! The forms of lines, by their first words.
//!
//! Formats: Scripts

use crate::word_meaning::WordMeaning;

/// The words that follow the words of a form with fixed meanings.
///
/// Formats: Scripts
#[derive(Clone, Copy, Debug, PartialEq, Eq)]
pub(crate) enum TrailingWords {
    /// The line ends there.
    Nothing,
    /// The words of one operation follow, to the line's end.
    Operation,
    /// The groups of a cut follow, to the line's end.
    Groups,
}

/// The form of a line's words after the first.
///
/// Formats: Scripts
#[derive(Clone, Copy)]
pub(crate) struct LineForm {
    /// The meanings of the next words, one for each, in order.
    pub(crate) parts: &'static [WordMeaning],
    /// The words after these.
    pub(crate) rest: TrailingWords,
}

/// The first words of the lines that may follow `nodes` and `votes`.
pub(crate) const LINES: [&str; 9] = [
    "call", "deliver", "timeout", "noise", "stop", "cut", "heal", "pump", "show",
];

/// Returns the form of the lines whose first word is `word`.
///
/// Returns `None` for `nodes`, for `votes`, and for a word with which no line begins.
///
/// Formats: Scripts
pub(crate) fn line_form(word: &str) -> Option<LineForm> {
    use WordMeaning::{Bytes, Client, Frame, Node, Number, Timeout, Turns};
    match word {
        "call" => form_with(&[Node, Client, Number], TrailingWords::Operation),
        "deliver" => form_with(&[Node, Frame], TrailingWords::Nothing),
        "timeout" => form_with(&[Node, Timeout], TrailingWords::Nothing),
        "noise" => form_with(&[Node, Bytes], TrailingWords::Nothing),
        "stop" => form_with(&[Node], TrailingWords::Nothing),
        "cut" => form_with(&[], TrailingWords::Groups),
        "heal" | "show" => form_with(&[], TrailingWords::Nothing),
        "pump" => form_with(&[Turns], TrailingWords::Nothing),
        _ => None,
    }
}

fn form_with(parts: &'static [WordMeaning], rest: TrailingWords) -> Option<LineForm> {
    Some(LineForm { parts, rest })
}
