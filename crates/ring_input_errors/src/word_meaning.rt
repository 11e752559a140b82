//! The meanings that the words of a line have, and the words that each accepts.
//!
//! Formats: Scripts

use ring_base::{Kind, MAX_FRAME_BYTES, MAX_PROCESSORS};
use ring_script::{MAX_NAME_BYTES, MAX_OPERATION, MAX_TURNS, is_name, timeout_name};
use std::fmt;

/// The meaning of a word in a line of a script.
///
/// Formats: Scripts
#[derive(Clone, Copy, Debug, PartialEq, Eq)]
pub(crate) enum WordMeaning {
    /// The number of nodes.
    Count,
    /// The votes of one node.
    Vote,
    /// The number of a node.
    Node,
    /// The number of a client.
    Client,
    /// The number of a client's call.
    Number,
    /// The number of a frame.
    Frame,
    /// The kind of a timeout.
    Timeout,
    /// The bytes of noise, in hexadecimal.
    Bytes,
    /// The bytes of an operation, in hexadecimal.
    Operation,
    /// The number of turns of a `pump`.
    Turns,
    /// The key of an operation.
    Key,
    /// A value of an operation.
    Value,
    /// The name of an operation on names.
    Name,
}

/// Returns the words that name the four timeouts in scripts.
pub(crate) fn timeout_names() -> [&'static str; 4] {
    [
        timeout_name(Kind::Retransmit),
        timeout_name(Kind::Join),
        timeout_name(Kind::Consensus),
        timeout_name(Kind::Loss),
    ]
}

impl WordMeaning {
    /// Returns the least and the greatest number allowed, in a script of `nodes` nodes.
    ///
    /// Returns `None` if the meaning isn't a number with bounds.
    fn bounds(self, nodes: u8) -> Option<(u64, u64)> {
        match self {
            WordMeaning::Count => Some((1, u64::from(MAX_PROCESSORS))),
            WordMeaning::Vote => Some((1, 255)),
            WordMeaning::Node => Some((1, u64::from(nodes))),
            WordMeaning::Client => Some((0, u64::from(u32::MAX))),
            WordMeaning::Number => Some((1, u64::MAX)),
            WordMeaning::Turns => Some((1, MAX_TURNS)),
            WordMeaning::Key => Some((0, 255)),
            WordMeaning::Value => Some((0, u64::MAX)),
            WordMeaning::Frame
            | WordMeaning::Timeout
            | WordMeaning::Bytes
            | WordMeaning::Operation
            | WordMeaning::Name => None,
        }
    }

    /// Returns whether the word may have this meaning in a script of `nodes` nodes: it has the form, and its number is
    /// in range.
    ///
    /// Formats: Scripts
    pub(crate) fn accepts(self, nodes: u8, word: &str) -> bool {
        if let Some((least, most)) = self.bounds(nodes) {
            return is_decimal(word)
                && matches!(word.parse::<u64>(), Ok(number) if least <= number && number <= most);
        }
        match self {
            WordMeaning::Frame => is_decimal(word) && word != "0",
            WordMeaning::Timeout => timeout_names().iter().any(|kind| *kind == word),
            WordMeaning::Bytes => are_bytes(word, MAX_FRAME_BYTES),
            WordMeaning::Operation => are_bytes(word, MAX_OPERATION),
            _ => is_name(word.as_bytes()),
        }
    }
}

/// Returns whether the word is one or more digits, without a leading zero except in `0` itself.
fn is_decimal(word: &str) -> bool {
    let has_leading_zero = word.len() > 1 && word.starts_with("0");
    !word.is_empty()
        && !has_leading_zero
        && word.as_bytes().iter().all(|byte| byte.is_ascii_digit())
}

/// Returns whether the word encodes 1 to `most` bytes in hex, two digits each.
fn are_bytes(word: &str, most: usize) -> bool {
    let are_digits = word.as_bytes().iter().all(|byte| byte.is_ascii_hexdigit()
        && !byte.is_ascii_uppercase());
    !word.is_empty() && word.len() / 2 <= most && word.len() % 2 == 0 && are_digits
}

/// A description of the words that a meaning accepts, displayed with their range, as in `a node, 1 to 3`.
///
/// Formats: The command line
#[derive(Clone, Copy)]
pub(crate) struct ExpectedWord {
    /// The expected meaning.
    pub(crate) word_meaning: WordMeaning,
    /// The number of nodes of the script.
    pub(crate) nodes: u8,
}

impl fmt::Display for ExpectedWord {
    fn fmt<W: fmt::Write>(&self, f: &mut fmt::Formatter<W>) -> fmt::Result {
        let words = match self.word_meaning {
            WordMeaning::Count => "a number of nodes",
            WordMeaning::Vote => "a number of votes",
            WordMeaning::Node => "a node",
            WordMeaning::Client => "a client",
            WordMeaning::Number => "the number of a call",
            WordMeaning::Turns => "a number of turns",
            WordMeaning::Key => "a key",
            WordMeaning::Value => "a number",
            WordMeaning::Frame => "the number of a frame, 1 or more",
            WordMeaning::Timeout => "`retransmit`, `join`, `consensus` or `loss`",
            WordMeaning::Bytes => return write_bytes(f, MAX_FRAME_BYTES),
            WordMeaning::Operation => return write_bytes(f, MAX_OPERATION),
            WordMeaning::Name => return write!(f, "a name of 1 to {MAX_NAME_BYTES} bytes"),
        };
        match self.word_meaning.bounds(self.nodes) {
            Some((least, most)) => write!(f, "{words}, {least} to {most}"),
            None => write!(f, "{words}"),
        }
    }
}

/// Writes that 1 to `most` bytes are expected.
fn write_bytes<W: fmt::Write>(f: &mut fmt::Formatter<W>, most: usize) -> fmt::Result {
    write!(
        f,
        "1 to {most} bytes, each as two digits of `0` to `9` and `a` to `f`"
    )
}
