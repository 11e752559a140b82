//! The lines of a text.
//!
//! Formats: Scripts

ghost use Rattle.std.specs.Prelude.{◌≡◌, ◌+◌};
ghost use Rattle.std.specs.List.{list_all};
ghost use Rattle.ring_script.specs.Words.{are_ascii, lines_of, TakesLine};

use memchr::memchr;
use std::marker::Model;

/// The remaining lines of a text, each with its number, counted from 1.
///
/// A line feed ends a line; after the last line feed there is one more line exactly if bytes follow. Contracts see the
/// lines and the number of lines before them.
#[derive(Drop)]
pub(crate) struct Lines<'a> {
    rest: &'a [u8],
    before: u64,
}

impl<'a> Model for Lines<'a> {
    ghost use Rattle.std.specs.Prelude.{◌+◌, ◌^◌, ◌<◌, length};
    ghost use Rattle.ring_script.specs.Words.{LinesLeft, lines_of};

    ghost Value = { LinesLeft };

    ghost view = { λ lines. record { before = lines.before; lines = lines_of lines.rest.now } };

    ghost invariant = { λ lines. lines.before + length lines.rest.now < 2 ^ 63 };
}

impl<'a> Lines<'a> {
    /// Returns all lines of the text.
    ///
    /// The first line has the number 1.
    ///
    /// Formats: Scripts
    pub fn new(text: &'a [u8]) -> Lines<'a>
        ensures { result ≡ record { before = 0; lines = lines_of text.now } }
    {
        Lines {
            rest: text,
            before: 0,
        }
    }

    /// Returns a copy with the same lines left.
    ///
    /// Taking lines from one of them doesn't change the other.
    pub fn copied_lines(&self) -> Lines<'a>
        ensures { result ≡ self.now }
    {
        Lines {
            rest: self.rest,
            before: self.before,
        }
    }

    /// Returns the number of the next line, counted from 1.
    ///
    /// If no line is left, it is one more than the last line's number.
    pub fn number(&self) -> u64
        ensures { result ≡ self.now.before + 1 }
    {
        self.before + 1
    }

    /// Returns whether each byte of the remaining lines is below 128.
    ///
    /// Returns true if no line is left.
    ///
    /// Formats: Scripts
    pub fn are_ascii(&self) -> bool
        ensures { result ≡ list_all are_ascii self.now.lines }
    {
        self.rest.is_ascii()
    }

    /// Takes the next line and returns its number, counted from 1, and its bytes without the line feed.
    ///
    /// Returns `None` after the last line.
    ///
    /// Formats: Scripts
    pub fn next_line(&mut self) -> Option<(u64, &'a [u8])>
        ensures { TakesLine self.old result self.new }
    {
        if self.rest.is_empty() {
            return None;
        }
        let text = self.rest;
        let line = match memchr(b'\n', text) {
            Some(end) => {
                self.rest = &text[end + 1..];
                &text[..end]
            }
            None => {
                self.rest = &[];
                text
            }
        };
        self.before += 1;
        Some((self.before, line))
    }
}
