//! A buffer in which a line is built before it is written in a single call.
//!
//! It doesn't use `write!`, for speed: each answer and each frame has a line. It is also used for the line `order`.

ghost use Rattle.std.specs.Prelude.{◌≡◌, ◌+◌, ◌<◌, ◌≤◌, [], ◌++◌, length, OnOk, IfErr};
ghost use Rattle.std.specs.Fmt.{decimal};
ghost use Rattle.std.specs.Io.KnownBytes.{Appends};
ghost use Rattle.ring_failure.specs.declared.failure.Failure.TheVariants.{Output};
ghost use Rattle.ring_failure.specs.Texts.{line_of};

use arrayvec::ArrayVec;
use itoa::Buffer;
use ring_failure::{Failure, output_result};
use std::io::Write;
use std::marker::Model;

/// The capacity of a line in bytes, its line feed included.
///
/// The longest line is that of a token that requests 32 numbers of 20 digits each, and has fewer than 900 bytes.
pub(crate) const MAX_LINE_BYTES: usize = 1_024;

/// A line under construction, of at most 1,024 bytes.
///
/// Contracts see its bytes.
#[derive(Drop)]
pub(crate) struct LineBuffer {
    text: ArrayVec<u8, MAX_LINE_BYTES>,
    /// A buffer for the digits of numbers, which is zeroed only once.
    digits: Buffer,
}

impl Model for LineBuffer {
    ghost use Rattle.std.specs.Prelude.{ℕ, List};

    ghost Value = { List ℕ };

    ghost view = { λ line. line.text.items };
}

impl LineBuffer {
    /// Returns an empty line.
    pub(crate) fn new() -> LineBuffer
        ensures { result ≡ [] }
    {
        LineBuffer {
            text: ArrayVec::new(),
            digits: Buffer::new(),
        }
    }

    /// Adds the bytes at the end.
    ///
    /// The line must have room for them.
    pub(crate) fn append_bytes(&mut self, bytes: &[u8])
        requires { length self.old + length bytes.now ≤ MAX_LINE_BYTES }
        ensures text { self.new ≡ self.old ++ bytes.now }
        ensures len { length self.new ≡ length self.old + length bytes.now }
    {
        let Ok(()) = self.text.try_extend_from_slice(bytes) else {
            unreachable!();
        };
    }

    /// Adds a word, and directly after it the number in decimal digits.
    ///
    /// The line must have room for the word and 20 digits.
    pub(crate) fn add_number(&mut self, word: &str, number: u64)
        requires { length self.old + length word.now + 20 ≤ MAX_LINE_BYTES }
        ensures text { self.new ≡ self.old ++ word.now ++ decimal number }
        ensures len { length self.new ≤ length self.old + length word.now + 20 }
    {
        self.append_bytes(word.as_bytes());
        let digits = self.digits.format(number).as_bytes();
        let Ok(()) = self.text.try_extend_from_slice(digits) else {
            unreachable!();
        };
    }

    /// Writes the line with its line feed, and clears it.
    ///
    /// The line must have room for the line feed.
    ///
    /// Errors: `Output` if writing fails. The line is then cleared, too, and a part of it may have been written.
    pub(crate) fn print_to<W: Write>(&mut self, out: &mut W) -> Result<(), Failure>
        requires { length self.old < MAX_LINE_BYTES }
        ensures written { OnOk result (Appends (W.contents out.old) (W.contents out.new) (line_of self.old)) }
        ensures begun { self.new ≡ [] }
        ensures failed { IfErr result (λ failure. failure ≡ Output) }
    {
        self.text.push(b'\n');
        let written = out.write_all(self.text.as_slice());
        self.text.clear();
        output_result(written)
    }
}
