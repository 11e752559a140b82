//! Words as quoted in messages.
//!
//! Formats: The command line

use std::fmt;

/// The maximum number of bytes of a word that are shown.
const MAX_QUOTED: usize = 40;

/// A word, displayed between backticks.
///
/// Each byte that isn't a visible ASCII character is shown as `\x` and two hex digits. Two dots replace the bytes after
/// the first 40.
///
/// Formats: The command line
#[derive(Clone, Copy)]
pub struct QuotedWord<'a>(pub &'a str);

impl fmt::Display for QuotedWord<'_> {
    fn fmt<W: fmt::Write>(&self, f: &mut fmt::Formatter<W>) -> fmt::Result {
        f.write_str("`")?;
        for byte in self.0.as_bytes().iter().take(MAX_QUOTED) {
            write_quoted_byte(*byte, f)?;
        }
        f.write_str(if self.0.len() > MAX_QUOTED {
            "..`"
        } else {
            "`"
        })
    }
}

fn write_quoted_byte<W: fmt::Write>(byte: u8, f: &mut fmt::Formatter<W>) -> fmt::Result {
    if byte.is_ascii_graphic() {
        write!(f, "{}", char::from(byte))
    } else {
        write!(f, "\\x{byte:02x}")
    }
}
