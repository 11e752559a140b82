//! The lines of a text, and their positions among the effective lines.
//!
//! Formats: Scripts

ghost use Rattle.std.specs.Prelude.{◌≡◌, ◌==◌, position};

use ring_base::MAX_PROCESSORS;
use ring_script::is_skipped;

/// Returns the index of the first `byte` in the text, or `None` if there is none.
fn byte_index(text: &[u8], byte: u8) -> Option<usize>
    ensures { result ≡ position (λ other. other == byte) text.now }
{
    text.iter().position(|other| *other == byte)
}

/// Splits off the first line of a text.
///
/// Returns the line without its line feed, and the text after it. Returns `None` for an empty text.
///
/// Formats: Scripts
pub(crate) fn first_line(text: &[u8]) -> Option<(&[u8], &[u8])> {
    if text.is_empty() {
        return None;
    }
    match byte_index(text, b'\n') {
        Some(end) => Some((&text[..end], &text[end + 1..])),
        None => Some((text, &[])),
    }
}

/// The position of a line among the effective lines of a text.
#[derive(Clone, Copy, Debug, PartialEq, Eq)]
pub(crate) enum LinePosition {
    /// The first effective line, which has to be `nodes N`.
    First,
    /// The second effective line, with N of the line `nodes N` before it.
    Second(u8),
    /// Any later effective line, with N.
    Later(u8),
}

/// A line of a text and its position.
#[derive(Clone, Copy)]
pub(crate) struct PositionedLine<'a> {
    /// The bytes of the line, without its line feed.
    pub(crate) line: &'a [u8],
    /// The position of the line.
    ///
    /// A skipped line has the position of the next effective line.
    pub(crate) line_position: LinePosition,
}

/// Returns line `number`, counted from 1, and its position.
///
/// Returns `None` if the text has fewer lines.
pub(crate) fn line_at(text: &[u8], number: u64) -> Option<PositionedLine<'_>> {
    let mut rest = text;
    let mut line_position = LinePosition::First;
    for _ in 1..number {
        let (line, behind) = first_line(rest)?;
        if !is_skipped(line) {
            line_position = position_after_line(line_position, line);
        }
        rest = behind;
    }
    let (line, _) = first_line(rest)?;
    Some(PositionedLine {
        line,
        line_position,
    })
}

/// Returns the position of the next effective line, given a line at `line_position`.
fn position_after_line(line_position: LinePosition, line: &[u8]) -> LinePosition {
    match line_position {
        LinePosition::First => LinePosition::Second(node_count_in(line)),
        LinePosition::Second(nodes) | LinePosition::Later(nodes) => LinePosition::Later(nodes),
    }
}

/// Returns N of a line `nodes N`.
///
/// If it isn't such a line, the line itself is at fault, and the result is 16.
fn node_count_in(line: &[u8]) -> u8 {
    let Ok(text) = str::from_utf8(line) else {
        return MAX_PROCESSORS;
    };
    match text.strip_prefix("nodes ") {
        Some(count) => count.parse::<u8>().unwrap_or(MAX_PROCESSORS),
        None => MAX_PROCESSORS,
    }
}
