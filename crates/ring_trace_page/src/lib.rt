//! The page of a run: one file that loads no other, and that any browser opens.
//!
//! It is written in three parts. The lines of the run, as JSON, come between the first two, and the run's picture
//! between the last two.
//!
//! `page/` has the page's frame, style and script. `page_text` is made of them by `bench/page_text.py --write`.
//!
//! Formats: The command line
#![tactic(auto)]

mod page_text;

use std::io::{self, Write};

/// Writes the part of the page before the lines of the run.
///
/// Errors: any error of `out`. How much has been written is then unspecified.
///
/// Formats: The command line
pub fn write_page_head<W: Write>(out: &mut W) -> io::Result<()> {
    out.write_all(page_text::HEAD.as_bytes())
}

/// Writes the part of the page between the lines of the run and its picture.
///
/// Errors: any error of `out`. How much has been written is then unspecified.
///
/// Formats: The command line
pub fn write_page_after_lines<W: Write>(out: &mut W) -> io::Result<()> {
    out.write_all(page_text::MIDDLE.as_bytes())
}

/// Writes the part of the page after the picture.
///
/// Errors: any error of `out`. How much has been written is then unspecified.
///
/// Formats: The command line
pub fn write_page_after_picture<W: Write>(out: &mut W) -> io::Result<()> {
    out.write_all(page_text::TAIL.as_bytes())
}
