//! Suggestions: the name that a misspelled word was perhaps meant to be.
//!
//! Formats: The command line

use std::alloc::{AllocError, Global};
use std::fmt;
use strsim::osa_distance;

/// The maximum number of edits from a word to the name that it may mean.
///
/// An edit leaves out, adds or changes one letter, or swaps it with the next.
const MAX_EDITS: usize = 2;

/// The name that a misspelled word was perhaps meant to be.
///
/// It is displayed as the end of a sentence. `None`, if no name is close, is displayed as nothing.
///
/// Formats: The command line
#[derive(Clone, Copy)]
pub(crate) struct Suggestion<'a>(pub(crate) Option<&'a str>);

impl fmt::Display for Suggestion<'_> {
    fn fmt<W: fmt::Write>(&self, f: &mut fmt::Formatter<W>) -> fmt::Result {
        match self.0 {
            Some(word) => write!(f, "; did you mean `{word}`?"),
            None => Ok(()),
        }
    }
}

/// Returns the name closest to the word, and the first of equally close names.
///
/// Only names at most two edits away from the word are considered, and fewer edits than the name has bytes.
///
/// Errors: `AllocError` if an allocation fails.
///
/// Formats: The command line
pub(crate) fn closest_name<'a>(
    alloc: Global,
    word: &str,
    names: &[&'a str],
) -> Result<Suggestion<'a>, AllocError> {
    let mut best: Option<&'a str> = None;
    let mut least = MAX_EDITS + 1;
    for name in names {
        let edits = osa_distance(alloc, word, name)?;
        if edits < least && edits < name.len() {
            best = Some(*name);
            least = edits;
        }
    }
    Ok(Suggestion(best))
}
