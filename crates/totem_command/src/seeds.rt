//! The parsing of the seeds on a command line.
//!
//! Formats: The command line

/// Parses a word `A..B` and returns the first and the last seed.
///
/// Returns `None` unless both are numbers below 2^64 and A is at most B.
///
/// Formats: The command line
pub(crate) fn seeds_of(word: &str) -> Option<(u64, u64)> {
    let (first, last) = word.split_once("..")?;
    match (first.parse::<u64>(), last.parse::<u64>()) {
        (Ok(first), Ok(last)) if first <= last => Some((first, last)),
        _ => None,
    }
}
