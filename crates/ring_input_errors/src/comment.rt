//! Comments in places where none is allowed: after the words of a line, or after a space.
//!
//! Formats: Scripts

/// The character that a comment begins with.
const MARK: &str = "#";

/// The explanation for a comment in a line with other words.
pub(crate) const COMMENT: &str =
    "a comment stands there; a comment has a line of its own, which begins with `#`";

/// Returns whether a comment begins with this word, given that the word can have no other meaning.
pub(crate) fn is_comment(word: &str) -> bool {
    word.starts_with(MARK)
}

/// Returns whether a comment begins after a tab, after two spaces, or after a space at the start of the line.
///
/// After a single space between words, a `#` may be a name.
pub(crate) fn has_comment_behind_gap(line: &[u8]) -> bool {
    line.starts_with(b" #")
        || line.windows(2).any(|pair| pair == [b'\t', b'#'].as_slice())
        || line
            .windows(3)
            .any(|three| three == [b' ', b' ', b'#'].as_slice())
}
