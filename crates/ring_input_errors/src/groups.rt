//! Faults in the groups of a cut.
//!
//! Formats: Scripts

use crate::comment::{COMMENT, is_comment};
use crate::quoted_word::QuotedWord;
use crate::reason::plain_reason;
use crate::word_meaning::{ExpectedWord, WordMeaning};
use ring_base::{MAX_PROCESSORS, Proc, ProcSet};
use std::alloc::{AllocError, Global};
use std::str::Split;

/// Takes the remaining words, and explains why they aren't the groups of a cut of `nodes` nodes.
///
/// Returns `None` if no fault is found.
///
/// Errors: `AllocError` if an allocation fails.
///
/// Formats: Scripts
pub(crate) fn groups_reason(
    alloc: Global,
    nodes: u8,
    words: &mut Split<'_, char>,
) -> Result<Option<String>, AllocError> {
    if nodes == 1 {
        return Ok(Some(String::from_str(alloc, "one node makes no two groups")?));
    }
    let mut seen = ProcSet::new();
    let mut count = 0u32;
    for group in words {
        count = count.saturating_add(1);
        for word in group.split(',') {
            if let Some(reason) = member_reason(alloc, nodes, word, &mut seen)? {
                return Ok(Some(reason));
            }
        }
    }
    if count < 2 {
        return Ok(Some(String::from_str(alloc, "a cut has two groups or more, parted by spaces")?));
    }
    missing_reason(alloc, nodes, seen)
}

/// Explains why the word can't be a member of a group; if it can, adds it to `seen`.
fn member_reason(
    alloc: Global,
    nodes: u8,
    word: &str,
    seen: &mut ProcSet,
) -> Result<Option<String>, AllocError> {
    let wanted = ExpectedWord {
        word_meaning: WordMeaning::Node,
        nodes,
    };
    let number = match word.parse::<u8>() {
        Ok(number)
            if number >= 1 && number <= MAX_PROCESSORS && WordMeaning::Node.accepts(nodes, word) =>
            { number }
        _ if is_comment(word) => return plain_reason(alloc, COMMENT),
        _ => {
            let reason = format!(in alloc;
                "{} is not {wanted}; commas alone part the nodes of a group",
                QuotedWord(word)
            )?;
            return Ok(Some(reason));
        }
    };
    if !seen.insert(Proc::new(number)) {
        return Ok(Some(format!(in alloc; "node {number} stands twice")?));
    }
    Ok(None)
}

/// Explains that a node is in no group, naming the first such node.
fn missing_reason(alloc: Global, nodes: u8, seen: ProcSet) -> Result<Option<String>, AllocError> {
    for before in 0..nodes.min(MAX_PROCESSORS) {
        let number = before + 1;
        if !seen.contains(Proc::new(number)) {
            return Ok(Some(format!(in alloc; "node {number} stands in no group")?));
        }
    }
    Ok(None)
}
