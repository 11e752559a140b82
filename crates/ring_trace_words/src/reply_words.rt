//! Replies, in words.
//!
//! Formats: The command line

use crate::argument_words::{ArgumentWords, RawWords, fits_prefix_and_arguments};
use crate::trace_vocabulary::TraceVocabulary;
use std::fmt;

/// The reply to an operation, displayed by the first form that has the whole reply, or as `raw` and hex digits.
///
/// Formats: The command line
#[derive(Clone, Copy)]
pub struct ReplyWords<'a> {
    /// The words of the object's replies.
    pub trace_vocabulary: &'a TraceVocabulary,
    /// The bytes of the operation that the reply is to.
    pub operation: &'a [u8],
    /// The bytes of the reply.
    pub reply: &'a [u8],
}

impl fmt::Display for ReplyWords<'_> {
    fn fmt<W: fmt::Write>(&self, f: &mut fmt::Formatter<W>) -> fmt::Result {
        for form in self.trace_vocabulary.replies {
            if self.operation.starts_with(form.operation)
                && fits_prefix_and_arguments(form.first, form.arguments, self.reply)
            {
                let words = ArgumentWords {
                    arguments: form.arguments,
                    bytes: self.reply.get(form.first.len()..).unwrap_or(&[]),
                    has_leading_space: !form.word.is_empty(),
                };
                return write!(f, "{}{words}", form.word);
            }
        }
        write!(f, "{}", RawWords(self.reply))
    }
}
