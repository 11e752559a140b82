//! Operations, in the words of a script.
//!
//! Formats: Scripts; The command line

use crate::argument_words::{ArgumentWords, RawWords, fits_prefix_and_arguments};
use crate::trace_vocabulary::TraceVocabulary;
use std::fmt;

/// An operation, displayed as in a script: by the first form that reads all its bytes, or as `raw` and hex digits.
///
/// Formats: Scripts; The command line
#[derive(Clone, Copy)]
pub struct OperationWords<'a> {
    /// The words of the object's operations.
    pub trace_vocabulary: &'a TraceVocabulary,
    /// The bytes of the operation.
    pub operation: &'a [u8],
}

impl fmt::Display for OperationWords<'_> {
    fn fmt<W: fmt::Write>(&self, f: &mut fmt::Formatter<W>) -> fmt::Result {
        for form in self.trace_vocabulary.operations {
            if fits_prefix_and_arguments(form.first, form.arguments, self.operation) {
                let words = ArgumentWords {
                    arguments: form.arguments,
                    bytes: self.operation.get(form.first.len()..).unwrap_or(&[]),
                    has_leading_space: true,
                };
                return write!(f, "{}{words}", form.word);
            }
        }
        write!(f, "{}", RawWords(self.operation))
    }
}
