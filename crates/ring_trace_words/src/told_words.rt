//! The reports of nodes, in words.
//!
//! Formats: The command line

use crate::call_words::{AnswerWords, CallWords};
use crate::reason_words::ReasonWords;
use crate::trace_vocabulary::TraceVocabulary;
use ring_node_spec::Told;
use std::alloc::Allocator;
use std::fmt;

/// A node's report on a call, displayed in words that follow the node's name: an answer, or the fault because of which
/// the node refused the call.
///
/// Formats: The command line
#[derive(Drop)]
pub struct ToldWords<'a, A: Allocator + Copy> {
    /// The words of the object's operations and replies.
    pub trace_vocabulary: &'a TraceVocabulary,
    /// The report.
    pub told: &'a Told<A>,
}

impl<A: Allocator + Copy> fmt::Display for ToldWords<'_, A> {
    fn fmt<W: fmt::Write>(&self, f: &mut fmt::Formatter<W>) -> fmt::Result {
        let trace_vocabulary = self.trace_vocabulary;
        match self.told {
            Told::Answer(_, call, answer) => {
                let asked = CallWords {
                    trace_vocabulary,
                    call,
                };
                let answered = AnswerWords {
                    trace_vocabulary,
                    call,
                    answer,
                };
                write!(f, "answers {asked}: {answered}")
            }
            Told::Refused(_, call, reason) => {
                let asked = CallWords {
                    trace_vocabulary,
                    call,
                };
                write!(f, "refuses {asked}: {}", ReasonWords(*reason))
            }
        }
    }
}
