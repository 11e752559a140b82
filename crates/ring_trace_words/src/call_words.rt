//! Calls and their answers, in words.
//!
//! Formats: The command line

use crate::operation_words::OperationWords;
use crate::reason_words::ReasonWords;
use crate::reply_words::ReplyWords;
use crate::trace_vocabulary::TraceVocabulary;
use ring_object::Reply;
use ring_payload::Call;
use ring_session::Answer;
use std::alloc::Allocator;
use std::fmt;

/// A call, displayed as its client, a dot, its number, and its operation in words.
///
/// Formats: The command line
#[derive(Drop)]
pub struct CallWords<'a, A: Allocator + Copy> {
    /// The words of the object's operations.
    pub trace_vocabulary: &'a TraceVocabulary,
    /// The call.
    pub call: &'a Call<A>,
}

impl<A: Allocator + Copy> fmt::Display for CallWords<'_, A> {
    fn fmt<W: fmt::Write>(&self, f: &mut fmt::Formatter<W>) -> fmt::Result {
        let (client, number) = (self.call.client, self.call.number);
        let operation = OperationWords {
            trace_vocabulary: self.trace_vocabulary,
            operation: self.call.op.as_slice(),
        };
        write!(f, "{client}.{number} {operation}")
    }
}

/// The answer to a call, displayed as its reply in words, or as the reason why the sessions refuse the call.
///
/// Formats: The command line
#[derive(Drop)]
pub(crate) struct AnswerWords<'a, A: Allocator + Copy> {
    /// The words of the object's replies.
    pub trace_vocabulary: &'a TraceVocabulary,
    /// The call that is answered.
    pub call: &'a Call<A>,
    /// The answer.
    pub answer: &'a Answer,
}

impl<A: Allocator + Copy> fmt::Display for AnswerWords<'_, A> {
    fn fmt<W: fmt::Write>(&self, f: &mut fmt::Formatter<W>) -> fmt::Result {
        match self.answer {
            Answer::Done(reply) => write!(f, "{}", self.reply_words(reply)),
            Answer::Kept(reply) => write!(f, "{}, as before", self.reply_words(reply)),
            Answer::Refused(reason) => write!(f, "refused, {}", ReasonWords(*reason)),
        }
    }
}

impl<A: Allocator + Copy> AnswerWords<'_, A> {
    /// Returns the words of a reply to the call.
    fn reply_words<'b>(&'b self, reply: &'b Reply) -> ReplyWords<'b> {
        ReplyWords {
            trace_vocabulary: self.trace_vocabulary,
            operation: self.call.op.as_slice(),
            reply: reply.as_slice(),
        }
    }
}
