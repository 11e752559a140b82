//! The vocabulary of a trace: the words for an object's operations and its replies.
//!
//! Formats: The command line

use ring_script::{Argument, OperationForm, Vocabulary};

/// The form of a reply: in words, a word and arguments; in bytes, a prefix and the encoded arguments.
///
/// Formats: The command line
#[derive(Clone, Copy)]
pub struct ReplyForm {
    /// The prefix of the operations whose replies have this form.
    ///
    /// It is empty for all operations.
    pub operation: &'static [u8],
    /// The bytes that the reply begins with.
    ///
    /// The encoded arguments follow them, to the reply's end.
    pub first: &'static [u8],
    /// The word for the reply.
    ///
    /// If it is empty, only the arguments are shown.
    pub word: &'static str,
    /// The kinds of its arguments, in the order in which they follow.
    pub arguments: &'static [Argument],
}

/// The words of an object's replies.
///
/// A program that traces a user-defined object implements it in addition to `Vocabulary`, which has the words of the
/// operations.
///
/// Formats: The command line
pub trait ReplyVocabulary {
    /// Returns the forms of the replies.
    ///
    /// A reply is shown in the first form that fits its operation and all its bytes. A reply without a form is shown as
    /// `raw` and its bytes.
    fn replies() -> &'static [ReplyForm];
}

/// The words in which a trace shows an object's operations and replies.
///
/// Formats: The command line
#[derive(Drop)]
pub struct TraceVocabulary {
    /// The forms of the operations.
    ///
    /// The first form that decodes an operation applies.
    pub(crate) operations: &'static [OperationForm],
    /// The forms of the replies.
    ///
    /// The first form that decodes a reply applies.
    pub(crate) replies: &'static [ReplyForm],
}

impl TraceVocabulary {
    /// Returns the vocabulary that `V` defines for operations and replies.
    ///
    /// Formats: The command line
    pub fn of<V: Vocabulary + ReplyVocabulary>() -> TraceVocabulary {
        TraceVocabulary {
            operations: V::forms(),
            replies: V::replies(),
        }
    }
}
