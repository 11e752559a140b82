//! Encoding of decoded replies, and the replies of typed operations.
//!
//! Formats: Operations and replies

ghost use Rattle.std.specs.Prelude.{◌≡◌};
ghost use Rattle.ring_things.specs.Typed.{replied, done, done_with, not_done_with};

use crate::replies::{Outcome, ReplyParts, outcome_reply, outcome_reply_with};
use ring_object::Reply;

/// Returns the bytes of a decoded reply: the byte of the outcome, then the value in 8 bytes if there is one.
///
/// For `None`, which stands for an unreadable operation, it returns the byte `FF`.
///
/// Formats: Operations and replies
pub fn reply_of(answer: Option<ReplyParts>) -> Reply
    ensures { result ≡ replied answer }
{
    match answer {
        Some(
            ReplyParts {
                outcome,
                value: Some(value),
            },
        ) => outcome_reply_with(outcome, value),
        Some(
            ReplyParts {
                outcome,
                value: None,
            },
        ) => outcome_reply(outcome),
        None => outcome_reply(Outcome::Unreadable),
    }
}

/// Returns the decoded reply that an operation was done, without a value: the outcome is `Done`.
///
/// Formats: Operations and replies
pub fn done() -> ReplyParts
    ensures { result ≡ done }
{
    ReplyParts {
        outcome: Outcome::Done,
        value: None,
    }
}

/// Returns the decoded reply that an operation was done, with `value`: the outcome is `Done`.
///
/// Formats: Operations and replies
pub fn done_with(value: u64) -> ReplyParts
    ensures { result ≡ done_with value }
{
    ReplyParts {
        outcome: Outcome::Done,
        value: Some(value),
    }
}

/// Returns the decoded reply that the object's content didn't allow the operation, with `value`: the outcome is
/// `NotDone`.
///
/// Formats: Operations and replies
pub fn not_done_with(value: u64) -> ReplyParts
    ensures { result ≡ not_done_with value }
{
    ReplyParts {
        outcome: Outcome::NotDone,
        value: Some(value),
    }
}
