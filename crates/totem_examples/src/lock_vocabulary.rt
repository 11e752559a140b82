//! The words for a lock table's operations in scripts, and for its replies in traces.

use totem_ring::{Argument, OperationForm, ReplyForm, ReplyVocabulary, Vocabulary};

/// The words of a lock table: the operations `acquire LOCK HOLDER`, `release LOCK HOLDER` and `holder LOCK`, and the
/// replies `done` and `held by HOLDER`.
#[derive(Clone, Copy)]
pub struct LockVocabulary;

impl Vocabulary for LockVocabulary {
    ghost use Rattle.std.proofs.Common.{refl};
    ghost use Rattle.totem_examples.specs.LockVocabulary.{lock_forms};

    ghost forms = { lock_forms };

    ghost short = { refl };

    fn forms() -> &'static [OperationForm] {
        use Argument::{Key, Value};
        &[
            OperationForm {
                word: "acquire",
                first: &[1],
                arguments: &[Key, Value],
            },
            OperationForm {
                word: "release",
                first: &[2],
                arguments: &[Key, Value],
            },
            OperationForm {
                word: "holder",
                first: &[3],
                arguments: &[Key],
            },
        ]
    }
}

impl ReplyVocabulary for LockVocabulary {
    fn replies() -> &'static [ReplyForm] {
        use Argument::Value;
        &[
            ReplyForm {
                operation: &[],
                first: &[0],
                word: "done",
                arguments: &[],
            },
            ReplyForm {
                operation: &[3],
                first: &[0],
                word: "held by",
                arguments: &[Value],
            },
            ReplyForm {
                operation: &[],
                first: &[1],
                word: "held by",
                arguments: &[Value],
            },
        ]
    }
}
