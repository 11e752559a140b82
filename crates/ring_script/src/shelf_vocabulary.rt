//! The vocabulary of the standard object.
//!
//! Formats: Scripts

use crate::vocabulary::{Argument, OperationForm, Vocabulary};

/// The words of the operations of the standard object: a shelf with registers, counters, a queue and names, in this
/// order.
///
/// Formats: Scripts; Operations and replies
#[derive(Clone, Copy)]
pub struct ShelfVocabulary;

impl Vocabulary for ShelfVocabulary {
    ghost use Rattle.ring_script.specs.ShelfVocabulary.{shelf_operation_forms};
    ghost use Rattle.ring_script.specs.ShelfWordsLaws.{shelf_short};

    ghost forms = { shelf_operation_forms };

    ghost short = { shelf_short };

    #[tactic(auto, unfolding(crate::specs::ShelfVocabulary::shelf_operation_forms))]
    fn forms() -> &'static [OperationForm] {
        use Argument::{Key, Name, Value};
        // `add` is listed twice, so a generated script has it twice as often.
        &[
            OperationForm {
                word: "get",
                first: &[0, 1],
                arguments: &[Key],
            },
            OperationForm {
                word: "put",
                first: &[0, 2],
                arguments: &[Key, Value],
            },
            OperationForm {
                word: "cas",
                first: &[0, 3],
                arguments: &[Key, Value, Value],
            },
            OperationForm {
                word: "add",
                first: &[1, 1],
                arguments: &[Key, Value],
            },
            OperationForm {
                word: "add",
                first: &[1, 1],
                arguments: &[Key, Value],
            },
            OperationForm {
                word: "read",
                first: &[1, 2],
                arguments: &[Key],
            },
            OperationForm {
                word: "push",
                first: &[2, 1],
                arguments: &[Value],
            },
            OperationForm {
                word: "pop",
                first: &[2, 2],
                arguments: &[],
            },
            OperationForm {
                word: "length",
                first: &[2, 3],
                arguments: &[],
            },
            OperationForm {
                word: "insert",
                first: &[3, 1],
                arguments: &[Name],
            },
            OperationForm {
                word: "remove",
                first: &[3, 2],
                arguments: &[Name],
            },
            OperationForm {
                word: "has",
                first: &[3, 3],
                arguments: &[Name],
            },
        ]
    }
}
