//! The words for the replies of the standard object.
//!
//! Formats: The command line

use crate::trace_vocabulary::{ReplyForm, ReplyVocabulary};
use ring_script::{Argument, ShelfVocabulary};

impl ReplyVocabulary for ShelfVocabulary {
    fn replies() -> &'static [ReplyForm] {
        use Argument::Value;
        &[
            ReplyForm {
                operation: &[0, 1],
                first: &[0],
                word: "",
                arguments: &[Value],
            },
            ReplyForm {
                operation: &[0, 2],
                first: &[0],
                word: "done",
                arguments: &[],
            },
            ReplyForm {
                operation: &[0, 3],
                first: &[0],
                word: "changed",
                arguments: &[],
            },
            ReplyForm {
                operation: &[0, 3],
                first: &[1],
                word: "unchanged",
                arguments: &[Value],
            },
            ReplyForm {
                operation: &[1, 1],
                first: &[0],
                word: "",
                arguments: &[Value],
            },
            ReplyForm {
                operation: &[1, 1],
                first: &[1],
                word: "too great",
                arguments: &[],
            },
            ReplyForm {
                operation: &[1, 2],
                first: &[0],
                word: "",
                arguments: &[Value],
            },
            ReplyForm {
                operation: &[2, 1],
                first: &[0],
                word: "done",
                arguments: &[],
            },
            ReplyForm {
                operation: &[2, 1],
                first: &[1],
                word: "full",
                arguments: &[],
            },
            ReplyForm {
                operation: &[2, 2],
                first: &[0],
                word: "",
                arguments: &[Value],
            },
            ReplyForm {
                operation: &[2, 2],
                first: &[1],
                word: "empty",
                arguments: &[],
            },
            ReplyForm {
                operation: &[2, 3],
                first: &[0],
                word: "",
                arguments: &[Value],
            },
            ReplyForm {
                operation: &[3, 1],
                first: &[0],
                word: "inserted",
                arguments: &[],
            },
            ReplyForm {
                operation: &[3, 1],
                first: &[1],
                word: "was there",
                arguments: &[],
            },
            ReplyForm {
                operation: &[3, 1],
                first: &[2],
                word: "full",
                arguments: &[],
            },
            ReplyForm {
                operation: &[3, 2],
                first: &[0],
                word: "removed",
                arguments: &[],
            },
            ReplyForm {
                operation: &[3, 2],
                first: &[1],
                word: "was not there",
                arguments: &[],
            },
            ReplyForm {
                operation: &[3, 3],
                first: &[0],
                word: "yes",
                arguments: &[],
            },
            ReplyForm {
                operation: &[3, 3],
                first: &[1],
                word: "no",
                arguments: &[],
            },
            ReplyForm {
                operation: &[],
                first: &[0xFF],
                word: "unreadable",
                arguments: &[],
            },
        ]
    }
}
