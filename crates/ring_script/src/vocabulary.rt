//! Vocabularies: the words by which scripts call the operations of an object.
//!
//! Formats: Scripts

ghost use Rattle.std.specs.List.{find};
ghost use Rattle.std.specs.Prelude.{◌≡◌, option_map};
ghost use Rattle.ring_script.specs.Numbers.{is};
ghost use Rattle.ring_script.specs.Operations.{form_view, form_of};

use crate::words::equals_word;

/// The kind of an operation's argument, which fixes its encoding.
///
/// Formats: Scripts
#[derive(Clone, Copy, Debug, PartialEq, Eq)]
pub enum Argument {
    /// A number from 0 to 255, encoded in one byte.
    Key,
    /// Any number below 2^64, encoded in eight bytes, big-endian.
    Value,
    /// A name of 1 to 64 bytes from `!` to `~`, encoded as these bytes, without a length.
    Name,
}

/// The form of an operation: in a script, a word and its arguments; in bytes, a prefix and the encoded arguments.
///
/// Formats: Scripts
#[derive(Clone, Copy)]
pub struct OperationForm {
    /// The word of the operation in scripts.
    ///
    /// It isn't `raw`, which introduces an operation of any object by its bytes.
    pub word: &'static str,
    /// The bytes that the operation begins with.
    ///
    /// The encoded arguments follow them.
    pub first: &'static [u8],
    /// The kinds of its arguments, in the order in which a script gives them.
    pub arguments: &'static [Argument],
}

/// The words of an object's operations.
///
/// Scripts may use all of them, and generated scripts use some.
///
/// A program implements it for a user-defined object. Scripts for that object are then parsed and generated with these
/// words.
///
/// Formats: Scripts
pub trait Vocabulary {
    ghost use Rattle.std.specs.Prelude.{◌≡◌, List, map, true};
    ghost use Rattle.ring_script.specs.Operations.{OperationForm, form_view, are_short};

    /// The forms of the operations.
    ghost forms: { List OperationForm };

    /// No operation has more than 1,024 bytes: those of its prefix, and at most 64 for each argument.
    ghost short: { are_short forms ≡ true };

    /// Returns the forms of the operations.
    ///
    /// A word belongs to the first form that has it. Generated scripts draw from the list, so they have a form that is
    /// listed twice about twice as often.
    fn forms() -> &'static [OperationForm]
        ensures { map form_view result.now ≡ forms };
}

/// The vocabulary without words.
///
/// A script for an object with this vocabulary gives each operation by its bytes, after `raw`.
///
/// Formats: Scripts
#[derive(Clone, Copy)]
pub struct EmptyVocabulary;

impl Vocabulary for EmptyVocabulary {
    ghost use Rattle.std.proofs.Common.{refl, []};

    ghost forms = { [] };

    ghost short = { refl };

    fn forms() -> &'static [OperationForm] {
        &[]
    }
}

/// Returns the first form of the vocabulary `V` with the word `word`.
///
/// Returns `None` if there is none.
pub(crate) fn vocabulary_form<V: Vocabulary>(word: &[u8]) -> Option<OperationForm>
    ensures { option_map form_view result ≡ form_of V.forms word.now }
{
    first_form_with_word(V::forms(), word)
}

/// Returns the first of `forms` with the word `word`, or `None` if there is none.
fn first_form_with_word(forms: &'static [OperationForm], word: &[u8]) -> Option<OperationForm>
    ensures { result ≡ find (λ form. is form.word.now word.now) forms.now }
{
    for form in forms {
        if equals_word(word, form.word.as_bytes()) {
            return Some(*form);
        }
    }
    None
}
