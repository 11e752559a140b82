//! The operations of calls: by an object's vocabulary, or by their bytes.
//!
//! Formats: Scripts

ghost use Rattle.std.specs.Prelude.{◌≡◌, ◌++◌, OnOk, IfErr};
ghost use Rattle.std.specs.Char.{is_ascii_graphic};
ghost use Rattle.std.specs.List.{list_all};
ghost use Rattle.ring_base.specs.declared.fault.Fault.TheVariants.{Memory};
ghost use Rattle.ring_script.specs.Operations.{is_name, named_at, raw_at, operation_at, argument_after, arguments_after};
ghost use Rattle.ring_script.specs.Reading.{IsParseResultOrMemory};

use crate::hex_word::decode_hex_word;
use crate::vocabulary::{Argument, Vocabulary, vocabulary_form};
use crate::words::{Words, equals_word};
use ring_base::Fault;
use ring_payload::MAX_OPERATION;
use std::alloc::Allocator;

/// The maximum length in bytes of a name that a script gives as an argument: 64.
///
/// Formats: Scripts
pub const MAX_NAME_BYTES: usize = 64;

/// Takes the words of an operation, and replaces the contents of `bytes` by its encoding.
///
/// The words are `raw` and hex, or a word of the vocabulary and its arguments.
///
/// Words after the operation are not taken.
///
/// Errors: `BadScript` if no operation begins with these words; `Memory` if an allocation fails. `bytes` and the
/// remaining words are then unspecified.
///
/// Formats: Scripts
#[tactic(auto, unfolding(crate::specs::Operations::operation_at))]
pub(crate) fn encode_operation<V: Vocabulary, A: Allocator + Copy>(
    alloc: A,
    words: &mut Words<'_>,
    bytes: &mut Vec<u8, A>,
) -> Result<(), Fault>
    ensures { IsParseResultOrMemory (λ _. (bytes.new.items, words.new)) result (operation_at V.forms words.old) }
{
    let Some(word) = words.next_word() else {
        return Err(Fault::BadScript);
    };
    if equals_word(word, b"raw") {
        encode_raw(alloc, words, bytes)
    } else {
        encode_named::<V, A>(word, words, bytes)
    }
}

/// Replaces the contents of `bytes` by the bytes that the next word encodes in hex.
///
/// Errors: `BadScript` if it isn't hex of 1 to 1,024 bytes; `Memory` if an allocation fails.
#[tactic(auto, unfolding(crate::specs::Operations::raw_at))]
fn encode_raw<A: Allocator + Copy>(
    alloc: A,
    words: &mut Words<'_>,
    bytes: &mut Vec<u8, A>,
) -> Result<(), Fault>
    ensures { IsParseResultOrMemory (λ _. (bytes.new.items, words.new)) result (raw_at words.old) }
{
    let Some(word) = words.next_word() else {
        return Err(Fault::BadScript);
    };
    match decode_hex_word(alloc, word, MAX_OPERATION) {
        Ok(encoded) => {
            *bytes = encoded;
            Ok(())
        }
        Err(fault) => Err(fault),
    }
}

/// Replaces the contents of `bytes` by the encoding of the operation `name`, with the next words as its arguments.
///
/// Errors: `BadScript` if no operation has this name, or the words aren't its arguments; `Memory` if an allocation
/// fails.
#[tactic(auto, unfolding(crate::specs::Operations::named_at))]
fn encode_named<V: Vocabulary, A: Allocator + Copy>(
    name: &[u8],
    words: &mut Words<'_>,
    bytes: &mut Vec<u8, A>,
) -> Result<(), Fault>
    ensures { IsParseResultOrMemory (λ _. (bytes.new.items, words.new)) result (named_at V.forms name.now words.old) }
{
    let Some(form) = vocabulary_form::<V>(name) else {
        return Err(Fault::BadScript);
    };
    replace_with_prefix(bytes, form.first)?;
    encode_arguments(form.arguments, words, bytes)
}

/// Replaces the contents of `bytes` by the few bytes of `first`, one at a time, which costs less than a copy.
///
/// Errors: `Memory` if an allocation fails.
fn replace_with_prefix<A: Allocator + Copy>(
    bytes: &mut Vec<u8, A>,
    first: &[u8],
) -> Result<(), Fault>
    ensures bytes { OnOk result (bytes.new.items ≡ first.now) }
    ensures refused { IfErr result (λ fault. fault ≡ Memory) }
{
    bytes.clear();
    for byte in first {
        if bytes.push(*byte).is_err() {
            return Err(Fault::Memory);
        }
    }
    Ok(())
}

/// Takes a word for each argument, and appends their encodings to `bytes`.
///
/// Errors: `BadScript` if a word isn't such an argument; `Memory` if an allocation fails.
fn encode_arguments<A: Allocator + Copy>(
    arguments: &[Argument],
    words: &mut Words<'_>,
    bytes: &mut Vec<u8, A>,
) -> Result<(), Fault>
    ensures { IsParseResultOrMemory (λ _. (bytes.new.items, words.new)) result
        (arguments_after bytes.old.items arguments.now words.old) }
{
    for argument in arguments {
        encode_argument(*argument, words, bytes)?;
    }
    Ok(())
}

/// Takes the next word, and appends the encoding of the argument that it denotes.
///
/// Errors: `BadScript` if it isn't such an argument; `Memory` if an allocation fails.
#[tactic(auto, unfolding(crate::specs::Operations::argument_at))]
fn encode_argument<A: Allocator + Copy>(
    argument: Argument,
    words: &mut Words<'_>,
    bytes: &mut Vec<u8, A>,
) -> Result<(), Fault>
    ensures { IsParseResultOrMemory (λ _. (bytes.new.items, words.new)) result
        (argument_after bytes.old.items argument words.old) }
{
    match argument {
        Argument::Key => match words.number(0, 255) {
            Ok(key) => match bytes.push(key as u8) {
                Ok(()) => Ok(()),
                Err(_) => Err(Fault::Memory),
            },
            Err(fault) => Err(fault),
        },
        Argument::Value => match words.number(0, u64::MAX) {
            Ok(value) => append(bytes, &value.to_be_bytes()),
            Err(fault) => Err(fault),
        },
        Argument::Name => match words.next_word() {
            Some(name) if is_name(name) => append(bytes, name),
            _ => Err(Fault::BadScript),
        },
    }
}

fn append<A: Allocator + Copy>(bytes: &mut Vec<u8, A>, more: &[u8]) -> Result<(), Fault>
    ensures bytes { OnOk result (bytes.new.items ≡ bytes.old.items ++ more.now) }
    ensures refused { IfErr result (λ fault. fault ≡ Memory) }
{
    match bytes.extend_from_slice(more) {
        Ok(()) => Ok(()),
        Err(_) => Err(Fault::Memory),
    }
}

/// Returns whether the word is a valid name: 1 to 64 bytes, each from `!` to `~` (`21` to `7E`).
///
/// Formats: Scripts
pub fn is_name(word: &[u8]) -> bool
    ensures { result ≡ is_name word.now }
{
    !word.is_empty() && word.len() <= MAX_NAME_BYTES && are_graphic(word)
}

fn are_graphic(word: &[u8]) -> bool
    ensures { result ≡ list_all is_ascii_graphic word.now }
{
    word.iter().all(|byte| byte.is_ascii_graphic())
}
