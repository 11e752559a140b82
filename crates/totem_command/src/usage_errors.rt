//! Messages for bad command lines, with the usage of the command that the words name.
//!
//! Formats: The command line

use crate::command_forms::{command_of, named_command};
use clap::error::ErrorKind;
use clap::{Command, Error};
use std::alloc::{AllocError, Global};

/// The beginning of each of the parser's messages.
const MESSAGE_PREFIX: &str = "error: ";

/// The end of each of the parser's messages that shows no usage.
const MESSAGE_SUFFIX: &str = "\n\nFor more information, try '--help'.\n";

/// Returns the parser's message for these words, with the usage of their command if the value of an option is bad.
///
/// The parser itself shows no usage for a bad value.
///
/// Formats: The command line
pub(crate) fn with_usage(alloc: Global, words: &[String], error: Error) -> Error {
    match error.kind() {
        ErrorKind::InvalidValue | ErrorKind::ValueValidation => {
            with_usage_of_command(alloc, words, &error)
        }
        _ => error,
    }
}

/// Returns the message of the error, with the usage of the command that the words name.
fn with_usage_of_command(alloc: Global, words: &[String], error: &Error) -> Error {
    match format!(in alloc; "{error}") {
        Ok(text) => usage_error(alloc, words, message_in(text.as_str())),
        Err(refused) => Error::from(refused),
    }
}

/// Returns the message in the parser's text, without its beginning and its end.
fn message_in(text: &str) -> &str {
    let text = text.strip_prefix(MESSAGE_PREFIX).unwrap_or(text);
    text.strip_suffix(MESSAGE_SUFFIX).unwrap_or(text)
}

/// Returns the parser's message for words with the fault `wrong`, with the usage of their command.
///
/// It has the kind `OutOfMemory` if an allocation fails.
///
/// Formats: The command line
pub(crate) fn usage_error(alloc: Global, words: &[String], wrong: &str) -> Error {
    match command_among(alloc, words) {
        Ok(mut command) => error_of(&mut command, wrong),
        Err(refused) => Error::from(refused),
    }
}

/// Returns the parser's message for a command line with the fault `wrong`, with the usage of the command.
fn error_of(command: &mut Command<'_>, wrong: &str) -> Error {
    match command.error(ErrorKind::ValueValidation, wrong) {
        Ok(error) => error,
        Err(refused) => Error::from(refused),
    }
}

/// Returns the parser of the command that the words name, or that of the whole program if they name none.
fn command_among<'a>(alloc: Global, words: &[String]) -> Result<Command<'a>, AllocError> {
    let named = match words.get(1) {
        Some(name) => named_command(alloc, name.as_str())?,
        None => None,
    };
    match named {
        Some(command) => Ok(command),
        None => command_of(alloc),
    }
}
