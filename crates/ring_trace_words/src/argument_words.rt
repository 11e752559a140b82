//! Arguments of operations and of replies, in words.
//!
//! Formats: The command line

use ring_script::{Argument, is_name};
use std::fmt;

/// The arguments that bytes encode, displayed as words with a space between them: keys and values in decimal, names as
/// they are.
///
/// Formats: The command line
#[derive(Clone, Copy)]
pub(crate) struct ArgumentWords<'a> {
    /// The kinds of the arguments, in order.
    pub arguments: &'a [Argument],
    /// The bytes, which must be exactly the encodings of these arguments.
    pub bytes: &'a [u8],
    /// Whether a space comes before the first argument, too.
    pub has_leading_space: bool,
}

impl fmt::Display for ArgumentWords<'_> {
    fn fmt<W: fmt::Write>(&self, f: &mut fmt::Formatter<W>) -> fmt::Result {
        let mut rest = self.bytes;
        let mut has_leading_space = self.has_leading_space;
        for argument in self.arguments {
            let length = argument_len_in(*argument, rest);
            if has_leading_space {
                f.write_str(" ")?;
            }
            let bytes = rest.get(..length).unwrap_or(&[]);
            match argument {
                Argument::Key | Argument::Value => write!(f, "{}", big_endian_value(bytes))?,
                Argument::Name => f.write_str(str::from_utf8(bytes).unwrap_or(""))?,
            }
            rest = rest.get(length..).unwrap_or(&[]);
            has_leading_space = true;
        }
        Ok(())
    }
}

/// Bytes that have no form, displayed as `raw` and two lower-case hex digits a byte.
///
/// Formats: Scripts; The command line
#[derive(Clone, Copy)]
pub(crate) struct RawWords<'a>(pub &'a [u8]);

impl fmt::Display for RawWords<'_> {
    fn fmt<W: fmt::Write>(&self, f: &mut fmt::Formatter<W>) -> fmt::Result {
        f.write_str("raw ")?;
        for byte in self.0 {
            write!(f, "{byte:02x}")?;
        }
        Ok(())
    }
}

/// Returns whether the bytes are the prefix `first` and then exactly these arguments, with no byte left over.
pub(crate) fn fits_prefix_and_arguments(
    first: &[u8],
    arguments: &[Argument],
    bytes: &[u8],
) -> bool {
    bytes.starts_with(first) && are_arguments(arguments, bytes.get(first.len()..).unwrap_or(&[]))
}

/// Returns whether the bytes are exactly these arguments.
fn are_arguments(arguments: &[Argument], bytes: &[u8]) -> bool {
    let mut rest = bytes;
    for argument in arguments {
        let length = argument_len_in(*argument, rest);
        if rest.len() < length || (*argument == Argument::Name && !is_name(rest)) {
            return false;
        }
        rest = rest.get(length..).unwrap_or(&[]);
    }
    rest.is_empty()
}

/// Returns the length of the argument that these bytes begin with.
///
/// A name takes all of them.
fn argument_len_in(argument: Argument, bytes: &[u8]) -> usize {
    match argument {
        Argument::Key => 1,
        Argument::Value => 8,
        Argument::Name => bytes.len(),
    }
}

/// Returns the number that eight bytes or fewer encode, big-endian.
fn big_endian_value(bytes: &[u8]) -> u64 {
    let mut value = 0u64;
    for byte in bytes {
        value = value << 8 | u64::from(*byte);
    }
    value
}
