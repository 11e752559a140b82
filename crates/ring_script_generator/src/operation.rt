//! The operations that clients call.
//!
//! Formats: The command line

use crate::draws::RandomDraws;
use ring_base::Fault;
use ring_script::{Argument, OperationForm};
use std::alloc::Allocator;
use std::fmt::Write;

/// An operation that a client calls: the index of its form in a vocabulary, and its arguments.
///
/// If the vocabulary has no form of that index, the operation is the single byte 0.
///
/// Formats: The command line
#[derive(Clone, Copy)]
pub(crate) struct Operation {
    /// The index of its form.
    form_index: u32,
    /// The key, or the number of a name.
    key: u32,
    /// Its first, third, .. value.
    value: u32,
    /// Its second, fourth, .. value.
    other: u32,
}

/// The number of keys and of names to draw from.
///
/// It is small, so clients share them.
const KEYS: u32 = 3;

/// Values are drawn below this number.
const VALUES: u32 = 10;

impl Operation {
    /// Returns the operation by the first form of a vocabulary, with all arguments 0.
    pub fn first() -> Operation {
        Operation {
            form_index: 0,
            key: 0,
            value: 0,
            other: 0,
        }
    }

    /// Draws an operation by one of the first `forms` forms, with a key from 0 to 2 and values from 0 to 9. 0 forms are
    /// treated as 1.
    ///
    /// Formats: The command line
    pub fn draw(forms: usize, draws: &mut RandomDraws) -> Operation {
        let key = draws.draw_below(KEYS);
        let (value, other) = (draws.draw_below(VALUES), draws.draw_below(VALUES));
        let many = u32::try_from(forms).unwrap_or(u32::MAX).max(1);
        let form_index = draws.draw_below(many);
        Operation {
            form_index,
            key,
            value,
            other,
        }
    }

    /// Appends the operation's words, by these forms, as a line `call` has them.
    ///
    /// If no form has its index, the words are `raw 00`.
    ///
    /// Errors: `Memory` if an allocation fails. A part of the words may then be appended.
    ///
    /// Formats: Scripts
    pub fn write<A: Allocator>(
        self,
        forms: &[OperationForm],
        text: &mut String<A>,
    ) -> Result<(), Fault> {
        let Some(form) = forms.get(self.form_index as usize) else {
            return Ok(text.push_str("raw 00")?);
        };
        text.push_str(form.word)?;
        let mut is_other = false;
        for argument in form.arguments {
            self.write_argument(*argument, is_other, text)?;
            is_other = is_other != (*argument == Argument::Value);
        }
        Ok(())
    }

    /// Appends a space and an argument.
    ///
    /// A value is `other` if `is_other`, otherwise `value`.
    fn write_argument<A: Allocator>(
        self,
        argument: Argument,
        is_other: bool,
        text: &mut String<A>,
    ) -> Result<(), Fault> {
        let number = match argument {
            Argument::Key => self.key,
            Argument::Value if is_other => self.other,
            Argument::Value => self.value,
            Argument::Name => return Ok(write!(text, " {}", name_of(self.key))?),
        };
        Ok(write!(text, " {number}")?)
    }
}

/// Returns the name for the key `key`.
fn name_of(key: u32) -> &'static str {
    match key {
        0 => "ada",
        1 => "bob",
        _ => "cyd",
    }
}
