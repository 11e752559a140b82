//! The words of a script's line, and the values that a word can denote.
//!
//! Formats: Scripts

ghost use Rattle.std.specs.Prelude.{◌≡◌, ◌+◌, ◌-◌, ◌*◌, ◌^◌, ◌≤◌, ◌<◌, ◌==◌, ◌∷◌, [], IfOk, IfErr, SomeIff, take, get_or, length, position, true, false};
ghost use Rattle.std.specs.Char.{is_ascii_digit};
ghost use Rattle.std.specs.Iterator.{YieldsFirstRef};
ghost use Rattle.std.specs.List.{list_all};
ghost use Rattle.std.specs.Str.Parse.{digits_value};
ghost use Rattle.ring_script.specs.Numbers.{is, is_decimal, BeginsWith, decimal_at, number_at, node_at};
ghost use Rattle.ring_script.specs.Reading.{IsParseResult};
ghost use Rattle.ring_base.specs.declared.fault.Fault.TheVariants.{BadScript};
ghost use Rattle.ring_script.specs.Words.{pieces, pieces_left};

use ring_base::{Fault, Fixed, Proc};
use std::marker::Model;

/// The remaining words of a text: the parts between its separators.
///
/// Two separators in a row have an empty word between them. The separator isn't a digit. Contracts see the list of the
/// words.
#[derive(Drop)]
pub(crate) struct Words<'a> {
    rest: Option<&'a [u8]>,
    separator: u8,
}

impl<'a> Model for Words<'a> {
    ghost use Rattle.std.specs.Prelude.{◌≡◌, ℕ, List, false};
    ghost use Rattle.std.specs.Char.{is_ascii_digit};
    ghost use Rattle.ring_script.specs.Words.{pieces_left};

    ghost Value = { List (List ℕ) };

    ghost view = { λ words. pieces_left words.separator words.rest };

    ghost invariant = { λ words. is_ascii_digit words.separator ≡ false };
}

impl<'a> Words<'a> {
    /// Returns the words of the text: the parts between the bytes `separator`, which must not be a digit.
    ///
    /// A part may be empty: before a separator at the start, between two in a row, or after one at the end. An empty
    /// text has one word, which is empty.
    ///
    /// Formats: Scripts
    pub fn new(text: &'a [u8], separator: u8) -> Words<'a>
        requires { is_ascii_digit separator ≡ false }
        ensures { result ≡ pieces separator text.now }
    {
        Words {
            rest: Some(text),
            separator,
        }
    }

    /// Takes the next word and returns it.
    ///
    /// Returns `None` after the last word.
    ///
    /// Formats: Scripts
    pub fn next_word(&mut self) -> Option<&'a [u8]>
        ensures { YieldsFirstRef (λ words. words) self.old result self.new }
    {
        let text = self.rest?;
        match piece_end(text, self.separator) {
            Some(end) => {
                self.rest = Some(&text[end + 1..]);
                Some(&text[..end])
            }
            None => {
                self.rest = None;
                Some(text)
            }
        }
    }

    /// Takes the next word and returns the number that it denotes, or `None` for a number of 2^64 or more.
    ///
    /// Each byte is read once.
    ///
    /// Errors: `BadScript` if no word is left, or if the word isn't `0` or decimal digits without a leading zero. The
    /// remaining words are then unspecified.
    ///
    /// Formats: Scripts
    pub fn decimal(&mut self) -> Result<Option<u64>, Fault>
        ensures { IsParseResult (λ number. (number, self.new)) result (decimal_at self.old) }
    {
        let Some(text) = self.rest else {
            return Err(Fault::BadScript);
        };
        let digits = Digits::leading_digits(text);
        if !have_no_leading_zero(&text[..digits.count]) {
            return Err(Fault::BadScript);
        }
        match rest_after_separator(&text[digits.count..], self.separator) {
            Ok(rest) => {
                self.rest = rest;
                Ok(digits.value)
            }
            Err(fault) => Err(fault),
        }
    }

    /// Takes the next word and returns the number from `least` to `most`, both included, that it denotes.
    ///
    /// Errors: `BadScript` if no word is left, or if the word isn't such a number. The remaining words are then
    /// unspecified.
    ///
    /// Formats: Scripts
    pub fn number(&mut self, least: u64, most: u64) -> Result<u64, Fault>
        ensures read { IsParseResult (λ number. (number, self.new)) result (number_at least most self.old) }
        ensures within { IfOk result (λ number. (least ≤ number) × (number ≤ most)) }
    {
        match self.decimal() {
            Ok(Some(number)) if least <= number && number <= most => Ok(number),
            _ => Err(Fault::BadScript),
        }
    }

    /// Takes the next word and returns the node whose number, from 1 to the number of nodes, it denotes.
    ///
    /// Errors: `BadScript` if no word is left, or if the word isn't such a number. The remaining words are then
    /// unspecified.
    ///
    /// Formats: Scripts
    pub fn node(&mut self, nodes: Fixed) -> Result<Proc, Fault>
        ensures { IsParseResult (λ node. (node, self.new)) result (node_at nodes self.old) }
    {
        match self.number(1, u64::from(nodes.count())) {
            Ok(number) => Ok(Proc::new(number as u8)),
            Err(fault) => Err(fault),
        }
    }

    /// Returns whether all words have been taken.
    pub fn is_over(&self) -> bool
        ensures { result ≡ (length self.now == 0) }
    {
        self.rest.is_none()
    }
}

/// The digits that a text begins with: their count, and the number that they denote, `None` if it is 2^64 or more.
#[derive(Drop)]
struct Digits {
    count: usize,
    value: Option<u64>,
}

impl Digits {
    /// Returns the leading digits of this text.
    fn leading_digits(text: &[u8]) -> Digits
        ensures { BeginsWith text.now result.count result.value }
    {
        let mut count = 0;
        let mut value = 0;
        while count < text.len() && text[count].is_ascii_digit() {
            match with_digit(value, text[count]) {
                Some(more) => value = more,
                None => return Digits::leading_beyond_u64(text, count),
            }
            count += 1;
        }
        Digits {
            count,
            value: Some(value),
        }
    }

    /// Returns the leading digits of a text in which those up to the index `place` denote 2^64 or more.
    ///
    /// The digits up to and including that index must denote such a number.
    fn leading_beyond_u64(text: &[u8], place: usize) -> Digits
        requires within { place + 1 ≤ length text.now }
        requires digits { list_all is_ascii_digit (take (place + 1) text.now) ≡ true }
        requires great { 2 ^ 64 ≤ digits_value 10 (take (place + 1) text.now) }
        ensures { BeginsWith text.now result.count result.value }
    {
        let mut count = place + 1;
        while count < text.len() && text[count].is_ascii_digit() {
            count += 1;
        }
        Digits { count, value: None }
    }
}

/// Returns the number with one more digit at its end, or `None` if it is 2^64 or more.
fn with_digit(number: u64, digit: u8) -> Option<u64>
    requires { is_ascii_digit digit ≡ true }
    ensures { SomeIff result (number * 10 + (digit - 48) < 2 ^ 64) (number * 10 + (digit - 48)) }
{
    number.checked_mul(10)?.checked_add(u64::from(digit - b'0'))
}

/// Returns whether there are digits, without a leading zero except in `0` itself.
fn have_no_leading_zero(digits: &[u8]) -> bool
    requires { list_all is_ascii_digit digits.now ≡ true }
    ensures { result ≡ is_decimal digits.now }
{
    match digits.split_first() {
        Some((first, others)) => *first != b'0' || others.is_empty(),
        None => false,
    }
}

/// Returns the text after its first byte, the separator, or `None` if the text is empty.
///
/// Errors: `BadScript` if its first byte isn't the separator.
fn rest_after_separator(text: &[u8], separator: u8) -> Result<Option<&[u8]>, Fault>
    ensures left { IfOk result (λ left. pieces separator text.now ≡ [] ∷ pieces_left separator left) }
    ensures failed { IfErr result (λ fault. (fault ≡ BadScript) × (0 < length text.now) × ((get_or text.now 0 0 == separator) ≡ false)) }
{
    match text.split_first() {
        None => Ok(None),
        Some((first, others)) if *first == separator => Ok(Some(others)),
        Some(_) => Err(Fault::BadScript),
    }
}

/// Returns the index of the first separator in the text, counted from 0.
///
/// Returns `None` if there is none.
pub(crate) fn piece_end(text: &[u8], separator: u8) -> Option<usize>
    ensures { result ≡ position (λ byte. byte == separator) text.now }
{
    text.iter().position(|byte| *byte == separator)
}

/// Returns whether the word equals `name`.
#[tactic(auto, unfolding(crate::specs::Numbers::is))]
pub(crate) fn equals_word(word: &[u8], name: &[u8]) -> bool
    ensures { result ≡ is name.now word.now }
{
    word == name
}
