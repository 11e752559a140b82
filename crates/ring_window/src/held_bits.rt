//! A bit for each of the window's 256 numbers.
//!
//! Rules: Token and window 14
//! Formats: The commit entry

ghost use Rattle.std.specs.Prelude.{◌≡◌, ◌≢◌, ℕ, ◌+◌, ◌*◌, ◌/◌, ◌%◌, ◌<◌, ◌≤◌, true, false, length, slice_index};
ghost use Rattle.ring_base.specs.Numbers.{has_bit, word_from_test};
ghost use Rattle.ring_window.specs.Bits.{is_set, IsFirstClear};
ghost use Rattle.ring_base.specs.Numbers.{window_size};

use ring_base::WINDOW_SIZE;

/// The number of bits, 256: one for each number of a window.
const BITS: usize = WINDOW_SIZE as usize;

/// 256 bits, one for each number of a window.
///
/// Bit 0 is the lowest bit of the first word. Bits from 256 on read as clear.
///
/// Rules: Token and window 14
#[derive(Clone, Copy)]
pub(crate) struct HeldBits {
    words: [u64; 4],
}

impl HeldBits {
    /// Creates 256 clear bits.
    pub(crate) fn new() -> HeldBits
        ensures { (j : ℕ) → is_set result.words j ≡ false }
    {
        HeldBits { words: [0; 4] }
    }

    /// Returns whether the bit at `offset`, counted from 0, is set. Bits from 256 on read as clear.
    pub(crate) fn is_set(&self, offset: usize) -> bool
        ensures { result ≡ is_set self.now.words offset }
    {
        (self.word(offset / 64) >> (offset % 64)) & 1 == 1
    }

    /// Sets the bit at `offset`, counted from 0, which must be below 256.
    pub(crate) fn set(&mut self, offset: usize)
        requires { offset < window_size }
        ensures this { is_set self.new.words offset ≡ true }
        ensures others { (j : ℕ) → j ≢ offset → is_set self.new.words j ≡ is_set self.old.words j }
    {
        self.words[offset / 64] |= 1 << (offset % 64);
    }

    /// Returns the offset of the first clear bit at or after `from`, or 256 if there is none below 256.
    ///
    /// `from` must be at most 256.
    pub(crate) fn first_clear(&self, from: usize) -> usize
        requires { from ≤ window_size }
        ensures { IsFirstClear self.now.words from result }
    {
        let mut offset = from;
        while offset < BITS {
            let word = self.word_from_bit(offset);
            if word != u64::MAX {
                return offset + word.trailing_ones() as usize;
            }
            offset += 64;
        }
        offset
    }

    /// Returns the bits shifted down by `first`: bit j of the result is bit `first` + j.
    ///
    /// `first` must be at most 256. The bits that are shifted in are clear.
    pub(crate) fn shifted_down(&self, first: usize) -> HeldBits
        requires { first ≤ window_size }
        ensures { (j : ℕ) → is_set result.words j ≡ is_set self.now.words (first + j) }
    {
        HeldBits {
            words: [
                self.word_from_bit(first),
                self.word_from_bit(first + 64),
                self.word_from_bit(first + 128),
                self.word_from_bit(first + 192),
            ],
        }
    }

    /// Returns the 256 bits from `first` on as bytes; the bit at `first` is the lowest bit of the first byte.
    ///
    /// `first` must be at most 256.
    ///
    /// Formats: The commit entry
    pub(crate) fn bytes_from(&self, first: usize) -> [u8; 32]
        requires { first ≤ window_size }
        ensures count { length result ≡ 32 }
        ensures bytes { (k : ℕ) → k < 32 → slice_index result k ≡ word_from_test (is_set self.now.words) (first + 8 * k) 8 }
    {
        let mut bytes = [0; 32];
        for k in 0..32 {
            bytes[k] = self.byte_from_bit(first + 8 * k);
        }
        bytes
    }

    /// Returns the 8 bits from `first` on, the first as the lowest bit. `first` must be at most 512.
    fn byte_from_bit(&self, first: usize) -> u8
        requires { first ≤ 512 }
        ensures { result ≡ word_from_test (is_set self.now.words) first 8 }
    {
        (self.word_from_bit(first) & 255) as u8
    }

    /// Returns the 64 bits from `first` on, the first as the lowest bit. `first` must be at most 512.
    ///
    /// They come from two words, or from one if `first` is a multiple of 64.
    fn word_from_bit(&self, first: usize) -> u64
        requires { first ≤ 512 }
        ensures { (j : ℕ) → j < 64 → has_bit result j ≡ is_set self.now.words (first + j) }
    {
        let index = first / 64;
        let shift = first % 64;
        let low = self.word(index) >> shift;
        if shift == 0 {
            return low;
        }
        low | (self.word(index + 1) << (64 - shift))
    }

    /// Returns the word at `index`, counted from 0, or 0 if there is none.
    fn word(&self, index: usize) -> u64
        ensures { result ≡ slice_index self.now.words index }
    {
        match self.words.get(index) {
            Some(word) => *word,
            None => 0,
        }
    }
}
