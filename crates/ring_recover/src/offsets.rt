//! A bit for each of 256 consecutive numbers.

ghost use Rattle.std.specs.Prelude.{◌≡◌, ◌≢◌, ℕ, ◌<◌, ◌≤◌, Bool, true, false};
ghost use Rattle.ring_window.specs.Bits.{is_set, IsFirstClear};
ghost use Rattle.ring_recover.specs.Chosen.{IsFirstSet};
ghost use Rattle.ring_base.specs.Numbers.{window_size};

use ring_base::WINDOW_SIZE;

/// The number of bits, 256: one for each number of a window.
pub(crate) const COUNT: usize = WINDOW_SIZE as usize;

/// A set of offsets from 0 to 255, stored as bits.
#[derive(Clone, Copy)]
pub(crate) struct Offsets {
    /// The bits: offset j is in the set if bit j mod 64 of word j / 64 is 1.
    pub words: [u64; 4],
}

impl Offsets {
    /// Creates the empty set.
    pub(crate) fn new() -> Offsets
        ensures { (j : ℕ) → is_set result.words j ≡ false }
    {
        Offsets { words: [0; 4] }
    }

    /// Creates the set of the offsets from 0 to 255 for which `test` returns true.
    pub(crate) fn from_test<F: Fn(usize) -> bool>(test: F) -> Offsets
        requires { F.IsAlwaysCallable test }
        ensures { (t : ℕ → Bool) → ((j : ℕ) (r : Bool) → j < window_size → F.post test j r → r ≡ t j) → (j : ℕ) → j < window_size → is_set result.words j ≡ t j }
    {
        let mut offsets = Offsets::new();
        for j in 0..COUNT {
            if test(j) {
                offsets.insert(j);
            }
        }
        offsets
    }

    /// Returns whether `offset` is in the set. It is false for 256 and above.
    pub(crate) fn contains_offset(&self, offset: usize) -> bool
        ensures { result ≡ is_set self.now.words offset }
    {
        match self.words.get(offset / 64) {
            Some(word) => (*word >> (offset % 64)) & 1 == 1,
            None => false,
        }
    }

    /// Adds `offset`, which must be below 256.
    pub(crate) fn insert(&mut self, offset: usize)
        requires { offset < window_size }
        ensures this { is_set self.new.words offset ≡ true }
        ensures others { (j : ℕ) → j ≢ offset → is_set self.new.words j ≡ is_set self.old.words j }
    {
        self.words[offset / 64] |= 1 << (offset % 64);
    }

    /// Returns the least offset that isn't in the set, or 256 if all 256 are.
    pub(crate) fn first_clear(&self) -> usize
        ensures first { IsFirstClear self.now.words 0 result }
        ensures inside { result ≤ window_size }
    {
        for j in 0..COUNT {
            if !self.contains_offset(j) {
                return j;
            }
        }
        COUNT
    }

    /// Returns the least offset of the set that is at least `from`, or 256 if there is none. `from` must be at most
    /// 256.
    pub(crate) fn first_from(&self, from: usize) -> usize
        requires { from ≤ window_size }
        ensures { IsFirstSet self.now.words from result }
    {
        for j in from..COUNT {
            if self.contains_offset(j) {
                return j;
            }
        }
        COUNT
    }
}
