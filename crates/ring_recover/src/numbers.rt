//! Sets of message numbers of a window, stored as bits.
//!
//! Rules: Recovery 8

ghost use Rattle.std.specs.Prelude.{◌≡◌, ℕ, ◌+◌, ◌-◌, ◌^◌, ◌<◌, ◌≤◌, true};
ghost use Rattle.std.specs.Iterator.{YieldsFirst, item_count};
ghost use Rattle.ring_window.specs.Bits.{is_set};
ghost use Rattle.ring_recover.specs.Chosen.{numbers_of_bits, AreWords};

use crate::offsets::{COUNT, Offsets};
use std::marker::Model;

/// A set of message numbers, all among the 256 after some number.
///
/// Contracts see it as an ascending list.
///
/// Rules: Recovery 8
#[derive(Drop)]
pub struct NumberSet {
    after: u64,
    offsets: Offsets,
}

impl Model for NumberSet {
    ghost use Rattle.std.specs.Prelude.{ℕ, List};
    ghost use Rattle.ring_recover.specs.Chosen.{numbers_of_bits, AreWords};

    ghost Value = { List ℕ };

    ghost view = { λ n. numbers_of_bits n.after n.offsets.words };

    ghost invariant = { λ n. AreWords n.after n.offsets.words };
}

impl NumberSet {
    /// Creates the set of the numbers `after` + 1 + j, for each j of `offsets`. Each must fit a `u64`.
    pub(crate) fn new(after: u64, offsets: Offsets) -> NumberSet
        requires { AreWords after offsets.words }
        ensures { result ≡ numbers_of_bits after offsets.words }
    {
        NumberSet { after, offsets }
    }

    /// Returns an iterator over the numbers of the set, in ascending order, each once.
    ///
    /// Rules: Recovery 8
    pub fn iter(&self) -> NumberIterator
        ensures { result ≡ self.now }
    {
        NumberIterator {
            after: self.after,
            offsets: self.offsets,
            offset: 0,
        }
    }
}

/// An iterator over a [`NumberSet`], in ascending order.
///
/// Contracts see the list of the numbers not yet yielded.
///
/// Rules: Recovery 8
#[derive(Drop)]
pub struct NumberIterator {
    after: u64,
    offsets: Offsets,
    offset: usize,
}

impl Model for NumberIterator {
    ghost use Rattle.std.specs.Prelude.{ℕ, List, ◌≤◌};
    ghost use Rattle.ring_base.specs.Numbers.{window_size};
    ghost use Rattle.ring_recover.specs.Chosen.{chosen_from, AreWords};

    ghost Value = { List ℕ };

    ghost view = { λ n. chosen_from n.after n.offsets.words n.offset };

    ghost invariant = { λ n. (n.offset ≤ window_size) × AreWords n.after n.offsets.words };
}

impl Iterator for NumberIterator {
    type Item = u64;

    ghost next_gives = { YieldsFirst (λ numbers. numbers) };

    ghost remaining = { item_count (λ numbers. numbers) };

    fn next(&mut self) -> Option<u64> {
        let found = self.offsets.first_from(self.offset);
        if found == COUNT {
            self.offset = COUNT;
            return None;
        }
        self.offset = found + 1;
        Some(self.after + 1 + found as u64)
    }
}
