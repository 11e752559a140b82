//! Random draws from a seed.
//!
//! Formats: The command line

ghost use Rattle.std.specs.Prelude.{◌≤◌, ◌<◌};

use rand::RngExt;
use rand_core::SeedableRng;
use rand_pcg::Pcg32;
use ring_base::{Proc, ProcSet};

/// A sequence of draws from the generator PCG32 (XSH RR 64/32), fixed by its seed: the same on every machine.
///
/// Formats: The command line
#[derive(Drop)]
pub(crate) struct RandomDraws {
    rng: Pcg32,
}

impl RandomDraws {
    /// Creates the sequence for `seed`, at its first draw.
    ///
    /// The same seed gives the same draws. Does not allocate.
    pub fn new(seed: u64) -> RandomDraws {
        RandomDraws {
            rng: Pcg32::seed_from_u64(seed),
        }
    }

    /// Draws a number from 0 up to, but not including, `many`, which must be at least 1.
    ///
    /// All results are about equally likely.
    pub fn draw_below(&mut self, many: u32) -> u32
        requires { 1 ≤ many }
        ensures { result < many }
    {
        self.rng.random_range(0..many)
    }

    /// Draws a number from `least` to `most`, both included.
    ///
    /// `least` must be at most `most`. All results are about equally likely.
    pub fn draw_between(&mut self, least: u32, most: u32) -> u32
        requires { least ≤ most }
        ensures least { least ≤ result }
        ensures most { result ≤ most }
    {
        self.rng.random_range(least..=most)
    }

    /// Draws true with a probability of this percentage: never at 0, always from 100 on.
    pub fn draw_bool(&mut self, percent: u32) -> bool {
        self.draw_below(100) < percent
    }

    /// Draws a member of the set.
    ///
    /// All members are about equally likely. If the set is empty, returns `None` and draws nothing.
    pub fn draw_member(&mut self, set: ProcSet) -> Option<Proc> {
        let many = set.len();
        if many == 0 {
            return None;
        }
        set.at(self.draw_below(many))
    }
}
