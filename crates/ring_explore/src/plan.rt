//! The scripts to explore.
//!
//! Formats: The command line

ghost use Rattle.std.specs.Prelude.{◌≡◌, ◌≤◌, ◌+◌, ◌^◌, ◌<◌, IsTrue};
ghost use Rattle.ring_explore.specs.Explored.{seeds_in};

/// The scripts to explore: those of all seeds from `first` to `last`, both included.
///
/// Formats: The command line
#[derive(Clone, Copy)]
pub struct ExplorePlan<'a> {
    /// The votes of the nodes, one for each node: 1 to 16 votes, each at least 1.
    pub votes: &'a [u8],
    /// The first seed.
    pub first: u64,
    /// The last seed.
    ///
    /// If it is below the first, there are no seeds.
    pub last: u64,
    /// The number of lines of each script before its final `show`.
    ///
    /// If it is above 10,000, there are 10,000.
    pub lines: u32,
}

impl ExplorePlan<'_> {
    /// Returns the number of seeds, 0 if the last is below the first.
    ///
    /// It saturates at 2^64 - 1, so of all 2^64 seeds the last is left out.
    ///
    /// Formats: The command line
    pub fn seed_count(&self) -> u64
        ensures { result ≡ seeds_in self.now.first self.now.last }
    {
        if self.last < self.first {
            return 0;
        }
        (self.last - self.first).saturating_add(1)
    }

    /// Returns the plan for the seeds from index `from` up to, but not including, index `upto`, counted from 0.
    ///
    /// `from` must be below `upto`, and `upto` at most [`seed_count`](ExplorePlan::seed_count).
    pub(crate) fn sub_plan(&self, from: u64, upto: u64) -> ExplorePlan<'_>
        requires some { from < upto }
        requires within { upto ≤ seeds_in self.now.first self.now.last }
        ensures first { result.first ≡ self.now.first + from }
        ensures last { result.last + 1 ≡ self.now.first + upto }
        ensures votes { result.votes.now ≡ self.now.votes.now }
        ensures lines { result.lines ≡ self.now.lines }
    {
        ExplorePlan {
            votes: self.votes,
            first: self.first + from,
            last: self.first + (upto - 1),
            lines: self.lines,
        }
    }
}
