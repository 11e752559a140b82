//! The totals over many seeds.
//!
//! Formats: The command line

ghost use Rattle.std.specs.Prelude.{◌≡◌, ◌+◌, ◌-◌, ◌^◌, min, None};
ghost use Rattle.std.specs.Option.{option_or};

/// The totals over the runs of some seeds.
///
/// Each count saturates at 2^64 - 1.
///
/// Formats: The command line
#[derive(Clone, Copy, Debug, PartialEq, Eq)]
pub(crate) struct ExploreTotals {
    /// The number of events that were run.
    ///
    /// As in a sweep, each turn of a pump that delivers a copy is one event.
    pub events: u64,
    /// The number of lines `call`: repeated calls are counted again.
    pub calls: u64,
    /// The number of answers to these calls at all nodes, refusals by the sessions included.
    pub answered: u64,
    /// The number of installed rings.
    ///
    /// In each run a ring is counted once, even if several nodes install it.
    pub rings: u64,
    /// The first seed whose run isn't legal, or `None` if all runs are legal.
    pub illegal: Option<u64>,
}

impl ExploreTotals {
    /// Returns the totals over no seeds: all counts are 0, and no run is illegal.
    pub fn new() -> ExploreTotals
        ensures illegal { result.illegal ≡ None }
        ensures totals { (result.events ≡ 0) × (result.calls ≡ 0) × (result.answered ≡ 0) × (result.rings ≡ 0) }
    {
        ExploreTotals {
            events: 0,
            calls: 0,
            answered: 0,
            rings: 0,
            illegal: None,
        }
    }

    /// Adds the totals over seeds that come after all seeds so far.
    ///
    /// Each count grows by that of `other`, and saturates at 2^64 - 1. The first illegal seed is kept, if there is one;
    /// otherwise that of `other` is taken over.
    ///
    /// Formats: The command line
    pub fn add(&mut self, other: &ExploreTotals)
        ensures illegal { self.new.illegal ≡ option_or self.old.illegal other.now.illegal }
        ensures events { self.new.events ≡ min (self.old.events + other.now.events) (2 ^ 64 - 1) }
        ensures calls { self.new.calls ≡ min (self.old.calls + other.now.calls) (2 ^ 64 - 1) }
        ensures answered { self.new.answered ≡ min (self.old.answered + other.now.answered) (2 ^ 64 - 1) }
        ensures rings { self.new.rings ≡ min (self.old.rings + other.now.rings) (2 ^ 64 - 1) }
    {
        self.events = self.events.saturating_add(other.events);
        self.calls = self.calls.saturating_add(other.calls);
        self.answered = self.answered.saturating_add(other.answered);
        self.rings = self.rings.saturating_add(other.rings);
        self.illegal = self.illegal.or(other.illegal);
    }
}
