//! The timers of a node.
//!
//! Rules: A node with a clock 1 to 8

ghost use Rattle.std.specs.Prelude.{◌≡◌, ◌-◌, ◌^◌, ◌≤◌, min};

use crate::periods::Periods;
use crate::step_outcome::StepOutcome;
use ring_base::Kind;
use std::marker::Model;

/// The timers of a node: the periods, the latest time passed, and the time at which each timeout last began to count.
///
/// Times are in milliseconds. They never go back: a time before the latest one is treated as the latest one. The
/// program that drives the node repeats this:
///
/// - It calls [`next_due`](Timers::next_due) with the present time until that returns `None`, and runs a step of the
///   node on each timeout returned.
/// - It calls [`note_step`](Timers::note_step) after each step, including those on frames.
/// - It waits for frames until [`next_time`](Timers::next_time).
///
/// Rules: A node with a clock 1 to 8
#[derive(Debug, Drop)]
pub struct Timers {
    periods: Periods,
    time: u64,
    join: u64,
    retransmit: u64,
    consensus: u64,
    loss: u64,
}

impl Model for Timers {
    ghost use Rattle.std.specs.Prelude.{◌≤◌};
    ghost use Rattle.ring_timers.specs.Timers.{TimersView};

    ghost Value = { TimersView };

    ghost view = { λ t. record {
      periods = t.periods;
      time = t.time;
      join = t.join;
      retransmit = t.retransmit;
      consensus = t.consensus;
      loss = t.loss;
    } };

    ghost invariant = { λ t. (t.join ≤ t.time) × (t.retransmit ≤ t.time) × (t.consensus ≤ t.time) × (t.loss ≤ t.time) };
}

impl Timers {
    ghost use Rattle.ring_timers.specs.Timers.{timers_opened, beginning_of, due_at, is_due, first_due, next_time};
    ghost use Rattle.ring_timers.specs.TimerEvents.{timers_after, timeout_at, step_at};

    /// Creates timers with these periods that open at time `now`, in milliseconds.
    ///
    /// All four timeouts begin to count then.
    ///
    /// Rules: A node with a clock 2 and 4
    pub fn new(periods: Periods, now: u64) -> Timers
        ensures { result ≡ timers_opened periods now }
    {
        Timers {
            periods,
            time: now,
            join: now,
            retransmit: now,
            consensus: now,
            loss: now,
        }
    }

    /// Takes the first timeout that is due at time `now`, in milliseconds, or returns `None` if none is due.
    ///
    /// The order is join, retransmit, consensus, loss. The timeout begins to count again at this time, and the others
    /// stay due.
    ///
    /// Rules: A node with a clock 2, 5 and 6
    pub fn next_due(&mut self, now: u64) -> Option<Kind>
        ensures due { result ≡ first_due self.old now }
        ensures timers { self.new ≡ timers_after self.old (timeout_at now result) }
    {
        let due = self.first_due(now);
        self.time = self.time.max(now);
        match due {
            Some(Kind::Join) => self.join = self.time,
            Some(Kind::Retransmit) => self.retransmit = self.time,
            Some(Kind::Consensus) => self.consensus = self.time,
            Some(Kind::Loss) => self.loss = self.time,
            None => {}
        }
        due
    }

    /// Notes that the node ran a step at time `now`, in milliseconds, with this outcome.
    ///
    /// If the node took a token or a commit token, retransmit, consensus and loss begin to count again. If it sent a
    /// join on any input but a join timeout, consensus and loss do.
    ///
    /// Rules: A node with a clock 2 and 5
    pub fn note_step(&mut self, now: u64, outcome: StepOutcome)
        ensures { self.new ≡ timers_after self.old (step_at now outcome) }
    {
        self.time = self.time.max(now);
        let has_unprompted_join = outcome.sent_join && outcome.timeout != Some(Kind::Join);
        if outcome.took_token {
            self.retransmit = self.time;
        }
        if outcome.took_token || has_unprompted_join {
            self.consensus = self.time;
            self.loss = self.time;
        }
    }

    /// Returns the earliest time at which a timeout is due, in milliseconds.
    ///
    /// No timeout is due before it. It saturates at `u64::MAX`, and no timeout need be due then.
    ///
    /// Rules: A node with a clock 7
    pub fn next_time(&self) -> u64
        ensures { result ≡ next_time self.now }
    {
        self.due_at(Kind::Join)
            .min(self.due_at(Kind::Retransmit))
            .min(self.due_at(Kind::Consensus))
            .min(self.due_at(Kind::Loss))
    }

    /// Returns the time from which on the timeout `kind` is due, in milliseconds.
    ///
    /// It saturates at `u64::MAX`.
    ///
    /// Rules: A node with a clock 4 and 7
    pub fn due_at(&self, kind: Kind) -> u64
        ensures { result ≡ min (due_at self.now kind) (2 ^ 64 - 1) }
    {
        self.count_begin(kind)
            .saturating_add(u64::from(self.periods.period(kind)))
    }

    /// Returns whether the timeout `kind` is due at time `now`, in milliseconds.
    ///
    /// Rules: A node with a clock 2 and 4
    pub fn is_due(&self, kind: Kind, now: u64) -> bool
        ensures { result ≡ is_due self.now now kind }
    {
        self.time.max(now) - self.count_begin(kind) >= u64::from(self.periods.period(kind))
    }

    /// Returns the first timeout that is due at time `now`, in the order join, retransmit, consensus, loss.
    fn first_due(&self, now: u64) -> Option<Kind>
        ensures { result ≡ first_due self.now now }
    {
        if self.is_due(Kind::Join, now) {
            return Some(Kind::Join);
        }
        if self.is_due(Kind::Retransmit, now) {
            return Some(Kind::Retransmit);
        }
        if self.is_due(Kind::Consensus, now) {
            return Some(Kind::Consensus);
        }
        if self.is_due(Kind::Loss, now) {
            return Some(Kind::Loss);
        }
        None
    }

    /// Returns the time at which the timeout last began to count.
    fn count_begin(&self, kind: Kind) -> u64
        ensures value { result ≡ beginning_of self.now kind }
        ensures past { result ≤ self.now.time }
    {
        match kind {
            Kind::Join => self.join,
            Kind::Retransmit => self.retransmit,
            Kind::Consensus => self.consensus,
            Kind::Loss => self.loss,
        }
    }
}
