//! The clock of a node.
//!
//! Rules: A node with a clock 9

ghost use Rattle.std.specs.Prelude.{◌≡◌};

use ring_base::Kind;
use ring_timers::{Periods, StepOutcome, Timers};
use std::marker::Model;

/// The clock of a node: the periods of its timeouts and, once a time has been passed, its timers.
///
/// A step passes no time: it is noted at the latest one.
///
/// Rules: A node with a clock 9
#[derive(Debug, Drop)]
pub struct NodeClock {
    periods: Periods,
    timers: Option<Timers>,
}

impl Model for NodeClock {
    ghost use Rattle.ring_clock.specs.Clocks.{ClockView};

    ghost Value = { ClockView };

    ghost view = { λ c. record { periods = c.periods; timers = c.timers } };
}

impl NodeClock {
    ghost use Rattle.ring_clock.specs.Clocks.{clock_opening, first_due_at, clock_after_timeout, clock_after_step, next_time_of};

    /// Creates a clock with these periods, before any time has been passed.
    ///
    /// Rules: A node with a clock 9
    pub fn new(periods: Periods) -> NodeClock
        ensures { result ≡ clock_opening periods }
    {
        NodeClock {
            periods,
            timers: None,
        }
    }

    /// Restarts the first timeout that is due at time `now`, in milliseconds, and returns it, or returns `None` if none
    /// is due.
    ///
    /// The order is join, retransmit, consensus, loss. The others stay due: call it again with the same time until it
    /// returns `None`. The first time that is passed opens the timers, and no timeout is due then. An earlier time than
    /// the latest one is treated as the latest one.
    ///
    /// Rules: A node with a clock 2, 4 to 6 and 9
    pub fn next_due(&mut self, now: u64) -> Option<Kind>
        ensures due { result ≡ first_due_at self.old now }
        ensures clock { self.new ≡ clock_after_timeout self.old now result }
    {
        let mut timers = match self.timers.take() {
            Some(timers) => timers,
            None => Timers::new(self.periods, now),
        };
        let due = timers.next_due(now);
        self.timers = Some(timers);
        due
    }

    /// Notes a step of the node, at the latest time passed.
    ///
    /// If the node took a token or a commit token, retransmit, consensus and loss begin to count again. If it sent a
    /// join on any input but a join timeout, consensus and loss do. Does nothing before the first time is passed.
    ///
    /// Rules: A node with a clock 5 and 9
    pub fn note_step(&mut self, outcome: StepOutcome)
        ensures { self.new ≡ clock_after_step self.old outcome }
    {
        if let Some(timers) = &mut self.timers {
            timers.note_step(0, outcome);
        }
    }

    /// Returns the earliest time at which a timeout is due, in milliseconds, or `None` before the first time is passed.
    ///
    /// No timeout is due before it. It saturates at `u64::MAX`, and no timeout need be due then.
    ///
    /// Rules: A node with a clock 7 and 9
    pub fn next_time(&self) -> Option<u64>
        ensures { result ≡ next_time_of self.now }
    {
        let timers = self.timers.as_ref()?;
        Some(timers.next_time())
    }
}
