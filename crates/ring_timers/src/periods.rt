//! The periods of the four timeouts.
//!
//! Rules: A node with a clock 3

ghost use Rattle.std.specs.Prelude.{◌≡◌, ◌≤◌, ◌↔◌, IsSome, IfSome};

use ring_base::Kind;

/// The period of each timeout: how many milliseconds, 1 to 2^32 - 1, pass from its beginning until it is due.
///
/// Rules: A node with a clock 3
#[derive(Clone, Copy, Debug, PartialEq, Eq)]
pub struct Periods {
    pub join: u32,
    pub retransmit: u32,
    pub consensus: u32,
    pub loss: u32,
    pub ghost positive: { (1 ≤ join) × (1 ≤ retransmit) × (1 ≤ consensus) × (1 ≤ loss) },
}

/// The default periods: 10, 20, 100 and 300 milliseconds, in the order join, retransmit, consensus, loss.
///
/// Rules: A node with a clock 3
impl Default for Periods {
    ghost use Rattle.ring_timers.specs.Periods.{default_periods};

    ghost is_default = { λ periods. periods ≡ default_periods };

    fn default() -> Periods {
        Periods {
            join: 10,
            retransmit: 20,
            consensus: 100,
            loss: 300,
        }
    }
}

impl Periods {
    ghost use Rattle.ring_timers.specs.Periods.{shared_machine_periods, period_of};

    /// Returns the periods for nodes that share a machine with other programs: 50, 100, 500 and 1,000 milliseconds.
    ///
    /// They are in the order join, retransmit, consensus, loss.
    ///
    /// Rules: A node with a clock 3
    pub fn for_shared_machine() -> Periods
        ensures { result ≡ shared_machine_periods }
    {
        Periods {
            join: 50,
            retransmit: 100,
            consensus: 500,
            loss: 1000,
        }
    }

    /// Returns these periods, in milliseconds, or `None` if one of them is 0.
    ///
    /// Rules: A node with a clock 3
    pub fn new(join: u32, retransmit: u32, consensus: u32, loss: u32) -> Option<Periods>
        ensures positive { IsSome result ↔ ((1 ≤ join) × (1 ≤ retransmit) × (1 ≤ consensus) × (1 ≤ loss)) }
        ensures join { IfSome result (λ periods. periods.join ≡ join) }
        ensures retransmit { IfSome result (λ periods. periods.retransmit ≡ retransmit) }
        ensures consensus { IfSome result (λ periods. periods.consensus ≡ consensus) }
        ensures loss { IfSome result (λ periods. periods.loss ≡ loss) }
    {
        if join == 0 || retransmit == 0 || consensus == 0 || loss == 0 {
            return None;
        }
        Some(Periods {
            join,
            retransmit,
            consensus,
            loss,
        })
    }

    /// Returns the period of the timeout `kind` in milliseconds, at least 1.
    ///
    /// Rules: A node with a clock 3
    pub fn period(self, kind: Kind) -> u32
        ensures value { result ≡ period_of self kind }
        ensures positive { 1 ≤ result }
    {
        match kind {
            Kind::Join => self.join,
            Kind::Retransmit => self.retransmit,
            Kind::Consensus => self.consensus,
            Kind::Loss => self.loss,
        }
    }
}
