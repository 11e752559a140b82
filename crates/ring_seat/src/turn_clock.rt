//! The clock of a seat: when timeouts are due.
//!
//! Rules: The book and the threads 30 to 32

ghost use Rattle.std.specs.Prelude.{◌≡◌};
ghost use Rattle.ring_seat.specs.Clocks.{new_clock, clock_counted_down, due_timeout, clock_after_turn, clock_after_item};

use ring_base::Kind;

/// The number of turns after which a timeout is due: this one and the next three.
///
/// Rules: The book and the threads 30
const JOIN_TURNS: u16 = 500;

const RETRANSMIT_TURNS: u16 = 1000;

const CONSENSUS_TURNS: u16 = 8000;

const LOSS_TURNS: u16 = 32000;

/// A clock that counts a seat's turns: for each timeout, the number of turns until it is due. 0 means that it is due.
///
/// Join is due at every 500th turn. Retransmit, consensus and loss count down from 1,000, 8,000 and 32,000. Each begins
/// again when the turn runs it, and all but join begin again when a turn takes a token.
///
/// Rules: The book and the threads 30 to 32
#[derive(Clone, Copy, Debug, PartialEq, Eq)]
pub struct TurnClock {
    /// The number of turns until the join timeout is due, 1 to 500 between turns.
    pub join: u16,
    /// The number of turns until the retransmit timeout is due, 0 to 1,000.
    pub retransmit: u16,
    /// The number of turns until the consensus timeout is due, 0 to 8,000.
    pub consensus: u16,
    /// The number of turns until the loss timeout is due, 0 to 32,000.
    pub loss: u16,
}

impl TurnClock {
    /// Returns the clock of a seat before its first turn.
    ///
    /// No timeout is due.
    ///
    /// Rules: The book and the threads 30 and 31
    pub fn new() -> TurnClock
        ensures { result ≡ new_clock }
    {
        TurnClock {
            join: JOIN_TURNS,
            retransmit: RETRANSMIT_TURNS,
            consensus: CONSENSUS_TURNS,
            loss: LOSS_TURNS,
        }
    }

    /// Counts a turn that begins, and returns the timeout to run in this turn, or `None` if none is due.
    ///
    /// If several are due, it is the first in the order join, retransmit, consensus, loss. It begins to count again,
    /// and the others stay due.
    ///
    /// Rules: The book and the threads 31 and 32
    pub fn tick(&mut self) -> Option<Kind>
        ensures due { result ≡ due_timeout (clock_counted_down self.old) }
        ensures clock { self.new ≡ clock_after_turn self.old }
    {
        self.join = self.join.saturating_sub(1);
        self.retransmit = self.retransmit.saturating_sub(1);
        self.consensus = self.consensus.saturating_sub(1);
        self.loss = self.loss.saturating_sub(1);
        if self.join == 0 {
            self.join = JOIN_TURNS;
            return Some(Kind::Join);
        }
        if self.retransmit == 0 {
            self.retransmit = RETRANSMIT_TURNS;
            return Some(Kind::Retransmit);
        }
        if self.consensus == 0 {
            self.consensus = CONSENSUS_TURNS;
            return Some(Kind::Consensus);
        }
        if self.loss == 0 {
            self.loss = LOSS_TURNS;
            return Some(Kind::Loss);
        }
        None
    }

    /// Notes that the present turn took a token or a commit token: all timeouts but join begin to count again from it.
    ///
    /// Call it only if the step didn't ignore the token.
    ///
    /// Rules: The book and the threads 31
    pub fn note_taken_token(&mut self)
        ensures { self.new ≡ clock_after_item self.old }
    {
        self.retransmit = RETRANSMIT_TURNS;
        self.consensus = CONSENSUS_TURNS;
        self.loss = LOSS_TURNS;
    }
}
