//! The seats of a host, which are threads' handles for taking turns, publishing and looking.
//!
//! Rules: The book and the threads 19, 30 to 34

ghost use Rattle.std.specs.Prelude.{◌≡◌, ◌≤◌, IfSome};
ghost use Rattle.ring_seat.specs.Seats.{IsSeated};
ghost use Rattle.ring_seat.specs.Clocks.{new_clock, clock_counted_down, due_timeout, clock_after_turn, clock_after_item};

use crate::gauge_rule::GaugeView;
use crate::outbox::Outbox;
use crate::turn_clock::TurnClock;
use atomic_table::Seat as TableSeat;
use ring_base::{Kind, Proc};
use std::alloc::{Allocator, Global};
use std::marker::Model;
use std::mem;

/// A thread's handle on a host: a node's own seat, or a seat of no node.
///
/// It has a clock, an outbox, and what the thread needs to publish and look. Contracts see its gauge, its node, the
/// lengths published on it, the words that it saw, and its clock.
///
/// Rules: The book and the threads 19
#[derive(Drop)]
pub struct Seat<A: Allocator + Copy + Drop = Global> {
    /// The node whose own seat it is, or `None` for a seat of no node.
    pub(crate) node: Option<Proc>,
    clock: TurnClock,
    /// The seat's handle on the gauge's words.
    pub(crate) seat: TableSeat<u8, GaugeView>,
    outbox: Outbox<A>,
}

impl<A: Allocator + Copy + Drop> Model for Seat<A> {
    ghost use Rattle.ring_seat.specs.Seats.{SeatView, IsSeated};

    ghost Value = { SeatView };

    ghost view = { λ s. record {
      gauge = s.seat.table_id;
      node = s.node;
      published = s.seat.me.0.published;
      seen = s.seat.me.0.loaded_words;
      clock = s.clock;
    } };

    ghost invariant = { λ s. IsSeated s.node s.seat };
}

impl<A: Allocator + Copy + Drop> Seat<A> {
    /// Creates the own seat of `node`, or a seat of no node for `None`, with a new clock and an empty outbox.
    ///
    /// Does not allocate.
    ///
    /// Rules: The book and the threads 19
    pub(crate) fn new(alloc: A, node: Option<Proc>, seat: TableSeat<u8, GaugeView>) -> Seat<A>
        requires { IsSeated node seat }
        ensures { result ≡ record { gauge = seat.table_id; node = node; published = seat.me.0.published; seen = seat.me.0.loaded_words; clock = new_clock } }
    {
        Seat {
            node,
            clock: TurnClock::new(),
            seat,
            outbox: Outbox::new(alloc),
        }
    }

    /// Returns the node whose own seat it is, one of the gauge's nodes, or `None` for a seat of no node.
    ///
    /// Does not allocate.
    ///
    /// Rules: The book and the threads 19
    pub fn node(&self) -> Option<Proc>
        ensures node { result ≡ self.now.node }
        ensures within { IfSome result (λ node. (1 ≤ node) × (node ≤ self.now.gauge.words)) }
    {
        self.node
    }

    /// Returns a copy of the seat's clock.
    ///
    /// Does not allocate.
    ///
    /// Rules: The book and the threads 30 to 32
    pub fn clock(&self) -> TurnClock
        ensures { result ≡ self.now.clock }
    {
        self.clock
    }

    /// Counts a turn that begins, and returns the timeout to run in this turn, or `None` if none is due.
    ///
    /// If several are due, it is the first in the order join, retransmit, consensus, loss. It begins to count again,
    /// and the others stay due. Call it once for each turn. Does not allocate.
    ///
    /// Rules: The book and the threads 31 and 32
    pub fn tick(&mut self) -> Option<Kind>
        ensures due { result ≡ due_timeout (clock_counted_down self.old.clock) }
        ensures seat { self.new ≡ record (self.old) { clock = clock_after_turn self.old.clock } }
    {
        self.clock.tick()
    }

    /// Notes that the present turn took a token or a commit token: all timeouts but join begin to count again from it.
    ///
    /// Call it only if the step didn't ignore the token. Does not allocate.
    ///
    /// Rules: The book and the threads 31
    pub fn take(&mut self)
        ensures { self.new ≡ record (self.old) { clock = clock_after_item self.old.clock } }
    {
        self.clock.note_taken_token();
    }

    /// Removes and returns the outbox, with its frames and its capacity, and leaves an empty one in the seat.
    ///
    /// [`put_outbox`](Seat::put_outbox) puts it back, so that its capacity is used again. Does not allocate.
    ///
    /// Rules: The book and the threads 21
    pub fn take_outbox(&mut self) -> Outbox<A>
        ensures { self.new ≡ self.old }
    {
        let none = Outbox::new(self.outbox.alloc);
        mem::replace(&mut self.outbox, none)
    }

    /// Puts an outbox into the seat, as it is.
    ///
    /// The one there is dropped. Does not allocate.
    ///
    /// Rules: The book and the threads 21
    pub fn put_outbox(&mut self, outbox: Outbox<A>)
        ensures { self.new ≡ self.old }
    {
        self.outbox = outbox;
    }
}
