//! The node threads of a host.
//!
//! Rules: The book and the threads 27 and 28

ghost use Rattle.std.specs.Prelude.{◌≡◌, All, IfErr};
ghost use Rattle.ring_base.specs.declared.fault.Fault.TheVariants.{Memory};
ghost use Rattle.ring_seat.specs.Seats.{IsAt, IsOwn};

use crate::gate::Gate;
use crate::host::HostOf;
use ring_base::Fault;
use ring_book::{Book, BookName, Cell};
use ring_object::Object;
use ring_seat::Seat;
use std::sync::Wait;
use std::sync::atomic::{AtomicBool, Ordering};
use std::thread;
use std::thread::Threads;

impl<O: Object, K: BookName<O::Alloc>> HostOf<Cell<O, K>, Book<O, K>, O::Alloc> {
    /// Runs the turns of the seat's node, if the seat is a node's own.
    fn run_seat<W: Wait, G: Gate>(&self, rt: &W, seat: &mut Seat<O::Alloc>, gate: &G)
        requires { IsAt self.now.gauge seat.old }
    {
        let Some(_node) = seat.node() else {
            return;
        };
        self.run_node(rt, seat, gate);
    }

    /// Runs a node's turns until the host is closed, the node has stopped or the book is full.
    ///
    /// In the last two cases all rests end.
    fn run_node<W: Wait, G: Gate>(&self, rt: &W, seat: &mut Seat<O::Alloc>, gate: &G)
        requires { IsOwn self.now.gauge seat.old }
    {
        for _ in rt.forever() {
            if self.closed.is_set() {
                return;
            }
            match self.gated_turn(rt, seat, gate) {
                Err(Fault::Stopped | Fault::BookFull) => {
                    // The others do not rest on: they count turns until they give this node up.
                    self.event_count.notify_all();
                    return;
                }
                _ => {}
            }
        }
    }
}

impl<O: Object + Send, K: BookName<O::Alloc> + Send + Sync> HostOf<Cell<O, K>, Book<O, K>, O::Alloc>
where
    O::Alloc: Send + Sync,
{
    /// Runs the nodes of these seats, each on its own thread, one turn after the other, and returns when all threads
    /// have ended.
    ///
    /// The seats must be this host's. A seat of no node takes no turn. The threads report their turns to the gate. A
    /// thread ends without a report once the host is closed, its node has stopped or the book is full; each of these
    /// ends all rests. After `Stranger` and `Memory` it goes on with its next turn. If the host is already closed, no
    /// turn is taken.
    ///
    /// A book has 262,144 places. A ring that idles at full speed uses them up within seconds; under
    /// [`PacedGate`](crate::PacedGate) it rests. [`read_book`](HostOf::read_book) borrows the book, whose `places`
    /// returns the number used or reserved.
    ///
    /// Errors: `Memory` if a thread can't be started. The host is then closed, started threads end, and what they have
    /// entered stays.
    ///
    /// Rules: The book and the threads 27
    pub fn run<W: Threads + Wait + Sync, G: Gate + Sync>(
        &self,
        rt: &W,
        seats: &mut [Seat<O::Alloc>],
        gate: &G,
    ) -> Result<(), Fault>
        requires { All (IsAt self.now.gauge) seats.old }
        ensures refused { IfErr result (λ fault. fault ≡ Memory) }
    {
        let refused = AtomicBool::new(false);
        let told = &refused;
        thread::scope(
            thread::scope_env(),
            rt,
            |scope|
                requires { All (IsAt self.now.gauge) seats.now }
            {
                for seat in seats {
                    let turns = move ||
                        requires { IsAt self.now.gauge seat.now }
                    { self.run_seat(rt, seat, gate) };
                    if scope.spawn(turns).is_err() {
                        told.store(true, Ordering::SeqCst);
                        self.close();
                        break;
                    }
                }
            },
        );
        if refused.load(Ordering::SeqCst) {
            return Err(Fault::Memory);
        }
        Ok(())
    }
}
