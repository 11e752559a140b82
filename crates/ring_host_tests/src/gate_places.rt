//! A lone node's thread is held up at both places of a gate, while another thread looks.
//!
//! Rules: The book and the threads 21 and 29

ghost use Rattle.std.specs.Prelude.{◌≡◌, All};
ghost use Rattle.ring_seat.specs.Seats.{IsAt};

use crate::driven::{add_of, last_seat};
use ring_base::{Fault, Fixed, Proc};
use ring_host::{Book, BookName, Gate, GatePlace, Host, HostTicket, Opening, Seat};
use ring_object::Object;
use ring_session::Ticket;
use ring_things::Counters;
use std::alloc::Global;
use std::marker::Brand;
use std::sync::Wait;
use std::sync::atomic::{AtomicBool, Ordering};
use std::thread;
use std::thread::Threads;

/// The looks in which a submit would be done if the node's lock weren't held.
///
/// Each yields.
const LONG: u32 = 1_000;

/// The most looks of the gate at a place, and of the other thread: more than a busy machine needs.
const LOOKS: u64 = 1_000_000_000;

/// Holds the node's thread up at each place until the other thread has looked.
#[derive(Drop)]
struct SteppingGate {
    /// Whether the thread is at a place, and waits until the other thread has looked.
    is_waiting: AtomicBool,
    /// Whether the thread has been at a place.
    has_begun: AtomicBool,
    /// Whether the other thread's submit has returned.
    is_submitted: AtomicBool,
    /// Whether the submit waited while the thread was at `Held`.
    was_locked: AtomicBool,
    /// Whether all observations of the other thread are right.
    is_right: AtomicBool,
    /// Whether the other thread has seen the answer of the call.
    is_answered: AtomicBool,
    /// Whether the thread is held up no more: the call is answered, or nothing more can be seen.
    is_over: AtomicBool,
}

impl SteppingGate {
    /// Returns a gate at which nothing has happened.
    fn new() -> SteppingGate {
        SteppingGate {
            is_waiting: AtomicBool::new(false),
            has_begun: AtomicBool::new(false),
            is_submitted: AtomicBool::new(false),
            was_locked: AtomicBool::new(false),
            is_right: AtomicBool::new(true),
            is_answered: AtomicBool::new(false),
            is_over: AtomicBool::new(false),
        }
    }

    /// Holds the node's thread up until the other thread has looked.
    fn hold(&self) {
        self.is_waiting.store(true, Ordering::SeqCst);
        for _ in 0..LOOKS {
            if self.is_over.load(Ordering::SeqCst) || !self.is_waiting.load(Ordering::SeqCst) {
                return;
            }
            thread::yield_now();
        }
    }

    /// Waits long enough for a submit that needs no lock, the first time.
    fn outwait(&self) {
        if self.has_begun.swap(true, Ordering::SeqCst) {
            return;
        }
        for _ in 0..LONG {
            thread::yield_now();
        }
        let is_submitted = self.is_submitted.load(Ordering::SeqCst);
        self.was_locked.store(!is_submitted, Ordering::SeqCst);
    }

    /// Records an observation of the other thread.
    ///
    /// After a wrong one, or the answer, the node's thread is held up no more.
    fn record(&self, is_right: bool, is_answered: bool) {
        if !is_right {
            self.is_right.store(false, Ordering::SeqCst);
        }
        self.is_answered.store(is_answered, Ordering::SeqCst);
        self.is_over
            .store(is_answered || !is_right, Ordering::SeqCst);
    }
}

impl Gate for SteppingGate {
    fn at(&self, _node: Proc, place: GatePlace) {
        self.hold();
        if place == GatePlace::Held {
            self.outwait();
        }
    }
}

/// Returns whether no place of the book is reserved without its line, and whether the node's first call is answered.
fn lines_and_answer<O: Object, K: BookName<O::Alloc>>(
    book: &Book<O, K>,
    node: Proc,
) -> (bool, bool) {
    let places = book.places();
    let have_lines = places == 0 || book.line(places.saturating_sub(1)).is_some();
    (have_lines, book.answer(node, Ticket::new(0)).is_some())
}

/// Looks at the book and at the gauge.
///
/// Returns whether no place is reserved and the node's published length counts its answered call; and whether that is
/// answered.
fn look<O: Object, K: BookName<O::Alloc>, W: Wait>(
    rt: &W,
    host: &Host<O, K>,
    seat: &mut Seat<O::Alloc>,
) -> Result<(bool, bool), Fault>
    requires { IsAt host.now.gauge seat.old }
    ensures { IsAt host.now.gauge seat.new }
{
    let node = host.proc(1)?;
    let (have_lines, is_answered) = host.read_book(rt, |book| lines_and_answer(book, node));
    let length = host.gauge().look(seat, node);
    Ok((have_lines && length == u64::from(is_answered), is_answered))
}

/// Submits the add of client 7 and number 1 at node 1.
fn submit<O: Object, K: BookName<O::Alloc>, W: Wait>(
    rt: &W,
    alloc: O::Alloc,
    host: &Host<O, K>,
    seat: &mut Seat<O::Alloc>,
) -> Result<HostTicket, Fault>
    requires { IsAt host.now.gauge seat.old }
    ensures { IsAt host.now.gauge seat.new }
{
    let node = host.proc(1)?;
    let call = add_of(alloc, 7, 1)?;
    host.submit(rt, seat, node, call)
}

/// Looks if the node's thread waits at a place, and lets it go on.
///
/// After the first look it submits a call.
fn step<O: Object, K: BookName<O::Alloc>, W: Wait>(
    rt: &W,
    alloc: O::Alloc,
    host: &Host<O, K>,
    seat: &mut Seat<O::Alloc>,
    gate: &SteppingGate,
)
    requires { IsAt host.now.gauge seat.old }
    ensures { IsAt host.now.gauge seat.new }
{
    if !gate.is_waiting.load(Ordering::SeqCst) {
        thread::yield_now();
        return;
    }
    let (is_right, is_answered) = look(rt, host, seat).unwrap_or((false, false));
    gate.record(is_right, is_answered);
    gate.is_waiting.store(false, Ordering::SeqCst);
    if !gate.is_submitted.load(Ordering::SeqCst) {
        if submit(rt, alloc, host, seat).is_err() {
            gate.is_over.store(true, Ordering::SeqCst);
        }
        gate.is_submitted.store(true, Ordering::SeqCst);
    }
}

/// Looks at each place until the call is answered, and closes the host.
fn watch<O: Object, K: BookName<O::Alloc>, W: Wait>(
    rt: &W,
    alloc: O::Alloc,
    host: &Host<O, K>,
    seat: Seat<O::Alloc>,
    gate: &SteppingGate,
)
    requires { IsAt host.now.gauge seat }
{
    let mut seat = seat;
    for _ in 0..LOOKS {
        if gate.is_over.load(Ordering::SeqCst) {
            break;
        }
        step(rt, alloc, host, &mut seat, gate);
    }
    host.close();
}

/// Runs the node until its call is answered.
///
/// Returns whether it is answered, and all observations at the places are right.
fn run<O: Object + Send, K: BookName<O::Alloc> + Send + Sync, W: Threads + Wait + Sync>(
    rt: &W,
    alloc: O::Alloc,
    host: &Host<O, K>,
    seats: Vec<Seat<O::Alloc>, O::Alloc>,
    seat: Seat<O::Alloc>,
    gate: &SteppingGate,
) -> bool
where
    O::Alloc: Send + Sync,
    requires seats { All (IsAt host.now.gauge) seats.items }
    requires seat { IsAt host.now.gauge seat }
{
    let ran = thread::scope(
        thread::scope_env(),
        rt,
        move |scope| -> Result<(), Fault>
            requires seats { All (IsAt host.now.gauge) seats.items }
            requires seat { IsAt host.now.gauge seat }
        {
            let watched = move ||
                requires { IsAt host.now.gauge seat }
            { watch(rt, alloc, host, seat, gate) };
            if scope.spawn(watched).is_err() {
                gate.is_over.store(true, Ordering::SeqCst);
                host.close();
            }
            let mut seats = seats;
            let ran = host.run(rt, seats.as_mut_slice(), gate);
            gate.is_over.store(true, Ordering::SeqCst);
            ran
        },
    );
    ran.is_ok()
        && gate.was_locked.load(Ordering::SeqCst)
        && gate.is_right.load(Ordering::SeqCst)
        && gate.is_answered.load(Ordering::SeqCst)
}

/// Runs `run` on a host of one node at an opening.
fn opened<O: Object + Send, K: BookName<O::Alloc> + Send + Sync, W: Threads + Wait + Sync>(
    rt: &W,
    alloc: O::Alloc,
    opening: Opening<O>,
) -> Result<bool, Fault>
where
    O::Alloc: Send + Sync,
    requires { opening ≡ K.name }
{
    let (host, mut seats) = Host::<O, K>::new(alloc, opening, 1)?;
    let seat = last_seat(&host, &mut seats)?;
    let gate = SteppingGate::new();
    let is_right = run(rt, alloc, &host, seats, seat, &gate);
    drop(host);
    Ok(is_right)
}

/// Runs `opened` with counters.
fn counted<W: Threads + Wait + Sync>(rt: &W, alloc: Global) -> Result<bool, Fault> {
    let opening = Opening::<Counters>::new(alloc, Fixed::new(1)?)?;
    opened::<Counters, Brand, W>(rt, alloc, opening)
}

/// A submit waits at `Held`, where the node's lock is held and no place is reserved.
///
/// At `Entered` the line is in the book, and the length is published.
#[test]
fn nothing_is_reserved_at_held_and_all_is_out_at_entered(rt: HostRuntime) {
    assert!(rt; counted(&rt, rt.alloc()) == Ok(true));
}
