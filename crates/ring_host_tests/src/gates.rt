//! Nodes work at the same time: a thread that is held up with its node's lock doesn't hold up another node.
//!
//! A thread that is held up once its line is entered has sent its frames.
//!
//! Rules: The book and the threads 20, 21 and 29

ghost use Rattle.std.specs.Prelude.{◌≡◌, All};
ghost use Rattle.ring_seat.specs.Seats.{IsAt};

use ring_base::{Fault, Fixed, Proc};
use ring_host::{Book, BookName, Cause, Gate, GatePlace, Host, Opening, Seat};
use ring_object::Object;
use ring_things::Counters;
use std::alloc::Global;
use std::marker::Brand;
use std::sync::Wait;
use std::sync::atomic::{AtomicBool, Ordering};
use std::thread;
use std::thread::Threads;

/// The most looks of the gate at a flag: more than a busy machine needs.
///
/// Each yields, so node 2's thread gets a processor meanwhile.
const LOOKS: u32 = 30_000_000;

/// The most looks of the host's caller at the gate: longer than the gate looks.
const WATCHES: u64 = 1_000_000_000;

/// Holds up node 1 twice, each time for at most `LOOKS` looks.
///
/// The first hold is with its lock in hand, the first time that it has it, until node 2 enters a line. The second is
/// behind its first line, until node 2 has taken a frame of it.
#[derive(Drop)]
struct HoldingGate {
    /// Whether node 1 was held up with its lock.
    was_held: AtomicBool,
    /// Whether node 2 has entered a line since node 1 was held up.
    has_entered: AtomicBool,
    /// Whether node 1 was held up no more because node 2 had entered a line.
    has_opened: AtomicBool,
    /// Whether node 1 has entered its first line.
    is_out: AtomicBool,
    /// Whether node 2 has taken a frame of node 1 since.
    has_taken: AtomicBool,
    /// Whether node 1 is held up no more.
    is_over: AtomicBool,
}

/// Looks at the flag until it is set, at most `LOOKS` times, and returns whether it is.
fn await_flag(flag: &AtomicBool) -> bool {
    for _ in 0..LOOKS {
        if flag.load(Ordering::SeqCst) {
            return true;
        }
        thread::yield_now();
    }
    false
}

impl HoldingGate {
    /// Returns a gate that has not held up node 1 yet.
    fn new() -> HoldingGate {
        HoldingGate {
            was_held: AtomicBool::new(false),
            has_entered: AtomicBool::new(false),
            has_opened: AtomicBool::new(false),
            is_out: AtomicBool::new(false),
            has_taken: AtomicBool::new(false),
            is_over: AtomicBool::new(false),
        }
    }

    /// Looks until node 2 enters a line, the first time.
    fn hold(&self) {
        if self.was_held.swap(true, Ordering::SeqCst) {
            return;
        }
        // Lines that node 2 entered before show nothing.
        self.has_entered.store(false, Ordering::SeqCst);
        let has_opened = await_flag(&self.has_entered);
        self.has_opened.store(has_opened, Ordering::SeqCst);
    }

    /// Looks until node 2 has taken a frame of node 1, the first time.
    ///
    /// Afterwards node 1 is held up no more.
    fn hold_behind_line(&self) {
        if self.is_out.swap(true, Ordering::SeqCst) {
            return;
        }
        let _ = await_flag(&self.has_taken);
        self.is_over.store(true, Ordering::SeqCst);
    }
}

impl Gate for HoldingGate {
    fn at(&self, node: Proc, place: GatePlace) {
        match (node.number(), place) {
            (1, GatePlace::Held) => self.hold(),
            (1, GatePlace::Entered) => self.hold_behind_line(),
            (2, GatePlace::Entered) => self.has_entered.store(true, Ordering::SeqCst),
            _ => {}
        }
    }
}

/// Whether the line of this number is of node 1.
fn is_of_first<O: Object, K: BookName<O::Alloc>>(book: &Book<O, K>, line: u32) -> bool {
    match book.line(line) {
        Some(line) => line.node().number() == 1,
        None => false,
    }
}

/// Whether node 2 has taken a frame of node 1.
fn has_taken<O: Object, K: BookName<O::Alloc>>(book: &Book<O, K>) -> bool {
    for number in 0..book.places() {
        let Some(line) = book.line(number) else {
            return false;
        };
        if let Cause::Delivered(at) = line.cause() {
            if line.node().number() == 2 && is_of_first(book, at.line) {
                return true;
            }
        }
    }
    false
}

/// Looks into the book while node 1 is held up behind its line, until node 2 has taken a frame of it.
///
/// Closes the host once the gate holds node 1 no more.
fn watch<O: Object, K: BookName<O::Alloc>, W: Wait>(rt: &W, host: &Host<O, K>, gate: &HoldingGate) {
    for _ in 0..WATCHES {
        if gate.is_over.load(Ordering::SeqCst) {
            break;
        }
        if gate.is_out.load(Ordering::SeqCst) && host.read_book(rt, |book| has_taken(book)) {
            gate.has_taken.store(true, Ordering::SeqCst);
        }
        thread::yield_now();
    }
    host.close();
}

/// Runs the nodes until the gate holds node 1 no more.
///
/// Returns whether node 2 entered a line while node 1 was held up with its lock, and took a frame while it was held up
/// behind its line.
fn run<O: Object + Send, K: BookName<O::Alloc> + Send + Sync, W: Threads + Wait + Sync>(
    rt: &W,
    host: &Host<O, K>,
    seats: Vec<Seat<O::Alloc>, O::Alloc>,
    gate: &HoldingGate,
) -> bool
where
    O::Alloc: Send + Sync,
    requires { All (IsAt host.now.gauge) seats.items }
{
    let ran = thread::scope(
        thread::scope_env(),
        rt,
        move |scope| -> Result<(), Fault>
            requires { All (IsAt host.now.gauge) seats.items }
        {
            if scope.spawn(move || watch(rt, host, gate)).is_err() {
                host.close();
            }
            let mut seats = seats;
            let ran = host.run(rt, seats.as_mut_slice(), gate);
            gate.is_over.store(true, Ordering::SeqCst);
            ran
        },
    );
    ran.is_ok() && gate.has_opened.load(Ordering::SeqCst) && gate.has_taken.load(Ordering::SeqCst)
}

/// Runs both nodes of a host from its opening, under the holding gate.
fn opened<O: Object + Send, K: BookName<O::Alloc> + Send + Sync, W: Threads + Wait + Sync>(
    rt: &W,
    alloc: O::Alloc,
    opening: Opening<O>,
) -> Result<bool, Fault>
where
    O::Alloc: Send + Sync,
    requires { opening ≡ K.name }
{
    let (host, seats) = Host::<O, K>::new(alloc, opening, 0)?;
    let gate = HoldingGate::new();
    let is_working = run(rt, &host, seats, &gate);
    drop(host);
    Ok(is_working)
}

/// Runs `opened` with counters.
fn counted<W: Threads + Wait + Sync>(rt: &W, alloc: Global) -> Result<bool, Fault> {
    let opening = Opening::<Counters>::new(alloc, Fixed::new(2)?)?;
    opened::<Counters, Brand, W>(rt, alloc, opening)
}

#[test]
fn a_node_works_while_another_is_held_up(rt: HostRuntime) {
    assert!(rt; counted(&rt, rt.alloc()) == Ok(true));
}
