//! The pace of a node's turns while it finds nothing to do.
//!
//! Timeouts count turns, so the length of an empty turn decides when a node gives up others. Nodes of lower numbers are
//! faster: the first one gives up those that are silent, and all agree with it before the next one's consensus timeout
//! is due. Nodes in step would all give each other up together, again and again.
//!
//! Rules: The book and the threads 21 and 29

ghost use Rattle.std.specs.Prelude.{◌<◌, ◌≤◌};

use ring_base::{Proc, State};
use std::sync::atomic::{AtomicBool, AtomicU64, Ordering};

/// The empty turns of a node in Gather, since the host was made, before its first nap.
///
/// So its first join goes out at once.
const EMPTY_TURNS_TO_NAP: u64 = 500;

/// A node in Gather naps after each further such number of empty turns, in a row or not.
const EMPTY_TURNS_PER_NAP: u64 = 200;

/// Under `PacedGate` a node doesn't sleep in this number of turns before its consensus timeout.
///
/// Outside Gather that timeout changes nothing. Soon after the node enters Gather, it would give up nodes whose joins
/// are on their way. So the time in which it is nearly due is short.
const SLEEPLESS_TURNS: u16 = 1_500;

/// The length of node 1's naps and sleeps, in slices.
const FIRST_SLICES: u64 = 10;

/// The number of slices by which a node's naps and sleeps are longer than those of the node before it.
const MORE_SLICES: u64 = 4;

/// The number of yields by which an empty turn of a node at full speed is longer than that of the node before it.
const MORE_YIELDS: u64 = 2;

/// The position of an empty turn in the pace of its node.
#[derive(Clone, Copy, Debug, PartialEq, Eq)]
pub(crate) enum EmptyTurn {
    /// It is one of the first in Gather, before any nap.
    Early,
    /// It is outside Gather, and has this position, from 1, among the empty turns in a row.
    InRow(u64),
    /// It is between two naps in Gather.
    BetweenNaps,
    /// It is one of a nap in Gather: a slice of the nap follows it.
    OfNap,
}

/// The pace of a node: its state, its waiting calls and its empty turns, which determine the length of its waits.
#[derive(Drop)]
pub(crate) struct Pace {
    /// Whether the node was in Gather after its last step, as at the opening.
    is_gathering: AtomicBool,
    /// Whether calls submitted at the node had no answer after its last step.
    has_waiting_calls: AtomicBool,
    /// The number of empty turns outside Gather since the last step.
    in_row: AtomicU64,
    /// The number of empty turns in Gather, without those of naps.
    in_gather: AtomicU64,
    /// The number of slices left of the present nap.
    slices_left: AtomicU64,
    /// Whether the consensus timeout was due within 1,500 turns at the last empty turn.
    is_consensus_near: AtomicBool,
}

impl Pace {
    /// Creates the pace of a node that has taken no turn.
    pub(crate) fn new() -> Pace {
        Pace {
            is_gathering: AtomicBool::new(true),
            has_waiting_calls: AtomicBool::new(false),
            in_row: AtomicU64::new(0),
            in_gather: AtomicU64::new(0),
            slices_left: AtomicU64::new(0),
            is_consensus_near: AtomicBool::new(false),
        }
    }

    /// Records the state of the node after a step, and how many of its calls have no answer.
    ///
    /// A node that enters Gather naps at once, so that it hears the others before a consensus timeout that was nearly
    /// due. One that has left Gather naps no more.
    pub(crate) fn note_step(&self, node: Proc, state: State, waiting: usize) {
        self.has_waiting_calls.store(waiting > 0, Ordering::SeqCst);
        self.in_row.store(0, Ordering::SeqCst);
        let is_gathering = state == State::Gather;
        if self.is_gathering.load(Ordering::SeqCst) == is_gathering {
            return;
        }
        self.is_gathering.store(is_gathering, Ordering::SeqCst);
        let slices = if is_gathering { slices_of(node) } else { 0 };
        self.slices_left.store(slices, Ordering::SeqCst);
    }

    /// Records the number of turns until the node's consensus timeout is due.
    pub(crate) fn note_turns_to_consensus(&self, turns: u16) {
        let is_near = turns <= SLEEPLESS_TURNS;
        self.is_consensus_near.store(is_near, Ordering::SeqCst);
    }

    /// Returns whether the consensus timeout is so near that a node outside Gather doesn't sleep.
    pub(crate) fn is_consensus_near(&self) -> bool {
        self.is_consensus_near.load(Ordering::SeqCst)
    }

    /// Returns whether calls submitted at the node had no answer after its last step.
    pub(crate) fn has_waiting_calls(&self) -> bool {
        self.has_waiting_calls.load(Ordering::SeqCst)
    }

    /// Counts an empty turn of the node, and returns its position.
    ///
    /// A join neither ends a nap nor puts it off.
    pub(crate) fn count_empty_turn(&self, node: Proc) -> EmptyTurn {
        if self.slices_left.load(Ordering::SeqCst) > 0 {
            return EmptyTurn::OfNap;
        }
        if !self.is_gathering.load(Ordering::SeqCst) {
            return EmptyTurn::InRow(increment(&self.in_row));
        }
        let in_gather = increment(&self.in_gather);
        if in_gather <= EMPTY_TURNS_TO_NAP {
            return EmptyTurn::Early;
        }
        if in_gather % EMPTY_TURNS_PER_NAP == 0 {
            self.slices_left.store(slices_of(node), Ordering::SeqCst);
        }
        EmptyTurn::BetweenNaps
    }

    /// Records that a slice of the present nap is over.
    pub(crate) fn end_slice(&self) {
        let slices_left = self.slices_left.load(Ordering::SeqCst);
        self.slices_left
            .store(slices_left.saturating_sub(1), Ordering::SeqCst);
    }
}

/// Adds 1 to a counter that only the node's own thread changes, and returns the sum.
fn increment(counter: &AtomicU64) -> u64 {
    let sum = counter.load(Ordering::SeqCst).saturating_add(1);
    counter.store(sum, Ordering::SeqCst);
    sum
}

/// Returns the length of the node's naps and sleeps, in slices, 10 to 70.
pub(crate) fn slices_of(node: Proc) -> u64
    ensures { result ≤ 70 }
{
    FIRST_SLICES + MORE_SLICES * nodes_before(node)
}

/// Returns the maximum number of yields after an empty turn of the node at full speed, 1 to 31.
pub(crate) fn yields_of(node: Proc) -> u64
    ensures { result ≤ 31 }
{
    1 + MORE_YIELDS * nodes_before(node)
}

/// Returns the number of processors with a lower number, 0 to 15.
fn nodes_before(node: Proc) -> u64
    ensures { result < 16 }
{
    u64::from(node.number()) - 1
}
