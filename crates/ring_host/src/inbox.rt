//! A node's inbox, and how the node's thread waits for an item.
//!
//! Rules: The book and the threads 23 and 29

ghost use Rattle.std.specs.Prelude.{◌≡◌, ◌<◌, IfOk, IfErr};
ghost use Rattle.crossbeam_queue.specs.Passes.{queue_capacity};
ghost use Rattle.ring_base.specs.declared.fault.Fault.TheVariants.{Memory};
ghost use Rattle.ring_host.specs.Items.{IsCopyOfFrame};

use crate::event_count::EventCount;
use crate::inbox_frame_and_task::InboxFrame;
use crate::pacing::{EmptyTurn, Pace, slices_of, yields_of};
use crossbeam_queue::ArrayQueue;
use ring_base::{Fault, Proc, State};
use ring_seat::Outbox;
use std::alloc::{Allocator, Global};
use std::sync::Wait;
use std::thread;
use std::time::Duration;

/// At full speed a node yields after each of this number of empty turns in a row.
const EMPTY_TURNS_TO_SHORT_SLEEP: u64 = 50;

/// After that, at full speed, one empty turn in this number is followed by a sleep, and the others by no wait.
const EMPTY_TURNS_PER_SHORT_SLEEP: u64 = 10;

/// The longest sleep of node 1 at full speed, in microseconds.
///
/// Another node's is longer in proportion to its yields.
const SHORT_SLEEP_MICROS: u64 = 50;

/// Under `PacedGate` a node sleeps after this number of empty turns in a row.
const EMPTY_TURNS_TO_SLEEP: u64 = 50;

/// Under `PacedGate` a node sleeps again after each further such number of empty turns.
const EMPTY_TURNS_PER_SLEEP: u64 = 200;

/// The length of a slice of a sleep under `PacedGate`, in microseconds.
const SLEEP_SLICE_MICROS: u64 = 200;

/// The length of a slice of a nap, in milliseconds.
const NAP_SLICE_MILLIS: u64 = 1;

/// A node's inbox: a bounded queue, an event count on which the node's thread sleeps until an item comes, and the pace
/// of the node while it finds none.
///
/// Rules: The book and the threads 23 and 29
#[derive(Drop)]
pub(crate) struct Inbox<A: Allocator + Copy + Drop = Global> {
    items: ArrayQueue<InboxFrame<A>, A>,
    event_count: EventCount,
    pace: Pace,
}

impl<A: Allocator + Copy + Drop> Inbox<A> {
    /// Creates an empty inbox with room for `size` items.
    ///
    /// `size` must be at least 1.
    ///
    /// Errors: `Memory` if an allocation fails.
    pub(crate) fn new(alloc: A, size: usize) -> Result<Inbox<A>, Fault>
        requires { 0 < size }
        ensures size { IfOk result (λ inbox. queue_capacity inbox.items ≡ size) }
        ensures refused { IfErr result (λ fault. fault ≡ Memory) }
    {
        let items = ArrayQueue::new(alloc, size)?;
        Ok(Inbox {
            items,
            event_count: EventCount::new(),
            pace: Pace::new(),
        })
    }

    /// Adds an item at the end and wakes a sleeping thread.
    ///
    /// Returns whether there was room; a full inbox drops the item. `item` must be a copy of the outbox's frame at
    /// `index`.
    ///
    /// Rules: The book and the threads 23
    pub(crate) fn push_and_wake<W: Wait>(
        &self,
        rt: &W,
        item: InboxFrame<A>,
        outbox: &Outbox<A>,
        index: usize,
    ) -> bool
        requires { IsCopyOfFrame outbox.now index item }
    {
        // Only the contract uses these.
        let (_, _) = (outbox, index);
        let is_pushed = self.items.push(rt, item).is_ok();
        // Read after the push: a thread that wants to sleep counts itself as a waiter before it looks for items. So no
        // item is missed.
        if self.event_count.has_waiters() {
            self.event_count.notify_all();
        }
        is_pushed
    }

    /// Removes and returns the first item, or returns `None` if the inbox is empty.
    ///
    /// Rules: The book and the threads 23
    pub(crate) fn pop<W: Wait>(&self, rt: &W) -> Option<InboxFrame<A>> {
        self.items.pop(rt)
    }

    /// Records the state of the node after a step, and how many of its calls have no answer.
    pub(crate) fn note_step(&self, node: Proc, state: State, waiting: usize) {
        self.pace.note_step(node, state, waiting);
    }

    /// Records the number of turns until the node's consensus timeout is due.
    pub(crate) fn note_turns_to_consensus(&self, turns: u16) {
        self.pace.note_turns_to_consensus(turns);
    }

    /// Returns whether calls submitted at the node had no answer after its last step.
    pub(crate) fn has_waiting_calls(&self) -> bool {
        self.pace.has_waiting_calls()
    }

    /// Waits after an empty turn of the node, at full speed.
    ///
    /// Rules: The book and the threads 29
    pub(crate) fn wait_at_full_speed<W: Wait>(&self, rt: &W, node: Proc) {
        match self.pace.count_empty_turn(node) {
            EmptyTurn::Early => thread::yield_now(),
            EmptyTurn::InRow(number) if number <= EMPTY_TURNS_TO_SHORT_SLEEP => {
                self.yield_until_item(yields_of(node));
            }
            EmptyTurn::InRow(number) if number % EMPTY_TURNS_PER_SHORT_SLEEP == 0 => {
                let most = SHORT_SLEEP_MICROS * yields_of(node);
                self.wait_for_item(rt, Duration::from_micros(most));
            }
            EmptyTurn::InRow(_) | EmptyTurn::BetweenNaps => {}
            EmptyTurn::OfNap => self.wait_for_slice(rt),
        }
    }

    /// Waits after an empty turn of the node, under `PacedGate`.
    ///
    /// Rules: The book and the threads 29
    pub(crate) fn wait_paced<W: Wait>(&self, rt: &W, node: Proc) {
        match self.pace.count_empty_turn(node) {
            EmptyTurn::InRow(number)
                if number % EMPTY_TURNS_PER_SLEEP == EMPTY_TURNS_TO_SLEEP
                    && !self.pace.is_consensus_near() => {
                let most = SLEEP_SLICE_MICROS * slices_of(node);
                self.wait_for_item(rt, Duration::from_micros(most));
            }
            EmptyTurn::Early | EmptyTurn::InRow(_) | EmptyTurn::BetweenNaps => {}
            EmptyTurn::OfNap => self.wait_for_slice(rt),
        }
    }

    /// Yields until an item comes, at most `most` times.
    fn yield_until_item(&self, most: u64) {
        for _ in 0..most {
            thread::yield_now();
            if !self.items.is_empty() {
                return;
            }
        }
    }

    /// Waits for a slice of a nap.
    ///
    /// An item ends the wait, and the slice restarts after it.
    fn wait_for_slice<W: Wait>(&self, rt: &W) {
        self.wait_for_item(rt, Duration::from_millis(NAP_SLICE_MILLIS));
        if self.items.is_empty() {
            self.pace.end_slice();
        }
    }

    /// Sleeps until an item comes, for at most the duration `most`.
    ///
    /// Returns at once if there is an item. May also return spuriously.
    ///
    /// Rules: The book and the threads 29
    fn wait_for_item<W: Wait>(&self, rt: &W, most: Duration) {
        let count = self.event_count.count();
        self.event_count.prepare_wait();
        if self.items.is_empty() {
            self.event_count.park(rt, count, most);
        }
        self.event_count.finish_wait();
    }
}
