//! The record of a run: its events and everything that they produced.
//!
//! Rules: The book and the threads 1, 3, 5 and 7

ghost use Rattle.std.specs.Prelude.{◌≡◌, ◌+◌, ◌<◌, ◌≤◌, [], vec_len, vec_capacity, IfOk, IfErr, OnOk};
ghost use Rattle.ring_base.specs.declared.fault.Fault.TheVariants.{Memory};
ghost use Rattle.ring_world.specs.StoredFramesView.{HasRoom};

use crate::copies::{copy_events, copy_history, copy_told};
use crate::frame_store::FrameStore;
use crate::longest_committed::LongestCommitted;
use ring_base::Fault;
use ring_node_spec::{Event, Item, Told};
use ring_session::MAX_UNANSWERED;
use std::alloc::Allocator;

/// The record of a run: its events, the reports to clients, the history, the frames sent, and the longest committed
/// log.
///
/// Rules: The book and the threads 1, 3, 5 and 7
#[derive(Drop)]
pub(crate) struct RunRecord<A: Allocator + Copy> {
    /// All events since the opening, in order.
    ///
    /// A step in which an allocation failed is recorded as `Stop`.
    pub events: Vec<Event<A>, A>,
    /// The answers and the refused submits, in the order of events.
    pub told: Vec<Told<A>, A>,
    /// The issued calls and the replies, in the order of events.
    pub history: Vec<Item<A>, A>,
    /// All frames ever sent, numbered from 1.
    pub frames: FrameStore<A>,
    /// The longest committed log of all nodes, from its beginning.
    pub longest: LongestCommitted<A>,
}

impl<A: Allocator + Copy> RunRecord<A> {
    /// Returns the empty record of a world at its opening.
    ///
    /// Does not allocate.
    pub fn new(alloc: A) -> RunRecord<A>
        ensures events { result.events.items ≡ [] }
        ensures told { result.told.items ≡ [] }
        ensures history { result.history.items ≡ [] }
        ensures frames { result.frames.frames ≡ [] }
        ensures longest { result.longest.calls ≡ [] }
    {
        RunRecord {
            events: Vec::new(alloc),
            told: Vec::new(alloc),
            history: Vec::new(alloc),
            frames: FrameStore::new(alloc),
            longest: LongestCommitted::new(alloc),
        }
    }

    /// Returns a copy of the record, which changes independently of this one.
    ///
    /// Errors: `Memory` if an allocation fails; this record is unchanged.
    pub fn copy(&self) -> Result<RunRecord<A>, Fault>
        ensures events { IfOk result (λ copy. copy.events.items ≡ self.now.events.items) }
        ensures told { IfOk result (λ copy. copy.told.items ≡ self.now.told.items) }
        ensures history { IfOk result (λ copy. copy.history.items ≡ self.now.history.items) }
        ensures frames { IfOk result (λ copy. copy.frames.frames ≡ self.now.frames.frames) }
        ensures longest { IfOk result (λ copy. copy.longest.calls ≡ self.now.longest.calls) }
        ensures refused { IfErr result (λ fault. fault ≡ Memory) }
    {
        Ok(RunRecord {
            events: copy_events(&self.events)?,
            told: copy_told(&self.told)?,
            history: copy_history(&self.history)?,
            frames: self.frames.clone()?,
            longest: self.longest.clone()?,
        })
    }

    /// Makes room for all that one event adds: an event, 64 reports, 64 items of the history, 64 frames and one segment
    /// of the log.
    ///
    /// Mostly there is room already.
    ///
    /// Errors: `Memory` if an allocation fails; the contents are unchanged.
    ///
    /// Rules: The book and the threads 7
    pub fn make_room(&mut self) -> Result<(), Fault>
        ensures events { self.new.events.items ≡ self.old.events.items }
        ensures events_room { OnOk result (vec_len self.new.events + 1 ≤ vec_capacity self.new.events) }
        ensures told { self.new.told.items ≡ self.old.told.items }
        ensures told_room { OnOk result (vec_len self.new.told + 64 ≤ vec_capacity self.new.told) }
        ensures history { self.new.history.items ≡ self.old.history.items }
        ensures history_room { OnOk result (vec_len self.new.history + 64 ≤ vec_capacity self.new.history) }
        ensures frames { self.new.frames.frames ≡ self.old.frames.frames }
        ensures frames_room { OnOk result (HasRoom 64 self.new.frames) }
        ensures longest { self.new.longest.calls ≡ self.old.longest.calls }
        ensures longest_room { OnOk result (0 < self.new.longest.places) }
        ensures refused { IfErr result (λ fault. fault ≡ Memory) }
    {
        let has_room = self.events.len() < self.events.capacity()
            && self.told.capacity() - self.told.len() >= MAX_UNANSWERED
            && self.history.capacity() - self.history.len() >= MAX_UNANSWERED
            && self.frames.has_room()
            && self.longest.has_room();
        if has_room {
            return Ok(());
        }
        self.events.reserve(1)?;
        self.told.reserve(MAX_UNANSWERED)?;
        self.history.reserve(MAX_UNANSWERED)?;
        self.frames.make_room()?;
        self.longest.make_room()
    }
}
