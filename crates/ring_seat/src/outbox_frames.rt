//! The list of an outbox's frames, by the ends of their bytes in one text.

ghost use Rattle.std.specs.Prelude.{◌≡◌, ◌≤◌, [], ◌∷◌, ◌++◌, take, slice_get, if◌then◌else◌};
ghost use Rattle.ring_seat.specs.OutboxFrames.{end_of, AreInOrder};

use ring_base::ProcSet;
use std::alloc::{Allocator, Global};
use std::marker::Model;

/// A frame of a line.
///
/// Its bytes in the outbox's text begin where the bytes of the frame before it end.
///
/// Rules: The book and the threads 21
#[derive(Clone, Copy, Debug, PartialEq, Eq)]
pub struct OutboxFrame {
    /// The frame's index among the frames that its line sends, counted from 0.
    pub place: u16,
    /// The frame's receivers.
    pub to: ProcSet,
    /// The index in the text at which the frame's bytes end, exclusive.
    pub end: usize,
}

/// The list of the frames in an outbox's text, in which their bytes follow one another.
///
/// Contracts see the list.
///
/// Rules: The book and the threads 21
#[derive(Drop)]
pub struct OutboxFrames<A: Allocator + Copy + Drop = Global> {
    list: Vec<OutboxFrame, A>,
    end: usize,
}

impl<A: Allocator + Copy + Drop> Model for OutboxFrames<A> {
    ghost use Rattle.std.specs.Prelude.{◌≡◌, List};
    ghost use Rattle.ring_seat.specs.OutboxFrames.{AreInOrder, end_of};
    ghost use Rattle.ring_seat.specs.declared.outbox_frames.OutboxFrame.{OutboxFrame as OnePacked};

    ghost Value = { List OnePacked };

    ghost view = { λ f. f.list.items };

    ghost invariant = { λ f. AreInOrder 0 f.list.items × (f.end ≡ end_of f.list.items) };
}

impl<A: Allocator + Copy + Drop> OutboxFrames<A> {
    /// Returns an empty list.
    ///
    /// Does not allocate.
    pub(crate) fn new(alloc: A) -> OutboxFrames<A>
        ensures { result ≡ [] }
    {
        OutboxFrames {
            list: Vec::new(alloc),
            end: 0,
        }
    }

    /// Returns the frames, in the order in which they were added.
    ///
    /// Rules: The book and the threads 21
    pub fn as_slice(&self) -> &[OutboxFrame]
        ensures { result.now ≡ self.now }
    {
        self.list.as_slice()
    }

    /// Returns the frame at index `index` of the list, counted from 0, or `None` if there is no such frame.
    ///
    /// Rules: The book and the threads 21
    #[tactic(auto, using(ring_base::proofs::ListPlaces::item_copied))]
    pub fn get(&self, index: usize) -> Option<OutboxFrame>
        ensures { result ≡ slice_get self.now index }
    {
        self.list.as_slice().get(index).copied()
    }

    /// Returns the index in the text at which the bytes of the last frame end, or 0 without frames.
    pub(crate) fn text_end(&self) -> usize
        ensures end { result ≡ end_of self.now }
        ensures order { AreInOrder 0 self.now }
    {
        self.end
    }

    /// Returns the index in the text at which the bytes of the frame at `index` begin, which is where those before it
    /// end.
    ///
    /// For an index after the last frame it is [`text_end`](OutboxFrames::text_end).
    pub(crate) fn text_start(&self, index: usize) -> usize
        ensures { result ≡ end_of (take index self.now) }
    {
        if index == 0 {
            return 0;
        }
        match self.get(index - 1) {
            Some(before) => before.end,
            None => self.end,
        }
    }

    /// Removes all frames and keeps the capacity.
    pub(crate) fn clear(&mut self)
        ensures { self.new ≡ [] }
    {
        self.list.clear();
        self.end = 0;
    }

    /// Appends a frame, and returns whether it did.
    ///
    /// Returns false, and changes nothing, if an allocation fails. The frame's bytes must end no earlier than those of
    /// the frames before it.
    pub(crate) fn push(&mut self, outbox_frame: OutboxFrame) -> bool
        requires { end_of self.old ≤ outbox_frame.end }
        ensures { self.new ≡ (if result then self.old ++ outbox_frame ∷ [] else self.old) }
    {
        let end = outbox_frame.end;
        if self.list.push(outbox_frame).is_err() {
            return false;
        }
        self.end = end;
        true
    }
}
