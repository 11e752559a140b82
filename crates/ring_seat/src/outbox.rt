//! The frames of a line, on their way from the book to the inboxes.
//!
//! Rules: The book and the threads 21

ghost use Rattle.std.specs.Prelude.{◌≡◌, ◌≤◌, [], length, slice_get, IfSome, IfNone, IsSomeAnd};
ghost use Rattle.ring_seat.specs.Outboxes.{frames_in, bytes_put, IsWhole, IsNotedOrDropped};

use crate::outbox_frames::{OutboxFrame, OutboxFrames};
use bytes::BytesMut;
use ring_base::ProcSet;
use std::alloc::{Allocator, Global};

/// The frames that one line sends, copied from the book while it is locked, to be pushed to the inboxes once it is
/// unlocked.
///
/// An outbox is used for one line after another and keeps its capacity. So it allocates only for a line that needs more
/// room than every line before.
///
/// Rules: The book and the threads 21
#[derive(Drop)]
pub struct Outbox<A: Allocator + Copy + Drop = Global> {
    /// The allocator of the outbox's memory.
    pub(crate) alloc: A,
    /// The line's number in the book, counted from 0.
    pub line: u32,
    /// The encodings of the frames in `frames`, one after another.
    pub text: BytesMut<A>,
    /// The copied frames, in the order in which they were added.
    pub frames: OutboxFrames<A>,
    /// The number of dropped copies: one for each receiver of a frame for which an allocation failed.
    pub dropped: u32,
}

impl<A: Allocator + Copy + Drop> Outbox<A> {
    /// Creates an outbox without frames, for line 0.
    ///
    /// Does not allocate.
    ///
    /// Rules: The book and the threads 21
    pub fn new(alloc: A) -> Outbox<A>
        ensures text { result.text.items ≡ [] }
        ensures frames { result.frames ≡ [] }
        ensures dropped { result.dropped ≡ 0 }
    {
        Outbox {
            alloc,
            line: 0,
            text: BytesMut::new(alloc),
            frames: OutboxFrames::new(alloc),
            dropped: 0,
        }
    }

    /// Begins line `line`: removes all frames, sets `dropped` to 0, and keeps the capacity.
    ///
    /// Does not allocate.
    ///
    /// Rules: The book and the threads 21
    pub fn start_line(&mut self, line: u32)
        ensures line { self.new.line ≡ line }
        ensures text { self.new.text.items ≡ [] }
        ensures frames { self.new.frames ≡ [] }
        ensures dropped { self.new.dropped ≡ 0 }
    {
        self.line = line;
        self.text.truncate(0);
        self.frames.clear();
        self.dropped = 0;
    }

    /// Adds the frame at index `place` of the line, counted from 0, with the receivers `to`.
    ///
    /// `are_bytes_appended` says whether the frame's bytes were appended to `text`, after those of the frames before
    /// it. If they weren't, or an allocation fails, the frame is left out: its bytes are removed from `text`, and
    /// `dropped` grows by the number of its receivers. `dropped` saturates at `u32::MAX`.
    ///
    /// Rules: The book and the threads 23
    pub fn add_frame(&mut self, place: u16, to: ProcSet, are_bytes_appended: bool)
        ensures line { self.new.line ≡ self.old.line }
        ensures noted { IsNotedOrDropped place to are_bytes_appended self.old self.new }
        ensures none { bytes_put self.new ≡ [] }
        ensures whole { IsWhole self.old → IsWhole self.new }
    {
        let start = self.frames.text_end();
        let end = self.text.len().max(start);
        if !are_bytes_appended || !self.frames.push(OutboxFrame { place, to, end }) {
            self.text.truncate(start);
            self.dropped = self.dropped.saturating_add(to.len());
        }
    }

    /// Returns the bytes of the frame at index `index` of `frames`, counted from 0.
    ///
    /// Returns `None` if there is no such frame, or if `text` is too short to have its bytes. The latter can't happen
    /// while the outbox is whole: `text` has the bytes of all its frames. Does not allocate.
    ///
    /// Rules: The book and the threads 21
    pub fn bytes_at(&self, index: usize) -> Option<&[u8]>
        ensures some { IfSome result (λ bytes. IsSomeAnd (slice_get (frames_in self.now) index) (λ frame. bytes.now ≡ frame.bytes)) }
        ensures none { IfNone result (IsWhole self.now → length self.now.frames ≤ index) }
    {
        let outbox_frame = self.frames.get(index)?;
        let start = self.frames.text_start(index);
        self.text.as_slice().get(start..outbox_frame.end)
    }
}
