//! The frames sent so far, and the nodes that received each.
//!
//! Formats: The command line

use ring_base::{Fault, Proc, ProcSet, RingId};
use ring_console::World;
use ring_counts::CountedFrame;
use ring_object::Object;
use ring_payload::{Payload, WrappedPayload};
use ring_trace_formats::DeliveryKind;
use ring_wire::{Frame, Message};
use std::alloc::Allocator;

/// The name of a message: its ring, and its number there.
#[derive(Clone, Copy, PartialEq, Eq)]
struct MessageName {
    ring: RingId,
    number: u64,
}

/// A frame that was sent.
#[derive(Clone, Copy)]
pub(crate) struct SentFrame {
    /// The sender.
    pub from: Proc,
    /// The receivers.
    pub to: ProcSet,
    /// The length in bytes of the encodings of all earlier frames.
    pub begin: usize,
    /// The length in bytes of these encodings and its own.
    pub end: usize,
    /// The message that it has, if it has one.
    message: Option<MessageName>,
    /// The frame, as far as counts depend on it.
    pub counted: Option<CountedFrame>,
    /// The number of places that the snapshot replaces of which its message carries a piece, if it carries one.
    pub snapshot: Option<u64>,
    /// The nodes that received it.
    receivers_so_far: ProcSet,
}

/// The frames sent so far, in the order of sending.
///
/// They are numbered from 1.
#[derive(Drop)]
pub(crate) struct SentFrames<A: Allocator> {
    frames: Vec<SentFrame, A>,
}

impl<A: Allocator + Copy> SentFrames<A> {
    /// Creates an empty list.
    ///
    /// Does not allocate.
    pub fn new(alloc: A) -> SentFrames<A> {
        SentFrames {
            frames: Vec::new(alloc),
        }
    }

    /// Returns the number of frames.
    pub fn count(&self) -> u64 {
        self.frames.len() as u64
    }

    /// Returns frame `number`, counted from 1, or `None` if there is none.
    pub fn frame(&self, number: u64) -> Option<SentFrame> {
        let before = number.checked_sub(1)?;
        self.frames.get(before as usize).copied()
    }

    /// Returns the frames with numbers above `before`, oldest first.
    ///
    /// Returns the empty slice if there is none.
    pub fn since(&self, before: u64) -> &[SentFrame] {
        self.frames.get(before as usize..).unwrap_or(&[])
    }

    /// Returns the kind of delivery that it would be to give frame `number` to `node` now.
    ///
    /// Frames are numbered from 1 in the order of sending. `None` stands for a number of 2^64 or more; like the number
    /// of a frame that wasn't sent, it yields `NotSent`.
    ///
    /// Formats: The command line
    pub fn delivery_kind_of(&self, number: Option<u64>, node: Proc) -> DeliveryKind {
        let Some(frame) = number.and_then(|number| self.frame(number)) else {
            return DeliveryKind::NotSent;
        };
        if !frame.to.contains(node) {
            DeliveryKind::NotForNode
        } else if frame.receivers_so_far.contains(node) {
            DeliveryKind::Again
        } else if self.has_message_of(&frame, node) {
            DeliveryKind::KnownMessage
        } else {
            DeliveryKind::First
        }
    }

    /// Returns whether the node sent or received the message of this frame.
    fn has_message_of(&self, frame: &SentFrame, node: Proc) -> bool {
        let mut has_message = false;
        for other in &self.frames {
            let has_other = other.from == node || other.receivers_so_far.contains(node);
            has_message = has_message
                || (frame.message.is_some() && other.message == frame.message && has_other);
        }
        has_message
    }

    /// Records that the node receives frame `number`, counted from 1.
    ///
    /// If no such frame was sent, nothing changes. `number` must not be 0. Does not allocate.
    ///
    /// Formats: The command line
    pub fn note_receipt(&mut self, number: u64, node: Proc) {
        let before = number.saturating_sub(1);
        if let Some(frame) = self.frames.get_mut(before as usize) {
            let _ = frame.receivers_so_far.insert(node);
        }
    }

    /// Adds the next frame, whose encoding `bytes` begin with.
    ///
    /// It is decoded into `place`.
    ///
    /// Errors: `Memory` if an allocation fails; nothing is added.
    fn push_decoded_frame(
        &mut self,
        alloc: A,
        bytes: &[u8],
        (from, to): (Proc, ProcSet),
        place: &mut Option<Frame<A>>,
    ) -> Result<(), Fault> {
        let begin = self.end();
        let rest = bytes.get(begin..).unwrap_or(&[]);
        let Ok(length) = Frame::<A>::decode_first_frame_into(alloc, rest, place) else {
            return Err(Fault::Memory);
        };
        self.frames.push(SentFrame {
            from,
            to,
            begin,
            end: begin.saturating_add(length),
            message: message_in(place),
            counted: counted_in(place),
            snapshot: snapshot_in(place),
            receivers_so_far: ProcSet::new(),
        })?;
        Ok(())
    }

    /// Returns the total length in bytes of all encodings.
    fn end(&self) -> usize {
        match self.frames.last() {
            Some(frame) => frame.end,
            None => 0,
        }
    }
}

/// Adds the frames that were sent since the last call.
///
/// Errors: `Memory` if an allocation fails; some of the frames may have been added.
///
/// Formats: The command line
pub(crate) fn add_sent_frames<O: Object>(
    alloc: O::Alloc,
    world: &World<O>,
    sent: &mut SentFrames<O::Alloc>,
) -> Result<(), Fault> {
    let mut place = None;
    let added = add_each_frame(alloc, world, sent, &mut place);
    // Dropped explicitly, so it is dropped in a function generic over its type, and doesn't live until the exits.
    drop(place);
    added
}

/// Adds the frames that were sent since the last call, each decoded in place of the one before it.
fn add_each_frame<O: Object>(
    alloc: O::Alloc,
    world: &World<O>,
    sent: &mut SentFrames<O::Alloc>,
    place: &mut Option<Frame<O::Alloc>>,
) -> Result<(), Fault> {
    for _ in 0..u64::MAX {
        let Some(ends) = world.frame(sent.count().saturating_add(1)) else {
            return Ok(());
        };
        sent.push_decoded_frame(alloc, world.sent_text(), ends, place)?;
    }
    Ok(())
}

/// Returns the message of a frame, if it has one.
fn message_in<A: Allocator + Copy>(frame: &Option<Frame<A>>) -> Option<MessageName> {
    match frame {
        Some(Frame::Message(message)) => Some(MessageName {
            ring: message.ring,
            number: message.number,
        }),
        _ => None,
    }
}

/// Returns a frame, as far as counts depend on it.
fn counted_in<A: Allocator + Copy>(frame: &Option<Frame<A>>) -> Option<CountedFrame> {
    let frame = frame.as_ref()?;
    Some(CountedFrame::of(frame))
}

/// Returns the number of places that the snapshot replaces of which a frame carries a piece, if it carries one.
fn snapshot_in<A: Allocator + Copy>(frame: &Option<Frame<A>>) -> Option<u64> {
    match frame {
        Some(Frame::Message(message)) => snapshot_of(message),
        _ => None,
    }
}

/// Returns the number of places that the snapshot replaces of which a message carries a piece, directly or in a
/// Wrapped.
fn snapshot_of<A: Allocator + Copy>(message: &Message<A>) -> Option<u64> {
    match &message.payload {
        Payload::Snap(snap) => Some(snap.at),
        Payload::Wrapped(wrapped) => match &wrapped.payload {
            WrappedPayload::Snap(snap) => Some(snap.at),
            _ => None,
        },
        _ => None,
    }
}
