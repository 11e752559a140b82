//! All frames ever sent, stored as bytes.
//!
//! Rules: The book and the threads 3 and 4
//! Formats: Frames

ghost use Rattle.std.specs.Prelude.{◌≡◌, ℕ, ◌+◌, ◌≤◌, true, [], ◌∷◌, ◌++◌, length, slice_range, option_map, is_some, OnOk, IfOk, IfErr, MatchResult, Some};
ghost use Rattle.ring_base.specs.declared.fault.Fault.TheVariants.{Memory};
ghost use Rattle.ring_wire.specs.declared.frame.Frame.{Frame as OneFrame};
ghost use Rattle.ring_wire.specs.Frames.{FrameFits};
ghost use Rattle.ring_wire.specs.IsFrameEncoding.{IsFrameEncoding};
ghost use Rattle.ring_core_spec.specs.State.{Transmission, frame_at, frame_for};
ghost use Rattle.ring_world.specs.StoredFramesView.{HasRoom, position_at, position_for, text_of};

use bytes::BytesMut;
use ring_base::{Fault, Ghost, MAX_FRAME_BYTES, Proc, ProcSet, ghost_of, ghost_step};
use ring_codec::Encode;
use ring_wire::{Frame, encoding_law, frame_length_law, unique_encoding_law};
use std::alloc::{AllocError, Allocator, Global};
use std::marker::{Model, PhantomData};

/// The maximum number of frames that one step sends.
///
/// Rules: Limits 1
const MAX_STEP_FRAMES: usize = 64;

/// All frames ever sent, as contracts see them.
///
/// No value of this type exists at run time.
pub(crate) struct SentFrames<A: Allocator + Copy = Global> {
    allocator: PhantomData<A>,
}

impl<A: Allocator + Copy> Model for SentFrames<A> {
    ghost use Rattle.std.specs.Prelude.{List, []};
    ghost use Rattle.ring_core_spec.specs.State.{Transmission};

    ghost Value = { List (Transmission A) };

    ghost view = { λ _. [] };
}

/// The position of a frame's bytes in the buffer of all frames, with the frame's sender and receivers.
#[derive(Clone, Copy)]
pub(crate) struct FramePosition {
    /// The index of the frame's first byte, counted from 0.
    pub(crate) start: usize,
    /// The index after the frame's last byte.
    pub(crate) end: usize,
    /// The processor that sent the frame.
    pub(crate) sender: Proc,
    /// The processors to which the frame was sent.
    pub(crate) to: ProcSet,
}

/// All frames ever sent, numbered from 1: their encodings one after another, and the position of each.
///
/// Contracts see the frames with their senders and receivers, and the room that is left.
///
/// Rules: The book and the threads 3
/// Formats: Frames
#[derive(Drop)]
pub(crate) struct FrameStore<A: Allocator + Copy = Global> {
    bytes: BytesMut<A>,
    positions: Vec<FramePosition, A>,
    history: Ghost<SentFrames<A>>,
}

impl<A: Allocator + Copy> Model for FrameStore<A> {
    ghost use Rattle.std.specs.Prelude.{◌-◌, vec_len, vec_capacity};
    ghost use Rattle.ring_world.specs.StoredFramesView.{StoredFramesView, AreFrames};

    ghost Value = { StoredFramesView A };

    ghost view = { λ f. record { frames = f.history.value; places = vec_capacity f.positions - vec_len f.positions; bytes = f.bytes.spare } };

    ghost invariant = { λ f. AreFrames f.history.value f.bytes.items f.positions.items };
}

impl<A: Allocator + Copy> FrameStore<A> {
    /// Returns a store without frames.
    ///
    /// Does not allocate.
    pub(crate) fn new(alloc: A) -> FrameStore<A>
        ensures { result.frames ≡ [] }
    {
        FrameStore {
            bytes: BytesMut::new(alloc),
            positions: Vec::new(alloc),
            history: no_sent_frames(&alloc),
        }
    }

    /// Returns whether there is room for the frames of one step: 64, each of at most 8,192 bytes.
    pub(crate) fn has_room(&self) -> bool
        ensures { result ≡ true → HasRoom 64 self.now }
    {
        self.positions.capacity() - self.positions.len() >= MAX_STEP_FRAMES
            && self.bytes.capacity() - self.bytes.len() >= MAX_STEP_FRAMES * MAX_FRAME_BYTES
    }

    /// Makes room for the frames of one step: 64, each of at most 8,192 bytes.
    ///
    /// New capacity is cleared, so no more than this is requested. The byte buffer doubles by itself.
    ///
    /// Errors: `Memory` if an allocation fails; the frames are unchanged.
    pub(crate) fn make_room(&mut self) -> Result<(), Fault>
        ensures frames { self.new.frames ≡ self.old.frames }
        ensures room { OnOk result (HasRoom 64 self.new) }
        ensures refused { IfErr result (λ fault. fault ≡ Memory) }
    {
        if self.has_room() {
            return Ok(());
        }
        self.positions.reserve(MAX_STEP_FRAMES)?;
        self.bytes.reserve(MAX_STEP_FRAMES * MAX_FRAME_BYTES)?;
        Ok(())
    }

    /// Appends a frame, under the next number, with its sender and its receivers.
    ///
    /// The frame must be within the limits of its format, and there must be room for it. Does not allocate.
    ///
    /// Rules: The book and the threads 3
    pub(crate) fn append_frame(&mut self, from: Proc, to: ProcSet, frame: &Frame<A>)
        requires fits { FrameFits frame.now }
        requires room { HasRoom 1 self.old }
        ensures frames { self.new.frames ≡ self.old.frames ++ record { from = from; to = to; frame = frame.now } ∷ [] }
        ensures room { (many : ℕ) → HasRoom (many + 1) self.old → HasRoom many self.new }
    {
        // Laws: no effect at run time. The proof takes from them that a frame has an encoding, of at most 8,192 bytes.
        encoding_law::<A>();
        frame_length_law::<A>();
        let start = self.bytes.len();
        self.history = sent_frame_added(&self.history, from, to, frame);
        frame.write(&mut self.bytes);
        let end = self.bytes.len();
        self.positions.push_reserved(FramePosition {
            start,
            end,
            sender: from,
            to,
        });
    }

    /// Decodes frame `number` into `place` if it was sent to `node`, and returns whether it was.
    ///
    /// Frames are numbered from 1. Returns false for a number that no frame has. The frame that was in `place` is
    /// overwritten.
    ///
    /// Errors: only `Memory`, if an allocation fails; the contents of `place` are then unspecified.
    ///
    /// Rules: The book and the threads 3 and 4
    pub(crate) fn decode_if_sent_to(
        &self,
        alloc: A,
        node: Proc,
        number: u64,
        place: &mut Option<Frame<A>>,
    ) -> Result<bool, Fault>
        ensures is { IfOk result (λ is. is ≡ is_some (frame_for node (frame_at self.now.frames number))) }
        ensures placed { IfOk result (λ is. is ≡ true → place.new ≡ frame_for node (frame_at self.now.frames number)) }
        ensures refused { IfErr result (λ fault. fault ≡ Memory) }
    {
        // A law: no effect at run time. The proof takes from it that bytes that encode a frame are its only encoding.
        encoding_law::<A>();
        match position_for(position_at(&self.positions, number), node) {
            Some(frame_position) => {
                decode(alloc, self.bytes.as_slice(), frame_position, place)?;
                Ok(true)
            }
            None => Ok(false),
        }
    }

    /// Returns the encodings of all frames, one after another, in the order sent.
    ///
    /// Formats: Frames
    pub(crate) fn all_encodings(&self) -> &[u8]
        ensures { result.now ≡ text_of self.now.frames }
    {
        self.bytes.as_slice()
    }

    /// Returns the sender and the receivers of frame `number`, or `None` if no frame has this number.
    ///
    /// Frames are numbered from 1.
    ///
    /// Rules: The book and the threads 3 and 8
    pub(crate) fn sender_and_receivers(&self, number: u64) -> Option<(Proc, ProcSet)>
        ensures { result ≡ option_map (λ (f : Transmission A). (f.from, f.to)) (frame_at self.now.frames number) }
    {
        match position_at(&self.positions, number) {
            Some(frame_position) => Some((frame_position.sender, frame_position.to)),
            None => None,
        }
    }
}

/// A clone has the same frames.
impl<A: Allocator + Copy> Clone for FrameStore<A> {
    ghost is_clone = { λ frames copy. copy.frames ≡ frames.frames };

    fn clone(&self) -> Result<FrameStore<A>, AllocError> {
        Ok(FrameStore {
            history: self.history.clone()?,
            positions: self.positions.clone()?,
            bytes: self.bytes.clone()?,
        })
    }
}

/// Returns the position of frame `number`, counted from 1, or `None` if no frame has this number.
fn position_at(positions: &[FramePosition], number: u64) -> Option<FramePosition>
    ensures { result ≡ position_at positions.now number }
{
    if number < 1 {
        return None;
    }
    positions.get((number - 1) as usize).copied()
}

/// Returns the position if its frame was sent to `node`.
fn position_for(frame_position: Option<FramePosition>, node: Proc) -> Option<FramePosition>
    ensures { result ≡ position_for node frame_position }
{
    match frame_position {
        Some(frame_position) => {
            if frame_position.to.contains(node) {
                Some(frame_position)
            } else {
                None
            }
        }
        None => None,
    }
}

/// Decodes the frame at this position into `place`.
///
/// Errors: only `Memory`, if the bytes there encode a frame.
fn decode<A: Allocator + Copy>(
    alloc: A,
    bytes: &[u8],
    frame_position: FramePosition,
    place: &mut Option<Frame<A>>,
) -> Result<(), Fault>
    requires order { frame_position.start ≤ frame_position.end }
    requires within { frame_position.end ≤ length bytes.now }
    ensures { (frame : OneFrame A) → IsFrameEncoding frame (slice_range bytes.now frame_position.start frame_position.end) →
        MatchResult result (λ done. place.new ≡ Some frame) (λ fault. fault ≡ Memory) }
{
    // Laws: no effect at run time. The proof takes from them that bytes encode at most one frame, and that a frame has
    // only one encoding.
    encoding_law::<A>();
    unique_encoding_law::<A>();
    Frame::<A>::decode_first_frame_into(
        alloc,
        &bytes[frame_position.start..frame_position.end],
        place,
    )?;
    Ok(())
}

/// Returns the ghost list of no frames.
fn no_sent_frames<A: Allocator + Copy>(alloc: &A) -> Ghost<SentFrames<A>>
    ensures { result.value ≡ [] }
{
    ghost_of(alloc)
}

/// Returns the ghost list with one more frame.
fn sent_frame_added<A: Allocator + Copy>(
    history: &Ghost<SentFrames<A>>,
    from: Proc,
    to: ProcSet,
    frame: &Frame<A>,
) -> Ghost<SentFrames<A>>
    ensures { result.value ≡ history.now.value ++ record { from = from; to = to; frame = frame.now } ∷ [] }
{
    ghost_step(history, &(from, to, frame))
}
