//! The frames of a line: storing, comparing and encoding them.
//!
//! Rules: The book and the threads 9, 11 and 15
//! Formats: Frames

ghost use Rattle.std.specs.Prelude.{◌≡◌, ◌+◌, ◌≤◌, ◌↔◌, [], Some, IsTrue, IsSomeAnd, length, slice_get, IfOk, IfErr, IfSome, OnOk, OnErr, ◌++◌};
ghost use Rattle.std.specs.List.{AllByRecursion};
ghost use Rattle.std.specs.Option.{option_and_then, option_copied, option_map};
ghost use Rattle.ring_core_spec.specs.State.{OutgoingFrame as SentFrame};
ghost use Rattle.ring_base.specs.declared.fault.Fault.TheVariants.{Memory};
ghost use Rattle.ring_wire.specs.Frames.{FrameFits, encoding_of};
ghost use Rattle.ring_book_lines.specs.Lines.{frame_for};
ghost use Rattle.ring_order_proof.specs.Limits.{SentFits};
ghost use Rattle.ring_book_lines.specs.AppendedFrames.{IsPut};
ghost use Rattle.ring_base.specs.Numbers.{max_frame_bytes};

use crate::encoded_frame::{EncodedFrame, are_equal_bytes, encode_into};
use crate::received_frame::ReceivedFrame;
use bytes::BytesMut;
use ring_base::{Fault, Proc, ProcSet};
use ring_core_spec::OutgoingFrame;
use ring_wire::{Frame, Wire};
use std::alloc::{Allocator, Global};
use std::marker::Model;

/// The frames of a line in the order of sending: as bytes, or as values if there was no memory for the bytes.
///
/// Rules: The book and the threads 9
#[derive(Drop)]
pub enum StoredFrames<A: Allocator + Copy + Drop = Global> {
    /// Each frame is stored as its encoding, with its receivers.
    Encoded(Vec<EncodedFrame<A>, A>),
    /// Each frame is stored as a value, with its receivers.
    Unencoded(Vec<OutgoingFrame<A>, A>),
}

/// The frames that a line's step sent, in the order of sending, with their receivers.
///
/// Each is within the limits of its format. Contracts see the frames.
///
/// Rules: The book and the threads 9 and 10
#[derive(Drop)]
pub struct LineFrames<A: Allocator + Copy + Drop = Global> {
    stored: StoredFrames<A>,
}

impl<A: Allocator + Copy + Drop> Model for LineFrames<A> {
    ghost use Rattle.std.specs.Prelude.{List};
    ghost use Rattle.std.specs.List.{AllByRecursion};
    ghost use Rattle.ring_core_spec.specs.State.{OutgoingFrame};
    ghost use Rattle.ring_book_lines.specs.StoredSteps.{sends_of};
    ghost use Rattle.ring_order_proof.specs.Limits.{SentFits};

    ghost Value = { List (OutgoingFrame A) };

    ghost view = { λ f. sends_of f.stored };

    ghost invariant = { λ f. AllByRecursion SentFits (sends_of f.stored) };
}

/// Encodes the frames.
///
/// `text` is a scratch buffer that must have a capacity of at least 8,192 bytes.
///
/// Errors: `Memory` if an allocation fails.
fn encode_all<A: Allocator + Copy + Drop>(
    alloc: A,
    sends: &[OutgoingFrame<A>],
    text: &mut BytesMut<A>,
) -> Result<Vec<EncodedFrame<A>, A>, Fault>
    requires fit { AllByRecursion SentFits sends.now }
    requires room { max_frame_bytes ≤ length text.old.items + text.old.spare }
    ensures ok { IfOk result (λ encoded. encoded.items ≡ sends.now) }
    ensures room { max_frame_bytes ≤ length text.new.items + text.new.spare }
    ensures refused { IfErr result (λ fault. fault ≡ Memory) }
{
    let mut encoded = Vec::with_capacity(alloc, sends.len())?;
    for sent in sends {
        encoded.push(EncodedFrame::encode(alloc, sent.to, &sent.frame, text)?)?;
    }
    Ok(encoded)
}

/// Returns whether `sent` is `frame` and was sent to `node`.
fn is_sent_frame<A: Allocator + Copy + Drop>(
    sent: &OutgoingFrame<A>,
    node: Proc,
    frame: &Frame<A>,
) -> bool
    ensures { IsTrue result ↔ (frame_for node sent.now ≡ Some frame.now) }
{
    sent.to.contains(node) && sent.frame.equals_frame(frame)
}

/// Returns whether `sent` was sent to `node` and its encoding is `bytes`.
///
/// `text` is a scratch buffer that must have a capacity of at least 8,192 bytes.
fn sent_has_bytes<A: Allocator + Copy + Drop>(
    sent: &OutgoingFrame<A>,
    node: Proc,
    bytes: &[u8],
    text: &mut BytesMut<A>,
) -> bool
    requires fits { FrameFits sent.now.frame }
    requires room { max_frame_bytes ≤ length text.old.items + text.old.spare }
    ensures found { IsTrue result ↔ IsSomeAnd (frame_for node sent.now) (λ f. encoding_of f ≡ bytes.now) }
    ensures room { max_frame_bytes ≤ length text.new.items + text.new.spare }
{
    if !sent.to.contains(node) {
        return false;
    }
    encode_into(&sent.frame, text);
    are_equal_bytes(text.as_slice(), bytes)
}

/// Returns the item at index `frame_index`, counted from 0, if there is one.
#[tactic(auto, using(ring_base::proofs::ListPlaces::item_copied))]
fn item_at<T>(items: &[T], frame_index: u16) -> Option<&T>
    ensures { option_copied result ≡ slice_get items.now frame_index }
{
    items.get(frame_index as usize)
}

/// Returns whether the frame at index `frame_index` is `frame` and was sent to `node`.
fn encoded_has_frame<A: Allocator + Copy + Drop>(
    encoded: &[EncodedFrame<A>],
    frame_index: u16,
    node: Proc,
    frame: &Frame<A>,
    text: &mut BytesMut<A>,
) -> bool
    requires fits { FrameFits frame.now }
    requires room { max_frame_bytes ≤ length text.old.items + text.old.spare }
    ensures found { IsTrue result ↔ (option_and_then (frame_for node) (slice_get encoded.now frame_index) ≡ Some frame.now) }
    ensures room { max_frame_bytes ≤ length text.new.items + text.new.spare }
{
    match item_at(encoded, frame_index) {
        Some(sent) => sent.is_frame_for(node, frame, text),
        None => false,
    }
}

/// Returns whether the frame at index `frame_index` is `frame` and was sent to `node`.
fn unencoded_has_frame<A: Allocator + Copy + Drop>(
    unencoded: &[OutgoingFrame<A>],
    frame_index: u16,
    node: Proc,
    frame: &Frame<A>,
) -> bool
    ensures { IsTrue result ↔ (option_and_then (frame_for node) (slice_get unencoded.now frame_index) ≡ Some frame.now) }
{
    match item_at(unencoded, frame_index) {
        Some(sent) => is_sent_frame(sent, node, frame),
        None => false,
    }
}

/// Returns whether the frame at index `frame_index` was sent to `node` and its encoding is `bytes`.
fn encoded_has_bytes<A: Allocator + Copy + Drop>(
    encoded: &[EncodedFrame<A>],
    frame_index: u16,
    node: Proc,
    bytes: &[u8],
) -> bool
    ensures { IsTrue result ↔ IsSomeAnd (option_and_then (frame_for node) (slice_get encoded.now frame_index)) (λ f. encoding_of f ≡ bytes.now) }
{
    match item_at(encoded, frame_index) {
        Some(sent) => sent.is_for_with_bytes(node, bytes),
        None => false,
    }
}

/// Returns whether the frame at index `frame_index` was sent to `node` and its encoding is `bytes`.
///
/// `text` is a scratch buffer that must have a capacity of at least 8,192 bytes.
fn unencoded_has_bytes<A: Allocator + Copy + Drop>(
    unencoded: &[OutgoingFrame<A>],
    frame_index: u16,
    node: Proc,
    bytes: &[u8],
    text: &mut BytesMut<A>,
) -> bool
    requires fit { AllByRecursion SentFits unencoded.now }
    requires room { max_frame_bytes ≤ length text.old.items + text.old.spare }
    ensures found { IsTrue result ↔ IsSomeAnd (option_and_then (frame_for node) (slice_get unencoded.now frame_index)) (λ f. encoding_of f ≡ bytes.now) }
    ensures room { max_frame_bytes ≤ length text.new.items + text.new.spare }
{
    match item_at(unencoded, frame_index) {
        Some(sent) => sent_has_bytes(sent, node, bytes, text),
        None => false,
    }
}

/// Returns the receivers of the frame at index `frame_index`, if there is one.
fn encoded_receivers<A: Allocator + Copy + Drop>(
    encoded: &[EncodedFrame<A>],
    frame_index: u16,
) -> Option<ProcSet>
    ensures { result ≡ option_map (λ (s : SentFrame A). s.to) (slice_get encoded.now frame_index) }
{
    match item_at(encoded, frame_index) {
        Some(sent) => Some(sent.receivers()),
        None => None,
    }
}

/// Returns the receivers of the frame at index `frame_index`, if there is one.
fn unencoded_receivers<A: Allocator + Copy + Drop>(
    unencoded: &[OutgoingFrame<A>],
    frame_index: u16,
) -> Option<ProcSet>
    ensures { result ≡ option_map (λ (s : SentFrame A). s.to) (slice_get unencoded.now frame_index) }
{
    match item_at(unencoded, frame_index) {
        Some(sent) => Some(sent.to),
        None => None,
    }
}

/// Appends the encoding of the frame at index `frame_index`.
///
/// Errors: `Stranger` if there is no such frame. Otherwise `Memory` if an allocation fails. Nothing is then appended.
fn put_encoded<A: Allocator + Copy + Drop>(
    encoded: &[EncodedFrame<A>],
    frame_index: u16,
    out: &mut BytesMut<A>,
) -> Result<(), Fault>
    ensures { IsPut (slice_get encoded.now frame_index) out.old.items out.new.items result }
{
    match item_at(encoded, frame_index) {
        Some(sent) => {
            out.extend_from_slice(sent.bytes())?;
            Ok(())
        }
        None => Err(Fault::Stranger),
    }
}

/// Appends the encoding of the frame at index `frame_index`.
///
/// Errors: `Stranger` if there is no such frame. Otherwise `Memory` if an allocation fails. Nothing is then appended.
fn put_unencoded<A: Allocator + Copy + Drop>(
    unencoded: &[OutgoingFrame<A>],
    frame_index: u16,
    out: &mut BytesMut<A>,
) -> Result<(), Fault>
    requires { AllByRecursion SentFits unencoded.now }
    ensures { IsPut (slice_get unencoded.now frame_index) out.old.items out.new.items result }
{
    match item_at(unencoded, frame_index) {
        Some(sent) => sent.frame.put(out),
        None => Err(Fault::Stranger),
    }
}

impl<A: Allocator + Copy + Drop> LineFrames<A> {
    /// Returns an empty list of frames, which is that of a submit or a stop.
    ///
    /// Does not allocate.
    ///
    /// Rules: The book and the threads 9
    pub fn without_frames(alloc: A) -> LineFrames<A>
        ensures { result ≡ [] }
    {
        LineFrames {
            stored: StoredFrames::Unencoded(Vec::new(alloc)),
        }
    }

    /// Stores the frames in order: as bytes, or as they are if an allocation for the bytes fails.
    ///
    /// So it can't fail. Each frame must be within the limits of its format. `text` is a scratch buffer that must have
    /// a capacity of at least 8,192 bytes; its contents are unspecified afterwards.
    ///
    /// Rules: The book and the threads 9
    /// Formats: Frames
    pub fn new(alloc: A, sends: Vec<OutgoingFrame<A>, A>, text: &mut BytesMut<A>) -> LineFrames<A>
        requires fit { AllByRecursion SentFits sends.items }
        requires room { max_frame_bytes ≤ length text.old.items + text.old.spare }
        ensures same { result ≡ sends.items }
        ensures room { max_frame_bytes ≤ length text.new.items + text.new.spare }
    {
        match encode_all(alloc, sends.as_slice(), text) {
            Ok(encoded) => LineFrames {
                stored: StoredFrames::Encoded(encoded),
            },
            Err(_) => LineFrames {
                stored: StoredFrames::Unencoded(sends),
            },
        }
    }

    /// Returns whether the frame at index `frame_index`, counted from 0, equals `frame` and was sent to `node`.
    ///
    /// Returns false if there is no such frame. `frame` must be within the limits of its format. `text` is a scratch
    /// buffer that must have a capacity of at least 8,192 bytes; its contents are unspecified afterwards. Does not
    /// allocate.
    ///
    /// Rules: The book and the threads 11
    pub fn has_frame_for(
        &self,
        frame_index: u16,
        node: Proc,
        frame: &Frame<A>,
        text: &mut BytesMut<A>,
    ) -> bool
        requires fits { FrameFits frame.now }
        requires room { max_frame_bytes ≤ length text.old.items + text.old.spare }
        ensures found { IsTrue result ↔ (option_and_then (frame_for node) (slice_get self.now frame_index) ≡ Some frame.now) }
        ensures room { max_frame_bytes ≤ length text.new.items + text.new.spare }
    {
        match &self.stored {
            StoredFrames::Encoded(encoded) => encoded_has_frame(
                encoded.as_slice(),
                frame_index,
                node,
                frame,
                text,
            ),
            StoredFrames::Unencoded(unencoded) => unencoded_has_frame(
                unencoded.as_slice(),
                frame_index,
                node,
                frame,
            ),
        }
    }

    /// Returns whether the frame at index `frame_index`, counted from 0, equals the received `frame` and was sent to
    /// `node`.
    ///
    /// Returns false if there is no such frame. `text` is a scratch buffer that must have a capacity of at least 8,192
    /// bytes; its contents are unspecified afterwards. Does not allocate.
    ///
    /// Rules: The book and the threads 11
    pub fn has_received_frame(
        &self,
        frame_index: u16,
        node: Proc,
        frame: &ReceivedFrame<A>,
        text: &mut BytesMut<A>,
    ) -> bool
        requires room { max_frame_bytes ≤ length text.old.items + text.old.spare }
        ensures found { IsTrue result ↔ (option_and_then (frame_for node) (slice_get self.now frame_index) ≡ Some frame.now) }
        ensures room { max_frame_bytes ≤ length text.new.items + text.new.spare }
    {
        // No effect at run time. The proof sees the invariant of `LineFrames` only where the body reads a field.
        let _kept = &self.stored;
        self.has_bytes(frame_index, node, frame.bytes(), text)
    }

    /// Returns whether the frame at index `frame_index`, counted from 0, was sent to `node` and its encoding is exactly
    /// `bytes`.
    ///
    /// Returns false if there is no such frame. `text` is a scratch buffer that must have a capacity of at least 8,192
    /// bytes; its contents are unspecified afterwards. Does not allocate.
    ///
    /// Rules: The book and the threads 15
    pub fn has_bytes(
        &self,
        frame_index: u16,
        node: Proc,
        bytes: &[u8],
        text: &mut BytesMut<A>,
    ) -> bool
        requires room { max_frame_bytes ≤ length text.old.items + text.old.spare }
        ensures found { IsTrue result ↔ IsSomeAnd (option_and_then (frame_for node) (slice_get self.now frame_index)) (λ f. encoding_of f ≡ bytes.now) }
        ensures room { max_frame_bytes ≤ length text.new.items + text.new.spare }
    {
        match &self.stored {
            StoredFrames::Encoded(encoded) => encoded_has_bytes(
                encoded.as_slice(),
                frame_index,
                node,
                bytes,
            ),
            StoredFrames::Unencoded(unencoded) => unencoded_has_bytes(
                unencoded.as_slice(),
                frame_index,
                node,
                bytes,
                text,
            ),
        }
    }

    /// Returns the receivers of the frame at index `frame_index`, counted from 0, or `None` if there is no such frame.
    ///
    /// Does not allocate.
    ///
    /// Rules: The book and the threads 9
    pub fn receivers(&self, frame_index: u16) -> Option<ProcSet>
        ensures { result ≡ option_map (λ (s : SentFrame A). s.to) (slice_get self.now frame_index) }
    {
        match &self.stored {
            StoredFrames::Encoded(encoded) => encoded_receivers(encoded.as_slice(), frame_index),
            StoredFrames::Unencoded(unencoded) => unencoded_receivers(
                unencoded.as_slice(),
                frame_index,
            ),
        }
    }

    /// Appends the encoding of the frame at index `frame_index`, counted from 0, to `out`: at most 8,192 bytes.
    ///
    /// Errors: `Stranger` if there is no such frame. Otherwise `Memory` if an allocation fails. Nothing is then
    /// appended.
    ///
    /// Rules: The book and the threads 15; Refusals 2
    /// Formats: Frames
    pub fn append_encoding(&self, frame_index: u16, out: &mut BytesMut<A>) -> Result<(), Fault>
        ensures { IsPut (slice_get self.now frame_index) out.old.items out.new.items result }
    {
        match &self.stored {
            StoredFrames::Encoded(encoded) => put_encoded(encoded.as_slice(), frame_index, out),
            StoredFrames::Unencoded(unencoded) => put_unencoded(
                unencoded.as_slice(),
                frame_index,
                out,
            ),
        }
    }

    /// Returns the number of frames that the line's step sent.
    ///
    /// A frame to several receivers counts once. Does not allocate.
    ///
    /// Rules: The book and the threads 9
    pub fn len(&self) -> usize
        ensures { result ≡ length self.now }
    {
        match &self.stored {
            StoredFrames::Encoded(encoded) => encoded.len(),
            StoredFrames::Unencoded(unencoded) => unencoded.len(),
        }
    }
}
