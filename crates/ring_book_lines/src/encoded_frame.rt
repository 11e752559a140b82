//! Sent frames, stored as bytes with their receivers.
//!
//! Formats: Frames

ghost use Rattle.std.specs.Prelude.{◌≡◌, ◌+◌, ◌≤◌, ◌↔◌, IsTrue, IsSomeAnd, Some, length, OnOk, IfOk, IfErr};
ghost use Rattle.ring_base.specs.Processors.{has};
ghost use Rattle.ring_base.specs.declared.fault.Fault.TheVariants.{Memory};
ghost use Rattle.ring_wire.specs.Frames.{FrameFits, encoding_of};
ghost use Rattle.ring_book_lines.specs.Lines.{frame_for};
ghost use Rattle.ring_base.specs.Numbers.{max_frame_bytes};

use crate::ghost_models::{FrameModel, frame_model};
use bytes::BytesMut;
use ring_base::{Fault, Ghost, Proc, ProcSet};
use ring_codec::Encode;
use ring_wire::Frame;
use std::alloc::{Allocator, Global};
use std::marker::Model;

/// A sent frame, stored as its encoding of at most 8,192 bytes, with its receivers.
///
/// Contracts see the frame.
///
/// Rules: The book and the threads 9
/// Formats: Frames
#[derive(Drop)]
pub struct EncodedFrame<A: Allocator + Copy + Drop = Global> {
    receivers: ProcSet,
    bytes: Vec<u8, A>,
    frame: Ghost<FrameModel<A>>,
}

impl<A: Allocator + Copy + Drop> Model for EncodedFrame<A> {
    ghost use Rattle.std.specs.Prelude.{◌≡◌};
    ghost use Rattle.ring_core_spec.specs.State.{OutgoingFrame};
    ghost use Rattle.ring_wire.specs.Frames.{FrameFits, encoding_of};

    ghost Value = { OutgoingFrame A };

    ghost view = { λ s. record { to = s.receivers; frame = s.frame.value } };

    ghost invariant = { λ s. FrameFits s.frame.value × (s.bytes.items ≡ encoding_of s.frame.value) };
}

/// Returns a copy of the bytes.
///
/// Errors: `Memory` if an allocation fails.
fn copied_encoding<A: Allocator + Copy + Drop>(alloc: A, text: &[u8]) -> Result<Vec<u8, A>, Fault>
    ensures ok { IfOk result (λ bytes. bytes.items ≡ text.now) }
    ensures refused { IfErr result (λ fault. fault ≡ Memory) }
{
    let mut bytes = Vec::with_capacity(alloc, text.len())?;
    bytes.extend_from_slice(text)?;
    Ok(bytes)
}

/// Replaces the contents of `text` with the frame's encoding.
///
/// The frame must be within the limits of its format, and `text` must have a capacity of at least 8,192 bytes. Does not
/// allocate.
///
/// Formats: Frames
pub(crate) fn encode_into<A: Allocator + Copy + Drop>(frame: &Frame<A>, text: &mut BytesMut<A>)
    requires fits { FrameFits frame.now }
    requires room { max_frame_bytes ≤ length text.old.items + text.old.spare }
    ensures text { text.new.items ≡ encoding_of frame.now }
    ensures room { max_frame_bytes ≤ length text.new.items + text.new.spare }
{
    text.clear();
    frame.write(text);
}

/// Returns whether the two are equal, byte by byte.
pub(crate) fn are_equal_bytes(text: &[u8], bytes: &[u8]) -> bool
    ensures { IsTrue result ↔ (text.now ≡ bytes.now) }
{
    text == bytes
}

impl<A: Allocator + Copy + Drop> EncodedFrame<A> {
    /// Encodes and stores a frame that was sent to `receivers`.
    ///
    /// The frame must be within the limits of its format. `text` is a scratch buffer that must have a capacity of at
    /// least 8,192 bytes; its contents are unspecified afterwards.
    ///
    /// Errors: `Memory` if an allocation fails.
    ///
    /// Rules: The book and the threads 9
    /// Formats: Frames
    pub fn encode(
        alloc: A,
        receivers: ProcSet,
        frame: &Frame<A>,
        text: &mut BytesMut<A>,
    ) -> Result<EncodedFrame<A>, Fault>
        requires fits { FrameFits frame.now }
        requires room { max_frame_bytes ≤ length text.old.items + text.old.spare }
        ensures ok { IfOk result (λ encoded. encoded ≡ record { to = receivers; frame = frame.now }) }
        ensures room { max_frame_bytes ≤ length text.new.items + text.new.spare }
        ensures refused { IfErr result (λ fault. fault ≡ Memory) }
    {
        encode_into(frame, text);
        Ok(EncodedFrame {
            receivers,
            bytes: copied_encoding(alloc, text.as_slice())?,
            frame: frame_model(frame),
        })
    }

    /// Returns the processors to which the frame was sent.
    ///
    /// The sender may be one of them. Does not allocate.
    ///
    /// Rules: The book and the threads 9
    pub fn receivers(&self) -> ProcSet
        ensures { result ≡ self.now.to }
    {
        self.receivers
    }

    /// Returns the frame's encoding, which has at most 8,192 bytes.
    ///
    /// Does not allocate.
    ///
    /// Formats: Frames
    pub fn bytes(&self) -> &[u8]
        ensures { result.now ≡ encoding_of self.now.frame }
    {
        self.bytes.as_slice()
    }

    /// Returns whether `node` is one of the frame's receivers.
    ///
    /// Does not allocate.
    ///
    /// Rules: The book and the threads 9
    pub fn is_receiver(&self, node: Proc) -> bool
        ensures { result ≡ has self.now.to node }
    {
        self.receivers.contains(node)
    }

    /// Returns whether the frame's encoding is exactly `bytes`.
    ///
    /// Does not allocate.
    ///
    /// Formats: Frames
    pub fn has_bytes(&self, bytes: &[u8]) -> bool
        ensures { IsTrue result ↔ (encoding_of self.now.frame ≡ bytes.now) }
    {
        are_equal_bytes(self.bytes.as_slice(), bytes)
    }

    /// Returns whether the stored frame equals `frame`.
    ///
    /// Compares their encodings, which no two frames share.
    ///
    /// `frame` must be within the limits of its format. `text` is a scratch buffer that must have a capacity of at
    /// least 8,192 bytes; its contents are unspecified afterwards. Does not allocate.
    ///
    /// Formats: Frames
    pub fn is_frame(&self, frame: &Frame<A>, text: &mut BytesMut<A>) -> bool
        requires fits { FrameFits frame.now }
        requires room { max_frame_bytes ≤ length text.old.items + text.old.spare }
        ensures same { IsTrue result ↔ (self.now.frame ≡ frame.now) }
        ensures room { max_frame_bytes ≤ length text.new.items + text.new.spare }
    {
        encode_into(frame, text);
        are_equal_bytes(self.bytes.as_slice(), text.as_slice())
    }

    /// Returns whether the stored frame equals `frame` and was sent to `node`.
    ///
    /// `frame` must be within the limits of its format. `text` is a scratch buffer that must have a capacity of at
    /// least 8,192 bytes; its contents are unspecified afterwards. Does not allocate.
    ///
    /// Rules: The book and the threads 11 and 16
    /// Formats: Frames
    pub fn is_frame_for(&self, node: Proc, frame: &Frame<A>, text: &mut BytesMut<A>) -> bool
        requires fits { FrameFits frame.now }
        requires room { max_frame_bytes ≤ length text.old.items + text.old.spare }
        ensures found { IsTrue result ↔ (frame_for node self.now ≡ Some frame.now) }
        ensures room { max_frame_bytes ≤ length text.new.items + text.new.spare }
    {
        self.is_receiver(node) && self.is_frame(frame, text)
    }

    /// Returns whether the frame was sent to `node` and its encoding is exactly `bytes`.
    ///
    /// Does not allocate.
    ///
    /// Rules: The book and the threads 15
    /// Formats: Frames
    pub fn is_for_with_bytes(&self, node: Proc, bytes: &[u8]) -> bool
        ensures { IsTrue result ↔ IsSomeAnd (frame_for node self.now) (λ f. encoding_of f ≡ bytes.now) }
    {
        self.is_receiver(node) && self.has_bytes(bytes)
    }
}
