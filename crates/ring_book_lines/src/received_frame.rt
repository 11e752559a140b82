//! Received frames, stored as bytes.
//!
//! Formats: Frames

ghost use Rattle.std.specs.Prelude.{◌≡◌};
ghost use Rattle.ring_wire.specs.Frames.{FrameFits, encoding_of};

use crate::ghost_models::{FrameModel, frame_model};
use ring_base::Ghost;
use ring_wire::Frame;
use std::alloc::{Allocator, Global};
use std::marker::Model;

/// A frame that a node received, stored as its encoding of at most 8,192 bytes.
///
/// Contracts see the frame.
///
/// Rules: The book and the threads 13
/// Formats: Frames
#[derive(Drop)]
pub struct ReceivedFrame<A: Allocator + Copy + Drop = Global> {
    bytes: Vec<u8, A>,
    frame: Ghost<FrameModel<A>>,
}

impl<A: Allocator + Copy + Drop> Model for ReceivedFrame<A> {
    ghost use Rattle.std.specs.Prelude.{◌≡◌};
    ghost use Rattle.ring_wire.specs.declared.frame.Frame.{Frame};
    ghost use Rattle.ring_wire.specs.Frames.{FrameFits, encoding_of};

    ghost Value = { Frame A };

    ghost view = { λ h. h.frame.value };

    ghost invariant = { λ h. FrameFits h.frame.value × (h.bytes.items ≡ encoding_of h.frame.value) };
}

impl<A: Allocator + Copy + Drop> ReceivedFrame<A> {
    /// Stores `frame` as `bytes`, which must be its encoding.
    ///
    /// The frame must be within the limits of its format. Does not allocate: the bytes are moved.
    ///
    /// Formats: Frames
    pub fn new(frame: &Frame<A>, bytes: Vec<u8, A>) -> ReceivedFrame<A>
        requires fits { FrameFits frame.now }
        requires bytes { bytes.items ≡ encoding_of frame.now }
        ensures { result ≡ frame.now }
    {
        ReceivedFrame {
            bytes,
            frame: frame_model(frame),
        }
    }

    /// Returns the frame's encoding, which has at most 8,192 bytes.
    ///
    /// Does not allocate.
    ///
    /// Formats: Frames
    pub fn bytes(&self) -> &[u8]
        ensures bytes { result.now ≡ encoding_of self.now }
        ensures fits { FrameFits self.now }
    {
        self.bytes.as_slice()
    }
}
