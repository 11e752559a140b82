//! Frames that a core sends.
//!
//! Rules: Outputs 2

ghost use Rattle.std.specs.Prelude.{◌≡◌};

use ring_base::ProcSet;
use ring_token::Frame;
use std::alloc::{AllocError, Allocator, Global};
use std::marker::Model;

/// A frame that a core sends, with the set of its receivers.
///
/// Rules: Outputs 2
#[derive(Drop)]
pub struct OutgoingFrame<A: Allocator + Copy = Global> {
    /// The receivers. If there are none, the frame isn't sent: it is neither an output nor numbered.
    pub to: ProcSet,
    /// The frame to send.
    pub frame: Frame<A>,
}

impl<A: Allocator + Copy> Model for OutgoingFrame<A> {
    ghost use Rattle.ring_core_spec.specs.State.{OutgoingFrame as ToldSent};

    ghost Value = { ToldSent A };

    ghost view = { λ sent. record { to = sent.to; frame = sent.frame } };
}

impl<A: Allocator + Copy> Clone for OutgoingFrame<A> {
    ghost is_clone = { λ sent copy. copy ≡ sent };

    fn clone(&self) -> Result<OutgoingFrame<A>, AllocError> {
        Ok(OutgoingFrame {
            to: self.to,
            frame: self.frame.clone()?,
        })
    }
}
