//! Frames whose type keeps them within the limits of their format.
//!
//! Formats: Frames, What is no frame

ghost use Rattle.std.specs.Prelude.{◌≡◌, ◌++◌, IfOk, IfErr, OnOk, OnErr};
ghost use Rattle.ring_base.specs.declared.fault.Fault.TheVariants.{Memory, BadFrame};
ghost use Rattle.ring_wire.specs.declared.frame.Frame.{Frame as OneFrame};
ghost use Rattle.ring_wire.specs.Frames.{encoding_of};
ghost use Rattle.ring_wire.specs.Prefixes.{IsReadFault};
ghost use Rattle.ring_wire.specs.IsFrameEncoding.{IsFrameEncoding};

use bytes::BytesMut;
use ring_base::Fault;
use ring_wire::{Frame, Wire, decode_frame};
use std::alloc::{Allocator, Global};
use std::marker::Model;

/// A frame that is within the limits of its format, so that it has an encoding and a node may receive it.
///
/// Contracts see the frame.
///
/// Rules: Limits 1
/// Formats: Frames
#[derive(Drop)]
pub struct ValidFrame<A: Allocator + Copy = Global> {
    frame: Frame<A>,
}

impl<A: Allocator + Copy> Model for ValidFrame<A> {
    ghost use Rattle.ring_wire.specs.Frames.{FrameFits};
    ghost use Rattle.ring_wire.specs.declared.frame.Frame.{Frame as OneFrame};

    ghost Value = { OneFrame A };

    ghost view = { λ valid_frame. valid_frame.frame };

    ghost invariant = { λ valid_frame. FrameFits valid_frame.frame };
}

impl<A: Allocator + Copy> ValidFrame<A> {
    ghost use Rattle.ring_wire.specs.Frames.{FrameFits};

    /// Wraps a frame without a check.
    ///
    /// It must be within the limits of its format.
    pub(crate) fn from_valid(frame: Frame<A>) -> ValidFrame<A>
        requires { FrameFits frame }
        ensures { result ≡ frame }
    {
        ValidFrame { frame }
    }

    /// Decodes the frame that `bytes` encode as a whole.
    ///
    /// Errors: `BadFrame` only if the bytes don't encode a frame, including when some are left over. `Memory` if an
    /// allocation fails, even if the bytes don't encode a frame.
    ///
    /// Formats: Frames, What is no frame
    pub fn read(alloc: A, bytes: &[u8]) -> Result<ValidFrame<A>, Fault>
        ensures found { IfOk result (λ valid_frame. IsFrameEncoding valid_frame bytes.now) }
        ensures bad { IfErr result (λ fault. fault ≡ BadFrame → (frame : OneFrame A) → ¬ IsFrameEncoding frame bytes.now) }
        ensures faults { IfErr result IsReadFault }
    {
        let frame = decode_frame(alloc, bytes)?;
        Ok(ValidFrame { frame })
    }

    /// Appends the frame's encoding, at most 8,192 bytes, to `out`.
    ///
    /// Errors: `Memory` if an allocation fails; nothing is then appended.
    ///
    /// Formats: Frames
    pub fn put(&self, out: &mut BytesMut<A>) -> Result<(), Fault>
        ensures ok { OnOk result (out.new.items ≡ out.old.items ++ encoding_of self.now) }
        ensures err { OnErr result (out.new.items ≡ out.old.items) }
        ensures memory { IfErr result (λ fault. fault ≡ Memory) }
    {
        self.frame.put(out)
    }

    /// Returns the frame's encoding, at most 8,192 bytes, in a new buffer.
    ///
    /// Errors: `Memory` if an allocation fails.
    ///
    /// Formats: Frames
    pub fn bytes(&self, alloc: A) -> Result<BytesMut<A>, Fault>
        ensures ok { IfOk result (λ bytes. bytes.items ≡ encoding_of self.now) }
        ensures memory { IfErr result (λ fault. fault ≡ Memory) }
    {
        let mut out = BytesMut::new(alloc);
        self.put(&mut out)?;
        Ok(out)
    }

    /// Returns the frame, so that its fields can be read.
    ///
    /// It is within the limits of its format.
    ///
    /// Formats: Frames
    pub fn frame(&self) -> &Frame<A>
        ensures value { result.now ≡ self.now }
        ensures fits { FrameFits result.now }
    {
        &self.frame
    }

    /// Returns the frame itself, for a node to receive.
    ///
    /// It is within the limits of its format.
    pub(crate) fn into_frame(self) -> Frame<A>
        ensures value { result ≡ self }
        ensures fits { FrameFits result }
    {
        self.frame
    }
}
