//! The copies that frames open: one for each receiver, ordered by the frame's number, then by receiver.
//!
//! Formats: Pump

ghost use Rattle.std.specs.Prelude.{◌≡◌, ◌+◌, true, false, IsTrue, slice_get};
ghost use Rattle.ring_base.specs.Processors.{nobody};
ghost use Rattle.ring_world.specs.OpenCopies.{frames_of, open_copies_from, IsReached, IsFirstCopyTaken};

use crate::World;
use ring_base::{Proc, ProcSet};
use ring_object::Object;

/// A copy of a frame on its way from its sender to one of its receivers, which may be the sender itself.
///
/// Formats: Pump
#[derive(Clone, Copy)]
pub struct OpenCopy {
    /// The frame's number, counted from 1 in the order of sending.
    pub frame: u64,
    /// The processor that sent the frame.
    pub sender: Proc,
    /// The processor to which this copy goes.
    pub receiver: Proc,
}

/// The set of open copies: some copies of one frame, and all copies of every later frame.
///
/// It needs no allocation.
///
/// Formats: Pump
#[derive(Clone, Copy)]
pub(crate) struct OpenCopies {
    /// The number of the frame that the set has reached, of which some copies are open, or 0 before the first frame.
    reached_frame: u64,
    sender: Proc,
    /// The receivers whose copies of that frame are open.
    open_receivers: ProcSet,
}

impl OpenCopies {
    /// Returns the set in which all copies of all frames are open.
    pub(crate) fn new() -> OpenCopies
        ensures { result ≡ record { reached_frame = 0; sender = 1; open_receivers = nobody } }
    {
        OpenCopies {
            reached_frame: 0,
            sender: Proc::new(1),
            open_receivers: ProcSet::new(),
        }
    }

    /// Returns the first open copy of the world's frames, or `None` if none is open.
    ///
    /// The set is unchanged.
    ///
    /// The world must have sent the frame that the set has reached.
    ///
    /// Formats: Pump
    pub(crate) fn first_open<O: Object>(&self, world: &World<O>) -> Option<OpenCopy>
        requires { IsReached self.now (frames_of O.sequential world.now) }
        ensures { result ≡ slice_get (open_copies_from self.now (frames_of O.sequential world.now)) 0 }
    {
        let mut open_copies = *self;
        open_copies.close_first_copy(world)
    }

    /// Closes the first open copy of the world's frames and returns it, or returns `None` if none is open.
    ///
    /// The world must have sent the frame that the set has reached. Frames without receivers are skipped.
    ///
    /// Formats: Pump
    pub(crate) fn close_first_copy<O: Object>(&mut self, world: &World<O>) -> Option<OpenCopy>
        requires { IsReached self.old (frames_of O.sequential world.now) }
        ensures takes { IsFirstCopyTaken (open_copies_from self.old (frames_of O.sequential world.now)) result (open_copies_from self.new (frames_of O.sequential world.now)) }
        ensures reached { IsReached self.new (frames_of O.sequential world.now) }
    {
        while self.open_receivers.is_empty() {
            if !self.advance_to_next_frame(world) {
                return None;
            }
        }
        let receiver = self.open_receivers.smallest()?;
        self.open_receivers = self
            .open_receivers
            .without_members(ProcSet::singleton(receiver));
        Some(OpenCopy {
            frame: self.reached_frame,
            sender: self.sender,
            receiver,
        })
    }

    /// Advances to the next frame.
    ///
    /// Returns false if there is none. No copy of the present frame may be open.
    fn advance_to_next_frame<O: Object>(&mut self, world: &World<O>) -> bool
        requires none { self.old.open_receivers ≡ nobody }
        requires reached { IsReached self.old (frames_of O.sequential world.now) }
        ensures same { open_copies_from self.new (frames_of O.sequential world.now) ≡ open_copies_from self.old (frames_of O.sequential world.now) }
        ensures reached { IsReached self.new (frames_of O.sequential world.now) }
        ensures next { result ≡ true → self.new.reached_frame ≡ self.old.reached_frame + 1 }
        ensures last { result ≡ false → IsFirstCopyTaken (open_copies_from self.old (frames_of O.sequential world.now)) None
            (open_copies_from self.new (frames_of O.sequential world.now)) }
    {
        let Some(number) = self.reached_frame.checked_add(1) else {
            return false;
        };
        match world.frame(number) {
            Some(sent) => {
                self.reached_frame = number;
                self.sender = sent.0;
                self.open_receivers = sent.1;
                true
            }
            None => false,
        }
    }
}
