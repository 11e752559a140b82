//! Joins.
//!
//! Rules: Gather 2
//! Formats: Frames

ghost use Rattle.std.specs.Prelude.{◌≡◌, ℕ, ◌+◌, ◌^◌, ◌<◌, ◌≤◌, List, [], ◌∷◌, ◌++◌, length};
ghost use Rattle.ring_payload.specs.Codecs.{Appends, IsReadResult};

use bytes::BytesMut;
use ring_payload::{Decode, Encode, Fault, MAX, Proc, ProcSet, Reader};
use std::alloc::Allocator;

/// `Join`: a membership proposal: the processors with which its sender would form a ring.
///
/// Rules: Gather 2
/// Formats: Frames
#[derive(Clone, Copy, Debug, PartialEq, Eq)]
pub struct Join {
    /// The processor that sends the join: a member of `proc_set` and not of `fail_set`.
    pub sender: Proc,
    /// The sender's floor: the greatest number of a ring in which the sender has taken part, at most `MAX`.
    pub number: u64,
    /// The processors that the sender considers for the ring, including itself.
    pub proc_set: ProcSet,
    /// The processors of `proc_set` that the sender has given up.
    pub fail_set: ProcSet,
}

impl Join {
    ghost use Rattle.ring_wire.specs.Joins.{join_test};

    /// Returns whether the fields are within the limits of their format.
    fn is_valid_join(&self) -> bool
        ensures { result ≡ join_test self.now }
    {
        self.number <= MAX
            && self.proc_set.contains(self.sender)
            && self.fail_set.is_subset(self.proc_set)
            && !self.fail_set.contains(self.sender)
    }
}

impl Encode for Join {
    ghost use Rattle.ring_wire.specs.Joins.{join_encoding, JoinFits, join_at, join_format};

    ghost encoding = { join_encoding };

    ghost max_encoded_len = { 13 };

    ghost is_within_limits = { JoinFits };

    ghost decoding_at_front = { join_at };

    ghost decoding_is_exact = { join_format };

    fn encoded_len(&self) -> usize {
        13
    }

    fn write<B: Allocator + Copy>(&self, out: &mut BytesMut<B>) {
        self.sender.write(out);
        self.number.write(out);
        self.proc_set.write(out);
        self.fail_set.write(out);
    }
}

impl<A: Allocator + Copy> Decode<A> for Join {
    #[tactic(auto, unfolding(crate::specs::Joins::join_at))]
    fn read(alloc: A, from: &mut Reader<'_>) -> Result<Join, Fault> {
        let join = Join {
            sender: Decode::read(alloc, from)?,
            number: Decode::read(alloc, from)?,
            proc_set: Decode::read(alloc, from)?,
            fail_set: Decode::read(alloc, from)?,
        };
        if !join.is_valid_join() {
            return Err(Fault::BadFrame);
        }
        Ok(join)
    }
}
