//! Heads of logs: a member's summary of its log, which it sends at the beginning of an exchange.
//!
//! Rules: The replicated log 2
//! Formats: Payloads

ghost use Rattle.std.specs.Prelude.{◌≡◌, ℕ, ◌+◌, ◌^◌, ◌<◌, ◌≤◌, List, [], ◌∷◌, ◌++◌, length};
ghost use Rattle.ring_codec.specs.Reading.{Appends, IsReadResult};

use crate::frame_versions::{FIRST_VERSION, TRIM_VERSION};
use crate::payload_tags;
use bytes::BytesMut;
use ring_codec::{Decode, Encode, Fault, MAX, Reader, RingId};
use std::alloc::Allocator;

/// `Head`: a member's summary of its log, where `trimmed` <= `committed` <= `length` <= `MAX`.
///
/// All three are 0 for a member without a last primary. They count places from the beginning of the log, including
/// dropped places.
///
/// Rules: The replicated log 1 and 2
/// Formats: Payloads
#[derive(Clone, Copy, Debug, PartialEq, Eq)]
pub struct Head {
    /// The member's last primary: the newest primary ring that it has adopted, or `None` if it has adopted none.
    pub last: Option<RingId>,
    /// The length of the log in places, including dropped places.
    pub length: u64,
    /// The number of committed places, which are always the first places of the log.
    pub committed: u64,
    /// The number of places that the member has dropped from the beginning of the log.
    pub trimmed: u64,
}

impl Head {
    ghost use Rattle.ring_payload.specs.Heads.{tag_of_head, head_test, whole_at, trimmed_at};
    ghost use Rattle.ring_payload.specs.Versions.{head_version};

    /// Returns the tag of this Head: 4 if its trimmed length is 0, otherwise 7.
    fn head_tag_byte(&self) -> u8
        ensures { result ≡ tag_of_head self.now }
    {
        if self.trimmed == 0 {
            payload_tags::HEAD
        } else {
            payload_tags::TRIMMED_HEAD
        }
    }

    /// Returns the version of a frame that carries this Head: 1 if its trimmed length is 0, otherwise 3.
    ///
    /// Formats: Frames
    pub(crate) fn head_frame_version(&self) -> u8
        ensures { result ≡ head_version self.now }
    {
        if self.trimmed == 0 {
            FIRST_VERSION
        } else {
            TRIM_VERSION
        }
    }

    /// Returns whether the fields are within the limits of their format, for either tag.
    fn is_valid_head(&self) -> bool
        ensures { result ≡ head_test self.now }
    {
        self.trimmed <= self.committed
            && self.committed <= self.length
            && self.length <= MAX
            && (self.last.is_some() || self.length == 0)
    }

    /// Decodes the body of the Head of a log without dropped places, after its tag 4, and moves `from` past it.
    ///
    /// Errors: `BadFrame` if `from` doesn't begin with such a body. What is then left to read is unspecified.
    ///
    /// Formats: Payloads
    #[tactic(auto, unfolding(crate::specs::Heads::whole_at))]
    pub(crate) fn decode_untrimmed_head<A: Allocator + Copy>(
        alloc: A,
        from: &mut Reader<'_>,
    ) -> Result<Head, Fault>
        ensures { IsReadResult result from.new (whole_at from.old) }
    {
        let head = Head {
            last: Decode::read(alloc, from)?,
            length: Decode::read(alloc, from)?,
            committed: Decode::read(alloc, from)?,
            trimmed: 0,
        };
        if !head.is_valid_head() {
            return Err(Fault::BadFrame);
        }
        Ok(head)
    }

    /// Decodes the body of the Head of a log with dropped places, after its tag 7, and moves `from` past it.
    ///
    /// Errors: `BadFrame` if `from` doesn't begin with such a body. What is then left to read is unspecified.
    ///
    /// Formats: Payloads
    #[tactic(auto, unfolding(crate::specs::Heads::trimmed_at))]
    pub(crate) fn decode_trimmed_head<A: Allocator + Copy>(
        alloc: A,
        from: &mut Reader<'_>,
    ) -> Result<Head, Fault>
        ensures { IsReadResult result from.new (trimmed_at from.old) }
    {
        let head = Head {
            last: Decode::read(alloc, from)?,
            length: Decode::read(alloc, from)?,
            committed: Decode::read(alloc, from)?,
            trimmed: Decode::read(alloc, from)?,
        };
        if head.trimmed < 1 || !head.is_valid_head() {
            return Err(Fault::BadFrame);
        }
        Ok(head)
    }
}

/// Encoded with its tag, which says whether a trimmed length follows.
///
/// Formats: Payloads
impl Encode for Head {
    ghost use Rattle.ring_payload.specs.Heads.{head_encoding, HeadFits, head_at, head_format};

    ghost encoding = { head_encoding };

    ghost max_encoded_len = { 34 };

    ghost is_within_limits = { HeadFits };

    ghost decoding_at_front = { head_at };

    ghost decoding_is_exact = { head_format };

    fn encoded_len(&self) -> usize {
        if self.trimmed == 0 { 26 } else { 34 }
    }

    fn write<B: Allocator + Copy>(&self, out: &mut BytesMut<B>) {
        self.head_tag_byte().write(out);
        self.last.write(out);
        self.length.write(out);
        self.committed.write(out);
        if self.trimmed != 0 {
            self.trimmed.write(out);
        }
    }
}

impl<A: Allocator + Copy> Decode<A> for Head {
    #[tactic(auto, unfolding(crate::specs::Heads::head_at))]
    fn read(alloc: A, from: &mut Reader<'_>) -> Result<Head, Fault> {
        let tag: u8 = Decode::read(alloc, from)?;
        match tag {
            payload_tags::HEAD => Head::decode_untrimmed_head(alloc, from),
            payload_tags::TRIMMED_HEAD => Head::decode_trimmed_head(alloc, from),
            _ => Err(Fault::BadFrame),
        }
    }
}
