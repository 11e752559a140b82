//! The payloads of messages, and the contents that a Wrapped may have.
//!
//! Rules: Recovery 4
//! Formats: Payloads; Frames

ghost use Rattle.std.specs.Prelude.{◌≡◌, ℕ, ◌+◌, ◌^◌, ◌<◌, ◌≤◌, List, [], ◌∷◌, ◌++◌, length};
ghost use Rattle.ring_codec.specs.Reading.{Appends, IsReadResult};

use crate::call::Call;
use crate::calls::{Pack, Part};
use crate::frame_versions::{FIRST_VERSION, PACK_VERSION, TRIM_VERSION};
use crate::head::Head;
use crate::payload_tags;
use crate::snap::Snap;
use bytes::BytesMut;
use ring_codec::{Decode, Encode, Fault, MAX, Proc, Reader, RingId};
use std::alloc::{Allocator, Global};

/// The payload inside a Wrapped, which is any user payload: any payload except a Wrapped and an End.
///
/// Rules: Recovery 4
/// Formats: Payloads
#[derive(Clone, Drop)]
pub enum WrappedPayload<A: Allocator + Copy = Global> {
    /// One call of a client.
    Call(Call<A>),
    /// A member's summary of its log.
    Head(Head),
    /// A part of a log.
    Part(Part<A>),
    /// A batch of calls.
    Pack(Pack<A>),
    /// A piece of a snapshot.
    Snap(Snap<A>),
}

/// `Wrapped`: a message of an old ring that a member sends again on the new ring, during recovery.
///
/// Rules: Recovery 4
/// Formats: Payloads
#[derive(Clone, Drop)]
pub struct Wrapped<A: Allocator + Copy = Global> {
    /// The old ring, whose number is at least 1 and, in a message, below that of the message's ring.
    pub ring: RingId,
    /// The message's number in the old ring, 1 to `MAX`.
    pub number: u64,
    /// The member of the old ring that sent the message there.
    pub sender: Proc,
    /// The payload that the message had in the old ring.
    pub payload: WrappedPayload<A>,
}

/// The payload of a message: calls for the log, or what recovery and the exchange send.
///
/// Formats: Payloads
#[derive(Clone, Drop)]
pub enum Payload<A: Allocator + Copy = Global> {
    /// One call of a client, to be appended to the log.
    Call(Call<A>),
    /// A message of an old ring, sent again in recovery.
    Wrapped(Wrapped<A>),
    /// The statement that its sender has sent again all messages of its old ring that it had to send.
    End,
    /// A member's summary of its log, with which it begins an exchange.
    Head(Head),
    /// A part of the owner's log, sent in an exchange.
    Part(Part<A>),
    /// A batch of calls, to be appended to the log in order.
    Pack(Pack<A>),
    /// A piece of the owner's snapshot, sent in an exchange.
    Snap(Snap<A>),
}

impl<A: Allocator + Copy> Encode for WrappedPayload<A> {
    ghost use Rattle.ring_payload.specs.Contents.{content_encoding, ContentFits, content_at, content_format};

    ghost encoding = { content_encoding };

    ghost max_encoded_len = { 7276 };

    ghost is_within_limits = { ContentFits };

    ghost decoding_at_front = { content_at };

    ghost decoding_is_exact = { content_format };

    fn encoded_len(&self) -> usize {
        match self {
            WrappedPayload::Call(call) => 1 + call.encoded_len(),
            WrappedPayload::Head(head) => head.encoded_len(),
            WrappedPayload::Part(part) => 1 + part.encoded_len(),
            WrappedPayload::Pack(pack) => 1 + pack.encoded_len(),
            WrappedPayload::Snap(snap) => 1 + snap.encoded_len(),
        }
    }

    fn write<B: Allocator + Copy>(&self, out: &mut BytesMut<B>) {
        match self {
            WrappedPayload::Call(call) => {
                payload_tags::CALL.write(out);
                call.write(out);
            }
            WrappedPayload::Head(head) => head.write(out),
            WrappedPayload::Part(part) => {
                payload_tags::PART.write(out);
                part.write(out);
            }
            WrappedPayload::Pack(pack) => {
                payload_tags::PACK.write(out);
                pack.write(out);
            }
            WrappedPayload::Snap(snap) => {
                payload_tags::SNAP.write(out);
                snap.write(out);
            }
        }
    }
}

impl<A: Allocator + Copy> Decode<A> for WrappedPayload<A> {
    #[tactic(auto, unfolding(crate::specs::Contents::content_at))]
    fn read(alloc: A, from: &mut Reader<'_>) -> Result<WrappedPayload<A>, Fault> {
        let tag: u8 = Decode::read(alloc, from)?;
        match tag {
            payload_tags::CALL => Ok(WrappedPayload::Call(Decode::read(alloc, from)?)),
            payload_tags::HEAD => Ok(WrappedPayload::Head(Head::decode_untrimmed_head(
                alloc, from,
            )?)),
            payload_tags::PART => Ok(WrappedPayload::Part(Decode::read(alloc, from)?)),
            payload_tags::PACK => Ok(WrappedPayload::Pack(Decode::read(alloc, from)?)),
            payload_tags::TRIMMED_HEAD => Ok(WrappedPayload::Head(Head::decode_trimmed_head(
                alloc, from,
            )?)),
            payload_tags::SNAP => Ok(WrappedPayload::Snap(Decode::read(alloc, from)?)),
            _ => Err(Fault::BadFrame),
        }
    }
}

impl<A: Allocator + Copy> WrappedPayload<A> {
    ghost use Rattle.ring_payload.specs.Versions.{content_version};

    /// Returns the version of a frame that carries this content in a Wrapped.
    fn frame_version(&self) -> u8
        ensures { result ≡ content_version self.now }
    {
        match self {
            WrappedPayload::Call(_) | WrappedPayload::Part(_) => FIRST_VERSION,
            WrappedPayload::Head(head) => head.head_frame_version(),
            WrappedPayload::Pack(_) => PACK_VERSION,
            WrappedPayload::Snap(_) => TRIM_VERSION,
        }
    }
}

impl<A: Allocator + Copy> Payload<A> {
    ghost use Rattle.ring_payload.specs.Versions.{payload_version};

    /// Returns the version of a frame that carries this payload, 1 to 3.
    ///
    /// It is 2 for a Pack, 3 for a Snap and for a Head with a trimmed length above 0, and 1 otherwise. A Wrapped has
    /// the version of its content.
    ///
    /// Formats: Frames
    pub fn frame_version(&self) -> u8
        ensures { result ≡ payload_version self.now }
    {
        match self {
            Payload::Call(_) | Payload::End | Payload::Part(_) => FIRST_VERSION,
            Payload::Wrapped(wrapped) => wrapped.payload.frame_version(),
            Payload::Head(head) => head.head_frame_version(),
            Payload::Pack(_) => PACK_VERSION,
            Payload::Snap(_) => TRIM_VERSION,
        }
    }
}

impl<A: Allocator + Copy> Wrapped<A> {
    ghost use Rattle.ring_payload.specs.Contents.{wrapped_test};

    /// Returns whether the fields are within the limits of a Wrapped, except for the limit that the message's ring
    /// sets.
    fn is_valid_wrapped(&self) -> bool
        ensures { result ≡ wrapped_test self.now }
    {
        self.ring.seq >= 1 && self.number >= 1 && self.number <= MAX
    }
}

impl<A: Allocator + Copy> Encode for Wrapped<A> {
    ghost use Rattle.ring_payload.specs.Contents.{wrapped_encoding, WrappedFits, wrapped_at, wrapped_format};

    ghost encoding = { wrapped_encoding };

    ghost max_encoded_len = { 7294 };

    ghost is_within_limits = { WrappedFits };

    ghost decoding_at_front = { wrapped_at };

    ghost decoding_is_exact = { wrapped_format };

    fn encoded_len(&self) -> usize {
        18 + self.payload.encoded_len()
    }

    fn write<B: Allocator + Copy>(&self, out: &mut BytesMut<B>) {
        self.ring.write(out);
        self.number.write(out);
        self.sender.write(out);
        self.payload.write(out);
    }
}

impl<A: Allocator + Copy> Decode<A> for Wrapped<A> {
    #[tactic(auto, unfolding(crate::specs::Contents::wrapped_at))]
    fn read(alloc: A, from: &mut Reader<'_>) -> Result<Wrapped<A>, Fault> {
        let wrapped = Wrapped {
            ring: Decode::read(alloc, from)?,
            number: Decode::read(alloc, from)?,
            sender: Decode::read(alloc, from)?,
            payload: Decode::read(alloc, from)?,
        };
        if !wrapped.is_valid_wrapped() {
            return Err(Fault::BadFrame);
        }
        Ok(wrapped)
    }
}

impl<A: Allocator + Copy> Encode for Payload<A> {
    ghost use Rattle.ring_payload.specs.Payloads.{payload_encoding, PayloadFits, payload_at, payload_format};

    ghost encoding = { payload_encoding };

    ghost max_encoded_len = { 7295 };

    ghost is_within_limits = { PayloadFits };

    ghost decoding_at_front = { payload_at };

    ghost decoding_is_exact = { payload_format };

    fn encoded_len(&self) -> usize {
        match self {
            Payload::Call(call) => 1 + call.encoded_len(),
            Payload::Wrapped(wrapped) => 1 + wrapped.encoded_len(),
            Payload::End => 1,
            Payload::Head(head) => head.encoded_len(),
            Payload::Part(part) => 1 + part.encoded_len(),
            Payload::Pack(pack) => 1 + pack.encoded_len(),
            Payload::Snap(snap) => 1 + snap.encoded_len(),
        }
    }

    fn write<B: Allocator + Copy>(&self, out: &mut BytesMut<B>) {
        match self {
            Payload::Call(call) => {
                payload_tags::CALL.write(out);
                call.write(out);
            }
            Payload::Wrapped(wrapped) => {
                payload_tags::WRAPPED.write(out);
                wrapped.write(out);
            }
            Payload::End => payload_tags::END.write(out),
            Payload::Head(head) => head.write(out),
            Payload::Part(part) => {
                payload_tags::PART.write(out);
                part.write(out);
            }
            Payload::Pack(pack) => {
                payload_tags::PACK.write(out);
                pack.write(out);
            }
            Payload::Snap(snap) => {
                payload_tags::SNAP.write(out);
                snap.write(out);
            }
        }
    }
}

impl<A: Allocator + Copy> Decode<A> for Payload<A> {
    #[tactic(auto, unfolding(crate::specs::Payloads::payload_at))]
    fn read(alloc: A, from: &mut Reader<'_>) -> Result<Payload<A>, Fault> {
        let tag: u8 = Decode::read(alloc, from)?;
        match tag {
            payload_tags::CALL => Decode::read(alloc, from).map(|call| Payload::Call(call)),
            payload_tags::WRAPPED => Decode::read(alloc, from).map(|wrapped| Payload::Wrapped(
                wrapped,
            )),
            payload_tags::END => Ok(Payload::End),
            payload_tags::HEAD => Head::decode_untrimmed_head(alloc, from).map(|head| Payload::Head(
                head,
            )),
            payload_tags::PART => Decode::read(alloc, from).map(|part| Payload::Part(part)),
            payload_tags::PACK => Decode::read(alloc, from).map(|pack| Payload::Pack(pack)),
            payload_tags::TRIMMED_HEAD => Head::decode_trimmed_head(alloc, from).map(
                |head| Payload::Head(head),
            ),
            payload_tags::SNAP => Decode::read(alloc, from).map(|snap| Payload::Snap(snap)),
            _ => Err(Fault::BadFrame),
        }
    }
}
