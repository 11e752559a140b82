//! Messages: numbered payloads of a ring.
//!
//! Formats: Frames

ghost use Rattle.std.specs.Prelude.{◌≡◌, ℕ, ◌+◌, ◌^◌, ◌<◌, ◌≤◌, List, [], ◌∷◌, ◌++◌, length};
ghost use Rattle.ring_payload.specs.Codecs.{Appends, IsReadResult};

use crate::checked_value::checked_value;
use bytes::BytesMut;
use ring_payload::{Decode, Encode, Fault, MAX, Payload, Proc, Reader, RingId};
use std::alloc::{Allocator, Global};

/// `Message`: a numbered payload of a ring.
///
/// Rules: Token and window 9
/// Formats: Frames
#[derive(Clone, Drop)]
pub struct Message<A: Allocator + Copy = Global> {
    /// The ring in which the message was sent, whose number is at least 1.
    pub ring: RingId,
    /// The message's number in the ring's order of messages, 1 to `MAX`.
    pub number: u64,
    /// The member of the ring that sent it first.
    ///
    /// A member that sends it again doesn't change this field.
    pub sender: Proc,
    /// The payload.
    ///
    /// If it is a Wrapped, its old ring has a lower number than `ring`.
    pub payload: Payload<A>,
}

impl<A: Allocator + Copy> Message<A> {
    ghost use Rattle.ring_wire.specs.Messages.{is_wrapped_older, message_test};

    /// Returns whether the old ring of a Wrapped has a lower number than the message's ring; true for any other
    /// payload.
    fn is_wrapped_older(&self) -> bool
        ensures { result ≡ is_wrapped_older self.now.payload self.now.ring }
    {
        match &self.payload {
            Payload::Wrapped(wrapped) => wrapped.ring.seq < self.ring.seq,
            _ => true,
        }
    }

    /// Returns whether the fields are within the limits of their format.
    fn is_valid_message(&self) -> bool
        ensures { result ≡ message_test self.now }
    {
        self.ring.seq >= 1 && self.number >= 1 && self.number <= MAX && self.is_wrapped_older()
    }
}

impl<A: Allocator + Copy> Encode for Message<A> {
    ghost use Rattle.ring_wire.specs.Messages.{message_encoding, MessageFits, message_at, message_format};

    ghost encoding = { message_encoding };

    ghost max_encoded_len = { 7313 };

    ghost is_within_limits = { MessageFits };

    ghost decoding_at_front = { message_at };

    ghost decoding_is_exact = { message_format };

    fn encoded_len(&self) -> usize {
        18 + self.payload.encoded_len()
    }

    fn write<B: Allocator + Copy>(&self, out: &mut BytesMut<B>) {
        self.ring.write(out);
        self.number.write(out);
        self.sender.write(out);
        self.payload.write(out);
    }
}

impl<A: Allocator + Copy> Decode<A> for Message<A> {
    #[tactic(auto, unfolding(crate::specs::Messages::message_at))]
    fn read(alloc: A, from: &mut Reader<'_>) -> Result<Message<A>, Fault> {
        let message = Message {
            ring: Decode::read(alloc, from)?,
            number: Decode::read(alloc, from)?,
            sender: Decode::read(alloc, from)?,
            payload: Decode::read(alloc, from)?,
        };
        checked_value(message.is_valid_message(), message)
    }
}
