//! Frames: two fixed bytes, the version, the kind, the body's length, and the body.
//!
//! A frame is decoded into a place that may already hold a frame. Each kind has a separate reading function that isn't
//! inlined, so that decoding a frame sets up the stack slot of that kind only.
//!
//! Formats: Frames; What is no frame

ghost use Rattle.std.specs.Prelude.{◌≡◌, ℕ, ◌+◌, ◌^◌, ◌<◌, ◌≤◌, List, [], ◌∷◌, ◌++◌, length, IfOk, IfErr, IfSome, Some, IsSome, OnOk, OnErr, ◌↔◌};
ghost use Rattle.ring_payload.specs.Faults.{BadFrame};
ghost use Rattle.ring_payload.specs.Codecs.{Appends, IsReadResult};
ghost use Rattle.ring_wire.specs.declared.frame.Frame.{Frame as OneFrame};
ghost use Rattle.ring_wire.specs.declared.frame.Frame.TheVariants.{Message as MessageFrame, Token as TokenFrame};
ghost use Rattle.ring_payload.specs.Limits.{message_kind, token_kind, join_kind, commit_kind};
ghost use Rattle.ring_payload.specs.Base.{max_frame_bytes};
ghost use Rattle.ring_wire.specs.Frames.{body_at, frame_at, version_of, encoding_of, FrameFits};
ghost use Rattle.ring_wire.specs.Prefixes.{IsReadFault, IsEncodedPrefix, HasNoEncodedPrefix, IsReadIntoPlace};
ghost use Rattle.ring_wire.specs.IsFrameEncoding.{IsFrameEncoding};

use crate::commit_box::BoxedCommitToken;
use crate::join::Join;
use crate::message::Message;
use crate::token::{BorrowedToken, Token};
use bytes::BytesMut;
use ring_payload::{
    Decode, Encode, FIRST_VERSION, Fault, Reader, Wire, decode_length_prefixed,
    encode_length_prefixed,
};
use std::alloc::{Allocator, Global};
use std::mem::size_of;

/// The two bytes that every frame begins with.
const FRAME_START: [u8; 2] = [0x54, 0x52];

/// The kinds of frames: this one and the next three.
const MESSAGE_KIND: u8 = 1;

const TOKEN_KIND: u8 = 2;

const JOIN_KIND: u8 = 3;

const COMMIT_KIND: u8 = 4;

/// A frame, which one processor sends to others: a message, the token, a join or a commit token.
///
/// Formats: Frames
#[derive(Clone, Drop)]
pub enum Frame<A: Allocator + Copy = Global> {
    /// A message: a numbered payload of a ring, for all other members.
    Message(Message<A>),
    /// The token of a running ring, for the next member.
    Token(Token),
    /// A join, for processors that may form a ring with the sender.
    Join(Join),
    /// A commit token, for the next member of the proposed ring.
    Commit(BoxedCommitToken<A>),
}

/// A frame occupies at most 320 bytes in memory, so that keeping or moving one is cheap.
const _: () = prove!(size_of::<Frame>() <= 320);

impl<A: Allocator + Copy> Frame<A> {
    /// Returns the frame's version: that of a message's payload, and 1 for every other kind.
    fn version(&self) -> u8
        ensures { result ≡ version_of self.now }
    {
        match self {
            Frame::Message(message) => message.payload.frame_version(),
            _ => FIRST_VERSION,
        }
    }
}

impl<A: Allocator + Copy> Encode for Frame<A> {
    ghost use Rattle.ring_wire.specs.Frames.{frame_at, frame_format};

    ghost encoding = { encoding_of };

    ghost max_encoded_len = { 7321 };

    ghost is_within_limits = { FrameFits };

    ghost decoding_at_front = { frame_at };

    ghost decoding_is_exact = { frame_format };

    fn encoded_len(&self) -> usize {
        match self {
            Frame::Message(message) => 8 + message.encoded_len(),
            Frame::Token(token) => 8 + token.encoded_len(),
            Frame::Join(join) => 8 + join.encoded_len(),
            Frame::Commit(commit) => 8 + commit.encoded_len(),
        }
    }

    fn write<B: Allocator + Copy>(&self, out: &mut BytesMut<B>) {
        FRAME_START[0].write(out);
        FRAME_START[1].write(out);
        self.version().write(out);
        match self {
            Frame::Message(message) => {
                MESSAGE_KIND.write(out);
                encode_length_prefixed(message, out);
            }
            Frame::Token(token) => {
                TOKEN_KIND.write(out);
                encode_length_prefixed(token, out);
            }
            Frame::Join(join) => {
                JOIN_KIND.write(out);
                encode_length_prefixed(join, out);
            }
            Frame::Commit(commit) => {
                COMMIT_KIND.write(out);
                encode_length_prefixed(commit, out);
            }
        }
    }
}

/// Decodes a length-prefixed message into `place`.
///
/// Errors: `BadFrame` if `from` doesn't begin with such a message, or `version` isn't that of its payload. `Memory` if
/// an allocation fails. `place` is then unchanged.
#[inline(never)]
#[tactic(auto, unfolding(crate::specs::Frames::body_at))]
fn read_message<A: Allocator + Copy>(
    alloc: A,
    version: u8,
    from: &mut Reader<'_>,
    place: &mut Option<Frame<A>>,
) -> Result<(), Fault>
    ensures { IsReadIntoPlace result place.old place.new from.new (body_at version message_kind from.old) }
{
    let message: Message<A> = decode_length_prefixed(alloc, from)?;
    if version != message.payload.frame_version() {
        return Err(Fault::BadFrame);
    }
    place_message(message, place);
    Ok(())
}

/// Puts `message` in `place`.
///
/// A message that is already there is overwritten in place.
#[inline(always)]
fn place_message<A: Allocator + Copy>(message: Message<A>, place: &mut Option<Frame<A>>)
    ensures { place.new ≡ Some (MessageFrame message) }
{
    match place {
        Some(Frame::Message(kept)) => assign_in_place(message, kept),
        _ => assign_in_place(Some(Frame::Message(message)), place),
    }
}

/// Overwrites `place` with `value`, and drops the value that was there.
#[inline(always)]
fn assign_in_place<T: Drop>(value: T, place: &mut T)
    ensures { place.new ≡ value }
{
    *place = value;
}

/// Decodes a length-prefixed token into `place`.
///
/// Errors: `BadFrame` if `from` doesn't begin with such a token, or `version` isn't 1. `place` is then unchanged.
#[inline(never)]
#[tactic(auto, unfolding(crate::specs::Frames::body_at))]
fn read_token<A: Allocator + Copy>(
    alloc: A,
    version: u8,
    from: &mut Reader<'_>,
    place: &mut Option<Frame<A>>,
) -> Result<(), Fault>
    ensures { IsReadIntoPlace result place.old place.new from.new (body_at version token_kind from.old) }
{
    let token = BorrowedToken::decode_length_prefixed(alloc, from)?;
    if version != FIRST_VERSION {
        return Err(Fault::BadFrame);
    }
    match place {
        Some(Frame::Token(kept)) => token.write_to_token(kept),
        _ => place_token(&token, place),
    }
    Ok(())
}

/// Puts `token` in `place`, which holds no token yet.
#[inline(never)]
fn place_token<A: Allocator + Copy>(token: &BorrowedToken<'_>, place: &mut Option<Frame<A>>)
    ensures { place.new ≡ Some (TokenFrame token.now) }
{
    assign_in_place(Some(Frame::Token(Token::blank_token())), place);
    if let Some(Frame::Token(kept)) = place {
        token.write_to_token(kept);
    }
}

/// Decodes a length-prefixed join into `place`.
///
/// Errors: `BadFrame` if `from` doesn't begin with such a join, or `version` isn't 1. `place` is then unchanged.
#[inline(never)]
#[tactic(auto, unfolding(crate::specs::Frames::body_at))]
fn read_join<A: Allocator + Copy>(
    alloc: A,
    version: u8,
    from: &mut Reader<'_>,
    place: &mut Option<Frame<A>>,
) -> Result<(), Fault>
    ensures { IsReadIntoPlace result place.old place.new from.new (body_at version join_kind from.old) }
{
    let join = decode_length_prefixed(alloc, from)?;
    if version != FIRST_VERSION {
        return Err(Fault::BadFrame);
    }
    match place {
        Some(Frame::Join(kept)) => *kept = join,
        _ => assign_in_place(Some(Frame::Join(join)), place),
    }
    Ok(())
}

/// Decodes a length-prefixed commit token into `place`.
///
/// Errors: `BadFrame` if `from` doesn't begin with such a commit token, or `version` isn't 1. `Memory` if an allocation
/// fails. `place` is then unchanged.
#[inline(never)]
#[tactic(auto, unfolding(crate::specs::Frames::body_at))]
fn read_commit<A: Allocator + Copy>(
    alloc: A,
    version: u8,
    from: &mut Reader<'_>,
    place: &mut Option<Frame<A>>,
) -> Result<(), Fault>
    ensures { IsReadIntoPlace result place.old place.new from.new (body_at version commit_kind from.old) }
{
    let commit = decode_length_prefixed(alloc, from)?;
    if version != FIRST_VERSION {
        return Err(Fault::BadFrame);
    }
    assign_in_place(Some(Frame::Commit(commit)), place);
    Ok(())
}

/// Decodes the frame at the front of `from` into `place`.
///
/// A message, token or join overwrites one of its kind, so that no memory is cleared or moved that the frame doesn't
/// fill.
///
/// Errors: `BadFrame` if no frame begins `from`. `Memory` if an allocation fails. `place` is then unchanged.
#[tactic(auto, unfolding(crate::specs::Frames::frame_at, crate::specs::Frames::kind_at))]
fn decode_frame_into<A: Allocator + Copy>(
    alloc: A,
    from: &mut Reader<'_>,
    place: &mut Option<Frame<A>>,
) -> Result<(), Fault>
    ensures { IsReadIntoPlace result place.old place.new from.new (frame_at from.old) }
{
    let first: u8 = Decode::read(alloc, from)?;
    let second: u8 = Decode::read(alloc, from)?;
    if first != FRAME_START[0] || second != FRAME_START[1] {
        return Err(Fault::BadFrame);
    }
    let version: u8 = Decode::read(alloc, from)?;
    let kind: u8 = Decode::read(alloc, from)?;
    match kind {
        MESSAGE_KIND => read_message(alloc, version, from, place),
        TOKEN_KIND => read_token(alloc, version, from, place),
        JOIN_KIND => read_join(alloc, version, from, place),
        COMMIT_KIND => read_commit(alloc, version, from, place),
        _ => Err(Fault::BadFrame),
    }
}

impl<A: Allocator + Copy> Decode<A> for Frame<A> {
    fn read(alloc: A, from: &mut Reader<'_>) -> Result<Frame<A>, Fault> {
        let mut place = None;
        decode_frame_into(alloc, from, &mut place)?;
        match place {
            Some(frame) => Ok(frame),
            None => unreachable!(),
        }
    }
}

impl<A: Allocator + Copy> Frame<A> {
    /// Decodes the frame at the front of `src` into `place`, and returns the length of its encoding in bytes.
    ///
    /// The frame that was in `place` is dropped. More bytes may follow the frame.
    ///
    /// Errors: `BadFrame`, only if no frame begins `src`. `Memory` if an allocation fails, even if no frame begins
    /// `src`. `place` is then unchanged.
    ///
    /// Formats: Frames
    pub fn decode_first_frame_into(
        alloc: A,
        src: &[u8],
        place: &mut Option<Frame<A>>,
    ) -> Result<usize, Fault>
        ensures found { IfOk result (λ len. IfSome place.new (λ frame. IsEncodedPrefix encoding_of FrameFits src.now frame len)) }
        ensures placed { OnOk result (IsSome place.new) }
        ensures bad { IfErr result (λ fault. fault ≡ BadFrame → HasNoEncodedPrefix {A = OneFrame A} encoding_of FrameFits src.now) }
        ensures faults { IfErr result IsReadFault }
        ensures kept { OnErr result (place.new ≡ place.old) }
    {
        let mut from = Reader::new(src);
        decode_frame_into(alloc, &mut from, place)?;
        Ok(src.len() - from.len())
    }
}

/// Decodes the whole of `src` as one frame.
///
/// Errors: `BadFrame`, only if `src` isn't exactly one frame; a frame followed by more bytes isn't one. `Memory` if an
/// allocation fails, even if `src` isn't one frame.
///
/// Formats: Frames; What is no frame
pub fn decode_frame<A: Allocator + Copy>(alloc: A, src: &[u8]) -> Result<Frame<A>, Fault>
    ensures found { IfOk result (λ frame. IsFrameEncoding frame src.now) }
    ensures bad { IfErr result (λ fault. fault ≡ BadFrame
        → (frame : OneFrame A) → ¬ IsFrameEncoding frame src.now) }
    ensures faults { IfErr result IsReadFault }
{
    let (frame, len) = Frame::<A>::get(alloc, src)?;
    if len != src.len() {
        return Err(Fault::BadFrame);
    }
    Ok(frame)
}

/// States that bytes are an encoding of a frame exactly if they are `encoding_of` the frame and the frame is within its
/// limits.
///
/// This holds for every frame and all bytes. Which bytes are encodings of a frame is defined separately, by the grammar
/// of the formats: `IsFrameEncoding`.
///
/// Formats: Frames; The commit entry; Payloads
pub fn encoding_law<A: Allocator + Copy>()
    ensures { (frame : OneFrame A) (text : List ℕ)
        → IsFrameEncoding frame text ↔ (FrameFits frame × (text ≡ encoding_of frame)) }
{}

/// States that two encodings of frames are equal, and encode the same frame, if the same bytes begin with both.
///
/// So a frame has at most one encoding, two different frames never share one, and no encoding is a proper prefix of
/// another.
///
/// Formats: Frames
pub fn unique_encoding_law<A: Allocator + Copy>()
    ensures { (f g : OneFrame A) (a b x y : List ℕ)
        → IsFrameEncoding f a → IsFrameEncoding g b → a ++ x ≡ b ++ y → (f ≡ g) × (a ≡ b) }
{}

/// States that every encoding of a frame has at most 8,192 bytes, including the head of 8 bytes.
///
/// Rules: Limits 1
/// Formats: Frames
pub fn frame_length_law<A: Allocator + Copy>()
    ensures { (f : OneFrame A) (a : List ℕ) → IsFrameEncoding f a → length a ≤ max_frame_bytes }
{}
