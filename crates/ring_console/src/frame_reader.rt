//! A reader of frames with a bounded buffer.
//!
//! Formats: Listing frames

ghost use Rattle.std.specs.Prelude.{◌≤◌, vec_len};
ghost use Rattle.ring_base.specs.Numbers.{max_frame_bytes};

use ring_base::{Fault, MAX_FRAME_BYTES};
use ring_failure::Failure;
use ring_wire::Frame;
use std::alloc::Allocator;
use std::io::{ErrorKind, Read};
use std::mem;

/// The maximum number of bytes that are read ahead.
///
/// Before it reads more, the reader moves the rest, which is shorter than the longest frame, to the front. The larger
/// the buffer, the smaller the share of bytes that are moved.
const MAX_READ_AHEAD: usize = 8 * MAX_FRAME_BYTES;

/// A buffered reader of consecutive frames.
///
/// It allocates its whole buffer when it is created.
///
/// Formats: Listing frames
#[derive(Drop)]
pub(crate) struct FrameReader<A: Allocator> {
    bytes: Vec<u8, A>,
    /// The number of bytes already taken.
    taken_bytes: usize,
    ghost within: { taken_bytes ≤ vec_len bytes },
    /// The index of the next frame's first byte in the input, counted from 0.
    next_frame_offset: u64,
    state: InputState,
}

/// Whether the input may have more bytes.
#[derive(Clone, Copy, PartialEq, Eq)]
enum InputState {
    /// The input may have more bytes.
    Open,
    /// The input is at its end.
    Ended,
    /// Reading the input failed.
    Failed,
}

impl<A: Allocator + Copy> FrameReader<A> {
    ghost use Rattle.std.specs.Prelude.{◌≡◌, ◌<◌, [], length, Some, None, OnOk, IfOk, IfErr};
    ghost use Rattle.std.specs.Io.KnownBytes.{Keeps};
    ghost use Rattle.ring_base.specs.declared.fault.Fault.TheVariants.{Memory};
    ghost use Rattle.ring_failure.specs.declared.failure.Failure.TheVariants.{Refused};
    ghost use Rattle.ring_console.specs.declared.frame_reader.InputState.TheVariants.{Open, Ended};
    ghost use Rattle.ring_console.specs.Listings.{unread_bytes, left_of, IsEndRight, IsNext, IsStop};

    /// Creates a reader that has read nothing.
    ///
    /// Errors: `Refused` with `Memory` if an allocation fails.
    pub fn new(alloc: A) -> Result<FrameReader<A>, Failure>
        ensures empty { IfOk result (λ frame_reader. frame_reader.bytes.items ≡ []) }
        ensures open { IfOk result (λ frame_reader. (frame_reader.next_frame_offset ≡ 0) × (frame_reader.taken_bytes ≡ 0) × (frame_reader.state ≡ Open)) }
        ensures refused { IfErr result (λ failure. failure ≡ Refused Memory) }
    {
        match Vec::with_capacity(alloc, MAX_READ_AHEAD) {
            Ok(bytes) => Ok(FrameReader {
                bytes,
                taken_bytes: 0,
                next_frame_offset: 0,
                state: InputState::Open,
            }),
            Err(_) => Err(Failure::Refused(Fault::Memory)),
        }
    }

    /// Decodes the next frame of the input into `next`, in place, so no frame is moved.
    ///
    /// At the end of the input `next` becomes `None`. `input` must be the same in all calls. It is read ahead, so it
    /// may be further than the frames returned. Waits for `input`.
    ///
    /// Errors: `BadFrame` if the unread bytes begin with no frame, with the index of the first of them in the input,
    /// counted from 0, or with 0 if reading has failed, too. `Refused` with `Memory` if an allocation fails. `next` is
    /// then unspecified.
    ///
    /// Formats: Listing frames
    pub fn next_frame<R: Read>(
        &mut self,
        alloc: A,
        input: &mut R,
        next: &mut Option<Frame<A>>,
    ) -> Result<(), Failure>
        requires { IsEndRight self.old (R.remaining input.old) }
        ensures next { OnOk result (IsNext (left_of self.old (R.remaining input.old))
            (left_of self.new (R.remaining input.new)) self.old.next_frame_offset self.new.next_frame_offset next.new) }
        ensures ended { OnOk result (IsEndRight self.new (R.remaining input.new)) }
        ensures stopped { IfErr result (IsStop A (left_of self.old (R.remaining input.old)) (R.remaining input.new)
            self.old.next_frame_offset self.new.state) }
    {
        self.read_enough(input)?;
        self.take_frame(alloc, next)
    }

    /// Decodes the frame at the front of the unread bytes into `next`.
    fn take_frame(&mut self, alloc: A, next: &mut Option<Frame<A>>) -> Result<(), Failure>
        ensures next { OnOk result (IsNext (Some (unread_bytes self.old)) (Some (unread_bytes self.new)) self.old.next_frame_offset self.new.next_frame_offset next.new) }
        ensures ended { OnOk result (next.new ≡ None → self.old.state ≡ Ended) }
        ensures state { self.new.state ≡ self.old.state }
        ensures stopped { IfErr result (IsStop A (Some (unread_bytes self.old)) (Some []) self.old.next_frame_offset self.old.state) }
    {
        let rest = &self.bytes[self.taken_bytes..];
        if rest.is_empty() && self.state == InputState::Ended {
            *next = None;
            return Ok(());
        }
        match Frame::decode_first_frame_into(alloc, rest, next) {
            Ok(length) => {
                self.taken_bytes += length;
                self.next_frame_offset = self.next_frame_offset.saturating_add(length as u64);
                Ok(())
            }
            Err(Fault::BadFrame) if self.state == InputState::Failed => Err(Failure::BadFrame(0)),
            Err(Fault::BadFrame) => Err(Failure::BadFrame(self.next_frame_offset)),
            Err(fault) => Err(Failure::Refused(fault)),
        }
    }

    /// Reads ahead if there are fewer unread bytes than the longest frame has.
    fn read_enough<R: Read>(&mut self, input: &mut R) -> Result<(), Failure>
        requires { IsEndRight self.old (R.remaining input.old) }
        ensures kept { OnOk result (Keeps (left_of self.old (R.remaining input.old)) (left_of self.new (R.remaining input.new))) }
        ensures ended { OnOk result (IsEndRight self.new (R.remaining input.new)) }
        ensures enough { OnOk result (self.new.state ≡ Open → max_frame_bytes ≤ length (unread_bytes self.new)) }
        ensures position { self.new.next_frame_offset ≡ self.old.next_frame_offset }
        ensures refused { IfErr result (λ failure. failure ≡ Refused Memory) }
    {
        if self.state == InputState::Open && self.bytes.len() - self.taken_bytes < MAX_FRAME_BYTES {
            self.read_ahead(input)?;
        }
        Ok(())
    }

    /// Discards the taken bytes, and reads until the buffer is full or the input ends.
    fn read_ahead<R: Read>(&mut self, input: &mut R) -> Result<(), Failure>
        requires { self.old.state ≡ Open }
        ensures kept { OnOk result (Keeps (left_of self.old (R.remaining input.old)) (left_of self.new (R.remaining input.new))) }
        ensures ended { OnOk result (IsEndRight self.new (R.remaining input.new)) }
        ensures enough { OnOk result (self.new.state ≡ Open → max_frame_bytes ≤ length (unread_bytes self.new)) }
        ensures position { self.new.next_frame_offset ≡ self.old.next_frame_offset }
        ensures refused { IfErr result (λ failure. failure ≡ Refused Memory) }
    {
        let taken = mem::replace(&mut self.taken_bytes, 0);
        let _ = self.bytes.drain(..taken);
        for _ in 0..u64::MAX {
            if self.state != InputState::Open || self.bytes.len() >= MAX_READ_AHEAD {
                return Ok(());
            }
            self.read_once(input)?;
        }
        self.state = InputState::Failed;
        Ok(())
    }

    /// Reads once into the free part of the buffer.
    fn read_once<R: Read>(&mut self, input: &mut R) -> Result<(), Failure>
        requires open { self.old.state ≡ Open }
        requires room { vec_len self.old.bytes < MAX_READ_AHEAD }
        ensures kept { OnOk result (Keeps (left_of self.old (R.remaining input.old)) (left_of self.new (R.remaining input.new))) }
        ensures ended { OnOk result (IsEndRight self.new (R.remaining input.new)) }
        ensures taken { self.new.taken_bytes ≡ self.old.taken_bytes }
        ensures position { self.new.next_frame_offset ≡ self.old.next_frame_offset }
        ensures refused { IfErr result (λ failure. failure ≡ Refused Memory) }
    {
        let mut room = [0u8; MAX_FRAME_BYTES];
        let most = (MAX_READ_AHEAD - self.bytes.len()).min(MAX_FRAME_BYTES);
        match input.read(&mut room[..most]) {
            Ok(0) => self.state = InputState::Ended,
            Ok(count) => {
                if self.bytes.extend_from_slice(&room[..count]).is_err() {
                    return Err(Failure::Refused(Fault::Memory));
                }
            }
            Err(error) if error.kind() == ErrorKind::Interrupted => {}
            Err(error) if error.kind() == ErrorKind::OutOfMemory => {
                return Err(Failure::Refused(Fault::Memory));
            }
            Err(_) => self.state = InputState::Failed,
        }
        Ok(())
    }
}
