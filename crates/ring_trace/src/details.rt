//! The details of events for programs, in addition to their words: inputs, and the frames that are sent.
//!
//! Formats: The command line

ghost use Rattle.std.specs.Prelude.{◌≡◌, IfErr};
ghost use Rattle.ring_base.specs.declared.fault.Fault.TheVariants.{Memory};

use crate::event_subject::EventSubject;
use crate::sent_frames::SentFrames;
use ring_base::Fault;
use ring_console::{ScriptLine, World, frames};
use ring_object::Object;
use ring_payload::{Call, Payload};
use ring_script::timeout_name;
use ring_trace_formats::{DeliveryKind, InputValue, SendValue, TraceVocabulary};
use ring_wire::Frame;
use std::alloc::{Allocator, Global};

/// Returns the input of a line's event.
///
/// `kind` is the kind of delivery of a line `deliver`. Returns `None` if the line isn't an event or is a pump.
///
/// Errors: `Memory` if an allocation fails.
///
/// Formats: The command line
pub(crate) fn input_of_line<A: Allocator + Copy>(
    alloc: Global,
    trace_vocabulary: &TraceVocabulary,
    line: &ScriptLine<A>,
    kind: DeliveryKind,
) -> Result<Option<InputValue>, Fault> {
    match line {
        ScriptLine::Call { call, .. } => {
            let input = InputValue::of_call(alloc, trace_vocabulary, call)?;
            Ok(Some(input))
        }
        ScriptLine::Deliver { frame, .. } => Ok(Some(InputValue::of_delivery(*frame, kind))),
        ScriptLine::Timeout { kind, .. } => Ok(Some(InputValue::Timeout(timeout_name(*kind)))),
        ScriptLine::Noise { bytes, .. } => Ok(Some(InputValue::Noise(bytes.len() as u64))),
        ScriptLine::Stop { .. } => Ok(Some(InputValue::Stop(true))),
        _ => Ok(None),
    }
}

/// Returns the input of an event if it is a turn of a pump, otherwise `None`.
///
/// Formats: The command line
pub(crate) fn input_of_turn(event_subject: &EventSubject) -> Option<InputValue> {
    match event_subject.open_copy {
        Some(open_copy) => {
            let (frame, sender) = (open_copy.frame, open_copy.sender);
            Some(InputValue::of_turn(frame, sender))
        }
        None => None,
    }
}

/// Returns the details of the frames with numbers above `before`, for programs.
///
/// Errors: `Memory` if an allocation fails.
///
/// Formats: The command line
pub(crate) fn send_values<O: Object>(
    alloc: Global,
    world: &World<O>,
    sent: &SentFrames<O::Alloc>,
    before: u64,
) -> Result<Vec<SendValue>, Fault> {
    let mut values = Vec::new(alloc);
    for number in before..sent.count() {
        let number = number.saturating_add(1);
        if let Some(frame) = sent.frame(number) {
            let bytes = world.sent_text().get(frame.begin..frame.end).unwrap_or(&[]);
            let says = listing_line(alloc, bytes)?;
            let calls = calls_in(alloc, bytes)?;
            values.push(SendValue::new(alloc, number, frame.to, says, calls)?)?;
        }
    }
    Ok(values)
}

/// Returns the line of a frame in a listing, without its line feed.
fn listing_line(alloc: Global, bytes: &[u8]) -> Result<String, Fault> {
    let mut rest = bytes;
    let mut line = Vec::new(alloc);
    let mut err = Vec::new(alloc);
    // For a frame that was sent, the listing can fail only because an allocation fails.
    if frames(alloc, &mut rest, &mut line, &mut err) != 0 {
        return Err(Fault::Memory);
    }
    let _ = line.pop();
    match String::from_utf8(line) {
        Ok(text) => Ok(text),
        Err(_) => Err(Fault::Memory),
    }
}

/// Returns the names of the calls that a frame carries, as a Call or in a Pack.
fn calls_in(alloc: Global, bytes: &[u8]) -> Result<Vec<String>, Fault> {
    let mut place = None;
    let found = call_names(alloc, bytes, &mut place);
    // Dropped explicitly, so it doesn't live until the exits.
    drop(place);
    found
}

/// Returns the names of the calls that a frame carries, which is decoded into `place`.
fn call_names(
    alloc: Global,
    bytes: &[u8],
    place: &mut Option<Frame<Global>>,
) -> Result<Vec<String>, Fault> {
    let mut names = Vec::new(alloc);
    if Frame::<Global>::decode_first_frame_into(alloc, bytes, place).is_err() {
        return Err(Fault::Memory);
    }
    if let Some(Frame::Message(message)) = &*place {
        match &message.payload {
            Payload::Call(call) => add_call_name(alloc, call, &mut names)?,
            Payload::Pack(pack) => {
                for call in pack.calls.as_slice() {
                    add_call_name(alloc, call, &mut names)?;
                }
            }
            _ => {}
        }
    }
    Ok(names)
}

/// Adds the name of a call: its client, a dot, and its number.
fn add_call_name(alloc: Global, call: &Call<Global>, names: &mut Vec<String>) -> Result<(), Fault> {
    let (client, number) = (call.client, call.number);
    names.push(format!(in alloc; "{client}.{number}")?)?;
    Ok(())
}
