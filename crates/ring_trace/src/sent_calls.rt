//! The frames sent in a run: the calls that they carry, and the file that they are written to.
//!
//! Formats: The command line

ghost use Rattle.std.specs.Prelude.{OnOk};
ghost use Rattle.std.specs.Io.KnownBytes.{Appends};
ghost use Rattle.ring_console.specs.Worlds.{text_of, world_of};

use ring_base::{Fault, Proc};
use ring_console::{Failure, World};
use ring_object::Object;
use ring_payload::{Call, Payload};
use ring_trace_formats::WaitingCall;
use ring_wire::Frame;
use std::alloc::Allocator;
use std::io::Write;

/// Writes the encodings of all frames sent in the run, one after another, in the order of sending.
///
/// Errors: `Output` if `frames` fails. How much has been written is then unspecified.
///
/// Formats: The command line
pub(crate) fn write_frames<O: Object, F: Write>(
    world: &World<O>,
    frames: &mut F,
) -> Result<(), Failure>
    ensures { OnOk result (Appends (F.contents frames.old) (F.contents frames.new) (text_of (world_of O.sequential world.now).frames)) }
{
    frames
        .write_all(world.sent_text())
        .map_err(|_| Failure::Output)
}

/// Returns for each of the calls, in their order, whether its node has sent it since it was submitted.
///
/// A call is sent if a message of the node itself carries it, as a Call or in a Pack.
///
/// Errors: `Memory` if an allocation fails.
///
/// Formats: The command line
pub(crate) fn are_calls_sent<O: Object>(
    alloc: O::Alloc,
    world: &World<O>,
    calls: &[WaitingCall],
) -> Result<Vec<bool, O::Alloc>, Fault> {
    let mut are_sent = Vec::new(alloc);
    for _ in calls {
        are_sent.push(false)?;
    }
    let mut place = None;
    let noted = note_frames(alloc, world, calls, &mut are_sent, &mut place);
    // Dropped explicitly, so it is dropped in a function generic over its type, and doesn't live until the exits.
    drop(place);
    match noted {
        Ok(()) => Ok(are_sent),
        Err(fault) => Err(fault),
    }
}

/// Marks the calls that the frames of a world carry.
///
/// Each frame is decoded in place of the one before it.
fn note_frames<O: Object>(
    alloc: O::Alloc,
    world: &World<O>,
    calls: &[WaitingCall],
    are_sent: &mut [bool],
    place: &mut Option<Frame<O::Alloc>>,
) -> Result<(), Fault> {
    let mut rest = world.sent_text();
    for number in 1..u64::MAX {
        let Some((from, _)) = world.frame(number) else {
            return Ok(());
        };
        let Ok(length) = Frame::<O::Alloc>::decode_first_frame_into(alloc, rest, place) else {
            return Err(Fault::Memory);
        };
        if let Some(Frame::Message(message)) = &*place
            && message.sender == from
        {
            note_payload(&message.payload, from, number, calls, are_sent);
        }
        rest = rest.get(length..).unwrap_or(&[]);
    }
    Ok(())
}

/// Marks the calls that a message carries, which this node sent as frame `number`.
fn note_payload<A: Allocator + Copy>(
    payload: &Payload<A>,
    from: Proc,
    number: u64,
    calls: &[WaitingCall],
    are_sent: &mut [bool],
) {
    match payload {
        Payload::Call(call) => note_call(call, from, number, calls, are_sent),
        Payload::Pack(pack) => {
            for call in pack.calls.as_slice() {
                note_call(call, from, number, calls, are_sent);
            }
        }
        _ => {}
    }
}

/// Marks the waiting call that equals a call that was sent, if there is one.
fn note_call<A: Allocator + Copy>(
    call: &Call<A>,
    from: Proc,
    number: u64,
    calls: &[WaitingCall],
    are_sent: &mut [bool],
) {
    for (waiting, is_sent) in calls.iter().zip(are_sent.iter_mut()) {
        if is_sent_call(waiting, call, from, number) {
            *is_sent = true;
        }
    }
}

/// Returns whether a waiting call is the call that its node sent in frame `number` after its submission.
fn is_sent_call<A: Allocator + Copy>(
    waiting: &WaitingCall,
    call: &Call<A>,
    from: Proc,
    number: u64,
) -> bool {
    waiting.node == from
        && waiting.client == call.client
        && waiting.number == call.number
        && waiting.frames < number
}
