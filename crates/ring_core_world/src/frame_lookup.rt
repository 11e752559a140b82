//! Finds a frame among the outputs by its number, for one of its receivers.
//!
//! Rules: Rings and states 14

ghost use Rattle.std.specs.Prelude.{◌≡◌, ◌++◌, slice_get, IfOk, IfErr, if◌then◌else◌, Some, None, option_copied};
ghost use Rattle.ring_base.specs.Processors.{has};
ghost use Rattle.ring_base.specs.declared.fault.Fault.TheVariants.{Memory};
ghost use Rattle.ring_core_spec.specs.State.{frame_at, frame_for};
ghost use Rattle.ring_core_world.specs.Running.{frame_in, frame_in_output, frames_of, opening_frames, places_from};

use ring_base::{Fault, Proc, ProcSet};
use ring_core_spec::{Out, OutgoingFrame};
use ring_payload::Payload;
use ring_wire::Frame;
use std::alloc::Allocator;

/// Returns the frame, if this processor is among its receivers.
fn frame_if_for<A: Allocator + Copy>(node: Proc, to: ProcSet, frame: &Frame<A>) -> Option<&Frame<A>>
    ensures { option_copied result ≡ (if has to node then Some frame.now else None) }
{
    if to.contains(node) { Some(frame) } else { None }
}

/// Returns the frame of an output, if it is a frame sent to this processor.
fn frame_in<A: Allocator + Copy>(node: Proc, out: &Out<A>) -> Option<&Frame<A>>
    ensures { option_copied result ≡ frame_in node out.now }
{
    match out {
        Out::Send(to, frame) => frame_if_for(node, *to, frame),
        _ => None,
    }
}

/// Returns the frame of the output at index `place`, if it is a frame sent to this processor.
fn frame_at_place<A: Allocator + Copy>(
    outs: &[(Proc, Out<A>)],
    place: usize,
    node: Proc,
) -> Option<&Frame<A>>
    ensures { option_copied result ≡ frame_in_output node (slice_get outs.now place) }
{
    match outs.get(place) {
        Some(given) => frame_in(node, &given.1),
        None => None,
    }
}

/// Returns the frame at `index` among all frames in `outs`, counted from 0, if it was sent to this processor.
fn frame_at_index<'a, A: Allocator + Copy>(
    places: &[usize],
    outs: &'a [(Proc, Out<A>)],
    node: Proc,
    index: u64,
) -> Option<&'a Frame<A>>
    requires { places.now ≡ places_from 0 outs.now }
    ensures { option_copied result ≡ frame_for node (slice_get (frames_of outs.now) index) }
{
    match places.get(index as usize) {
        Some(place) => frame_at_place(outs, *place, node),
        None => None,
    }
}

/// Returns frame `number` if it was sent to this processor, otherwise `None`.
///
/// The frames in `outs` are numbered from 1 in their order.
///
/// Rules: Rings and states 14
pub(crate) fn numbered_frame<'a, A: Allocator + Copy>(
    places: &[usize],
    outs: &'a [(Proc, Out<A>)],
    node: Proc,
    number: u64,
) -> Option<&'a Frame<A>>
    requires { places.now ≡ places_from 0 outs.now }
    ensures { option_copied result ≡ frame_for node (frame_at (frames_of outs.now) number) }
{
    if number < 1 {
        return None;
    }
    frame_at_index(places, outs, node, number - 1)
}

/// Returns frame `number` of a formed ring if it was sent to this processor, otherwise `None`.
///
/// Frame 1 is `first`; the frames in `outs` are numbered from 2 in their order.
///
/// Rules: Rings and states 14
pub(crate) fn formed_ring_frame<'a, A: Allocator + Copy>(
    first: &'a OutgoingFrame<A>,
    places: &[usize],
    outs: &'a [(Proc, Out<A>)],
    node: Proc,
    number: u64,
) -> Option<&'a Frame<A>>
    requires { places.now ≡ places_from 0 outs.now }
    ensures { option_copied result ≡ frame_for node (frame_at (opening_frames (Some first.now) ++ frames_of outs.now) number) }
{
    if number < 1 {
        return None;
    }
    if number < 2 {
        return frame_if_for(node, first.to, &first.frame);
    }
    frame_at_index(places, outs, node, number - 2)
}

/// Returns a copy of a frame.
///
/// Errors: `Memory` if an allocation fails.
pub(crate) fn copied_frame<A: Allocator + Copy>(frame: &Frame<A>) -> Result<Frame<A>, Fault>
    ensures ok { IfOk result (λ copy. copy ≡ frame.now) }
    ensures refused { IfErr result (λ fault. fault ≡ Memory) }
{
    let copy = frame.clone()?;
    Ok(copy)
}

/// Returns a copy of a payload.
///
/// Errors: `Memory` if an allocation fails.
pub(crate) fn copied_payload<A: Allocator + Copy>(payload: &Payload<A>) -> Result<Payload<A>, Fault>
    ensures ok { IfOk result (λ copy. copy ≡ payload.now) }
    ensures refused { IfErr result (λ fault. fault ≡ Memory) }
{
    let copy = payload.clone()?;
    Ok(copy)
}
