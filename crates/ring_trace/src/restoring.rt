//! What a node's step restores, which a world doesn't keep.
//!
//! Formats: The command line

ghost use Rattle.std.specs.Prelude.{◌≡◌, IfOk, IfErr};
ghost use Rattle.ring_base.specs.declared.fault.Fault.TheVariants.{Memory};
ghost use Rattle.ring_wire.specs.IsFrameEncoding.{IsFrameEncoding};
ghost use Rattle.ring_trace.specs.Restoring.{IsRestoredBy};

use crate::sent_frames::SentFrame;
use ring_base::{Fault, Proc};
use ring_console::World;
use ring_node::{Input, Node};
use ring_object::Object;
use ring_wire::{Frame, decode_frame};
use std::alloc::Allocator;

/// Returns the number of places that the snapshot replaces that the node's step on this frame of the world restores.
///
/// Returns `None` if the step restores none. The world is unchanged.
///
/// Errors: `Memory` if an allocation fails.
///
/// Formats: The command line
pub(crate) fn restored_in<O: Object>(
    alloc: O::Alloc,
    world: &World<O>,
    node: Proc,
    frame: SentFrame,
) -> Result<Option<u64>, Fault> {
    let bytes = world.sent_text().get(frame.begin..frame.end).unwrap_or(&[]);
    restored_at(alloc, world, node, bytes)
}

/// Returns what the step of the world's node on the frame that these bytes encode restores.
fn restored_at<O: Object>(
    alloc: O::Alloc,
    world: &World<O>,
    node: Proc,
    bytes: &[u8],
) -> Result<Option<u64>, Fault> {
    let node = world.fixed().proc(node.number())?;
    restored_by(alloc, world.node(node), bytes)
}

/// Returns the number of places that the snapshot replaces that a node's step on a frame restores.
///
/// Returns `None` if the step restores none; a stopped node restores none. `bytes` encode the frame. A copy of the node
/// makes the step; the node itself is unchanged.
///
/// Errors: `Memory` if an allocation fails, and also if the bytes don't encode a frame.
///
/// Formats: The command line
fn restored_by<O: Object>(
    alloc: O::Alloc,
    node: &Node<O>,
    bytes: &[u8],
) -> Result<Option<u64>, Fault>
    ensures told { IfOk result (λ restored. IsRestoredBy O.sequential node.now bytes.now restored) }
    ensures refused { IfErr result (λ fault. fault ≡ Memory) }
{
    let mut copy = node.copy()?;
    let restored = step_copy(alloc, &mut copy, bytes);
    // Dropped explicitly, so it is dropped in a function generic over its type, and doesn't live until the exits.
    drop(copy);
    restored
}

/// Makes the copy's step on the frame that these bytes encode, and returns what it restores.
///
/// Errors: `Memory` if an allocation fails, and also if the bytes don't encode a frame.
fn step_copy<O: Object>(
    alloc: O::Alloc,
    copy: &mut Node<O>,
    bytes: &[u8],
) -> Result<Option<u64>, Fault>
    ensures told { IfOk result (λ restored. IsRestoredBy O.sequential copy.old bytes.now restored) }
    ensures refused { IfErr result (λ fault. fault ≡ Memory) }
{
    let frame = frame_of(alloc, bytes)?;
    match copy.step(Input::Frame(frame)) {
        Ok(outs) => Ok(outs.restored),
        Err(Fault::Stopped) => Ok(None),
        Err(_) => Err(Fault::Memory),
    }
}

/// Decodes the frame that these bytes encode.
///
/// Errors: `Memory` if an allocation fails, and also if the bytes don't encode a frame.
fn frame_of<A: Allocator + Copy>(alloc: A, bytes: &[u8]) -> Result<Frame<A>, Fault>
    ensures found { IfOk result (λ frame. IsFrameEncoding frame bytes.now) }
    ensures refused { IfErr result (λ fault. fault ≡ Memory) }
{
    match decode_frame(alloc, bytes) {
        Ok(frame) => Ok(frame),
        Err(_) => Err(Fault::Memory),
    }
}
