//! The record of a sent frame with its receivers.
//!
//! Rules: Nodes that records drive 3
//! Formats: Records

ghost use Rattle.std.specs.Prelude.{◌≡◌, ◌++◌, OnOk, IfErr};
ghost use Rattle.ring_base.specs.declared.fault.Fault.TheVariants.{Memory};
ghost use Rattle.ring_wire.specs.Frames.{FrameFits};
ghost use Rattle.ring_records.specs.NodeRecords.{frame_record};

use crate::kinds;
use byteorder::{BigEndian, ByteOrder};
use bytes::BytesMut;
use ring_base::{Fault, ProcSet};
use ring_wire::{Frame, Wire};
use std::alloc::Allocator;

/// Appends the record of `frame`, with its receivers `to`, to `out`.
///
/// `frame` must be within the limits of its format. `encoded` is a scratch buffer: its contents are replaced.
///
/// Errors: `Memory` if an allocation fails; the contents of `out` and `encoded` are then unspecified.
///
/// Rules: Nodes that records drive 3
/// Formats: Records
pub fn encode_frame_record<A: Allocator + Copy + Drop>(
    to: ProcSet,
    frame: &Frame<A>,
    encoded: &mut BytesMut<A>,
    out: &mut BytesMut<A>,
) -> Result<(), Fault>
    requires { FrameFits frame.now }
    ensures ok { OnOk result (out.new.items ≡ out.old.items ++ frame_record to frame.now) }
    ensures refused { IfErr result (λ fault. fault ≡ Memory) }
{
    encoded.clear();
    frame.put(encoded)?;
    let mut head = [kinds::FRAME; 5];
    BigEndian::write_u16(&mut head[1..3], (2 + encoded.len()) as u16);
    BigEndian::write_u16(&mut head[3..5], to.bits());
    out.extend_from_slice(&head)?;
    out.extend_from_slice(encoded.as_slice())?;
    Ok(())
}
