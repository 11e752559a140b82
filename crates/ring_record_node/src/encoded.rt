//! The outputs of a step, with its frames already encoded.
//!
//! Rules: Nodes that records drive 3 and 4

ghost use Rattle.std.specs.Prelude.{◌≡◌, [], ◌++◌, OnOk, IfErr};
ghost use Rattle.std.specs.Io.KnownBytes.{Appends};
ghost use Rattle.ring_base.specs.declared.fault.Fault.TheVariants.{Memory};
ghost use Rattle.ring_order_proof.specs.NodeFits.{SendsFit};
ghost use Rattle.ring_records.specs.NodeRecords.{answers_text, restored_text, all_committed_text};
ghost use Rattle.ring_record_node.specs.NodeOutputs.{sends_text};

use bytes::BytesMut;
use ring_base::Fault;
use ring_core_spec::OutgoingFrame;
use ring_node::Outs;
use ring_records::{encode_frame_record, write_all_committed, write_answers, write_restored};
use std::alloc::Allocator;
use std::io::{self, Write};

/// The outputs of a step of a node, with the records of its frames.
/// Rules: Nodes that records drive 3 and 4
#[derive(Drop)]
pub(crate) struct EncodedStep<A: Allocator + Copy + Drop> {
    /// The outputs of the step.
    pub(crate) outs: Outs<A>,
    /// The bytes of one record for each frame that the step sent, in the order of sending.
    pub(crate) records: BytesMut<A>,
    /// Whether the step installed a ring.
    pub(crate) has_installed: bool,
}

/// Appends to `records`, which is empty, the records of a step's frames, each with its receivers, in order.
/// Errors: `Memory`; `records` is then unspecified.
/// Rules: Nodes that records drive 3 and 4
/// Formats: Records
pub(crate) fn encode_sends<A: Allocator + Copy + Drop>(
    alloc: A,
    sends: &[OutgoingFrame<A>],
    records: &mut BytesMut<A>,
) -> Result<(), Fault>
    requires fits { SendsFit sends.now }
    requires empty { records.old.items ≡ [] }
    ensures ok { OnOk result (records.new.items ≡ sends_text sends.now) }
    ensures refused { IfErr result (λ fault. fault ≡ Memory) }
{
    let mut frame = BytesMut::new(alloc);
    for sent in sends {
        encode_frame_record(sent.to, &sent.frame, &mut frame, records)?;
    }
    Ok(())
}

/// Writes the records of a step's outputs: its frames, its answers, the number of places that it restored, and the
/// newly committed calls. The record that ends the output isn't among them.
/// Errors: those of `out`, to which an unspecified part of the records is then written.
/// Rules: Nodes that records drive 3
/// Formats: Records
pub(crate) fn write_encoded<A: Allocator + Copy + Drop, W: Write>(
    encoded: &EncodedStep<A>,
    out: &mut W,
) -> io::Result<()>
    ensures { OnOk result (Appends (W.contents out.old) (W.contents out.new)
        (encoded.now.records.items ++ answers_text encoded.now.outs.answers.items ++ restored_text encoded.now.outs.restored
        ++ all_committed_text encoded.now.outs.committed.items)) }
{
    out.write_all(encoded.records.as_slice())?;
    write_answers(encoded.outs.answers.as_slice(), out)?;
    write_restored(encoded.outs.restored, out)?;
    write_all_committed(encoded.outs.committed.as_slice(), out)
}
