//! The input that received bytes are to a node: the frame that they encode, or noise.
//!
//! Rules: Nodes that records drive 2

ghost use Rattle.std.specs.Prelude.{IfSome};
ghost use Rattle.ring_node_spec.specs.NodeLimits.{InputFits};
ghost use Rattle.ring_record_node.specs.RecordNodes.{IsDecodedInput};

use ring_base::Fault;
use ring_node::Input;
use ring_wire::decode_frame;
use std::alloc::Allocator;

/// Returns the input of the node that the bytes of a frame record are: the frame that they encode, or noise where they
/// encode none. Returns `None` where memory is refused.
/// Rules: Nodes that records drive 2
pub(crate) fn input_of<A: Allocator + Copy>(alloc: A, bytes: &[u8]) -> Option<Input<A>>
    ensures heard { IfSome result (λ input. IsDecodedInput bytes.now input) }
    ensures fits { IfSome result (λ input. InputFits input) }
{
    match decode_frame(alloc, bytes) {
        Ok(frame) => Some(Input::Frame(frame)),
        Err(Fault::BadFrame) => Some(Input::Noise),
        Err(_) => None,
    }
}
