//! The contents of a handle: a node with the bytes that are not read yet.
//!
//! Formats: A library for C

ghost use Rattle.std.specs.Prelude.{IfOk, IfErr};
ghost use Rattle.ring_record_node.specs.RecordNodes.{IsOpeningRefused};
ghost use Rattle.totem_c.specs.Calls.{IsOpened, IsOneOf};

use ring_base::{Fault, Fixed};
use ring_record_node::{BufferedNode, Periods};
use ring_things::StandardObjects;
use std::alloc::Global;

/// The node of a handle, with the standard object.
///
/// The type has no parameters, since the handle's specification names it.
///
/// Formats: A library for C
#[derive(Drop)]
pub struct HandleContents {
    /// The node, with the bytes of its output that the C program hasn't read yet.
    pub node: BufferedNode<StandardObjects<Global>>,
}

impl HandleContents {
    /// Creates processor `me` of a group with these votes, at its opening, with these periods and no output yet.
    ///
    /// Errors, in this order: `NotMember` unless there are 1 to 16 votes, each at least 1, and `me` is 1 to their
    /// number; `Memory` if an allocation fails.
    ///
    /// Rules: Nodes that records drive 1 and 7; Processors and sets 1
    pub(crate) fn new(
        alloc: Global,
        me: u32,
        votes: &[u8],
        periods: Periods,
    ) -> Result<HandleContents, Fault>
        ensures ok { IfOk result (IsOpened me votes.now periods) }
        ensures refused { IfErr result (IsOpeningRefused (IsOneOf me votes.now)) }
    {
        let group = Fixed::with_votes(votes)?;
        let Ok(me) = u8::try_from(me) else {
            return Err(Fault::NotMember);
        };
        let node = BufferedNode::with_periods(alloc, group, me, periods)?;
        Ok(HandleContents { node })
    }
}
