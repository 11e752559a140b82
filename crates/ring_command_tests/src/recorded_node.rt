//! A node together with all its input and output records.

use ring_base::{Fault, Fixed};
use ring_object::Object;
use ring_record_node::RecordNode;

/// A node, all records it took, all its output, and the client and number of each call with a ticket.
#[derive(Drop)]
pub(crate) struct RecordedNode<O: Object> {
    alloc: O::Alloc,
    node: RecordNode<O>,
    pub(crate) asked: Vec<u8, O::Alloc>,
    pub(crate) told: Vec<u8, O::Alloc>,
    pub(crate) calls: Vec<(u64, u64), O::Alloc>,
}

impl<O: Object> RecordedNode<O> {
    /// Creates the node of processor `me`, at its opening.
    pub(crate) fn new(alloc: O::Alloc, fixed: Fixed, me: u8) -> Result<RecordedNode<O>, Fault> {
        Ok(RecordedNode {
            alloc,
            node: RecordNode::new(alloc, fixed, me)?,
            asked: Vec::new(alloc),
            told: Vec::new(alloc),
            calls: Vec::new(alloc),
        })
    }

    /// Hands the node a record, and returns its output. `BadFrame` where the record is no request or too long.
    pub(crate) fn ask(&mut self, kind: u8, bytes: &[u8]) -> Result<Vec<u8, O::Alloc>, Fault> {
        let Ok(length) = u16::try_from(bytes.len()) else {
            return Err(Fault::BadFrame);
        };
        self.asked.push(kind)?;
        self.asked.extend_from_slice(&length.to_be_bytes())?;
        self.asked.extend_from_slice(bytes)?;
        let mut told = Vec::new(self.alloc);
        match self.node.take(kind, bytes, &mut told) {
            Ok(true) => {}
            _ => return Err(Fault::BadFrame),
        }
        self.told.extend_from_slice(told.as_slice())?;
        Ok(told)
    }
}
