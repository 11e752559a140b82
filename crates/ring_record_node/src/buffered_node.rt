//! A node within another program, which hands it records and reads its output records from a buffer.
//! Rules: Nodes that records drive 1; Refusals 1
//! Formats: Records; A library for C

ghost use Rattle.std.specs.Prelude.{◌≡◌, ◌≤◌, ◌<◌, [], ◌++◌, None, Some, length, take, OnOk, IfOk, IfErr};
ghost use Rattle.ring_base.specs.Group.{IsInGroup};
ghost use Rattle.ring_timers.specs.Periods.{default_periods};
ghost use Rattle.ring_record_node.specs.NodeOutputs.{record_node_opening};
ghost use Rattle.ring_record_node.specs.BufferedNodeView.{IsRecordBuffered, IsRecordRefused};
ghost use Rattle.ring_record_node.specs.RecordNodes.{IsOpeningRefused};

use crate::record_node::RecordNode;
use ring_base::{Fault, Fixed};
use ring_clock::Periods;
use ring_object::Object;
use std::collections::VecDeque;
use std::io::Read;
use std::marker::Model;

/// A node that takes records, and keeps its output records until they are read.
///
/// Contracts see the unread bytes and the node, which is `None` once an allocation for its output has failed.
///
/// Rules: Nodes that records drive 1
/// Formats: A library for C
#[derive(Drop)]
pub struct BufferedNode<O: Object> {
    record_node: Option<RecordNode<O>>,
    told: VecDeque<u8, O::Alloc>,
}

impl<O: Object> Model for BufferedNode<O> {
    ghost use Rattle.ring_record_node.specs.BufferedNodeView.{BufferedNodeView};

    ghost Value = { BufferedNodeView O.Alloc };

    ghost view = { λ e. record { node = e.record_node; unread = e.told.items } };
}

impl<O: Object> BufferedNode<O> {
    /// Creates the node of processor `me` of the group `fixed`, at its opening, with the default periods.
    ///
    /// No bytes are unread.
    ///
    /// Errors, in this order: `NotMember` unless `me` is 1 to N; `Memory` if an allocation fails.
    ///
    /// Rules: Nodes that records drive 1 and 7
    pub fn new(alloc: O::Alloc, fixed: Fixed, me: u8) -> Result<BufferedNode<O>, Fault>
        ensures ok { IfOk result (λ buffered_node. buffered_node ≡ record { node = Some (record_node_opening fixed me default_periods); unread = [] }) }
        ensures refused { IfErr result (IsOpeningRefused (IsInGroup fixed me)) }
    {
        BufferedNode::with_periods(alloc, fixed, me, Periods::default())
    }

    /// Creates the node of processor `me` of the group `fixed`, at its opening, with these periods of its timeouts.
    ///
    /// No bytes are unread. The periods count only once a record brings the time.
    ///
    /// Errors, in this order: `NotMember` unless `me` is 1 to N; `Memory` if an allocation fails.
    ///
    /// Rules: Nodes that records drive 1 and 7
    pub fn with_periods(
        alloc: O::Alloc,
        fixed: Fixed,
        me: u8,
        periods: Periods,
    ) -> Result<BufferedNode<O>, Fault>
        ensures ok { IfOk result (λ buffered_node. buffered_node ≡ record { node = Some (record_node_opening fixed me periods); unread = [] }) }
        ensures refused { IfErr result (IsOpeningRefused (IsInGroup fixed me)) }
    {
        let record_node = RecordNode::with_periods(alloc, fixed, me, periods)?;
        Ok(BufferedNode {
            record_node: Some(record_node),
            told: VecDeque::new(alloc),
        })
    }

    /// Takes the record of this kind and these bytes: carries out its request, and appends the node's output to the
    /// unread bytes.
    ///
    /// What the node itself refuses is reported in this output and isn't an error.
    ///
    /// Errors:
    /// - `Stopped` if an earlier `Memory` ended the node; nothing is done.
    /// - `BadFrame` if the record isn't a request; nothing is done.
    /// - `Memory` if an allocation for the output fails. The node and the unread bytes are then dropped, and every
    ///   later record is refused with `Stopped`.
    ///
    /// Rules: Nodes that records drive 1 to 4
    pub fn take(&mut self, kind: u8, bytes: &[u8]) -> Result<(), Fault>
        ensures ok { OnOk result (IsRecordBuffered O.sequential self.old kind bytes.now self.new) }
        ensures refused { IfErr result (λ fault. IsRecordRefused self.old kind bytes.now fault self.new) }
    {
        let Some(record_node) = &mut self.record_node else {
            return Err(Fault::Stopped);
        };
        match record_node.take(kind, bytes, &mut self.told) {
            Ok(true) => Ok(()),
            Ok(false) => Err(Fault::BadFrame),
            Err(_) => {
                drop(self.record_node.take());
                self.told.clear();
                Err(Fault::Memory)
            }
        }
    }

    /// Moves the first unread bytes to the front of `into`, and returns their number.
    ///
    /// It is 0 only if no bytes are unread or `into` is empty. Bytes may stay unread although `into` has room for more,
    /// so read until it is 0. The rest of `into` is unspecified. Does not allocate.
    ///
    /// Formats: A library for C
    pub fn read(&mut self, into: &mut [u8]) -> usize
        ensures room { result ≤ length into.new }
        ensures moved { self.old.unread ≡ take result into.new ++ self.new.unread }
        ensures end { result ≡ 0 → 0 < length into.new → self.new.unread ≡ [] }
        ensures node { self.new.node ≡ self.old.node }
    {
        self.told.read(into).unwrap_or(0)
    }
}
