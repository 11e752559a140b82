//! Views of nodes for a trace, and the changes between them.
//!
//! Formats: The command line

ghost use Rattle.std.specs.Prelude.{◌≡◌, ◌↔◌, IsTrue};
ghost use Rattle.std.specs.Prelude.{◌++◌, is_some, OnOk, OnErr, IfErr};
ghost use Rattle.ring_base.specs.declared.fault.Fault.TheVariants.{Memory};
ghost use Rattle.ring_base.specs.Prefixes.{IsListPrefix};
ghost use Rattle.ring_base.specs.Processors.{size};
ghost use Rattle.ring_trace.specs.NodeReasons.{IsOpening, changes_since_opening, IsReason};
ghost use Rattle.ring_trace.specs.NodeViews.{is_new_ring, is_new_state, is_trimmed, ring_change, restored_change, change_if, changes_of};

use ring_base::{Fault, Fixed, Proc, ProcSet, RingId, State};
use ring_trace_formats::{Change, VoteShare, WaitReason};
use std::alloc::Allocator;

/// A view of a node at one moment: the facts that a trace shows.
///
/// Two views of a node give the node's changes between them.
#[derive(Clone, Copy)]
pub(crate) struct NodeView {
    /// The state of the node.
    pub state: State,
    /// The last ring that the node installed.
    ///
    /// Before the first installation, it is ring 0 of the node itself.
    pub ring: RingId,
    /// The members of that ring.
    ///
    /// Before the first installation, the node is the only member.
    pub members: ProcSet,
    /// The committed length of the node, dropped places included.
    pub committed: u64,
    /// The number of places at the beginning of the log that a snapshot replaces.
    pub trimmed: u64,
    /// The length of the log, dropped places included.
    pub log: u64,
    /// The most places that a snapshot replaces of which the node received a piece.
    pub offered: u64,
    /// The number of places that the snapshot replaces that the node's last step restored, if it restored one.
    pub restored: Option<u64>,
}

impl NodeView {
    /// Returns the view of a node at its opening.
    ///
    /// Formats: The command line
    pub fn opening(node: Proc) -> NodeView
        ensures { IsOpening node result }
    {
        NodeView {
            state: State::Gather,
            ring: RingId { seq: 0, rep: node },
            members: ProcSet::singleton(node),
            committed: 0,
            trimmed: 0,
            log: 0,
            offered: 0,
            restored: None,
        }
    }

    /// Returns whether the node is alone in its ring, so that no frame carries its messages.
    pub fn is_alone(&self) -> bool
        ensures { IsTrue result ↔ (size self.now.members ≡ 1) }
    {
        self.members.len() == 1
    }

    /// Returns the changes of the node since its opening: its state or its ring, its committed length, and its trimmed
    /// length.
    ///
    /// The lengths are listed even if they are 0.
    ///
    /// Formats: The command line
    pub fn changes(&self, nodes: Fixed) -> [Change; 3]
        ensures { result ≡ changes_since_opening nodes self.now }
    {
        let first = match self.state {
            State::Operational => self.ring_change(nodes),
            state => Change::State(state),
        };
        [
            first,
            Change::Committed(self.committed),
            Change::Trimmed(self.trimmed),
        ]
    }

    /// Adds the changes of the node since the view `before`, one step earlier, to the list.
    ///
    /// They are its ring, its state and its committed length, each only if it changed; the snapshot that the step
    /// restored, if it restored one; and its trimmed length, if it dropped more.
    ///
    /// A new ring implies the state operational, which is then not a change of its own.
    ///
    /// Errors: `Memory` if an allocation fails; a prefix of the changes may then have been added.
    ///
    /// Formats: The command line
    pub fn add_changes<A: Allocator>(
        &self,
        before: &NodeView,
        nodes: Fixed,
        changes: &mut Vec<Change, A>,
    ) -> Result<(), Fault>
        ensures ok { OnOk result (changes.new.items ≡ changes.old.items ++ changes_of nodes before.now self.now) }
        ensures err { OnErr result (IsListPrefix changes.old.items changes.new.items
            × IsListPrefix changes.new.items (changes.old.items ++ changes_of nodes before.now self.now)) }
        ensures refused { IfErr result (λ fault. fault ≡ Memory) }
    {
        let is_ring = self.is_new_ring(before);
        let is_state = self.is_new_state(before);
        let is_committed = self.committed != before.committed;
        let is_restored = self.restored.is_some();
        let is_trimmed = self.is_trimmed(before);
        push_change_if(changes, is_ring, self.ring_change(nodes))?;
        push_change_if(changes, is_state, Change::State(self.state))?;
        push_change_if(changes, is_committed, Change::Committed(self.committed))?;
        push_change_if(changes, is_restored, self.restored_change())?;
        push_change_if(changes, is_trimmed, Change::Trimmed(self.trimmed))
    }

    /// Returns whether the node installed another ring.
    fn is_new_ring(&self, before: &NodeView) -> bool
        ensures { result ≡ is_new_ring before.now self.now }
    {
        self.ring != before.ring
    }

    /// Returns whether the node's state changed, other than by a new ring, which implies its state.
    fn is_new_state(&self, before: &NodeView) -> bool
        ensures { result ≡ is_new_state before.now self.now }
    {
        let is_told = self.is_new_ring(before) && self.state == State::Operational;
        self.state != before.state && !is_told
    }

    /// Returns the change that the node installed its ring.
    fn ring_change(&self, nodes: Fixed) -> Change
        ensures { result ≡ ring_change nodes self.now }
    {
        Change::Ring {
            ring: self.ring,
            members: self.members,
            share: VoteShare::of(nodes, self.members),
        }
    }

    /// Returns the change that the step restored a snapshot.
    ///
    /// It has no meaning if the step restored none.
    fn restored_change(&self) -> Change
        ensures { result ≡ restored_change self.now }
    {
        Change::Restored(self.restored.unwrap_or(0))
    }

    /// Returns whether the node dropped first places.
    ///
    /// It did if it dropped more than it had dropped before, or more than the snapshot replaces that its step restored.
    fn is_trimmed(&self, before: &NodeView) -> bool
        ensures { result ≡ is_trimmed before.now self.now }
    {
        self.trimmed != self.restored.unwrap_or(before.trimmed)
    }

    /// Returns the reason why a call waits at the node: the first that applies.
    ///
    /// `is_sent` says whether the node has sent the call, or has it in its log if the node is alone in its ring.
    ///
    /// Formats: The command line
    pub fn wait_reason(&self, nodes: Fixed, is_sent: bool) -> WaitReason
        ensures { IsReason nodes self.now is_sent result }
    {
        let members = self.members;
        let share = VoteShare::of(nodes, members);
        match self.state {
            State::Stopped => WaitReason::Stopped,
            State::Operational if !share.is_primary => WaitReason::Minority { members, share },
            State::Operational if is_sent => WaitReason::NotSafe,
            State::Operational => WaitReason::NotSent,
            state => WaitReason::State(state),
        }
    }
}

/// Adds a change if `is_told`.
///
/// Errors: `Memory` if an allocation fails; nothing is added.
fn push_change_if<A: Allocator>(
    changes: &mut Vec<Change, A>,
    is_told: bool,
    change: Change,
) -> Result<(), Fault>
    ensures ok { OnOk result (changes.new.items ≡ changes.old.items ++ change_if is_told change) }
    ensures err { OnErr result (changes.new.items ≡ changes.old.items) }
    ensures refused { IfErr result (λ fault. fault ≡ Memory) }
{
    if is_told {
        changes.push(change)?;
    }
    Ok(())
}
