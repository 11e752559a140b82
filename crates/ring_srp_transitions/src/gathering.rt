//! Gather: how a core enters it, what a join does there, and which joins are sent.
//!
//! Rules: Gather 1 and 4 to 8; Timeouts 3 and 4

ghost use Rattle.std.specs.Prelude.{◌≡◌, true, [], ◌∷◌, ◌++◌, IfErr, OnOk, None};
ghost use Rattle.ring_base.specs.declared.fault.Fault.TheVariants.{Memory};
ghost use Rattle.ring_base.specs.declared.state.State.TheVariants.{Gather as InGather};
ghost use Rattle.ring_join.specs.Gathering.{gathering_opening, with_agreement, join_merged, silent_given_up, has_same_sets};
ghost use Rattle.ring_core_spec.specs.State.{floor};
ghost use Rattle.ring_core_spec.specs.Transitions.{last_sent_repeated};
ghost use Rattle.ring_core_spec.specs.Giving.{sends_with_receivers};
ghost use Rattle.ring_core_spec.specs.Joining.{first_procs, gather_entered, with_gathering, join_announcement, join_invitation};

use crate::running_core::RunningCore;
use ring_base::{Fault, ProcSet, State};
use ring_core_spec::OutgoingFrame;
use ring_join::Gather;
use ring_srp_state::{push_frame, send_copy};
use ring_wire::{Frame, Join};
use std::alloc::Allocator;
use std::collections::VecDeque;

impl<A: Allocator + Copy> RunningCore<A> {
    /// Returns the `proc_set` with which Gather begins: the members of the last installed ring, or all processors if
    /// none was installed.
    fn first_procs(&self) -> ProcSet
        ensures { result ≡ first_procs self.now }
    {
        if self.installed.ring.seq == 0 {
            self.fixed.everybody()
        } else {
            self.installed.members
        }
    }

    /// Returns the sets and agreement with which this core would enter Gather.
    ///
    /// Rules: Gather 1
    pub(crate) fn new_gather(&self) -> Gather
        ensures { result ≡ record { me = self.now.me; floor = floor self.now; gathering = gathering_opening (first_procs self.now) } }
    {
        Gather::new(self.me, self.floor(), self.first_procs())
    }

    /// Enters Gather, from any state.
    ///
    /// The sets start with the members of the last installed ring, or with all processors if none was installed. No
    /// processor is given up, and only the node itself agrees. The queue, the kept token and the state of Recovery are
    /// dropped. Sends nothing: [`send_own_join`](RunningCore::send_own_join) sends the join.
    ///
    /// Rules: Gather 1
    pub fn enter_gather(&mut self)
        ensures { self.new ≡ gather_entered self.old }
    {
        let gather = self.new_gather();
        self.state = State::Gather;
        self.gather = gather;
        self.last_sent = None;
        self.queue = VecDeque::new(self.alloc);
        self.recovery = None;
    }

    /// Gives up each candidate that doesn't agree, by adding it to `fail_set`.
    ///
    /// Then agreement falls back to the node itself. The state, which should be Gather, isn't checked. Sends nothing:
    /// [`send_own_join`](RunningCore::send_own_join) sends the join.
    ///
    /// Rules: Gather 6
    pub fn give_up(&mut self)
        ensures { self.new ≡ with_gathering self.old (silent_given_up self.old.me self.old.gathering) }
    {
        self.gather.give_up();
    }

    /// Records that the sender of the join agrees, and counts the join's number.
    ///
    /// The join must have exactly the node's own sets. The state, which should be Gather, isn't checked. Sends nothing.
    ///
    /// Rules: Gather 3, 4 and 8
    pub fn agree(&mut self, join: &Join)
        requires { has_same_sets self.old.gathering join.now ≡ true }
        ensures { self.new ≡ with_gathering self.old (with_agreement self.old.gathering join.now) }
    {
        self.gather.count_agreement(join);
    }

    /// Widens the node's sets by those of a join.
    ///
    /// Agreement falls back to the node itself; the join's sender agrees at once if its sets equal the widened ones.
    /// The state, which should be Gather, isn't checked. Sends nothing: [`send_own_join`](RunningCore::send_own_join)
    /// sends the join.
    ///
    /// Rules: Gather 5
    pub fn merge_join(&mut self, join: &Join)
        ensures { self.new ≡ with_gathering self.old (join_merged self.old.me self.old.gathering join.now) }
    {
        self.gather.merge_join(join);
    }

    /// Appends the node's own join to `sends`, addressed to all other processors of the group (1 to N).
    ///
    /// The join has the node's floor and its present sets. In a group of one nothing is appended. The state must be
    /// Gather.
    ///
    /// Errors: `Memory` if an allocation fails; the contents of `sends` are then unspecified.
    ///
    /// Rules: Gather 2 and 7
    pub fn send_own_join(&self, sends: &mut Vec<OutgoingFrame<A>, A>) -> Result<(), Fault>
        requires { self.now.state ≡ InGather }
        ensures ok { OnOk result (sends.new.items ≡ sends.old.items ++ sends_with_receivers (join_announcement self.now ∷ [])) }
        ensures refused { IfErr result (λ fault. fault ≡ Memory) }
    {
        let others = self
            .fixed
            .everybody()
            .without_members(ProcSet::singleton(self.me));
        push_frame(sends, others, Frame::Join(self.gather.my_join()))
    }

    /// Appends a join to `sends`, addressed to the processors outside the running ring.
    ///
    /// An Operational node does so at a join timeout; the state isn't checked. The join has the node's floor, the
    /// ring's members as `proc_set`, and an empty `fail_set`. If no processor is outside the ring, nothing is appended.
    ///
    /// Errors: `Memory` if an allocation fails; the contents of `sends` are then unspecified.
    ///
    /// Rules: Timeouts 4
    pub fn send_invitation_join(&self, sends: &mut Vec<OutgoingFrame<A>, A>) -> Result<(), Fault>
        ensures ok { OnOk result (sends.new.items ≡ sends.old.items ++ sends_with_receivers (join_invitation self.now ∷ [])) }
        ensures refused { IfErr result (λ fault. fault ≡ Memory) }
    {
        let members = self.newest_ring.members;
        let join = Join {
            sender: self.me,
            number: self.floor(),
            proc_set: members,
            fail_set: ProcSet::new(),
        };
        push_frame(
            sends,
            self.fixed.everybody().without_members(members),
            Frame::Join(join),
        )
    }

    /// Appends a copy of the kept token to `sends`, addressed to the same receiver as before.
    ///
    /// If there is no kept token, nothing is appended.
    ///
    /// Errors: `Memory` if an allocation fails; the contents of `sends` are then unspecified.
    ///
    /// Rules: Timeouts 3; Rings and states 10
    pub fn send_kept_token(&self, sends: &mut Vec<OutgoingFrame<A>, A>) -> Result<(), Fault>
        ensures ok { OnOk result (sends.new.items ≡ sends.old.items ++ sends_with_receivers (last_sent_repeated self.now.last_sent)) }
        ensures refused { IfErr result (λ fault. fault ≡ Memory) }
    {
        match &self.last_sent {
            None => Ok(()),
            Some(last_sent) => send_copy(sends, last_sent.to, &last_sent.frame),
        }
    }
}
