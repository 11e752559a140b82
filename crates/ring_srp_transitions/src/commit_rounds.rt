//! Commit tokens by which a core takes part in a ring: the proposal and the first round.
//!
//! A function marked `inline(never)` keeps the large stack slot of a commit token out of its caller.
//!
//! Rules: Gather 10; The commit token 4 and 5

ghost use Rattle.std.specs.Prelude.{◌≡◌, ◌==◌, ◌∷◌, ◌++◌, ◌<◌, true, Some, IfErr, OnOk};
ghost use Rattle.ring_base.specs.Processors.{IsMember, size, smallest};
ghost use Rattle.ring_base.specs.declared.fault.Fault.TheVariants.{Memory};
ghost use Rattle.ring_base.specs.declared.state.State.TheVariants.{Gather as InGather, Commit as InCommit};
ghost use Rattle.ring_core_spec.specs.State.{floor};
ghost use Rattle.ring_core_spec.specs.Giving.{sends_with_receivers};
ghost use Rattle.ring_core_spec.specs.Joining.{proposes};
ghost use Rattle.ring_core_spec.specs.CommitSteps.{ring_joined, commit_filled};
ghost use Rattle.ring_core_spec.specs.Transitions.{without_sends, with_proposal_if};
ghost use Rattle.ring_core_spec.specs.Views.{own_entry};
ghost use Rattle.ring_join.specs.Gathering.{candidates, may_propose};
ghost use Rattle.ring_srp_transitions.specs.Allowing.{FillAllowed};

use crate::running_core::RunningCore;
use ring_base::{Fault, MAX, ProcSet, RingId, State};
use ring_commit::{CommitOutcome, propose, receiver};
use ring_core_spec::OutgoingFrame;
use ring_srp_state::history_with_ring;
use ring_wire::{BoxedCommitToken, Frame};
use std::alloc::Allocator;

impl<A: Allocator + Copy> RunningCore<A> {
    /// Proposes a ring if the core is in Gather with consensus and is the smallest candidate.
    ///
    /// The core is then in Commit, and the commit token's first hop is appended to `sends`. The ring's number is one
    /// more than the greatest that the core knows. Otherwise, or if that would be above `MAX`, nothing changes.
    ///
    /// Errors: `Memory` if an allocation fails; the core's state and the contents of `sends` are then unspecified.
    ///
    /// Rules: Gather 10; The commit token 4
    pub fn propose_if_due(&mut self, sends: &mut Vec<OutgoingFrame<A>, A>) -> Result<(), Fault>
        ensures core { OnOk result (self.new ≡ (with_proposal_if (proposes self.old) (without_sends self.old)).core) }
        ensures sends { OnOk result (sends.new.items ≡ sends.old.items ++ sends_with_receivers (with_proposal_if (proposes self.old) (without_sends self.old)).sends) }
        ensures refused { IfErr result (λ fault. fault ≡ Memory) }
    {
        if self.proposes() {
            self.propose(sends)
        } else {
            Ok(())
        }
    }

    /// Proposes a ring and takes part in it. The core must be one that may propose.
    #[inline(never)]
    fn propose(&mut self, sends: &mut Vec<OutgoingFrame<A>, A>) -> Result<(), Fault>
        requires { proposes self.old ≡ true }
        ensures core { OnOk result (self.new ≡ (with_proposal_if (proposes self.old) (without_sends self.old)).core) }
        ensures sends { OnOk result (sends.new.items ≡ sends.old.items ++ sends_with_receivers (with_proposal_if (proposes self.old) (without_sends self.old)).sends) }
        ensures refused { IfErr result (λ fault. fault ≡ Memory) }
    {
        let greatest = self.gather.greatest_number();
        let candidates = self.gather.candidates();
        match propose(self.me, greatest, candidates, self.own_entry()) {
            CommitOutcome::Pass(token) => {
                let boxed = BoxedCommitToken::new(self.alloc, token)?;
                self.join_ring(boxed, sends)
            }
            _ => Ok(()),
        }
    }

    /// Returns whether the core may propose: it is in Gather with consensus, is the smallest candidate, and knows no
    /// ring number of `MAX` or above.
    fn proposes(&self) -> bool
        ensures { result ≡ proposes self.now }
    {
        match self.state {
            State::Gather => self.may_propose(),
            State::Commit | State::Recovery | State::Operational | State::Stopped => false,
        }
    }

    fn may_propose(&self) -> bool
        requires { self.now.state ≡ InGather }
        ensures { result ≡ may_propose self.now.me (floor self.now) self.now.gathering }
    {
        self.gather.agreed().is_some() && self.is_smallest() && self.gather.greatest_number() < MAX
    }

    fn is_smallest(&self) -> bool
        ensures { result ≡ (smallest (candidates self.now.gathering) == self.now.me) }
    {
        match self.gather.candidates().smallest() {
            Some(proc) => proc == self.me,
            None => false,
        }
    }

    /// Applies `Fill`: takes a commit token in its first round.
    ///
    /// The core adds its own entry, takes part in the ring and is then in Commit. The next hop is appended to `sends`.
    /// [`decide`](RunningCore::decide) must have chosen `Fill` with this token for this core.
    ///
    /// Errors: `Memory` if an allocation fails; the core's state and the contents of `sends` are then unspecified.
    ///
    /// Rules: The commit token 5
    pub fn fill(
        &mut self,
        boxed: BoxedCommitToken<A>,
        sends: &mut Vec<OutgoingFrame<A>, A>,
    ) -> Result<(), Fault>
        requires { FillAllowed self.old boxed }
        ensures core { OnOk result (self.new ≡ (commit_filled self.old boxed).core) }
        ensures sends { OnOk result (sends.new.items ≡ sends.old.items ++ sends_with_receivers (commit_filled self.old boxed).sends) }
        ensures refused { IfErr result (λ fault. fault ≡ Memory) }
    {
        let mut forwarded = boxed;
        forwarded.advance_hop();
        forwarded.append_entry(self.own_entry());
        self.join_ring(forwarded, sends)
    }

    /// Takes part in the ring of a commit token, and sends the token.
    fn join_ring(
        &mut self,
        boxed: BoxedCommitToken<A>,
        sends: &mut Vec<OutgoingFrame<A>, A>,
    ) -> Result<(), Fault>
        requires state { self.old.state ≡ InGather }
        requires newer { floor self.old < boxed.ring.seq }
        requires member { IsMember boxed.members self.old.me }
        requires some { 0 < size boxed.members }
        ensures core { OnOk result (self.new ≡ (ring_joined self.old boxed).core) }
        ensures sends { OnOk result (sends.new.items ≡ sends.old.items ++ sends_with_receivers (ring_joined self.old boxed).sends) }
        ensures refused { IfErr result (λ fault. fault ≡ Memory) }
    {
        let token = boxed.token();
        let (ring, members) = (token.ring, token.members);
        let to = ProcSet::singleton(receiver(token));
        self.take_part(ring, members, to, Frame::Commit(boxed));
        self.send_kept_token(sends)
    }

    /// Takes part in a ring: the core records its own entry, and the frame becomes the kept token.
    fn take_part(&mut self, ring: RingId, members: ProcSet, to: ProcSet, frame: Frame<A>)
        requires state { self.old.state ≡ InGather }
        requires newer { floor self.old < ring.seq }
        requires member { IsMember members self.old.me }
        ensures { self.new ≡ record self.old {
          state = InCommit;
          running = record { ring = ring; members = members };
          last_sent = Some (record { to = to; frame = frame });
          rings = record { ring = ring; members = members }
              ∷ self.old.rings;
          reports = record { ring = ring; entry = own_entry self.old } ∷ self.old.reports;
        } }
    {
        let own = self.own_entry();
        self.state = State::Commit;
        self.newest_ring.ring = ring;
        self.newest_ring.members = members;
        self.last_sent = Some(OutgoingFrame { to, frame });
        let history = history_with_ring(&self.history, self.newest_ring, &own);
        self.history = history;
    }
}
