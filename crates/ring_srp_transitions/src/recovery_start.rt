//! The second round of a commit token, with which Recovery begins.
//!
//! Rules: The commit token 6; Recovery 3

ghost use Rattle.std.specs.Prelude.{◌≡◌, ◌++◌, IfErr, OnOk};
ghost use Rattle.ring_base.specs.declared.fault.Fault.TheVariants.{Memory};
ghost use Rattle.ring_window.specs.Windows.{window_opening};
ghost use Rattle.ring_recover.specs.RecoveryState.{recovery_opening};
ghost use Rattle.ring_core_spec.specs.Giving.{sends_with_receivers};
ghost use Rattle.ring_core_spec.specs.CommitSteps.{commit_learned};
ghost use Rattle.ring_srp_transitions.specs.Allowing.{LearnAllowed};
ghost use Rattle.ring_srp_transitions.specs.Learns.{plan_at, core_in_recovery};

use crate::running_core::RunningCore;
use ring_base::{Fault, Ghost, ProcSet, State, ghost_now};
use ring_commit::receiver;
use ring_core_spec::OutgoingFrame;
use ring_recover::{EndCounts, Plan};
use ring_srp_state::{RecoveryState, WindowAndVisits, history_with_plan};
use ring_token::Visit;
use ring_window::Window;
use ring_wire::{BoxedCommitToken, CommitToken, Frame};
use std::alloc::Allocator;
use std::mem;

impl<A: Allocator + Copy> RunningCore<A> {
    /// Applies `Learn`: takes a commit token in its second round.
    ///
    /// The core keeps the token's entries as its plan, raises the old ring's safe mark to the greatest reported one,
    /// and is then in Recovery. The next hop is appended to `sends`. [`decide`](RunningCore::decide) must have chosen
    /// `Learn` with this token for this core.
    ///
    /// Errors: `Memory` if an allocation fails; the core's state and the contents of `sends` are then unspecified.
    ///
    /// Rules: The commit token 6; Recovery 3
    pub fn learn(
        &mut self,
        boxed: BoxedCommitToken<A>,
        sends: &mut Vec<OutgoingFrame<A>, A>,
    ) -> Result<(), Fault>
        requires { LearnAllowed self.old boxed }
        ensures core { OnOk result (self.new ≡ (commit_learned self.old boxed).core) }
        ensures sends { OnOk result (sends.new.items ≡ sends.old.items ++ sends_with_receivers (commit_learned self.old boxed).sends) }
        ensures refused { IfErr result (λ fault. fault ≡ Memory) }
    {
        let window = Window::new(self.alloc, self.newest_ring.ring)?;
        let plan = Plan::from_commit(self.me, boxed.token()).unwrap();
        let received = ghost_now(boxed.token());
        let mut forwarded = boxed;
        forwarded.advance_hop();
        let to = ProcSet::singleton(receiver(forwarded.token()));
        let frame = Frame::Commit(forwarded);
        self.enter_recovery(&received, plan, window, OutgoingFrame { to, frame });
        self.send_kept_token(sends)
    }

    /// Enters Recovery with a plan and an empty window of the running ring.
    ///
    /// The old ring's safe mark rises to the greatest one that a transitional member reported.
    fn enter_recovery(
        &mut self,
        received: &Ghost<CommitToken>,
        plan: Plan<A>,
        window: Window<A>,
        last_sent: OutgoingFrame<A>,
    )
        requires allowed { LearnAllowed self.old received.now.value }
        requires plan { plan ≡ recovery_opening self.old.me (plan_at self.old received.now.value) }
        requires window { window ≡ window_opening self.old.running.ring }
        ensures { self.new ≡ core_in_recovery self.old received.now.value last_sent }
    {
        let safe = plan.greatest_reported_safe_mark();
        let history = history_with_plan(&self.history, received, self.installed.ring, safe);
        let visit = Visit::new(self.me, self.newest_ring.ring);
        self.installed_part.visit.raise_safe_mark(safe);
        self.installed_part.window.forget(safe);
        self.state = State::Recovery;
        self.history = history;
        let recovery_state = RecoveryState {
            part: WindowAndVisits { window, visit },
            plan,
            ends: EndCounts::new(),
            most: 0,
            deferred: Vec::new(self.alloc),
        };
        // The generic `drop` and `replace` drop the old values.
        drop(mem::replace(&mut self.last_sent, Some(last_sent)));
        drop(mem::replace(&mut self.recovery, Some(recovery_state)));
    }
}
