//! The installation of the running ring, with its outputs.
//!
//! Rules: Recovery 7 and 8; Outputs 1

ghost use Rattle.std.specs.Prelude.{◌≡◌, ◌≤◌, true, if◌then◌else◌, [], ◌++◌, Some, None, IfErr, OnOk};
ghost use Rattle.ring_base.specs.declared.fault.Fault.TheVariants.{Memory};
ghost use Rattle.ring_recover.specs.Deliveries.{delivery as whole_delivery};
ghost use Rattle.ring_core_spec.specs.Giving.{may_install, install, with_installation_if, user_messages_between};
ghost use Rattle.ring_core_spec.specs.Views.{front, mark, plan};
ghost use Rattle.ring_srp_transitions.specs.Installs.{change_outputs, all_installation_outputs};

use crate::installed_ring_outputs::RingProgress;
use crate::running_core::RunningCore;
use ring_base::{Fault, State};
use ring_core_spec::Out;
use ring_recover::Delivery;
use ring_srp_state::{give_deferred, give_rest, history_with_install};
use ring_wire::Message;
use std::alloc::{Allocator, Global};

/// The user messages of a ring up to number `most`, deferred until its installation.
#[derive(Drop)]
struct DeferredMessages<A: Allocator + Copy = Global> {
    most: u64,
    messages: Vec<Message<A>, A>,
}

impl<A: Allocator + Copy> RunningCore<A> {
    /// Installs the running ring if the core is in Recovery and may end it, and appends the outputs of the
    /// installation.
    ///
    /// The core may end Recovery once the three conditions of Recovery, rule 7, hold. The outputs are the transitional
    /// configuration, the rest of the old ring, the regular configuration, and what is agreed and safe in the new ring.
    /// Otherwise nothing changes, and nothing is appended.
    ///
    /// Errors: `Memory` if an allocation fails; the core's state and the contents of `outs` are then unspecified.
    ///
    /// Rules: Recovery 7; Outputs 1
    pub fn install_if_due(&mut self, outs: &mut Vec<Out<A>, A>) -> Result<(), Fault>
        ensures core { OnOk result (self.new ≡ (with_installation_if (may_install self.old) self.old []).core) }
        ensures outs { OnOk result (outs.new.items ≡ outs.old.items ++ (with_installation_if (may_install self.old) self.old []).outs) }
        ensures refused { IfErr result (λ fault. fault ≡ Memory) }
    {
        match self.delivery_if_due() {
            Some(delivery) => self.install(&delivery, outs),
            None => Ok(()),
        }
    }

    /// Returns what is delivered of the old ring, if recovery is over and the core holds every number that a
    /// transitional member reported, otherwise `None`.
    fn delivery_if_due(&self) -> Option<Delivery>
        ensures { result ≡ (if may_install self.now then Some (whole_delivery (plan self.now) self.now.held) else None) }
    {
        match &self.recovery {
            Some(recovery_state) if self.state == State::Recovery => {
                let mark = recovery_state.part.window.mark();
                if !recovery_state.ends.is_ready(self.newest_ring.members, mark) {
                    return None;
                }
                recovery_state.plan.finish(&self.installed_part.window)
            }
            _ => None,
        }
    }

    /// Installs the running ring.
    ///
    /// Appends the transitional configuration with the rest of the old ring, the regular configuration, and what is
    /// agreed and safe of the new ring.
    fn install(&mut self, delivery: &Delivery, outs: &mut Vec<Out<A>, A>) -> Result<(), Fault>
        requires due { may_install self.old ≡ true }
        requires delivery { delivery.now ≡ whole_delivery (plan self.old) self.old.held }
        ensures core { OnOk result (self.new ≡ install self.old) }
        ensures outs { OnOk result (outs.new.items ≡ outs.old.items ++ all_installation_outputs self.old) }
        ensures refused { IfErr result (λ fault. fault ≡ Memory) }
    {
        self.reserve_installation_outputs(outs)?;
        self.give_configurations(delivery, outs)?;
        let deferred = self.make_running_installed();
        let ring = self.installed.ring;
        let before = RingProgress {
            ring,
            front: deferred.most,
            mark: 0,
        };
        give_deferred(&ring, deferred.messages, outs)?;
        self.give_ring_outputs(before, outs)
    }

    /// Reserves capacity for the outputs of an installation.
    ///
    /// These are the two configurations, the messages in the old ring's window, the deferred messages of the running
    /// ring, those that its front covers after them, and its safe mark.
    fn reserve_installation_outputs(&self, outs: &mut Vec<Out<A>, A>) -> Result<(), Fault>
        ensures kept { outs.new.items ≡ outs.old.items }
        ensures refused { IfErr result (λ fault. fault ≡ Memory) }
    {
        if let Some(recovery_state) = &self.recovery {
            let window = &self.installed_part.window;
            let rest = window.highest().saturating_sub(window.mark()) as usize;
            let behind = recovery_state
                .part
                .window
                .front()
                .saturating_sub(recovery_state.most) as usize;
            let room = rest.saturating_add(recovery_state.deferred.len());
            outs.reserve(room.saturating_add(behind).saturating_add(3))?;
        }
        Ok(())
    }

    /// Appends the transitional configuration with the rest of the old ring, and the regular configuration.
    fn give_configurations(
        &self,
        delivery: &Delivery,
        outs: &mut Vec<Out<A>, A>,
    ) -> Result<(), Fault>
        requires due { may_install self.now ≡ true }
        requires delivery { delivery.now ≡ whole_delivery (plan self.now) self.now.held }
        ensures ok { OnOk result (outs.new.items ≡ outs.old.items ++ change_outputs self.now) }
        ensures refused { IfErr result (λ fault. fault ≡ Memory) }
    {
        let transitional_members = self.recovery.as_ref().unwrap().plan.transitional_members();
        outs.push(Out::Trans(
            self.installed.ring,
            self.newest_ring.ring,
            transitional_members,
        ))?;
        give_rest(&self.installed_part.window, &delivery.transitional, outs)?;
        give_rest(&self.installed_part.window, &delivery.past_gap, outs)?;
        outs.push(Out::Regular(self.newest_ring.ring, self.newest_ring.members))?;
        Ok(())
    }

    /// Makes the running ring the installed one. Returns its deferred messages.
    fn make_running_installed(&mut self) -> DeferredMessages<A>
        requires { may_install self.old ≡ true }
        ensures core { self.new ≡ install self.old }
        ensures deferred { result.messages.items ≡ user_messages_between self.old self.old.running.ring 0 result.most }
        ensures far { result.most ≤ front self.old self.old.running.ring }
        ensures safe { mark self.old self.old.running.ring ≤ result.most }
    {
        let recovery_state = self.recovery.take().unwrap();
        let history = history_with_install(&self.history, self.newest_ring);
        self.installed_part = recovery_state.part;
        self.installed = self.newest_ring;
        self.state = State::Operational;
        self.history = history;
        DeferredMessages {
            most: recovery_state.most,
            messages: recovery_state.deferred,
        }
    }
}
