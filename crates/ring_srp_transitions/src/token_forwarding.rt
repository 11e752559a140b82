//! The end of a visit: forwards the token and records the visit.
//!
//! Rules: Token and window 7, 8 and 10

ghost use Rattle.std.specs.Prelude.{◌≡◌, ◌≤◌, ◌<◌, ◌+◌, ◌++◌, ◌∷◌, [], true, length, IfErr, OnOk};
ghost use Rattle.std.specs.List.Sorted.{IsStrictlyIncreasing};
ghost use Rattle.ring_base.specs.Numbers.{max_number};
ghost use Rattle.ring_base.specs.declared.fault.Fault.TheVariants.{Memory};
ghost use Rattle.ring_base.specs.declared.state.State.TheVariants.{Recovery as InRecovery, Operational as InOperational};
ghost use Rattle.ring_core_spec.specs.Giving.{sends_with_receivers};
ghost use Rattle.ring_core_spec.specs.Visiting.{to_next};
ghost use Rattle.ring_srp_transitions.specs.RunningCores.{is_running};
ghost use Rattle.ring_srp_transitions.specs.Passing.{forwarded, token_passed_on};

use crate::running_core::RunningCore;
use ring_base::{Fault, Ghost, ProcSet, State};
use ring_core_spec::OutgoingFrame;
use ring_payload::Payload;
use ring_srp_state::history_with_core_visit;
use ring_wire::{Requests, Token};
use std::alloc::Allocator;

impl<A: Allocator + Copy> RunningCore<A> {
    /// Forwards the token to the next member, with the new requests, and records the visit.
    ///
    /// This may raise the safe mark; the window then drops the messages up to the mark. `count` is the number of new
    /// messages, which the core must hold already; the token's `seq` plus `count` must be at most `MAX`. `fresh` has
    /// their payloads, for contracts.
    ///
    /// Errors: `Memory` if an allocation fails; the core's state and the contents of `sends` are then unspecified.
    ///
    /// Rules: Token and window 7, 8 and 10
    pub(crate) fn pass_token(
        &mut self,
        token: &Token,
        remaining_requests: &Requests,
        count: u64,
        fresh: &Ghost<[Payload<A>; 0]>,
        sends: &mut Vec<OutgoingFrame<A>, A>,
    ) -> Result<(), Fault>
        requires runs { is_running self.old.state ≡ true }
        requires ring { token.now.ring ≡ self.old.running.ring }
        requires number { token.now.number < max_number }
        requires seq { token.now.seq + count ≤ max_number }
        requires count { length fresh.now.value ≡ count }
        requires remaining_requests { IsStrictlyIncreasing remaining_requests.now }
        ensures core { OnOk result (self.new ≡ token_passed_on self.old token.now remaining_requests.now fresh.now.value) }
        ensures sends { OnOk result (sends.new.items ≡ sends.old.items ++ sends_with_receivers (to_next self.old (forwarded self.old token.now remaining_requests.now count) ∷ [])) }
        ensures refused { IfErr result (λ fault. fault ≡ Memory) }
    {
        self.keep_forwarded_token(token, remaining_requests, count, fresh)?;
        self.send_kept_token(sends)
    }

    /// Makes the forwarded token the kept one, and records the visit.
    fn keep_forwarded_token(
        &mut self,
        token: &Token,
        remaining_requests: &Requests,
        count: u64,
        fresh: &Ghost<[Payload<A>; 0]>,
    ) -> Result<(), Fault>
        requires runs { is_running self.old.state ≡ true }
        requires ring { token.now.ring ≡ self.old.running.ring }
        requires number { token.now.number < max_number }
        requires seq { token.now.seq + count ≤ max_number }
        requires count { length fresh.now.value ≡ count }
        requires remaining_requests { IsStrictlyIncreasing remaining_requests.now }
        ensures core { OnOk result (self.new ≡ token_passed_on self.old token.now remaining_requests.now fresh.now.value) }
        ensures refused { IfErr result (λ fault. fault ≡ Memory) }
    {
        match self.state {
            State::Recovery => self.pass_in_recovery(token, remaining_requests, count, fresh),
            _ => {
                self.pass_in_operational(token, remaining_requests, count, fresh);
                Ok(())
            }
        }
    }

    /// Does the same in Recovery. It first defers the user messages that the window may drop.
    fn pass_in_recovery(
        &mut self,
        token: &Token,
        remaining_requests: &Requests,
        count: u64,
        fresh: &Ghost<[Payload<A>; 0]>,
    ) -> Result<(), Fault>
        requires state { self.old.state ≡ InRecovery }
        requires ring { token.now.ring ≡ self.old.running.ring }
        requires number { token.now.number < max_number }
        requires seq { token.now.seq + count ≤ max_number }
        requires count { length fresh.now.value ≡ count }
        requires remaining_requests { IsStrictlyIncreasing remaining_requests.now }
        ensures core { OnOk result (self.new ≡ token_passed_on self.old token.now remaining_requests.now fresh.now.value) }
        ensures refused { IfErr result (λ fault. fault ≡ Memory) }
    {
        let to = ProcSet::singleton(self.newest_ring.members.next_cyclic(self.me));
        if let Some(recovery_state) = &mut self.recovery {
            recovery_state.defer_messages()?;
            recovery_state.part.forward_token(
                token,
                remaining_requests,
                count,
                fresh,
                to,
                &mut self.last_sent,
            );
            self.history = history_with_core_visit(&self.history, &recovery_state.part.visit);
        }
        Ok(())
    }

    /// Does the same in Operational, where the running ring is the installed one.
    fn pass_in_operational(
        &mut self,
        token: &Token,
        remaining_requests: &Requests,
        count: u64,
        fresh: &Ghost<[Payload<A>; 0]>,
    )
        requires state { self.old.state ≡ InOperational }
        requires ring { token.now.ring ≡ self.old.running.ring }
        requires number { token.now.number < max_number }
        requires seq { token.now.seq + count ≤ max_number }
        requires count { length fresh.now.value ≡ count }
        requires remaining_requests { IsStrictlyIncreasing remaining_requests.now }
        ensures { self.new ≡ token_passed_on self.old token.now remaining_requests.now fresh.now.value }
    {
        let to = ProcSet::singleton(self.newest_ring.members.next_cyclic(self.me));
        self.installed_part.forward_token(
            token,
            remaining_requests,
            count,
            fresh,
            to,
            &mut self.last_sent,
        );
        self.history = history_with_core_visit(&self.history, &self.installed_part.visit);
    }
}
