//! The visit of an accepted token.
//!
//! A function marked `inline(never)` keeps the large stack slot of a message or of a list of requests out of its
//! caller.
//!
//! Rules: Token and window 7 to 12

ghost use Rattle.std.specs.Prelude.{◌≡◌, ◌≤◌, ◌++◌, ◌∷◌, [], true, length, IfOk, IfErr, OnOk};
ghost use Rattle.ring_base.specs.declared.fault.Fault.TheVariants.{Memory};
ghost use Rattle.ring_base.specs.Processors.{only, less};
ghost use Rattle.ring_token.specs.Visits.{max_new_messages, requests_left};
ghost use Rattle.ring_window.specs.Held.{holds};
ghost use Rattle.ring_wire.specs.declared.frame.Frame.TheVariants.{Message as MessageFrame};
ghost use Rattle.ring_srp_transitions.specs.Allowing.{VisitAllowed};
ghost use Rattle.ring_core_spec.specs.Giving.{sends_with_receivers};
ghost use Rattle.ring_srp_transitions.specs.RunningCores.{is_running, ring_in_use};
ghost use Rattle.ring_srp_transitions.specs.Sending.{messages_of_payloads, holding};
ghost use Rattle.ring_core_spec.specs.Views.{mark, takes_number};
ghost use Rattle.ring_core_spec.specs.Visiting.{accepts, messages_sent_again, room_at, new_payloads, queue_after, to_others, token_visited};

use crate::running_core::RunningCore;
use ring_base::{Fault, Ghost, MAX, ProcSet, State, VISIT_LIMIT, WINDOW_SIZE};
use ring_core_spec::{Out, OutgoingFrame};
use ring_payload::Payload;
use ring_srp_state::{empty_ghost_list, ghost_list_with_last, send_message, take_packed};
use ring_token::requests_left;
use ring_wire::{Message, Requests, Token};
use std::alloc::Allocator;

impl<A: Allocator + Copy> RunningCore<A> {
    /// Applies `Visit`: performs the visit of an accepted token.
    ///
    /// The core again sends the requested messages that it still has, sends up to 8 new messages and holds them, and
    /// forwards the token. The frames are appended to `sends` in this order. [`decide`](RunningCore::decide) must have
    /// chosen `Visit` with this token for this core.
    ///
    /// Errors: `Memory` if an allocation fails; the core's state and the contents of `sends` are then unspecified.
    ///
    /// Rules: Token and window 7 to 10
    pub fn visit(
        &mut self,
        token: &Token,
        sends: &mut Vec<OutgoingFrame<A>, A>,
    ) -> Result<(), Fault>
        requires { VisitAllowed self.old token.now }
        ensures core { OnOk result (self.new ≡ (token_visited self.old token.now).core) }
        ensures sends { OnOk result (sends.new.items ≡ sends.old.items ++ sends_with_receivers (token_visited self.old token.now).sends) }
        ensures refused { IfErr result (λ fault. fault ≡ Memory) }
    {
        if token.requests.as_slice().is_empty() {
            self.visit_with_remaining(token, &token.requests, sends)
        } else {
            self.visit_with_requests(token, sends)
        }
    }

    /// Does the same for a token with requests, some of which may remain.
    #[inline(never)]
    fn visit_with_requests(
        &mut self,
        token: &Token,
        sends: &mut Vec<OutgoingFrame<A>, A>,
    ) -> Result<(), Fault>
        requires { VisitAllowed self.old token.now }
        ensures core { OnOk result (self.new ≡ (token_visited self.old token.now).core) }
        ensures sends { OnOk result (sends.new.items ≡ sends.old.items ++ sends_with_receivers (token_visited self.old token.now).sends) }
        ensures refused { IfErr result (λ fault. fault ≡ Memory) }
    {
        let remaining_requests = self.remaining_requests(token);
        self.visit_with_remaining(token, &remaining_requests, sends)
    }

    /// Returns an empty list with capacity for the outputs of the coming visit: an `Agreed` for each new message, and a
    /// `Safe`.
    ///
    /// If nothing is queued, the capacity is 0, and nothing is allocated. Call it before the visit: a visit frees many
    /// small blocks, and a large allocation after them is slow.
    ///
    /// Errors: `Memory` if the allocation fails; the core is unchanged.
    ///
    /// Rules: Outputs 3 and 4
    pub fn visit_output_buffer(&self) -> Result<Vec<Out<A>, A>, Fault>
        ensures ok { IfOk result (λ told. told.items ≡ []) }
        ensures refused { IfErr result (λ fault. fault ≡ Memory) }
    {
        let told = Vec::with_capacity(self.alloc, self.max_visit_outputs())?;
        Ok(told)
    }

    /// Returns the capacity of that list: 0 if nothing is queued, otherwise 2 to 9.
    fn max_visit_outputs(&self) -> usize {
        match self.queue.len().min(VISIT_LIMIT as usize) {
            0 => 0,
            new => new + 1,
        }
    }

    /// Visits an accepted token, with `remaining_requests` as those of its requests that stay.
    fn visit_with_remaining(
        &mut self,
        token: &Token,
        remaining_requests: &Requests,
        sends: &mut Vec<OutgoingFrame<A>, A>,
    ) -> Result<(), Fault>
        requires allowed { VisitAllowed self.old token.now }
        requires remaining_requests { remaining_requests.now ≡ requests_left (mark self.old token.now.ring) (holds self.old.held token.now.ring) token.now.requests }
        ensures core { OnOk result (self.new ≡ (token_visited self.old token.now).core) }
        ensures sends { OnOk result (sends.new.items ≡ sends.old.items ++ sends_with_receivers (token_visited self.old token.now).sends) }
        ensures refused { IfErr result (λ fault. fault ≡ Memory) }
    {
        self.repeat_requested(token, sends)?;
        let payloads = self.new_payloads(token)?;
        let count = payloads.len() as u64;
        let fresh = self.send_new_messages(token, payloads, sends)?;
        self.pass_token(token, remaining_requests, count, &fresh, sends)
    }

    /// Returns the requests that stay: those above the safe mark whose messages aren't held.
    fn remaining_requests(&self, token: &Token) -> Requests
        requires runs { is_running self.now.state ≡ true }
        requires passes { accepts self.now token.now ≡ true }
        ensures { result ≡ requests_left (mark self.now token.now.ring) (holds self.now.held token.now.ring) token.now.requests }
    {
        let part = self.part_in_use();
        requests_left(
            &token.requests,
            part.visit.safe(),
            |number| part.window.has_taken(number),
        )
    }

    fn other_members(&self) -> ProcSet
        ensures { result ≡ less self.now.running.members (only self.now.me) }
    {
        self.newest_ring
            .members
            .without_members(ProcSet::singleton(self.me))
    }

    /// Sends the requested messages that are held to all other members again.
    fn repeat_requested(
        &self,
        token: &Token,
        sends: &mut Vec<OutgoingFrame<A>, A>,
    ) -> Result<(), Fault>
        requires runs { is_running self.now.state ≡ true }
        requires passes { accepts self.now token.now ≡ true }
        ensures ok { OnOk result (sends.new.items ≡ sends.old.items ++ sends_with_receivers (to_others self.now (messages_sent_again self.now token.now))) }
        ensures refused { IfErr result (λ fault. fault ≡ Memory) }
    {
        let others = self.other_members();
        let window = &self.part_in_use().window;
        for &number in token.requests.as_slice() {
            if let Some(message) = window.get(number) {
                send_message(sends, others, message)?;
            }
        }
        Ok(())
    }

    /// Returns the payloads of the visit's new messages.
    ///
    /// In Operational they are made from the queue; in Recovery they are the first of the Wrapped messages and the End.
    ///
    /// Errors: `Memory` if an allocation fails; the core's queue is then unspecified.
    fn new_payloads(&mut self, token: &Token) -> Result<Vec<Payload<A>, A>, Fault>
        requires runs { is_running self.old.state ≡ true }
        requires passes { accepts self.old token.now ≡ true }
        ensures items { IfOk result (λ payloads. payloads.items ≡ new_payloads self.old token.now) }
        ensures core { OnOk result (self.new ≡ record self.old { queue = queue_after self.old.state (room_at self.old token.now) self.old.queue }) }
        ensures refused { IfErr result (λ fault. fault ≡ Memory) }
    {
        let room = max_new_messages(self.part_in_use().visit.safe(), token.seq);
        match self.state {
            State::Recovery => self.recovery_messages(room),
            State::Operational => take_packed(self.alloc, &mut self.queue, room),
            State::Gather | State::Commit | State::Stopped => Ok(Vec::new(self.alloc)),
        }
    }

    /// Sends the new messages, numbered from `seq` + 1 on, and holds them. Returns their payloads, for contracts.
    fn send_new_messages(
        &mut self,
        token: &Token,
        payloads: Vec<Payload<A>, A>,
        sends: &mut Vec<OutgoingFrame<A>, A>,
    ) -> Result<Ghost<[Payload<A>; 0]>, Fault>
        requires passes { accepts self.old token.now ≡ true }
        requires runs { is_running self.old.state ≡ true }
        requires count { length payloads.items ≤ max_new_messages (mark self.old token.now.ring) token.now.seq }
        ensures fresh { IfOk result (λ fresh. fresh.value ≡ payloads.items) }
        ensures core { OnOk result (self.new ≡ holding self.old token.now payloads.items) }
        ensures sends { OnOk result (sends.new.items ≡ sends.old.items ++ sends_with_receivers (to_others self.old (messages_of_payloads self.old token.now payloads.items))) }
        ensures refused { IfErr result (λ fault. fault ≡ Memory) }
    {
        if payloads.is_empty() {
            return Ok(empty_ghost_list());
        }
        self.send_each_new(token, payloads, sends)
    }

    /// Does the same if there are new messages.
    #[inline(never)]
    fn send_each_new(
        &mut self,
        token: &Token,
        payloads: Vec<Payload<A>, A>,
        sends: &mut Vec<OutgoingFrame<A>, A>,
    ) -> Result<Ghost<[Payload<A>; 0]>, Fault>
        requires passes { accepts self.old token.now ≡ true }
        requires runs { is_running self.old.state ≡ true }
        requires count { length payloads.items ≤ max_new_messages (mark self.old token.now.ring) token.now.seq }
        ensures fresh { IfOk result (λ fresh. fresh.value ≡ payloads.items) }
        ensures core { OnOk result (self.new ≡ holding self.old token.now payloads.items) }
        ensures sends { OnOk result (sends.new.items ≡ sends.old.items ++ sends_with_receivers (to_others self.old (messages_of_payloads self.old token.now payloads.items))) }
        ensures refused { IfErr result (λ fault. fault ≡ Memory) }
    {
        let others = self.other_members();
        let me = self.me;
        let mut fresh = empty_ghost_list();
        let mut number = token.seq;
        for payload in payloads {
            number += 1;
            fresh = ghost_list_with_last(&fresh, &payload);
            let message = Message {
                ring: token.ring,
                number,
                sender: me,
                payload,
            };
            self.send_and_hold(others, message, sends)?;
        }
        Ok(fresh)
    }

    /// Sends a message, unless it has no receiver, and holds it.
    ///
    /// It must belong to the ring in use, and its number must be new there.
    fn send_and_hold(
        &mut self,
        to: ProcSet,
        message: Message<A>,
        sends: &mut Vec<OutgoingFrame<A>, A>,
    ) -> Result<(), Fault>
        requires ring { message.ring ≡ ring_in_use self.old.state self.old }
        requires new { takes_number self.old message.ring message.number ≡ true }
        ensures core { OnOk result (self.new ≡ record self.old { held = message ∷ self.old.held }) }
        ensures sends { OnOk result (sends.new.items ≡ sends.old.items ++ sends_with_receivers (record { to = to; frame = MessageFrame message } ∷ [])) }
        ensures refused { IfErr result (λ fault. fault ≡ Memory) }
    {
        send_message(sends, to, &message)?;
        self.hold(message);
        Ok(())
    }
}

/// Returns the maximum number of new messages in a visit: at most 8, up to the end of the window and up to `MAX`.
///
/// `mark` is the member's safe mark, and must be at most the token's `seq`.
fn max_new_messages(mark: u64, seq: u64) -> u64
    requires { mark ≤ seq }
    ensures { result ≡ max_new_messages mark seq }
{
    let in_window = WINDOW_SIZE.saturating_sub(seq - mark);
    VISIT_LIMIT.min(in_window).min(MAX.saturating_sub(seq))
}
