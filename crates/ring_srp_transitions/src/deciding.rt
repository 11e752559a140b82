//! Chooses the transition for an input. All conditions are tested here.
//!
//! Rules: Processors and sets 5; Rings and states 8 and 9; Timeouts 2; Gather 4, 12 and 13; The commit token 5 to 8;
//! Token and window 6 and 11

ghost use Rattle.std.specs.Prelude.{◌≡◌, ◌&&◌, true, None, IfSome, if◌then◌else◌};
ghost use Rattle.ring_payload.specs.Packing.{is_queued};
ghost use Rattle.ring_token.specs.TokenVisits.{first_token};
ghost use Rattle.ring_srp_transitions.specs.CodeTransitions.{transition_of};
ghost use Rattle.ring_core_spec.specs.Deciding.{decide, decide_frame, decide_token, decide_join, decide_commit};
ghost use Rattle.ring_core_spec.specs.Deciding.{decide_round, decide_timeout, decide_payload, decide_in_operational, transition_in_gather};
ghost use Rattle.ring_core_spec.specs.Deciding.{transition_into_gather, decide_join_elsewhere, is_taken};
ghost use Rattle.ring_core_spec.specs.Deciding.{Take as TakeAct, Visit as VisitAct, Ignore as IgnoreAct};
ghost use Rattle.ring_core_spec.specs.declared.input.Input.TheVariants.{Frame as FrameInput};
ghost use Rattle.ring_core_spec.specs.Joining.{is_gather_trigger};
ghost use Rattle.ring_core_spec.specs.CommitSteps.{takes_first_round, takes_second_round, takes_start};
ghost use Rattle.ring_srp_transitions.specs.RunningCores.{is_running, ring_in_use};
ghost use Rattle.ring_core_spec.specs.Views.{takes_number};
ghost use Rattle.ring_base.specs.Rings.{same_ring};
ghost use Rattle.ring_base.specs.Processors.{has};
ghost use Rattle.ring_core_spec.specs.Visiting.{accepts};

use crate::running_core::RunningCore;
use crate::transition::Transition;
use ring_base::{Kind, RingId, State};
use ring_commit::{Configuration, is_first_round, is_second_round, is_start, is_token_at};
use ring_core_spec::{Input, names_only_group};
use ring_join::JoinEffect;
use ring_payload::Payload;
use ring_srp_state::is_queued;
use ring_wire::{BoxedCommitToken, CommitToken, Frame, Join, Message, Requests, Token};
use std::alloc::Allocator;

impl<A: Allocator + Copy> RunningCore<A> {
    /// Returns the transition that the core makes for an input in its present state, `Ignore` for an input without
    /// effect.
    ///
    /// All conditions of the rules are tested here, so that applying the transition tests nothing. Changes nothing, and
    /// does not allocate.
    ///
    /// Rules: Processors and sets 5 and 6; Rings and states 8 and 9; Timeouts 2
    pub fn decide(&self, input: Input<A>) -> Transition<A>
        ensures { transition_of result ≡ decide self.now input }
    {
        match input {
            Input::Frame(frame) => {
                if names_only_group(self.fixed, &frame) {
                    self.decide_frame(frame)
                } else {
                    Transition::Ignore
                }
            }
            Input::Timeout(kind) => self.decide_timeout(kind),
            Input::Send(payload) => self.decide_payload(payload),
        }
    }

    /// Returns the frame's token if it is a token that the core would accept now, otherwise `None`.
    ///
    /// The token is borrowed from the frame, so that a visit needs no copy of it. [`decide`](RunningCore::decide) would
    /// choose `Visit` with this token.
    ///
    /// Rules: Token and window 6
    pub fn token_to_visit<'a>(&self, frame: &'a Frame<A>) -> Option<&'a Token>
        ensures { IfSome result (λ token. VisitAct token.now ≡ decide self.now (FrameInput frame.now)) }
    {
        match frame {
            Frame::Token(token) => {
                if names_only_group(self.fixed, frame) && self.would_visit(token) {
                    Some(token)
                } else {
                    None
                }
            }
            _ => None,
        }
    }

    /// Returns the frame's message if it is a message that the core would take now, otherwise `None`.
    ///
    /// The message is borrowed from the frame, so that only a message that is taken needs a copy.
    /// [`decide`](RunningCore::decide) would choose `Take` with this message.
    ///
    /// Rules: Token and window 11
    pub fn message_to_take<'a>(&self, frame: &'a Frame<A>) -> Option<&'a Message<A>>
        ensures { IfSome result (λ message. TakeAct message.now ≡ decide self.now (FrameInput frame.now)) }
    {
        match frame {
            Frame::Message(message) => {
                if names_only_group(self.fixed, frame) && self.takes_message(message) {
                    Some(message)
                } else {
                    None
                }
            }
            _ => None,
        }
    }

    fn decide_frame(&self, frame: Frame<A>) -> Transition<A>
        ensures { transition_of result ≡ decide_frame self.now frame }
    {
        match frame {
            Frame::Message(message) => {
                if self.takes_message(&message) {
                    Transition::Take(message)
                } else {
                    Transition::Ignore
                }
            }
            Frame::Token(token) => self.decide_token(token),
            Frame::Join(join) => self.decide_join(join),
            Frame::Commit(boxed) => self.decide_commit(boxed),
        }
    }

    /// Returns whether a message is taken: its ring is the one in use, its sender is a member, and its number is new.
    ///
    /// The ring in use is the running one, or in Gather the installed one, until the core takes part in a newer ring.
    fn takes_message(&self, message: &Message<A>) -> bool
        ensures { result ≡ is_taken self.now message.now }
    {
        match self.state {
            State::Recovery | State::Operational => self.takes_message_of(
                &self.newest_ring,
                message,
            ),
            State::Gather => {
                self.floor() == message.ring.seq && self.takes_message_of(&self.installed, message)
            }
            State::Commit | State::Stopped => false,
        }
    }

    /// Returns whether a message belongs to this ring, its sender is a member, and its number is new.
    fn takes_message_of(&self, configuration: &Configuration, message: &Message<A>) -> bool
        requires { configuration.now.ring ≡ ring_in_use self.now.state self.now }
        ensures { result ≡ (same_ring message.now.ring configuration.now.ring
            && has configuration.now.members message.now.sender && takes_number self.now message.now.ring
            message.now.number) }
    {
        let part = self.part_in_use();
        message.ring == configuration.ring
            && configuration.members.contains(message.sender)
            && part.window.is_new(message.number)
    }

    fn decide_token(&self, token: Token) -> Transition<A>
        ensures { transition_of result ≡ decide_token self.now.state self.now token }
    {
        if self.would_visit(&token) {
            Transition::Visit(token)
        } else {
            Transition::Ignore
        }
    }

    /// Returns whether a token is visited: a ring runs, and the token is accepted.
    fn would_visit(&self, token: &Token) -> bool
        ensures { decide_token self.now.state self.now token.now ≡ (if result then VisitAct token.now else IgnoreAct) }
    {
        match self.state {
            State::Recovery | State::Operational => self.accepts_token(token),
            State::Gather | State::Commit | State::Stopped => false,
        }
    }

    /// Returns whether the core accepts a token in its running ring.
    fn accepts_token(&self, token: &Token) -> bool
        requires { is_running self.now.state ≡ true }
        ensures { result ≡ accepts self.now token.now }
    {
        let part = self.part_in_use();
        part.visit.accepts(token, part.window.highest())
    }

    fn decide_join(&self, join: Join) -> Transition<A>
        ensures { transition_of result ≡ decide_join self.now.state self.now join }
    {
        match self.state {
            State::Gather => transition_in_gather(self.gather.join_effect(&join), join),
            State::Commit | State::Recovery | State::Operational => self.decide_join_elsewhere(
                join,
            ),
            State::Stopped => Transition::Ignore,
        }
    }

    /// Returns the transition for a join in Commit, Recovery or Operational.
    fn decide_join_elsewhere(&self, join: Join) -> Transition<A>
        ensures { transition_of result ≡ decide_join_elsewhere self.now join }
    {
        if !self.is_gather_trigger(&join) {
            return Transition::Ignore;
        }
        transition_into_gather(self.new_gather().join_effect(&join), join)
    }

    /// Returns whether a join makes the node enter Gather.
    ///
    /// True if its sender is a member and its number is at least the ring's, or if its sender isn't a member and the
    /// state is Operational.
    fn is_gather_trigger(&self, join: &Join) -> bool
        ensures { result ≡ is_gather_trigger self.now join.now }
    {
        if self.newest_ring.members.contains(join.sender) {
            self.newest_ring.ring.seq <= join.number
        } else {
            self.state == State::Operational
        }
    }

    fn decide_commit(&self, boxed: BoxedCommitToken<A>) -> Transition<A>
        ensures { transition_of result ≡ decide_commit self.now boxed }
    {
        if is_token_at(self.me, boxed.token()) {
            self.decide_round(boxed)
        } else {
            Transition::Ignore
        }
    }

    /// Returns the transition for a commit token that is at this node.
    fn decide_round(&self, boxed: BoxedCommitToken<A>) -> Transition<A>
        ensures { transition_of result ≡ decide_round self.now.state self.now boxed }
    {
        let token = boxed.token();
        match self.state {
            State::Gather if self.takes_first_round(token) => Transition::Fill(boxed),
            State::Commit if self.takes_second_round(token) => Transition::Learn(boxed),
            State::Recovery if self.takes_start(token) => Transition::Visit(first_token(
                token.ring,
            )),
            _ => Transition::Ignore,
        }
    }

    fn takes_first_round(&self, token: &CommitToken) -> bool
        ensures { result ≡ takes_first_round self.now token.now }
    {
        is_first_round(self.floor(), self.gather.candidates(), token)
    }

    fn takes_second_round(&self, token: &CommitToken) -> bool
        ensures { result ≡ takes_second_round self.now token.now }
    {
        let own = self.own_entry();
        is_second_round(&self.newest_ring, &own, token)
    }

    /// Returns whether a commit token starts the token of the running ring. That happens only once.
    fn takes_start(&self, token: &CommitToken) -> bool
        requires { is_running self.now.state ≡ true }
        ensures { result ≡ takes_start self.now token.now }
    {
        is_start(&self.newest_ring, token) && self.accepts_token(&first_token(token.ring))
    }

    fn decide_timeout(&self, kind: Kind) -> Transition<A>
        ensures { transition_of result ≡ decide_timeout self.now.state kind }
    {
        match (self.state, kind) {
            (State::Stopped, _) => Transition::Ignore,
            (_, Kind::Retransmit) => Transition::Repeat,
            (_, Kind::Loss) => Transition::EnterGather,
            (State::Gather, Kind::Join) => Transition::Announce,
            (State::Gather, Kind::Consensus) => Transition::GiveUp,
            (State::Operational, Kind::Join) => Transition::Invite,
            _ => Transition::Ignore,
        }
    }

    fn decide_payload(&self, payload: Payload<A>) -> Transition<A>
        ensures { transition_of result ≡ decide_payload self.now.state payload }
    {
        match self.state {
            State::Operational => decide_in_operational(payload),
            State::Gather | State::Commit | State::Recovery | State::Stopped => Transition::Ignore,
        }
    }
}

/// Returns the transition for a join in Gather.
fn transition_in_gather<A: Allocator + Copy>(join_effect: JoinEffect, join: Join) -> Transition<A>
    ensures { transition_of result ≡ transition_in_gather join_effect join }
{
    match join_effect {
        JoinEffect::Ignored => Transition::Ignore,
        JoinEffect::Agrees => Transition::Agree(join),
        JoinEffect::Merges => Transition::MergeJoin(join),
    }
}

/// Returns the transition for a join that makes the node enter Gather.
fn transition_into_gather<A: Allocator + Copy>(join_effect: JoinEffect, join: Join) -> Transition<A>
    ensures { transition_of result ≡ transition_into_gather join_effect join }
{
    match join_effect {
        JoinEffect::Ignored => Transition::EnterGather,
        JoinEffect::Agrees => Transition::EnterGatherAndAgree(join),
        JoinEffect::Merges => Transition::EnterGatherAndMergeJoin(join),
    }
}

/// Returns the token that starts a ring: number, `seq` and `aru` 0, no `aru_id` and no requests.
///
/// The representative visits it when the commit token has returned after two rounds. It is never sent as a frame. Does
/// not allocate.
///
/// Rules: The commit token 7
pub fn first_token(ring: RingId) -> Token
    ensures { result ≡ first_token ring }
{
    Token {
        ring,
        number: 0,
        seq: 0,
        aru: 0,
        aru_id: None,
        requests: Requests::new(),
    }
}

/// Returns the transition for a payload in Operational.
fn decide_in_operational<A: Allocator + Copy>(payload: Payload<A>) -> Transition<A>
    ensures { transition_of result ≡ decide_in_operational payload }
{
    if is_queued(&payload) {
        Transition::Enqueue(payload)
    } else {
        Transition::Ignore
    }
}
