//! The trial of a call at one port, and at one port after another.
//!
//! Rules: Clients 4 and 5

ghost use Rattle.std.specs.Prelude.{◌≡◌, ◌≤◌, Some, IfOk, IfErr, IfSome, IfNone};
ghost use Rattle.ring_base.specs.Fault.{fault_number};
ghost use Rattle.ring_base.specs.declared.fault.Fault.TheVariants.{Memory};
ghost use Rattle.ring_session.specs.SessionAnswer.{refusal, reply_of_answer};
ghost use Rattle.ring_client.specs.Asking.{just_submitted, asked_after_submit, IsClientVisible, HasNoAnswer, HasAnswered};
ghost use Rattle.ring_client.specs.Outcomes.{IsOutcome};

use crate::last_request::Op;
use crate::port::Port;
use ring_base::Fault;
use ring_object::Reply;
use ring_payload::{Call, CallOperation};
use ring_session::Answer;
use std::alloc::Allocator;

/// A call as a client tries it at its ports, one after another.
///
/// Rules: Clients 4
#[derive(Clone, Copy)]
pub struct PortRequest {
    /// The client's number.
    pub client: u32,
    /// The call's number, at least 1.
    pub number: u64,
    /// The operation, 0 to 1,024 bytes.
    pub op: Op,
}

impl PortRequest {
    /// Returns a copy of the call for one port.
    ///
    /// Errors: `Memory` if an allocation fails.
    fn copy_for_port<A: Allocator + Copy>(&self, alloc: A) -> Result<Call<A>, Fault>
        ensures ok { IfOk result (λ call. asked_after_submit call ≡ just_submitted self.now.client self.now.number self.now.op) }
        ensures refused { IfErr result (λ fault. fault ≡ Memory) }
    {
        Ok(Call {
            client: self.client,
            number: self.number,
            op: CallOperation::from_slice(alloc, self.op.as_slice())?,
        })
    }
}

/// The outcome of trying a call at the ports in order.
///
/// Rules: Clients 5
#[derive(Clone, Copy)]
pub enum CallOutcome {
    /// A port returned this answer.
    ///
    /// The ports after it weren't tried.
    TicketAnswer(Answer),
    /// Each port refused the call or was polled without success.
    ///
    /// This includes the case of no ports.
    Unanswered,
    /// The allocation for the first port's copy of the call failed, so the call was submitted nowhere.
    NotSubmitted,
    /// The allocation for a later port's copy of the call failed.
    ///
    /// The ports before it had taken or refused the call.
    NoMemoryAfterSubmit,
}

/// Submits the call at the ports in order until a poll returns an answer, and returns the outcome.
///
/// At each port it submits once and then polls at most `turns` times, which may be 0. A port that refuses the submit is
/// skipped. The copy of the call for each port is allocated with `alloc`.
///
/// Rules: Clients 4
pub fn submit_in_order<P: Port>(
    ports: &mut [P],
    alloc: P::Alloc,
    request: &PortRequest,
    turns: u64,
) -> CallOutcome
    ensures { IsOutcome P.asked_of (just_submitted request.now.client request.now.number request.now.op) turns ports.old ports.new result }
{
    for i in 0..ports.len() {
        let Ok(call) = request.copy_for_port(alloc) else {
            return if i == 0 {
                CallOutcome::NotSubmitted
            } else {
                CallOutcome::NoMemoryAfterSubmit
            };
        };
        if let Some(answer) = submit_and_poll(&mut ports[i], &call, turns) {
            return CallOutcome::TicketAnswer(answer);
        }
    }
    CallOutcome::Unanswered
}

/// Submits a call at a port, and returns the answer if it arrives within `turns` polls.
fn submit_and_poll<P: Port>(port: &mut P, call: &Call<P::Alloc>, turns: u64) -> Option<Answer>
    ensures answered { IfSome result (λ answer. HasAnswered (asked_after_submit call.now) turns answer (P.asked_of port.new)) }
    ensures told { IfSome result IsClientVisible }
    ensures in_vain { IfNone result (HasNoAnswer (asked_after_submit call.now) turns (P.asked_of port.new)) }
{
    let Ok(ticket) = port.submit(call) else {
        return None;
    };
    for _ in 0..turns {
        let answer = port.poll(&ticket);
        if answer.is_some() {
            return answer;
        }
    }
    None
}

/// Returns the reply in an answer `Done` or `Kept`.
///
/// A client must be able to get the answer: see `if_client_visible`.
///
/// Errors: the fault whose number is in a `Refused`: `Conflict` (4), `Stale` (5), `NumberGap` (6) or `SessionsFull`
/// (7).
///
/// Rules: Clients 5; Sessions 3 and 4
pub fn reply_or_refusal(answer: Answer) -> Result<Reply, Fault>
    requires { IsClientVisible answer }
    ensures ok { IfOk result (λ reply. reply_of_answer answer ≡ Some reply) }
    ensures refused { IfErr result (λ fault. answer ≡ refusal fault) }
{
    match answer {
        Answer::Done(reply) => Ok(reply),
        Answer::Kept(reply) => Ok(reply),
        Answer::Refused(number) => Err(fault_of_session_refusal(number)),
    }
}

/// Returns the fault with this number, which must be 4 to 7.
fn fault_of_session_refusal(number: u8) -> Fault
    requires { (4 ≤ number) × (number ≤ 7) }
    ensures { fault_number result ≡ number }
{
    match number {
        4 => Fault::Conflict,
        5 => Fault::Stale,
        6 => Fault::NumberGap,
        _ => Fault::SessionsFull,
    }
}
