//! A client that numbers its calls and tries each at its ports.
//!
//! Rules: Clients 1, 3 to 7

ghost use Rattle.std.specs.Prelude.{◌≡◌, ℕ, ◌<◌, ◌^◌, nat_lt, List, Some, None, is_some, IfOk, IfErr, if◌then◌else◌};
ghost use Rattle.ring_payload.specs.Operations.{OpFits};
ghost use Rattle.ring_client.specs.Calling.{IsReady, IsReplied, AskingRefused, CallRefused, AgainRefused};
ghost use Rattle.ring_client.specs.Calling.{IsRepliedWithin, AskingRefusedWithin, UntilAnsweredRefused};

use crate::last_request::Op;
use crate::port::Port;
use crate::port_trials::{CallOutcome, PortRequest, reply_or_refusal, submit_in_order};
use ring_base::Fault;
use ring_object::Reply;
use ring_payload::MAX_OPERATION;
use std::marker::Model;

/// A client with its ports, which makes one call after another, each under the next number.
///
/// At most one call is open, which means that it was tried at the ports and that none has answered it yet. Contracts
/// see a `ClientOf`.
///
/// Rules: Clients 1 and 7
#[derive(Drop)]
pub struct Client<P: Port> {
    alloc: P::Alloc,
    client: u32,
    /// The number of the last call that got a reply, or 0 if none did.
    last_replied_number: u64,
    /// The operation of the open call, or `None` if no call is open.
    open_call: Option<Op>,
    turns: u64,
    ports: Vec<P, P::Alloc>,
}

impl<P: Port> Model for Client<P> {
    ghost use Rattle.std.specs.Prelude.{◌<◌, ◌+◌, ◌-◌, ◌^◌, IsSome};
    ghost use Rattle.ring_client.specs.Calling.{ClientOf};

    ghost Value = { ClientOf P };

    ghost view = { λ c. record { client = c.client; next = c.last_replied_number + 1; open_call = c.open_call; turns = c.turns; ports = c.ports.items } };

    ghost invariant = { λ c. IsSome c.open_call → c.last_replied_number < 2 ^ 64 - 1 };
}

impl<P: Port> Client<P> {
    /// Creates client `client`, before its first call.
    ///
    /// It tries the ports in this order, and polls each at most `turns` times a call. No call is answered if there is
    /// no port or `turns` is 0. No other client of the group may have the same number: the sessions would treat the two
    /// as one, so that one may get the answer to the other's call.
    ///
    /// Rules: Clients 1 and 4
    pub fn new(alloc: P::Alloc, client: u32, ports: Vec<P, P::Alloc>, turns: u64) -> Client<P>
        ensures { result ≡ record { client = client; next = 1; open_call = None; turns = turns; ports = ports.items } }
    {
        Client {
            alloc,
            client,
            last_replied_number: 0,
            open_call: None,
            turns,
            ports,
        }
    }

    /// Makes a call under the next number and returns its reply, which closes the call and raises the number by one.
    ///
    /// Errors, with the client unchanged, in this order: `NoAnswer` if a call is open or number 2^64 - 1 is used up.
    /// `OpTooLong` if the operation has more than 1,024 bytes. `Memory` if the allocation for the first port's copy of
    /// the call fails.
    ///
    /// Errors that close the call and leave the number: `Conflict`, `Stale`, `NumberGap` and `SessionsFull` if a port
    /// answers with that refusal.
    ///
    /// Errors that leave the call open: `NoAnswer` if no port answered. `Memory` if the allocation for a later port's
    /// copy of the call fails.
    ///
    /// Waits only if a port does.
    ///
    /// Rules: Clients 3 to 5 and 7
    pub fn call(&mut self, op: &[u8]) -> Result<Reply, Fault>
        ensures ready { IfOk result (λ _. IsReady self.old × OpFits op.now) }
        ensures replied { IfOk result (IsReplied P.asked_of self.old self.new op.now) }
        ensures refused { IfErr result (CallRefused P.asked_of self.old self.new op.now) }
    {
        if self.open_call.is_some() || self.last_replied_number == u64::MAX {
            return Err(Fault::NoAnswer);
        }
        if op.len() > MAX_OPERATION {
            return Err(Fault::OpTooLong);
        }
        self.try_ports(Op::from_slice(op))
    }

    /// Tries the open call again, from the first port on, under the same number.
    ///
    /// Its reply closes the call and raises the number by one. Waits only if a port does.
    ///
    /// Errors: `NoAnswer` if no call is open, as `is_open` shows; nothing has then changed. `NoAnswer` if no port
    /// answered, and `Memory` if the allocation for a port's copy of the call fails; the call stays open. `Conflict`,
    /// `Stale`, `NumberGap` and `SessionsFull` if a port answers with that refusal; the call is closed, and the number
    /// unchanged.
    ///
    /// Rules: Clients 5 and 6
    pub fn again(&mut self) -> Result<Reply, Fault>
        ensures replied { IfOk result (λ reply. (op : List ℕ) × (self.old.open_call ≡ Some op) × IsReplied P.asked_of self.old self.new op reply) }
        ensures refused { IfErr result (AgainRefused P.asked_of self.old self.new) }
    {
        let Some(op) = self.open_call else {
            return Err(Fault::NoAnswer);
        };
        self.try_ports(op)
    }

    /// Makes a call as [`call`](Client::call) does, and tries it again up to `limit` times while no port answers.
    ///
    /// If `limit` is 0, it is the same as `call`. Each try starts at the first port and uses the same number, so the
    /// call takes effect at most once. Waits only if a port does.
    ///
    /// Errors: those of `call`. If no port answers, `NoAnswer` is returned only after the first try and `limit` more,
    /// and the call is open. Any other error ends the tries; after `Memory` in a later try the call is open too.
    ///
    /// Rules: Clients 6
    pub fn until_answered(&mut self, op: &[u8], limit: u64) -> Result<Reply, Fault>
        ensures ready { IfOk result (λ _. IsReady self.old × OpFits op.now) }
        ensures replied { IfOk result (IsRepliedWithin P.asked_of limit self.old self.new op.now) }
        ensures refused { IfErr result (UntilAnsweredRefused P.asked_of limit self.old self.new op.now) }
    {
        if self.is_open() || self.last_replied_number == u64::MAX {
            return Err(Fault::NoAnswer);
        }
        if op.len() > MAX_OPERATION {
            return Err(Fault::OpTooLong);
        }
        self.retry_ports(Op::from_slice(op), limit)
    }

    /// Returns the client's number, which each of its calls has.
    ///
    /// Rules: Clients 1; Sessions 1
    pub fn client(&self) -> u32
        ensures { result ≡ self.now.client }
    {
        self.client
    }

    /// Returns the number of the next call or of the open one, at least 1, or `None` once 2^64 - 1 is used up.
    ///
    /// Rules: Clients 1 and 3
    pub fn next_number(&self) -> Option<u64>
        ensures { result ≡ (if nat_lt self.now.next (2 ^ 64) then Some self.now.next else None) }
    {
        self.last_replied_number.checked_add(1)
    }

    /// Returns whether a call is open, which means that the last call was tried and no port has answered it.
    ///
    /// If so, `again` tries it again, and `call` is refused.
    ///
    /// Rules: Clients 1, 5 and 6
    pub fn is_open(&self) -> bool
        ensures { result ≡ is_some self.now.open_call }
    {
        self.open_call.is_some()
    }

    /// Returns the ports, in the order in which they are tried.
    ///
    /// The `asked` of each has the last request there.
    ///
    /// Rules: Clients 1 and 2
    pub fn ports(&self) -> &[P]
        ensures { result.now ≡ self.now.ports }
    {
        self.ports.as_slice()
    }
}

impl<P: Port> Client<P> {
    /// Tries the call at the ports, and again up to `limit` times while no port answers.
    fn retry_ports(&mut self, op: Op, limit: u64) -> Result<Reply, Fault>
        requires { self.old.next < 2 ^ 64 }
        ensures replied { IfOk result (IsRepliedWithin P.asked_of limit self.old self.new op) }
        ensures refused { IfErr result (AskingRefusedWithin P.asked_of limit self.old self.new op) }
    {
        for _ in 0..limit {
            match self.try_ports(op) {
                Err(Fault::NoAnswer) => {}
                answer => return answer,
            }
        }
        self.try_ports(op)
    }

    /// Tries the call with the next number and this operation at the ports.
    fn try_ports(&mut self, op: Op) -> Result<Reply, Fault>
        requires { self.old.next < 2 ^ 64 }
        ensures replied { IfOk result (IsReplied P.asked_of self.old self.new op) }
        ensures refused { IfErr result (AskingRefused P.asked_of self.old self.new op) }
    {
        let request = PortRequest {
            client: self.client,
            number: self.last_replied_number + 1,
            op,
        };
        match submit_in_order(self.ports.as_mut_slice(), self.alloc, &request, self.turns) {
            CallOutcome::TicketAnswer(answer) => {
                self.open_call = None;
                let reply = reply_or_refusal(answer)?;
                self.last_replied_number += 1;
                Ok(reply)
            }
            CallOutcome::Unanswered => {
                self.open_call = Some(op);
                Err(Fault::NoAnswer)
            }
            CallOutcome::NotSubmitted => Err(Fault::Memory),
            CallOutcome::NoMemoryAfterSubmit => {
                self.open_call = Some(op);
                Err(Fault::Memory)
            }
        }
    }
}
