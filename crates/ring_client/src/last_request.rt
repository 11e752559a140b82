//! The record of the last request at a port and its outcome.
//!
//! Rules: Clients 2

ghost use Rattle.std.specs.Prelude.{◌≡◌};
ghost use Rattle.ring_client.specs.Asking.{new_asked, asked_after_submit, asked_after_refusal, asked_after_poll};

use ring_base::Fault;
use ring_object::ShortBytes;
use ring_payload::{Call, MAX_OPERATION};
use ring_session::Answer;
use std::alloc::Allocator;

/// An operation of 0 to 1,024 bytes, stored inline, so that copying it doesn't allocate.
///
/// Rules: Sessions 1
pub type Op = ShortBytes<MAX_OPERATION>;

/// The record of the last submit at a port, its refusal, and the polls since.
///
/// A port records each submit before it passes the call on, then a refusal if there is one, and each poll. The record
/// is stored inline, so copying it doesn't allocate.
///
/// Rules: Clients 2
#[derive(Clone, Copy, Debug, PartialEq, Eq)]
pub struct Asked {
    /// The client of the last submitted call, or 0 before any submit.
    pub client: u32,
    /// The number of that call, or 0 before any submit.
    pub number: u64,
    /// The operation of that call, or its first 1,024 bytes if it is longer.
    pub op: Op,
    /// The fault number of that submit's refusal, 1 to 15, or `None` if it was taken, or before any submit.
    pub refused: Option<u8>,
    /// The number of polls since that submit.
    ///
    /// It saturates at `u64::MAX`.
    pub polls: u64,
    /// The answer that the last of these polls returned, or `None` if it returned none, or before any poll.
    pub answer: Option<Answer>,
}

impl Asked {
    /// Returns the record of a port before any submit: number 0, an empty operation, no refusal and no poll.
    ///
    /// Rules: Clients 2
    pub fn new() -> Asked
        ensures { result ≡ new_asked }
    {
        Asked {
            client: 0,
            number: 0,
            op: Op::from_slice(&[]),
            refused: None,
            polls: 0,
            answer: None,
        }
    }

    /// Records that a call is submitted, before the port passes it on.
    ///
    /// The record of the submit before, with its refusal, polls and answer, is forgotten. Of an operation over 1,024
    /// bytes the first 1,024 are kept.
    ///
    /// Rules: Clients 2
    pub fn note_submit<A: Allocator + Copy>(&mut self, call: &Call<A>)
        ensures { self.new ≡ asked_after_submit call.now }
    {
        let op = call.op.as_slice();
        self.client = call.client;
        self.number = call.number;
        self.op = Op::from_slice(&op[..op.len().min(MAX_OPERATION)]);
        self.refused = None;
        self.polls = 0;
        self.answer = None;
    }

    /// Records that the last submit was refused with `fault`.
    ///
    /// The rest of the record is unchanged.
    ///
    /// Rules: Clients 2; Refusals 1
    pub fn note_refusal(&mut self, fault: Fault)
        ensures { self.new ≡ asked_after_refusal fault self.old }
    {
        self.refused = Some(fault.number());
    }

    /// Records the result of a poll, which is the answer that it returned, or `None`.
    ///
    /// Adds 1 to `polls`, which saturates at `u64::MAX`.
    ///
    /// Rules: Clients 2
    pub fn note_poll(&mut self, answer: Option<Answer>)
        ensures { self.new ≡ asked_after_poll answer self.old }
    {
        self.polls = self.polls.saturating_add(1);
        self.answer = answer;
    }
}
