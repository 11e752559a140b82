//! The answer to a submitted call among a world's reports.
//!
//! Rules: Clients 8

ghost use Rattle.std.specs.Prelude.{◌≡◌, IfSome};
ghost use Rattle.ring_client.specs.Asking.{IsClientVisible};
ghost use Rattle.ring_world_port.specs.Answers.{is_submitted_call, answer_of, first_answer_in};

use ring_base::Proc;
use ring_client::{Op, if_client_visible};
use ring_node_spec::Told;
use ring_payload::Call;
use ring_session::Answer;
use std::alloc::Allocator;

/// A submitted call with the node at which it was submitted, to compare with the world's reports.
///
/// Rules: Clients 8
#[derive(Clone, Copy)]
pub struct SubmittedCall {
    /// The node at which the call was submitted.
    pub node: Proc,
    /// The number of the call's client.
    pub client: u32,
    /// The call's number, at least 1.
    pub number: u64,
    /// The operation of the call, 0 to 1,024 bytes.
    pub op: Op,
}

impl SubmittedCall {
    /// Returns whether `call` at `node` is the submitted one.
    fn is_this_call<A: Allocator + Copy>(&self, node: Proc, call: &Call<A>) -> bool
        ensures { result ≡ is_submitted_call self.now node call.now }
    {
        node == self.node
            && call.client == self.client
            && call.number == self.number
            && call.op.as_slice() == self.op.as_slice()
    }

    /// Returns the answer if the report is an answer to the call, otherwise `None`.
    fn answer_in_report<A: Allocator + Copy>(&self, told: &Told<A>) -> Option<Answer>
        ensures value { result ≡ answer_of self.now told.now }
        ensures told { IfSome result IsClientVisible }
    {
        match told {
            Told::Answer(node, call, answer) => {
                if self.is_this_call(*node, call) {
                    if_client_visible(*answer)
                } else {
                    None
                }
            }
            Told::Refused(_, _, _) => None,
        }
    }

    /// Returns the first answer to the call in a list of reports, or `None` if there is none.
    ///
    /// A report belongs to the call if node, client, number and operation are the same. Refused submits are skipped.
    ///
    /// Rules: Clients 8
    pub fn first_answer_in<A: Allocator + Copy>(&self, told: &[Told<A>]) -> Option<Answer>
        ensures value { result ≡ first_answer_in self.now told.now }
        ensures told { IfSome result IsClientVisible }
    {
        for one in told {
            let answer = self.answer_in_report(one);
            if answer.is_some() {
                return answer;
            }
        }
        None
    }
}
