//! The trait of ports.
//!
//! Rules: Clients 2

ghost use Rattle.std.specs.Prelude.{◌≡◌, IfSome, IfErr, OnOk};
ghost use Rattle.ring_client.specs.Asking.{asked_after_submit, asked_after_refusal, asked_after_poll, if_client_visible, IsClientVisible};

use crate::last_request::Asked;
use ring_base::Fault;
use ring_payload::Call;
use ring_session::Answer;
use std::alloc::Allocator;

/// A way to a node: a client submits calls there and polls their tickets for the answers.
///
/// A port reports its last request. It keeps an [`Asked`] and passes each submit, refusal and poll to it, which records
/// them as the contracts require.
///
/// Rules: Clients 2
pub trait Port: Drop {
    ghost use Rattle.ring_client.specs.declared.last_request.Asked.{Asked};

    /// The allocator of the calls.
    type Alloc: Allocator + Copy + Drop;

    /// The handle that is polled for the answer to a submitted call.
    type Ticket: Drop;

    /// The last request at the port.
    ghost asked_of: { Self → Asked };

    /// Submits a call and returns the ticket to poll.
    ///
    /// The port copies the call if it takes it. `asked` then has the call, and the refusal if there is one. Whether the
    /// submit waits is up to the port.
    ///
    /// Errors: any fault with which the port refuses the call. A client then tries its next port.
    ///
    /// Rules: Clients 2 and 4
    fn submit(&mut self, call: &Call<Self::Alloc>) -> Result<Self::Ticket, Fault>
        ensures ok { OnOk result (asked_of self.new ≡ asked_after_submit call.now) }
        ensures refused { IfErr result (λ fault. asked_of self.new ≡ asked_after_refusal fault (asked_after_submit call.now)) };

    /// Returns the answer to the ticket's call, or `None` if it hasn't arrived.
    ///
    /// An `Answer::Refused` has a number from 4 to 7. `asked` counts the poll and has its result. Whether the poll
    /// waits is up to the port.
    ///
    /// Rules: Clients 2
    fn poll(&mut self, ticket: &Self::Ticket) -> Option<Answer>
        ensures asked { asked_of self.new ≡ asked_after_poll result (asked_of self.old) }
        ensures told { IfSome result IsClientVisible };

    /// Returns the last request: the last submit's call, its refusal, the number of polls since, and the last poll's
    /// answer.
    ///
    /// Before any submit its number is 0.
    ///
    /// Rules: Clients 2
    fn asked(&self) -> &Asked
        ensures { result.now ≡ asked_of self.now };
}

/// Returns the answer if a client may see it, otherwise `None`.
///
/// A client may see `Done`, `Kept`, and `Refused` with a number from 4 to 7. A node gives no other answer; a port that
/// polls a node uses this function to prove it.
///
/// Rules: Clients 2; Sessions 3
pub fn if_client_visible(answer: Answer) -> Option<Answer>
    ensures value { result ≡ if_client_visible answer }
    ensures told { IfSome result IsClientVisible }
{
    match answer {
        Answer::Done(_) | Answer::Kept(_) => Some(answer),
        Answer::Refused(number) => {
            if number >= 4 && number <= 7 {
                Some(answer)
            } else {
                None
            }
        }
    }
}
