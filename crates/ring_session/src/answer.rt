//! The answer of a session table to a call.
//!
//! Rules: Sessions 3 and 4

ghost use Rattle.std.specs.Prelude.{◌≡◌};

use ring_base::Fault;
use ring_object::Reply;

/// The answer of a session table to a call.
///
/// `Done` and `Kept` are replies of the history; `Refused` isn't a reply.
///
/// Rules: Sessions 3 and 4
#[derive(Clone, Copy, Debug, PartialEq, Eq)]
pub enum Answer {
    /// The call took effect now: the object applied its operation and gave this reply.
    Done(Reply),
    /// The same call took effect earlier, with this reply.
    ///
    /// It is the client's last call.
    Kept(Reply),
    /// The call took no effect.
    ///
    /// The number is that of a fault: 4 `Conflict`, 5 `Stale`, 6 `NumberGap` or 7 `SessionsFull`.
    Refused(u8),
}

impl Answer {
    ghost use Rattle.ring_session.specs.SessionAnswer.{refusal};

    /// Returns the answer `Refused` with the number of `fault`.
    ///
    /// Rules: Sessions 3
    pub(crate) fn refusal(fault: Fault) -> Answer
        ensures { result ≡ refusal fault }
    {
        Answer::Refused(fault.number())
    }
}
