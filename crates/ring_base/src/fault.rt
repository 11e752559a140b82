//! The one type of refusals: why a call is refused.
//!
//! Rules: Refusals 1

ghost use Rattle.std.specs.Prelude.{◌≡◌};
ghost use Rattle.ring_base.specs.Fault.{fault_number, fault_text};
ghost use Rattle.ring_base.specs.declared.fault.Fault.TheVariants.{Memory};

use std::alloc::{AllocError, AllocFailed};
use std::fmt::{self, Display};
use thiserror::Error;

/// `Fault`: the error type of all calls, with a variant for each of the fifteen reasons for a refusal.
///
/// `Display` prints the text. Files and exit lines hold the [`number`](Fault::number).
///
/// Rules: Refusals 1
#[derive(Clone, Copy, Debug, PartialEq, Eq, Error)]
pub enum Fault {
    /// A number of processors or ports, a processor's number or a vote is out of range, or no seat is left.
    NotMember = 1,
    /// The node has 64 unanswered tickets, or it has given all ticket numbers.
    PendingFull = 2,
    /// An operation has more than 1,024 bytes, or a name for an operation has more than 64.
    OpTooLong = 3,
    /// The call's number was used for another operation of the same client.
    Conflict = 4,
    /// The call's number is below the number of the client's last call.
    Stale = 5,
    /// The call's number is 0, or more than one above the number of the client's last call.
    NumberGap = 6,
    /// The call is of an unknown client, and 1,024 clients are known already.
    SessionsFull = 7,
    /// The node has stopped or is gone, or a run of callers is to stop one node twice.
    Stopped = 8,
    /// All 262,144 places of the book are used or reserved.
    BookFull = 9,
    /// The book has no such frame for this node, there is no line or no reserved place to enter, a cell is a line ahead
    /// of the book, or an inbox item isn't a frame.
    Stranger = 10,
    /// An allocation failed, or a thread could not be started.
    Memory = 11,
    /// The bytes aren't a frame or a record, or their file can't be read.
    BadFrame = 12,
    /// The text isn't a script, or its file can't be read.
    BadScript = 13,
    /// The client's ports gave no answer, or the client can't make this call now.
    NoAnswer = 14,
    /// The bytes aren't a snapshot.
    BadSnapshot = 15,
}

impl Fault {
    /// Returns the refusal's number, 1 to 15, which files and exit lines hold.
    ///
    /// It is the enum's discriminant.
    ///
    /// Rules: Refusals 1
    pub fn number(&self) -> u8
        ensures { result ≡ fault_number self.now }
    {
        *self as u8
    }

    fn text(&self) -> &'static str
        ensures { result.now ≡ fault_text self.now }
    {
        match self {
            Fault::NotMember => "not a member",
            Fault::PendingFull => "too many pending calls",
            Fault::OpTooLong => "operation too long",
            Fault::Conflict => "number used for another call",
            Fault::Stale => "stale number",
            Fault::NumberGap => "number gap",
            Fault::SessionsFull => "sessions full",
            Fault::Stopped => "stopped",
            Fault::BookFull => "book full",
            Fault::Stranger => "stranger",
            Fault::Memory => "out of memory",
            Fault::BadFrame => "bad frame",
            Fault::BadScript => "bad script",
            Fault::NoAnswer => "no answer",
            Fault::BadSnapshot => "bad snapshot",
        }
    }
}

/// Prints the refusal's text without its number, as in `not a member`.
///
/// Rules: Refusals 1
impl Display for Fault {
    ghost use Rattle.std.specs.Prelude.{Some};

    ghost output = { λ fault. Some (fault_text fault) };

    fn fmt<W: fmt::Write>(&self, f: &mut fmt::Formatter<W>) -> fmt::Result {
        f.write_str(self.text())
    }
}

impl From<AllocError> for Fault {
    ghost from_gives = { λ _ fault. fault ≡ Memory };

    fn from(_error: AllocError) -> Fault {
        Fault::Memory
    }
}

impl<T: Drop> From<AllocFailed<T>> for Fault {
    ghost from_gives = { λ _ fault. fault ≡ Memory };

    fn from(_error: AllocFailed<T>) -> Fault {
        Fault::Memory
    }
}
