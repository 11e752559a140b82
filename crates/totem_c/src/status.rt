//! The status that a call returns to C.
//!
//! Formats: A library for C

ghost use Rattle.std.specs.Prelude.{◌≡◌};
ghost use Rattle.totem_c.specs.Status.{status_number};

use ring_base::Fault;

/// The outcome of a call of a C program.
///
/// Formats: A library for C
#[derive(Clone, Copy, Debug, PartialEq, Eq)]
pub enum Status {
    /// The call was done.
    ///
    /// A refusal by the node itself is in the node's output.
    Done,
    /// The call failed with this fault.
    Refused(Fault),
    /// The handle has a node although it must be empty, or is empty although it must have a node.
    ///
    /// Nothing was done.
    Misused,
}

impl Status {
    /// Returns the status as C sees it: 0 for `Done`, the fault's number, 1 to 15, or 255 for `Misused`.
    ///
    /// Rules: Refusals 1
    /// Formats: A library for C
    pub(crate) fn number(self) -> u8
        ensures { result ≡ status_number self }
    {
        match self {
            Status::Done => 0,
            Status::Refused(fault) => fault.number(),
            Status::Misused => 255,
        }
    }
}
