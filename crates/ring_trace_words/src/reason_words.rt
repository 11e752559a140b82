//! The reasons for refusing calls, in words.
//!
//! Rules: Refusals 1; Sessions 3
//! Formats: The command line

ghost use Rattle.std.specs.Prelude.{◌≡◌, IfSome};
ghost use Rattle.ring_base.specs.Fault.{fault_number};

use ring_base::Fault;
use std::fmt;

/// The reason why a node or the sessions refuse a call, by its fault's number.
///
/// It is displayed as the fault's text, or as `refused` if no call can be refused with this number.
///
/// Rules: Refusals 1; Sessions 3
/// Formats: The command line
#[derive(Clone, Copy)]
pub struct ReasonWords(pub u8);

impl fmt::Display for ReasonWords {
    fn fmt<W: fmt::Write>(&self, f: &mut fmt::Formatter<W>) -> fmt::Result {
        match reason_of(self.0) {
            Some(fault) => write!(f, "{fault}"),
            None => write!(f, "refused"),
        }
    }
}

/// Returns the fault with this number, or `None` if no call can be refused with it.
fn reason_of(number: u8) -> Option<Fault>
    ensures { IfSome result (λ fault. fault_number fault ≡ number) }
{
    match number {
        2 => Some(Fault::PendingFull),
        4 => Some(Fault::Conflict),
        5 => Some(Fault::Stale),
        6 => Some(Fault::NumberGap),
        7 => Some(Fault::SessionsFull),
        8 => Some(Fault::Stopped),
        11 => Some(Fault::Memory),
        _ => None,
    }
}
