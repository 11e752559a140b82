//! Processors, as their numbers.
//!
//! Rules: Processors and sets 2

ghost use Rattle.std.specs.Fmt.{decimal};
ghost use Rattle.std.specs.Prelude.{◌≡◌, ℕ, Some};
ghost use Rattle.ring_base.specs.Processors.{IsProc};

use std::fmt::{self, Display};
use std::marker::Model;

/// `Proc`: a processor of the group, identified by its number, 1 to 16.
///
/// Contracts see the number.
///
/// Rules: Processors and sets 2
#[derive(Clone, Copy, Debug, PartialEq, Eq, PartialOrd, Ord)]
pub struct Proc {
    number: u8,
}

impl Model for Proc {
    ghost Value = { ℕ };

    ghost view = { λ p. p.number };

    ghost invariant = { λ p. IsProc p.number };

    ghost inverse = { λ n. record { number = n } };
}

impl Proc {
    /// Returns processor `number`, which must be 1 to 16.
    ///
    /// [`Fixed::proc`](crate::Fixed::proc) checks a number against the group.
    ///
    /// Rules: Processors and sets 2
    pub fn new(number: u8) -> Proc
        requires { IsProc number }
        ensures { result ≡ number }
    {
        Proc { number }
    }

    /// Returns the processor's number, 1 to 16.
    ///
    /// Rules: Processors and sets 2
    pub fn number(self) -> u8
        ensures value { result ≡ self }
        ensures in_range { IsProc result }
    {
        self.number
    }
}

impl Display for Proc {
    ghost output = { λ proc. Some (decimal proc) };

    /// Prints the number in decimal.
    fn fmt<W: fmt::Write>(&self, f: &mut fmt::Formatter<W>) -> fmt::Result {
        write!(f, "{}", self.number)
    }
}
