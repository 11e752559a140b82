//! Tickets for submitted calls.
//!
//! Rules: The replicated log 13

ghost use Rattle.std.specs.Prelude.{◌≡◌};

use std::marker::Model;

/// A ticket, which a node gives for a submitted call: its position in the list of all tickets of this node.
///
/// Positions count from 0. Contracts see the position.
///
/// Rules: The replicated log 13
#[derive(Clone, Copy, Debug, Default, PartialEq, Eq, PartialOrd, Ord)]
pub struct Ticket {
    number: u64,
}

impl Model for Ticket {
    ghost use Rattle.std.specs.Prelude.{ℕ};

    ghost Value = { ℕ };

    ghost view = { λ ticket. ticket.number };

    ghost inverse = { λ number. record { number = number } };
}

impl Ticket {
    /// Returns the ticket at position `number`, counted from 0, whether or not a node has given it.
    ///
    /// Rules: The replicated log 13
    pub fn new(number: u64) -> Ticket
        ensures { result ≡ number }
    {
        Ticket { number }
    }

    /// Returns the ticket's position in the list of all tickets that its node gave, counted from 0.
    ///
    /// Rules: The replicated log 13
    pub fn number(self) -> u64
        ensures { result ≡ self }
    {
        self.number
    }
}
