//! Whether an input was a token, and whether the node took it.
//!
//! Rules: Nodes that records drive 3
//! Formats: Records

ghost use Rattle.std.specs.Prelude.{◌≡◌};
ghost use Rattle.ring_records.specs.NodeRecords.{token_outcome_number, token_outcome_of};

/// The outcome of an input for the program's clock: whether it was a token or a commit token, and whether the node took
/// it.
///
/// A clock outside the node needs it: a token that is taken restarts the retransmit, consensus and loss timeouts.
///
/// Rules: Nodes that records drive 3; A node with a clock 5
/// Formats: Records
#[derive(Clone, Copy, Debug, PartialEq, Eq)]
pub enum TokenOutcome {
    /// The input was neither a token nor a commit token, or it could not be decoded because an allocation failed.
    NoToken,
    /// The input was a token or a commit token that the node took.
    Taken,
    /// The input was a token or a commit token that the node ignored.
    Ignored,
}

impl TokenOutcome {
    /// Returns the outcome of an input: `NoToken` unless `is_token`, otherwise `Taken` if `is_taken`, otherwise
    /// `Ignored`.
    ///
    /// `is_token` says whether the input was a token or a commit token, `is_taken` whether the node took it.
    ///
    /// Rules: Nodes that records drive 3
    pub fn new(is_token: bool, is_taken: bool) -> TokenOutcome
        ensures { result ≡ token_outcome_of is_token is_taken }
    {
        match (is_token, is_taken) {
            (false, _) => TokenOutcome::NoToken,
            (true, true) => TokenOutcome::Taken,
            (true, false) => TokenOutcome::Ignored,
        }
    }

    /// Returns the byte that encodes the outcome in a record: 0 for `NoToken`, 1 for `Taken`, 2 for `Ignored`.
    ///
    /// Formats: Records
    pub(crate) fn outcome_byte(self) -> u8
        ensures { result ≡ token_outcome_number self }
    {
        match self {
            TokenOutcome::NoToken => 0,
            TokenOutcome::Taken => 1,
            TokenOutcome::Ignored => 2,
        }
    }
}
