//! The outcome of a step, as far as the node's timers depend on it.
//!
//! Rules: A node with a clock 5

use ring_base::Kind;

/// What a node's timers need to know of a step: a timeout that was its input, and whether a token or a join restarts
/// any.
///
/// Rules: A node with a clock 5
#[derive(Clone, Copy, Debug, PartialEq, Eq)]
pub struct StepOutcome {
    /// The timeout that was the step's input, or `None` for any other input.
    pub timeout: Option<Kind>,
    /// Whether the input was a token or a commit token that the node took.
    pub took_token: bool,
    /// Whether the node sent a join.
    pub sent_join: bool,
}
