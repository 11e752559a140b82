//! The states of a node.
//!
//! Rules: Rings and states 6

/// The state of a node, which decides what the node does with an input.
///
/// Rules: Rings and states 6 and 8
#[derive(Clone, Copy, Debug, PartialEq, Eq)]
pub enum State {
    /// The node looks for the members of its next ring.
    Gather,
    /// The node has proposed a ring, or added its entry to a commit token, and waits for the other members.
    Commit,
    /// The new ring runs but isn't installed yet: its members bring the messages of their old rings together.
    Recovery,
    /// The node has installed the ring that runs, and sends user messages.
    Operational,
    /// The node has stopped for good: it refuses every step and every submit.
    Stopped,
}
