//! The comments of a generated script.

use ring_base::Proc;
use std::fmt;

/// The purpose of the next lines of a generated script.
///
/// It is displayed as the comment before them, without its line feed.
#[derive(Clone, Copy)]
pub(crate) enum Scenario {
    /// All nodes look for each other and form a ring.
    Open,
    /// Clients call.
    Calls,
    /// The client tries its last call again, at this node.
    Retry { client: u32, node: Proc },
    /// A cut comes, and each side forms a ring.
    Split,
    /// The cut heals, and the sides look for each other.
    Merge,
    /// Rings change, and this node begins again before they have formed.
    Interrupt { node: Proc },
    /// This node stops for good, and the others give it up.
    Stop { node: Proc },
    /// This node receives nothing from the others for a few turns.
    ///
    /// Then the cut heals and tokens are sent again.
    Isolate { node: Proc },
    /// Old frames arrive again, and bytes that no node sent.
    Repeat,
    /// The nodes send their tokens again.
    Resend,
    /// The cut heals, and all nodes that have not stopped form one ring.
    End,
}

/// Displays the comment, without its line feed.
impl fmt::Display for Scenario {
    fn fmt<W: fmt::Write>(&self, f: &mut fmt::Formatter<W>) -> fmt::Result {
        match *self {
            Scenario::Open => f.write_str("# All nodes look for each other, and form a ring."),
            Scenario::Calls => f.write_str("# Clients call."),
            Scenario::Retry { client, node } => {
                write!(
                    f,
                    "# Client {client} tries its last call again, at node {node}."
                )
            }
            Scenario::Split => f.write_str(
                "# A cut: each side gives up the others, and goes on alone.",
            ),
            Scenario::Merge => f.write_str("# The cut heals, and the sides look for each other."),
            Scenario::Interrupt { node } => {
                write!(
                    f,
                    "# Rings change, and node {node} begins anew before that is done."
                )
            }
            Scenario::Stop { node } => {
                write!(
                    f,
                    "# Node {node} stops for good, and the others give it up."
                )
            }
            Scenario::Isolate { node } => {
                write!(
                    f,
                    "# For a moment node {node} hears nobody, and what it missed is sent again."
                )
            }
            Scenario::Repeat => f.write_str(
                "# Old frames come once more, and bytes that no node sent.",
            ),
            Scenario::Resend => f.write_str("# Tokens are sent once more."),
            Scenario::End => f.write_str(
                "# At last all that have not stopped form one ring, and answer what waits.",
            ),
        }
    }
}
