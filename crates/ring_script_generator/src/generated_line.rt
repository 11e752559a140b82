//! The lines of a generated script other than calls.
//!
//! Formats: Scripts

use crate::sides::CutSides;
use ring_base::{Kind, Proc};
use ring_script::timeout_name;
use std::fmt;

/// The request of a generated line other than a call.
///
/// It is displayed as the line, without its line feed.
///
/// Formats: Scripts
#[derive(Clone, Copy)]
pub(crate) enum GeneratedLine {
    /// Frame `frame`, counted from 1, is delivered at the node.
    Deliver { node: Proc, frame: u32 },
    /// The timeout of this kind fires at the node.
    Timeout { node: Proc, kind: Kind },
    /// A single byte, which no node sent, arrives at the node.
    Noise { node: Proc, byte: u8 },
    /// The node stops for good.
    Stop { node: Proc },
    /// The nodes are cut into these sides.
    Cut(CutSides),
    /// The cut is removed.
    Heal,
    /// The network takes `turns` turns, at least 1.
    Pump { turns: u32 },
}

/// Displays the line, without its line feed.
impl fmt::Display for GeneratedLine {
    fn fmt<W: fmt::Write>(&self, f: &mut fmt::Formatter<W>) -> fmt::Result {
        match *self {
            GeneratedLine::Deliver { node, frame } => write!(f, "deliver {node} {frame}"),
            GeneratedLine::Timeout { node, kind } => write!(
                f,
                "timeout {node} {}",
                timeout_name(kind)
            ),
            GeneratedLine::Noise { node, byte } => write!(f, "noise {node} {byte:02x}"),
            GeneratedLine::Stop { node } => write!(f, "stop {node}"),
            GeneratedLine::Cut(sides) => write!(f, "cut{sides}"),
            GeneratedLine::Heal => f.write_str("heal"),
            GeneratedLine::Pump { turns } => write!(f, "pump {turns}"),
        }
    }
}
