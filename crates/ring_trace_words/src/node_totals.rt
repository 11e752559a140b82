//! What the last lines of a trace say about each node.
//!
//! Formats: The command line

use ring_base::Proc;
use ring_counts::{FrameCounts, NodeCounts, NodeGauges};
use std::fmt;

/// A node's counts over the whole run and its gauges at the end, displayed as its line in a trace, without the line
/// feed.
///
/// Formats: The command line
#[derive(Clone, Copy)]
pub struct NodeTotals {
    /// The node.
    pub node: Proc,
    /// The counts of its steps over the whole run.
    pub counts: NodeCounts,
    /// Its gauges at the end of the run.
    pub gauges: NodeGauges,
}

impl fmt::Display for NodeTotals {
    fn fmt<W: fmt::Write>(&self, f: &mut fmt::Formatter<W>) -> fmt::Result {
        let (node, counts, gauges) = (self.node, self.counts, self.gauges);
        let (received, sent) = (FrameWords(counts.received), FrameWords(counts.sent));
        write!(f, "node {node} in: {received}; out: {sent}")?;
        let (messages, tokens) = (counts.messages_again, counts.tokens_again);
        write!(
            f,
            "; tokens taken {}; again: messages {messages}, tokens {tokens}; rings {}",
            counts.tokens_taken, counts.rings
        )?;
        let (waiting, committed, dropped) = (gauges.waiting, gauges.committed, gauges.dropped);
        write!(
            f,
            "; calls waiting {waiting}; committed {committed}, dropped {dropped}"
        )
    }
}

/// The number of frames of each kind, displayed as words and numbers.
#[derive(Clone, Copy)]
struct FrameWords(FrameCounts);

impl fmt::Display for FrameWords {
    fn fmt<W: fmt::Write>(&self, f: &mut fmt::Formatter<W>) -> fmt::Result {
        let FrameCounts {
            messages,
            tokens,
            joins,
            commits,
        } = self.0;
        write!(
            f,
            "messages {messages}, tokens {tokens}, joins {joins}, commit tokens {commits}"
        )
    }
}
