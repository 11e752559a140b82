//! The kinds of timeouts.
//!
//! Rules: Timeouts 1 and 2

/// `Kind`: the kind of a timeout, which is one of a node's inputs.
///
/// Each kind may come at any time, since a node measures no time. A proposal of a ring may follow a timeout that ends
/// in Gather.
///
/// Rules: Timeouts 1, 2 and 6
#[derive(Clone, Copy, Debug, PartialEq, Eq)]
pub enum Kind {
    /// The node sends the kept token again, unchanged, to the same receiver.
    ///
    /// The kept token is the last token or commit token that the node sent since it last entered Gather. Without one,
    /// nothing is sent.
    Retransmit,
    /// A join goes out: in Gather the node's own, to all other processors; in Operational one to the processors outside
    /// the ring, if there are any.
    ///
    /// In every other state nothing happens.
    Join,
    /// In Gather, the node gives up on the processors that don't agree with it, and adds them to its `fail_set`.
    ///
    /// In every other state nothing happens.
    Consensus,
    /// The node enters Gather, even from Gather itself: its sets, agreement, send queue and kept token then start
    /// again.
    Loss,
}
