//! The circumstances in which a message is delivered to a log.

use ring_base::{Proc, RingId};

/// The circumstances in which a message of the newest installed ring is delivered to a node's log.
///
/// Rules: The replicated log 2 and 10
#[derive(Clone, Copy)]
pub struct DeliveryContext {
    /// The ring of the message.
    pub ring: RingId,
    /// Whether the core is Operational in that ring after the step, so that it queues payloads.
    pub runs: bool,
    /// The node's processor.
    pub me: Proc,
    /// The number of places that were committed before the step, including dropped ones.
    pub committed: u64,
}
