//! Ring names for the tests.

use ring_base::{Proc, RingId};

/// Returns the ring of this number whose representative is processor 1.
pub fn ring(seq: u64) -> RingId {
    RingId {
        seq,
        rep: Proc::new(1),
    }
}
