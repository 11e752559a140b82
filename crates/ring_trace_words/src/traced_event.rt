//! The events and counts of a trace.
//!
//! Formats: The command line

use ring_base::Proc;

/// An event of a run, as a trace names it.
///
/// Formats: The command line
#[derive(Clone, Copy)]
pub struct TracedEvent<'a> {
    /// The number of the event in the run, counted from 1.
    pub event: u64,
    /// The node at which it happens.
    pub node: Proc,
    /// The description of the event, without its number (WHAT in FORMATS).
    pub description: &'a str,
}

/// The numbers of events and frames of a whole run, which end a trace.
///
/// Formats: The command line
#[derive(Clone, Copy)]
pub struct RunCounts {
    /// The number of events.
    pub events: u64,
    /// The number of frames sent by all nodes.
    pub frames: u64,
}
