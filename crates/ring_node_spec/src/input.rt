//! The inputs of a node.
//!
//! Rules: Rings and states 8

use ring_base::Kind;
use ring_core_spec::Frame;
use std::alloc::{Allocator, Global};

/// `Input`: the input of one step of a node.
///
/// A submit isn't a step.
///
/// Rules: Rings and states 8
#[derive(Drop)]
pub enum Input<A: Allocator + Copy = Global> {
    /// A received frame.
    ///
    /// It must be within the limits of its format, as every decoded frame is.
    Frame(Frame<A>),
    /// Received bytes that aren't a frame.
    ///
    /// They change nothing.
    ///
    /// Rules: Rings and states 11
    Noise,
    /// A timeout of this kind is due.
    ///
    /// Rules: Timeouts 1 and 2
    Timeout(Kind),
    /// The node stops for good.
    ///
    /// Rules: Rings and states 12
    Stop,
}
