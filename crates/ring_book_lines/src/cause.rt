//! The event of a line, as the line records it.
//!
//! Rules: The book and the threads 9

use crate::frame_ref::FrameRef;
use ring_base::Kind;
use ring_payload::Call;
use std::alloc::{Allocator, Global};

/// The event that a line records.
///
/// Of a frame it has only the frame's place in the book.
///
/// Rules: The book and the threads 9
#[derive(Drop)]
pub enum Cause<A: Allocator + Copy = Global> {
    /// A call was submitted, and the node took it.
    Submitted(Call<A>),
    /// The frame at this place of the book was delivered to the line's node.
    Delivered(FrameRef),
    /// Bytes were received that don't encode a frame.
    Noise,
    /// A timeout of this kind was due at the node.
    Timeout(Kind),
    /// The node stopped for good, on a stop or because an allocation failed in its step.
    Stopped,
}
