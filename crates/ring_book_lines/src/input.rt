//! The inputs of steps and submits.
//!
//! Rules: The book and the threads 9

use crate::frame_ref::FrameRef;
use crate::received_frame::ReceivedFrame;
use ring_node_spec::Input;
use ring_payload::Call;
use std::alloc::{Allocator, Global};

/// The input of a line: a call that the node took, or an input of the node's step.
///
/// Rules: The book and the threads 9
#[derive(Drop)]
pub enum LineInput<A: Allocator + Copy = Global> {
    /// A call was submitted, and the node took it.
    Submitted(Call<A>),
    /// An input was received.
    ///
    /// If it is a frame, the reference says where it is in the book, which the book checks.
    ///
    /// For any other input the reference has no meaning.
    Received(Input<A>, FrameRef),
}

/// The input of a line, as a step stores it on the way from the cell to the book.
///
/// Rules: The book and the threads 9 and 13
#[derive(Drop)]
pub enum StepInput<A: Allocator + Copy + Drop = Global> {
    /// The input as a value: a call, or an input of the node's step.
    Full(LineInput<A>),
    /// A received frame, stored as its bytes.
    ///
    /// The reference says where it is in the book, which the book checks.
    FrameBytes(ReceivedFrame<A>, FrameRef),
}
