//! References to frames in the book.
//!
//! Rules: The book and the threads 10

/// A reference to a sent frame in the book: the number of its line, and its index among the frames of that line.
///
/// Rules: The book and the threads 10
#[derive(Clone, Copy, Debug, PartialEq, Eq)]
pub struct FrameRef {
    /// The number of the line in the book's list, counted from 0.
    pub line: u32,
    /// The index of the frame among the frames of that line, counted from 0.
    pub place: u16,
}
