//! The kinds of delivery by the line `deliver`: a frame for the node, or one that changes nothing.
//!
//! Formats: The command line

use std::fmt;

/// The kind of delivery of a frame by the line `deliver`.
///
/// It is displayed in words that follow the frame's number. It is the first one that applies, in the order from
/// `NotSent` to `First`.
///
/// Formats: The command line
#[derive(Clone, Copy, Debug, PartialEq, Eq)]
pub enum DeliveryKind {
    /// No frame with this number was sent.
    NotSent,
    /// The frame was sent to other nodes only.
    NotForNode,
    /// The node received this frame before.
    Again,
    /// The frame has a message that the node sent itself, or received in another frame.
    KnownMessage,
    /// None of the others applies.
    First,
}

impl DeliveryKind {
    /// Returns the kind's name in JSON.
    ///
    /// Formats: The command line
    pub fn code(self) -> &'static str {
        match self {
            DeliveryKind::NotSent => "not sent",
            DeliveryKind::NotForNode => "not for node",
            DeliveryKind::Again => "again",
            DeliveryKind::KnownMessage => "known message",
            DeliveryKind::First => "first",
        }
    }
}

impl fmt::Display for DeliveryKind {
    fn fmt<W: fmt::Write>(&self, f: &mut fmt::Formatter<W>) -> fmt::Result {
        match *self {
            DeliveryKind::NotSent => f.write_str(", which was not sent"),
            DeliveryKind::NotForNode => f.write_str(", which is not for it"),
            DeliveryKind::Again => f.write_str(" again"),
            DeliveryKind::KnownMessage => f.write_str(", with a message that it has already"),
            DeliveryKind::First => Ok(()),
        }
    }
}
