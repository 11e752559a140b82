//! The head of a frame, as far as an explanation looks at it.
//!
//! Formats: Frames

/// The bytes that every frame begins with.
pub(crate) const START: [u8; 2] = [0x54, 0x52];

/// The number of bytes of a frame's head, up to its body.
pub(crate) const HEAD_BYTES: usize = 8;

/// The highest version of a frame.
///
/// The lowest is 1.
pub(crate) const LAST_VERSION: u8 = 3;

/// The fields of a frame's head after its first two bytes.
///
/// Their values aren't checked.
///
/// Formats: Frames
#[derive(Clone, Copy)]
pub(crate) struct FrameHead {
    /// The version of the frame.
    pub(crate) version: u8,
    /// The kind of the frame.
    pub(crate) kind: u8,
    /// The length of the body, in bytes.
    pub(crate) body_bytes: u32,
}

impl FrameHead {
    /// Returns the head that these bytes begin with, whatever its first two bytes are.
    ///
    /// Returns `None` if there are fewer than 8 bytes.
    ///
    /// Formats: Frames
    pub(crate) fn from_bytes(bytes: &[u8]) -> Option<FrameHead> {
        if bytes.len() < HEAD_BYTES {
            return None;
        }
        Some(FrameHead {
            version: bytes[2],
            kind: bytes[3],
            body_bytes: u32::from_be_bytes([bytes[4], bytes[5], bytes[6], bytes[7]]),
        })
    }

    /// Returns the name of the frame's kind, with its article.
    ///
    /// Returns `None` for a kind that no frame has.
    pub(crate) fn kind_name(self) -> Option<&'static str> {
        match self.kind {
            1 => Some("a message"),
            2 => Some("a token"),
            3 => Some("a join"),
            4 => Some("a commit token"),
            _ => None,
        }
    }
}
