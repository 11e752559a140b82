//! The versions of frames: 1 to 3.
//!
//! Formats: Frames

/// The version of every frame that needs no later version.
///
/// Formats: Frames
pub const FIRST_VERSION: u8 = 1;
/// The version of a frame whose payload is a Pack, or a Wrapped of one.
///
/// Formats: Frames
pub const PACK_VERSION: u8 = 2;
/// The version of a frame whose payload is a Snap, a Head with a trimmed length above 0, or a Wrapped of one of these.
///
/// Formats: Frames
pub const TRIM_VERSION: u8 = 3;
