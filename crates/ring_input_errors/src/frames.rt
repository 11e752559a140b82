//! The reason why a file isn't a sequence of frames.
//!
//! Formats: Frames; Listing frames; The command line

use crate::frame_head::{FrameHead, HEAD_BYTES, LAST_VERSION, START};
use ring_base::{Fault, MAX_FRAME_BYTES};
use ring_wire::Frame;
use std::alloc::{AllocError, Global};

/// The maximum number of bytes that are looked at to see whether they are text.
const TEXT_PROBE_BYTES: usize = 64;

/// The maximum length of a frame's body in bytes.
const MAX_BODY_BYTES: u32 = MAX_FRAME_BYTES as u32 - HEAD_BYTES as u32;

/// Explains in one sentence why the bytes aren't a sequence of frames.
///
/// The sentence says what follows the last frame, and what was expected there.
///
/// Returns `None` if they are frames.
///
/// Errors: `AllocError` if an allocation fails.
///
/// Formats: Frames; Listing frames
pub fn frames_reason(alloc: Global, bytes: &[u8]) -> Result<Option<String>, AllocError> {
    let mut rest = bytes;
    let mut frame = None;
    for _ in 0..bytes.len() {
        if rest.is_empty() {
            return Ok(None);
        }
        match Frame::decode_first_frame_into(alloc, rest, &mut frame) {
            Ok(length) => rest = rest.get(length..).unwrap_or(&[]),
            Err(Fault::Memory) => return Err(AllocError),
            Err(_) => return Ok(Some(no_frame_reason(alloc, rest)?)),
        }
    }
    Ok(None)
}

/// Explains why no frame begins these bytes, of which there is at least one.
fn no_frame_reason(alloc: Global, rest: &[u8]) -> Result<String, AllocError> {
    if let Some(start) = wrong_start(rest) {
        return wrong_start_reason(alloc, rest, start);
    }
    match FrameHead::from_bytes(rest) {
        Some(head) => head_reason(alloc, head, rest.len().saturating_sub(HEAD_BYTES)),
        None => format!(in alloc;
            "the file ends after {} of the {HEAD_BYTES} bytes of a frame's head",
            rest.len()
        ),
    }
}

/// Returns the first two bytes if they aren't those that every frame begins with.
///
/// Returns `None` if they are, or if there are fewer than two bytes.
fn wrong_start(rest: &[u8]) -> Option<[u8; 2]> {
    let (first, second) = (*rest.first()?, *rest.get(1)?);
    let start = [first, second];
    (start != START).then_some(start)
}

/// Explains that the bytes, whose first two are `found_start`, don't begin as a frame does.
fn wrong_start_reason(
    alloc: Global,
    rest: &[u8],
    found_start: [u8; 2],
) -> Result<String, AllocError> {
    if begins_with_text(rest) {
        return String::from_str(
            alloc,
            "text stands there; frames are bytes, and each begins with the bytes 54 52",
        );
    }
    let [first, second] = found_start;
    format!(in alloc;
        "the bytes {first:02x} {second:02x} stand there, and a frame begins with 54 52"
    )
}

/// Returns whether the first 64 bytes are only visible ASCII characters, spaces and ends of lines.
fn begins_with_text(rest: &[u8]) -> bool {
    rest.iter().take(TEXT_PROBE_BYTES).all(|byte| byte.is_ascii_graphic()
        || byte.is_ascii_whitespace())
}

/// Explains why no frame can have this head, or the `bytes_after_head` bytes after it in the file.
fn head_reason(
    alloc: Global,
    head: FrameHead,
    bytes_after_head: usize,
) -> Result<String, AllocError> {
    let FrameHead {
        version,
        kind,
        body_bytes,
    } = head;
    if version == 0 || version > LAST_VERSION {
        return format!(in alloc;
            "a frame of version {version} stands there; the versions are 1 to {LAST_VERSION}"
        );
    }
    let Some(name) = head.kind_name() else {
        return format!(in alloc;
            "a frame of kind {kind} stands there; 1 is a message, 2 a token, 3 a join, 4 a commit token"
        );
    };
    if body_bytes > MAX_BODY_BYTES {
        return format!(in alloc;
            "{name} with a body of {body_bytes} bytes stands there; a body has at most {MAX_BODY_BYTES}"
        );
    }
    if bytes_after_head < body_bytes as usize {
        return format!(in alloc;
            "the file ends after {bytes_after_head} of the {body_bytes} bytes of the body of {name}"
        );
    }
    format!(in alloc;
        "{name} of version {version} stands there, and its body of {body_bytes} bytes breaks the format of such a frame"
    )
}
