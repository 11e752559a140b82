//! The command `frames`: listing the frames of a file.
//!
//! Formats: Listing frames

ghost use Rattle.std.specs.Prelude.{◌≡◌, ◌≤◌, ◌⊎◌, [], OnOk, IfErr};
ghost use Rattle.std.specs.Io.KnownBytes.{Keeps, Appends};
ghost use Rattle.ring_failure.specs.declared.failure.Failure.TheVariants.{Output};
ghost use Rattle.ring_failure.specs.Texts.{line_of};
ghost use Rattle.ring_console.specs.FrameLines.{frame_text};
ghost use Rattle.ring_console.specs.Listings.{IsListed, IsCut, IsCutListing};
ghost use Rattle.ring_console.specs.declared.frame_reader.InputState.TheVariants.{Open};

use crate::frame_lines::add_frame;
use crate::frame_reader::FrameReader;
use crate::line_buffer::LineBuffer;
use ring_base::Fault;
use ring_failure::{Failure, WriterSlot, exit_status, fill_slot, report_failure};
use ring_wire::Frame;
use std::alloc::Allocator;
use std::io::{BufWriter, Read, Write};

/// Reads consecutive frames and prints a line for each on `out`.
///
/// Returns the exit status: 0 at the end of the input, otherwise 1.
///
/// Errors, each reported on `err` unless stated otherwise:
/// - `BadFrame` if the rest of the input begins with no frame, or reading fails;
/// - `Memory` if an allocation fails;
/// - `out` fails, or there are 2^64 - 1 frames: nothing is reported.
///
/// If an error is reported, the lines of all earlier frames are on `out`. With `BadFrame` these are all frames that were
/// read. The amount of memory doesn't depend on the input.
///
/// Formats: Listing frames
pub fn frames<A: Allocator + Copy, R: Read, O: Write, E: Write>(
    alloc: A,
    input: &mut R,
    out: &mut O,
    err: &mut E,
) -> u8
    ensures status { result ≤ 1 }
    ensures quiet { result ≡ 0 → Keeps (E.contents err.old) (E.contents err.new) }
    ensures frame_lines { result ≡ 0 → IsListed A (R.remaining input.old) (R.remaining input.new)
        (O.contents out.old) (O.contents out.new) }
    ensures cut { result ≡ 1 → (err.new ≡ err.old)
        ⊎ IsCutListing A (R.remaining input.old) (R.remaining input.new) (O.contents out.old) (O.contents out.new) }
{
    match BufWriter::new(alloc, WriterSlot { writer: None }) {
        Ok(mut buffer) => {
            fill_slot(&mut buffer, out);
            let done = list_frames(alloc, input, &mut buffer);
            let status = exit_status(&mut buffer, err, done);
            let (WriterSlot { writer }, _) = buffer.into_parts();
            // No effect at run time. The proof reads the contents of `out` from this use.
            if let Some(writer) = writer {
                let _ = &*writer;
            }
            status
        }
        Err(_) => report_failure(err, Failure::Refused(Fault::Memory)),
    }
}

/// Lists the frames of the input on `out`.
///
/// Errors: the failure that ends the listing before the end of the input. It is `Output` even if there are more frames
/// than a u64 counts.
fn list_frames<A: Allocator + Copy, R: Read, W: Write>(
    alloc: A,
    input: &mut R,
    out: &mut W,
) -> Result<(), Failure>
    ensures frame_lines { OnOk result (IsListed A (R.remaining input.old) (R.remaining input.new)
        (W.contents out.old) (W.contents out.new)) }
    ensures cut { IfErr result (IsCut A (R.remaining input.old) (R.remaining input.new) (W.contents out.old) (W.contents out.new)) }
{
    match FrameReader::new(alloc) {
        Ok(mut frame_reader) => {
            let mut next = None;
            let mut line = LineBuffer::new();
            list_with_reader(alloc, input, &mut frame_reader, &mut next, &mut line, out)
        }
        Err(failure) => Err(failure),
    }
}

/// Lists frames as [`list_frames`] does, with a reader that must not have read anything yet.
///
/// Each frame is decoded into `next`, and its line built in `line`.
fn list_with_reader<A: Allocator + Copy, R: Read, W: Write>(
    alloc: A,
    input: &mut R,
    frame_reader: &mut FrameReader<A>,
    next: &mut Option<Frame<A>>,
    line: &mut LineBuffer,
    out: &mut W,
) -> Result<(), Failure>
    requires empty { frame_reader.old.bytes.items ≡ [] }
    requires open { (frame_reader.old.next_frame_offset ≡ 0) × (frame_reader.old.taken_bytes ≡ 0) × (frame_reader.old.state ≡ Open) }
    requires begun { line.old ≡ [] }
    ensures frame_lines { OnOk result (IsListed A (R.remaining input.old) (R.remaining input.new)
        (W.contents out.old) (W.contents out.new)) }
    ensures cut { IfErr result (IsCut A (R.remaining input.old) (R.remaining input.new) (W.contents out.old) (W.contents out.new)) }
{
    for _ in 0..u64::MAX {
        frame_reader.next_frame(alloc, input, next)?;
        let Some(frame) = &*next else {
            return Ok(());
        };
        print_frame(out, line, frame)?;
    }
    Err(Failure::Output)
}

/// Prints a frame's line, which it builds in `line`.
///
/// Errors: `Output` if writing fails.
fn print_frame<A: Allocator + Copy, W: Write>(
    out: &mut W,
    line: &mut LineBuffer,
    frame: &Frame<A>,
) -> Result<(), Failure>
    requires empty { line.old ≡ [] }
    ensures line { OnOk result (Appends (W.contents out.old) (W.contents out.new) (line_of (frame_text frame.now))) }
    ensures begun { line.new ≡ [] }
    ensures failed { IfErr result (λ failure. failure ≡ Output) }
{
    add_frame(line, frame);
    line.print_to(out)
}
