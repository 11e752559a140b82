//! The lane of a node in a band: the boxes of its states and rings.
//!
//! Formats: The command line

ghost use Rattle.std.specs.Prelude.{OnOk};
ghost use Rattle.ring_trace_picture.specs.PictureTexts.{IsGrown};

use crate::bands::set_text_width;
use crate::canvas::{Band, Canvas};
use crate::mark::{LaneColour, PictureMark, PlacedMark};
use crate::shapes::{LETTER, write_bar, write_ring, write_stop};
use ring_base::{Proc, ProcSet, RingId, State};
use std::io::{self, Write};

/// A part of a lane in one colour.
#[derive(Clone, Copy)]
struct LaneBox {
    colour: LaneColour,
    /// The ring that the node installed at the beginning of the box, if any.
    ring: Option<(RingId, ProcSet)>,
    /// The first column.
    first_column: u64,
}

/// The name of a ring that isn't written yet, since its maximum length depends on the next name of the lane.
#[derive(Clone, Copy)]
struct RingLabel {
    ring: (RingId, ProcSet),
    column: u64,
}

/// Writes a node's lane in a band.
///
/// `placed` must hold the marks of the whole picture.
///
/// Errors: any error of `out`. How much has been written is then unspecified.
///
/// Formats: The command line
pub(crate) fn write_lane<W: Write>(
    out: &mut W,
    canvas: Canvas,
    band: Band,
    lane: Proc,
    placed: &[PlacedMark],
) -> io::Result<()>
    ensures { OnOk result (IsGrown (W.contents out.old) (W.contents out.new)) }
{
    let mut last = LaneBox {
        colour: LaneColour::State(State::Gather),
        ring: None,
        first_column: 0,
    };
    let mut label = None;
    for placed in placed {
        match &placed.mark {
            PictureMark::LaneColour { node, colour } if *node == lane => {
                write_lane_box(out, canvas, band, lane, last, placed.column, &mut label)?;
                last = LaneBox {
                    colour: *colour,
                    ring: None,
                    first_column: placed.column,
                };
            }
            PictureMark::Ring {
                node,
                ring,
                members,
            } if *node == lane => last.ring = Some((*ring, *members)),
            _ => {}
        }
    }
    write_last_box(out, canvas, band, lane, last, &mut label)
}

/// Writes the last box of a lane, up to the end or to the mark of the node's stop, and the pending name.
fn write_last_box<W: Write>(
    out: &mut W,
    canvas: Canvas,
    band: Band,
    lane: Proc,
    last: LaneBox,
    label: &mut Option<RingLabel>,
) -> io::Result<()>
    ensures { OnOk result (IsGrown (W.contents out.old) (W.contents out.new)) }
{
    if last.colour == LaneColour::State(State::Stopped) {
        if band.has_column(last.first_column) {
            write_stop(out, canvas, lane, last.first_column)?;
        }
        return write_label(out, canvas, lane, label, canvas.x(last.first_column));
    }
    write_lane_box(out, canvas, band, lane, last, canvas.columns, label)?;
    let end = canvas
        .x(band.begin)
        .saturating_add(canvas.band_view_width());
    write_label(out, canvas, lane, label, end)
}

/// Writes the part of a box that is in the band, up to column `to`.
///
/// If the box has a ring, its name becomes the pending one, and the name that was pending is written.
fn write_lane_box<W: Write>(
    out: &mut W,
    canvas: Canvas,
    band: Band,
    lane: Proc,
    lane_box: LaneBox,
    to: u64,
    label: &mut Option<RingLabel>,
) -> io::Result<()>
    ensures { OnOk result (IsGrown (W.contents out.old) (W.contents out.new)) }
{
    let from = lane_box.first_column.max(band.begin);
    let to = to.min(band.end);
    if from >= to {
        return Ok(());
    }
    if let Some(ring) = &lane_box.ring {
        write_label(out, canvas, lane, label, canvas.x(from))?;
        *label = Some(RingLabel {
            ring: *ring,
            column: from,
        });
    }
    write_bar(out, canvas, lane, lane_box.colour, from, to)
}

/// Writes the pending name, if there is one, so that it ends before `end`.
///
/// It is written with the ring's members, without them, or not at all.
fn write_label<W: Write>(
    out: &mut W,
    canvas: Canvas,
    lane: Proc,
    label: &Option<RingLabel>,
    end: u64,
) -> io::Result<()>
    ensures { OnOk result (IsGrown (W.contents out.old) (W.contents out.new)) }
{
    let Some(RingLabel { ring, column }) = *label else {
        return Ok(());
    };
    let room = end.saturating_sub(canvas.x(column)) / LETTER;
    let has_members = set_text_width(ring.1).saturating_add(5) <= room;
    if has_members || room >= 4 {
        write_ring(out, canvas, lane, ring, column, has_members)?;
    }
    Ok(())
}
