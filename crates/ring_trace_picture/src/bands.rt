//! The bands of a picture, each with some columns of the run.
//!
//! Formats: The command line

ghost use Rattle.std.specs.Prelude.{OnOk};
ghost use Rattle.ring_trace_picture.specs.PictureTexts.{IsGrown};

use crate::call_arcs::CallArc;
use crate::canvas::{Band, Canvas};
use crate::labels::LabelRows;
use crate::lane::write_lane;
use crate::mark::{PictureMark, PlacedMark};
use crate::shapes::{
    LETTER, write_band_head, write_call, write_call_name, write_columns_head, write_committed,
    write_end, write_event, write_fold, write_heal, write_lost, write_name, write_rounds,
    write_side, write_trimmed, write_wall,
};
use ring_base::{Proc, ProcSet};
use std::alloc::Allocator;
use std::io::{self, Write};

/// Writes a band: the nodes' names, and the band's columns of all lanes.
///
/// Errors: any error of `out`. How much has been written is then unspecified.
///
/// Formats: The command line
pub(crate) fn write_band<W: Write, A: Allocator>(
    out: &mut W,
    canvas: Canvas,
    band: Band,
    placed: &[PlacedMark],
    arcs: &[CallArc<A>],
) -> io::Result<()>
    ensures { OnOk result (IsGrown (W.contents out.old) (W.contents out.new)) }
{
    for before in 0..canvas.lanes {
        write_name(out, canvas, band, canvas.node(before))?;
    }
    write_band_head(out, canvas, band)?;
    write_folds(out, canvas, band, placed)?;
    for before in 0..canvas.lanes {
        let lane = canvas.node(before);
        write_lane(out, canvas, band, lane, placed)?;
        write_arcs(out, canvas, band, lane, arcs)?;
        write_call_names(out, canvas, band, lane, arcs)?;
        write_lengths(out, canvas, band, lane, placed)?;
    }
    write_walls(out, canvas, band, placed)?;
    write_feet(out, canvas, band, placed)?;
    write_end(out)
}

/// Writes the backgrounds of the band's columns in which nothing changes.
fn write_folds<W: Write>(
    out: &mut W,
    canvas: Canvas,
    band: Band,
    placed: &[PlacedMark],
) -> io::Result<()>
    ensures { OnOk result (IsGrown (W.contents out.old) (W.contents out.new)) }
{
    for placed in placed {
        if let PictureMark::Rounds(_) = &placed.mark
            && band.has_column(placed.column)
        {
            write_fold(out, canvas, placed.column)?;
        }
    }
    Ok(())
}

/// Writes the parts of a node's call arcs that are in the band.
fn write_arcs<W: Write, A: Allocator>(
    out: &mut W,
    canvas: Canvas,
    band: Band,
    lane: Proc,
    arcs: &[CallArc<A>],
) -> io::Result<()>
    ensures { OnOk result (IsGrown (W.contents out.old) (W.contents out.new)) }
{
    write_columns_head(out, canvas, band)?;
    for arc in arcs {
        let to = arc.to.unwrap_or(canvas.columns);
        if arc.node == lane && arc.from < band.end && band.begin <= to {
            write_call(out, canvas, arc)?;
        }
    }
    write_end(out)
}

/// Writes the names of a node's calls that begin in the band.
fn write_call_names<W: Write, A: Allocator>(
    out: &mut W,
    canvas: Canvas,
    band: Band,
    lane: Proc,
    arcs: &[CallArc<A>],
) -> io::Result<()>
    ensures { OnOk result (IsGrown (W.contents out.old) (W.contents out.new)) }
{
    let mut rows = LabelRows::new();
    for arc in arcs {
        if arc.node == lane && band.has_column(arc.from) {
            let width = call_width(arc.client, arc.number);
            let x = canvas.fitted_text_x(band, canvas.x(arc.from), width);
            if let Some(row) = rows.place_label(x, width) {
                write_call_name(out, canvas, arc, x, row)?;
            }
        }
    }
    Ok(())
}

/// Returns the width of a call's name.
fn call_width(client: u32, number: u64) -> u64 {
    digit_count(u64::from(client))
        .saturating_add(digit_count(number))
        .saturating_mul(LETTER)
        .saturating_add(3)
}

/// Returns the number of digits of a number.
fn digit_count(number: u64) -> u64 {
    let mut rest = number;
    let mut many = 1u64;
    for _ in 0..20 {
        rest = rest / 10;
        if rest > 0 {
            many = many.saturating_add(1);
        }
    }
    many
}

/// Writes a node's committed lengths in the band, and marks the columns in which it dropped places.
fn write_lengths<W: Write>(
    out: &mut W,
    canvas: Canvas,
    band: Band,
    lane: Proc,
    placed: &[PlacedMark],
) -> io::Result<()>
    ensures { OnOk result (IsGrown (W.contents out.old) (W.contents out.new)) }
{
    let mut rows = LabelRows::new();
    for placed in placed {
        let column = placed.column;
        match &placed.mark {
            PictureMark::Committed { node, length } if *node == lane && band.has_column(column) => {
                let width = digit_count(*length).saturating_mul(LETTER);
                if rows.place_below(canvas.x(column), width.saturating_add(2)) {
                    write_committed(out, canvas, lane, *length, column)?;
                }
            }
            PictureMark::Trimmed(node) if *node == lane && band.has_column(column) => {
                write_trimmed(out, canvas, lane, column)?;
            }
            _ => {}
        }
    }
    Ok(())
}

/// Writes the walls of cuts and of their ends in the band, with their labels.
fn write_walls<W: Write>(
    out: &mut W,
    canvas: Canvas,
    band: Band,
    placed: &[PlacedMark],
) -> io::Result<()>
    ensures { OnOk result (IsGrown (W.contents out.old) (W.contents out.new)) }
{
    let mut rows = LabelRows::new();
    for placed in placed {
        if band.has_column(placed.column) {
            write_wall_mark(out, canvas, band, placed, &mut rows)?;
        }
    }
    Ok(())
}

/// Writes a mark if it belongs to a wall.
fn write_wall_mark<W: Write>(
    out: &mut W,
    canvas: Canvas,
    band: Band,
    placed: &PlacedMark,
    rows: &mut LabelRows,
) -> io::Result<()>
    ensures { OnOk result (IsGrown (W.contents out.old) (W.contents out.new)) }
{
    let column = placed.column;
    match &placed.mark {
        PictureMark::Cut => write_wall(out, canvas, column, "#cc0000"),
        PictureMark::Side { members, before } => {
            let width = side_width(*members);
            let begin = canvas.x(column).saturating_add(4);
            let x = canvas.fitted_text_x(
                band,
                begin.saturating_add(before.saturating_mul(LETTER)),
                width,
            );
            match rows.place_label(x, width) {
                Some(row) => write_side(out, x, *members, row),
                None => Ok(()),
            }
        }
        PictureMark::Heal => {
            write_wall(out, canvas, column, "#38761d")?;
            let x = canvas.x(column).saturating_add(4);
            match rows.place_label(x, 5 * LETTER) {
                Some(row) => write_heal(out, x, row),
                None => Ok(()),
            }
        }
        _ => Ok(()),
    }
}

/// Returns the width of the label of a side.
fn side_width(members: ProcSet) -> u64 {
    set_text_width(members).saturating_mul(LETTER)
}

/// Returns the number of letters that a set takes, its braces included.
pub(crate) fn set_text_width(set: ProcSet) -> u64 {
    let mut letters = 2u64;
    for node in set.iter() {
        letters = letters.saturating_add(if node.number() < 10 { 2 } else { 3 });
    }
    letters
}

/// Writes the texts below the lanes of the band: rounds, lost copies, and the events' numbers.
fn write_feet<W: Write>(
    out: &mut W,
    canvas: Canvas,
    band: Band,
    placed: &[PlacedMark],
) -> io::Result<()>
    ensures { OnOk result (IsGrown (W.contents out.old) (W.contents out.new)) }
{
    for placed in placed {
        let column = placed.column;
        match &placed.mark {
            _ if !band.has_column(column) => {}
            PictureMark::Rounds(rounds) => write_rounds(out, canvas, column, *rounds)?,
            PictureMark::Lost(lost) => write_lost(out, canvas, column, *lost)?,
            PictureMark::Event(event) => write_event(out, canvas, column, *event)?,
            _ => {}
        }
    }
    Ok(())
}
