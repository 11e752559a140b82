//! The shapes of a picture, in SVG.
//!
//! Formats: The command line

ghost use Rattle.std.specs.Prelude.{OnOk, IfSome};
ghost use Rattle.std.specs.Io.KnownBytes.{Appends};
ghost use Rattle.ring_trace_picture.specs.PictureTexts.{IsGrown, IsOpened, opening_line, closing_line};

use crate::call_arcs::{ArcEnd, CallArc};
use crate::canvas::{Band, Canvas};
use crate::labels::LabelRow;
use crate::mark::LaneColour;
use ring_base::{Proc, ProcSet, RingId, State};
use std::alloc::Allocator;
use std::fmt::Display;
use std::io::{self, Write};

/// The height of a bar.
const BAR: u64 = 16;

/// The distance from a bar's upper edge to the base line of its text.
const BASE: u64 = 12;

/// The approximate width of a letter.
pub(crate) const LETTER: u64 = 6;

/// Opens a picture of this size, and defines the hatching of rings that aren't primary: a gradient, which is drawn
/// faster than a pattern.
///
/// Errors: any error of `out`. How much has been written is then unspecified.
///
/// Formats: The command line
pub(crate) fn write_head<W: Write>(out: &mut W, width: u64, height: u64) -> io::Result<()>
    ensures { OnOk result (IsOpened width height (W.contents out.old) (W.contents out.new)) }
{
    write_opening_line(out, width, height)?;
    write_background(out, width, height)
}

/// Opens a picture of this size.
fn write_opening_line<W: Write>(out: &mut W, width: u64, height: u64) -> io::Result<()>
    ensures { OnOk result (Appends (W.contents out.old) (W.contents out.new) (opening_line width height)) }
{
    writeln!(
        out,
        "<svg xmlns=\"http://www.w3.org/2000/svg\" viewBox=\"0 0 {width} {height}\" width=\"{width}pt\" height=\"{height}pt\" \
         font-family=\"sans-serif\" font-size=\"10\">"
    )
}

/// Writes a white background of this size, and defines the hatching.
fn write_background<W: Write>(out: &mut W, width: u64, height: u64) -> io::Result<()>
    ensures { OnOk result (IsGrown (W.contents out.old) (W.contents out.new)) }
{
    writeln!(
        out,
        "<rect width=\"{width}\" height=\"{height}\" fill=\"#ffffff\"/>\n\
         <defs><linearGradient id=\"hatch\" gradientUnits=\"userSpaceOnUse\" x1=\"0\" y1=\"0\" x2=\"4\" y2=\"4\" \
         spreadMethod=\"repeat\"><stop offset=\"0.8\" stop-color=\"#d9ead3\"/>\
         <stop offset=\"0.8\" stop-color=\"#6aa84f\"/></linearGradient></defs>"
    )
}

/// Opens the part of the strip that a band shows.
///
/// Its shapes follow.
///
/// Errors: any error of `out`. How much has been written is then unspecified.
///
/// Formats: The command line
pub(crate) fn write_band_head<W: Write>(out: &mut W, canvas: Canvas, band: Band) -> io::Result<()>
    ensures { OnOk result (IsGrown (W.contents out.old) (W.contents out.new)) }
{
    write_view(
        out,
        (canvas.bands_left_edge(), canvas.band_top(band)),
        (canvas.x(band.begin), canvas.band_view_width()),
        canvas.bottom(),
    )
}

/// Opens a part of a band that ends with the band's columns.
///
/// Its shapes follow.
///
/// Errors: any error of `out`. How much has been written is then unspecified.
///
/// Formats: The command line
pub(crate) fn write_columns_head<W: Write>(
    out: &mut W,
    canvas: Canvas,
    band: Band,
) -> io::Result<()>
    ensures { OnOk result (IsGrown (W.contents out.old) (W.contents out.new)) }
{
    let begin = canvas.x(band.begin);
    let width = canvas.x(band.end).saturating_sub(begin);
    write_view(out, (begin, 0), (begin, width), canvas.bottom())
}

/// Opens a view at `place` that shows a span of the strip, given by its left edge and its width, in this height.
fn write_view<W: Write>(
    out: &mut W,
    place: (u64, u64),
    span: (u64, u64),
    height: u64,
) -> io::Result<()>
    ensures { OnOk result (IsGrown (W.contents out.old) (W.contents out.new)) }
{
    let (x, y) = place;
    let (begin, width) = span;
    writeln!(
        out,
        "<svg x=\"{x}\" y=\"{y}\" width=\"{width}\" height=\"{height}\" viewBox=\"{begin} 0 {width} {height}\">"
    )
}

/// Closes the picture, a band, or a part of one, after all its shapes.
///
/// Errors: any error of `out`. How much has been written is then unspecified.
///
/// Formats: The command line
pub(crate) fn write_end<W: Write>(out: &mut W) -> io::Result<()>
    ensures { OnOk result (Appends (W.contents out.old) (W.contents out.new) closing_line) }
{
    writeln!(out, "</svg>")
}

/// Returns the fill of a lane of this colour.
fn fill_of(colour: LaneColour) -> &'static str {
    match colour {
        LaneColour::State(State::Gather) => "#f6d55c",
        LaneColour::State(State::Commit) => "#f4a261",
        LaneColour::State(State::Recovery) => "#b07aa1",
        LaneColour::State(State::Operational) => "#93c47d",
        LaneColour::State(State::Stopped) => "none",
        LaneColour::Minority => "url(#hatch)",
    }
}

/// Writes text at `place`, its left end and its base line.
///
/// `style` has further attributes, each with a space before it.
fn write_text<W: Write, D: Display + Drop>(
    out: &mut W,
    place: (u64, u64),
    style: &str,
    words: D,
) -> io::Result<()>
    ensures { OnOk result (IfSome (D.output words) (λ text. IsGrown (W.contents out.old) (W.contents out.new))) }
{
    let (x, y) = place;
    writeln!(out, "<text x=\"{x}\" y=\"{y}\"{style}>{words}</text>")
}

/// Opens a text as `write_text` does.
///
/// Its words follow.
fn write_text_head<W: Write>(out: &mut W, place: (u64, u64), style: &str) -> io::Result<()>
    ensures { OnOk result (IsGrown (W.contents out.old) (W.contents out.new)) }
{
    let (x, y) = place;
    write!(out, "<text x=\"{x}\" y=\"{y}\"{style}>")
}

/// Closes a text after its words.
fn write_text_end<W: Write>(out: &mut W) -> io::Result<()>
    ensures { OnOk result (IsGrown (W.contents out.old) (W.contents out.new)) }
{
    writeln!(out, "</text>")
}

/// Writes a set: the numbers of its members in ascending order, separated by commas, in braces.
fn write_set<W: Write>(out: &mut W, set: ProcSet) -> io::Result<()>
    ensures { OnOk result (IsGrown (W.contents out.old) (W.contents out.new)) }
{
    write!(out, "{{")?;
    let mut separator = "";
    for node in set.iter() {
        write!(out, "{separator}{node}")?;
        separator = ",";
    }
    write!(out, "}}")
}

/// Writes a node's name, left of the node's lane in a band.
///
/// Errors: any error of `out`. How much has been written is then unspecified.
///
/// Formats: The command line
pub(crate) fn write_name<W: Write>(
    out: &mut W,
    canvas: Canvas,
    band: Band,
    node: Proc,
) -> io::Result<()>
    ensures { OnOk result (IsGrown (W.contents out.old) (W.contents out.new)) }
{
    let lane = canvas.band_top(band).saturating_add(canvas.y(node));
    let y = lane.saturating_add(BASE);
    write_text(
        out,
        (8, y),
        " font-size=\"12\"",
        format_args!("node {node}"),
    )
}

/// Writes a bar of a lane in this colour, from the left edge of column `from` to that of column `to`.
///
/// Errors: any error of `out`. How much has been written is then unspecified.
///
/// Formats: The command line
pub(crate) fn write_bar<W: Write>(
    out: &mut W,
    canvas: Canvas,
    node: Proc,
    colour: LaneColour,
    from: u64,
    to: u64,
) -> io::Result<()>
    ensures { OnOk result (IsGrown (W.contents out.old) (W.contents out.new)) }
{
    let x = canvas.x(from);
    let width = canvas.x(to).saturating_sub(x);
    write_box(out, (x, canvas.y(node)), width, colour)?;
    writeln!(out)
}

/// Writes a box of a bar's height at `place`, its left edge and its upper edge, filled with this colour, without the
/// end of its line.
fn write_box<W: Write>(
    out: &mut W,
    place: (u64, u64),
    width: u64,
    colour: LaneColour,
) -> io::Result<()>
    ensures { OnOk result (IsGrown (W.contents out.old) (W.contents out.new)) }
{
    let (x, y) = place;
    let fill = fill_of(colour);
    write!(
        out,
        "<rect x=\"{x}\" y=\"{y}\" width=\"{width}\" height=\"{BAR}\" fill=\"{fill}\" stroke=\"#444444\" stroke-width=\"0.5\"/>"
    )
}

/// Writes the end of a lane in the column in which the node stopped.
///
/// Errors: any error of `out`. How much has been written is then unspecified.
///
/// Formats: The command line
pub(crate) fn write_stop<W: Write>(
    out: &mut W,
    canvas: Canvas,
    node: Proc,
    column: u64,
) -> io::Result<()>
    ensures { OnOk result (IsGrown (W.contents out.old) (W.contents out.new)) }
{
    let (x, y) = (canvas.x(column), canvas.y(node));
    let (top, height) = (y.saturating_sub(4), BAR + 8);
    let beside = (x.saturating_add(8), y.saturating_add(BASE));
    write!(
        out,
        "<rect x=\"{x}\" y=\"{top}\" width=\"4\" height=\"{height}\" fill=\"#cc0000\"/>"
    )?;
    write_text(out, beside, " fill=\"#cc0000\"", "stopped")
}

/// Writes the name of a ring into the ring's box, which begins in column `column`.
///
/// The ring's members follow if `has_members`.
///
/// Errors: any error of `out`. How much has been written is then unspecified.
///
/// Formats: The command line
pub(crate) fn write_ring<W: Write>(
    out: &mut W,
    canvas: Canvas,
    node: Proc,
    ring: (RingId, ProcSet),
    column: u64,
    has_members: bool,
) -> io::Result<()>
    ensures { OnOk result (IsGrown (W.contents out.old) (W.contents out.new)) }
{
    let place = (
        canvas.x(column).saturating_add(3),
        canvas.y(node).saturating_add(BASE),
    );
    let halo =
        " stroke=\"#ffffff\" stroke-width=\"2\" stroke-opacity=\"0.7\" paint-order=\"stroke\"";
    let (name, members) = ring;
    write_text_head(out, place, halo)?;
    write!(out, "{name}")?;
    if has_members {
        write!(out, " ")?;
        write_set(out, members)?;
    }
    write_text_end(out)
}

/// Writes a node's committed length below the node's bar, in this column.
///
/// Errors: any error of `out`. How much has been written is then unspecified.
///
/// Formats: The command line
pub(crate) fn write_committed<W: Write>(
    out: &mut W,
    canvas: Canvas,
    node: Proc,
    length: u64,
    column: u64,
) -> io::Result<()>
    ensures { OnOk result (IsGrown (W.contents out.old) (W.contents out.new)) }
{
    let y = canvas.y(node).saturating_add(BAR + BASE - 1);
    write_text(out, (canvas.x(column), y), " fill=\"#674ea7\"", length)
}

/// Underlines a node's committed length in this column: a snapshot replaces the first places of the log.
///
/// Errors: any error of `out`. How much has been written is then unspecified.
///
/// Formats: The command line
pub(crate) fn write_trimmed<W: Write>(
    out: &mut W,
    canvas: Canvas,
    node: Proc,
    column: u64,
) -> io::Result<()>
    ensures { OnOk result (IsGrown (W.contents out.old) (W.contents out.new)) }
{
    let (x, y) = (
        canvas.x(column),
        canvas.y(node).saturating_add(BAR + BASE + 1),
    );
    writeln!(
        out,
        "<rect x=\"{x}\" y=\"{y}\" width=\"16\" height=\"1.5\" fill=\"#674ea7\"/>"
    )
}

/// Writes the name of a call, `C.N`, at `x` above its node's bar, in this row.
///
/// Errors: any error of `out`. How much has been written is then unspecified.
///
/// Formats: The command line
pub(crate) fn write_call_name<W: Write, A: Allocator>(
    out: &mut W,
    canvas: Canvas,
    arc: &CallArc<A>,
    x: u64,
    row: LabelRow,
) -> io::Result<()>
    ensures { OnOk result (IsGrown (W.contents out.old) (W.contents out.new)) }
{
    let above = if row == LabelRow::Upper { 22 } else { 13 };
    let y = canvas.y(arc.node).saturating_sub(above);
    let (client, number) = (arc.client, arc.number);
    write!(
        out,
        "<text x=\"{x}\" y=\"{y}\" font-size=\"9\" fill=\"#1155cc\">{client}.{number}"
    )?;
    write_title(out, arc.title.as_str())?;
    writeln!(out, "</text>")
}

/// Writes a call as an arc from the column of its submission to that of its answer, with its title.
///
/// A call without an answer has a dashed arc to the end. The arc of a refused call ends in a cross, that of a call with
/// a repeated answer in a circle.
///
/// Errors: any error of `out`. How much has been written is then unspecified.
///
/// Formats: The command line
pub(crate) fn write_call<W: Write, A: Allocator>(
    out: &mut W,
    canvas: Canvas,
    arc: &CallArc<A>,
) -> io::Result<()>
    ensures { OnOk result (IsGrown (W.contents out.old) (W.contents out.new)) }
{
    let stroke = stroke_of(arc.end);
    let to = arc.to.unwrap_or(canvas.columns);
    let (x, end, y) = (canvas.x(arc.from), canvas.x(to), canvas.y(arc.node));
    let (top, middle) = (y.saturating_sub(20), x.saturating_add(end) / 2);
    write!(
        out,
        "<path d=\"M {x} {y} Q {middle} {top} {end} {y}\" fill=\"none\" {stroke}>"
    )?;
    write_title(out, arc.title.as_str())?;
    writeln!(out, "</path>")?;
    write_arc_end(out, arc.end, end, y)
}

/// Returns how the arc of a call with this end is drawn.
fn stroke_of(end: ArcEnd) -> &'static str {
    match end {
        ArcEnd::Waiting => "stroke=\"#cc0000\" stroke-dasharray=\"3 2\"",
        ArcEnd::Done => "stroke=\"#1155cc\"",
        ArcEnd::Kept => "stroke=\"#00838f\"",
        ArcEnd::Refused => "stroke=\"#d05a00\"",
    }
}

/// Writes the mark at the end of an arc, if it has one.
fn write_arc_end<W: Write>(out: &mut W, end: ArcEnd, x: u64, y: u64) -> io::Result<()>
    ensures { OnOk result (IsGrown (W.contents out.old) (W.contents out.new)) }
{
    let stroke = stroke_of(end);
    match end {
        ArcEnd::Waiting | ArcEnd::Done => Ok(()),
        ArcEnd::Kept => {
            let above = y.saturating_sub(3);
            writeln!(
                out,
                "<circle cx=\"{x}\" cy=\"{above}\" r=\"3\" fill=\"#ffffff\" {stroke}/>"
            )
        }
        ArcEnd::Refused => {
            let (left, above) = (x.saturating_sub(3), y.saturating_sub(6));
            writeln!(
                out,
                "<path d=\"M {left} {above} l 6 6 m 0 -6 l -6 6\" fill=\"none\" {stroke} stroke-width=\"1.5\"/>"
            )
        }
    }
}

/// Writes a shape's title, which a browser shows when the pointer is on the shape.
fn write_title<W: Write>(out: &mut W, words: &str) -> io::Result<()>
    ensures { OnOk result (IsGrown (W.contents out.old) (W.contents out.new)) }
{
    write!(out, "<title>")?;
    for letter in words.chars() {
        match letter {
            '&' => write!(out, "&amp;")?,
            '<' => write!(out, "&lt;")?,
            _ => write!(out, "{letter}")?,
        }
    }
    write!(out, "</title>")
}

/// Writes a wall of this colour through all lanes, for the beginning of a cut or its end.
///
/// Errors: any error of `out`. How much has been written is then unspecified.
///
/// Formats: The command line
pub(crate) fn write_wall<W: Write>(
    out: &mut W,
    canvas: Canvas,
    column: u64,
    stroke: &str,
) -> io::Result<()>
    ensures { OnOk result (IsGrown (W.contents out.old) (W.contents out.new)) }
{
    let (x, foot) = (canvas.x(column), canvas.lanes_bottom());
    writeln!(
        out,
        "<line x1=\"{x}\" y1=\"4\" x2=\"{x}\" y2=\"{foot}\" stroke=\"{stroke}\" stroke-width=\"2\"/>"
    )
}

/// Writes a side of a cut at the top of the cut's wall, at `x`.
///
/// Errors: any error of `out`. How much has been written is then unspecified.
///
/// Formats: The command line
pub(crate) fn write_side<W: Write>(
    out: &mut W,
    x: u64,
    side: ProcSet,
    row: LabelRow,
) -> io::Result<()>
    ensures { OnOk result (IsGrown (W.contents out.old) (W.contents out.new)) }
{
    write_text_head(out, (x, base_of(row)), " fill=\"#cc0000\"")?;
    write_set(out, side)?;
    write_text_end(out)
}

/// Writes the word `heals` at `x`, at the top of the wall for the end of a cut.
///
/// Errors: any error of `out`. How much has been written is then unspecified.
///
/// Formats: The command line
pub(crate) fn write_heal<W: Write>(out: &mut W, x: u64, row: LabelRow) -> io::Result<()>
    ensures { OnOk result (IsGrown (W.contents out.old) (W.contents out.new)) }
{
    write_text(out, (x, base_of(row)), " fill=\"#38761d\"", "heals")
}

/// Returns the base line of the labels of walls in this row.
fn base_of(row: LabelRow) -> u64 {
    if row == LabelRow::Upper { 9 } else { 19 }
}

/// Writes the grey background of a column of rounds in which nothing changed.
///
/// Errors: any error of `out`. How much has been written is then unspecified.
///
/// Formats: The command line
pub(crate) fn write_fold<W: Write>(out: &mut W, canvas: Canvas, column: u64) -> io::Result<()>
    ensures { OnOk result (IsGrown (W.contents out.old) (W.contents out.new)) }
{
    let (x, width, foot) = (canvas.x(column), canvas.x(1), canvas.lanes_bottom());
    let height = foot.saturating_sub(20);
    writeln!(
        out,
        "<rect x=\"{x}\" y=\"20\" width=\"{width}\" height=\"{height}\" fill=\"#eeeeee\"/>"
    )
}

/// Writes the number of rounds in which nothing changed, below all lanes.
///
/// Nothing is written for 0.
///
/// Errors: any error of `out`. How much has been written is then unspecified.
///
/// Formats: The command line
pub(crate) fn write_rounds<W: Write>(
    out: &mut W,
    canvas: Canvas,
    column: u64,
    rounds: u64,
) -> io::Result<()>
    ensures { OnOk result (IsGrown (W.contents out.old) (W.contents out.new)) }
{
    if rounds == 0 {
        return Ok(());
    }
    let below = (canvas.x(column), canvas.lanes_bottom().saturating_add(11));
    write_text(out, below, " fill=\"#666666\"", format_args!("x{rounds}"))
}

/// Writes the number of lost copies, below the rounds.
///
/// Nothing is written for 0.
///
/// Errors: any error of `out`. How much has been written is then unspecified.
///
/// Formats: The command line
pub(crate) fn write_lost<W: Write>(
    out: &mut W,
    canvas: Canvas,
    column: u64,
    lost: u64,
) -> io::Result<()>
    ensures { OnOk result (IsGrown (W.contents out.old) (W.contents out.new)) }
{
    if lost == 0 {
        return Ok(());
    }
    let below = (canvas.x(column), canvas.lanes_bottom().saturating_add(22));
    write_text(out, below, " fill=\"#cc0000\"", format_args!("-{lost}"))
}

/// Writes the number of an event at the bottom.
///
/// Numbers from 100 on are written in two rows, and from 100,000 on in every other pair of columns only, so that they
/// fit.
///
/// Errors: any error of `out`. How much has been written is then unspecified.
///
/// Formats: The command line
pub(crate) fn write_event<W: Write>(
    out: &mut W,
    canvas: Canvas,
    column: u64,
    event: u64,
) -> io::Result<()>
    ensures { OnOk result (IsGrown (W.contents out.old) (W.contents out.new)) }
{
    if event >= 100_000 && column % 4 >= 2 {
        return Ok(());
    }
    let row = if event >= 100 && column % 2 == 1 {
        42
    } else {
        33
    };
    let below = (canvas.x(column), canvas.lanes_bottom().saturating_add(row));
    write_text(out, below, " font-size=\"9\" fill=\"#666666\"", event)
}

/// Writes the legend: the meanings of the colours and of the shapes.
///
/// Errors: any error of `out`. How much has been written is then unspecified.
///
/// Formats: The command line
pub(crate) fn write_legend<W: Write>(out: &mut W, canvas: Canvas) -> io::Result<()>
    ensures { OnOk result (IsGrown (W.contents out.old) (W.contents out.new)) }
{
    write_colours(out, canvas)?;
    write_words(
        out,
        canvas,
        42,
        "In a box: the ring and its members. Below a lane: how much its node has committed, underlined where a snapshot stands for \
         its first places.",
    )?;
    write_words(
        out,
        canvas,
        56,
        "Arcs: calls to their answers, blue where they take effect; green with a ring where the answer is that from before; orange \
         with a cross where it is a refusal; dashed red where there is none.",
    )?;
    write_words(
        out,
        canvas,
        70,
        "Red wall: a cut, and its sides; green wall: it heals. Grey: rounds in which nothing changes (x20), and copies that are \
         lost (-3). Below: the events' numbers.",
    )
}

/// Writes the colours of the lanes and their meanings.
fn write_colours<W: Write>(out: &mut W, canvas: Canvas) -> io::Result<()>
    ensures { OnOk result (IsGrown (W.contents out.old) (W.contents out.new)) }
{
    let mut x = 8u64;
    for (colour, name) in [
        (LaneColour::State(State::Gather), "gather"),
        (LaneColour::State(State::Commit), "commit"),
        (LaneColour::State(State::Recovery), "recovery"),
        (LaneColour::State(State::Operational), "operational"),
        (LaneColour::Minority, "operational, not primary"),
    ] {
        write_colour(out, canvas, colour, name, x)?;
        x = x.saturating_add(110);
    }
    Ok(())
}

/// Writes a line of the legend, at this distance from its top.
fn write_words<W: Write>(out: &mut W, canvas: Canvas, below: u64, words: &str) -> io::Result<()>
    ensures { OnOk result (IsGrown (W.contents out.old) (W.contents out.new)) }
{
    write_text(out, (8, canvas.legend().saturating_add(below)), "", words)
}

/// Writes a colour and its meaning.
fn write_colour<W: Write>(
    out: &mut W,
    canvas: Canvas,
    colour: LaneColour,
    name: &str,
    x: u64,
) -> io::Result<()>
    ensures { OnOk result (IsGrown (W.contents out.old) (W.contents out.new)) }
{
    let y = canvas.legend().saturating_add(8);
    write_box(out, (x, y), 24, colour)?;
    let beside = (x.saturating_add(28), y.saturating_add(BASE));
    write_text(out, beside, "", name)
}

/// Writes into the legend that the events from `from` to `to`, both included, are left out.
///
/// Errors: any error of `out`. How much has been written is then unspecified.
///
/// Formats: The command line
pub(crate) fn write_rest<W: Write>(
    out: &mut W,
    canvas: Canvas,
    from: u64,
    to: u64,
) -> io::Result<()>
    ensures { OnOk result (IsGrown (W.contents out.old) (W.contents out.new)) }
{
    let y = canvas.legend().saturating_add(86);
    write_text(
        out,
        (8, y),
        " font-size=\"12\" fill=\"#cc0000\"",
        format_args!("There is more: --from {from} --to {to}"),
    )
}
