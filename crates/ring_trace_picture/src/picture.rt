//! A picture under construction.
//!
//! Formats: The command line

ghost use Rattle.std.specs.Prelude.{◌≡◌, ◌≤◌, ◌+◌, OnOk, OnErr, IfErr};
ghost use Rattle.ring_base.specs.declared.fault.Fault.TheVariants.{Memory};
ghost use Rattle.ring_trace_picture.specs.PictureModels.{opening_picture, column_begun, mark_added};
ghost use Rattle.ring_trace_picture.specs.PictureTexts.{IsGrown, HasPicture, lanes_of};

use crate::bands::write_band;
use crate::call_arcs::{ArcEnd, CallArc, CallArcs};
use crate::canvas::Canvas;
use crate::mark::{PictureMark, PlacedMark};
use crate::shapes::{write_end, write_head, write_legend, write_rest};
use ring_base::{Fault, Fixed, Proc};
use ring_trace_words::WaitingCall;
use std::alloc::Allocator;
use std::io::{self, Write};
use std::marker::Model;

/// The maximum number of columns of a picture.
const MAX_COLUMNS: u64 = 2_000;

/// The picture of a run under construction, with a column for each event shown.
///
/// Contracts see it as a `PictureModel`.
///
/// Formats: The command line
#[derive(Drop)]
pub struct Picture<A: Allocator> {
    alloc: A,
    nodes: Fixed,
    /// The node with the only lane, or `None` if each node has a lane.
    only_lane: Option<Proc>,
    columns: u64,
    placed: Vec<PlacedMark, A>,
    /// The first event that has no column, if there is one.
    first_left_out: Option<u64>,
    /// The arcs of the calls that have columns.
    arcs: CallArcs<A>,
}

impl<A: Allocator> Model for Picture<A> {
    ghost use Rattle.std.specs.Prelude.{◌≤◌};
    ghost use Rattle.ring_trace_picture.specs.PictureModels.{PictureModel};

    ghost Value = { PictureModel };

    ghost view = { λ p. record { nodes = p.nodes; only = p.only_lane; columns = p.columns; placed = p.placed.items; rest = p.first_left_out } };

    ghost invariant = { λ p. p.columns ≤ 2000 };
}

impl<A: Allocator + Copy> Picture<A> {
    /// Creates the picture of these nodes at their opening.
    ///
    /// It has a lane for each node, or only for `only` if that is given. The last column is column 0, which comes
    /// before all events. Does not allocate.
    ///
    /// Formats: The command line
    pub fn new(alloc: A, nodes: Fixed, only: Option<Proc>) -> Picture<A>
        ensures { result ≡ opening_picture nodes only }
    {
        Picture {
            alloc,
            nodes,
            only_lane: only,
            columns: 0,
            placed: Vec::new(alloc),
            first_left_out: None,
            arcs: CallArcs::new(alloc),
        }
    }

    /// Begins the next column, for event `event`.
    ///
    /// A picture has at most 2,000 columns after column 0: once an event has no column, all later marks are left out.
    /// Does not allocate.
    ///
    /// Formats: The command line
    pub fn begin_column(&mut self, event: u64)
        ensures { self.new ≡ column_begun self.old event }
    {
        if self.columns < MAX_COLUMNS {
            self.columns += 1;
        } else {
            self.first_left_out = Some(self.first_left_out.unwrap_or(event));
        }
    }

    /// Adds a mark to the last column.
    ///
    /// If an earlier event has no column, nothing is added.
    ///
    /// Errors: `Memory` if an allocation fails; nothing is added.
    ///
    /// Formats: The command line
    pub fn add_mark(&mut self, mark: PictureMark) -> Result<(), Fault>
        ensures ok { OnOk result (self.new ≡ mark_added self.old mark) }
        ensures err { OnErr result (self.new ≡ self.old) }
        ensures refused { IfErr result (λ fault. fault ≡ Memory) }
    {
        if self.first_left_out.is_none() {
            let column = self.columns;
            self.placed.push(PlacedMark { column, mark })?;
        }
        Ok(())
    }

    /// Begins the arc of a call in the last column, unless an event before has no column.
    ///
    /// `what` is the text shown for the call until it ends.
    ///
    /// Errors: `Memory` if an allocation fails; no arc is begun.
    pub(crate) fn begin_arc(&mut self, call: &WaitingCall, what: &str) -> Result<(), Fault>
        ensures same { self.new ≡ self.old }
        ensures refused { IfErr result (λ fault. fault ≡ Memory) }
    {
        if self.first_left_out.is_some() {
            return Ok(());
        }
        let title = String::from_str(self.alloc, what)?;
        self.arcs.push_arc(CallArc {
            node: call.node,
            client: call.client,
            number: call.number,
            from: self.columns,
            to: None,
            end: ArcEnd::Waiting,
            title,
        })
    }

    /// Ends the arc of a call in the last column, unless an event before has no column.
    ///
    /// `title` is the text shown for the call.
    pub(crate) fn end_arc(&mut self, call: (Proc, u32, u64), end: ArcEnd, title: String<A>)
        ensures { self.new ≡ self.old }
    {
        if self.first_left_out.is_none() {
            self.arcs.end_open_arc(call, self.columns, end, title);
        }
    }

    /// Writes the picture as SVG: one element `svg`, and a line feed.
    ///
    /// If events are left out, it names the first of them and `last`, the last requested event.
    ///
    /// Errors: any error of `out`. How much has been written is then unspecified.
    ///
    /// Formats: The command line
    pub fn write<W: Write>(&self, out: &mut W, last: u64) -> io::Result<()>
        ensures { OnOk result (HasPicture self.now (W.contents out.old) (W.contents out.new)) }
    {
        let canvas = self.canvas();
        write_head(out, canvas.width(), canvas.height())?;
        self.write_bands(out, canvas)?;
        write_legend(out, canvas)?;
        if let Some(event) = self.first_left_out {
            write_rest(out, canvas, event, last)?;
        }
        write_end(out)
    }

    /// Writes the bands, one below the other.
    fn write_bands<W: Write>(&self, out: &mut W, canvas: Canvas) -> io::Result<()>
        ensures { OnOk result (IsGrown (W.contents out.old) (W.contents out.new)) }
    {
        for index in 0..canvas.bands() {
            write_band(
                out,
                canvas,
                canvas.band(index),
                &self.placed,
                self.arcs.arcs(),
            )?;
        }
        Ok(())
    }

    /// Returns the size of the picture.
    fn canvas(&self) -> Canvas
        ensures columns { result.columns ≡ self.now.columns + 1 }
        ensures bound { result.columns ≤ 2001 }
        ensures lanes { result.lanes ≡ lanes_of self.now }
    {
        let columns = self.columns.saturating_add(1);
        match self.only_lane {
            Some(only) => Canvas {
                columns,
                lanes: 1,
                first_lane_node: only.number(),
            },
            None => Canvas {
                columns,
                lanes: self.nodes.count(),
                first_lane_node: 1,
            },
        }
    }
}
