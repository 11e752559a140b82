//! The layout of a picture.
//!
//! A run is one long strip of columns, which is divided into bands of equal width, one below the other.
//!
//! Formats: The command line

ghost use Rattle.std.specs.Prelude.{◌≡◌, ◌≤◌, ◌+◌, ◌-◌, ◌*◌, ◌/◌};
ghost use Rattle.ring_trace_picture.specs.PictureTexts.{picture_width, picture_height};

use ring_base::{MAX_PROCESSORS, Proc};

/// The width of a column.
///
/// All lengths of a picture are in points.
const COLUMN: u64 = 16;

/// The height of the space above all lanes, for the sides of cuts.
const SPACE_ABOVE_LANES: u64 = 24;

/// The height of a lane: calls, a bar, and the committed length.
const LANE: u64 = 56;

/// The part of a lane above its bar.
const SPACE_ABOVE_BAR: u64 = 26;

/// The height of the space below all lanes: rounds, lost copies, and the events' numbers.
const SPACE_BELOW_LANES: u64 = 50;

/// The width of the space left of a band.
const MARGIN: u64 = 64;

/// The width of the space right of a band's columns, for texts that begin in its last columns.
const SPACE_RIGHT_OF_COLUMNS: u64 = 80;

/// The width of a picture.
const WIDTH: u64 = 1_200;

/// The maximum number of columns of a band.
const MAX_BAND_COLUMNS: u64 = 66;

/// The height of the legend.
const LEGEND: u64 = 92;

/// The size of a picture.
///
/// A strip shows the whole run in one row, and each band of the picture shows some columns of the strip. All lengths
/// and positions are in points, from the left and from the top.
///
/// Formats: The command line
#[derive(Clone, Copy)]
pub(crate) struct Canvas {
    /// The number of columns, one of them for the opening.
    pub columns: u64,
    /// The number of lanes, one for each node shown.
    pub lanes: u8,
    /// The number of the node with the first lane.
    pub first_lane_node: u8,
}

/// A band of a picture: the columns from `begin` to below `end`, counted from 0.
///
/// Formats: The command line
#[derive(Clone, Copy)]
pub(crate) struct Band {
    /// The index of the band, counted from 0.
    pub index: u64,
    /// The first column.
    pub begin: u64,
    /// The first column after it.
    pub end: u64,
}

impl Band {
    /// Returns whether the band has this column.
    pub fn has_column(self, column: u64) -> bool {
        self.begin <= column && column < self.end
    }
}

impl Canvas {
    /// Returns the node whose lane has the index `before`, counted from 0.
    ///
    /// There must be such a lane; otherwise the result is any node.
    pub fn node(self, before: u8) -> Proc {
        let number = self.first_lane_node.saturating_add(before);
        if 1 <= number && number <= MAX_PROCESSORS {
            Proc::new(number)
        } else {
            Proc::new(1)
        }
    }

    /// Returns the left edge of column `column`, counted from 0, in the strip, in points.
    pub fn x(self, column: u64) -> u64 {
        column.saturating_mul(COLUMN)
    }

    /// Returns the upper edge of a node's bar, in the strip and in a band, in points.
    ///
    /// The node must have a lane; this isn't checked.
    pub fn y(self, node: Proc) -> u64 {
        let before = node.number().saturating_sub(self.first_lane_node);
        u64::from(before)
            .saturating_mul(LANE)
            .saturating_add(SPACE_ABOVE_LANES + SPACE_ABOVE_BAR)
    }

    /// Returns the lower edge of the last lane, in the strip and in a band, in points.
    pub fn lanes_bottom(self) -> u64
        ensures { result ≡ 56 * self.lanes + 24 }
    {
        u64::from(self.lanes)
            .saturating_mul(LANE)
            .saturating_add(SPACE_ABOVE_LANES)
    }

    /// Returns the height of the strip, which is also that of a band, in points.
    pub fn bottom(self) -> u64
        ensures { result ≡ 56 * self.lanes + 74 }
    {
        self.lanes_bottom().saturating_add(SPACE_BELOW_LANES)
    }

    /// Returns the number of bands, at least 1.
    pub fn bands(self) -> u64
        ensures { result ≡ (self.columns - 1) / 66 + 1 }
    {
        (self.columns.saturating_sub(1) / MAX_BAND_COLUMNS).saturating_add(1)
    }

    /// Returns the number of columns of a band, at most 66.
    ///
    /// The last band may have fewer.
    fn columns_of_band(self) -> u64 {
        let bands = self.bands();
        let rounded = self.columns.saturating_add(bands).saturating_sub(1);
        if bands == 0 {
            MAX_BAND_COLUMNS
        } else {
            rounded / bands
        }
    }

    /// Returns band `index`, counted from 0.
    ///
    /// There must be such a band: `index` must be below [`bands`](Canvas::bands). This isn't checked.
    pub fn band(self, index: u64) -> Band {
        let columns = self.columns_of_band();
        let begin = index.saturating_mul(columns);
        Band {
            index,
            begin,
            end: begin.saturating_add(columns).min(self.columns),
        }
    }

    /// Returns the upper edge of a band in the picture, in points.
    pub fn band_top(self, band: Band) -> u64 {
        self.bottom().saturating_mul(band.index)
    }

    /// Returns the left edge of the bands in the picture, in points.
    pub fn bands_left_edge(self) -> u64 {
        MARGIN
    }

    /// Returns the width, in points, of the part of the strip that a band shows: its columns, and the space to their
    /// right.
    pub fn band_view_width(self) -> u64 {
        self.x(self.columns_of_band())
            .saturating_add(SPACE_RIGHT_OF_COLUMNS)
    }

    /// Returns the left edge in the strip, in points, for a text of this width at `x` in a band.
    ///
    /// It is further left than `x` if the text would reach beyond the band, but not left of the band.
    pub fn fitted_text_x(self, band: Band, x: u64, width: u64) -> u64 {
        let end = self.x(band.begin).saturating_add(self.band_view_width());
        x.min(end.saturating_sub(width)).max(self.x(band.begin))
    }

    /// Returns the upper edge of the legend, which is below all bands, in points.
    pub fn legend(self) -> u64
        ensures { self.columns ≤ 2001 → result ≡ (56 * self.lanes + 74) * ((self.columns - 1) / 66 + 1) }
    {
        self.bottom().saturating_mul(self.bands())
    }

    /// Returns the width of the picture, 1,200 points.
    pub fn width(self) -> u64
        ensures { result ≡ picture_width }
    {
        WIDTH
    }

    /// Returns the height of the picture, in points.
    pub fn height(self) -> u64
        ensures { self.columns ≤ 2001 → result ≡ picture_height self.lanes (self.columns - 1) }
    {
        self.legend().saturating_add(LEGEND)
    }
}
