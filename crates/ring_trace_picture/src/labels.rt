//! Rows of labels that don't cover one another.
//!
//! Formats: The command line

/// Two rows of labels, one above the other.
///
/// Labels are placed from left to right.
#[derive(Clone, Copy)]
pub(crate) struct LabelRows {
    /// The right edge of the last label in the lower row.
    lower: u64,
    /// The right edge of the last label in the upper row.
    upper: u64,
}

/// A row for a label.
#[derive(Clone, Copy, PartialEq, Eq)]
pub(crate) enum LabelRow {
    Lower,
    Upper,
}

impl LabelRows {
    /// Returns two rows without labels.
    pub fn new() -> LabelRows {
        LabelRows { lower: 0, upper: 0 }
    }

    /// Places a label with the left edge `x` and this width, and returns its row: the lower one if there is room,
    /// otherwise the upper one.
    ///
    /// There is room in a row if its last label ends at `x` or before, so labels must be placed from left to right.
    /// Returns `None` and places nothing if neither row has room.
    pub fn place_label(&mut self, x: u64, width: u64) -> Option<LabelRow> {
        let end = x.saturating_add(width);
        if self.lower <= x {
            self.lower = end;
            return Some(LabelRow::Lower);
        }
        if self.upper <= x {
            self.upper = end;
            return Some(LabelRow::Upper);
        }
        None
    }

    /// Places a label as `place_label` does, but only in the lower row.
    ///
    /// Returns whether it was placed. If it wasn't, nothing changes.
    pub fn place_below(&mut self, x: u64, width: u64) -> bool {
        let is_free = self.lower <= x;
        if is_free {
            self.lower = x.saturating_add(width);
        }
        is_free
    }
}
