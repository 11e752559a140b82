//! The sides of a cut.

use crate::draws::RandomDraws;
use ring_base::{MAX_PROCESSORS, Proc, ProcSet};
use std::fmt;

/// The sides that a cut splits the nodes into: each node is on one of three sides, some of which may be empty.
///
/// Without a cut all are on the first. It is displayed as the groups of a line `cut`, each with a space before it.
#[derive(Clone, Copy)]
pub(crate) struct CutSides {
    first: ProcSet,
    second: ProcSet,
    third: ProcSet,
}

/// The percentage of cuts with at most two sides.
const TWO_SIDES: u32 = 75;

impl CutSides {
    /// Returns the sides without a cut: all of `nodes` on the first side, the others empty.
    pub fn joined(nodes: ProcSet) -> CutSides {
        CutSides {
            first: nodes,
            second: ProcSet::new(),
            third: ProcSet::new(),
        }
    }

    /// Returns the sides with only `node` on the first, and all other nodes of `nodes` on the second.
    ///
    /// The third side is empty. Whether `nodes` has `node` isn't checked.
    pub fn isolation(nodes: ProcSet, node: Proc) -> CutSides {
        let own = ProcSet::singleton(node);
        CutSides {
            first: own,
            second: nodes.without_members(own),
            third: ProcSet::new(),
        }
    }

    /// Draws the number of sides, two in 75 of 100 cases and otherwise three, and then a side for each of these nodes.
    ///
    /// All nodes may get the same side, so the result may not be a cut. A side is drawn for each of the 16 possible
    /// processors, so the number of draws doesn't depend on `nodes`.
    pub fn draw(draws: &mut RandomDraws, nodes: ProcSet) -> CutSides {
        let many = if draws.draw_bool(TWO_SIDES) { 2 } else { 3 };
        let mut drawn = CutSides::joined(ProcSet::new());
        for before in 0..MAX_PROCESSORS {
            let node = Proc::new(before + 1);
            let side = draws.draw_below(many);
            if nodes.contains(node) {
                drawn.put_on_side(side, node);
            }
        }
        drawn
    }

    /// Puts the node on side `side`, counted from 0.
    fn put_on_side(&mut self, side: u32, node: Proc) {
        let own = ProcSet::singleton(node);
        match side {
            0 => self.first = self.first.union(own),
            1 => self.second = self.second.union(own),
            _ => self.third = self.third.union(own),
        }
    }

    /// Returns the three sides, empty ones included.
    pub fn all(&self) -> [ProcSet; 3] {
        [self.first, self.second, self.third]
    }

    /// Returns a copy of these sides.
    pub fn copied(&self) -> CutSides {
        CutSides {
            first: self.first,
            second: self.second,
            third: self.third,
        }
    }

    /// Returns whether this is a cut: at least two sides have nodes.
    pub fn is_cut(&self) -> bool {
        let mut many = 0u8;
        for side in self.all() {
            if !side.is_empty() {
                many = many.saturating_add(1);
            }
        }
        many > 1
    }
}

/// Displays the sides as a line `cut` names them.
impl fmt::Display for CutSides {
    fn fmt<W: fmt::Write>(&self, f: &mut fmt::Formatter<W>) -> fmt::Result {
        for side in self.all() {
            if !side.is_empty() {
                write!(f, " {side}")?;
            }
        }
        Ok(())
    }
}
