//! Iteration over the members of a set.
//!
//! Rules: Processors and sets 3

ghost use Rattle.std.specs.Prelude.{◌≡◌, ℕ};
ghost use Rattle.std.specs.Iterator.{YieldsFirst, item_count};
ghost use Rattle.ring_base.specs.Processors.{elements};

use crate::proc_set::ProcSet;
use crate::processor::Proc;
use std::marker::Model;

/// An iterator over the members of a set, in ascending order.
///
/// [`ProcSet::iter`] makes it. Contracts see the set of the members that are not yet visited.
///
/// Rules: Processors and sets 3
#[derive(Clone, Copy, Debug)]
pub struct Members {
    unvisited: ProcSet,
}

impl Model for Members {
    ghost use Rattle.std.specs.Prelude.{ℕ};

    ghost Value = { ℕ };

    ghost view = { λ members. members.unvisited };

    ghost inverse = { λ word. record { unvisited = word } };
}

impl Iterator for Members {
    type Item = Proc;

    ghost next_gives = { YieldsFirst elements };

    ghost remaining = { item_count elements };

    fn next(&mut self) -> Option<Proc> {
        let first = self.unvisited.smallest()?;
        self.unvisited = self.unvisited.without_members(ProcSet::singleton(first));
        Some(first)
    }
}

impl ProcSet {
    /// Returns an iterator over the members of the set, in ascending order, each once.
    ///
    /// It yields nothing for the empty set.
    ///
    /// Rules: Processors and sets 3
    pub fn iter(self) -> Members
        ensures { result ≡ self }
    {
        Members { unvisited: self }
    }
}
