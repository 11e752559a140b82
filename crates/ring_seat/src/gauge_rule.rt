//! The invariant of the gauge's words, and the atomic steps that preserve it.
//!
//! Rules: The book and the threads 33 and 34

use atomic_table::{Play, Split, TableRule};
use std::collections::LinkedList;

/// What a seat knows of the gauge.
///
/// Only contracts use it; no value of this type exists at run time.
///
/// Rules: The book and the threads 34
pub struct GaugeView {
    /// Whether the seat makes the other seats.
    ///
    /// The gauge has one such seat, the maker.
    pub is_maker: bool,
    /// For the maker: the number of nodes.
    pub count: u64,
    /// For the maker: the number of nodes that already have a seat.
    pub seated_nodes: u64,
    /// Whether the seat is a node's own seat.
    pub is_own_seat: bool,
    /// The index of the node's word, counted from 0, which is the node's number minus 1.
    pub word: u64,
    /// The lengths published on the seat, oldest first.
    pub published: LinkedList<u64>,
    /// The words that the seat loaded: index, counted from 0, and value, newest first.
    pub loaded_words: LinkedList<(u64, u64)>,
}

/// The invariant of the gauge: each word is the greatest length published for its node, or 0, and what seats know is
/// true.
///
/// Rules: The book and the threads 34
pub struct GaugeRule;

impl TableRule<u8, GaugeView, u64> for GaugeRule {
    ghost use Rattle.ring_seat.specs.Gauges.{IsGaugeState, first_view};

    ghost holds = { λ n s. IsGaugeState s };

    ghost first = { λ n. first_view n };
}

/// The atomic step that publishes a length: a `fetch_max` of the node's word.
///
/// Rules: The book and the threads 33
pub struct Publish;

impl Play<u8, GaugeView> for Publish {
    ghost use Rattle.ring_seat.specs.Gauges.{HasPublished};

    ghost then = { HasPublished };
}

/// The atomic step that loads any node's word.
///
/// Rules: The book and the threads 33
pub struct Look;

impl Play<u8, GaugeView> for Look {
    ghost use Rattle.ring_seat.specs.Gauges.{HasLooked};

    ghost then = { HasLooked };
}

/// The step that makes the own seat of the next node.
///
/// Only the maker performs it.
///
/// Rules: The book and the threads 19
pub struct OwnSeat;

impl Split<GaugeView> for OwnSeat {
    ghost use Rattle.ring_seat.specs.Gauges.{maker_after_seat, own_seat};

    ghost left = { maker_after_seat };

    ghost right = { own_seat };
}

/// The step that makes a seat of no node.
///
/// Only the maker performs it.
///
/// Rules: The book and the threads 19
pub struct ForeignSeat;

impl Split<GaugeView> for ForeignSeat {
    ghost use Rattle.ring_seat.specs.Gauges.{foreign_seat};

    ghost left = { λ v. v };

    ghost right = { foreign_seat };
}
