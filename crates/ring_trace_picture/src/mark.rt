//! The marks of a picture.
//!
//! Formats: The command line

use ring_base::{Proc, ProcSet, RingId, State};

/// The colour of a node's lane, from a column on.
///
/// Formats: The command line
#[derive(Clone, Copy, Debug, PartialEq, Eq)]
pub enum LaneColour {
    /// The colour for this state of the node.
    ///
    /// For operational it is that of a primary ring.
    State(State),
    /// The hatching for an operational node whose ring isn't primary.
    Minority,
}

/// A mark in a column of a picture.
///
/// Formats: The command line
#[derive(Clone, Copy)]
pub enum PictureMark {
    /// From this column on, the node's lane has this colour.
    LaneColour {
        node: Proc,
        colour: LaneColour,
    },
    /// The node installed this ring, with these members.
    Ring {
        node: Proc,
        ring: RingId,
        members: ProcSet,
    },
    /// The node's committed length is this from this column on, dropped places included.
    Committed {
        node: Proc,
        length: u64,
    },
    /// From this column on, a snapshot replaces the first places of the node's log, or more of them than before.
    Trimmed(Proc),
    /// This call of a client was submitted at the node, or waits there at the beginning of the picture.
    Submit {
        node: Proc,
        client: u32,
        number: u64,
    },
    /// The node answered or refused this call of a client, so the call no longer waits.
    Answer {
        node: Proc,
        client: u32,
        number: u64,
    },
    /// A cut of the nodes begins.
    Cut,
    /// A side of a cut: its members, and the number of letters before it in the row of sides.
    Side {
        members: ProcSet,
        before: u64,
    },
    /// The cut has healed.
    Heal,
    /// The number of rounds in which nothing changed.
    Rounds(u64),
    /// The number of copies that were lost to the cut.
    Lost(u64),
    /// The number of an event, counted from 1.
    Event(u64),
}

/// A mark and its column.
#[derive(Clone, Copy)]
pub(crate) struct PlacedMark {
    /// The index of the column.
    ///
    /// Column 0 is before the first event.
    pub column: u64,
    /// The mark.
    pub mark: PictureMark,
}
