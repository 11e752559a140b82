//! Folds of events in which frames are delivered and nothing else changes.
//!
//! Formats: The command line

ghost use Rattle.std.specs.Prelude.{◌≡◌, ◌↔◌, IsTrue};
ghost use Rattle.ring_base.specs.Numbers.{saturating_successor};
ghost use Rattle.ring_trace_words.specs.Folds.{IsEmpty, HasFrame};

use ring_base::Proc;
use std::fmt;

/// Consecutive events that deliver frames and change nothing that a trace shows, with the copies lost between them.
///
/// It is displayed as its line in a trace, without the line feed.
///
/// Formats: The command line
#[derive(Clone, Copy)]
pub struct Fold {
    /// The number of the first event, counted from 1.
    ///
    /// It has no meaning if no frame was delivered.
    pub first: u64,
    /// The number of the last event, counted from 1.
    ///
    /// It has no meaning if no frame was delivered.
    pub last: u64,
    /// The number of delivered frames.
    pub frames: u64,
    /// The receiver of the first frame.
    node: Proc,
    /// The number of frames delivered to the receiver of the first frame.
    pub rounds: u64,
    /// The number of copies that a cut lost.
    pub lost: u64,
}

impl Fold {
    /// Returns the empty fold, with no event and no lost copy.
    pub fn new() -> Fold
        ensures empty { IsEmpty result }
        ensures rounds { result.rounds ≡ 0 }
    {
        Fold {
            first: 0,
            last: 0,
            frames: 0,
            node: Proc::new(1),
            rounds: 0,
            lost: 0,
        }
    }

    /// Returns whether the fold has no frame and no lost copy.
    ///
    /// A trace has no line for such a fold.
    ///
    /// Formats: The command line
    pub fn is_empty(&self) -> bool
        ensures { IsTrue result ↔ IsEmpty self.now }
    {
        self.frames == 0 && self.lost == 0
    }

    /// Adds the frame that event `event` delivers to `node`.
    ///
    /// The event becomes the last one, and the first if the fold had no frame. `frames` grows by 1, and `rounds` too if
    /// `node` is the receiver of the first frame; both saturate at 2^64 - 1. Events must be added in the order of their
    /// numbers; this isn't checked.
    ///
    /// Formats: The command line
    pub fn add_frame(&mut self, event: u64, node: Proc)
        ensures { HasFrame event node self.old self.new }
    {
        if self.frames == 0 {
            self.first = event;
            self.node = node;
        }
        if self.node == node {
            self.rounds = self.rounds.saturating_add(1);
        }
        self.last = event;
        self.frames = self.frames.saturating_add(1);
    }

    /// Counts one more copy that was lost to a cut.
    ///
    /// The count saturates at 2^64 - 1. Everything else is unchanged.
    ///
    /// Formats: The command line
    pub fn count_lost_copy(&mut self)
        ensures { self.new ≡ record self.old { lost = saturating_successor self.old.lost } }
    {
        self.lost = self.lost.saturating_add(1);
    }
}

/// A number, displayed with the name of what is counted.
#[derive(Clone, Copy)]
struct CountWithName {
    number: u64,
    /// The name in the singular.
    singular: &'static str,
    /// The name in the plural.
    plural: &'static str,
}

impl fmt::Display for CountWithName {
    fn fmt<W: fmt::Write>(&self, f: &mut fmt::Formatter<W>) -> fmt::Result {
        let name = if self.number == 1 {
            self.singular
        } else {
            self.plural
        };
        write!(f, "{} {name}", self.number)
    }
}

/// Displays the line, without its line feed.
impl fmt::Display for Fold {
    fn fmt<W: fmt::Write>(&self, f: &mut fmt::Formatter<W>) -> fmt::Result {
        let lost = CountWithName {
            number: self.lost,
            singular: "copy lost",
            plural: "copies lost",
        };
        if self.frames == 0 {
            return write!(f, "{lost}");
        }
        self.write_events(f)?;
        if self.lost > 0 {
            write!(f, ", {lost}")?;
        }
        Ok(())
    }
}

impl Fold {
    /// Writes the events, the rounds and the frames.
    fn write_events<W: fmt::Write>(&self, f: &mut fmt::Formatter<W>) -> fmt::Result {
        write!(f, "{}", self.first)?;
        if self.first < self.last {
            write!(f, "-{}", self.last)?;
        }
        let rounds = CountWithName {
            number: self.rounds,
            singular: "round",
            plural: "rounds",
        };
        let frames = CountWithName {
            number: self.frames,
            singular: "frame",
            plural: "frames",
        };
        write!(f, ": {rounds}, {frames}")
    }
}
