//! Counts of frames by kind.
//!
//! Formats: Records

ghost use Rattle.std.specs.Prelude.{◌≡◌};
ghost use Rattle.ring_counts.specs.Counts.{no_frames, with_frame};

use crate::counted::CountedFrame;

/// The number of frames of each kind.
///
/// A number that has reached 2^64 - 1 stays there.
///
/// Formats: Records
#[derive(Clone, Copy, Debug, PartialEq, Eq)]
pub struct FrameCounts {
    /// The number of messages.
    pub messages: u64,
    /// The number of tokens.
    pub tokens: u64,
    /// The number of joins.
    pub joins: u64,
    /// The number of commit tokens.
    pub commits: u64,
}

impl FrameCounts {
    /// Returns the counts before any frame: all are 0.
    pub fn new() -> FrameCounts
        ensures { result ≡ no_frames }
    {
        FrameCounts {
            messages: 0,
            tokens: 0,
            joins: 0,
            commits: 0,
        }
    }

    /// Counts a frame.
    pub(crate) fn note(&mut self, frame: CountedFrame)
        ensures { self.new ≡ with_frame frame self.old }
    {
        match frame {
            CountedFrame::Message(_) => self.messages = self.messages.saturating_add(1),
            CountedFrame::Token(_) => self.tokens = self.tokens.saturating_add(1),
            CountedFrame::Join => self.joins = self.joins.saturating_add(1),
            CountedFrame::Commit => self.commits = self.commits.saturating_add(1),
        }
    }
}
