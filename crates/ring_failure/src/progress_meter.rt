//! The progress of long work, shown on a terminal.
//!
//! Formats: The command line

ghost use Rattle.std.specs.Prelude.{◌≡◌, true, false};
ghost use Rattle.ring_failure.specs.Progress.{round_size, IsSizeAfter, HasEndedRound};

use std::io::Write;
use std::time::{Clock, Instant};

/// A round that takes less than this, in milliseconds, is followed by one twice as large.
const SHORT_ROUND_MILLIS: u128 = 200;

/// A round that takes more than this, in milliseconds, is followed by one half as large.
const LONG_ROUND_MILLIS: u128 = 800;

/// The approximate maximum number of rounds: each has at least the work divided by this.
///
/// A round recurses into the next, so this bounds the stack's depth too.
const MAX_ROUNDS: u64 = 500;

/// Nothing is shown of work that takes less than this, in milliseconds.
const SILENT_WORK_MILLIS: u128 = 1_000;

/// The progress of long-running work that is done in rounds.
///
/// It sizes the rounds so that the terminal is updated a few times a second.
///
/// Formats: The command line
#[derive(Clone, Copy)]
pub struct ProgressMeter {
    /// The number of items to do.
    item_count: u64,
    /// When the work began, if the clock could be read.
    started: Option<Instant>,
    /// The milliseconds from the start to the end of the last round.
    elapsed_millis: u128,
    /// The number of items of the next round, before the bound by `MAX_ROUNDS`.
    round_items: u64,
    is_shown: bool,
}

impl ProgressMeter {
    /// Creates a meter for work of `many` items, none of which is done yet, and starts its time.
    ///
    /// `size` is the wanted number of items of the first round. If `clock` can't be read, no progress is ever shown.
    ///
    /// Formats: The command line
    pub fn new<C: Clock>(clock: &C, many: u64, size: u64) -> ProgressMeter
        ensures work { (result.item_count ≡ many) × (result.round_items ≡ size) }
        ensures hidden { result.is_shown ≡ false }
    {
        ProgressMeter {
            item_count: many,
            started: Instant::now(clock).ok(),
            elapsed_millis: 0,
            round_items: size,
            is_shown: false,
        }
    }

    /// Returns the number of items that the next round should have.
    ///
    /// It is at least the work divided by 500, rounded down, may be 0, and may exceed the number of items left.
    ///
    /// Formats: The command line
    pub fn next_round_items(&self) -> u64
        ensures { result ≡ round_size self.now }
    {
        self.round_items.max(self.item_count / MAX_ROUNDS)
    }

    /// Ends a round, after which `done` items are finished in all.
    ///
    /// Adapts the size of the next round to the time that this one took. From the first second on it shows the share
    /// done and the estimated seconds left, over the line shown before; until then `out` is unchanged. Errors of
    /// `clock` and of `out` are ignored.
    ///
    /// Formats: The command line
    pub fn end_round<C: Clock, W: Write>(&mut self, clock: &C, out: &mut W, done: u64)
        ensures round { HasEndedRound self.old self.new }
        ensures quiet { self.new.is_shown ≡ false → out.new ≡ out.old }
    {
        let Some(started) = self.started else {
            return;
        };
        let Ok(elapsed) = started.elapsed(clock) else {
            return;
        };
        let millis = elapsed.as_millis();
        self.round_items = size_after(self.round_items, millis.saturating_sub(self.elapsed_millis));
        self.elapsed_millis = millis;
        if millis >= SILENT_WORK_MILLIS {
            self.is_shown = true;
            write_progress(out, done, self.item_count, millis);
        }
    }

    /// Clears the line of progress from the terminal, if one was shown.
    ///
    /// Errors of `out` are ignored.
    ///
    /// Formats: The command line
    pub fn clear<W: Write>(&self, out: &mut W)
        ensures { self.now.is_shown ≡ false → out.new ≡ out.old }
    {
        if self.is_shown {
            let _ = write!(out, "\r\x1b[K");
            let _ = out.flush();
        }
    }
}

/// Returns the size of the next round after one of `size` items that took `millis` milliseconds.
fn size_after(size: u64, millis: u128) -> u64
    ensures { IsSizeAfter size result }
{
    if millis < SHORT_ROUND_MILLIS {
        size.saturating_mul(2)
    } else if millis > LONG_ROUND_MILLIS {
        size / 2
    } else {
        size
    }
}

/// Shows the share of `many` items that is done, and the estimated seconds left, after `millis` milliseconds.
fn write_progress<W: Write>(out: &mut W, done: u64, many: u64, millis: u128) {
    let share = u128::from(done).saturating_mul(100) / u128::from(many.max(1));
    let left = millis.saturating_mul(u128::from(many.saturating_sub(done)))
        / u128::from(done.max(1))
        / 1_000;
    let _ = write!(out, "\r{share} % of {many}, {left} s left\x1b[K");
    let _ = out.flush();
}
