//! A gate for long-running hosts, under which nodes that have nothing to do rest.
//!
//! Rules: The book and the threads 29

ghost use Rattle.std.specs.Prelude.{◌≡◌, vec_len, IfOk, IfErr};
ghost use Rattle.ring_base.specs.declared.fault.Fault.TheVariants.{Memory};

use crate::event_count::EventCount;
use crate::gate::{Gate, GatePlace, TurnActivity};
use crate::host::HostOf;
use crate::inbox::Inbox;
use ring_base::{Fault, Proc};
use std::alloc::{Allocator, Global};
use std::sync::Wait;
use std::sync::atomic::{AtomicU64, Ordering};
use std::time::Duration;

/// A node rests once it has had more quiet tokens than this since it last had something to do.
const QUIET_TOKENS_TO_REST: u64 = 100;

/// The longest rest, in milliseconds.
const MAX_REST_MILLIS: u64 = 200;

/// The rest after a quiet turn of a node with calls that wait for an answer, in milliseconds.
const SHORT_REST_MILLIS: u64 = 1;

/// A gate under which a host that has nothing to do rests.
///
/// A ring that idles at full speed fills the book within seconds.
///
/// A node *rests* once it has had more than 100 quiet tokens since it last had something to do. It then waits after
/// each turn that isn't busy: at first for as many milliseconds as there are nodes, and for each further quiet token a
/// millisecond longer, up to 200. The ring of a node with unanswered calls lacks other nodes, which it has to find, or
/// has lost its token. Its timeouts must come soon: such a node rests for one millisecond, and not after a turn that
/// finds nothing. All rests end when a node of the host accepts a submit or is stopped, and when the host is closed.
/// The nodes then run at full speed until they have been quiet for as long again.
///
/// Timeouts count turns, and an empty turn takes less than a microsecond. A node must not give up others whose threads
/// wait for a processor, and a thread that yields waits longest on a loaded machine. So a node that finds nothing
/// doesn't yield. It *sleeps* after 50 turns in a row that find nothing, and after each further 200, until an item
/// comes: node 1 for at most 2 milliseconds, and each next node for 0.8 more. The 1,500 turns before its consensus
/// timeout pass without a sleep: a node that entered Gather then would soon give up nodes whose joins are on their way.
/// Node 1 gives up a ring that lost its token after some 160 sleeps. In Gather nodes nap as under
/// [`OpenGate`](crate::OpenGate).
///
/// Rules: The book and the threads 29
#[derive(Drop)]
pub struct PacedGate<'a, W: Wait, A: Allocator + Copy + Drop = Global> {
    rt: &'a W,
    event_count: &'a EventCount,
    inboxes: &'a Vec<Inbox<A>, A>,
    quiet_counts: Vec<QuietCount, A>,
    first_rest_millis: u64,
}

/// The quiet tokens of one node.
#[derive(Drop)]
struct QuietCount {
    /// The number of notifications when the node last had something to do.
    count: AtomicU64,
    /// The number of quiet tokens since then.
    turns: AtomicU64,
}

impl<C, B, A: Allocator + Copy + Drop> HostOf<C, B, A> {
    /// Creates a gate for this host's `run` under which nodes that have nothing to do rest.
    ///
    /// No quiet token is counted yet. The gate waits with `rt`.
    ///
    /// Errors: `Memory` if an allocation fails.
    ///
    /// Rules: The book and the threads 29
    pub fn paced_gate<'a, W: Wait>(&'a self, rt: &'a W) -> Result<PacedGate<'a, W, A>, Fault>
        ensures quiet_counts { IfOk result (λ gate. vec_len gate.quiet_counts ≡ self.now.gauge.words) }
        ensures refused { IfErr result (λ fault. fault ≡ Memory) }
    {
        let mut quiet_counts = Vec::new(self.alloc);
        let nodes = self.inboxes.len();
        for _ in 0..nodes {
            quiet_counts.push(QuietCount {
                count: AtomicU64::new(0),
                turns: AtomicU64::new(0),
            })?;
        }
        Ok(PacedGate {
            rt,
            event_count: &self.event_count,
            inboxes: &self.inboxes,
            quiet_counts,
            first_rest_millis: nodes as u64,
        })
    }
}

impl QuietCount {
    /// Counts a turn that has ended.
    ///
    /// Returns the length of the rest that is due, in milliseconds, or `None` if none is. `first` is the length of the
    /// first rest, and `count` the number of notifications.
    fn rest_after(&self, activity: TurnActivity, count: u64, first: u64) -> Option<u64> {
        if activity == TurnActivity::Busy || self.count.load(Ordering::SeqCst) != count {
            self.count.store(count, Ordering::SeqCst);
            self.turns.store(0, Ordering::SeqCst);
            return None;
        }
        if activity == TurnActivity::Quiet {
            self.turns.fetch_add(1, Ordering::SeqCst);
        }
        let turns = self.turns.load(Ordering::SeqCst);
        if turns <= QUIET_TOKENS_TO_REST {
            return None;
        }
        let more = turns.saturating_sub(QUIET_TOKENS_TO_REST + 1);
        Some(first.saturating_add(more).min(MAX_REST_MILLIS))
    }
}

impl<'a, W: Wait, A: Allocator + Copy + Drop> PacedGate<'a, W, A> {
    /// Rests for at most `millis` milliseconds. `count` is the number of notifications that was read before.
    fn rest(&self, count: u64, millis: u64) {
        self.event_count
            .wait(self.rt, count, Duration::from_millis(millis));
    }
}

impl<'a, W: Wait, A: Allocator + Copy + Drop> Gate for PacedGate<'a, W, A> {
    /// Does nothing: this gate holds a thread up only between its turns.
    fn at(&self, _node: Proc, _place: GatePlace) {}

    /// Counts the turn, and waits if the node has to rest, sleep or nap by the rules of [`PacedGate`].
    ///
    /// For a processor that the host doesn't have it returns at once.
    ///
    /// Rules: The book and the threads 29
    fn after_turn(&self, node: Proc, activity: TurnActivity) {
        let at = node.number() as usize - 1;
        let (Some(quiet), Some(inbox)) = (self.quiet_counts.get(at), self.inboxes.get(at)) else {
            return;
        };
        // Read before the wait, so that a submit in between ends the wait at once.
        let count = self.event_count.count();
        let is_empty = activity == TurnActivity::Nothing;
        let has_calls = inbox.has_waiting_calls();
        match quiet.rest_after(activity, count, self.first_rest_millis) {
            Some(millis) if !has_calls => self.rest(count, millis),
            Some(_) if !is_empty => self.rest(count, SHORT_REST_MILLIS),
            _ if is_empty => inbox.wait_paced(self.rt, node),
            _ => {}
        }
    }

    fn has_own_waits(&self) -> bool {
        true
    }
}
