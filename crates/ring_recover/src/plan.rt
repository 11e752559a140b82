//! A node's plan in Recovery: what the transitional members reported of their old ring, and which of its messages the
//! node has seen wrapped.
//!
//! Rules: Recovery 1, 2, 4, 5, 8, 9 and 11

ghost use Rattle.std.specs.Prelude.{◌≡◌, ℕ, ◌+◌, ◌≤◌, ◌<◌, true, ◌&&◌, ◌||◌, ◌==◌, nat_lt};
ghost use Rattle.std.specs.List.{list_all};
ghost use Rattle.std.specs.Option.{option_map};
ghost use Rattle.ring_window.specs.Bits.{is_set};
ghost use Rattle.ring_window.specs.Held.{holds, highest};
ghost use Rattle.ring_window.specs.Windows.{message_above_mark};
ghost use Rattle.ring_recover.specs.Chosen.{numbers_of_bits};
ghost use Rattle.ring_recover.specs.Plans.{plan_from, safe, low};
ghost use Rattle.ring_recover.specs.Wrapping.{is_wrap_of, is_wrapped, has_own_end};
ghost use Rattle.ring_recover.specs.Deliveries.{is_complete, regular_part, transitional_part, past_gap_part, finish};
ghost use Rattle.ring_recover.specs.RecoveryState.{recovery_opening, with_seen, next_to_wrap, old_ring_of, is_user_message, is_sent_by_any};
ghost use Rattle.ring_base.specs.Numbers.{window_size};

use crate::delivery::Delivery;
use crate::history::{nothing_seen, with_message_first};
use crate::numbers::NumberSet;
use crate::offsets::{COUNT, Offsets};
use crate::payload_kinds::{is_end, is_user_payload};
use crate::reports::{
    all_fronts_reach, greatest_mark, least_front, least_mark, reported_offsets_after, reports_of,
    transitional_members_among,
};
use ring_base::{Ghost, Proc, ProcSet, RingId, WINDOW_SIZE, ghost_of};
use ring_commit::CommitToken;
use ring_window::{Message, Payload, Window};
use std::alloc::{AllocError, Allocator, Global};
use std::marker::Model;

/// A plan as contracts see it: the old ring, its transitional members, and their reports.
///
/// Code never creates a value of this type.
///
/// Rules: Recovery 1
pub struct PlanHistory {}

impl Model for PlanHistory {
    ghost use Rattle.std.specs.Prelude.{[]};
    ghost use Rattle.ring_recover.specs.Plans.{Plan as OnePlan};

    ghost Value = { OnePlan };

    ghost view = { λ _. record { old = record { seq = 0; rep = 0 }; transitional_members = 0; reports = [] } };
}

/// A node's plan in Recovery: the transitional members' reports, and what the node has seen of the new ring since.
///
/// The reports come from a commit token with an entry of each member. Contracts see a `RecoveryState`: the plan, and
/// each message of the new ring that the node held.
///
/// Rules: Recovery 1, 4, 5 and 11
#[derive(Drop)]
pub struct Plan<A: Allocator + Copy = Global> {
    me: Proc,
    old_ring: RingId,
    transitional_members: ProcSet,
    /// The least safe mark that a transitional member reported (`least_safe_mark`), the greatest one (`safe`), and the
    /// least reported front (`low`).
    least_safe_mark: u64,
    safe: u64,
    low: u64,
    /// Of the 256 numbers after `safe`: those that a transitional member reported as held, and those seen wrapped.
    known: Offsets,
    wrapped: Offsets,
    /// Whether an End of this node has been seen.
    ended: bool,
    plan: Ghost<PlanHistory>,
    seen: Ghost<[Message<A>; 0]>,
}

impl<A: Allocator + Copy> Model for Plan<A> {
    ghost use Rattle.ring_recover.specs.RecoveryState.{RecoveryState as OneRecovering, IsPlanKept};

    ghost Value = { OneRecovering A };

    ghost view = { λ p. record { me = p.me; plan = p.plan.value; seen = p.seen.value } };

    ghost invariant = { λ p. IsPlanKept (record { me = p.me; plan = p.plan.value; seen = p.seen.value }) p.old_ring p.transitional_members
        p.least_safe_mark p.safe p.low p.known.words p.wrapped.words p.ended };
}

impl<A: Allocator + Copy> Plan<A> {
    /// Returns the plan that processor `me` makes from a commit token, before it sees anything of the new ring.
    ///
    /// The old ring is the one that the entry of `me` names. Returns `None` if `me` isn't a member of the token's ring,
    /// or if a member has no entry yet. Also returns `None` if a transitional member reports a front below the greatest
    /// safe mark that one of them reports.
    ///
    /// Rules: Recovery 1 and 2
    pub fn from_commit(me: Proc, token: &CommitToken) -> Option<Plan<A>>
        ensures { result ≡ option_map (recovery_opening me) (plan_from me token.now) }
    {
        let old = old_ring_of(me, token)?;
        let entries = token.entries.as_slice();
        let reports = reports_of(&old, entries);
        let reports = reports.as_slice();
        let safe = greatest_mark(reports);
        if !all_fronts_reach(safe, reports) {
            return None;
        }
        let plan = ghost_of(&(&old, token));
        Some(Plan {
            me,
            old_ring: old,
            transitional_members: transitional_members_among(&old, token.members, entries),
            least_safe_mark: least_mark(reports),
            safe,
            low: least_front(reports),
            known: reported_offsets_after(safe, reports),
            wrapped: Offsets::new(),
            ended: false,
            plan,
            seen: nothing_seen(),
        })
    }

    /// Returns the old ring: the one that this node's own entry names as its last installed ring.
    ///
    /// Rules: Recovery 1
    pub fn old_ring(&self) -> RingId
        ensures { result ≡ self.now.plan.old }
    {
        self.old_ring
    }

    /// Returns the transitional members, T of the rules: the members whose entries name the same old ring as this
    /// node's.
    ///
    /// The node itself is one of them.
    ///
    /// Rules: Recovery 1
    pub fn transitional_members(&self) -> ProcSet
        ensures { result ≡ self.now.plan.transitional_members }
    {
        self.transitional_members
    }

    /// Returns the greatest safe mark that a transitional member reported, S of the rules.
    ///
    /// Each transitional member holds every number of the old ring up to it. It is at most
    /// [`least_reported_front`](Plan::least_reported_front).
    ///
    /// Rules: Recovery 1
    pub fn greatest_reported_safe_mark(&self) -> u64
        ensures value { result ≡ safe self.now.plan }
        ensures sound { safe self.now.plan ≤ low self.now.plan }
    {
        self.safe
    }

    /// Returns the least front that a transitional member reported, `low` of the rules.
    ///
    /// Each transitional member holds every number of the old ring up to it, so none of these is wrapped.
    ///
    /// Rules: Recovery 1 and 4
    pub fn least_reported_front(&self) -> u64
        ensures { result ≡ low self.now.plan }
    {
        self.low
    }

    /// Records a message of the new ring. Call it as soon as the node holds the message.
    ///
    /// A number that the message wraps is then treated as wrapped. An End of this node is recorded too.
    ///
    /// Rules: Recovery 4, 5 and 11
    pub fn observe_message(&mut self, message: &Message<A>)
        ensures { self.new ≡ with_seen self.old message.now }
    {
        mark_wrapped(
            &mut self.wrapped,
            &self.old_ring,
            self.safe,
            &message.payload,
        );
        if is_end(&message.payload) && message.sender == self.me {
            self.ended = true;
        }
        self.seen = with_message_first(&self.seen, message);
    }

    /// Returns whether an End of this node was recorded. If so, it must not send another.
    ///
    /// Rules: Recovery 4 and 11
    pub fn has_ended(&self) -> bool
        ensures { result ≡ has_own_end self.now.me self.now.seen }
    {
        self.ended
    }

    /// Returns whether a recorded message wraps `number` of the old ring. If so, it must not be wrapped again.
    ///
    /// `number` must be one of the 256 after the greatest reported safe mark.
    ///
    /// Rules: Recovery 5 and 11
    pub fn has_wrapped(&self, number: u64) -> bool
        requires low { safe self.now.plan < number }
        requires high { number ≤ safe self.now.plan + window_size }
        ensures { result ≡ is_wrapped self.now.seen self.now.plan.old number }
    {
        self.wrapped
            .contains_offset((number - self.safe - 1) as usize)
    }

    /// Returns the number of the message to wrap next, or `None` if nothing is left to wrap.
    ///
    /// It is the least number above the least reported front that hasn't been seen wrapped and whose message is a user
    /// message that the old ring's window holds.
    ///
    /// `window` must be the window of the old ring. Its safe mark must be at most the greatest reported one, and it
    /// must hold no number more than 256 above that. The ring core wraps as many messages at once as a visit may send:
    /// `first_recovery_messages` of `ring_srp_state`.
    ///
    /// Rules: Recovery 4 and 11
    pub fn to_wrap(&self, window: &Window<A>) -> Option<u64>
        requires ring { window.now.ring ≡ self.now.plan.old }
        requires mark { window.now.mark ≤ safe self.now.plan }
        requires near { highest window.now.held window.now.ring ≤ safe self.now.plan + window_size }
        ensures { result ≡ next_to_wrap self.now window.now.held }
    {
        for before in self.low..window.highest() {
            let number = before + 1;
            if !self.wrapped.contains_offset((before - self.safe) as usize)
                && has_user_message(window, number)
            {
                return Some(number);
            }
        }
        None
    }

    /// Returns the numbers of the old ring's messages that the node delivers when it installs the new ring.
    ///
    /// Returns `None` while the old ring's window lacks a number that a transitional member reported as held. Numbers
    /// up to the window's safe mark are treated as held.
    ///
    /// `window` must be the window of the old ring. Its safe mark must be at most the greatest one that a transitional
    /// member reported.
    ///
    /// Rules: Recovery 8, 9 and 11
    pub fn finish(&self, window: &Window<A>) -> Option<Delivery>
        requires ring { window.now.ring ≡ self.now.plan.old }
        requires mark { window.now.mark ≤ safe self.now.plan }
        ensures { result ≡ finish self.now.plan window.now.held }
    {
        if !self.is_complete(window) {
            return None;
        }
        Some(Delivery {
            regular: self.regular_numbers(),
            transitional: self.transitional_numbers(window),
            past_gap: self.numbers_past_gap(window),
        })
    }

    fn is_complete(&self, window: &Window<A>) -> bool
        requires ring { window.now.ring ≡ self.now.plan.old }
        ensures { result ≡ is_complete self.now.plan window.now.held }
    {
        self.safe <= window.front() && holds_all_offsets(&self.known, self.safe, window)
    }

    /// Returns the numbers that are safe in the old regular configuration: above the least reported safe mark, up to
    /// the greatest.
    fn regular_numbers(&self) -> NumberSet
        ensures { result ≡ regular_part self.now.plan }
    {
        let count = self.safe.saturating_sub(self.least_safe_mark);
        NumberSet::new(
            self.least_safe_mark,
            Offsets::from_test(|j| (j as u64) < count),
        )
    }

    /// Returns the reported numbers above the greatest reported safe mark and below the gap.
    fn transitional_numbers(&self, window: &Window<A>) -> NumberSet
        requires ring { window.now.ring ≡ self.now.plan.old }
        requires complete { is_complete self.now.plan window.now.held ≡ true }
        ensures { result ≡ transitional_part self.now.plan }
    {
        let known = self.known;
        let gap = known.first_clear();
        let reach = window.highest().saturating_sub(self.safe);
        let below = Offsets::from_test(|j| is_known_below_gap(&known, reach, gap, j));
        NumberSet::new(self.safe, below)
    }

    /// Returns the reported numbers past the gap whose messages a transitional member sent.
    fn numbers_past_gap(&self, window: &Window<A>) -> NumberSet
        requires ring { window.now.ring ≡ self.now.plan.old }
        requires mark { window.now.mark ≤ safe self.now.plan }
        requires complete { is_complete self.now.plan window.now.held ≡ true }
        ensures { result ≡ past_gap_part self.now.plan window.now.held }
    {
        let known = self.known;
        let gap = known.first_clear();
        let reach = window.highest().saturating_sub(self.safe);
        let (safe, transitional_members) = (self.safe, self.transitional_members);
        let history = Offsets::from_test(|j| is_delivered_past_gap(
            &known,
            reach,
            gap,
            transitional_members,
            window,
            safe,
            j,
        ));
        NumberSet::new(safe, history)
    }
}

impl<A: Allocator + Copy> Clone for Plan<A> {
    ghost is_clone = { λ plan copy. copy ≡ plan };

    fn clone(&self) -> Result<Plan<A>, AllocError> {
        Ok(Plan {
            me: self.me,
            old_ring: self.old_ring,
            transitional_members: self.transitional_members,
            least_safe_mark: self.least_safe_mark,
            safe: self.safe,
            low: self.low,
            known: self.known,
            wrapped: self.wrapped,
            ended: self.ended,
            plan: self.plan.clone()?,
            seen: self.seen.clone()?,
        })
    }
}

/// Returns the old ring of processor `me`, or `None` if it isn't a member or a member has no entry yet.
fn old_ring_of(me: Proc, token: &CommitToken) -> Option<RingId>
    ensures { result ≡ old_ring_of me token.now }
{
    let entries = token.entries.as_slice();
    if !token.members.contains(me) || entries.len() < token.members.len() as usize {
        return None;
    }
    let own = entries.get(token.members.position_of(me) as usize)?;
    Some(own.old)
}

/// Records the number of the old ring that a payload wraps, if it is a Wrapped of that ring.
fn mark_wrapped<A: Allocator + Copy>(
    wrapped: &mut Offsets,
    old: &RingId,
    after: u64,
    payload: &Payload<A>,
)
    ensures { (j : ℕ) → j < window_size → is_set wrapped.new.words j ≡ (is_set wrapped.old.words j || is_wrap_of old.now (after + 1 + j) payload.now) }
{
    match payload {
        Payload::Wrapped(message) => {
            if message.ring == *old {
                mark_offset(wrapped, after, message.number);
            }
        }
        Payload::Call(_)
        | Payload::End
        | Payload::Head(_)
        | Payload::Part(_)
        | Payload::Pack(_)
        | Payload::Snap(_) => {}
    }
}

/// Adds the offset of `number` to the set if it is one of the 256 numbers after `after`.
fn mark_offset(offsets: &mut Offsets, after: u64, number: u64)
    ensures { (j : ℕ) → j < window_size → is_set offsets.new.words j ≡ (is_set offsets.old.words j || (number == after + 1 + j)) }
{
    if after < number && number - after <= WINDOW_SIZE {
        offsets.insert((number - after - 1) as usize);
    }
}

/// Returns whether the window still has message `number` and it is a user message.
fn has_user_message<A: Allocator + Copy>(window: &Window<A>, number: u64) -> bool
    ensures { result ≡ is_user_message (message_above_mark window.now number) }
{
    match window.get(number) {
        Some(message) => is_user_payload(&message.payload),
        None => false,
    }
}

/// Returns whether the window holds the number `after + 1 + offset` for each of the offsets.
fn holds_all_offsets<A: Allocator + Copy>(offsets: &Offsets, after: u64, window: &Window<A>) -> bool
    ensures { result ≡ list_all (holds window.now.held window.now.ring) (numbers_of_bits after offsets.now.words) }
{
    for j in 0..COUNT {
        if offsets.contains_offset(j) && !holds_offset(window, after, j) {
            return false;
        }
    }
    true
}

fn holds_offset<A: Allocator + Copy>(window: &Window<A>, after: u64, offset: usize) -> bool
    ensures { result ≡ holds window.now.held window.now.ring (after + 1 + offset) }
{
    let reach = window.highest().saturating_sub(after);
    let offset = offset as u64;
    offset < reach && window.has_taken(after + 1 + offset)
}

/// Returns whether an offset is known, below the gap and below `reach`.
fn is_known_below_gap(known: &Offsets, reach: u64, gap: usize, offset: usize) -> bool
    ensures { result ≡ (nat_lt offset reach && (nat_lt offset gap && is_set known.now.words offset)) }
{
    (offset as u64) < reach && offset < gap && known.contains_offset(offset)
}

/// Returns whether an offset is known, past the gap and below `reach`, and one of `senders` sent its message.
fn is_delivered_past_gap<A: Allocator + Copy>(
    known: &Offsets,
    reach: u64,
    gap: usize,
    senders: ProcSet,
    window: &Window<A>,
    after: u64,
    offset: usize,
) -> bool
    ensures { result ≡ (nat_lt offset reach && (nat_lt gap offset && (is_set known.now.words offset && is_sent_by_any senders (message_above_mark window.now
        (after + 1 + offset))))) }
{
    (offset as u64) < reach
        && gap < offset
        && known.contains_offset(offset)
        && is_sent_by_any(senders, window, after, offset)
}

/// Returns whether the window still has message `after + 1 + offset`, and one of `senders` sent it.
fn is_sent_by_any<A: Allocator + Copy>(
    senders: ProcSet,
    window: &Window<A>,
    after: u64,
    offset: usize,
) -> bool
    ensures { result ≡ is_sent_by_any senders (message_above_mark window.now (after + 1 + offset)) }
{
    let reach = window.highest().saturating_sub(after);
    let offset = offset as u64;
    if reach <= offset {
        return false;
    }
    match window.get(after + 1 + offset) {
        Some(message) => senders.contains(message.sender),
        None => false,
    }
}
