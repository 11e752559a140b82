//! A member's visits of the token of one ring.
//!
//! Rules: Token and window 6 to 8, 10 and 15; Recovery 3

ghost use Rattle.std.specs.Prelude.{◌≡◌, ℕ, ◌+◌, ◌<◌, ◌≤◌, ◌&&◌, List, length, nat_lt, nat_le, true};
ghost use Rattle.ring_base.specs.Numbers.{max_number};
ghost use Rattle.ring_base.specs.Rings.{same_ring};
ghost use Rattle.ring_wire.specs.Messages.{Payload as OnePayload};
ghost use Rattle.ring_token.specs.TokenVisits.{is_accepted};
ghost use Rattle.ring_token.specs.Visits.{may_set_aru, token_after};
ghost use Rattle.ring_token.specs.Histories.{without_visits, visit_made, history_with_visit, history_with_raise, mark_of};

use ring_base::{Ghost, MAX, Proc, RingId, ghost_of};
use ring_wire::{Requests, Token};
use std::alloc::{AllocError, Allocator, Global};
use std::marker::{Model, PhantomData};

/// All visits of one ring's token by a member, and each mark to which its safe mark was raised, as contracts see them.
///
/// Code never creates a value of this type.
///
/// Rules: Token and window 10
pub struct VisitHistory<A: Allocator + Copy = Global> {
    allocator: PhantomData<A>,
}

impl<A: Allocator + Copy> Model for VisitHistory<A> {
    ghost use Rattle.ring_base.specs.declared.ring_id.RingId.{RingId as OneRing};
    ghost use Rattle.ring_token.specs.Histories.{TokenHistory, without_visits as none_visited};

    ghost Value = { TokenHistory A };

    ghost view = { λ _. none_visited 0 (record { seq = 0; rep = 0 }) };
}

/// A member's state for the token of one ring: what it needs to accept and visit the next token.
///
/// It keeps the greatest token number accepted, the `aru` forwarded last, and the safe mark. Contracts see a
/// `TokenHistory`: each visit, and each mark to which the safe mark was raised.
///
/// Rules: Token and window 6, 10 and 15
#[derive(Drop)]
pub struct Visit<A: Allocator + Copy = Global> {
    me: Proc,
    ring: RingId,
    /// The least number that the next accepted token may have, 0 before the first visit.
    next_token_number: u64,
    /// The `aru` that the last visit forwarded, 0 before the first.
    aru: u64,
    safe: u64,
    history: Ghost<VisitHistory<A>>,
}

impl<A: Allocator + Copy> Model for Visit<A> {
    ghost use Rattle.std.specs.Prelude.{◌≡◌};
    ghost use Rattle.ring_token.specs.Histories.{TokenHistory as OneHistory, IsTokenKept};

    ghost Value = { OneHistory A };

    ghost view = { λ v. v.history.value };

    ghost invariant = { λ v. (v.me ≡ v.history.value.me) × (v.ring ≡ v.history.value.ring) × IsTokenKept v.history.value v.next_token_number v.aru v.safe };
}

impl<A: Allocator + Copy> Visit<A> {
    /// Creates the state of member `me` before its first visit of the token of `ring`. The safe mark is 0.
    ///
    /// Rules: Token and window 3 and 10
    pub fn new(me: Proc, ring: RingId) -> Visit<A>
        ensures { result ≡ without_visits me ring }
    {
        let history = ghost_of(&(&me, &ring));
        Visit {
            me,
            ring,
            next_token_number: 0,
            aru: 0,
            safe: 0,
            history,
        }
    }

    /// Returns whether the member accepts the token.
    ///
    /// `high` is the greatest message number that the member holds, 0 if none. The token is accepted if it belongs to
    /// this ring, its number is above that of every token accepted so far and below `MAX`, and its `seq` is at least
    /// `high`. The node's state is not checked.
    ///
    /// Rules: Token and window 6 and 15
    pub fn accepts(&self, token: &Token, high: u64) -> bool
        ensures { result ≡ is_accepted self.now.ring self.now.turns high token.now }
    {
        is_acceptable(&self.ring, self.next_token_number, high, token)
    }

    /// Performs the visit of an accepted token, and returns the token to forward.
    ///
    /// `sent` is the number of new messages, `front` the front once the member holds these, and `requests` the requests
    /// of the forwarded token. The token must belong to this ring, and its number must be below `MAX`, as
    /// [`accepts`](Visit::accepts) checks; its `seq` plus `sent` must be at most `MAX`.
    /// [`visit_into`](Visit::visit_into), which the ring core uses, writes the token into an existing one.
    ///
    /// Rules: Token and window 7, 8, 10 and 15
    pub fn visit(&mut self, token: Token, front: u64, sent: u64, requests: Requests) -> Token
        ghost fresh: { List (OnePayload A) }
        requires ring { token.ring ≡ self.old.ring }
        requires number { token.number < max_number }
        requires seq { token.seq + sent ≤ max_number }
        requires count { length fresh ≡ sent }
        ensures token { result ≡ token_after self.old.me front sent requests token }
        ensures visit { self.new ≡ history_with_visit self.old (visit_made self.old.me front fresh requests token) }
    {
        let mut forwarded = Token {
            ring: token.ring,
            number: token.number,
            seq: token.seq,
            aru: token.aru,
            aru_id: token.aru_id,
            requests,
        };
        self.visit_into(&token, front, sent, &mut forwarded);
        forwarded
    }

    /// Performs [`visit`](Visit::visit) under the same conditions, and writes the token to forward into `forwarded`.
    ///
    /// The requests of `forwarded` stay: the caller has set them before.
    ///
    /// Rules: Token and window 7, 8, 10 and 15
    pub fn visit_into(&mut self, token: &Token, front: u64, sent: u64, forwarded: &mut Token)
        ghost fresh: { List (OnePayload A) }
        requires ring { token.now.ring ≡ self.old.ring }
        requires number { token.now.number < max_number }
        requires seq { token.now.seq + sent ≤ max_number }
        requires count { length fresh ≡ sent }
        ensures token { forwarded.new ≡ token_after self.old.me front sent forwarded.old.requests token.now }
        ensures visit { self.new ≡ history_with_visit self.old (visit_made self.old.me front fresh forwarded.old.requests token.now) }
    {
        let history = ghost_of(&(&self.history, token, front, &forwarded.requests));
        write_forwarded_token(self.me, token, front, sent, forwarded);
        self.next_token_number = self.next_token_number.max(token.number + 1);
        self.safe = self.safe.max(self.aru.min(forwarded.aru));
        self.aru = forwarded.aru;
        self.history = history;
    }

    /// Returns the safe mark: every member of the ring holds the messages up to it.
    ///
    /// It is 0 until two visits or a plan have raised it, and never falls.
    ///
    /// Rules: Token and window 3, 10 and 15
    pub fn safe(&self) -> u64
        ensures { result ≡ mark_of self.now }
    {
        self.safe
    }

    /// Raises the safe mark to `mark`, which a member has reported in a commit token. A lower `mark` changes nothing.
    ///
    /// Rules: Recovery 3; Token and window 15
    pub fn raise_safe_mark(&mut self, mark: u64)
        ensures { self.new ≡ history_with_raise self.old mark }
    {
        let history = ghost_of(&(&self.history, mark));
        self.safe = self.safe.max(mark);
        self.history = history;
    }
}

impl<A: Allocator + Copy> Clone for Visit<A> {
    ghost is_clone = { λ visit copy. copy ≡ visit };

    fn clone(&self) -> Result<Visit<A>, AllocError> {
        Ok(Visit {
            me: self.me,
            ring: self.ring,
            next_token_number: self.next_token_number,
            aru: self.aru,
            safe: self.safe,
            history: self.history.clone()?,
        })
    }
}

/// Returns whether a token belongs to `ring`, has a number from `next` to below `MAX`, and a `seq` of at least `high`.
fn is_acceptable(ring: &RingId, next: u64, high: u64, token: &Token) -> bool
    ensures { result ≡ (same_ring token.now.ring ring.now && nat_le next token.now.number && nat_lt token.now.number max_number && nat_le high token.now.seq) }
{
    token.ring == *ring && next <= token.number && token.number < MAX && high <= token.seq
}

/// Returns whether a member may set `aru` to its front: the front is below `aru`, or no other member holds `aru` back.
fn may_set_aru(me: Proc, front: u64, token: &Token) -> bool
    ensures { result ≡ may_set_aru me front token.now }
{
    front < token.aru || token.aru_id.is_none_or(|holder| holder == me)
}

/// Writes the token to forward into `forwarded`, except for its requests, which stay.
fn write_forwarded_token(me: Proc, token: &Token, front: u64, sent: u64, forwarded: &mut Token)
    requires number { token.now.number < max_number }
    requires seq { token.now.seq + sent ≤ max_number }
    ensures { forwarded.new ≡ token_after me front sent forwarded.old.requests token.now }
{
    forwarded.ring = token.ring;
    forwarded.number = token.number + 1;
    forwarded.seq = token.seq + sent;
    if may_set_aru(me, front, token) {
        forwarded.aru = front;
        forwarded.aru_id = if front == forwarded.seq {
            None
        } else {
            Some(me)
        };
    } else {
        forwarded.aru = token.aru;
        forwarded.aru_id = token.aru_id;
    }
}
