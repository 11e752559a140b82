//! Buckets of unanswered tickets, by the client and the number of their calls.
//!
//! Rules: The replicated log 14

ghost use Rattle.std.specs.Prelude.{◌≡◌, ◌≢◌, ℕ, ◌<◌, ◌≤◌, ◌&&◌, ◌||◌, Bool, not, true, false, length, slice_index, slice_index_or};
ghost use Rattle.ring_session.specs.Buckets.{bucket_of, AreChained};

use crate::MAX_UNANSWERED;
use crate::pending_ticket::PendingTicket;
use ring_payload::Call;
use std::alloc::Allocator;

/// The number of buckets.
const BUCKETS: usize = 256;

/// The number of buckets as a `u64`, for the arithmetic of `bucket_of`.
const MODULUS: u64 = BUCKETS as u64;

/// The positions of the calls of at most 64 tickets, by bucket, so that a committed call is compared only with its
/// bucket's calls.
///
/// `first` has the first position of each bucket, and `next` has, for each position, the next one in the same bucket.
/// Positions count from 0, and the number of tickets ends a chain.
///
/// Rules: The replicated log 14
#[derive(Drop)]
pub(crate) struct Buckets {
    first: [u8; BUCKETS],
    next: [u8; MAX_UNANSWERED],
}

impl Buckets {
    /// Returns the buckets of these tickets, each chain in ascending order.
    ///
    /// There must be at most 64 tickets.
    pub(crate) fn of_tickets<A: Allocator + Copy>(pending: &[PendingTicket<A>]) -> Buckets
        requires { length pending.now ≤ 64 }
        ensures { AreChained result.first result.next 0 pending.now }
    {
        let mut buckets = Buckets {
            first: [pending.len() as u8; BUCKETS],
            next: [0; MAX_UNANSWERED],
        };
        for place in (0..pending.len()).rev() {
            buckets.push_front_of_bucket(bucket_of(&pending[place].call), place);
        }
        buckets
    }

    /// Puts `place` at the front of the chain of `bucket`.
    fn push_front_of_bucket(&mut self, bucket: usize, place: usize)
        requires bucket { bucket < 256 }
        requires place { place < 64 }
        ensures first { slice_index self.new.first bucket ≡ place }
        ensures other_first { (b : ℕ) → b ≢ bucket → slice_index self.new.first b ≡ slice_index self.old.first b }
        ensures next { slice_index self.new.next place ≡ slice_index self.old.first bucket }
        ensures other_next { (j : ℕ) → j ≢ place → slice_index self.new.next j ≡ slice_index self.old.next j }
    {
        self.next[place] = self.first[bucket];
        self.first[bucket] = place as u8;
    }

    /// Returns the first position in the bucket of `call`, or the number of tickets if the bucket is empty.
    pub(crate) fn first_of<A: Allocator + Copy>(&self, call: &Call<A>) -> usize
        ensures { result ≡ slice_index self.now.first (bucket_of call.now) }
    {
        usize::from(self.first[bucket_of(call)])
    }

    /// Returns the position after `place` in its bucket, or the number of tickets if it is the last.
    ///
    /// `place` must be below 64.
    pub(crate) fn next_of(&self, place: usize) -> usize
        requires { place < 64 }
        ensures { result ≡ slice_index self.now.next place }
    {
        usize::from(self.next[place])
    }
}

/// Returns the bucket of a call, 0 to 255, which depends only on its client and number.
fn bucket_of<A: Allocator + Copy>(call: &Call<A>) -> usize
    ensures bucket { result ≡ bucket_of call.now }
    ensures within { result < 256 }
{
    ((u64::from(call.client) % MODULUS * 157 + call.number % MODULUS) % MODULUS) as usize
}

/// For each of 64 ticket positions, whether the call of the ticket there has been committed.
///
/// Rules: The replicated log 14
#[derive(Drop)]
pub(crate) struct CommittedFlags {
    committed_marks: [bool; MAX_UNANSWERED],
}

impl CommittedFlags {
    /// Returns the flags of 64 positions, none of them marked.
    pub(crate) fn new() -> CommittedFlags
        ensures { (j : ℕ) → slice_index_or result.committed_marks j false ≡ false }
    {
        CommittedFlags {
            committed_marks: [false; MAX_UNANSWERED],
        }
    }

    /// Returns whether position `place`, counted from 0, is marked.
    ///
    /// `place` must be below 64.
    pub(crate) fn is_marked(&self, place: usize) -> bool
        requires { place < 64 }
        ensures { result ≡ slice_index_or self.now.committed_marks place false }
    {
        self.committed_marks[place]
    }

    /// Marks position `place` if `same` is true, and returns whether this marked it newly.
    ///
    /// `same` says that the call of the ticket there is the committed one. `place` counts from 0 and must be below 64.
    pub(crate) fn mark_if_same(&mut self, place: usize, same: bool) -> bool
        requires { place < 64 }
        ensures first { result ≡ (same && not (slice_index_or self.old.committed_marks place false)) }
        ensures this { slice_index_or self.new.committed_marks place false ≡ (slice_index_or self.old.committed_marks place false || same) }
        ensures others { (j : ℕ) → j ≢ place → slice_index_or self.new.committed_marks j false ≡ slice_index_or self.old.committed_marks j false }
    {
        let was = self.committed_marks[place];
        self.committed_marks[place] = was || same;
        same && !was
    }
}
