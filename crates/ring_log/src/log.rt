//! A node's log: its calls, its committed and trimmed lengths, and its last primary.
//!
//! Rules: The replicated log 1, 2, 6, 8, 9, 11, 12, 19 and 20

ghost use Rattle.std.specs.Prelude.{◌≡◌, ◌≤◌, ◌+◌, ◌&&◌, ◌∷◌, [], ◌++◌, true, nat_le, length, take, drop, IfOk, IfErr, OnOk, OnErr};
ghost use Rattle.ring_base.specs.declared.fault.Fault.TheVariants.{Memory};
ghost use Rattle.ring_log.specs.Parts.{parts_between};
ghost use Rattle.ring_log.specs.Adoptions.{restored_with, adoption};
ghost use Rattle.ring_log.specs.Logs.{log_opening, log_length, log_with_calls_if_room, calls_after_base, restores, restored_log, joined_log, log_after_base_if_may, committed_upto, committed_calls};
ghost use Rattle.ring_log.specs.Logs.{committed_log, trimmed_log, head_of, begins, is_log_length, is_adoptable, is_due_to_trim};

use crate::adoption::Adoption;
use crate::base::Base;
use crate::parts::parts_from_calls;
use crate::wanted::Wanted;
use ring_base::{Fault, MAX, RingId};
use ring_payload::is_call_prefix;
use ring_wire::{Call, CallList, Head, Part};
use std::alloc::{AllocError, Allocator, Global};
use std::marker::Model;
use std::mem;

/// The number of kept committed places, 256, from which on they are due to be dropped.
const TRIM_AFTER: u64 = 256;

/// A node's replicated log: a list of calls, whose first places may have been dropped.
///
/// It has the number of dropped places, the calls of the other places, the committed length, and the last primary,
/// which is the newest adopted ring. Contracts see these four. Places are counted from 0, dropped ones included. Only
/// committed places are dropped, and a log has at most `MAX` places.
///
/// Rules: The replicated log 1
#[derive(Drop)]
pub struct Log<A: Allocator + Copy = Global> {
    trimmed: u64,
    calls: Vec<Call<A>, A>,
    committed: u64,
    last: Option<RingId>,
}

impl<A: Allocator + Copy> Model for Log<A> {
    ghost use Rattle.std.specs.Prelude.{length};
    ghost use Rattle.ring_log.specs.Logs.{Log as LogValue, IsKeptLog};

    ghost Value = { LogValue A };

    ghost view = { λ log. record { trimmed = log.trimmed; calls = log.calls.items; committed = log.committed; last = log.last } };

    ghost invariant = { λ log. IsKeptLog log.trimmed log.committed (length log.calls.items) };
}

impl<A: Allocator + Copy> Clone for Log<A> {
    ghost is_clone = { λ log copy. copy ≡ log };

    fn clone(&self) -> Result<Log<A>, AllocError> {
        Ok(Log {
            trimmed: self.trimmed,
            calls: self.calls.clone()?,
            committed: self.committed,
            last: self.last,
        })
    }
}

impl<A: Allocator + Copy> Log<A> {
    /// Creates the log of the opening: empty, with nothing committed and no last primary. Does not allocate.
    ///
    /// Rules: The replicated log 1
    pub fn new(alloc: A) -> Log<A>
        ensures { result ≡ log_opening }
    {
        Log {
            trimmed: 0,
            calls: Vec::new(alloc),
            committed: 0,
            last: None,
        }
    }

    /// Appends a call, and returns true. If the log has `MAX` places already, returns false and changes nothing.
    ///
    /// Errors: `Memory` if an allocation fails; the log is unchanged.
    ///
    /// Rules: The replicated log 9, 11 and 19
    pub fn append(&mut self, call: Call<A>) -> Result<bool, Fault>
        ensures fits { IfOk result (λ fits. fits ≡ is_log_length (log_length self.old + 1)) }
        ensures log { OnOk result (self.new ≡ log_with_calls_if_room self.old (call ∷ [])) }
        ensures err { OnErr result (self.new ≡ self.old) }
        ensures refused { IfErr result (λ fault. fault ≡ Memory) }
    {
        if !is_within_limit(self.length(), 1) {
            return Ok(false);
        }
        self.calls.push(call)?;
        Ok(true)
    }

    /// Appends calls in their order, and returns true. If the log would then have more than `MAX` places, appends none
    /// of them and returns false.
    ///
    /// An empty list changes nothing. The log shares the bytes of the calls' operations with `calls`.
    ///
    /// Errors: `Memory` if an allocation fails; the log is unchanged.
    ///
    /// Rules: The replicated log 9, 11 and 19
    pub fn append_all_if_room(&mut self, calls: &[Call<A>]) -> Result<bool, Fault>
        ensures fits { IfOk result (λ fits. fits ≡ is_log_length (log_length self.old + length calls.now)) }
        ensures log { OnOk result (self.new ≡ log_with_calls_if_room self.old calls.now) }
        ensures err { OnErr result (self.new ≡ self.old) }
        ensures refused { IfErr result (λ fault. fault ≡ Memory) }
    {
        if !is_within_limit(self.length(), calls.len() as u64) {
            return Ok(false);
        }
        self.calls.extend_from_slice(calls)?;
        Ok(true)
    }

    /// Adopts a ring's base if [`may_adopt`](Log::may_adopt) allows it, and returns how. The ring is then the last
    /// primary.
    ///
    /// If the base has a snapshot of more places than are committed, the log is restored: those places are then treated
    /// as committed and dropped, and the base's calls follow them. Otherwise the log keeps its own places below the
    /// base, and the base's calls follow, without those of dropped places; the committed and the trimmed length are
    /// unchanged. If the base may not be adopted, returns `Refused`: the log is unchanged, and the base is lost.
    /// Whether `ring` is newer than the last primary isn't checked. Calls are moved, not copied.
    ///
    /// Errors: `Memory` if an allocation fails; the log is unchanged, and the base is lost.
    ///
    /// Rules: The replicated log 6, 8, 9 and 19
    pub fn adopt(&mut self, ring: RingId, base: Base<A>) -> Result<Adoption<A>, Fault>
        ensures how { IfOk result (λ how. how ≡ adoption self.old base) }
        ensures log { OnOk result (self.new ≡ log_after_base_if_may self.old ring base) }
        ensures err { OnErr result (self.new ≡ self.old) }
        ensures refused { IfErr result (λ fault. fault ≡ Memory) }
    {
        if !self.may_adopt(&base) {
            return Ok(Adoption::Refused);
        }
        if self.is_restored_by(&base) {
            return Ok(self.restore_from_base(ring, base));
        }
        self.join_base(ring, base)?;
        Ok(Adoption::Joined)
    }

    /// Replaces the log with one that begins after the places of the base's snapshot.
    fn restore_from_base(&mut self, ring: RingId, base: Base<A>) -> Adoption<A>
        requires short { is_log_length (base.from + length base.calls) ≡ true }
        ensures how { result ≡ restored_with self.old base.snapshot }
        ensures log { self.new ≡ restored_log self.old ring base }
    {
        let Base {
            from,
            snapshot,
            calls,
        } = base;
        let log = Log {
            trimmed: from,
            calls: calls.into_vec(),
            committed: from,
            last: Some(ring),
        };
        let before = mem::replace(self, log);
        match snapshot {
            Some(snapshot) => Adoption::Restored(snapshot, before),
            None => Adoption::Joined,
        }
    }

    /// Keeps the log's places below the base, and appends the base's calls, except those of dropped places.
    ///
    /// Errors: `Memory` if an allocation fails; the log is unchanged.
    #[tactic(auto, using(crate::proofs::Calls::joined_bounds))]
    fn join_base(&mut self, ring: RingId, base: Base<A>) -> Result<(), Fault>
        requires below { base.from ≤ self.old.committed }
        requires begins { begins (committed_calls self.old) (calls_after_base self.old base) ≡ true }
        requires short { is_log_length (base.from + length base.calls) ≡ true }
        ensures ok { OnOk result (self.new ≡ joined_log self.old ring base) }
        ensures err { OnErr result (self.new ≡ self.old) }
        ensures refused { IfErr result (λ fault. fault ≡ Memory) }
    {
        let kept = base.from.saturating_sub(self.trimmed);
        let left_out = self.trimmed.saturating_sub(base.from);
        splice_calls(&mut self.calls, kept, base.calls, left_out)?;
        self.last = Some(ring);
        Ok(())
    }

    /// Returns whether a base may be adopted.
    ///
    /// It must restore the log, or leave no hole and begin with the committed places that the log has kept. The log
    /// must then have at most `MAX` places. In a run only this limit can refuse a base. Does not allocate.
    ///
    /// Rules: The replicated log 8 and 9
    pub fn may_adopt(&self, base: &Base<A>) -> bool
        ensures { result ≡ is_adoptable self.now base.now }
    {
        (self.is_restored_by(base) || self.continues_committed(base))
            && is_within_limit(base.from, base.calls.as_slice().len() as u64)
    }

    /// Returns whether a base has a snapshot of more places than are committed.
    fn is_restored_by(&self, base: &Base<A>) -> bool
        ensures { result ≡ restores self.now base.now }
    {
        base.snapshot.is_some() && self.committed < base.from
    }

    /// Returns whether a base leaves no hole and begins with the committed places that the log has kept.
    fn continues_committed(&self, base: &Base<A>) -> bool
        ensures { result ≡ nat_le base.now.from self.now.committed && begins (committed_calls self.now) (calls_after_base self.now base.now) }
    {
        base.from <= self.committed && self.is_continued_by(base)
    }

    /// Returns whether a base begins with the committed places that the log has kept.
    ///
    /// Only those from `base.from` on are compared, since the log keeps its own places below that.
    fn is_continued_by(&self, base: &Base<A>) -> bool
        ensures { result ≡ begins (committed_calls self.now) (calls_after_base self.now base.now) }
    {
        let trimmed = self.trimmed();
        let committed = self.committed_calls();
        let same = committed
            .len()
            .min(base.from.saturating_sub(trimmed) as usize);
        let received_calls = base.calls.as_slice();
        let dropped = received_calls
            .len()
            .min(trimmed.saturating_sub(base.from) as usize);
        is_call_prefix(&committed[same..], &received_calls[dropped..])
    }

    /// Raises the committed length to `n`, or to the log's length if that is less.
    ///
    /// It never falls: a smaller `n` changes nothing. Does not allocate.
    ///
    /// Rules: The replicated log 12 and 19
    pub fn commit_upto(&mut self, n: u64)
        ensures { self.new ≡ committed_upto self.old n }
    {
        self.committed = self.committed.max(n.min(self.length()));
    }

    /// Returns whether the committed places are due to be dropped: whether the log has kept 256 or more of them. Does
    /// not allocate.
    ///
    /// Rules: The replicated log 19 and 20
    pub fn is_due_to_trim(&self) -> bool
        ensures { result ≡ is_due_to_trim self.now }
    {
        self.committed - self.trimmed >= TRIM_AFTER
    }

    /// Drops the committed places, and returns a log with only these places.
    ///
    /// The trimmed length rises to the committed length, which is unchanged, as are the length and the last primary. If
    /// no committed place is kept, nothing changes, and the returned log has no calls. Whether the places are due to be
    /// dropped isn't checked. Calls are moved, not copied.
    ///
    /// Errors: `Memory` if an allocation fails; the log is unchanged.
    ///
    /// Rules: The replicated log 19 and 20
    pub fn trim(&mut self) -> Result<Log<A>, Fault>
        ensures dropped { IfOk result (λ log. log ≡ committed_log self.old) }
        ensures ok { OnOk result (self.new ≡ trimmed_log self.old) }
        ensures err { OnErr result (self.new ≡ self.old) }
        ensures refused { IfErr result (λ fault. fault ≡ Memory) }
    {
        let end = (self.committed - self.trimmed) as usize;
        let calls = self.calls.split_off(end)?;
        let rest = Log {
            trimmed: self.committed,
            calls,
            committed: self.committed,
            last: self.last,
        };
        Ok(mem::replace(self, rest))
    }

    /// Consumes the log, and returns the calls of all places that haven't been dropped, in order, committed or not.
    ///
    /// Does not allocate.
    ///
    /// Rules: The replicated log 1
    pub fn into_calls(self) -> Vec<Call<A>, A>
        ensures { result.items ≡ self.calls }
    {
        self.calls
    }

    /// Returns the Head of this log: its last primary, and its length, committed length and trimmed length. Does not
    /// allocate.
    ///
    /// Rules: The replicated log 2 and 19
    pub fn head(&self) -> Head
        ensures { result ≡ head_of self.now }
    {
        Head {
            last: self.last,
            length: self.length(),
            committed: self.committed,
            trimmed: self.trimmed,
        }
    }

    /// Returns the number of places, committed or not, dropped ones included: 0 to `MAX`. Does not allocate.
    ///
    /// Rules: The replicated log 1
    pub fn length(&self) -> u64
        ensures { result ≡ log_length self.now }
    {
        self.trimmed + self.calls.len() as u64
    }

    /// Returns how many places have been dropped, all from the beginning of the log.
    ///
    /// It is at most the committed length. Does not allocate.
    ///
    /// Rules: The replicated log 1 and 20
    pub fn trimmed(&self) -> u64
        ensures { result ≡ self.now.trimmed }
    {
        self.trimmed
    }

    /// Returns the number of committed places, dropped ones included.
    ///
    /// They are the first places of the log. Does not allocate.
    ///
    /// Rules: The replicated log 1 and 12
    pub fn committed_length(&self) -> u64
        ensures { result ≡ self.now.committed }
    {
        self.committed
    }

    /// Returns the last primary, which is the newest ring adopted, or `None` before the first adoption. Does not
    /// allocate.
    ///
    /// Rules: The replicated log 1 and 6
    pub fn last_primary(&self) -> Option<RingId>
        ensures { result ≡ self.now.last }
    {
        self.last
    }

    /// Returns the calls of all places that haven't been dropped, in order, committed or not.
    ///
    /// The first is at place [`trimmed`](Log::trimmed). Does not allocate.
    ///
    /// Rules: The replicated log 1
    pub fn calls(&self) -> &[Call<A>]
        ensures { result.now ≡ self.now.calls }
    {
        self.calls.as_slice()
    }

    /// Returns the calls of the committed places that haven't been dropped, in order.
    ///
    /// The first is at place [`trimmed`](Log::trimmed). Does not allocate.
    ///
    /// Rules: The replicated log 1 and 12
    pub fn committed_calls(&self) -> &[Call<A>]
        ensures { result.now ≡ committed_calls self.now }
    {
        &self.calls[..(self.committed - self.trimmed) as usize]
    }

    /// Returns the Parts of the wanted places, in order.
    ///
    /// This must be the owner's log, which has dropped none of them; neither is checked. Each Part has 7 places, the
    /// last perhaps fewer. There are none if nothing is wanted. Wanted places past the end of the log are left out.
    ///
    /// Errors: `Memory` if an allocation fails.
    ///
    /// Rules: The replicated log 2 and 19
    pub fn parts(&self, alloc: A, wanted: &Wanted) -> Result<Vec<Part<A>, A>, Fault>
        ensures ok { IfOk result (λ parts. parts.items ≡ parts_between self.now.trimmed self.now.calls wanted.now.from wanted.now.to) }
        ensures refused { IfErr result (λ fault. fault ≡ Memory) }
    {
        let start = self
            .calls
            .len()
            .min(wanted.from.saturating_sub(self.trimmed) as usize);
        let most = wanted.to.saturating_sub(wanted.from) as usize;
        let places = &self.calls[start..];
        let count = places.len().min(most);
        if count == 0 {
            return Ok(Vec::new(alloc));
        }
        parts_from_calls(alloc, wanted.from, &places[..count])
    }
}

/// Keeps the first `kept` of `own`, and appends `calls` without its first `left_out`. Calls are moved, not copied.
///
/// Errors: `Memory` if an allocation fails; `own` is unchanged.
fn splice_calls<A: Allocator + Copy>(
    own: &mut Vec<Call<A>, A>,
    kept: u64,
    calls: CallList<A>,
    left_out: u64,
) -> Result<(), Fault>
    ensures ok { OnOk result (own.new.items ≡ take kept own.old.items ++ drop left_out calls) }
    ensures err { OnErr result (own.new.items ≡ own.old.items) }
    ensures refused { IfErr result (λ fault. fault ≡ Memory) }
{
    let mut calls = split_off_calls(calls.into_vec(), left_out)?;
    own.reserve(calls.len())?;
    own.truncate(kept as usize);
    own.append(&mut calls)?;
    Ok(())
}

/// Returns the calls without their first `left_out`. Calls are moved, not copied.
///
/// Errors: `Memory` if an allocation fails.
#[tactic(auto, using(crate::proofs::Calls::drop_least))]
fn split_off_calls<A: Allocator + Copy>(
    mut calls: Vec<Call<A>, A>,
    left_out: u64,
) -> Result<Vec<Call<A>, A>, Fault>
    ensures ok { IfOk result (λ rest. rest.items ≡ drop left_out calls.items) }
    ensures refused { IfErr result (λ fault. fault ≡ Memory) }
{
    if left_out == 0 {
        return Ok(calls);
    }
    let start = calls.len().min(left_out as usize);
    let rest = calls.split_off(start)?;
    Ok(rest)
}

/// Returns whether `places` + `more` is at most `MAX`, the maximum length of a log.
fn is_within_limit(places: u64, more: u64) -> bool
    ensures { result ≡ is_log_length (places + more) }
{
    places <= MAX && more <= MAX - places
}
