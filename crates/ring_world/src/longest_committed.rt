//! The longest committed log of all nodes, from its beginning.
//!
//! Nodes drop places, but the world keeps them.
//!
//! Rules: The book and the threads 8; Sessions 10

ghost use Rattle.std.specs.Prelude.{◌≡◌, ℕ, ◌-◌, ◌<◌, true, [], ◌++◌, List, length, take, OnOk, IfOk, IfErr};
ghost use Rattle.ring_base.specs.declared.fault.Fault.TheVariants.{Memory};
ghost use Rattle.ring_session.specs.Deduplicated.{deduplicated};
ghost use Rattle.ring_node_spec.specs.Worlds.{calls_past};
ghost use Rattle.ring_world.specs.LongestCommitted.{calls_of};

use ring_base::Fault;
use ring_payload::Call;
use ring_session::{Effects, copy_of};
use std::alloc::{AllocError, Allocator, Global};
use std::marker::Model;
use std::mem;

/// The calls that a step newly committed, and the index of the first one that no node had committed before.
///
/// Contracts see the calls from that index on.
#[derive(Drop)]
struct CommittedCalls<A: Allocator + Copy = Global> {
    calls: Vec<Call<A>, A>,
    from: usize,
}

impl<A: Allocator + Copy> Model for CommittedCalls<A> {
    ghost use Rattle.std.specs.Prelude.{List, ◌≤◌, length, drop};
    ghost use Rattle.ring_payload.specs.declared.call.Call.{Call as OneCall};

    ghost Value = { List (OneCall A) };

    ghost view = { λ s. drop s.from s.calls.items };

    ghost invariant = { λ s. s.from ≤ length s.calls.items };
}

impl<A: Allocator + Copy> CommittedCalls<A> {
    /// Returns the calls that no node had committed before.
    fn calls(&self) -> &[Call<A>]
        ensures { result.now ≡ self.now }
    {
        &self.calls[self.from..]
    }
}

impl<A: Allocator + Copy> Clone for CommittedCalls<A> {
    ghost is_clone = { λ segment copy. copy ≡ segment };

    fn clone(&self) -> Result<CommittedCalls<A>, AllocError> {
        Ok(CommittedCalls {
            calls: self.calls.clone()?,
            from: self.from,
        })
    }
}

/// The longest committed log of all nodes, in segments as steps committed them.
///
/// Contracts see the calls, and how many more segments there is room for.
///
/// Rules: The book and the threads 8; Sessions 10
#[derive(Drop)]
pub(crate) struct LongestCommitted<A: Allocator + Copy = Global> {
    segments: Vec<CommittedCalls<A>, A>,
    /// The number of calls in all segments.
    len: u64,
}

impl<A: Allocator + Copy> Model for LongestCommitted<A> {
    ghost use Rattle.std.specs.Prelude.{◌≡◌, ◌-◌, length, vec_len, vec_capacity};
    ghost use Rattle.ring_world.specs.LongestCommitted.{LongestCommittedView, calls_of};

    ghost Value = { LongestCommittedView A };

    ghost view = { λ l. record { calls = calls_of l.segments.items; places = vec_capacity l.segments - vec_len l.segments } };

    ghost invariant = { λ l. l.len ≡ length (calls_of l.segments.items) };
}

impl<A: Allocator + Copy> LongestCommitted<A> {
    /// Returns the log of a world in which nothing has been committed.
    ///
    /// Does not allocate.
    pub(crate) fn new(alloc: A) -> LongestCommitted<A>
        ensures { result.calls ≡ [] }
    {
        LongestCommitted {
            segments: Vec::new(alloc),
            len: 0,
        }
    }

    /// Returns whether there is room for one more segment, which is what one step commits at most.
    pub(crate) fn has_room(&self) -> bool
        ensures { result ≡ true → 0 < self.now.places }
    {
        self.segments.len() < self.segments.capacity()
    }

    /// Makes room for one more segment, which is what one step commits at most.
    ///
    /// Errors: `Memory` if an allocation fails; the calls are unchanged.
    pub(crate) fn make_room(&mut self) -> Result<(), Fault>
        ensures calls { self.new.calls ≡ self.old.calls }
        ensures room { OnOk result (0 < self.new.places) }
        ensures refused { IfErr result (λ fault. fault ≡ Memory) }
    {
        self.segments.reserve(1)?;
        Ok(())
    }

    /// Appends the calls that a step newly committed, except those whose places are in the log already.
    ///
    /// Empties `calls`.
    ///
    /// `committed` is the committed length of the step's node after the step, including dropped places. There must be
    /// room for a segment. Does not allocate.
    ///
    /// Rules: The replicated log 12
    pub(crate) fn append_newly_committed(
        &mut self,
        alloc: A,
        committed: u64,
        calls: &mut Vec<Call<A>, A>,
    )
        requires { 0 < self.old.places }
        ensures { self.new.calls ≡ self.old.calls ++ calls_past (length self.old.calls) committed calls.old.items }
    {
        if !calls.is_empty() {
            let calls = mem::replace(calls, Vec::new(alloc));
            self.append_segment(committed, calls);
        }
    }

    /// Appends these calls, of which there is at least one.
    ///
    /// A function of its own keeps the large stack slot of a segment out of the caller, which mostly has no calls.
    #[inline(never)]
    fn append_segment(&mut self, committed: u64, calls: Vec<Call<A>, A>)
        requires { 0 < self.old.places }
        ensures { self.new.calls ≡ self.old.calls ++ calls_past (length self.old.calls) committed calls.items }
    {
        let many = calls.len() as u64;
        let from = many.saturating_sub(committed.saturating_sub(self.len));
        if from < many {
            self.len += many - from;
            self.segments.push_reserved(CommittedCalls {
                calls,
                from: from as usize,
            });
        }
    }

    /// Returns copies of the first `many` calls of the log, including repeats, or of all if there are fewer.
    ///
    /// Errors: `Memory` if an allocation fails.
    ///
    /// Rules: The book and the threads 8
    pub(crate) fn copy_first_calls(&self, alloc: A, many: u64) -> Result<Vec<Call<A>, A>, Fault>
        ensures ok { IfOk result (λ copies. copies.items ≡ take many self.now.calls) }
        ensures refused { IfErr result (λ fault. fault ≡ Memory) }
    {
        let room = many.min(self.len) as usize;
        copy_first(alloc, &self.segments, many as usize, room)
    }

    /// Returns copies of the calls that take effect, in order, with repeats removed.
    ///
    /// Errors: `Memory` if an allocation fails.
    ///
    /// Rules: Sessions 6 and 10
    pub(crate) fn copy_effective_calls(&self, alloc: A) -> Result<Vec<Call<A>, A>, Fault>
        ensures ok { IfOk result (λ order. order.items ≡ deduplicated self.now.calls) }
        ensures refused { IfErr result (λ fault. fault ≡ Memory) }
    {
        order_of(alloc, &self.segments)
    }
}

/// A clone has the same calls.
impl<A: Allocator + Copy> Clone for LongestCommitted<A> {
    ghost is_clone = { λ longest copy. copy.calls ≡ longest.calls };

    fn clone(&self) -> Result<LongestCommitted<A>, AllocError> {
        Ok(LongestCommitted {
            segments: self.segments.clone()?,
            len: self.len,
        })
    }
}

/// Returns a copy of the first `many` calls of the segments, in a list with capacity `room`.
///
/// Errors: `Memory` if an allocation fails.
fn copy_first<A: Allocator + Copy>(
    alloc: A,
    segments: &[CommittedCalls<A>],
    many: usize,
    room: usize,
) -> Result<Vec<Call<A>, A>, Fault>
    ensures ok { IfOk result (λ copies. copies.items ≡ take many (calls_of segments.now)) }
    ensures refused { IfErr result (λ fault. fault ≡ Memory) }
{
    let mut copies = Vec::with_capacity(alloc, room)?;
    for segment in segments {
        copy_until_len(&mut copies, segment.calls(), many)?;
    }
    Ok(copies)
}

/// Returns the calls of the segments that take effect, in order.
///
/// Errors: `Memory` if an allocation fails.
fn order_of<A: Allocator + Copy + Drop>(
    alloc: A,
    segments: &[CommittedCalls<A>],
) -> Result<Vec<Call<A>, A>, Fault>
    ensures ok { IfOk result (λ order. order.items ≡ deduplicated (calls_of segments.now)) }
    ensures refused { IfErr result (λ fault. fault ≡ Memory) }
{
    let mut effects = Effects::new(alloc)?;
    for segment in segments {
        effects.add_all(segment.calls())?;
    }
    Ok(effects.into_calls())
}

/// Appends copies of the calls, in order, until the list has `many` calls.
///
/// Errors: `Memory` if an allocation fails.
fn copy_until_len<A: Allocator + Copy>(
    copies: &mut Vec<Call<A>, A>,
    calls: &[Call<A>],
    many: usize,
) -> Result<(), Fault>
    ensures ok { OnOk result (copies.new.items ≡ copies.old.items ++ take (many - length copies.old.items) calls.now) }
    ensures refused { IfErr result (λ fault. fault ≡ Memory) }
{
    for call in calls {
        if copies.len() >= many {
            return Ok(());
        }
        let copy = copy_of(call)?;
        copies.push(copy)?;
    }
    Ok(())
}
