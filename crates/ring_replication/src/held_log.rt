//! The log as a node stores it, with its snapshot, and with the log from before a restore.
//!
//! Rules: The replicated log 1, 2, 6, 11, 12 and 20

ghost use Rattle.std.specs.Prelude.{◌≡◌, ◌+◌, ◌∷◌, [], true, is_some, option_map, unwrap_or, length, Some, None, if◌then◌else◌, IfOk, IfErr, OnOk, OnErr};
ghost use Rattle.ring_base.specs.Prefixes.{IsListPrefix};
ghost use Rattle.ring_base.specs.declared.fault.Fault.TheVariants.{Memory};
ghost use Rattle.ring_log.specs.Logs.{appended, committed_upto, committed_log, committed_calls, log_length, is_log_length, is_adoptable};
ghost use Rattle.ring_replication.specs.Replications.{empty_held_history, reported_log, held_log_adopted, held_log_trimmed};

use ring_base::{Fault, RingId};
use ring_log::{Adoption, Base, Log, Snapshot};
use ring_payload::Call;
use std::alloc::{AllocError, Allocator, Global};
use std::marker::Model;

/// A node's log as the node stores it, with the snapshot of its dropped places.
///
/// Contracts see the log, the snapshot's bytes, and, if the present step has restored a snapshot, the log as it was at
/// the end of the last step. The node sends the snapshot's bytes if they are wanted.
///
/// Rules: The replicated log 1, 6 and 20
#[derive(Drop)]
pub struct HeldLog<A: Allocator + Copy = Global> {
    log: Log<A>,
    before: Option<Log<A>>,
    snapshot: Snapshot<A>,
}

impl<A: Allocator + Copy> Model for HeldLog<A> {
    ghost use Rattle.ring_replication.specs.Replications.{HeldLog as HeldLogValue};

    ghost Value = { HeldLogValue A };

    ghost view = { λ h. record { log = h.log; before = h.before; snapshot = h.snapshot } };
}

impl<A: Allocator + Copy> Clone for HeldLog<A> {
    ghost is_clone = { λ held_log copy. copy ≡ held_log };

    fn clone(&self) -> Result<HeldLog<A>, AllocError> {
        Ok(HeldLog {
            snapshot: self.snapshot.clone()?,
            log: self.log.clone()?,
            before: self.before.clone()?,
        })
    }
}

impl<A: Allocator + Copy + Drop> HeldLog<A> {
    /// Creates the stored log of the opening: an empty log and no snapshot.
    ///
    /// Does not allocate.
    ///
    /// Rules: The replicated log 1
    pub(crate) fn new(alloc: A) -> HeldLog<A>
        ensures { result ≡ empty_held_history }
    {
        HeldLog {
            log: Log::new(alloc),
            before: None,
            snapshot: Snapshot::from_vec(Vec::new(alloc)),
        }
    }

    /// Returns the log as it is now, which may be in the middle of a step.
    ///
    /// Rules: The replicated log 1
    pub fn log(&self) -> &Log<A>
        ensures { result.now ≡ self.now.log }
    {
        &self.log
    }

    /// Returns the log as it was at the end of the last step, or `None` if the present step has restored no snapshot.
    ///
    /// Rules: The replicated log 6
    pub fn log_before_restore(&self) -> Option<&Log<A>>
        ensures { option_map (λ log. log.now) result ≡ self.now.before }
    {
        self.before.as_ref()
    }

    /// Returns whether the present step has restored a snapshot.
    ///
    /// It is false between steps.
    ///
    /// Rules: The replicated log 6
    pub fn is_restored(&self) -> bool
        ensures { result ≡ is_some self.now.before }
    {
        self.before.is_some()
    }

    /// Returns how many places the snapshot covers that the present step has restored, or `None` if it has restored
    /// none.
    ///
    /// Rules: The replicated log 6 and 18
    pub fn restored_places(&self) -> Option<u64>
        ensures { result ≡ (if is_some self.now.before then Some self.now.log.trimmed else None) }
    {
        if self.before.is_some() {
            Some(self.log.trimmed())
        } else {
            None
        }
    }

    /// Returns the bytes of the snapshot of the dropped places.
    ///
    /// They are empty while no places have been dropped.
    ///
    /// Rules: The replicated log 2 and 20
    pub fn snapshot(&self) -> &[u8]
        ensures { result.now ≡ self.now.snapshot }
    {
        self.snapshot.as_slice()
    }

    /// Adopts a ring's base if it may be adopted, and returns whether it may.
    ///
    /// If it may not, nothing changes. A base that restores the log has a snapshot, which replaces the one before.
    ///
    /// Errors: `Memory` if an allocation fails; nothing has then changed.
    ///
    /// Rules: The replicated log 6 and 8
    pub(crate) fn adopt(&mut self, ring: RingId, base: Base<A>) -> Result<bool, Fault>
        ensures fits { IfOk result (λ fits. fits ≡ is_adoptable self.old.log base) }
        ensures held { OnOk result (is_adoptable self.old.log base ≡ true → self.new ≡ held_log_adopted self.old ring base) }
        ensures front { IsListPrefix (committed_calls (reported_log self.old)) (committed_calls (reported_log self.new)) }
        ensures refused { IfErr result (λ fault. fault ≡ Memory) }
    {
        match self.log.adopt(ring, base)? {
            Adoption::Refused => Ok(false),
            Adoption::Joined => Ok(true),
            Adoption::Restored(snapshot, before) => {
                self.note_restore(snapshot, before);
                Ok(true)
            }
        }
    }

    /// Records that `snapshot` was restored, and keeps `before`, the log as it was before.
    fn note_restore(&mut self, snapshot: Snapshot<A>, before: Log<A>)
        ensures log { self.new.log ≡ self.old.log }
        ensures before { self.new.before ≡ Some (unwrap_or self.old.before before) }
        ensures snapshot { self.new.snapshot ≡ snapshot }
    {
        self.snapshot = snapshot;
        if self.before.is_none() {
            self.before = Some(before);
        }
    }

    /// Appends a call, unless the log would then have more than 2^62 places, and returns whether it was appended.
    ///
    /// If it wasn't, nothing changes.
    ///
    /// Errors: `Memory` if an allocation fails; nothing has then changed.
    ///
    /// Rules: The replicated log 9 and 11
    pub(crate) fn append_call(&mut self, call: Call<A>) -> Result<bool, Fault>
        ensures fits { IfOk result (λ fits. fits ≡ is_log_length (log_length self.old.log + 1)) }
        ensures held { OnOk result (is_log_length (log_length self.old.log + 1) ≡ true
            → self.new ≡ record self.old { log = appended self.old.log (call ∷ []) }) }
        ensures front { IsListPrefix (committed_calls (reported_log self.old)) (committed_calls (reported_log self.new)) }
        ensures refused { IfErr result (λ fault. fault ≡ Memory) }
    {
        self.log.append(call)
    }

    /// Appends calls, in order, unless the log would then have more than 2^62 places, and returns whether they were
    /// appended.
    ///
    /// If they weren't, nothing changes.
    ///
    /// Errors: `Memory` if an allocation fails; nothing has then changed.
    ///
    /// Rules: The replicated log 9 and 11
    pub(crate) fn append_call_list(&mut self, calls: &[Call<A>]) -> Result<bool, Fault>
        ensures fits { IfOk result (λ fits. fits ≡ is_log_length (log_length self.old.log + length calls.now)) }
        ensures held { OnOk result (is_log_length (log_length self.old.log + length calls.now) ≡ true
            → self.new ≡ record self.old { log = appended self.old.log calls.now }) }
        ensures front { IsListPrefix (committed_calls (reported_log self.old)) (committed_calls (reported_log self.new)) }
        ensures refused { IfErr result (λ fault. fault ≡ Memory) }
    {
        self.log.append_all_if_room(calls)
    }

    /// Raises the log's committed length to `n`, or to its length if that is less.
    ///
    /// A smaller `n` changes nothing: the committed length never falls.
    ///
    /// Rules: The replicated log 12
    pub(crate) fn commit_upto(&mut self, n: u64)
        ensures held { self.new ≡ record self.old { log = committed_upto self.old.log n } }
        ensures front { IsListPrefix (committed_calls (reported_log self.old)) (committed_calls (reported_log self.new)) }
    {
        self.log.commit_upto(n);
    }

    /// Drops the committed places, keeps `snapshot` for them, and returns a log of only the dropped places.
    ///
    /// Errors: `Memory` if an allocation fails; nothing has then changed.
    ///
    /// Rules: The replicated log 20
    pub(crate) fn drop_committed(&mut self, snapshot: Snapshot<A>) -> Result<Log<A>, Fault>
        ensures dropped { IfOk result (λ log. log ≡ committed_log self.old.log) }
        ensures ok { OnOk result (self.new ≡ held_log_trimmed self.old (Some snapshot)) }
        ensures err { OnErr result (self.new ≡ self.old) }
        ensures refused { IfErr result (λ fault. fault ≡ Memory) }
    {
        let dropped = self.log.trim()?;
        self.snapshot = snapshot;
        Ok(dropped)
    }

    /// Ends a step: drops the log from before a restore, if there is one.
    ///
    /// Does not allocate.
    ///
    /// Rules: The replicated log 6
    pub(crate) fn end_step(&mut self)
        ensures { self.new ≡ record self.old { before = None } }
    {
        if self.before.is_some() {
            self.before = None;
        }
    }
}
