//! The session table: an object with the sessions of its clients.
//!
//! Rules: Sessions 2 to 5, 8 and 12

ghost use Rattle.std.specs.Prelude.{◌≡◌, ◌-◌, ◌^◌, min, ◌<◌, ◌≤◌, ◌∷◌, [], ◌++◌, List, length, take, vec_len, IfOk, IfErr, OnOk, OnErr, Some, None, IsSome};
ghost use Rattle.ring_base.specs.declared.fault.Fault.TheVariants.{Memory, SessionsFull};
ghost use Rattle.ring_payload.specs.declared.call.Call.{Call};
ghost use Rattle.ring_object.specs.Snapshots.{IsSnapshotRefusal};
ghost use Rattle.ring_session.specs.Deduplicated.{max_clients};
ghost use Rattle.ring_session.specs.SessionAnswer.{refusal, reply_of_answer, session_answer};
ghost use Rattle.ring_session.specs.Snapshots.{table_snapshot, restored_table};
ghost use Rattle.ring_session.specs.TicketEffects.{numbers_in, table_effects};
ghost use Rattle.ring_session.specs.Table.{opening, session_of, table_answer, table_next, table_after};

use crate::MAX_CLIENTS;
use crate::answer::Answer;
use crate::last_call_bytes::answer_unless_next;
use crate::snapshots::{append_clients, read_clients, split_sessions_snapshot};
use ring_base::Fault;
use ring_object::{Object, append_sized_snapshot, copy_by_snapshot};
use ring_payload::Call;
use ring_session_entry::LastCall;
use std::alloc::Allocator;
use std::collections::BTreeMap;
use std::marker::Model;

/// The session table: an object, and the session of each known client.
///
/// Contracts see it as a `Table`: the known clients, ascending, each with its last call and the reply to it, and the
/// object's content.
///
/// Rules: Sessions 2
#[derive(Drop)]
pub struct Sessions<O: Object> {
    alloc: O::Alloc,
    sessions: BTreeMap<u32, LastCall<O::Alloc>, O::Alloc>,
    object: O,
}

impl<O: Object> Model for Sessions<O> {
    ghost use Rattle.ring_session.specs.Table.{Table, IsTable, table_of};

    ghost Value = { Table O };

    ghost view = { λ s. table_of s.sessions.entries s.object };

    ghost invariant = { λ s. IsTable (table_of s.sessions.entries s.object) };
}

impl<O: Object> Sessions<O> {
    /// Returns a table without known clients, whose object has its start content.
    ///
    /// Errors: `Memory` if an allocation fails.
    ///
    /// Rules: Sessions 2
    pub fn new(alloc: O::Alloc) -> Result<Sessions<O>, Fault>
        ensures ok { IfOk result (λ sessions. sessions ≡ opening O.sequential.initial) }
        ensures refused { IfErr result (λ fault. fault ≡ Memory) }
    {
        let object = O::start(alloc)?;
        Ok(Sessions {
            alloc,
            sessions: BTreeMap::new(alloc),
            object,
        })
    }

    /// Applies a call and returns its answer.
    ///
    /// A call that takes effect is applied to the object and kept with its reply. After every answer except `Done` the
    /// table is unchanged. A call of number 0 is refused: with `Conflict` for an unknown client, with `Stale` for a
    /// known one.
    ///
    /// Errors: `Memory` if an allocation fails; the table is then unchanged.
    ///
    /// Rules: Sessions 1, 3 and 5
    pub fn apply(&mut self, call: &Call<O::Alloc>) -> Result<Answer, Fault>
        ensures answer { IfOk result (λ answer. answer ≡ table_answer O.sequential self.old call.now) }
        ensures ok { OnOk result (self.new ≡ table_next O.sequential self.old call.now) }
        ensures err { OnErr result (self.new ≡ self.old) }
        ensures refused { IfErr result (λ fault. fault ≡ Memory) }

        // After a list of calls, the answer depends only on the list.
        ensures told { (calls : List (Call O.Alloc)) → self.old ≡ table_after O.sequential calls
            → IfOk result (λ answer. session_answer O.sequential (calls ++ call.now ∷ []) (length calls) ≡ Some answer) }

        // A call of number 0 has no reply, and `SessionsFull` comes only with exactly `max_clients` known clients.
        ensures replied_from_one { IfOk result (λ answer. IsSome (reply_of_answer answer) → 1 ≤ call.now.number) }
        ensures full_only_at_limit { IfOk result (λ answer. answer ≡ refusal SessionsFull → length self.old.sessions ≡ max_clients) }
    {
        match self.sessions.get_mut(&call.client) {
            Some(last) => {
                if last.is_next_number(call.number) {
                    Ok(Answer::Done(last.apply(&mut self.object, call)?))
                } else {
                    Ok(answer_unless_next(last, call))
                }
            }
            // An unknown client's last number is 0.
            None => match call.number {
                0 => Ok(Answer::refusal(Fault::Conflict)),
                1 => self.apply_first_call(call),
                _ => Ok(Answer::refusal(Fault::NumberGap)),
            },
        }
    }

    /// Appends the snapshot to `out`: the number of clients, the clients with their last calls, and the object's
    /// snapshot.
    ///
    /// The clients ascend, and the object's snapshot is preceded by its length. [`restore`](Sessions::restore) restores
    /// the table from the snapshot if each kept operation has at most 1,024 bytes, as the operations of valid calls
    /// have (`snapshot_law`).
    ///
    /// Errors: `Memory` if an allocation fails; the bytes of `out` are then unchanged.
    ///
    /// Rules: Sessions 12
    /// Formats: Snapshots
    pub fn snapshot(&self, out: &mut Vec<u8, O::Alloc>) -> Result<(), Fault>
        ensures content { OnOk result (O.is_content self.now.content) }
        ensures ok { OnOk result (out.new.items ≡ out.old.items ++ table_snapshot O.sequential.snapshot_of self.now) }
        ensures err { OnErr result (out.new.items ≡ out.old.items) }
        ensures refused { IfErr result (λ fault. fault ≡ Memory) }
    {
        let start = out.len();
        if let Err(fault) = self.append_snapshot(out) {
            out.truncate(start);
            return Err(fault);
        }
        Ok(())
    }

    /// Appends the snapshot to `out`.
    ///
    /// Errors: `Memory` if an allocation fails; a prefix of the snapshot may then have been appended.
    #[tactic(auto, unfolding(ring_object::specs::Sized::sized))]
    fn append_snapshot(&self, out: &mut Vec<u8, O::Alloc>) -> Result<(), Fault>
        ensures content { OnOk result (O.is_content self.now.content) }
        ensures ok { OnOk result (out.new.items ≡ out.old.items ++ table_snapshot O.sequential.snapshot_of self.now) }
        ensures front { take (vec_len out.old) out.new.items ≡ out.old.items }
        ensures refused { IfErr result (λ fault. fault ≡ Memory) }
    {
        append_clients(out, &self.sessions)?;
        append_sized_snapshot(&self.object, out)
    }

    /// Returns the table whose snapshot is exactly `bytes`, in memory of `alloc`.
    ///
    /// Errors: `BadSnapshot`, exactly if `bytes` isn't a snapshot of such a table. `Memory` if it is one and an
    /// allocation fails.
    ///
    /// Rules: Sessions 12
    /// Formats: Snapshots
    pub fn restore(alloc: O::Alloc, bytes: &[u8]) -> Result<Sessions<O>, Fault>
        ensures ok { IfOk result (λ sessions. restored_table O.sequential.restored bytes.now ≡ Some sessions) }
        ensures refused { IfErr result (IsSnapshotRefusal (restored_table O.sequential.restored bytes.now)) }
    {
        let Some((count, clients, object)) = split_sessions_snapshot(bytes) else {
            return Err(Fault::BadSnapshot);
        };
        let object = O::restore(alloc, object)?;
        let sessions = read_clients(alloc, count, clients)?;
        Ok(Sessions {
            alloc,
            sessions,
            object,
        })
    }

    /// Returns a copy of the table.
    ///
    /// The copy's object is restored from a snapshot of this table's object.
    ///
    /// Errors: `Memory` if an allocation fails.
    ///
    /// Rules: Objects 3
    pub fn copy(&self) -> Result<Sessions<O>, Fault>
        ensures ok { IfOk result (λ copy. copy ≡ self.now) }
        ensures refused { IfErr result (λ fault. fault ≡ Memory) }
    {
        Ok(Sessions {
            alloc: self.alloc,
            sessions: self.sessions.clone()?,
            object: copy_by_snapshot(self.alloc, &self.object)?,
        })
    }

    /// Returns the number of calls that have taken effect: the sum of the clients' last numbers.
    ///
    /// It includes the calls before a snapshot from which the table was restored. It saturates at `u64::MAX`.
    ///
    /// Rules: Sessions 2
    pub fn effect_count(&self) -> u64
        ensures { result ≡ table_effects self.now }
    {
        sum_of_numbers(&self.sessions)
    }

    /// Applies a client's first call, if there is room for the client.
    ///
    /// The session is inserted before the object applies the operation, so that nothing can fail after that; it is
    /// removed again if the object refuses.
    ///
    /// Errors: `Memory` if an allocation fails; the table is then unchanged.
    fn apply_first_call(&mut self, call: &Call<O::Alloc>) -> Result<Answer, Fault>
        requires unknown { session_of self.old call.now.client ≡ None }
        requires first { call.now.number ≡ 1 }
        ensures answer { IfOk result (λ answer. answer ≡ table_answer O.sequential self.old call.now) }
        ensures ok { OnOk result (self.new ≡ table_next O.sequential self.old call.now) }
        ensures err { OnErr result (self.new ≡ self.old) }
        ensures refused { IfErr result (λ fault. fault ≡ Memory) }
        ensures full_only_at_limit { IfOk result (λ answer. answer ≡ refusal SessionsFull → length self.old.sessions ≡ max_clients) }
    {
        if self.sessions.len() >= MAX_CLIENTS {
            return Ok(Answer::refusal(Fault::SessionsFull));
        }
        let last = self
            .sessions
            .entry(call.client)?
            .or_insert(LastCall::before_first_call(self.alloc));
        match last.apply(&mut self.object, call) {
            Ok(reply) => Ok(Answer::Done(reply)),
            Err(fault) => {
                self.sessions.remove(&call.client);
                Err(fault)
            }
        }
    }
}

/// Returns the sum of the clients' last numbers, which saturates at `u64::MAX`.
fn sum_of_numbers<A: Allocator + Copy>(sessions: &BTreeMap<u32, LastCall<A>, A>) -> u64
    ensures { result ≡ min (2 ^ 64 - 1) (numbers_in sessions.now.entries) }
{
    let mut sum = 0u64;
    for (_, last) in sessions.iter() {
        sum = sum.saturating_add(last.number());
    }
    sum
}
