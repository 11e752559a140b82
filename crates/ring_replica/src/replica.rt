//! The replica: its step in two parts, and its reports.
//!
//! Rules: The replicated log 8 to 15, 18 and 20

ghost use Rattle.std.specs.Prelude.{◌≡◌, ◌+◌, ◌-◌, ◌^◌, [], true, false, fold, min, is_some, option_map, if◌then◌else◌, length, not, IfOk, IfErr};
ghost use Rattle.std.specs.Prelude.{IfSome, OnOk, OnErr, Some, None};
ghost use Rattle.ring_base.specs.declared.fault.Fault.TheVariants.{Memory};
ghost use Rattle.ring_session.specs.Table.{table_next};
ghost use Rattle.ring_session.specs.TicketsState.{answers_after_committed, pending_from};
ghost use Rattle.ring_session.specs.TicketEffects.{done_after, table_effects};
ghost use Rattle.ring_log.specs.KnownLog.{retained_log};
ghost use Rattle.ring_log.specs.Logs.{committed_log, is_due_to_trim};
ghost use Rattle.ring_replication.specs.NodeSpec.{effects_at, is_closed};
ghost use Rattle.ring_replication.specs.Replications.{rises, replication_trimmed, HasSoundEpochs};
ghost use Rattle.ring_replica.specs.Replicas.{IsBetweenSteps, replica_opening, replica_known_log, replica_length, replica_trimmed, replica_committed};
ghost use Rattle.ring_replica.specs.Replicas.{replica_stopped, replica_reply, submit_refusal, is_running_some, has_adopted_running, replica_with_ticket};
ghost use Rattle.ring_replica.specs.Replicas.{calls_leaving, newly_committed_calls, current_log, log_before_step, is_table_held, table_held, snapshot_if_due};
ghost use Rattle.ring_replica.specs.Replicas.{replica_step, replica_done, IsStepIdle};

use crate::replica_history::{
    ReplicaHistory, history_after_step, history_after_ticket, history_opening,
};
use crate::replica_output::ReplicaOutput;
use ring_base::{Fault, Fixed, Ghost, Proc, RingId, pair_result};
use ring_core_spec::Out;
use ring_log::{Log, Snapshot};
use ring_object::Object;
use ring_payload::{Call, MAX_SNAPSHOT};
use ring_replication::{HeldLog, Replication};
use ring_session::{Answer, PendingTicket, Sessions, Ticket, TicketAnswer, Tickets, answers_of};
use std::alloc::{AllocError, Allocator};
use std::marker::Model;
use std::mem;

/// All of a node except its core: its replicated log, its tickets, and its sessions with their object.
///
/// A step has two parts. `step` takes the outputs of the core and returns the payloads to be handed to the core. Once
/// these have been handed over, `end_replica_step` ends the step. Until then the replica's reports show its state from
/// before the step. All memory is allocated in the first part, even that for dropping committed places.
///
/// Contracts see the node's epochs, its tickets, the calls that it did and the answers that it gave.
///
/// Rules: The replicated log 1, 12, 14 and 20
#[derive(Drop)]
pub struct Replica<O: Object> {
    alloc: O::Alloc,
    replication: Replication<O::Alloc>,
    sessions: Sessions<O>,
    tickets: Tickets<O::Alloc>,
    /// The log of the places that the unfinished step drops, or `None` if it drops none.
    log_being_dropped: Option<Log<O::Alloc>>,
    /// The log's length, committed length and trimmed length at the end of the last finished step.
    log_len_at_step: u64,
    committed_len: u64,
    trimmed: u64,
    /// The number of committed calls that took effect: by the end of the last finished step, and by that of the
    /// unfinished one.
    effect_count: u64,
    effects_in_step: u64,
    stopped: bool,
    history: Ghost<ReplicaHistory<O::Alloc>>,
}

impl<O: Object> Model for Replica<O> {
    ghost use Rattle.ring_replica.specs.Replicas.{Replica as ReplicaValue, IsCounted, replica_view};

    ghost Value = { ReplicaValue O.Alloc };

    ghost view = { λ r. replica_view r.replication r.log_being_dropped r.committed_len r.stopped r.history.value };

    ghost invariant = { λ r. IsCounted O.sequential r.replication r.sessions r.tickets r.log_being_dropped r.log_len_at_step r.committed_len r.trimmed
        r.effect_count r.effects_in_step r.stopped r.history.value };
}

impl<O: Object> Replica<O> {
    /// Creates the replica of processor `me` at the opening: an empty log, no tickets, and the object in its start
    /// state.
    ///
    /// That `me` is in the group isn't checked.
    ///
    /// Errors: `Memory` if an allocation fails.
    ///
    /// Rules: The replicated log 1
    pub fn new(alloc: O::Alloc, fixed: Fixed, me: Proc) -> Result<Replica<O>, Fault>
        ensures ok { IfOk result (λ replica. replica ≡ replica_opening fixed me) }
        ensures refused { IfErr result (λ fault. fault ≡ Memory) }
    {
        Ok(Replica {
            alloc,
            tickets: Tickets::new(alloc)?,
            sessions: Sessions::new(alloc)?,
            replication: Replication::new(alloc, fixed, me),
            log_being_dropped: None,
            log_len_at_step: 0,
            committed_len: 0,
            trimmed: 0,
            effect_count: 0,
            effects_in_step: 0,
            stopped: false,
            history: history_opening(me),
        })
    }

    /// Returns a copy that is independent of this replica.
    ///
    /// Its object is restored from a snapshot of this one's.
    ///
    /// Errors: `Memory` if an allocation fails; this replica is unchanged.
    ///
    /// Rules: Objects 3; Sessions 12
    pub fn copy(&self) -> Result<Replica<O>, Fault>
        ensures ok { IfOk result (λ copy. copy ≡ self.now) }
        ensures refused { IfErr result (λ fault. fault ≡ Memory) }
    {
        let history = self.history.clone()?;
        let (tickets, log_being_dropped) = copy_tickets(&self.tickets, &self.log_being_dropped)?;
        let (replication, sessions) = copy_replication(&self.replication, &self.sessions)?;
        Ok(Replica {
            alloc: self.alloc,
            history,
            log_being_dropped,
            tickets,
            replication,
            sessions,
            log_len_at_step: self.log_len_at_step,
            committed_len: self.committed_len,
            trimmed: self.trimmed,
            effect_count: self.effect_count,
            effects_in_step: self.effects_in_step,
            stopped: self.stopped,
        })
    }

    /// Returns Ok if a ticket may be given now.
    ///
    /// Changes nothing, and does not allocate.
    ///
    /// Errors: `Stopped` if the replica has stopped. Otherwise `PendingFull` if 64 tickets are unanswered or 2^62 have
    /// been given.
    ///
    /// Rules: The replicated log 13
    pub fn check_ticket_available(&self) -> Result<(), Fault>
        ensures ok { OnOk result (submit_refusal self.now ≡ None) }
        ensures err { IfErr result (λ fault. submit_refusal self.now ≡ Some fault) }
    {
        if self.stopped {
            return Err(Fault::Stopped);
        }
        self.tickets.check()
    }

    /// Returns whether the node has adopted the running ring, so that a submitted call is sent at once.
    ///
    /// Otherwise the call waits. `running` must be the ring in which the core is Operational, or `None` in every other
    /// state. The replica must not have stopped, and must be between two steps.
    ///
    /// Rules: The replicated log 10
    pub fn has_adopted(&self, running: &Option<RingId>) -> bool
        requires done { IsBetweenSteps self.now }
        requires runs { self.now.stopped ≡ false }
        ensures { result ≡ has_adopted_running running.now self.now }
    {
        is_last_primary_running(running, self.replication.stored_log().log().last_primary())
    }

    /// Gives a submitted call the next ticket and returns it.
    ///
    /// Tickets are numbered from 0. `check_ticket_available` must have returned Ok, and the replica must be between two
    /// steps. `running` is as for [`has_adopted`](Replica::has_adopted). If the running ring is adopted, the caller
    /// must hand the call to the core; the replica records that it does. Does not allocate.
    ///
    /// Rules: The replicated log 10 and 13
    pub fn give_ticket(&mut self, running: &Option<RingId>, call: Call<O::Alloc>) -> Ticket
        requires done { IsBetweenSteps self.old }
        requires open { submit_refusal self.old ≡ None }
        ensures ticket { result ≡ length self.old.tickets }
        ensures replica { self.new ≡ replica_with_ticket running.now self.old call }
    {
        let runs = self.has_adopted(running);
        self.history = history_after_ticket(&self.history, &call, runs);
        self.replication.record_call(&call, runs);
        self.tickets.give_ticket(call)
    }

    /// Returns whether the replica's step may be skipped after a core's step without outputs, since it would change
    /// nothing.
    ///
    /// It is false if committed places are due to be dropped. The replica must not have stopped, and must be between
    /// two steps. Does not allocate.
    ///
    /// Rules: The replicated log 20
    pub fn is_step_idle(&self) -> bool
        requires done { IsBetweenSteps self.now }
        requires runs { self.now.stopped ≡ false }
        ensures value { result ≡ not (is_due_to_trim (retained_log (replica_known_log self.now))) }
        ensures is_step_idle { result ≡ true → IsStepIdle O.sequential self.now }
        ensures steady { HasSoundEpochs self.now.group self.now.epochs }
    {
        !self.replication.stored_log().log().is_due_to_trim()
    }

    /// Applies the outputs of a core's step and returns the replica's output.
    ///
    /// `end_replica_step` must follow and ends the step.
    ///
    /// `running` is the ring in which the core is Operational after its step, or `None` in every other state. The
    /// replica must not have stopped, and must be between two steps. No `Safe` in `outs` may have a lower mark than the
    /// one before in its ring. The replica stops, with an empty output, if a base may not be adopted, its bytes aren't
    /// a snapshot, or the log would be too long.
    ///
    /// Errors: `Memory` if an allocation fails; the replica has then stopped, with its log from before the step.
    ///
    /// Rules: The replicated log 8, 9, 12, 14, 18 and 20
    pub fn step(
        &mut self,
        running: &Option<RingId>,
        outs: &[Out<O::Alloc>],
    ) -> Result<ReplicaOutput<O::Alloc>, Fault>
        requires done { IsBetweenSteps self.old }
        requires runs { self.old.stopped ≡ false }
        requires rises { rises self.old.epochs outs.now ≡ true }
        ensures ok { OnOk result (self.new ≡ (replica_step O.sequential running.now self.old outs.now).replica) }
        ensures due { IfOk result (λ replica_output. replica_output.due.items ≡ (replica_step O.sequential running.now self.old outs.now).due) }
        ensures answers { IfOk result (λ replica_output. replica_output.answers.items ≡ (replica_step O.sequential running.now self.old outs.now).answers) }
        ensures committed { IfOk result (λ replica_output. replica_output.committed.items ≡ (replica_step O.sequential running.now self.old outs.now).replica.doing) }
        ensures restored { IfOk result (λ replica_output. replica_output.restored ≡ (replica_step O.sequential running.now self.old outs.now).restored) }
        ensures steady { OnOk result (HasSoundEpochs self.old.group self.old.epochs) }
        ensures err { OnErr result (self.new ≡ replica_stopped self.old) }
        ensures refused { IfErr result (λ fault. fault ≡ Memory) }
    {
        let mut replica_output = ReplicaOutput::new(self.alloc);
        self.step_into(running, outs, &mut replica_output)?;
        Ok(replica_output)
    }

    /// Does the same as `step`, into an empty output.
    fn step_into(
        &mut self,
        running: &Option<RingId>,
        outs: &[Out<O::Alloc>],
        replica_output: &mut ReplicaOutput<O::Alloc>,
    ) -> Result<(), Fault>
        requires done { IsBetweenSteps self.old }
        requires runs { self.old.stopped ≡ false }
        requires rises { rises self.old.epochs outs.now ≡ true }
        requires no_due { replica_output.old.due.items ≡ [] }
        requires no_answers { replica_output.old.answers.items ≡ [] }
        requires none_committed { replica_output.old.committed.items ≡ [] }
        requires none_restored { replica_output.old.restored ≡ None }
        ensures ok { OnOk result (self.new ≡ (replica_step O.sequential running.now self.old outs.now).replica) }
        ensures due { OnOk result (replica_output.new.due.items ≡ (replica_step O.sequential running.now self.old outs.now).due) }
        ensures answers { OnOk result (replica_output.new.answers.items ≡ (replica_step O.sequential running.now self.old outs.now).answers) }
        ensures committed { OnOk result (replica_output.new.committed.items ≡ (replica_step O.sequential running.now self.old outs.now).replica.doing) }
        ensures restored { OnOk result (replica_output.new.restored ≡ (replica_step O.sequential running.now self.old outs.now).restored) }
        ensures steady { OnOk result (HasSoundEpochs self.old.group self.old.epochs) }
        ensures err { OnErr result (self.new ≡ replica_stopped self.old) }
        ensures refused { IfErr result (λ fault. fault ≡ Memory) }
    {
        // No effect at run time: the proof uses it to show that the replication is consistent, as `apply_outputs`
        // requires.
        let is_consistent = self.replication.is_consistent();
        prove!(is_consistent);
        self.stopped = true;
        self.replication.apply_outputs(
            running,
            self.tickets.pending(),
            self.committed_len,
            outs,
            &mut replica_output.due,
        )?;
        if !self.replication.is_consistent() {
            replica_output.due.clear();
            return Ok(());
        }
        let effects_in_step = apply_committed(
            self.alloc,
            self.replication.stored_log(),
            &mut self.sessions,
            self.tickets.pending(),
            self.committed_len,
            self.effect_count,
            replica_output,
        )?;
        let Some(effects_in_step) = effects_in_step else {
            replica_output.due.clear();
            return Ok(());
        };
        replica_output.restored = self.replication.stored_log().restored_places();
        self.replication.record_sends(&replica_output.due);
        trim_if_due(
            self.alloc,
            &mut self.replication,
            &self.sessions,
            &mut self.log_being_dropped,
        )?;
        self.effects_in_step = effects_in_step;
        self.stopped = false;
        Ok(())
    }

    /// Ends a step in which `answers` were given, and returns the calls of the places that it dropped, in order.
    ///
    /// `answers` must be those of the output of [`step`](Replica::step), and the output's payloads must have been
    /// handed to the core. The replica's reports then show its state after the step. If no place was dropped, or if the
    /// replica has stopped, the list is empty; in the latter case nothing changes. Does not allocate.
    ///
    /// Rules: The replicated log 18 and 20
    pub fn end_replica_step(
        &mut self,
        answers: &[TicketAnswer<O::Alloc>],
    ) -> Vec<Call<O::Alloc>, O::Alloc>
        ensures replica { self.new ≡ (if self.old.stopped then self.old else replica_done self.old answers.now) }
        ensures dropped { result.items ≡ self.old.leaving }
    {
        if self.stopped {
            return Vec::new(self.alloc);
        }
        let more = newly_committed_calls(
            current_log(self.replication.stored_log(), &self.log_being_dropped),
            self.committed_len,
        );
        self.history = history_after_step(&self.history, self.replication.epochs(), more, answers);
        self.tickets.record_committed_answers(more, answers);
        let log = self.replication.stored_log().log();
        self.log_len_at_step = log.length();
        self.committed_len = log.committed_length();
        self.trimmed = log.trimmed();
        self.effect_count = self.effects_in_step;
        self.replication.end_step();
        take_dropped_calls(self.alloc, &mut self.log_being_dropped)
    }

    /// Stops the replica for good. Its log and its answers stay readable.
    ///
    /// Does nothing if it has already stopped. Does not allocate.
    ///
    /// Rules: Rings and states 12
    pub fn stop(&mut self)
        ensures { self.new ≡ replica_stopped self.old }
    {
        self.stopped = true;
    }

    /// Returns whether the replica has stopped for good.
    ///
    /// It stops when `stop` is called, when a step fails with `Memory`, and in a step whose base may not be adopted,
    /// whose snapshot is malformed, or whose log would become too long. Does not allocate.
    ///
    /// Rules: Rings and states 12; The replicated log 8 and 9; Refusals 6
    pub fn is_stopped(&self) -> bool
        ensures { result ≡ self.now.stopped }
    {
        self.stopped
    }

    /// Returns the answer to a ticket if it is one of the last 64 that were answered here, otherwise `None`.
    ///
    /// Does not allocate.
    ///
    /// Rules: The replicated log 15
    pub fn reply(&self, ticket: Ticket) -> Option<Answer>
        ensures { result ≡ replica_reply self.now ticket }
    {
        self.tickets.reply(ticket)
    }

    /// Returns the calls at the committed places that haven't been dropped, in order, including repeats.
    ///
    /// Does not allocate.
    ///
    /// Rules: The replicated log 18
    pub fn committed(&self) -> &[Call<O::Alloc>]
        ensures { result.now ≡ replica_committed self.now }
    {
        let log = log_before_step(self.replication.stored_log(), &self.log_being_dropped);
        &log.committed_calls()[..(self.committed_len - self.trimmed) as usize]
    }

    /// Returns the number of committed places, including dropped ones.
    ///
    /// It never falls. Does not allocate.
    ///
    /// Rules: The replicated log 12 and 18
    pub fn committed_len(&self) -> u64
        ensures { result ≡ (replica_known_log self.now).committed }
    {
        self.committed_len
    }

    /// Returns the number of committed places that have been dropped, which are those before the first of `committed`.
    ///
    /// It never falls. Does not allocate.
    ///
    /// Rules: The replicated log 18 and 20
    pub fn trimmed(&self) -> u64
        ensures { result ≡ replica_trimmed self.now }
    {
        self.trimmed
    }

    /// Returns the number of the log's places, committed or not, including dropped ones.
    ///
    /// Does not allocate.
    ///
    /// Rules: The replicated log 18
    pub fn log_len(&self) -> u64
        ensures { result ≡ replica_length self.now }
    {
        self.log_len_at_step
    }

    /// Returns the number of unanswered tickets, at most 64.
    ///
    /// Does not allocate.
    ///
    /// Rules: The replicated log 13 and 18
    pub fn waiting(&self) -> usize
        ensures { result ≡ length (pending_from self.now.done 0 self.now.tickets) }
    {
        self.tickets.pending().len()
    }

    /// Returns the number of committed calls that took effect.
    ///
    /// For the places of a restored snapshot, it counts the sum of its clients' last numbers. It saturates at
    /// `u64::MAX`. Does not allocate.
    ///
    /// Rules: Sessions 6; The replicated log 18
    pub fn order_len(&self) -> u64
        ensures { result ≡ effects_at O.sequential (replica_known_log self.now) (replica_known_log self.now).committed }
    {
        self.effect_count
    }
}

/// Returns whether `last` is the running ring.
///
/// False if no ring runs.
fn is_last_primary_running(running: &Option<RingId>, last: Option<RingId>) -> bool
    ensures { result ≡ is_running_some running.now last }
{
    match (running, last) {
        (Some(running), Some(last)) => *running == last,
        _ => false,
    }
}

/// Copies the tickets and the log of the places that a step drops.
fn copy_tickets<A: Allocator + Copy>(
    tickets: &Tickets<A>,
    log_being_dropped: &Option<Log<A>>,
) -> Result<(Tickets<A>, Option<Log<A>>), AllocError>
    ensures tickets { IfOk result (λ copies. copies.0 ≡ tickets.now) }
    ensures log_being_dropped { IfOk result (λ copies. copies.1 ≡ log_being_dropped.now) }
{
    pair_result(tickets.clone()?, log_being_dropped.clone())
}

/// Copies the replication and the sessions.
///
/// Errors: `Memory` if an allocation fails.
fn copy_replication<O: Object>(
    replication: &Replication<O::Alloc>,
    sessions: &Sessions<O>,
) -> Result<(Replication<O::Alloc>, Sessions<O>), Fault>
    ensures replication { IfOk result (λ copies. copies.0 ≡ replication.now) }
    ensures sessions { IfOk result (λ copies. copies.1 ≡ sessions.now) }
    ensures refused { IfErr result (λ fault. fault ≡ Memory) }
{
    pair_result(replication.clone()?, sessions.copy())
}

/// Takes out the calls of the places that a step drops; none if it drops no places.
fn take_dropped_calls<A: Allocator + Copy + Drop>(
    alloc: A,
    log_being_dropped: &mut Option<Log<A>>,
) -> Vec<Call<A>, A>
    ensures calls { result.items ≡ calls_leaving log_being_dropped.old }
    ensures taken { log_being_dropped.new ≡ None }
{
    if log_being_dropped.is_none() {
        return Vec::new(alloc);
    }
    match mem::replace(log_being_dropped, None) {
        Some(log) => log.into_calls(),
        None => Vec::new(alloc),
    }
}

/// Returns the calls at a log's committed places that are neither dropped nor among the first `first` places.
fn newly_committed_calls<A: Allocator + Copy>(log: &Log<A>, first: u64) -> &[Call<A>]
    ensures { result.now ≡ newly_committed_calls first log.now }
{
    let calls = log.committed_calls();
    let start = first.max(log.trimmed()) - log.trimmed();
    &calls[calls.len().min(start as usize)..]
}

/// Returns the log that has the places committed now, including those that the unfinished step drops.
fn current_log<'a, A: Allocator + Copy + Drop>(
    held: &'a HeldLog<A>,
    log_being_dropped: &'a Option<Log<A>>,
) -> &'a Log<A>
    ensures { result.now ≡ current_log held.now log_being_dropped.now }
{
    match log_being_dropped {
        Some(log) => log,
        None => held.log(),
    }
}

/// Returns the log that has the places committed at the end of the last finished step.
fn log_before_step<'a, A: Allocator + Copy + Drop>(
    held: &'a HeldLog<A>,
    log_being_dropped: &'a Option<Log<A>>,
) -> &'a Log<A>
    ensures { result.now ≡ log_before_step held.now log_being_dropped.now }
{
    match held.log_before_restore() {
        Some(log) => log,
        None => current_log(held, log_being_dropped),
    }
}

/// Restores the sessions if the step restored the log, then applies the calls after the first `committed` places.
///
/// Stores their answers and these calls in `replica_output`. Returns the number of calls that took effect by then.
/// Returns `None`, with `replica_output` unchanged, if the restored bytes aren't a snapshot.
///
/// Errors: `Memory` if an allocation fails.
fn apply_committed<O: Object>(
    alloc: O::Alloc,
    held: &HeldLog<O::Alloc>,
    sessions: &mut Sessions<O>,
    pending: &[PendingTicket<O::Alloc>],
    committed: u64,
    effects: u64,
    replica_output: &mut ReplicaOutput<O::Alloc>,
) -> Result<Option<u64>, Fault>
    ensures fits { IfOk result (λ effects_in_step. is_some effects_in_step ≡ is_table_held O.sequential held.now) }
    ensures table { OnOk result (is_table_held O.sequential held.now ≡ true
        → sessions.new ≡ fold (table_next O.sequential) (table_held O.sequential held.now sessions.old) (newly_committed_calls committed held.now.log)) }
    ensures answers { OnOk result (is_table_held O.sequential held.now ≡ true → replica_output.new.answers.items
        ≡ answers_after_committed O.sequential (table_held O.sequential held.now sessions.old) pending.now [] (newly_committed_calls committed held.now.log)) }
    ensures committed { OnOk result (is_table_held O.sequential held.now ≡ true → replica_output.new.committed.items ≡ newly_committed_calls committed held.now.log) }
    ensures effects_in_step { IfOk result (λ effects_in_step. IfSome effects_in_step (λ n. n
        ≡ min (2 ^ 64 - 1) ((if is_some held.now.before then table_effects (table_held O.sequential held.now sessions.old) else effects)
        + done_after O.sequential (table_held O.sequential held.now sessions.old) (newly_committed_calls committed held.now.log)))) }
    ensures nothing { OnOk result (is_table_held O.sequential held.now ≡ false → replica_output.new ≡ replica_output.old) }
    ensures due { OnOk result (replica_output.new.due.items ≡ replica_output.old.due.items) }
    ensures refused { IfErr result (λ fault. fault ≡ Memory) }
{
    let fits = restore_sessions_if_due(alloc, held, sessions)?;
    if !fits {
        return Ok(None);
    }
    replica_output.committed = copy_newly_committed(alloc, held.log(), committed)?;
    let effects = effects_after_restore(held, sessions, effects);
    let (answers, effects_in_step) = new_answers(
        alloc,
        sessions,
        pending,
        held.log(),
        committed,
        effects,
    )?;
    replica_output.answers = answers;
    Ok(Some(effects_in_step))
}

/// Copies the calls at a log's committed places that are neither dropped nor among the first `committed` places.
///
/// Errors: `Memory` if an allocation fails.
fn copy_newly_committed<A: Allocator + Copy + Drop>(
    alloc: A,
    log: &Log<A>,
    committed: u64,
) -> Result<Vec<Call<A>, A>, Fault>
    ensures calls { IfOk result (λ calls. calls.items ≡ newly_committed_calls committed log.now) }
    ensures refused { IfErr result (λ fault. fault ≡ Memory) }
{
    Ok(newly_committed_calls(log, committed).to_vec(alloc)?)
}

/// Restores the sessions if the step restored the log.
///
/// Returns false if the bytes aren't a snapshot.
///
/// Errors: `Memory` if an allocation fails.
fn restore_sessions_if_due<O: Object>(
    alloc: O::Alloc,
    held: &HeldLog<O::Alloc>,
    sessions: &mut Sessions<O>,
) -> Result<bool, Fault>
    ensures fits { IfOk result (λ fits. fits ≡ is_table_held O.sequential held.now) }
    ensures table { OnOk result (is_table_held O.sequential held.now ≡ true → sessions.new ≡ table_held O.sequential held.now sessions.old) }
    ensures refused { IfErr result (λ fault. fault ≡ Memory) }
{
    if !held.is_restored() {
        return Ok(true);
    }
    match Sessions::restore(alloc, held.snapshot()) {
        Ok(restored) => {
            *sessions = restored;
            Ok(true)
        }
        Err(Fault::BadSnapshot) => Ok(false),
        Err(fault) => Err(fault),
    }
}

/// Returns the number of calls that took effect: that of the sessions if they were restored, otherwise `effects`.
fn effects_after_restore<O: Object>(
    held: &HeldLog<O::Alloc>,
    sessions: &Sessions<O>,
    effects: u64,
) -> u64
    ensures { result ≡ (if is_some held.now.before then table_effects sessions.now else effects) }
{
    if held.is_restored() {
        sessions.effect_count()
    } else {
        effects
    }
}

/// Applies the calls at the committed places after the first `committed` to the sessions.
///
/// Returns the answers to tickets, and the number of calls that took effect by then. `effects` is the number before.
///
/// Errors: `Memory` if an allocation fails.
fn new_answers<O: Object>(
    alloc: O::Alloc,
    sessions: &mut Sessions<O>,
    pending: &[PendingTicket<O::Alloc>],
    log: &Log<O::Alloc>,
    committed: u64,
    effects: u64,
) -> Result<(Vec<TicketAnswer<O::Alloc>, O::Alloc>, u64), Fault>
    ensures table { OnOk result (sessions.new ≡ fold (table_next O.sequential) sessions.old (newly_committed_calls committed log.now)) }
    ensures answers { IfOk result (λ given. given.0.items ≡ answers_after_committed O.sequential sessions.old pending.now [] (newly_committed_calls committed log.now)) }
    ensures effects { IfOk result (λ given. given.1 ≡ min (2 ^ 64 - 1) (effects + done_after O.sequential sessions.old (newly_committed_calls committed log.now))) }
    ensures refused { IfErr result (λ fault. fault ≡ Memory) }
{
    let calls = newly_committed_calls(log, committed);
    let (answers, more) = answers_of(alloc, sessions, pending, calls)?;
    Ok((answers, effects.saturating_add(more)))
}

/// Drops the committed places if they are due.
///
/// `log_being_dropped`, which must be `None`, is then their log.
///
/// Errors: `Memory` if an allocation fails; nothing is dropped.
///
/// Rules: The replicated log 20
fn trim_if_due<O: Object>(
    alloc: O::Alloc,
    replication: &mut Replication<O::Alloc>,
    sessions: &Sessions<O>,
    log_being_dropped: &mut Option<Log<O::Alloc>>,
) -> Result<(), Fault>
    requires consistent { replication.old.consistent ≡ true }
    requires none { log_being_dropped.old ≡ None }
    ensures dropped { OnOk result (log_being_dropped.new ≡ option_map (λ bytes. committed_log replication.old.held.log)
        (snapshot_if_due O.sequential (is_closed replication.old.group replication.old.epochs) replication.old.held.log sessions.now)) }
    ensures ok { OnOk result (replication.new
        ≡ replication_trimmed replication.old (snapshot_if_due O.sequential (is_closed replication.old.group replication.old.epochs) replication.old.held.log sessions.now)) }
    ensures err { OnErr result (replication.new ≡ replication.old) }
    ensures stays { OnErr result (log_being_dropped.new ≡ None) }
    ensures refused { IfErr result (λ fault. fault ≡ Memory) }
{
    if !replication.stored_log().log().is_due_to_trim() {
        return Ok(());
    }
    let closed = replication.is_exchange_closed();
    let snapshot = snapshot_if_due(alloc, closed, replication.stored_log().log(), sessions)?;
    *log_being_dropped = replication.trim(snapshot)?;
    Ok(())
}

/// Returns the snapshot of the sessions if the committed places are due to be dropped, otherwise `None`.
///
/// They are due if no exchange is open, enough of them are kept, and the snapshot isn't too long.
///
/// Errors: `Memory` if an allocation fails.
fn snapshot_if_due<O: Object>(
    alloc: O::Alloc,
    closed: bool,
    log: &Log<O::Alloc>,
    sessions: &Sessions<O>,
) -> Result<Option<Snapshot<O::Alloc>>, Fault>
    ensures snapshot { IfOk result (λ snapshot. snapshot ≡ snapshot_if_due O.sequential closed log.now sessions.now) }
    ensures refused { IfErr result (λ fault. fault ≡ Memory) }
{
    if !closed || !log.is_due_to_trim() {
        return Ok(None);
    }
    let mut bytes = Vec::new(alloc);
    sessions.snapshot(&mut bytes)?;
    if bytes.len() > MAX_SNAPSHOT as usize {
        return Ok(None);
    }
    Ok(Some(Snapshot::from_vec(bytes)))
}
