//! A node's log, driven by the outputs of its core.
//!
//! `apply_message_in_ring` and `install_ring` are functions of their own to keep their large stack slots out of their
//! caller.
//!
//! Rules: The replicated log 1, 2, 7 to 12 and 20

ghost use Rattle.std.specs.Prelude.{◌≡◌, ◌++◌, ◌&&◌, [], ◌∷◌, true, length, is_some, option_map, None, IfOk, IfErr, OnOk, OnErr};
ghost use Rattle.ring_base.specs.Prefixes.{IsListPrefix};
ghost use Rattle.ring_base.specs.declared.fault.Fault.TheVariants.{Memory};
ghost use Rattle.ring_log.specs.Logs.{committed_calls, committed_upto, committed_log, is_due_to_trim};
ghost use Rattle.ring_log.specs.Epochs.{epochs_with_message, epochs_with_mark, epochs_with_sends, epoch_opening};
ghost use Rattle.ring_log.specs.KnownLog.{is_known_log_sound, known_log_of, retained_log};
ghost use Rattle.ring_replication.specs.Replications.{replication_opening, replication_trimmed, StepContext as OneStepContext, due_sends_on_message, due_sends_at, due_sends_by};
ghost use Rattle.ring_replication.specs.Replications.{is_running, is_risen, rises_at, rises, handed_if, covered_places, watermarks_above, reported_log, IsRestoredSnapshotHeld, IsHeldLogContinued, HasSoundEpochs};
ghost use Rattle.ring_node_spec.specs.Nodes.{is_closed};
ghost use Rattle.ring_node_spec.specs.DueSends.{due_at_regular};
ghost use Rattle.ring_node_spec.specs.EpochHistories.{epochs_after_event, epochs_after};

use crate::delivery_context::DeliveryContext;
use crate::epoch_history::{
    EpochHistory, history_opening_of, history_with_call, history_with_epoch, history_with_mark,
    history_with_message, history_with_sends, history_with_trim,
};
use crate::exchange_stage::{ExchangeStage, opening_stage};
use crate::held_log::HeldLog;
use crate::log_watermark::{LogWatermark, copy_watermarks, pop_covered};
use crate::message_effects::{apply_message, watermark_at};
use ring_base::{Fault, Fixed, Ghost, Proc, ProcSet, RingId};
use ring_log::{Log, Snapshot};
use ring_node_spec::Out;
use ring_payload::{Call, Payload};
use ring_session::PendingTicket;
use ring_wire::Message;
use std::alloc::{AllocError, Allocator, Global};
use std::collections::VecDeque;
use std::marker::Model;

/// A node's replicated log, which follows the outputs of the node's core.
///
/// It has the stored log, the stage of the newest ring's exchange, that ring's safe mark, and the log's length after
/// each message that isn't safe yet. Contracts see the node's history, the stored log, and whether the log is
/// consistent.
///
/// The log becomes inconsistent if a base lacks committed places, or if the log would be too long. Then, and after
/// `Memory`, only the places committed before the step are specified.
///
/// Rules: The replicated log 1, 8, 9 and 12
#[derive(Drop)]
pub struct Replication<A: Allocator + Copy + Drop = Global> {
    alloc: A,
    fixed: Fixed,
    me: Proc,
    held: HeldLog<A>,
    ring: RingId,
    stage: ExchangeStage<A>,
    mark: u64,
    watermarks: VecDeque<LogWatermark, A>,
    consistent: bool,
    epochs: Ghost<EpochHistory<A>>,
}

impl<A: Allocator + Copy + Drop> Model for Replication<A> {
    ghost use Rattle.ring_replication.specs.Replications.{Replication as ReplicationValue, IsReplicationConsistent};

    ghost Value = { ReplicationValue A };

    ghost view = { λ c. record { group = c.fixed; me = c.me; epochs = c.epochs.value; held = c.held; consistent = c.consistent } };

    ghost invariant = { λ c. IsReplicationConsistent c.fixed c.epochs.value c.consistent c.held c.ring c.stage c.mark c.watermarks.items };
}

impl<A: Allocator + Copy + Drop> Clone for Replication<A> {
    ghost is_clone = { λ replication copy. copy ≡ replication };

    fn clone(&self) -> Result<Replication<A>, AllocError> {
        Ok(Replication {
            alloc: self.alloc,
            fixed: self.fixed,
            me: self.me,
            ring: self.ring,
            mark: self.mark,
            consistent: self.consistent,
            epochs: self.epochs.clone()?,
            watermarks: copy_watermarks(&self.watermarks)?,
            stage: self.stage.clone()?,
            held: self.held.clone()?,
        })
    }
}

impl<A: Allocator + Copy + Drop> Replication<A> {
    /// Creates the replication of processor `me` at the opening, in the ring (0, `me`), with an empty log.
    ///
    /// If `me` alone is primary, the exchange of that ring is open, with nothing received; otherwise there is none.
    /// That `me` is in the group isn't checked. Does not allocate.
    ///
    /// Rules: The replicated log 1
    pub fn new(alloc: A, fixed: Fixed, me: Proc) -> Replication<A>
        ensures { result ≡ replication_opening fixed me }
    {
        Replication {
            alloc,
            fixed,
            me,
            held: HeldLog::new(alloc),
            ring: RingId { seq: 0, rep: me },
            stage: opening_stage(alloc, fixed, ProcSet::singleton(me)),
            mark: 0,
            watermarks: VecDeque::new(alloc),
            consistent: true,
            epochs: history_opening_of(me),
        }
    }

    /// Returns whether the log is valid.
    ///
    /// It is false once a base was complete that may not be adopted, or the log would have been too long, and is never
    /// true again. After `Memory` it is unspecified.
    ///
    /// Rules: The replicated log 8 and 9
    pub fn is_consistent(&self) -> bool
        ensures value { result ≡ self.now.consistent }
        ensures sound { self.now.consistent ≡ true → is_known_log_sound self.now.group self.now.epochs ≡ true }
        ensures steady { self.now.consistent ≡ true → HasSoundEpochs self.now.group self.now.epochs }
        ensures log { self.now.consistent ≡ true → self.now.held.log ≡ retained_log (known_log_of self.now.group self.now.epochs) }
    {
        self.consistent
    }

    /// Returns the stored log, with the snapshot of its dropped places.
    ///
    /// Once the log is inconsistent, only the places committed before the step are specified.
    ///
    /// Rules: The replicated log 1
    pub fn stored_log(&self) -> &HeldLog<A>
        ensures held { result.now ≡ self.now.held }
        ensures log { self.now.consistent ≡ true → self.now.held.log ≡ retained_log (known_log_of self.now.group self.now.epochs) }
        ensures restored { self.now.consistent ≡ true → IsRestoredSnapshotHeld (known_log_of self.now.group self.now.epochs) self.now.held.snapshot }
        ensures steady { self.now.consistent ≡ true → HasSoundEpochs self.now.group self.now.epochs }
        ensures sound { self.now.consistent ≡ true → is_known_log_sound self.now.group self.now.epochs ≡ true }
    {
        &self.held
    }

    /// Returns whether no exchange is open, because that of the newest ring is complete or the ring isn't primary.
    ///
    /// Places may be dropped only then. Once the log is inconsistent, the result is unspecified.
    ///
    /// Rules: The replicated log 4 and 20
    pub fn is_exchange_closed(&self) -> bool
        ensures { self.now.consistent ≡ true → result ≡ is_closed self.now.group self.now.epochs }
    {
        match &self.stage {
            ExchangeStage::NotPrimary | ExchangeStage::Adopted => true,
            ExchangeStage::Exchanging(_) => false,
        }
    }

    /// Returns the node's epochs, one for each ring that it installed, the newest first.
    ///
    /// It is a ghost value, which only contracts can use.
    ///
    /// Rules: Outputs 9
    pub fn epochs(&self) -> &Ghost<EpochHistory<A>>
        ensures { result.now.value ≡ self.now.epochs }
    {
        &self.epochs
    }

    /// Applies the outputs of a core's step, in order, and appends to `due` the payloads to be handed to the core.
    ///
    /// `running_ring` is the ring in which the core is Operational after the step, or `None` in every other state.
    /// `pending` has the node's unanswered tickets, and `committed_before` is the number of places that were committed
    /// before the step. The log must be consistent, and no `Safe` may have a lower mark than the one before in its
    /// ring. Transitional configurations, the rest of an old ring and frames change nothing. If an output makes the log
    /// inconsistent, `is_consistent` is false afterwards, the later outputs are ignored, and the contents of `due` are
    /// unspecified.
    ///
    /// Errors: `Memory` if an allocation fails; the places committed before the step are then unchanged, and all else
    /// is unspecified.
    ///
    /// Rules: The replicated log 1, 2, 7 and 10 to 12
    pub fn apply_outputs(
        &mut self,
        running_ring: &Option<RingId>,
        pending: &[PendingTicket<A>],
        committed_before: u64,
        outs: &[Out<A>],
        due: &mut Vec<Payload<A>, A>,
    ) -> Result<(), Fault>
        requires consistent { self.old.consistent ≡ true }
        requires sound { is_known_log_sound self.old.group self.old.epochs ≡ true }
        requires log { self.old.held.log ≡ retained_log (known_log_of self.old.group self.old.epochs) }
        requires rises { rises self.old.epochs outs.now ≡ true }
        ensures sound { OnOk result (self.new.consistent ≡ is_known_log_sound self.old.group (epochs_after self.old.epochs outs.now)) }
        ensures epochs { OnOk result (self.new.consistent ≡ true → self.new.epochs ≡ epochs_after self.old.epochs outs.now) }
        ensures due { let moment : OneStepContext A = record {
          group = self.old.group;
          me = self.old.me;
          running = running_ring.now;
          pending = pending.now;
          committed = committed_before;
          trimmed = self.old.held.log.trimmed;
          snapshot = self.old.held.snapshot;
        } in
            OnOk result (self.new.consistent ≡ true → due.new.items ≡ due.old.items ++ due_sends_by moment self.old.epochs outs.now) }
        ensures onward { OnOk result (self.new.consistent ≡ true
            → IsHeldLogContinued self.old.held self.new.held (known_log_of self.old.group self.old.epochs) (known_log_of self.new.group self.new.epochs)) }
        ensures front { IsListPrefix (committed_calls (reported_log self.old.held)) (committed_calls (reported_log self.new.held)) }
        ensures group { self.new.group ≡ self.old.group }
        ensures me { self.new.me ≡ self.old.me }
        ensures refused { IfErr result (λ fault. fault ≡ Memory) }
    {
        for out in outs {
            self.apply_output_if_consistent(running_ring, pending, committed_before, out, due)?;
        }
        Ok(())
    }

    /// Applies one output, unless the log is already inconsistent.
    fn apply_output_if_consistent(
        &mut self,
        running_ring: &Option<RingId>,
        pending: &[PendingTicket<A>],
        committed_before: u64,
        out: &Out<A>,
        due: &mut Vec<Payload<A>, A>,
    ) -> Result<(), Fault>
        requires rises { self.old.consistent ≡ true → rises_at self.old.epochs out.now ≡ true }
        ensures sound { OnOk result (self.new.consistent ≡ self.old.consistent && is_known_log_sound self.old.group (epochs_after_event self.old.epochs out.now)) }
        ensures epochs { OnOk result (self.new.consistent ≡ true → self.new.epochs ≡ epochs_after_event self.old.epochs out.now) }
        ensures due { let moment : OneStepContext A = record {
          group = self.old.group;
          me = self.old.me;
          running = running_ring.now;
          pending = pending.now;
          committed = committed_before;
          trimmed = self.old.held.log.trimmed;
          snapshot = self.old.held.snapshot;
        } in
            OnOk result (self.new.consistent ≡ true → due.new.items ≡ due.old.items ++ due_sends_at moment self.old.epochs out.now) }
        ensures onward { OnOk result (self.new.consistent ≡ true
            → IsHeldLogContinued self.old.held self.new.held (known_log_of self.old.group self.old.epochs) (known_log_of self.new.group self.new.epochs)) }
        ensures front { IsListPrefix (committed_calls (reported_log self.old.held)) (committed_calls (reported_log self.new.held)) }
        ensures group { self.new.group ≡ self.old.group }
        ensures me { self.new.me ≡ self.old.me }
        ensures refused { IfErr result (λ fault. fault ≡ Memory) }
    {
        if self.is_consistent() {
            self.apply_output(running_ring, pending, committed_before, out, due)
        } else {
            Ok(())
        }
    }

    /// Applies one output.
    #[tactic(auto, using(crate::proofs::ReplicationSteps::goes_none))]
    fn apply_output(
        &mut self,
        running_ring: &Option<RingId>,
        pending: &[PendingTicket<A>],
        committed_before: u64,
        out: &Out<A>,
        due: &mut Vec<Payload<A>, A>,
    ) -> Result<(), Fault>
        requires consistent { self.old.consistent ≡ true }
        requires sound { is_known_log_sound self.old.group self.old.epochs ≡ true }
        requires log { self.old.held.log ≡ retained_log (known_log_of self.old.group self.old.epochs) }
        requires rises { rises_at self.old.epochs out.now ≡ true }
        ensures sound { OnOk result (self.new.consistent ≡ is_known_log_sound self.old.group (epochs_after_event self.old.epochs out.now)) }
        ensures epochs { OnOk result (self.new.epochs ≡ epochs_after_event self.old.epochs out.now) }
        ensures due { let moment : OneStepContext A = record {
          group = self.old.group;
          me = self.old.me;
          running = running_ring.now;
          pending = pending.now;
          committed = committed_before;
          trimmed = self.old.held.log.trimmed;
          snapshot = self.old.held.snapshot;
        } in
            OnOk result (self.new.consistent ≡ true → due.new.items ≡ due.old.items ++ due_sends_at moment self.old.epochs out.now) }
        ensures onward { OnOk result (self.new.consistent ≡ true
            → IsHeldLogContinued self.old.held self.new.held (known_log_of self.old.group self.old.epochs) (known_log_of self.new.group self.new.epochs)) }
        ensures front { IsListPrefix (committed_calls (reported_log self.old.held)) (committed_calls (reported_log self.new.held)) }
        ensures group { self.new.group ≡ self.old.group }
        ensures me { self.new.me ≡ self.old.me }
        ensures refused { IfErr result (λ fault. fault ≡ Memory) }
    {
        match out {
            Out::Agreed(ring, _, message) => {
                let runs = is_running_ring(running_ring, ring);
                self.apply_message_in_ring(runs, pending, committed_before, message, due)
            }
            Out::Safe(_, upto) => {
                self.raise_safe_mark(*upto);
                Ok(())
            }
            Out::Regular(ring, members) => self.install_ring(*ring, *members, due),
            Out::Trans(_, _, _) => Ok(()),
            Out::Rest(_, _, _) => Ok(()),
            // A frame changes nothing of the log. A node's frames are in a list of their own, so none occurs among
            // these outputs.
            Out::Send(_, _) => Ok(()),
        }
    }

    /// Applies a message of the newest ring.
    #[inline(never)]
    fn apply_message_in_ring(
        &mut self,
        runs: bool,
        pending: &[PendingTicket<A>],
        committed_before: u64,
        message: &Message<A>,
        due: &mut Vec<Payload<A>, A>,
    ) -> Result<(), Fault>
        requires consistent { self.old.consistent ≡ true }
        ensures sound { OnOk result (self.new.consistent ≡ is_known_log_sound self.old.group (epochs_with_message message.now self.old.epochs)) }
        ensures epochs { OnOk result (self.new.epochs ≡ epochs_with_message message.now self.old.epochs) }
        ensures due { let moment : OneStepContext A = record {
          group = self.old.group;
          me = self.old.me;
          running = None;
          pending = pending.now;
          committed = committed_before;
          trimmed = self.old.held.log.trimmed;
          snapshot = self.old.held.snapshot;
        } in
            OnOk result (self.new.consistent ≡ true → due.new.items ≡ due.old.items ++ due_sends_on_message moment runs self.old.epochs message.now (epochs_with_message message.now self.old.epochs)) }
        ensures onward { OnOk result (self.new.consistent ≡ true
            → IsHeldLogContinued self.old.held self.new.held (known_log_of self.old.group self.old.epochs) (known_log_of self.new.group self.new.epochs)) }
        ensures front { IsListPrefix (committed_calls (reported_log self.old.held)) (committed_calls (reported_log self.new.held)) }
        ensures group { self.new.group ≡ self.old.group }
        ensures me { self.new.me ≡ self.old.me }
        ensures refused { IfErr result (λ fault. fault ≡ Memory) }
    {
        self.consistent = false;
        let number = message.number;
        let delivery_context = DeliveryContext {
            ring: self.ring,
            runs,
            me: self.me,
            committed: committed_before,
        };
        let fits = apply_message(
            self.alloc,
            &delivery_context,
            pending,
            &mut self.stage,
            message,
            &mut self.held,
            due,
        )?;
        let places = watermark_at(&self.stage, self.held.log());
        self.watermarks.push_back(LogWatermark { number, places })?;
        commit_covered(&mut self.watermarks, self.mark, &mut self.held);
        self.epochs = history_with_message(&self.epochs, message);
        self.consistent = fits;
        Ok(())
    }

    /// Raises the safe mark to `upto`.
    fn raise_safe_mark(&mut self, upto: u64)
        requires consistent { self.old.consistent ≡ true }
        requires risen { is_risen self.old.epochs upto ≡ true }
        ensures epochs { self.new.epochs ≡ epochs_with_mark upto self.old.epochs }
        ensures sound { is_known_log_sound self.old.group (epochs_with_mark upto self.old.epochs) ≡ true }
        ensures onward { IsHeldLogContinued self.old.held self.new.held (known_log_of self.old.group self.old.epochs) (known_log_of self.new.group self.new.epochs) }
        ensures front { IsListPrefix (committed_calls (reported_log self.old.held)) (committed_calls (reported_log self.new.held)) }
        ensures consistent { self.new.consistent ≡ true }
        ensures group { self.new.group ≡ self.old.group }
        ensures me { self.new.me ≡ self.old.me }
    {
        let epochs = history_with_mark(&self.epochs, upto);
        self.mark = upto;
        commit_covered(&mut self.watermarks, upto, &mut self.held);
        self.epochs = epochs;
    }

    /// Installs a ring of these members.
    ///
    /// If they are primary, its exchange begins, and a Head becomes due.
    #[inline(never)]
    fn install_ring(
        &mut self,
        ring: RingId,
        members: ProcSet,
        due: &mut Vec<Payload<A>, A>,
    ) -> Result<(), Fault>
        requires consistent { self.old.consistent ≡ true }
        ensures epochs { OnOk result (self.new.epochs ≡ epoch_opening ring members ∷ self.old.epochs) }
        ensures due { OnOk result (due.new.items ≡ due.old.items ++ due_at_regular self.old.group members self.old.epochs) }
        ensures sound { OnOk result (is_known_log_sound self.old.group (epoch_opening ring members ∷ self.old.epochs) ≡ true) }
        ensures onward { OnOk result (IsHeldLogContinued self.old.held self.new.held (known_log_of self.old.group self.old.epochs) (known_log_of self.new.group self.new.epochs)) }
        ensures front { IsListPrefix (committed_calls (reported_log self.old.held)) (committed_calls (reported_log self.new.held)) }
        ensures consistent { OnOk result (self.new.consistent ≡ true) }
        ensures group { self.new.group ≡ self.old.group }
        ensures me { self.new.me ≡ self.old.me }
        ensures refused { IfErr result (λ fault. fault ≡ Memory) }
    {
        if self.fixed.is_primary(members) {
            due.push(Payload::Head(self.held.log().head()))?;
        }
        self.ring = ring;
        self.stage = opening_stage(self.alloc, self.fixed, members);
        self.mark = 0;
        self.watermarks.clear();
        self.epochs = history_with_epoch(&self.epochs, self.ring, members);
        Ok(())
    }

    /// Records in the history that the payloads `due` are handed to the core, in this order.
    ///
    /// No effect at run time: only contracts see the history. Nothing else changes. Does not allocate.
    ///
    /// Rules: The replicated log 1 and 2
    pub fn record_sends(&mut self, due: &Vec<Payload<A>, A>)
        ensures { self.new ≡ record self.old { epochs = epochs_with_sends due.now.items self.old.epochs } }
    {
        self.epochs = history_with_sends(&self.epochs, due);
    }

    /// Records in the history, if `is_handed_over`, that the call is handed to the core.
    ///
    /// No effect at run time: only contracts see the history. `is_handed_over` must say whether the core is Operational
    /// in a ring that the node has adopted; this isn't checked. Nothing else changes. Does not allocate.
    ///
    /// Rules: The replicated log 10
    pub fn record_call(&mut self, call: &Call<A>, is_handed_over: bool)
        ensures { self.new ≡ record self.old { epochs = epochs_with_sends (handed_if is_handed_over call.now) self.old.epochs } }
    {
        self.epochs = history_with_call(&self.epochs, call, is_handed_over);
    }

    /// Drops the committed places, keeps `snapshot` for them, and returns a log of only the dropped places.
    ///
    /// Does nothing and returns `None` if `snapshot` is `None`. Otherwise no exchange may be open, and the log must be
    /// due to be trimmed; `snapshot` must be that of the sessions after the committed places, which isn't checked. The
    /// log must be consistent.
    ///
    /// Errors: `Memory` if an allocation fails; nothing has then changed.
    ///
    /// Rules: The replicated log 20
    pub fn trim(&mut self, snapshot: Option<Snapshot<A>>) -> Result<Option<Log<A>>, Fault>
        requires consistent { self.old.consistent ≡ true }
        requires closed { is_some snapshot ≡ true → is_closed self.old.group self.old.epochs ≡ true }
        requires ripe { is_some snapshot ≡ true → is_due_to_trim self.old.held.log ≡ true }
        ensures dropped { IfOk result (λ log. log ≡ option_map (λ bytes. committed_log self.old.held.log) snapshot) }
        ensures ok { OnOk result (self.new ≡ replication_trimmed self.old snapshot) }
        ensures err { OnErr result (self.new ≡ self.old) }
        ensures refused { IfErr result (λ fault. fault ≡ Memory) }
    {
        let Some(snapshot) = snapshot else {
            return Ok(None);
        };
        let log = self.held.drop_committed(snapshot)?;
        self.epochs = history_with_trim(&self.epochs, log.committed_length());
        Ok(Some(log))
    }

    /// Ends a step: drops the log from before a restore, so that `is_restored` of the stored log is false.
    ///
    /// Nothing else changes. Does not allocate.
    ///
    /// Rules: The replicated log 6
    pub fn end_step(&mut self)
        ensures { self.new ≡ record self.old { held = record self.old.held { before = None } } }
    {
        self.held.end_step();
    }
}

/// Commits the places that the safe mark covers.
fn commit_covered<A: Allocator + Copy + Drop>(
    watermarks: &mut VecDeque<LogWatermark, A>,
    mark: u64,
    held: &mut HeldLog<A>,
)
    ensures watermarks { watermarks.new.items ≡ watermarks_above mark watermarks.old.items }
    ensures held { held.new ≡ record held.old { log = committed_upto held.old.log (covered_places mark 0 watermarks.old.items) } }
    ensures front { IsListPrefix (committed_calls (reported_log held.old)) (committed_calls (reported_log held.new)) }
{
    let places = pop_covered(watermarks, mark);
    held.commit_upto(places);
}

/// Returns whether `ring` is the ring in which the core is Operational.
fn is_running_ring(running: &Option<RingId>, ring: &RingId) -> bool
    ensures { result ≡ is_running running.now ring.now }
{
    match running {
        Some(running) => running == ring,
        None => false,
    }
}
