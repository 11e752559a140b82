//! The node and its calls.
//!
//! `step_on_timeout` is a function of its own to keep its large stack slot out of its caller.
//!
//! Rules: Rings and states 3, 6, 12 and 13; The replicated log 8, 13 to 15, 18 and 20; Refusals 4 to 6

ghost use Rattle.std.specs.Prelude.{◌≡◌, ◌≤◌, true, false, length, if◌then◌else◌, Some, None, Ok, IsOk, IfOk, IfErr, OnOk, OnErr, MatchOption};
ghost use Rattle.ring_base.specs.declared.fault.Fault.TheVariants.{Memory, Stopped as StoppedFault};
ghost use Rattle.ring_payload.specs.Calls.{CallFits};
ghost use Rattle.ring_core_spec.specs.Frames.{FrameFits};
ghost use Rattle.ring_core_spec.specs.Stepping.{ring_step};
ghost use Rattle.ring_core_spec.specs.declared.input.Input.TheVariants.{Frame as FrameInput, Timeout as TimeoutInput};
ghost use Rattle.ring_replica.specs.Sessions.{pending_from};
ghost use Rattle.ring_replica.specs.NodeSpec.{node_opening, node_known_log, node_length, node_trimmed, node_committed, node_reply, node_stopped};
ghost use Rattle.ring_replica.specs.NodeSpec.{is_stopped, effects_at, after_core, node_step, submit_fault, node_after_submit, InputFits};
ghost use Rattle.ring_node.specs.StepOutputs.{IsNodeStepResult};
ghost use Rattle.ring_node.specs.Restores.{node_restored};
ghost use Rattle.ring_node.specs.EmptyResults.{IsEmptyResult};
ghost use Rattle.ring_replica.specs.InputVariants.{Frame as ComesInput, Stop as StopInput};

use crate::core_with_replica::{advance_by_frame, advance_by_time, running_ring_of};
use crate::outs::Outs;
use ring_base::{Fault, Fixed, Ghost, Kind, Proc, ProcSet, RingId, State, ghost_now, pair_result};
use ring_core_spec::{Configuration, Frame};
use ring_object::Object;
use ring_payload::{Call, Payload};
use ring_replica::{Answer, Input, Replica, Ticket, copy_of};
use ring_srp::Srp;
use std::marker::Model;

/// `Node`: the running state of a processor of the group: its ring core, its log, its tickets and its sessions.
///
/// It has no clock, no network and no thread, and takes one input at a time. Contracts see its group, its core, its
/// epochs, its tickets, the calls that it did and the answers that it gave.
///
/// Rules: Rings and states 3; The replicated log 1
#[derive(Drop)]
pub struct Node<O: Object> {
    alloc: O::Alloc,
    core: Srp<O::Alloc>,
    replica: Replica<O>,
    /// The last installed ring with its members, at the time when the node stopped.
    last_configuration: Configuration,
    /// The core before the step in which the node stopped.
    core_before_stop: Ghost<Srp<O::Alloc>>,
}

impl<O: Object> Model for Node<O> {
    ghost use Rattle.ring_replica.specs.NodeSpec.{Node as ToldNode};
    ghost use Rattle.ring_node.specs.KnownLog.{node_view, IsNode};

    ghost Value = { ToldNode O.Alloc };

    ghost view = { λ n. node_view n.core n.replica n.core_before_stop.value };

    ghost invariant = { λ n. IsNode n.core n.replica n.last_configuration n.core_before_stop.value };
}

impl<O: Object> Node<O> {
    /// Creates processor `me` of the group at its opening: alone in Gather, with an empty log.
    ///
    /// `me` must be at most the group's number of processors.
    ///
    /// Errors: `Memory` if an allocation fails.
    ///
    /// Rules: Rings and states 5; The replicated log 1; Processors and sets 2
    pub fn new(alloc: O::Alloc, fixed: Fixed, me: Proc) -> Result<Node<O>, Fault>
        requires { me ≤ fixed.count }
        ensures ok { IfOk result (λ node. node ≡ node_opening fixed me) }
        ensures refused { IfErr result (λ fault. fault ≡ Memory) }
    {
        let core = Srp::new(alloc, fixed, me)?;
        let replica = Replica::new(alloc, fixed, me)?;
        let last_configuration = core.installed();
        let core_before_stop = ghost_now(&core);
        Ok(Node {
            alloc,
            core,
            replica,
            last_configuration,
            core_before_stop,
        })
    }

    /// Returns a copy that runs independently of this node.
    ///
    /// Its object is restored from a snapshot of this one's.
    ///
    /// Errors: `Memory` if an allocation fails; this node is unchanged.
    ///
    /// Rules: Objects 3; Sessions 12
    pub fn copy(&self) -> Result<Node<O>, Fault>
        ensures ok { IfOk result (λ copy. copy ≡ self.now) }
        ensures refused { IfErr result (λ fault. fault ≡ Memory) }
    {
        let core_before_stop = self.core_before_stop.clone()?;
        let core = self.core.clone()?;
        let (core, replica) = pair_result(core, self.replica.copy())?;
        Ok(Node {
            alloc: self.alloc,
            core,
            replica,
            last_configuration: self.last_configuration,
            core_before_stop,
        })
    }

    /// Submits a call and returns its ticket, which is its index, from 0, in the list of all tickets that this node
    /// gave.
    ///
    /// The call must be within the limits of a call, as each one from `Call::new` is. It is sent at once if the node
    /// has adopted the running ring, otherwise as soon as it adopts one. A submit has no outputs: the frames leave the
    /// node in a later step, and so does the answer.
    ///
    /// Errors, in this order: `Stopped` if the node has stopped. `PendingFull` if 64 tickets are unanswered or 2^62
    /// have been given. `Memory` if an allocation fails. The node is unchanged by each.
    ///
    /// Rules: The replicated log 10 and 13; Refusals 4
    pub fn submit(&mut self, call: Call<O::Alloc>) -> Result<Ticket, Fault>
        requires fits { CallFits call }
        ensures ticket { IfOk result (λ ticket. ticket ≡ length self.old.tickets) }
        ensures taken { OnOk result (submit_fault self.old ≡ None) }
        ensures ok { OnOk result (self.new ≡ node_after_submit self.old call) }
        ensures err { OnErr result (self.new ≡ self.old) }
        ensures refused { IfErr result (λ fault. MatchOption (submit_fault self.old) (fault ≡ Memory) (λ first. fault ≡ first)) }
    {
        self.submit_borrowed(&call)
    }

    /// Submits a copy of a borrowed call and returns its ticket.
    ///
    /// Otherwise the same as `submit`.
    ///
    /// Errors: those of `submit`, in the same order. The node is unchanged by each.
    ///
    /// Rules: The replicated log 10 and 13; Refusals 4
    pub fn submit_borrowed(&mut self, call: &Call<O::Alloc>) -> Result<Ticket, Fault>
        requires fits { CallFits call.now }
        ensures ticket { IfOk result (λ ticket. ticket ≡ length self.old.tickets) }
        ensures taken { OnOk result (submit_fault self.old ≡ None) }
        ensures ok { OnOk result (self.new ≡ node_after_submit self.old call.now) }
        ensures err { OnErr result (self.new ≡ self.old) }
        ensures refused { IfErr result (λ fault. MatchOption (submit_fault self.old) (fault ≡ Memory) (λ first. fault ≡ first)) }
    {
        self.check_submit()?;
        self.give_ticket(copy_of(call)?)
    }

    /// Runs one step on an input and returns its outputs.
    ///
    /// They are the frames sent, the answers, the newly committed calls, the calls of the dropped places, and the
    /// number of places restored. A frame must be within the limits of its format, as every decoded frame is. A stop
    /// does not allocate.
    ///
    /// Errors: `Stopped` if the node had already stopped; it is unchanged. `Memory` if an allocation fails, including
    /// one for dropping places; the node has then stopped for good with its log from before the step, and there are no
    /// outputs.
    ///
    /// Rules: Rings and states 12 and 13; The replicated log 8, 18 and 20; Refusals 4 and 6
    pub fn step(&mut self, input: Input<O::Alloc>) -> Result<Outs<O::Alloc>, Fault>
        requires fits { InputFits input }
        ensures runs { OnOk result (is_stopped self.old.core.state ≡ false) }
        ensures sends { IfOk result (λ outs. outs.sends.items ≡ (node_step O.sequential self.old input).sends) }
        ensures answers { IfOk result (λ outs. outs.answers.items ≡ (node_step O.sequential self.old input).answers) }
        ensures committed { IfOk result (λ outs. outs.committed.items ≡ (node_step O.sequential self.old input).committed) }
        ensures dropped { IfOk result (λ outs. outs.dropped.items ≡ (node_step O.sequential self.old input).dropped) }
        ensures restored { IfOk result (λ outs. outs.restored ≡ node_restored self.old (node_step O.sequential self.old input).node) }
        ensures ok { OnOk result (self.new ≡ (node_step O.sequential self.old input).node) }
        ensures err { OnErr result (self.new ≡ node_stopped self.old) }
        ensures refused { IfErr result (λ fault. fault ≡ (if is_stopped self.old.core.state then StoppedFault else Memory)) }
        ensures stops { input ≡ StopInput → is_stopped self.old.core.state ≡ false → IsOk result }
    {
        let mut outs = Outs::new(self.alloc);
        self.step_into(&input, &mut outs)?;
        Ok(outs)
    }

    /// Runs one step on a borrowed input and stores the outputs in `outs`.
    ///
    /// Otherwise the same as `step`. The node copies the input's frame, unless it is a token that is accepted. The
    /// lists of `outs` are emptied first, and the capacity of `sends` is reused.
    ///
    /// Errors: those of `step`; `outs` is then empty.
    ///
    /// Rules: Rings and states 12 and 13; The replicated log 8, 18 and 20; Refusals 4 and 6
    pub fn step_into(
        &mut self,
        input: &Input<O::Alloc>,
        outs: &mut Outs<O::Alloc>,
    ) -> Result<(), Fault>
        requires fits { InputFits input.now }
        ensures runs { OnOk result (is_stopped self.old.core.state ≡ false) }
        ensures sends { OnOk result (outs.new.sends.items ≡ (node_step O.sequential self.old input.now).sends) }
        ensures answers { OnOk result (outs.new.answers.items ≡ (node_step O.sequential self.old input.now).answers) }
        ensures committed { OnOk result (outs.new.committed.items ≡ (node_step O.sequential self.old input.now).committed) }
        ensures dropped { OnOk result (outs.new.dropped.items ≡ (node_step O.sequential self.old input.now).dropped) }
        ensures restored { OnOk result (outs.new.restored ≡ node_restored self.old (node_step O.sequential self.old input.now).node) }
        ensures nothing { OnErr result (IsEmptyResult outs.new) }
        ensures ok { OnOk result (self.new ≡ (node_step O.sequential self.old input.now).node) }
        ensures err { OnErr result (self.new ≡ node_stopped self.old) }
        ensures refused { IfErr result (λ fault. fault ≡ (if is_stopped self.old.core.state then StoppedFault else Memory)) }
        ensures stops { input.now ≡ StopInput → is_stopped self.old.core.state ≡ false → IsOk result }
    {
        match input {
            Input::Frame(frame) => self.receive_into(frame, outs),
            Input::Timeout(kind) => {
                self.begin_step(outs)?;
                self.step_on_timeout(*kind, outs)
            }
            Input::Noise => self.begin_step(outs),
            Input::Stop => {
                self.begin_step(outs)?;
                self.stop_for_good();
                Ok(())
            }
        }
    }

    /// Runs one step on a borrowed frame and stores the outputs in `outs`.
    ///
    /// Otherwise the same as `step_into`.
    ///
    /// Errors: those of `step`; `outs` is then empty.
    ///
    /// Rules: Rings and states 12 and 13; The replicated log 8, 18 and 20; Refusals 4 and 6
    pub fn receive_into(
        &mut self,
        frame: &Frame<O::Alloc>,
        outs: &mut Outs<O::Alloc>,
    ) -> Result<(), Fault>
        requires fits { FrameFits frame.now }
        ensures runs { OnOk result (is_stopped self.old.core.state ≡ false) }
        ensures sends { OnOk result (outs.new.sends.items ≡ (node_step O.sequential self.old (ComesInput frame.now)).sends) }
        ensures answers { OnOk result (outs.new.answers.items ≡ (node_step O.sequential self.old (ComesInput frame.now)).answers) }
        ensures committed { OnOk result (outs.new.committed.items ≡ (node_step O.sequential self.old (ComesInput frame.now)).committed) }
        ensures dropped { OnOk result (outs.new.dropped.items ≡ (node_step O.sequential self.old (ComesInput frame.now)).dropped) }
        ensures restored { OnOk result (outs.new.restored ≡ node_restored self.old (node_step O.sequential self.old (ComesInput frame.now)).node) }
        ensures nothing { OnErr result (IsEmptyResult outs.new) }
        ensures ok { OnOk result (self.new ≡ (node_step O.sequential self.old (ComesInput frame.now)).node) }
        ensures err { OnErr result (self.new ≡ node_stopped self.old) }
        ensures refused { IfErr result (λ fault. fault ≡ (if is_stopped self.old.core.state then StoppedFault else Memory)) }
    {
        self.begin_step(outs)?;
        self.step_on_frame(frame, outs)
    }

    /// Returns the answer to a ticket if it is one of the last 64 that were answered here, otherwise `None`.
    ///
    /// Does not allocate.
    ///
    /// Rules: The replicated log 15
    pub fn reply(&self, ticket: Ticket) -> Option<Answer>
        ensures { result ≡ node_reply self.now ticket }
    {
        self.replica.reply(ticket)
    }

    /// Returns the calls at the committed places that haven't been dropped, in order, including repeats.
    ///
    /// After a stop, they are those at the end of the last finished step. Does not allocate.
    ///
    /// Rules: The replicated log 18
    pub fn committed(&self) -> &[Call<O::Alloc>]
        ensures { result.now ≡ node_committed self.now }
    {
        self.replica.committed()
    }

    /// Returns the node's state, which is `Stopped` once the node has stopped.
    ///
    /// Does not allocate.
    ///
    /// Rules: Rings and states 6
    pub fn state(&self) -> State
        ensures { result ≡ self.now.core.state }
    {
        if self.replica.is_stopped() {
            State::Stopped
        } else {
            self.core.state()
        }
    }

    /// Returns the last installed ring, which is (0, `me`) before the first installation.
    ///
    /// After a stop, it is the ring at the time of the stop. Does not allocate.
    ///
    /// Rules: Rings and states 3 and 5; The replicated log 18
    pub fn ring(&self) -> RingId
        ensures { result ≡ self.now.core.installed.ring }
    {
        self.installed().ring
    }

    /// Returns the members of the last installed ring, which are only `me` before the first installation.
    ///
    /// After a stop, they are those at the time of the stop. Does not allocate.
    ///
    /// Rules: Rings and states 3 and 5; The replicated log 18
    pub fn members(&self) -> ProcSet
        ensures { result ≡ self.now.core.installed.members }
    {
        self.installed().members
    }

    /// Returns the number of committed places, including dropped ones.
    ///
    /// It never falls. Does not allocate.
    ///
    /// Rules: The replicated log 12 and 18
    pub fn committed_len(&self) -> u64
        ensures { result ≡ (node_known_log self.now).committed }
    {
        self.replica.committed_len()
    }

    /// Returns the number of committed places that have been dropped, which are those before the first of `committed`.
    ///
    /// It never falls. Does not allocate.
    ///
    /// Rules: The replicated log 18 and 20
    pub fn trimmed(&self) -> u64
        ensures { result ≡ node_trimmed self.now }
    {
        self.replica.trimmed()
    }

    /// Returns the number of the log's places, committed or not, including dropped ones.
    ///
    /// Does not allocate.
    ///
    /// Rules: The replicated log 18
    pub fn log_len(&self) -> u64
        ensures { result ≡ node_length self.now }
    {
        self.replica.log_len()
    }

    /// Returns the number of committed calls that took effect.
    ///
    /// For the places of a restored snapshot, it counts the sum of its clients' last numbers. It saturates at
    /// `u64::MAX`. Does not allocate.
    ///
    /// Rules: Sessions 6; The replicated log 18
    pub fn order_len(&self) -> u64
        ensures { result ≡ effects_at O.sequential (node_known_log self.now) (node_known_log self.now).committed }
    {
        self.replica.order_len()
    }

    /// Returns the number of unanswered tickets, at most 64.
    ///
    /// Does not allocate.
    ///
    /// Rules: The replicated log 13 and 18
    pub fn waiting(&self) -> usize
        ensures { result ≡ length (pending_from self.now.done 0 self.now.tickets) }
    {
        self.replica.waiting()
    }
}

impl<O: Object> Node<O> {
    /// Returns the last installed ring with its members.
    fn installed(&self) -> Configuration
        ensures { result ≡ self.now.core.installed }
    {
        if self.replica.is_stopped() {
            self.last_configuration
        } else {
            self.core.installed()
        }
    }

    /// Returns Ok if a ticket may be given now.
    ///
    /// Does not allocate.
    ///
    /// Errors: `Stopped` or `PendingFull`, as for `submit`.
    fn check_submit(&self) -> Result<(), Fault>
        ensures ok { OnOk result (submit_fault self.now ≡ None) }
        ensures err { IfErr result (λ fault. submit_fault self.now ≡ Some fault) }
    {
        self.replica.check_ticket_available()
    }

    /// Gives a call a ticket, and sends it at once if the node has adopted the running ring.
    ///
    /// Errors: `Memory` if an allocation fails; the node is unchanged.
    fn give_ticket(&mut self, call: Call<O::Alloc>) -> Result<Ticket, Fault>
        requires { submit_fault self.old ≡ None }
        ensures ticket { IfOk result (λ ticket. ticket ≡ length self.old.tickets) }
        ensures ok { OnOk result (self.new ≡ node_after_submit self.old call) }
        ensures err { OnErr result (self.new ≡ self.old) }
        ensures refused { IfErr result (λ fault. fault ≡ Memory) }
    {
        let running = running_ring_of(&self.core);
        if self.replica.has_adopted(&running) {
            self.core.send(Payload::Call(copy_of(&call)?))?;
        }
        Ok(self.replica.give_ticket(&running, call))
    }

    /// Empties the outputs for a step.
    ///
    /// Errors: `Stopped` if the node has stopped.
    fn begin_step(&self, outs: &mut Outs<O::Alloc>) -> Result<(), Fault>
        ensures nothing { IsEmptyResult outs.new }
        ensures ok { OnOk result (is_stopped self.now.core.state ≡ false) }
        ensures err { OnErr result (is_stopped self.now.core.state ≡ true) }
        ensures refused { IfErr result (λ fault. fault ≡ StoppedFault) }
    {
        outs.clear();
        if self.replica.is_stopped() {
            return Err(Fault::Stopped);
        }
        Ok(())
    }

    /// Runs the step on a frame.
    ///
    /// Errors: `Memory` if an allocation fails; the node has then stopped.
    fn step_on_frame(
        &mut self,
        frame: &Frame<O::Alloc>,
        outs: &mut Outs<O::Alloc>,
    ) -> Result<(), Fault>
        requires fits { FrameFits frame.now }
        requires empty { IsEmptyResult outs.old }
        requires runs { is_stopped self.old.core.state ≡ false }
        ensures ok { OnOk result (IsNodeStepResult self.old (after_core O.sequential self.old (ring_step self.old.core (FrameInput frame.now))) self.new outs.new) }
        ensures nothing { OnErr result (IsEmptyResult outs.new) }
        ensures err { OnErr result (self.new ≡ node_stopped self.old) }
        ensures refused { IfErr result (λ fault. fault ≡ Memory) }
    {
        self.last_configuration = self.core.installed();
        self.core_before_stop = ghost_now(&self.core);
        match advance_by_frame(&mut self.core, &mut self.replica, frame, outs) {
            Ok(()) => Ok(()),
            Err(refused) => {
                self.core.stop();
                self.replica.stop();
                outs.clear();
                Err(refused)
            }
        }
    }

    /// Runs the step on a timeout.
    ///
    /// Errors: `Memory` if an allocation fails; the node has then stopped.
    #[inline(never)]
    fn step_on_timeout(&mut self, kind: Kind, outs: &mut Outs<O::Alloc>) -> Result<(), Fault>
        requires empty { IsEmptyResult outs.old }
        requires runs { is_stopped self.old.core.state ≡ false }
        ensures ok { OnOk result (IsNodeStepResult self.old (after_core O.sequential self.old (ring_step self.old.core (TimeoutInput kind))) self.new outs.new) }
        ensures nothing { OnErr result (IsEmptyResult outs.new) }
        ensures err { OnErr result (self.new ≡ node_stopped self.old) }
        ensures refused { IfErr result (λ fault. fault ≡ Memory) }
    {
        self.last_configuration = self.core.installed();
        self.core_before_stop = ghost_now(&self.core);
        match advance_by_time(&mut self.core, &mut self.replica, kind, outs) {
            Ok(()) => Ok(()),
            Err(refused) => {
                self.core.stop();
                self.replica.stop();
                outs.clear();
                Err(refused)
            }
        }
    }

    /// Stops the node for good, and frees the core's memory.
    ///
    /// Does not allocate.
    fn stop_for_good(&mut self)
        requires { is_stopped self.old.core.state ≡ false }
        ensures { self.new ≡ node_stopped self.old }
    {
        self.last_configuration = self.core.installed();
        self.core_before_stop = ghost_now(&self.core);
        self.core.stop();
        self.replica.stop();
    }
}
