//! A node that a program drives, with the outputs of its last step.
//!
//! Rules: The replicated log 13 to 15, 18 and 20; Timeouts 1; Refusals 4 to 6; A node with a clock 5 to 7 and 9

ghost use Rattle.std.specs.Prelude.{◌≡◌, ◌≤◌, length, not, false, None, if◌then◌else◌, IfOk, IfErr, IsOk, OnOk, OnErr};
ghost use Rattle.std.specs.Option.{option_map};
ghost use Rattle.ring_payload.specs.Limits.{max_operation};
ghost use Rattle.ring_base.specs.Group.{IsInGroup, is_primary};
ghost use Rattle.ring_base.specs.Rings.{same_ring};
ghost use Rattle.ring_base.specs.declared.fault.Fault.TheVariants.{Memory, Stopped as StoppedFault};
ghost use Rattle.ring_timers.specs.Periods.{default_periods};
ghost use Rattle.ring_clock.specs.Clocks.{first_due_at, next_time_of};
ghost use Rattle.ring_driver.specs.Driving.{driver_opening, driver_after_step, driver_stopped, driver_after_call, IsNotOpened, IsRefused, IsTaken, IsFirstTaken};
ghost use Rattle.ring_driver.specs.Driving.{driver_with_time, driver_at};
ghost use Rattle.ring_node_spec.specs.NodeLimits.{InputFits};
ghost use Rattle.ring_node_spec.specs.Nodes.{node_reply, is_stopped};
ghost use Rattle.ring_node_spec.specs.Stepping.{submit_fault};
ghost use Rattle.ring_node_spec.specs.declared.input.Input.TheVariants.{Frame as FrameInput, Timeout as TimeoutInput, Stop as StopInput};

use crate::valid_frame::ValidFrame;
use ring_base::{Fault, Fixed, Kind, ProcSet, RingId};
use ring_clock::{NodeClock, Periods, is_token_or_commit_token, step_outcome, timeout_in};
use ring_core_spec::OutgoingFrame;
use ring_node::{Input, Node};
use ring_object::Object;
use ring_order_proof::limit_laws::node_fits_law;
use ring_payload::Call;
use ring_session::{Answer, Ticket};
use std::collections::VecDeque;
use std::marker::Model;

/// A node, together with the outputs of its last step that have not been taken yet.
///
/// The program that drives it repeats this:
///
/// - It passes each frame that arrives for the node, in the order of arrival ([`receive`](Driver::receive)).
/// - It passes the time until no timeout is due ([`at`](Driver::at)). A program with timers of its own passes each
///   timeout that is due instead ([`timeout`](Driver::timeout)), and no time.
/// - After each step it takes the frames that the node sends ([`next_send`](Driver::next_send)) and transports them to
///   their receivers. Frames may be lost, repeated and reordered. A frame that isn't taken before the next step is
///   lost.
///
/// Calls are submitted, and their answers read, by ticket. A program that follows the log also takes the newly
/// committed calls after each step ([`next_committed`](Driver::next_committed)). They come right after those of earlier
/// steps or, if the step restored places ([`restored`](Driver::restored)), right after the restored places.
///
/// Rules: The replicated log 13 to 15, 18 and 20
#[derive(Drop)]
pub struct Driver<O: Object> {
    alloc: O::Alloc,
    group: Fixed,
    node: Node<O>,
    clock: NodeClock,
    sends: VecDeque<OutgoingFrame<O::Alloc>, O::Alloc>,
    committed: VecDeque<Call<O::Alloc>, O::Alloc>,
    dropped: VecDeque<Call<O::Alloc>, O::Alloc>,
    restored: Option<u64>,
    has_installed: bool,
}

impl<O: Object> Model for Driver<O> {
    ghost use Rattle.ring_order_proof.specs.NodeFits.{NodeFits, SendsFit};
    ghost use Rattle.ring_driver.specs.Driving.{DriverView};

    ghost Value = { DriverView O.Alloc };

    ghost view = { λ d. record {
      group = d.group;
      node = d.node;
      clock = d.clock;
      sends = d.sends.items;
      committed = d.committed.items;
      dropped = d.dropped.items;
      restored = d.restored;
      has_installed = d.has_installed;
    } };

    ghost invariant = { λ d. NodeFits d.node × SendsFit d.sends.items };
}

impl<O: Object> Driver<O> {
    /// Returns a driver of node `number` of the group at its opening, without outputs.
    ///
    /// Its clock has the default periods.
    ///
    /// Errors: `NotMember` unless `number` is 1 to the number of processors. Otherwise `Memory` if an allocation fails.
    ///
    /// Rules: Processors and sets 2; Rings and states 5; A node with a clock 3
    pub fn new(alloc: O::Alloc, group: Fixed, number: u8) -> Result<Driver<O>, Fault>
        ensures ok { IfOk result (λ driver. driver ≡ driver_opening group number default_periods) }
        ensures member { OnOk result (IsInGroup group number) }
        ensures refused { IfErr result (IsNotOpened group number) }
    {
        Driver::with_periods(alloc, group, number, Periods::default())
    }

    /// Returns a driver of node `number` of the group at its opening, without outputs.
    ///
    /// Its clock has these periods.
    ///
    /// Errors: `NotMember` unless `number` is 1 to the number of processors. Otherwise `Memory` if an allocation fails.
    ///
    /// Rules: Processors and sets 2; Rings and states 5; A node with a clock 3
    pub fn with_periods(
        alloc: O::Alloc,
        group: Fixed,
        number: u8,
        periods: Periods,
    ) -> Result<Driver<O>, Fault>
        ensures ok { IfOk result (λ driver. driver ≡ driver_opening group number periods) }
        ensures member { OnOk result (IsInGroup group number) }
        ensures refused { IfErr result (IsNotOpened group number) }
    {
        // A law: no effect at run time. The proof takes from it that a node is within the limits at its opening.
        node_fits_law::<O>();
        // No effect at run time. The proof takes from this call that a group has at most 16 processors.
        let _ = group.count();
        let node = Node::new(alloc, group, group.proc(number)?)?;
        Ok(Driver {
            alloc,
            group,
            node,
            clock: NodeClock::new(periods),
            sends: VecDeque::new(alloc),
            committed: VecDeque::new(alloc),
            dropped: VecDeque::new(alloc),
            restored: None,
            has_installed: false,
        })
    }

    /// Submits a client's call and returns its ticket.
    ///
    /// `number` counts the client's calls from 1. `operation` has at most 1,024 bytes. The outputs of the last step can
    /// still be taken.
    ///
    /// Errors, in this order: `OpTooLong` if the operation has more than 1,024 bytes. `NumberGap` if `number` is 0.
    /// `Memory` if an allocation for the call fails. `Stopped` if the node has stopped. `PendingFull` if 64 tickets are
    /// unanswered or 2^62 have been given. `Memory` if an allocation of the node fails. The node is unchanged by each.
    ///
    /// Rules: The replicated log 13; Sessions 1; Refusals 4
    #[tactic(auto, using(crate::proofs::DriverLimits::not_made, crate::proofs::DriverLimits::not_taken))]
    pub fn submit(&mut self, client: u32, number: u64, operation: &[u8]) -> Result<Ticket, Fault>
        ensures ticket { IfOk result (λ ticket. ticket ≡ length self.old.node.tickets) }
        ensures fits { OnOk result ((length operation.now ≤ max_operation) × (1 ≤ number)) }
        ensures taken { OnOk result (submit_fault self.old.node ≡ None) }
        ensures ok { OnOk result (self.new ≡ driver_after_call self.old client number operation.now) }
        ensures err { OnErr result (self.new ≡ self.old) }
        ensures refused { IfErr result (IsRefused self.old client number operation.now) }
    {
        // A law: no effect at run time. The proof takes from it that a submit keeps a node within the limits.
        node_fits_law::<O>();
        let call = Call::new(self.alloc, client, number, operation)?;
        self.node.submit(call)
    }

    /// Runs one step of the node on a frame that arrived.
    ///
    /// Its outputs replace those of the step before, even if the node ignores the frame.
    ///
    /// Errors: `Stopped` if the node had already stopped. `Memory` if an allocation fails; the node has then stopped
    /// for good. A refused step has no outputs, and the outputs of the step before can still be taken.
    ///
    /// Rules: Rings and states 8 and 13; Refusals 4 and 6
    pub fn receive(&mut self, valid_frame: ValidFrame<O::Alloc>) -> Result<(), Fault>
        ensures runs { OnOk result (is_stopped self.old.node.core.state ≡ false) }
        ensures ok { OnOk result (self.new ≡ driver_after_step O.sequential self.old (FrameInput valid_frame)) }
        ensures err { OnErr result (self.new ≡ driver_stopped self.old) }
        ensures refused { IfErr result (λ fault. fault ≡ (if is_stopped self.old.node.core.state then StoppedFault else Memory)) }
    {
        self.step_and_store(Input::Frame(valid_frame.into_frame()))
    }

    /// Runs one step of the node on a timeout, which may come at any time.
    ///
    /// Its outputs replace those of the step before.
    ///
    /// Errors: `Stopped` if the node had already stopped. `Memory` if an allocation fails; the node has then stopped
    /// for good. A refused step has no outputs, and the outputs of the step before can still be taken.
    ///
    /// Rules: Timeouts 1 and 2; Refusals 4 and 6
    pub fn timeout(&mut self, kind: Kind) -> Result<(), Fault>
        ensures runs { OnOk result (is_stopped self.old.node.core.state ≡ false) }
        ensures ok { OnOk result (self.new ≡ driver_after_step O.sequential self.old (TimeoutInput kind)) }
        ensures err { OnErr result (self.new ≡ driver_stopped self.old) }
        ensures refused { IfErr result (λ fault. fault ≡ (if is_stopped self.old.node.core.state then StoppedFault else Memory)) }
    {
        self.step_and_store(Input::Timeout(kind))
    }

    /// Passes the time `now`, in milliseconds, runs one step on the first timeout that is due, and returns that
    /// timeout.
    ///
    /// The order is join, retransmit, consensus, loss. The step's outputs replace those of the step before. Returns
    /// `None`, without a step, if no timeout is due: so call it with the same time until it returns `None`.
    /// The first call opens the clock. An earlier time than the latest one counts as the latest one. All other steps are
    /// also timed by the latest time passed in.
    ///
    /// Errors: `Stopped` if the node had already stopped. `Memory` if an allocation fails; the node has then stopped
    /// for good. In both cases the timeout is used up, and the outputs of the step before can still be taken.
    ///
    /// Rules: A node with a clock 2, 4 to 6 and 9; Refusals 4 and 6
    pub fn at(&mut self, now: u64) -> Result<Option<Kind>, Fault>
        ensures due { IfOk result (λ due. due ≡ first_due_at self.old.clock now) }
        ensures ok { OnOk result (self.new ≡ driver_at O.sequential self.old now) }
        ensures err { OnErr result (self.new ≡ driver_stopped (driver_with_time self.old now)) }
        ensures refused { IfErr result (λ fault. fault ≡ (if is_stopped self.old.node.core.state then StoppedFault else Memory)) }
        ensures none { first_due_at self.old.clock now ≡ None → IsOk result }
    {
        let due = self.clock.next_due(now);
        if let Some(kind) = due {
            self.step_and_store(Input::Timeout(kind))?;
        }
        Ok(due)
    }

    /// Returns the earliest time at which a timeout is due, or `None` before the first call of [`at`](Driver::at).
    ///
    /// The time is in milliseconds, on the clock whose times the program passes to `at`. No timeout is due before it.
    /// It saturates at `u64::MAX`, and no timeout need be due then.
    ///
    /// Rules: A node with a clock 7 and 9
    pub fn next_time(&self) -> Option<u64>
        ensures { result ≡ next_time_of self.now.clock }
    {
        self.clock.next_time()
    }

    /// Stops the node for good.
    ///
    /// A stop has no outputs; those of the step before are dropped. Does not allocate.
    ///
    /// Errors: `Stopped` if the node had already stopped; nothing has then changed.
    ///
    /// Rules: Rings and states 12; Refusals 4
    pub fn stop(&mut self) -> Result<(), Fault>
        ensures runs { OnOk result (is_stopped self.old.node.core.state ≡ false) }
        ensures ok { OnOk result (self.new ≡ driver_after_step O.sequential self.old StopInput) }
        ensures err { OnErr result (self.new ≡ driver_stopped self.old) }
        ensures refused { IfErr result (λ fault. fault ≡ (if is_stopped self.old.node.core.state then StoppedFault else Memory)) }
        ensures stops { is_stopped self.old.node.core.state ≡ false → IsOk result }
    {
        self.step_and_store(Input::Stop)
    }

    /// Runs a step and stores its outputs.
    fn step_and_store(&mut self, input: Input<O::Alloc>) -> Result<(), Fault>
        requires { InputFits input }
        ensures runs { OnOk result (is_stopped self.old.node.core.state ≡ false) }
        ensures ok { OnOk result (self.new ≡ driver_after_step O.sequential self.old input) }
        ensures err { OnErr result (self.new ≡ driver_stopped self.old) }
        ensures refused { IfErr result (λ fault. fault ≡ (if is_stopped self.old.node.core.state then StoppedFault else Memory)) }
        ensures stops { input ≡ StopInput → is_stopped self.old.node.core.state ≡ false → IsOk result }
    {
        // A law: no effect at run time. The proof takes from it that a step keeps a node, and the frames that it sends,
        // within the limits.
        node_fits_law::<O>();
        let timeout = timeout_in(&input);
        let is_token = is_token_or_commit_token(&input);
        let ring_before = self.node.ring();
        let outs = self.node.step(input)?;
        self.clock
            .note_step(step_outcome(timeout, is_token, outs.sends.as_slice()));
        let has_installed = are_different_rings(ring_before, self.node.ring());
        self.has_installed = has_installed;
        self.sends = VecDeque::from_vec(outs.sends);
        self.committed = VecDeque::from_vec(outs.committed);
        self.dropped = VecDeque::from_vec(outs.dropped);
        self.restored = outs.restored;
        Ok(())
    }

    /// Removes and returns the next frame that the last step sent, with its receivers, in the order of sending, or
    /// returns `None` once all have been taken.
    ///
    /// The node itself may be a receiver. Frames that aren't taken before the next step are lost.
    ///
    /// Rules: Outputs 2
    pub fn next_send(&mut self) -> Option<(ProcSet, ValidFrame<O::Alloc>)>
        ensures { IsTaken self.old self.new (option_map (λ taken. (taken.0, taken.1)) result) }
    {
        let sent = self.sends.pop_front()?;
        Some((sent.to, ValidFrame::from_valid(sent.frame)))
    }

    /// Removes and returns the next call that the last step newly committed, in the order of the log, or returns `None`
    /// once all have been taken.
    ///
    /// Repeats are included. The calls of a restored snapshot aren't. Calls that aren't taken before the next step are
    /// lost.
    ///
    /// Rules: The replicated log 6, 12 and 18
    pub fn next_committed(&mut self) -> Option<Call<O::Alloc>>
        ensures first { IsFirstTaken self.old.committed self.new.committed result }
        ensures others { self.new ≡ record self.old { committed = self.new.committed } }
    {
        self.committed.pop_front()
    }

    /// Removes and returns the next call of the committed places that the last step dropped, in order, or returns
    /// `None` once all have been taken.
    ///
    /// Places that a restored snapshot replaces aren't among them. Calls that aren't taken before the next step are
    /// lost.
    ///
    /// Rules: The replicated log 18 and 20
    pub fn next_dropped(&mut self) -> Option<Call<O::Alloc>>
        ensures first { IsFirstTaken self.old.dropped self.new.dropped result }
        ensures others { self.new ≡ record self.old { dropped = self.new.dropped } }
    {
        self.dropped.pop_front()
    }

    /// Returns the number of places of the snapshot that the last step restored, or `None` if it restored none.
    ///
    /// They are the first places of the log. The calls that the step newly committed come after them. A refused step
    /// doesn't count. Also returns `None` before the first step.
    ///
    /// Rules: The replicated log 6 and 18
    pub fn restored(&self) -> Option<u64>
        ensures { result ≡ self.now.restored }
    {
        self.restored
    }

    /// Returns whether the last step installed a ring.
    ///
    /// The `ring` and `members` of [`node`](Driver::node) then return that ring's name and members. A refused step
    /// doesn't count. Returns false before the first step.
    ///
    /// Rules: Outputs 1
    pub fn has_installed(&self) -> bool
        ensures { result ≡ self.now.has_installed }
    {
        self.has_installed
    }

    /// Returns whether the members of the last installed ring are primary.
    ///
    /// Before the first installation, returns whether the node by itself is.
    ///
    /// Rules: Processors and sets 4
    pub fn is_primary(&self) -> bool
        ensures { result ≡ is_primary self.now.group self.now.node.core.installed.members }
    {
        self.group.is_primary(self.node.members())
    }

    /// Returns the answer to a ticket if it is one of the last 64 that this node answered, otherwise `None`.
    ///
    /// Rules: The replicated log 15
    pub fn reply(&self, ticket: Ticket) -> Option<Answer>
        ensures { result ≡ node_reply self.now.node ticket }
    {
        self.node.reply(ticket)
    }

    /// Returns the node, after the last step or submit, to read its state, its ring and its committed log.
    ///
    /// Rules: The replicated log 18
    pub fn node(&self) -> &Node<O>
        ensures { result.now ≡ self.now.node }
    {
        &self.node
    }
}

/// Returns whether the two rings differ.
fn are_different_rings(before: RingId, after: RingId) -> bool
    ensures { result ≡ not (same_ring before after) }
{
    before != after
}
