//! The world: all nodes, the events that they handled, and the reports to clients.
//!
//! Rules: The book and the threads 1 to 8 and 36; Sessions 9 to 11; Outputs 11

ghost use Rattle.std.specs.Prelude.{◌≡◌, ℕ, true, [], ◌∷◌, ◌++◌, ◌+◌, ◌<◌, ◌≤◌, ◌^◌, List, length, map, take, vec_len};
ghost use Rattle.std.specs.Prelude.{vec_capacity, false, if◌then◌else◌, IfOk, IfErr, OnOk, OnErr, Some, option_map, is_some, IsSome, IfSome};
ghost use Rattle.std.specs.List.{AllByRecursion};
ghost use Rattle.ring_base.specs.Prefixes.{IsListPrefix};
ghost use Rattle.ring_base.specs.Numbers.{numbers_from};
ghost use Rattle.ring_base.specs.Fault.{fault_number};
ghost use Rattle.ring_base.specs.declared.fault.Fault.TheVariants.{Memory, Stopped as StoppedFault};
ghost use Rattle.ring_wire.specs.Frames.{FrameFits};
ghost use Rattle.ring_core_spec.specs.State.{OutgoingFrame as OneSent, Transmission, frame_at};
ghost use Rattle.ring_log.specs.EpochHistories.{committed_of};
ghost use Rattle.ring_session.specs.Deduplicated.{deduplicated};
ghost use Rattle.ring_node_spec.specs.NodeLimits.{InputFits};
ghost use Rattle.ring_node_spec.specs.Nodes.{node_opening, node_stopped};
ghost use Rattle.ring_node_spec.specs.declared.event.Event.TheVariants.{Issue, Stop};
ghost use Rattle.ring_node_spec.specs.declared.input.Input.TheVariants.{Timeout as TimeInput};
ghost use Rattle.ring_node_spec.specs.declared.item.Item.TheVariants.{Issue as IssuedItem};
ghost use Rattle.ring_node_spec.specs.declared.client_report.Told.TheVariants.{Refused as ToldRefused};
ghost use Rattle.ring_node_spec.specs.Histories.{IsLinearization};
ghost use Rattle.ring_node_spec.specs.WorldLimits.{EventFits};
ghost use Rattle.ring_node_spec.specs.Worlds.{calls_past, carried_frames, world_after_event, reply_items_of, reports_of_answers, order, whole_epochs_in, world_opening};
ghost use Rattle.ring_order_proof.specs.Linear.{IsEventCallWithinLimits, HasCommittedPlaces, FollowsOrder};
ghost use Rattle.ring_order_proof.specs.Projection.{core_events_of_run};
ghost use Rattle.ring_order_proof.specs.Synchronous.{IsSynchronous};
ghost use Rattle.ring_world.specs.WorldView.{WorldView, opening_world_view, told_of_events, world_of, IsEventOutcome, IsRunOfEvents};
ghost use Rattle.ring_world.specs.RunProperties.{IsContinuation};
ghost use Rattle.ring_world.specs.Steps.{stepping_node, event_input, delivered_frame, HasStepped};
ghost use Rattle.ring_world.specs.StoredFramesView.{HasRoom, text_of};
ghost use Rattle.ring_world.specs.SpareCalls.{SpareCalls as ToldSpares, HaveCopies, copies_after_answers};

use crate::answer_records::record_answers;
use crate::copies::copy_event;
use crate::effect_counts::max_effects;
use crate::frame_store::FrameStore;
use crate::run_record::RunRecord;
use crate::spare_calls::SpareCalls;
use ring_base::{Fault, Fixed, Kind, Proc, ProcSet};
use ring_node::{Input, Node, OutgoingFrame, Outs};
use ring_node_spec::{Event, Item, Told};
use ring_object::Object;
use ring_order_proof::effect_laws::committed_effects_law;
use ring_order_proof::frame_laws::{pending_tickets_law, sent_frames_fit_law, step_counts_law};
use ring_order_proof::linear_laws::linear_law;
use ring_order_proof::longest_laws::longest_committed_log_law;
use ring_payload::Call;
use ring_session::copy_of;
use ring_wire::Frame;
use std::alloc::Allocator;
use std::marker::Model;

/// A world: all nodes of a group, from their opening on, all frames sent, the history, and the list of events.
///
/// Contracts see its group, its events since the opening and the reports to clients.
///
/// Rules: The book and the threads 1
#[derive(Drop)]
pub struct World<O: Object> {
    alloc: O::Alloc,
    fixed: Fixed,
    /// The nodes.
    ///
    /// Processor i is at index i - 1.
    nodes: Vec<Node<O>, O::Alloc>,
    /// For each node, the second copies of the calls whose tickets wait for an answer.
    spares: Vec<SpareCalls<O::Alloc>, O::Alloc>,
    run_record: RunRecord<O::Alloc>,
    done: u64,
    buffers: StepBuffers<O::Alloc>,
}

/// Buffers that are reused from step to step.
#[derive(Drop)]
struct StepBuffers<A: Allocator + Copy> {
    /// The frame that was decoded last.
    ///
    /// The next one overwrites it.
    frame_buffer: Option<Frame<A>>,
    /// The lists that a node fills with the outputs of a step.
    outs: Outs<A>,
}

impl<O: Object> Model for World<O> {
    ghost use Rattle.ring_world.specs.WorldView.{WorldView};
    ghost use Rattle.ring_world.specs.WorldInvariant.{IsWorld};

    ghost Value = { WorldView O.Alloc };

    ghost view = { λ w. record { group = w.fixed; events = w.run_record.events.items; told = w.run_record.told.items; done = w.done } };

    ghost invariant = { λ w. IsWorld O.sequential w.fixed w.run_record.events.items w.nodes.items w.spares.items w.run_record.frames.frames w.run_record.history.items
        w.run_record.told.items w.run_record.longest.calls };
}

impl<O: Object> World<O> {
    /// Returns the world of a group at its opening: each node is at its opening, and no event has happened.
    ///
    /// Errors: `Memory` if an allocation fails.
    ///
    /// Rules: The book and the threads 1; Rings and states 5
    pub fn new(alloc: O::Alloc, fixed: Fixed) -> Result<World<O>, Fault>
        ensures ok { IfOk result (λ world. world ≡ opening_world_view fixed) }
        ensures refused { IfErr result (λ fault. fault ≡ Memory) }
    {
        let count = fixed.count();
        let spares = new_spares(alloc, count)?;
        let nodes = new_nodes(alloc, fixed, count)?;
        Ok(World {
            alloc,
            fixed,
            nodes,
            spares,
            run_record: RunRecord::new(alloc),
            done: 0,
            buffers: new_buffers(alloc),
        })
    }

    /// Returns a copy with the same events, history, reports and nodes, which runs independently of this world.
    ///
    /// Each node's object is restored from a snapshot of the original's. A caller can use the copy to try out events.
    ///
    /// Errors: `Memory` if an allocation fails; this world is unchanged.
    ///
    /// Rules: Objects 3; Sessions 12
    pub fn copy(&self) -> Result<World<O>, Fault>
        ensures ok { IfOk result (λ copy. copy ≡ self.now) }
        ensures refused { IfErr result (λ fault. fault ≡ Memory) }
    {
        let run_record = self.run_record.copy()?;
        let spares = self.spares.clone()?;
        let nodes = copy_nodes(self.alloc, &self.nodes)?;
        Ok(World {
            alloc: self.alloc,
            fixed: self.fixed,
            nodes,
            spares,
            run_record,
            done: self.done,
            buffers: new_buffers(self.alloc),
        })
    }

    /// Runs the events in order, after those that were run before.
    ///
    /// The calls in them must be within the limits of a call, as every one from `Call::new` is. An event is done completely
    /// or not at all, since room for it is made before its step.
    ///
    /// Ok doesn't mean that no allocation failed in a step. If one did, the node has stopped for good, and `events` has
    /// the event as `Stop`; `stopped_for_memory` finds it after a run of one event. If one failed in a submit, the
    /// submit isn't in `events`, and `told` has its refusal with number 11.
    ///
    /// Errors: `Memory` if an allocation for the world's records fails. The events before that are done: `done` returns
    /// their number.
    ///
    /// Rules: The book and the threads 2 to 4, 6 to 8; Sessions 10 and 11; Outputs 11; Refusals 6
    pub fn run(&mut self, events: &[Event<O::Alloc>]) -> Result<(), Fault>
        requires fit { AllByRecursion EventFits events.now }
        ensures plays { IsRunOfEvents O.sequential (take self.new.done events.now) self.old self.new }
        ensures all { OnOk result (self.new.done ≡ length events.now) }
        ensures some { OnErr result (self.new.done < length events.now) }
        ensures explains { let w = world_of O.sequential self.new in IsLinearization O.sequential (order w) w.history }
        ensures grows { IsListPrefix (order (world_of O.sequential self.old)) (order (world_of O.sequential self.new)) }
        ensures fronts { (node : ℕ) → 1 ≤ node → node ≤ self.new.group.count →
            let w = world_of O.sequential self.new in IsListPrefix (deduplicated (committed_of self.new.group (whole_epochs_in w node))) (order w) }
        ensures follows { (node : ℕ) → 1 ≤ node → node ≤ self.new.group.count →
            let w = world_of O.sequential self.new in
            let committed = committed_of self.new.group (whole_epochs_in w node) in
            HasCommittedPlaces O.sequential (w.nodes node) committed × FollowsOrder O.sequential (w.nodes node) committed (order w) }
        ensures synchronous { IsSynchronous O.sequential self.new.group self.new.events }
        ensures outs_grow { IsListPrefix (core_events_of_run O.sequential (world_opening self.old.group) self.old.events).outs
            (core_events_of_run O.sequential (world_opening self.new.group) self.new.events).outs }
        ensures refused { IfErr result (λ fault. fault ≡ Memory) }
    {
        // A law: no effect at run time. The proof takes from it the facts that hold of every run.
        linear_law::<O>();
        self.done = 0;
        let ran = self.run_all(events);
        // A law: no effect at run time. The proof takes from it that this is a run whose calls are within the limits.
        self.run_limits_law();
        ran
    }

    /// Runs one event, after those that were run before.
    ///
    /// A call in it must be within the limits of a call, as every one from `Call::new` is. Ok doesn't mean that no
    /// allocation failed in the step or the submit: see [`run`](World::run). `done` is unchanged.
    ///
    /// Errors: `Memory` if an allocation for the world's records fails; nothing has then changed.
    ///
    /// Rules: The book and the threads 2 to 4, 6 to 8; Sessions 10 and 11; Outputs 11; Refusals 6
    pub fn run_one(&mut self, event: &Event<O::Alloc>) -> Result<(), Fault>
        requires fits { EventFits event.now }
        ensures ok { OnOk result (IsEventOutcome O.sequential event.now self.old self.new) }
        ensures err { OnErr result (self.new ≡ self.old) }
        ensures done { self.new.done ≡ self.old.done }
        ensures shows { IsContinuation O.sequential self.old self.new }
        ensures refused { IfErr result (λ fault. fault ≡ Memory) }
    {
        // A law: no effect at run time. The proof takes from it the facts that hold of every run.
        linear_law::<O>();
        let ran = self.run_event(event);
        // A law: no effect at run time. The proof takes from it that this is a run whose calls are within the limits.
        self.run_limits_law();
        ran
    }

    /// States that this world's group has at most 16 processors, and that each call issued in it is within the limits
    /// of a call.
    ///
    /// So a snapshot can encode the call. Laws of runs, such as `linear_law`, require both.
    ///
    /// Rules: Processors and sets 1; Sessions 1 and 12
    pub fn run_limits_law(&self)
        ensures few { self.now.group.count ≤ 16 }
        ensures keep { AllByRecursion IsEventCallWithinLimits self.now.events }
    {
        // No effect at run time. The proof sees the invariant of `World` only where the body reads a field.
        let _ = &self.alloc;
    }

    /// Runs the events.
    ///
    /// `done` must be 0.
    fn run_all(&mut self, events: &[Event<O::Alloc>]) -> Result<(), Fault>
        requires fit { AllByRecursion EventFits events.now }
        requires none { self.old.done ≡ 0 }
        ensures plays { IsRunOfEvents O.sequential (take self.new.done events.now) self.old self.new }
        ensures all { OnOk result (self.new.done ≡ length events.now) }
        ensures some { OnErr result (self.new.done < length events.now) }
        ensures refused { IfErr result (λ fault. fault ≡ Memory) }
    {
        for event in events {
            self.run_event(event)?;
            self.count_done_event(events.len());
        }
        Ok(())
    }

    /// Adds 1 to the number of done events, which must be below `many`.
    fn count_done_event(&mut self, many: usize)
        requires { self.old.done < many }
        ensures { self.new ≡ record self.old { done = self.old.done + 1 } }
    {
        self.done += 1;
    }

    /// Returns the number of events that the last `run` did, or 0 before the first `run`.
    ///
    /// `run_one` doesn't change it. Does not allocate.
    ///
    /// Rules: The book and the threads 8
    pub fn done(&self) -> u64
        ensures { result ≡ self.now.done }
    {
        self.done
    }

    /// Returns all events since the opening, in order.
    ///
    /// A step in which an allocation failed is there as `Stop`. A submit in which one failed is left out. Does not
    /// allocate.
    ///
    /// Rules: The book and the threads 7 and 8
    pub fn events(&self) -> &[Event<O::Alloc>]
        ensures { result.now ≡ self.now.events }
    {
        &self.run_record.events
    }

    /// Returns the reports to clients, which are the answers and the refused submits, in the order of events.
    ///
    /// Apart from submits in which an allocation failed, these are the reports of the run of `events`. Does not
    /// allocate.
    ///
    /// Rules: The book and the threads 5 and 7
    pub fn told(&self) -> &[Told<O::Alloc>]
        ensures told { result.now ≡ self.now.told }
        ensures events { told_of_events result.now ≡ (world_of O.sequential self.now).told }
    {
        &self.run_record.told
    }

    /// Returns the history of the run: the issued calls and the replies, in the order of events.
    ///
    /// A refused submit and an answer without a reply aren't in it. Does not allocate.
    ///
    /// Rules: The book and the threads 8; Sessions 9
    pub fn history(&self) -> &[Item<O::Alloc>]
        ensures { result.now ≡ (world_of O.sequential self.now).history }
    {
        &self.run_record.history
    }

    /// Returns the order: copies of the calls that take effect in the longest committed log of all nodes, with repeats
    /// removed.
    ///
    /// Nodes that have stopped are included.
    ///
    /// Errors: `Memory` if an allocation fails.
    ///
    /// Rules: The book and the threads 8; Sessions 6 and 10
    pub fn order(&self) -> Result<Vec<Call<O::Alloc>, O::Alloc>, Fault>
        ensures ok { IfOk result (λ calls. calls.items ≡ order (world_of O.sequential self.now)) }
        ensures refused { IfErr result (λ fault. fault ≡ Memory) }
    {
        // A law: no effect at run time. The proof takes from it that the effective calls of the longest log are the
        // order.
        longest_committed_log_law::<O>();
        self.run_record.longest.copy_effective_calls(self.alloc)
    }

    /// Returns the number of calls in `order`.
    ///
    /// Does not allocate.
    ///
    /// Rules: Sessions 10
    pub fn order_len(&self) -> u64
        ensures { result ≡ length (order (world_of O.sequential self.now)) }
    {
        // A law: no effect at run time. The proof takes from it that a node's sessions count the effective calls of its
        // log.
        committed_effects_law::<O>();
        max_effects(&self.nodes)
    }

    /// Returns copies of the calls at the committed places of `node`, from the log's beginning, including repeats.
    ///
    /// Included are places that the node has dropped, and those that a restored snapshot replaces. `node` must be a
    /// processor of the group, 1 to N.
    ///
    /// Errors: `Memory` if an allocation fails.
    ///
    /// Rules: The book and the threads 8; The replicated log 16
    pub fn committed(&self, node: Proc) -> Result<Vec<Call<O::Alloc>, O::Alloc>, Fault>
        requires { node ≤ self.now.group.count }
        ensures ok { IfOk result (λ calls. calls.items ≡ committed_of self.now.group (whole_epochs_in (world_of O.sequential self.now) node)) }
        ensures refused { IfErr result (λ fault. fault ≡ Memory) }
    {
        // A law: no effect at run time. The proof takes from it that a node's committed places are a prefix of the
        // longest log.
        longest_committed_log_law::<O>();
        let place = usize::from(node.number()) - 1;
        let many = self.nodes[place].committed_len();
        self.run_record.longest.copy_first_calls(self.alloc, many)
    }

    /// Returns the node of a processor, after the events that have been run so far.
    ///
    /// The processor must be one of the group, 1 to N. Does not allocate.
    ///
    /// Rules: The book and the threads 8
    pub fn node(&self, node: Proc) -> &Node<O>
        requires { node ≤ self.now.group.count }
        ensures { result.now ≡ (world_of O.sequential self.now).nodes node }
    {
        &self.nodes[usize::from(node.number()) - 1]
    }

    /// Returns the sender and the receivers of frame `number`, or `None` if no frame with this number was sent.
    ///
    /// Frames are numbered from 1 in the order of sending. Does not allocate.
    ///
    /// Rules: The book and the threads 3 and 8
    pub fn frame(&self, number: u64) -> Option<(Proc, ProcSet)>
        ensures { result ≡ option_map (λ (f : Transmission O.Alloc). (f.from, f.to)) (frame_at (world_of O.sequential self.now).frames number) }
    {
        self.run_record.frames.sender_and_receivers(number)
    }

    /// Returns the encodings of all frames ever sent, one after another in the order of sending.
    ///
    /// A frame to several receivers is there once. Does not allocate.
    ///
    /// Rules: The book and the threads 3
    /// Formats: Frames
    pub fn sent_text(&self) -> &[u8]
        ensures { result.now ≡ text_of (world_of O.sequential self.now).frames }
    {
        self.run_record.frames.all_encodings()
    }

    /// Returns the world's group: the number of processors, and their votes.
    ///
    /// Does not allocate.
    ///
    /// Rules: Processors and sets 1
    pub fn fixed(&self) -> Fixed
        ensures { result ≡ self.now.group }
    {
        self.fixed
    }
}

impl<O: Object> World<O> {
    /// Runs one event.
    fn run_event(&mut self, event: &Event<O::Alloc>) -> Result<(), Fault>
        requires fits { EventFits event.now }
        ensures ok { OnOk result (IsEventOutcome O.sequential event.now self.old self.new) }
        ensures err { OnErr result (self.new ≡ self.old) }
        ensures done { self.new.done ≡ self.old.done }
        ensures refused { IfErr result (λ fault. fault ≡ Memory) }
    {
        match event {
            Event::Issue(node, call) => self.submit_and_record(*node, call, event),
            Event::Deliver(node, _) => self.step_and_record(*node, event),
            Event::Noise(_, _) => self.record_event_only(event),
            Event::Timeout(node, _) => self.step_and_record(*node, event),
            Event::Stop(node) => self.stop_and_record(*node, event),
        }
    }

    /// Records an event that changes nothing but the list of events.
    ///
    /// Rules: The book and the threads 4
    fn record_event_only(&mut self, event: &Event<O::Alloc>) -> Result<(), Fault>
        requires fits { EventFits event.now }
        requires same { world_after_event O.sequential (world_of O.sequential self.old) event.now ≡ world_of O.sequential self.old }
        ensures ok { OnOk result (IsEventOutcome O.sequential event.now self.old self.new) }
        ensures err { OnErr result (self.new ≡ self.old) }
        ensures done { self.new.done ≡ self.old.done }
        ensures refused { IfErr result (λ fault. fault ≡ Memory) }
    {
        self.run_record.events.reserve(1)?;
        let kept = copy_event(event)?;
        self.run_record.events.push_reserved(kept);
        Ok(())
    }

    /// Runs a node's step on a frame or a timeout.
    ///
    /// If there is no such node, or the frame wasn't sent to it, only the list of events changes. If an allocation
    /// fails in the step, the node has stopped, and `Stop` is recorded instead of the event.
    fn step_and_record(&mut self, node: Proc, event: &Event<O::Alloc>) -> Result<(), Fault>
        requires { stepping_node event.now ≡ Some node }
        ensures ok { OnOk result (IsEventOutcome O.sequential event.now self.old self.new) }
        ensures err { OnErr result (self.new ≡ self.old) }
        ensures done { self.new.done ≡ self.old.done }
        ensures refused { IfErr result (λ fault. fault ≡ Memory) }
    {
        // Laws: no effect at run time. The proof takes from them that a step gives at most 64 frames and answers, all
        // within the limits.
        step_counts_law::<O>();
        pending_tickets_law::<O>();
        sent_frames_fit_law::<O>();
        let place = usize::from(node.number()) - 1;
        if place >= self.nodes.len() {
            return self.record_event_only(event);
        }
        let is_step = decode_delivered_frame(
            &self.run_record.frames,
            self.alloc,
            event,
            &mut self.buffers.frame_buffer,
        )?;
        if !is_step {
            return self.record_event_only(event);
        }
        self.run_record.make_room()?;
        let kept = copy_event(event)?;
        match step_node(
            &mut self.nodes[place],
            event,
            &self.buffers.frame_buffer,
            &mut self.buffers.outs,
        ) {
            Ok(()) => {
                let many = self.nodes[place].committed_len();
                record_step_outputs(
                    self.alloc,
                    node,
                    many,
                    &mut self.buffers.outs,
                    &mut self.run_record,
                    &mut self.spares[place],
                );
                self.run_record.events.push_reserved(kept);
            }
            Err(fault) => {
                let stop = event_or_stop(fault, kept, node);
                self.run_record.events.push_reserved(stop);
            }
        }
        Ok(())
    }

    /// Stops a node.
    ///
    /// If it isn't in the group, only the list of events changes.
    fn stop_and_record(&mut self, node: Proc, event: &Event<O::Alloc>) -> Result<(), Fault>
        requires { event.now ≡ Stop node }
        ensures ok { OnOk result (IsEventOutcome O.sequential event.now self.old self.new) }
        ensures err { OnErr result (self.new ≡ self.old) }
        ensures done { self.new.done ≡ self.old.done }
        ensures refused { IfErr result (λ fault. fault ≡ Memory) }
    {
        let place = usize::from(node.number()) - 1;
        if place >= self.nodes.len() {
            return self.record_event_only(event);
        }
        self.run_record.events.reserve(1)?;
        stop_node(&mut self.nodes[place], &mut self.buffers.outs);
        self.run_record.events.push_reserved(Event::Stop(node));
        Ok(())
    }

    /// Submits a call at a node.
    ///
    /// If the node isn't in the group, only the list of events changes.
    fn submit_and_record(
        &mut self,
        node: Proc,
        call: &Call<O::Alloc>,
        event: &Event<O::Alloc>,
    ) -> Result<(), Fault>
        requires fits { EventFits event.now }
        requires event { event.now ≡ Issue node call.now }
        ensures ok { OnOk result (IsEventOutcome O.sequential event.now self.old self.new) }
        ensures err { OnErr result (self.new ≡ self.old) }
        ensures done { self.new.done ≡ self.old.done }
        ensures refused { IfErr result (λ fault. fault ≡ Memory) }
    {
        let place = usize::from(node.number()) - 1;
        if place >= self.nodes.len() {
            return self.record_event_only(event);
        }
        self.run_record.make_room()?;
        self.spares[place].make_room()?;
        let copies = issue_copies(event, call)?;
        match self.nodes[place].submit_borrowed(call) {
            Ok(_) => record_submit(
                &mut self.run_record.events,
                &mut self.run_record.history,
                &mut self.spares[place],
                copies,
            ),
            Err(fault) => record_refusal(
                &mut self.run_record.events,
                &mut self.run_record.told,
                node,
                copies,
                fault,
            ),
        }
        Ok(())
    }
}

/// The copies of a submitted call that the world keeps.
#[derive(Drop)]
struct IssueCopies<A: Allocator + Copy> {
    event: Event<A>,
    /// For the history if the node takes the call, for `told` if it refuses.
    call: Call<A>,
    /// For the history when the call is answered.
    spare: Call<A>,
}

/// Returns empty buffers.
///
/// Does not allocate.
fn new_buffers<A: Allocator + Copy>(alloc: A) -> StepBuffers<A> {
    StepBuffers {
        frame_buffer: None,
        outs: Outs::new(alloc),
    }
}

/// Returns the nodes at their opening.
///
/// Errors: `Memory` if an allocation fails.
fn new_nodes<O: Object>(
    alloc: O::Alloc,
    fixed: Fixed,
    count: u8,
) -> Result<Vec<Node<O>, O::Alloc>, Fault>
    requires same { count ≡ fixed.count }
    requires few { count ≤ 16 }
    ensures ok { IfOk result (λ nodes. nodes.items ≡ map (node_opening fixed) (numbers_from 1 count)) }
    ensures refused { IfErr result (λ fault. fault ≡ Memory) }
{
    let mut nodes = Vec::new(alloc);
    for before in 0..count {
        let me = Proc::new(before + 1);
        let node = Node::new(alloc, fixed, me)?;
        nodes.push(node)?;
    }
    Ok(nodes)
}

/// Returns copies of the nodes.
///
/// Errors: `Memory` if an allocation fails.
fn copy_nodes<O: Object>(
    alloc: O::Alloc,
    nodes: &[Node<O>],
) -> Result<Vec<Node<O>, O::Alloc>, Fault>
    ensures ok { IfOk result (λ copies. copies.items ≡ nodes.now) }
    ensures refused { IfErr result (λ fault. fault ≡ Memory) }
{
    let mut copies = Vec::with_capacity(alloc, nodes.len())?;
    for node in nodes {
        let copy = node.copy()?;
        copies.push(copy)?;
    }
    Ok(copies)
}

/// Returns an empty list of second copies for each of `count` nodes.
///
/// Errors: `Memory` if an allocation fails.
fn new_spares<A: Allocator + Copy>(alloc: A, count: u8) -> Result<Vec<SpareCalls<A>, A>, Fault>
    ensures many { IfOk result (λ spares. length spares.items ≡ count) }
    ensures none { IfOk result (λ spares. AllByRecursion (λ (s : ToldSpares A). s.calls ≡ []) spares.items) }
    ensures refused { IfErr result (λ fault. fault ≡ Memory) }
{
    let mut spares = Vec::new(alloc);
    for _ in 0..count {
        spares.push(SpareCalls::new(alloc))?;
    }
    Ok(spares)
}

/// Decodes the frame that the event delivers into `place`, and returns whether the event is a step of its node.
///
/// It is for a timeout, and for a frame that was sent to that node.
///
/// Errors: only `Memory`, if an allocation fails.
fn decode_delivered_frame<A: Allocator + Copy>(
    frames: &FrameStore<A>,
    alloc: A,
    event: &Event<A>,
    place: &mut Option<Frame<A>>,
) -> Result<bool, Fault>
    ensures is { IfOk result (λ is. is ≡ is_some (event_input event.now (delivered_frame event.now frames.now.frames))) }
    ensures input { IfOk result (λ is. is ≡ true → event_input event.now place.new ≡ event_input event.now (delivered_frame event.now frames.now.frames)) }
    ensures refused { IfErr result (λ fault. fault ≡ Memory) }
{
    match event {
        Event::Deliver(node, number) => frames.decode_if_sent_to(alloc, *node, *number, place),
        Event::Timeout(_, _) => Ok(true),
        Event::Issue(_, _) | Event::Noise(_, _) | Event::Stop(_) => Ok(false),
    }
}

/// Runs the node's step on the event, with the frame in `place` if the event delivers one.
fn step_node<O: Object>(
    node: &mut Node<O>,
    event: &Event<O::Alloc>,
    place: &Option<Frame<O::Alloc>>,
    outs: &mut Outs<O::Alloc>,
) -> Result<(), Fault>
    requires is { IsSome (event_input event.now place.now) }
    requires fits { IfSome (event_input event.now place.now) InputFits }
    ensures { IfSome (event_input event.now place.now) (λ input. HasStepped O.sequential node.old input result node.new outs.new) }
{
    match event {
        Event::Deliver(_, _) => match place {
            Some(frame) => node.receive_into(frame, outs),
            None => unreachable!(),
        },
        Event::Timeout(_, kind) => time_out(node, *kind, outs),
        _ => unreachable!(),
    }
}

/// Runs the node's step on a timeout.
///
/// A function of its own keeps the large stack slot of an input out of the caller.
#[inline(never)]
fn time_out<O: Object>(
    node: &mut Node<O>,
    kind: Kind,
    outs: &mut Outs<O::Alloc>,
) -> Result<(), Fault>
    ensures { HasStepped O.sequential node.old (TimeInput kind) result node.new outs.new }
{
    node.step_into(&Input::Timeout(kind), outs)
}

/// Returns the copies of an event that issues this call.
///
/// Errors: `Memory` if an allocation fails.
fn issue_copies<A: Allocator + Copy>(
    event: &Event<A>,
    call: &Call<A>,
) -> Result<IssueCopies<A>, Fault>
    ensures event { IfOk result (λ copies. copies.event ≡ event.now) }
    ensures call { IfOk result (λ copies. copies.call ≡ call.now) }
    ensures spare { IfOk result (λ copies. copies.spare ≡ call.now) }
    ensures keeps { IfOk result (λ _. EventFits event.now → IsEventCallWithinLimits event.now) }
    ensures refused { IfErr result (λ fault. fault ≡ Memory) }
{
    let event = copy_event(event)?;
    let call = copy_of(call)?;
    let spare = copy_of(&call)?;
    Ok(IssueCopies { event, call, spare })
}

/// Records a submit that the node took.
///
/// There must be room.
fn record_submit<A: Allocator + Copy>(
    events: &mut Vec<Event<A>, A>,
    history: &mut Vec<Item<A>, A>,
    spares: &mut SpareCalls<A>,
    copies: IssueCopies<A>,
)
    requires events_room { vec_len events.old + 1 ≤ vec_capacity events.old }
    requires history_room { vec_len history.old + 1 ≤ vec_capacity history.old }
    requires spares_room { 0 < spares.old.places }
    ensures events { events.new.items ≡ events.old.items ++ copies.event ∷ [] }
    ensures history { history.new.items ≡ history.old.items ++ IssuedItem copies.call ∷ [] }
    ensures spares { spares.new.calls ≡ spares.old.calls ++ Some copies.spare ∷ [] }
{
    events.push_reserved(copies.event);
    history.push_reserved(Item::Issue(copies.call));
    spares.append_copy(copies.spare);
}

/// Stops a node, without outputs.
///
/// A stopped node is unchanged. Does not allocate.
#[inline(never)]
fn stop_node<O: Object>(node: &mut Node<O>, outs: &mut Outs<O::Alloc>)
    ensures { node.new ≡ node_stopped node.old }
{
    let _ = node.step_into(&Input::Stop, outs);
}

/// Records a refused submit, and its event unless the refusal is `Memory`.
///
/// There must be room.
fn record_refusal<A: Allocator + Copy>(
    events: &mut Vec<Event<A>, A>,
    told: &mut Vec<Told<A>, A>,
    node: Proc,
    copies: IssueCopies<A>,
    fault: Fault,
)
    requires events_room { vec_len events.old + 1 ≤ vec_capacity events.old }
    requires told_room { vec_len told.old + 64 ≤ vec_capacity told.old }
    ensures told { told.new.items ≡ told.old.items ++ ToldRefused node copies.call (fault_number fault) ∷ [] }
    ensures left_out { fault ≡ Memory → events.new.items ≡ events.old.items }
    ensures kept { (fault ≡ Memory → ⊥) → events.new.items ≡ events.old.items ++ copies.event ∷ [] }
{
    told.push_reserved(Told::Refused(node, copies.call, fault.number()));
    match fault {
        Fault::Memory => drop_event(copies.event),
        _ => events.push_reserved(copies.event),
    }
}

/// Drops the event.
fn drop_event<A: Allocator + Copy>(_event: Event<A>) {}

/// Returns the event to record for a refused step: itself if the node had already stopped, and `Stop` if an allocation
/// failed.
fn event_or_stop<A: Allocator + Copy>(fault: Fault, event: Event<A>, node: Proc) -> Event<A>
    ensures stopped { fault ≡ StoppedFault → result ≡ event }
    ensures memory { ¬ (fault ≡ StoppedFault) → result ≡ Stop node }
{
    match fault {
        Fault::Stopped => event,
        _ => {
            drop_event(event);
            Event::Stop(node)
        }
    }
}

/// Records the outputs of a node's step: its frames, its answers, and the newly committed calls.
///
/// `committed` is the node's committed length after the step. The frames must be within the limits of their format, and
/// there must be room.
fn record_step_outputs<A: Allocator + Copy>(
    alloc: A,
    node: Proc,
    committed: u64,
    outs: &mut Outs<A>,
    run_record: &mut RunRecord<A>,
    spares: &mut SpareCalls<A>,
)
    requires fit { AllByRecursion (λ (s : OneSent A). FrameFits s.frame) outs.old.sends.items }
    requires room { HasRoom (length outs.old.sends.items) run_record.old.frames }
    requires left { HaveCopies spares.old.calls outs.old.answers.items }
    requires told_room { vec_len run_record.old.told + length outs.old.answers.items ≤ vec_capacity run_record.old.told }
    requires history_room { vec_len run_record.old.history + length outs.old.answers.items ≤ vec_capacity run_record.old.history }
    requires longest_room { 0 < run_record.old.longest.places }
    ensures events { run_record.new.events ≡ run_record.old.events }
    ensures frames { run_record.new.frames.frames ≡ run_record.old.frames.frames ++ carried_frames node outs.old.sends.items }
    ensures told { run_record.new.told.items ≡ run_record.old.told.items ++ reports_of_answers node outs.old.answers.items }
    ensures history { run_record.new.history.items ≡ run_record.old.history.items ++ reply_items_of outs.old.answers.items }
    ensures spares { spares.new.calls ≡ copies_after_answers spares.old.calls outs.old.answers.items }
    ensures longest { let calls = run_record.old.longest.calls in
        run_record.new.longest.calls ≡ calls ++ calls_past (length calls) committed outs.old.committed.items }
{
    record_frames(&mut run_record.frames, node, &outs.sends);
    record_answers(
        alloc,
        &mut run_record.told,
        &mut run_record.history,
        spares,
        node,
        &mut outs.answers,
    );
    run_record
        .longest
        .append_newly_committed(alloc, committed, &mut outs.committed);
}

/// Records the frames that a node sent.
///
/// They must be within the limits of their format, and there must be room.
fn record_frames<A: Allocator + Copy>(
    frames: &mut FrameStore<A>,
    from: Proc,
    sends: &[OutgoingFrame<A>],
)
    requires fit { AllByRecursion (λ (s : OneSent A). FrameFits s.frame) sends.now }
    requires room { HasRoom (length sends.now) frames.old }
    ensures { frames.new.frames ≡ frames.old.frames ++ carried_frames from sends.now }
{
    for sent in sends {
        frames.append_frame(from, sent.to, &sent.frame);
    }
}
