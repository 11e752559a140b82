//! A network over a world, which its ports share.
//!
//! Rules: Clients 8
//! Formats: Pump

ghost use Rattle.std.specs.Prelude.{◌≡◌, ◌<◌, ◌≤◌, ◌⊎◌, drop, Some, None, IfOk, IfErr, IfSome, IfNone, OnOk, OnErr, length, slice_get};
ghost use Rattle.ring_base.specs.Numbers.{saturating_successor};
ghost use Rattle.ring_base.specs.Processors.{everybody, intersection};
ghost use Rattle.ring_base.specs.declared.fault.Fault.TheVariants.{Memory};
ghost use Rattle.ring_client.specs.Asking.{asked_after_submit, IsClientVisible};
ghost use Rattle.ring_node_spec.specs.WorldLimits.{EventFits};
ghost use Rattle.ring_world.specs.OpenCopies.{frames_of, all_copies};
ghost use Rattle.ring_world.specs.Pumping.{HasRunEvent, IsUnchanged};
ghost use Rattle.ring_world.specs.WorldView.{world_of};
ghost use Rattle.ring_world_port.specs.Answers.{first_answer_in, submitted_call_of, IsToldSince, HasTold};
ghost use Rattle.ring_world_port.specs.Network.{IsNetworkUnchanged, IsIssuable, IsIssued, IsNotIssued, HappensIf, HasTurned, HasLostTurn};
ghost use Rattle.ring_world_port.specs.Network.{fault_of, hears, delivery_event, timeout_kind, timeout_in, refusal_in};

use crate::submitted_call::SubmittedCall;
use ring_base::{Fault, Kind, Proc, ProcSet, State};
use ring_client::Op;
use ring_node_spec::{Event, Told};
use ring_object::Object;
use ring_payload::{Call, MAX_OPERATION};
use ring_session::{Answer, copy_of};
use ring_world::{OpenCopy, Pump, World};
use std::alloc::Allocator;
use std::cell::Cell;
use std::marker::Model;

/// A world, the open copies of its frames, and the group of nodes that hear each other.
///
/// A frame that is sent opens a copy for each of its receivers. A turn closes the first open copy, which is that of the
/// frame sent first to the smallest receiver. The copy is delivered if sender and receiver are in the group, and is
/// otherwise lost. If no copy is open, a turn is a timeout of the next member of the group. In Gather its kind is Join
/// in one round and Consensus in the next; in any other state it is Loss.
///
/// Contracts see a `NetworkView`.
///
/// Rules: Clients 8
/// Formats: Pump
#[derive(Drop)]
pub struct Network<O: Object> {
    pump: Pump<O>,
    group: ProcSet,
    /// The number of timeouts so far.
    ///
    /// It saturates at `u64::MAX`.
    timeouts: u64,
}

impl<O: Object> Model for Network<O> {
    ghost use Rattle.ring_base.specs.Processors.{everybody, within};
    ghost use Rattle.ring_world_port.specs.Network.{NetworkView};
    ghost use Rattle.std.specs.Prelude.{◌≡◌, true};

    ghost Value = { NetworkView O.Alloc };

    ghost view = { λ n. record { pump = n.pump; group = n.group; timeouts = n.timeouts } };

    ghost invariant = { λ n. within n.group (everybody n.pump.world_view.group.count) ≡ true };
}

/// The handle to poll for the answer to a call submitted at a node.
///
/// Contracts see the call with its node, and how many answers and refusals the world had reported at the submit.
///
/// Rules: Clients 2 and 8
#[derive(Drop)]
pub struct WorldTicket {
    call: SubmittedCall,
    /// The length of the world's `told` list when the call was submitted.
    submit_index: usize,
    /// The index in `told` at which the next search begins.
    next_search_index: Cell<usize>,
}

impl Model for WorldTicket {
    ghost use Rattle.ring_world_port.specs.Answers.{TicketView};

    ghost Value = { TicketView };

    ghost view = { λ ticket. record { call = ticket.call; submit_index = ticket.submit_index } };
}

impl<O: Object> Network<O> {
    /// Creates the network of a world, in which all nodes hear each other and no timeout has been counted.
    ///
    /// A copy of each frame sent so far is open for each of its receivers; turns deliver or lose them.
    ///
    /// Rules: Clients 8
    /// Formats: Pump
    pub fn new(world: World<O>) -> Network<O>
        ensures pump { result.pump ≡ record { world_view = world; open_copies = all_copies (frames_of O.sequential world) } }
        ensures group { result.group ≡ everybody world.group.count }
        ensures timeouts { result.timeouts ≡ 0 }
    {
        let group = world.fixed().everybody();
        Network {
            pump: Pump::new(world),
            group,
            timeouts: 0,
        }
    }

    /// Sets the group of processors that hear each other.
    ///
    /// Processors outside the world are left out. Pass all processors to heal a cut. A copy is lost if its sender or
    /// receiver is outside the group when it is closed, even if it was open before the cut. Without members no node
    /// times out.
    ///
    /// Rules: Clients 8
    pub fn cut(&mut self, group: ProcSet)
        ensures { self.new ≡ record (self.old) { group = intersection group (everybody self.old.pump.world_view.group.count) } }
    {
        self.group = group.intersection(self.world().fixed().everybody());
    }

    /// Returns the world, after the submits and turns so far.
    ///
    /// Rules: The book and the threads 8
    pub fn world(&self) -> &World<O>
        ensures { result.now ≡ self.now.pump.world_view }
    {
        self.pump.world()
    }

    /// Submits a copy of a call at a node.
    ///
    /// After Ok the node has taken it, and the world has the event. The open copies, the group and the count of
    /// timeouts are unchanged.
    ///
    /// Errors that change nothing, in this order: `NotMember` if the world has no such node. `OpTooLong` if the
    /// operation has more than 1,024 bytes. `NumberGap` if the call's number is 0. `Memory` if an allocation for the
    /// call's copy or the event fails.
    ///
    /// Errors of the node, which is then unchanged; the world reports the refusal. `Stopped` if the node has stopped,
    /// and `PendingFull` if 64 of its tickets are unanswered or 2^62 have been given: the world then has the event,
    /// too. `Memory` if an allocation of the node fails: the world then doesn't have the event.
    ///
    /// Rules: Clients 8; The replicated log 13
    pub fn submit(&mut self, node: Proc, call: &Call<O::Alloc>) -> Result<(), Fault>
        ensures fits { OnOk result (IsIssuable node call.now self.old) }
        ensures issued { OnOk result (IsIssued O.sequential node call.now self.old self.new) }
        ensures refused { IfErr result (IsNotIssued O.sequential node call.now self.old self.new) }
    {
        self.world().fixed().proc(node.number())?;
        if call.op.as_slice().len() > MAX_OPERATION {
            return Err(Fault::OpTooLong);
        }
        if call.number == 0 {
            return Err(Fault::NumberGap);
        }
        let before = self.world().told().len();
        self.run_event(Event::Issue(node, copy_of(call)?))?;
        if let Err(fault) = refusal_at(self.world().told(), before) {
            return Err(fault);
        }
        Ok(())
    }

    /// Performs the turn that is due.
    ///
    /// It closes the first open copy, and delivers or loses it. If no copy is open, the next timeout of a member of the
    /// group runs and is counted; without members it is only counted. The count saturates at `u64::MAX`. An allocation
    /// that fails in the node isn't an error: see [`Pump::run_event`].
    ///
    /// Errors: `Memory` if an allocation for the world's records fails. A closed copy is then lost, and nothing else
    /// has changed.
    ///
    /// Rules: Clients 8
    /// Formats: Pump
    pub fn turn(&mut self) -> Result<(), Fault>
        ensures ok { OnOk result (HasTurned O.sequential self.old self.new) }
        ensures err { OnErr result (HasLostTurn self.old self.new) }
        ensures refused { IfErr result (λ fault. fault ≡ Memory) }
    {
        match self.pump.close_first_copy() {
            Some(open_copy) => self.deliver_or_lose(open_copy),
            None => self.run_next_timeout(),
        }
    }

    /// Runs one event in the world, such as a stop, which no turn produces.
    ///
    /// A copy is opened for each receiver of each frame that it sends, and none is closed. The group and the count of
    /// timeouts are unchanged. A call in the event must be within the limits of a call, as every one from `Call::new`
    /// is. An allocation that fails in the node isn't an error: see [`Pump::run_event`].
    ///
    /// Errors: `Memory` if an allocation for the world's records fails; nothing has then changed.
    ///
    /// Rules: The book and the threads 2 and 7
    pub fn run_event(&mut self, event: Event<O::Alloc>) -> Result<(), Fault>
        requires { EventFits event }
        ensures done { OnOk result (HasRunEvent O.sequential event self.old.pump self.new.pump) }
        ensures rests { OnErr result (IsUnchanged self.old.pump self.new.pump) }
        ensures group { self.new.group ≡ self.old.group }
        ensures timeouts { self.new.timeouts ≡ self.old.timeouts }
        ensures refused { IfErr result (λ fault. fault ≡ Memory) }
    {
        self.pump.run_event(event)
    }

    /// Submits a call at a node as `submit` does, and returns the handle to poll for its answer.
    ///
    /// Errors: those of `submit`, with the same state left.
    ///
    /// Rules: Clients 2 and 8
    pub(crate) fn submit_for_ticket(
        &mut self,
        node: Proc,
        call: &Call<O::Alloc>,
    ) -> Result<WorldTicket, Fault>
        ensures ticket { IfOk result (λ ticket. ticket.call ≡ submitted_call_of node (asked_after_submit call.now)) }
        ensures submit_index { IfOk result (λ ticket. ticket.submit_index ≡ length self.new.pump.world_view.told) }
        ensures fits { OnOk result (IsIssuable node call.now self.old) }
        ensures issued { OnOk result (IsIssued O.sequential node call.now self.old self.new) }
        ensures refused { IfErr result (IsNotIssued O.sequential node call.now self.old self.new) }
    {
        self.submit(node, call)?;
        let op = call.op.as_slice();
        let submit_index = self.world().told().len();
        Ok(WorldTicket {
            call: SubmittedCall {
                node,
                client: call.client,
                number: call.number,
                op: Op::from_slice(&op[..op.len().min(MAX_OPERATION)]),
            },
            submit_index,
            next_search_index: Cell::new(submit_index),
        })
    }

    /// Returns the answer to the ticket's call if the world has reported it since the submit.
    ///
    /// Otherwise returns `None` and performs a turn; if an allocation fails in the turn, that is ignored. Reports that
    /// an earlier poll of the ticket has searched aren't searched again.
    ///
    /// Rules: Clients 8
    pub(crate) fn poll_answer(&mut self, ticket: &WorldTicket) -> Option<Answer>
        ensures told { IfSome result IsClientVisible }
        ensures here { IfSome result (IsToldSince ticket.now self.old.pump.world_view.told) }
        ensures given { IfSome result (HasTold O.Alloc O.sequential ticket.now) }
        ensures same { IfSome result (λ _. self.new ≡ self.old) }
        ensures turn { IfNone result (HasTurned O.sequential self.old self.new ⊎ HasLostTurn self.old self.new) }
    {
        let told = self.world().told().len();
        let scanned = ticket.next_search_index.get().max(ticket.submit_index);
        let answer = self.answer_or_turn(&ticket.call, scanned);
        if answer.is_none() {
            ticket.next_search_index.set(told);
        }
        answer
    }

    /// Returns the first answer to the call in `told` from index `scanned` on.
    ///
    /// If there is none, performs a turn; if an allocation fails in the turn, that is ignored.
    fn answer_or_turn(&mut self, call: &SubmittedCall, scanned: usize) -> Option<Answer>
        ensures answer { result ≡ first_answer_in call.now (drop scanned self.old.pump.world_view.told) }
        ensures told { IfSome result IsClientVisible }
        ensures same { IfSome result (λ _. self.new ≡ self.old) }
        ensures turn { IfNone result (HasTurned O.sequential self.old self.new ⊎ HasLostTurn self.old self.new) }
    {
        let answer = call.first_answer_in(reports_from(self.world().told(), scanned));
        if answer.is_none() {
            let _ = self.turn();
        }
        answer
    }
}

impl<O: Object> Network<O> {
    /// Delivers the copy to its receiver, or loses it.
    ///
    /// Errors: those of `run_event`.
    fn deliver_or_lose(&mut self, open_copy: OpenCopy) -> Result<(), Fault>
        ensures ok { OnOk result (HappensIf O.sequential (delivery_event (hears self.old.group open_copy.sender open_copy.receiver) open_copy) self.old.pump self.new.pump) }
        ensures err { OnErr result (IsUnchanged self.old.pump self.new.pump) }
        ensures group { self.new.group ≡ self.old.group }
        ensures timeouts { self.new.timeouts ≡ self.old.timeouts }
        ensures refused { IfErr result (λ fault. fault ≡ Memory) }
    {
        if !self.are_in_group(open_copy.sender, open_copy.receiver) {
            return Ok(());
        }
        self.run_event(Event::Deliver(open_copy.receiver, open_copy.frame))
    }

    /// Returns whether the receiver hears the sender: both are in the group.
    fn are_in_group(&self, sender: Proc, receiver: Proc) -> bool
        ensures { result ≡ hears self.now.group sender receiver }
    {
        self.group.contains(sender) && self.group.contains(receiver)
    }

    /// Runs the next timeout and counts it.
    ///
    /// Errors: those of `run_event`.
    fn run_next_timeout(&mut self) -> Result<(), Fault>
        ensures ok { OnOk result (HappensIf O.sequential (timeout_in (world_of O.sequential self.old.pump.world_view) self.old.group self.old.timeouts)
            self.old.pump self.new.pump) }
        ensures timeouts { OnOk result (self.new.timeouts ≡ saturating_successor self.old.timeouts) }
        ensures err { OnErr result (IsNetworkUnchanged self.old self.new) }
        ensures group { self.new.group ≡ self.old.group }
        ensures refused { IfErr result (λ fault. fault ≡ Memory) }
    {
        self.run_timeout_of_member()?;
        self.timeouts = self.timeouts.saturating_add(1);
        Ok(())
    }

    /// Runs the timeout of the group's member whose turn it is, if the group has a member.
    ///
    /// Errors: those of `run_event`.
    fn run_timeout_of_member(&mut self) -> Result<(), Fault>
        ensures ok { OnOk result (HappensIf O.sequential (timeout_in (world_of O.sequential self.old.pump.world_view) self.old.group self.old.timeouts)
            self.old.pump self.new.pump) }
        ensures err { OnErr result (IsUnchanged self.old.pump self.new.pump) }
        ensures group { self.new.group ≡ self.old.group }
        ensures timeouts { self.new.timeouts ≡ self.old.timeouts }
        ensures refused { IfErr result (λ fault. fault ≡ Memory) }
    {
        let members = u64::from(self.group.len());
        if members == 0 {
            return Ok(());
        }
        let node = self.group.at((self.timeouts % members) as u32).unwrap();
        let state = self.world().node(node).state();
        let kind = timeout_kind(state, self.timeouts / members);
        self.run_event(Event::Timeout(node, kind))
    }
}

/// Returns the kind of timeout for a node in this state, in this round of timeouts, when no copy is open.
fn timeout_kind(state: State, round: u64) -> Kind
    ensures { result ≡ timeout_kind state round }
{
    match state {
        State::Gather => {
            if round % 2 == 0 {
                Kind::Join
            } else {
                Kind::Consensus
            }
        }
        _ => Kind::Loss,
    }
}

/// Returns the fault with this number, among those with which a node refuses a submit.
fn fault_of_submit_refusal(number: u8) -> Fault
    ensures { result ≡ fault_of number }
{
    match number {
        2 => Fault::PendingFull,
        8 => Fault::Stopped,
        _ => Fault::Memory,
    }
}

/// Returns the refusal at index `place` of the list as an error, if there is one.
fn refusal_at<A: Allocator + Copy>(told: &[Told<A>], place: usize) -> Result<(), Fault>
    ensures ok { OnOk result (refusal_in (slice_get told.now place) ≡ None) }
    ensures refused { IfErr result (λ fault. refusal_in (slice_get told.now place) ≡ Some fault) }
{
    match told.get(place) {
        Some(Told::Refused(_, _, number)) => Err(fault_of_submit_refusal(*number)),
        _ => Ok(()),
    }
}

/// Returns the list without its first `many` reports.
fn reports_from<A: Allocator + Copy>(told: &[Told<A>], many: usize) -> &[Told<A>]
    ensures { result.now ≡ drop many told.now }
{
    &told[many.min(told.len())..]
}
