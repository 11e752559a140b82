//! A world of ring cores: the cores of all processors, the outputs of all steps, and the events that change them.
//!
//! Rules: Rings and states 5 and 14

ghost use Rattle.std.specs.Prelude.{◌≡◌, [], ◌∷◌, ◌++◌, ◌≤◌, ◌-◌, length, map, filter_map, IfOk, IfErr, OnOk, option_copied};
ghost use Rattle.ring_base.specs.declared.fault.Fault.TheVariants.{Memory, Stopped as StoppedFault};
ghost use Rattle.ring_base.specs.Numbers.{numbers_from};
ghost use Rattle.ring_core_spec.specs.State.{formed, opening, frame_at, frame_for};
ghost use Rattle.ring_core_proof.specs.Limits.{EventFits, InputFits};
ghost use Rattle.ring_core_proof.specs.declared.event.RingEvent.TheVariants.{Deliver, Stop};
ghost use Rattle.ring_core_proof.specs.Worlds.{transmission_by, stepped, world_after_event};
ghost use Rattle.ring_core_world.specs.Running.{places_from, places_of, step_outputs, world_of, more, empty_run, empty_formed_run, opening_frames};

use crate::frame_lookup::{copied_frame, copied_payload, formed_ring_frame, numbered_frame};
use crate::history::{WorldHistory, history_of_unformed, history_with_event, ring_formed};
use ring_base::{Fault, Fixed, Ghost, Proc};
use ring_core_proof::RingEvent;
use ring_core_spec::{Input, Out, OutgoingFrame};
use ring_srp::Srp;
use ring_wire::Frame;
use std::alloc::{Allocator, Global};
use std::marker::Model;

/// The ring cores of all processors, with all outputs since the opening.
///
/// Contracts see the opening and the events.
///
/// Rules: Rings and states 14
#[derive(Drop)]
pub struct CoreWorld<A: Allocator + Copy = Global> {
    /// The core of processor i is at index i - 1.
    cores: Vec<Srp<A>, A>,
    /// In a formed ring, frame 1: the frame that the representative sent at the opening.
    opening_frame: Option<OutgoingFrame<A>>,
    /// All outputs in order, each with its processor.
    outs: Vec<(Proc, Out<A>), A>,
    /// The index in `outs` of each frame sent.
    places: Vec<usize, A>,
    history: Ghost<WorldHistory<A>>,
}

impl<A: Allocator + Copy> Model for CoreWorld<A> {
    ghost use Rattle.ring_core_world.specs.Running.{WorldRun, IsWorld, world_of};

    ghost Value = { WorldRun A };

    ghost view = { λ w. w.history.value };

    ghost invariant = { λ w. IsWorld (world_of w.history.value) w.cores.items w.opening_frame w.outs.items w.places.items };
}

impl<A: Allocator + Copy> CoreWorld<A> {
    /// Creates the world at the opening: each processor 1 to N is alone in Gather, and no frame has been sent.
    ///
    /// Errors: `Memory` if an allocation fails.
    ///
    /// Rules: Rings and states 5 and 14
    pub fn unformed(alloc: A, fixed: Fixed) -> Result<CoreWorld<A>, Fault>
        ensures ok { IfOk result (λ world. world ≡ empty_run fixed.count) }
        ensures refused { IfErr result (λ fault. fault ≡ Memory) }
    {
        let count = fixed.count();
        let cores = cores_at_opening(alloc, fixed, count)?;
        let outs = Vec::new(alloc);
        let places = Vec::new(alloc);
        let history = history_of_unformed(fixed);
        Ok(CoreWorld {
            cores,
            opening_frame: None,
            outs,
            places,
            history,
        })
    }

    /// Creates the world of a formed ring: all processors are in the ring (1, 1) with nothing held.
    ///
    /// The representative has visited the first token. The token that it then sent is frame 1.
    ///
    /// Errors: `Memory` if an allocation fails.
    ///
    /// Rules: Rings and states 14
    pub fn formed(alloc: A, fixed: Fixed) -> Result<CoreWorld<A>, Fault>
        ensures ok { IfOk result (λ world. world ≡ empty_formed_run fixed.count) }
        ensures refused { IfErr result (λ fault. fault ≡ Memory) }
    {
        let count = fixed.count();
        let (core, sent) = Srp::representative_started(alloc, fixed)?;
        let first = opening_frame(sent);
        let cores = cores_in_formed_ring(alloc, fixed, count, core)?;
        let outs = Vec::new(alloc);
        let places = Vec::new(alloc);
        let history = ring_formed(fixed);
        Ok(CoreWorld {
            cores,
            opening_frame: first,
            outs,
            places,
            history,
        })
    }

    /// Applies an event to the world and returns the world after it.
    ///
    /// The outputs of the step are added at the end of [`outs`](CoreWorld::outs). An event changes nothing if it names
    /// an unknown processor or a stopped one, or a frame that wasn't sent or wasn't sent to that processor. A payload
    /// in it must be within the limits of its format, as every decoded payload is. A stop does not allocate.
    ///
    /// Errors: `Memory` if an allocation fails; the world is lost.
    ///
    /// Rules: Rings and states 14
    pub fn apply_event(self, event: &RingEvent<A>) -> Result<CoreWorld<A>, Fault>
        requires { EventFits event.now }
        ensures ok { IfOk result (λ world. world ≡ more self event.now) }
        ensures refused { IfErr result (λ fault. fault ≡ Memory) }
    {
        match event {
            RingEvent::Send(node, payload) => {
                let payload = copied_payload(payload)?;
                self.step(*node, Input::Send(payload), event)
            }
            RingEvent::Deliver(node, number) => self.deliver(*node, *number, event),
            RingEvent::Timeout(node, kind) => self.step(*node, Input::Timeout(*kind), event),
            RingEvent::Stop(node) => Ok(self.stop(*node, event)),
        }
    }

    /// Delivers frame `number` to a processor, if it was sent to this processor.
    fn deliver(self, node: Proc, number: u64, event: &RingEvent<A>) -> Result<CoreWorld<A>, Fault>
        requires { event.now ≡ Deliver node number }
        ensures ok { IfOk result (λ world. world ≡ more self event.now) }
        ensures refused { IfErr result (λ fault. fault ≡ Memory) }
    {
        let frame = match self.frame_to(node, number) {
            Some(frame) => copied_frame(frame)?,
            None => return Ok(self.record_idle_event(event)),
        };
        self.step(node, Input::Frame(frame), event)
    }

    /// Returns frame `number` if it was sent to this processor. Frames are numbered from 1 in the order of sending.
    fn frame_to(&self, node: Proc, number: u64) -> Option<&Frame<A>>
        ensures { option_copied result ≡ frame_for node (frame_at (world_of self.now).frames number) }
    {
        let places = self.places.as_slice();
        let outs = self.outs.as_slice();
        match &self.opening_frame {
            Some(first) => formed_ring_frame(first, places, outs, node, number),
            None => numbered_frame(places, outs, node, number),
        }
    }

    /// Runs one step of a processor's core. An unknown processor changes nothing.
    fn step(
        mut self,
        node: Proc,
        input: Input<A>,
        event: &RingEvent<A>,
    ) -> Result<CoreWorld<A>, Fault>
        requires fits { InputFits input }
        requires same { world_after_event (world_of self) event.now ≡ stepped (world_of self) node input }
        ensures ok { IfOk result (λ world. world ≡ more self event.now) }
        ensures refused { IfErr result (λ fault. fault ≡ Memory) }
    {
        let place = usize::from(node.number()) - 1;
        if place >= self.cores.len() {
            return Ok(self.record_idle_event(event));
        }
        let stepped = self.cores[place].step(input);
        match record_step(&mut self.outs, &mut self.places, node, stepped) {
            Ok(()) => {
                self.history = history_with_event(&self.history, event);
                Ok(self)
            }
            Err(fault) => Err(fault),
        }
    }

    /// Stops a processor's core. An unknown processor changes nothing.
    fn stop(mut self, node: Proc, event: &RingEvent<A>) -> CoreWorld<A>
        requires { event.now ≡ Stop node }
        ensures { result ≡ more self event.now }
    {
        let place = usize::from(node.number()) - 1;
        if place >= self.cores.len() {
            return self.record_idle_event(event);
        }
        self.cores[place].stop();
        self.history = history_with_event(&self.history, event);
        self
    }

    /// Records an event that changes nothing.
    fn record_idle_event(mut self, event: &RingEvent<A>) -> CoreWorld<A>
        requires { world_after_event (world_of self) event.now ≡ world_of self }
        ensures { result ≡ more self event.now }
    {
        self.history = history_with_event(&self.history, event);
        self
    }

    /// Returns all outputs since the opening in order, each with its processor.
    ///
    /// The outputs of the opening of a formed ring aren't included. Does not allocate.
    ///
    /// Rules: Rings and states 15
    pub fn outs(&self) -> &[(Proc, Out<A>)]
        ensures { result.now ≡ (world_of self.now).outs }
    {
        &self.outs
    }

    /// Consumes the world, and returns all outputs since the opening in order, each with its processor.
    ///
    /// The outputs of the opening of a formed ring aren't included. Does not allocate.
    ///
    /// Rules: Rings and states 15
    pub fn into_outs(self) -> Vec<(Proc, Out<A>), A>
        ensures { result.items ≡ (world_of self).outs }
    {
        self.outs
    }
}

/// Returns the cores of all processors at the opening.
fn cores_at_opening<A: Allocator + Copy>(
    alloc: A,
    fixed: Fixed,
    count: u8,
) -> Result<Vec<Srp<A>, A>, Fault>
    requires count { count ≡ fixed.count }
    requires few { count ≤ 16 }
    ensures ok { IfOk result (λ cores. cores.items ≡ map (opening fixed.count) (numbers_from 1 count)) }
    ensures refused { IfErr result (λ fault. fault ≡ Memory) }
{
    let mut cores = Vec::new(alloc);
    for before in 0..count {
        let me = Proc::new(before + 1);
        let core = Srp::new(alloc, fixed, me)?;
        cores.push(core)?;
    }
    Ok(cores)
}

/// Returns the cores of all processors in the formed ring, with the representative's core as the first.
fn cores_in_formed_ring<A: Allocator + Copy>(
    alloc: A,
    fixed: Fixed,
    count: u8,
    representative: Srp<A>,
) -> Result<Vec<Srp<A>, A>, Fault>
    requires count { count ≡ fixed.count }
    requires some { 1 ≤ count }
    requires few { count ≤ 16 }
    ensures ok { IfOk result (λ cores. cores.items ≡ representative ∷ map (formed fixed.count) (numbers_from 2 (count - 1))) }
    ensures refused { IfErr result (λ fault. fault ≡ Memory) }
{
    let mut cores = Vec::new(alloc);
    cores.push(representative)?;
    for before in 1..count {
        let me = Proc::new(before + 1);
        let core = Srp::formed(alloc, fixed, me)?;
        cores.push(core)?;
    }
    Ok(cores)
}

/// Returns the frame of the last output, if it is a send.
fn opening_frame<A: Allocator + Copy>(mut outs: Vec<Out<A>, A>) -> Option<OutgoingFrame<A>>
    requires { length outs.items ≤ 1 }
    ensures { opening_frames result ≡ filter_map (transmission_by 1) outs.items }
{
    match outs.pop() {
        Some(out) => frame_if_send(out),
        None => None,
    }
}

fn frame_if_send<A: Allocator + Copy>(out: Out<A>) -> Option<OutgoingFrame<A>>
    ensures { opening_frames result ≡ filter_map (transmission_by 1) (out ∷ []) }
{
    match out {
        Out::Send(to, frame) => Some(OutgoingFrame { to, frame }),
        _ => None,
    }
}

/// Records the outputs of a processor's step. A stopped core has none.
fn record_step<A: Allocator + Copy>(
    outs: &mut Vec<(Proc, Out<A>), A>,
    places: &mut Vec<usize, A>,
    node: Proc,
    stepped: Result<Vec<Out<A>, A>, Fault>,
) -> Result<(), Fault>
    requires { places.old.items ≡ places_from 0 outs.old.items }
    ensures outs { OnOk result (outs.new.items ≡ outs.old.items ++ map (λ o. (node, o)) (step_outputs stepped)) }
    ensures places { OnOk result (places.new.items ≡ places_from 0 outs.new.items) }
    ensures stopped { OnOk result (IfErr stepped (λ fault. fault ≡ StoppedFault)) }
    ensures refused { IfErr result (λ fault. fault ≡ Memory) }
{
    match stepped {
        Ok(given) => record_outputs(outs, places, node, given),
        Err(Fault::Stopped) => Ok(()),
        Err(_) => Err(Fault::Memory),
    }
}

/// Records the outputs of a processor, and the index of each frame among them.
fn record_outputs<A: Allocator + Copy>(
    outs: &mut Vec<(Proc, Out<A>), A>,
    places: &mut Vec<usize, A>,
    node: Proc,
    given: Vec<Out<A>, A>,
) -> Result<(), Fault>
    requires { places.old.items ≡ places_from 0 outs.old.items }
    ensures outs { OnOk result (outs.new.items ≡ outs.old.items ++ map (λ o. (node, o)) given.items) }
    ensures places { OnOk result (places.new.items ≡ places_from 0 outs.new.items) }
    ensures refused { IfErr result (λ fault. fault ≡ Memory) }
{
    for out in given {
        record_output(outs, places, node, out)?;
    }
    Ok(())
}

fn record_output<A: Allocator + Copy>(
    outs: &mut Vec<(Proc, Out<A>), A>,
    places: &mut Vec<usize, A>,
    node: Proc,
    out: Out<A>,
) -> Result<(), Fault>
    requires { places.old.items ≡ places_from 0 outs.old.items }
    ensures outs { OnOk result (outs.new.items ≡ outs.old.items ++ (node, out) ∷ []) }
    ensures places { OnOk result (places.new.items ≡ places_from 0 outs.new.items) }
    ensures refused { IfErr result (λ fault. fault ≡ Memory) }
{
    let noted = record_send_index(places, outs.len(), &out);
    outs.push((node, out))?;
    noted
}

/// Records the index of an output, if it is a send.
fn record_send_index<A: Allocator + Copy>(
    places: &mut Vec<usize, A>,
    at: usize,
    out: &Out<A>,
) -> Result<(), Fault>
    ensures ok { OnOk result (places.new.items ≡ places.old.items ++ places_of at out.now) }
    ensures refused { IfErr result (λ fault. fault ≡ Memory) }
{
    if let Out::Send(_, _) = out {
        places.push(at)?;
    }
    Ok(())
}
