//! The ring core of one processor, with one call for each kind of input.
//!
//! A function marked `inline(never)` keeps the large stack slot of the value that it replaces out of its caller.
//!
//! Rules: Rings and states 5, 8, 9 and 12 to 14; Outputs 1 and 2; Refusals 4 to 6

ghost use Rattle.std.specs.Prelude.{◌≡◌, ◌≤◌, false, [], Ok, Err, if◌then◌else◌, IfOk, IfErr, OnOk, OnErr};
ghost use Rattle.ring_base.specs.declared.fault.Fault.TheVariants.{Memory, Stopped as StoppedFault};
ghost use Rattle.ring_core_spec.specs.Giving.{may_install, sent};
ghost use Rattle.ring_core_spec.specs.State.{formed_ring_of, opening, formed, halted, is_stopped};
ghost use Rattle.ring_core_spec.specs.Stepping.{ring_step};
ghost use Rattle.ring_core_spec.specs.Visiting.{token_visited};
ghost use Rattle.ring_core_spec.specs.declared.input.Input.TheVariants.{Frame as FrameInput, Timeout as TimeoutInput, Send as SendInput};
ghost use Rattle.ring_wire.specs.Frames.{FrameFits};
ghost use Rattle.ring_srp_transitions.specs.Allowing.{InputFits};
ghost use Rattle.ring_core_spec.specs.Tokens.{first_token};
ghost use Rattle.ring_srp.specs.Given.{IsGiven};
ghost use Rattle.ring_srp.specs.declared.srp.StoppableCore.TheVariants.{Stopped as StoppedVariant};

use crate::stepping::{
    enqueue_if_operational, step, step_into_one_list, step_on_frame, visit_first_token,
};
use ring_base::{Fault, Fixed, Ghost, Kind, Proc, RingId, State, ghost_now, pair_result};
use ring_core_spec::{Configuration, Input, Out, OutgoingFrame};
use ring_payload::Payload;
use ring_srp_transitions::RunningCore;
use ring_wire::Frame;
use std::alloc::{AllocError, Allocator, Global};
use std::marker::Model;

/// The ring core of one processor: a state machine that takes one input at a time and has neither clock nor network.
///
/// Contracts see it as a `Core`, with all its history.
///
/// Rules: Rings and states 3, 6 and 8
#[derive(Drop)]
pub struct Srp<A: Allocator + Copy = Global> {
    core: StoppableCore<A>,
}

/// A core that runs, or what is kept of one that has stopped.
#[derive(Drop)]
enum StoppableCore<A: Allocator + Copy> {
    Running(RunningCore<A>),
    Stopped(StoppedCore<A>),
}

/// What is kept of a core after a stop.
#[derive(Drop)]
struct StoppedCore<A: Allocator + Copy> {
    /// The last installed ring at the time of the stop.
    last_installed: Configuration,
    /// The core at the time of the stop, for contracts.
    core_at_stop: Ghost<RunningCore<A>>,
}

impl<A: Allocator + Copy> Model for Srp<A> {
    ghost use Rattle.ring_core_spec.specs.State.{Core as OneCore};
    ghost use Rattle.ring_srp.specs.Stopping.{core_of, IsBetweenSteps};

    ghost Value = { OneCore A };

    ghost view = { λ s. core_of s.core };

    ghost invariant = { λ s. IsBetweenSteps s.core };
}

impl<A: Allocator + Copy> Srp<A> {
    /// Creates the ring core of processor `me` at the opening, in Gather.
    ///
    /// Its installed ring is (0, `me`), of which it is the only member. `me` must be at most the number of processors.
    /// No join is sent for the opening.
    ///
    /// Errors: `Memory` if an allocation fails.
    ///
    /// Rules: Rings and states 5
    pub fn new(alloc: A, fixed: Fixed, me: Proc) -> Result<Srp<A>, Fault>
        requires { me ≤ fixed.count }
        ensures ok { IfOk result (λ srp. srp ≡ opening fixed.count me) }
        ensures refused { IfErr result (λ fault. fault ≡ Memory) }
    {
        let running_core = RunningCore::new(alloc, fixed, me)?;
        Ok(from_running_core(running_core))
    }

    /// Creates the ring core of processor `me` in the formed ring (1, 1) of all processors.
    ///
    /// It is Operational, holds nothing and hasn't visited a token yet. `me` must be at most the number of processors.
    /// For processor 1, call [`representative_started`](Srp::representative_started) instead, which starts the token.
    ///
    /// Errors: `Memory` if an allocation fails.
    ///
    /// Rules: Rings and states 14
    pub fn formed(alloc: A, fixed: Fixed, me: Proc) -> Result<Srp<A>, Fault>
        requires { me ≤ fixed.count }
        ensures ok { IfOk result (λ srp. srp ≡ formed fixed.count me) }
        ensures refused { IfErr result (λ fault. fault ≡ Memory) }
    {
        let running_core = RunningCore::formed(alloc, fixed, me)?;
        Ok(from_running_core(running_core))
    }

    /// Creates the ring core of processor 1, the representative of the formed ring (1, 1), after its visit of the first
    /// token.
    ///
    /// Returns with it the outputs of that visit: the token, sent to the next member. The first token has number 0 and
    /// is never a frame, so only this call starts the token of a formed ring.
    ///
    /// Errors: `Memory` if an allocation fails.
    ///
    /// Rules: Rings and states 14; The commit token 7
    pub fn representative_started(alloc: A, fixed: Fixed) -> Result<(Srp<A>, Vec<Out<A>, A>), Fault>
        ensures core { IfOk result (λ representative_started. representative_started.0 ≡ (token_visited (formed fixed.count 1) (first_token (formed_ring_of fixed.count).ring)).core) }
        ensures outs { IfOk result (λ representative_started. representative_started.1.items ≡ sent (token_visited (formed fixed.count 1) (first_token (formed_ring_of fixed.count).ring)).sends) }
        ensures refused { IfErr result (λ fault. fault ≡ Memory) }
    {
        let running_core = RunningCore::formed(alloc, fixed, Proc::new(1))?;
        let (running_core, outs) = start_representative(running_core, fixed)?;
        Ok((from_running_core(running_core), outs))
    }

    /// Runs one step on any input, and returns all its outputs in one list, in their order.
    ///
    /// A frame must be within the limits of its format, as every decoded frame is. An ignored input has no outputs.
    ///
    /// Errors: `Stopped` if the core had already stopped; it is unchanged. `Memory` if an allocation fails: the core
    /// has then stopped for good, and the step's outputs are dropped.
    ///
    /// Rules: Rings and states 12 and 13; Outputs 1; Refusals 4 to 6
    pub fn step(&mut self, input: Input<A>) -> Result<Vec<Out<A>, A>, Fault>
        requires fits { InputFits input }
        ensures outs { IfOk result (λ outs. outs.items ≡ (ring_step self.old input).outs) }
        ensures ok { OnOk result (self.new ≡ (ring_step self.old input).core) }
        ensures running { OnOk result (is_stopped self.old.state ≡ false) }
        ensures err { OnErr result (self.new ≡ halted self.old) }
        ensures refused { IfErr result (λ fault. fault ≡ (if is_stopped self.old.state then StoppedFault else Memory)) }
    {
        let StoppableCore::Running(running_core) = &mut self.core else {
            return Err(Fault::Stopped);
        };
        let stopped = stopped_core(running_core);
        match step_into_one_list(running_core, input) {
            Ok(outs) => Ok(outs),
            Err(refused) => {
                stop_core(&mut self.core, stopped);
                Err(refused)
            }
        }
    }

    /// Runs one step on a borrowed frame.
    ///
    /// Appends the frames to be sent to `sends`, and returns the other outputs. `sends` must be empty; a caller can
    /// reuse it, with its capacity, from step to step. `frame` must be within the limits of its format, as every
    /// decoded frame is. The core copies the frame unless it is a token that is accepted. An ignored frame has no
    /// outputs.
    ///
    /// Errors: `Stopped` if the core had already stopped; it is unchanged. `Memory` if an allocation fails: the core
    /// has then stopped for good, the step's outputs are dropped, and the contents of `sends` are unspecified, so clear
    /// it.
    ///
    /// Rules: Rings and states 12 and 13; Outputs 1 and 2; Refusals 4 to 6
    pub fn receive(
        &mut self,
        frame: &Frame<A>,
        sends: &mut Vec<OutgoingFrame<A>, A>,
    ) -> Result<Vec<Out<A>, A>, Fault>
        requires fits { FrameFits frame.now }
        requires empty { sends.old.items ≡ [] }
        ensures given { IfOk result (λ told. IsGiven (ring_step self.old (FrameInput frame.now)).outs sends.new.items told.items) }
        ensures ok { OnOk result (self.new ≡ (ring_step self.old (FrameInput frame.now)).core) }
        ensures running { OnOk result (is_stopped self.old.state ≡ false) }
        ensures err { OnErr result (self.new ≡ halted self.old) }
        ensures refused { IfErr result (λ fault. fault ≡ (if is_stopped self.old.state then StoppedFault else Memory)) }
    {
        let StoppableCore::Running(running_core) = &mut self.core else {
            return Err(Fault::Stopped);
        };
        let stopped = stopped_core(running_core);
        match step_on_frame(running_core, frame, sends) {
            Ok(told) => Ok(told),
            Err(refused) => {
                stop_core(&mut self.core, stopped);
                Err(refused)
            }
        }
    }

    /// Runs one step on a timeout of this kind.
    ///
    /// Appends the frames to be sent to `sends`, which must be empty, and returns the other outputs. A caller can reuse
    /// `sends`, with its capacity, from step to step. If a proposal is due, any timeout makes it.
    ///
    /// Errors: `Stopped` if the core had already stopped; it is unchanged. `Memory` if an allocation fails: the core
    /// has then stopped for good, the step's outputs are dropped, and the contents of `sends` are unspecified, so clear
    /// it.
    ///
    /// Rules: Rings and states 12 and 13; Timeouts 1 and 2; Outputs 1 and 2; Refusals 4 to 6
    pub fn time_out(
        &mut self,
        kind: Kind,
        sends: &mut Vec<OutgoingFrame<A>, A>,
    ) -> Result<Vec<Out<A>, A>, Fault>
        requires empty { sends.old.items ≡ [] }
        ensures given { IfOk result (λ told. IsGiven (ring_step self.old (TimeoutInput kind)).outs sends.new.items told.items) }
        ensures ok { OnOk result (self.new ≡ (ring_step self.old (TimeoutInput kind)).core) }
        ensures running { OnOk result (is_stopped self.old.state ≡ false) }
        ensures err { OnErr result (self.new ≡ halted self.old) }
        ensures refused { IfErr result (λ fault. fault ≡ (if is_stopped self.old.state then StoppedFault else Memory)) }
    {
        let StoppableCore::Running(running_core) = &mut self.core else {
            return Err(Fault::Stopped);
        };
        let stopped = stopped_core(running_core);
        match step(running_core, Input::Timeout(kind), sends) {
            Ok(told) => Ok(told),
            Err(refused) => {
                stop_core(&mut self.core, stopped);
                Err(refused)
            }
        }
    }

    /// Queues a payload to be sent as a message of the ring, if the core is Operational.
    ///
    /// In every other state the payload is dropped. An End, a Wrapped or a Pack is dropped in every state. The step has
    /// no outputs.
    ///
    /// Errors: `Stopped` if the core had already stopped. `Memory` if an allocation fails. The core is unchanged by
    /// each: unlike a step, a send that returns `Memory` doesn't stop it.
    ///
    /// Rules: Rings and states 9 and 12; Refusals 4 and 5
    pub fn send(&mut self, payload: Payload<A>) -> Result<(), Fault>
        ensures ok { OnOk result (self.new ≡ (ring_step self.old (SendInput payload)).core) }
        ensures silent { OnOk result ((ring_step self.old (SendInput payload)).outs ≡ []) }
        ensures running { OnOk result (is_stopped self.old.state ≡ false) }
        ensures kept { OnErr result (self.new ≡ self.old) }
        ensures refused { IfErr result (λ fault. fault ≡ (if is_stopped self.old.state then StoppedFault else Memory)) }
    {
        let StoppableCore::Running(running_core) = &mut self.core else {
            return Err(Fault::Stopped);
        };
        enqueue_if_operational(running_core, payload)
    }

    /// Stops the core for good and frees the memory that it holds.
    ///
    /// Does nothing if it has already stopped. [`installed`](Srp::installed) and [`ring`](Srp::ring) keep their values.
    /// Does not allocate.
    ///
    /// Rules: Rings and states 12
    pub fn stop(&mut self)
        ensures { self.new ≡ halted self.old }
    {
        if let StoppableCore::Running(running_core) = &self.core {
            let stopped = stopped_core(running_core);
            stop_core(&mut self.core, stopped);
        }
    }

    /// Returns the core's state: Gather, Commit, Recovery, Operational or Stopped.
    ///
    /// Rules: Rings and states 6
    pub fn state(&self) -> State
        ensures { result ≡ self.now.state }
    {
        match &self.core {
            StoppableCore::Running(running_core) => running_core.state(),
            StoppableCore::Stopped(_) => State::Stopped,
        }
    }

    /// Returns the last installed ring with its members.
    ///
    /// Before the first installation it is (0, `me`), of which `me` is the only member. After a stop, it is the one at
    /// the time of the stop.
    ///
    /// Rules: Rings and states 3 and 5
    pub fn installed(&self) -> Configuration
        ensures { result ≡ self.now.installed }
    {
        match &self.core {
            StoppableCore::Running(running_core) => running_core.installed(),
            StoppableCore::Stopped(stopped) => stopped.last_installed,
        }
    }

    /// Returns the last installed ring, (0, `me`) before the first installation.
    ///
    /// After a stop, it is the one at the time of the stop.
    ///
    /// Rules: Rings and states 3 and 5
    pub fn ring(&self) -> RingId
        ensures { result ≡ self.now.installed.ring }
    {
        self.installed().ring
    }
}

/// A clone equals the original, history included, and runs independently of it.
///
/// It shares with the original only the bytes of operations, which never change. Cloning allocates for the kept
/// messages and the queue.
///
/// Errors: `AllocError` if an allocation fails.
impl<A: Allocator + Copy> Clone for Srp<A> {
    ghost is_clone = { λ srp copy. copy ≡ srp };

    fn clone(&self) -> Result<Srp<A>, AllocError> {
        Ok(Srp {
            core: copied_core(&self.core)?,
        })
    }
}

/// Returns the ring core with this running core, in which no installation may be due.
fn from_running_core<A: Allocator + Copy>(running_core: RunningCore<A>) -> Srp<A>
    requires { may_install running_core ≡ false }
    ensures { result ≡ running_core }
{
    Srp {
        core: StoppableCore::Running(running_core),
    }
}

/// Returns the representative's core after its visit of the first token, and the outputs of that visit.
fn start_representative<A: Allocator + Copy>(
    mut running_core: RunningCore<A>,
    fixed: Fixed,
) -> Result<(RunningCore<A>, Vec<Out<A>, A>), Fault>
    requires { running_core ≡ formed fixed.count 1 }
    ensures core { IfOk result (λ start_representative. start_representative.0 ≡ (token_visited (formed fixed.count 1) (first_token (formed_ring_of fixed.count).ring)).core) }
    ensures outs { IfOk result (λ start_representative. start_representative.1.items ≡ sent (token_visited (formed fixed.count 1) (first_token (formed_ring_of fixed.count).ring)).sends) }
    ensures refused { IfErr result (λ fault. fault ≡ Memory) }
{
    let outs = visit_first_token(&mut running_core, fixed);
    pair_result(running_core, outs)
}

/// Returns a copy of the core.
fn copied_core<A: Allocator + Copy>(core: &StoppableCore<A>) -> Result<StoppableCore<A>, AllocError>
    ensures { IfOk result (λ copy. copy ≡ core.now) }
{
    match core {
        StoppableCore::Running(running_core) => Ok(StoppableCore::Running(running_core.clone()?)),
        StoppableCore::Stopped(stopped) => Ok(StoppableCore::Stopped(StoppedCore {
            last_installed: stopped.last_installed,
            core_at_stop: stopped.core_at_stop.clone()?,
        })),
    }
}

/// Returns what is kept of the running core if it stops now.
fn stopped_core<A: Allocator + Copy>(running_core: &RunningCore<A>) -> StoppedCore<A>
    ensures installed { result.last_installed ≡ running_core.now.installed }
    ensures core { result.core_at_stop.value ≡ running_core.now }
    ensures runs { is_stopped running_core.now.state ≡ false }
{
    StoppedCore {
        last_installed: running_core.installed(),
        core_at_stop: ghost_now(running_core),
    }
}

/// Drops the running core, and keeps only `stopped`.
#[inline(never)]
fn stop_core<A: Allocator + Copy>(core: &mut StoppableCore<A>, stopped: StoppedCore<A>)
    ensures { core.new ≡ StoppedVariant stopped }
{
    *core = StoppableCore::Stopped(stopped);
}
