//! One step of a ring core together with its replica.
//!
//! `apply_core_outputs` is a function of its own to keep its large stack slot out of its caller.
//!
//! Rules: Rings and states 13; The replicated log 1, 2, 8 and 10

ghost use Rattle.std.specs.Prelude.{◌≡◌, [], true, false, if◌then◌else◌, IfErr, OnOk, OnErr};
ghost use Rattle.ring_base.specs.declared.fault.Fault.TheVariants.{Memory};
ghost use Rattle.ring_core_spec.specs.Frames.{FrameFits};
ghost use Rattle.ring_core_spec.specs.Stepping.{ring_step};
ghost use Rattle.ring_core_spec.specs.declared.input.Input.TheVariants.{Frame as FrameInput, Timeout as TimeoutInput};
ghost use Rattle.ring_replica.specs.NodeSpec.{is_stopped, handed_over};
ghost use Rattle.ring_replica.specs.Replications.{rises, HasSoundEpochs};
ghost use Rattle.ring_replica.specs.Replicas.{IsBetweenSteps, replica_stopped, running_of};
ghost use Rattle.ring_node.specs.StepOutputs.{IsReplicaStepResult, step_with_frames};
ghost use Rattle.ring_node.specs.KnownLog.{IsRunningNode, followed_by, stepped_by};
ghost use Rattle.ring_node.specs.EmptyResults.{HasFramesOnly, IsEmptyResult};

use crate::outs::Outs;
use ring_base::{Fault, Kind, RingId, State};
use ring_core_spec::{Frame, Out, OutgoingFrame};
use ring_object::Object;
use ring_payload::Payload;
use ring_replica::Replica;
use ring_srp::Srp;
use std::alloc::Allocator;

/// Returns the ring in which the core is Operational, or `None` in every other state.
pub(crate) fn running_ring_of<A: Allocator + Copy>(core: &Srp<A>) -> Option<RingId>
    ensures { result ≡ running_of core.now }
{
    match core.state() {
        State::Operational => Some(core.ring()),
        _ => None,
    }
}

/// Hands payloads to the core, in order.
///
/// The core queues them in Operational, and drops them in every other state.
///
/// Errors: `Memory` if an allocation fails; the caller must then stop the node.
///
/// Rules: The replicated log 1; Rings and states 9
pub(crate) fn hand_payloads_to_core<A: Allocator + Copy>(
    core: &mut Srp<A>,
    due: Vec<Payload<A>, A>,
) -> Result<(), Fault>
    requires { is_stopped core.old.state ≡ false }
    ensures ok { OnOk result (core.new ≡ handed_over core.old due.items) }
    ensures refused { IfErr result (λ fault. fault ≡ Memory) }
{
    for payload in due {
        core.send(payload)?;
    }
    Ok(())
}

/// Runs a core's step on a frame and the replica's step on its outputs.
///
/// Stores the outputs in `outs`, which must be empty. Both must be running, and the frame must be within the limits of
/// its format.
///
/// Errors: `Memory` if an allocation fails; the caller must stop both, which leaves the replica as before the step.
///
/// Rules: Rings and states 13; The replicated log 1
pub(crate) fn advance_by_frame<O: Object>(
    core: &mut Srp<O::Alloc>,
    replica: &mut Replica<O>,
    frame: &Frame<O::Alloc>,
    outs: &mut Outs<O::Alloc>,
) -> Result<(), Fault>
    requires fits { FrameFits frame.now }
    requires empty { IsEmptyResult outs.old }
    requires runs { IsRunningNode core.old replica.old }
    requires going { replica.old.stopped ≡ false }
    ensures ok { OnOk result (IsReplicaStepResult (stepped_by O.sequential core.old replica.old (FrameInput frame.now))
        (ring_step core.old (FrameInput frame.now)).core core.new replica.new outs.new) }
    ensures steady { OnOk result (HasSoundEpochs replica.old.group replica.old.epochs) }
    ensures err { OnErr result (replica_stopped replica.new ≡ replica_stopped replica.old) }
    ensures refused { IfErr result (λ fault. fault ≡ Memory) }
{
    let core_outs = core.receive(frame, &mut outs.sends)?;
    follow_core_outputs(core, replica, core_outs, outs)
}

/// Runs a core's step on a timeout and the replica's step on its outputs.
///
/// Stores the outputs in `outs`, which must be empty. Both must be running.
///
/// Errors: `Memory` if an allocation fails; the caller must stop both, which leaves the replica as before the step.
///
/// Rules: Rings and states 13; The replicated log 1
pub(crate) fn advance_by_time<O: Object>(
    core: &mut Srp<O::Alloc>,
    replica: &mut Replica<O>,
    kind: Kind,
    outs: &mut Outs<O::Alloc>,
) -> Result<(), Fault>
    requires empty { IsEmptyResult outs.old }
    requires runs { IsRunningNode core.old replica.old }
    requires going { replica.old.stopped ≡ false }
    ensures ok { OnOk result (IsReplicaStepResult (stepped_by O.sequential core.old replica.old (TimeoutInput kind))
        (ring_step core.old (TimeoutInput kind)).core core.new replica.new outs.new) }
    ensures steady { OnOk result (HasSoundEpochs replica.old.group replica.old.epochs) }
    ensures err { OnErr result (replica_stopped replica.new ≡ replica_stopped replica.old) }
    ensures refused { IfErr result (λ fault. fault ≡ Memory) }
{
    let core_outs = core.time_out(kind, &mut outs.sends)?;
    follow_core_outputs(core, replica, core_outs, outs)
}

/// Applies the core's outputs to the replica, and hands the due payloads to the core.
///
/// The sent frames already are in `outs`.
///
/// If the replica stops, `outs` is emptied. A step that changes nothing of the replica is skipped.
///
/// Errors: `Memory` if an allocation fails; once stopped, the replica is as before the step.
fn follow_core_outputs<O: Object>(
    core: &mut Srp<O::Alloc>,
    replica: &mut Replica<O>,
    core_outs: Vec<Out<O::Alloc>, O::Alloc>,
    outs: &mut Outs<O::Alloc>,
) -> Result<(), Fault>
    requires done { IsBetweenSteps replica.old }
    requires rises { rises replica.old.epochs core_outs.items ≡ true }
    requires runs { is_stopped core.old.state ≡ false }
    requires going { replica.old.stopped ≡ false }
    requires frames { HasFramesOnly outs.old }
    ensures ok { OnOk result (IsReplicaStepResult (step_with_frames outs.old.sends.items (followed_by O.sequential core.old replica.old core_outs.items))
        core.old core.new replica.new outs.new) }
    ensures steady { OnOk result (HasSoundEpochs replica.old.group replica.old.epochs) }
    ensures err { OnErr result (replica_stopped replica.new ≡ replica_stopped replica.old) }
    ensures refused { IfErr result (λ fault. fault ≡ Memory) }
{
    if core_outs.is_empty() && replica.is_step_idle() {
        return Ok(());
    }
    apply_core_outputs(core, replica, core_outs.as_slice(), outs)
}

/// Does the same as `follow_core_outputs`, without skipping the replica's step.
#[inline(never)]
fn apply_core_outputs<O: Object>(
    core: &mut Srp<O::Alloc>,
    replica: &mut Replica<O>,
    core_outs: &[Out<O::Alloc>],
    outs: &mut Outs<O::Alloc>,
) -> Result<(), Fault>
    requires done { IsBetweenSteps replica.old }
    requires rises { rises replica.old.epochs core_outs.now ≡ true }
    requires runs { is_stopped core.old.state ≡ false }
    requires going { replica.old.stopped ≡ false }
    ensures ok { OnOk result (IsReplicaStepResult (step_with_frames outs.old.sends.items (followed_by O.sequential core.old replica.old core_outs.now))
        core.old core.new replica.new outs.new) }
    ensures steady { OnOk result (HasSoundEpochs replica.old.group replica.old.epochs) }
    ensures err { OnErr result (replica_stopped replica.new ≡ replica_stopped replica.old) }
    ensures refused { IfErr result (λ fault. fault ≡ Memory) }
{
    let running = running_ring_of(core);
    let given = replica.step(&running, core_outs)?;
    hand_payloads_to_core(core, given.due)?;
    outs.dropped = replica.end_replica_step(given.answers.as_slice());
    outs.answers = given.answers;
    outs.committed = given.committed;
    outs.restored = given.restored;
    clear_if_stopped(replica.is_stopped(), &mut outs.sends);
    Ok(())
}

/// Drops the step's frames if the replica stopped in it.
fn clear_if_stopped<A: Allocator + Copy>(stopped: bool, sends: &mut Vec<OutgoingFrame<A>, A>)
    ensures { sends.new.items ≡ (if stopped then [] else sends.old.items) }
{
    if stopped {
        sends.clear();
    }
}
