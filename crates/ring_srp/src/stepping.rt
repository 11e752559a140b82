//! One step: chooses the transition, applies it, proposes a ring if one is due, and collects the outputs.
//!
//! A function marked `inline(never)` keeps the large stack slots of a copied frame and its transition out of its
//! caller.
//!
//! Rules: Rings and states 13; Gather 7, 8, 10, 11 and 13; Outputs 1 and 2

ghost use Rattle.std.specs.Prelude.{◌≡◌, ◌≤◌, ◌++◌, [], true, false, map, IfOk, IfErr, OnOk, OnErr};
ghost use Rattle.ring_base.specs.declared.fault.Fault.TheVariants.{Memory};
ghost use Rattle.ring_wire.specs.Frames.{FrameFits};
ghost use Rattle.ring_core_spec.specs.Transitions.{apply_transition, may_propose_after, transition_and_proposal};
ghost use Rattle.ring_core_spec.specs.Deciding.{Take as TakeAct, Visit as VisitAct, is_taken};
ghost use Rattle.ring_core_spec.specs.Giving.{sends_with_receivers, may_install, sent, with_installation_if, step_result, delivered_from};
ghost use Rattle.ring_core_spec.specs.Stepping.{ring_step};
ghost use Rattle.ring_core_spec.specs.declared.input.Input.TheVariants.{Frame as FrameInput, Send as SendInput};
ghost use Rattle.ring_srp_transitions.specs.CodeTransitions.{transition_of};
ghost use Rattle.ring_srp_transitions.specs.Allowing.{MayApply, InputFits, VisitAllowed};
ghost use Rattle.ring_core_spec.specs.State.{formed_ring_of, formed, is_stopped, OutgoingFrame as ToldSent};
ghost use Rattle.ring_core_spec.specs.Tokens.{first_token};
ghost use Rattle.ring_core_spec.specs.Visiting.{token_visited};
ghost use Rattle.ring_core_spec.specs.Views.{mark};
ghost use Rattle.ring_core_spec.specs.declared.out.Out.TheVariants.{Send};
ghost use Rattle.ring_srp.specs.Given.{IsGiven};

use ring_base::{Fault, Fixed, State};
use ring_core_spec::{Input, Out, OutgoingFrame};
use ring_payload::Payload;
use ring_srp_transitions::{
    RingProgress, RunningCore, Transition, first_token, formed_ring, is_queued,
};
use ring_wire::{Frame, Message, Token};
use std::alloc::Allocator;

/// Runs one step on an input. Appends the frames to be sent to `sends`, which must be empty, and returns the other
/// outputs.
///
/// A frame must be within the limits of its format.
///
/// Errors: `Memory` if an allocation fails; the core and the contents of `sends` are then unspecified.
///
/// Rules: Rings and states 13; Outputs 1
pub(crate) fn step<A: Allocator + Copy>(
    running_core: &mut RunningCore<A>,
    input: Input<A>,
    sends: &mut Vec<OutgoingFrame<A>, A>,
) -> Result<Vec<Out<A>, A>, Fault>
    requires fits { InputFits input }
    requires empty { sends.old.items ≡ [] }
    ensures given { IfOk result (λ told. IsGiven (ring_step running_core.old input).outs sends.new.items told.items) }
    ensures core { OnOk result (running_core.new ≡ (ring_step running_core.old input).core) }
    ensures running { is_stopped running_core.old.state ≡ false }
    ensures refused { IfErr result (λ fault. fault ≡ Memory) }
{
    let before = running_core.ring_progress();
    let chosen_transition = running_core.decide(input);
    apply_and_propose(running_core, chosen_transition, sends)?;
    let other_outputs = running_core.empty_list();
    deliver_and_install(running_core, before, other_outputs)
}

/// Runs one step on an input, and returns all its outputs in one list, in their order.
///
/// A frame must be within the limits of its format.
///
/// Errors: `Memory` if an allocation fails; the core is then unspecified.
///
/// Rules: Rings and states 13; Outputs 1
pub(crate) fn step_into_one_list<A: Allocator + Copy>(
    running_core: &mut RunningCore<A>,
    input: Input<A>,
) -> Result<Vec<Out<A>, A>, Fault>
    requires { InputFits input }
    ensures outs { IfOk result (λ outs. outs.items ≡ (ring_step running_core.old input).outs) }
    ensures core { OnOk result (running_core.new ≡ (ring_step running_core.old input).core) }
    ensures running { is_stopped running_core.old.state ≡ false }
    ensures refused { IfErr result (λ fault. fault ≡ Memory) }
{
    let mut sends = running_core.empty_list();
    let other_outputs = step(running_core, input, &mut sends)?;
    concatenate_outputs(sends, other_outputs)
}

/// Runs one step on a borrowed frame.
///
/// Appends the frames to be sent to `sends`, which must be empty, and returns the other outputs. The frame must be
/// within the limits of its format. A token that is accepted isn't copied; a message that is taken is copied once.
///
/// Errors: `Memory` if an allocation fails; the core and the contents of `sends` are then unspecified.
///
/// Rules: Rings and states 13; Outputs 1
pub(crate) fn step_on_frame<A: Allocator + Copy>(
    running_core: &mut RunningCore<A>,
    frame: &Frame<A>,
    sends: &mut Vec<OutgoingFrame<A>, A>,
) -> Result<Vec<Out<A>, A>, Fault>
    requires fits { FrameFits frame.now }
    requires empty { sends.old.items ≡ [] }
    ensures given { IfOk result (λ told. IsGiven (ring_step running_core.old (FrameInput frame.now)).outs sends.new.items told.items) }
    ensures core { OnOk result (running_core.new ≡ (ring_step running_core.old (FrameInput frame.now)).core) }
    ensures running { OnOk result (is_stopped running_core.old.state ≡ false) }
    ensures refused { IfErr result (λ fault. fault ≡ Memory) }
{
    match running_core.token_to_visit(frame) {
        Some(token) => step_with_token(running_core, token, sends),
        None => step_with_other_frame(running_core, frame, sends),
    }
}

/// Runs one step on a frame whose transition isn't `Visit`.
fn step_with_other_frame<A: Allocator + Copy>(
    running_core: &mut RunningCore<A>,
    frame: &Frame<A>,
    sends: &mut Vec<OutgoingFrame<A>, A>,
) -> Result<Vec<Out<A>, A>, Fault>
    requires fits { FrameFits frame.now }
    requires empty { sends.old.items ≡ [] }
    ensures given { IfOk result (λ told. IsGiven (ring_step running_core.old (FrameInput frame.now)).outs sends.new.items told.items) }
    ensures core { OnOk result (running_core.new ≡ (ring_step running_core.old (FrameInput frame.now)).core) }
    ensures running { OnOk result (is_stopped running_core.old.state ≡ false) }
    ensures refused { IfErr result (λ fault. fault ≡ Memory) }
{
    match running_core.message_to_take(frame) {
        Some(message) => step_with_message_copy(running_core, message, sends),
        None => step_with_frame_copy(running_core, frame, sends),
    }
}

/// Runs one step on a copy of a message that the core takes.
#[inline(never)]
fn step_with_message_copy<A: Allocator + Copy>(
    running_core: &mut RunningCore<A>,
    message: &Message<A>,
    sends: &mut Vec<OutgoingFrame<A>, A>,
) -> Result<Vec<Out<A>, A>, Fault>
    requires taken { is_taken running_core.old message.now ≡ true }
    requires empty { sends.old.items ≡ [] }
    ensures given { IfOk result (λ told. IsGiven (step_result running_core.old (transition_and_proposal running_core.old (TakeAct message.now))).outs sends.new.items told.items) }
    ensures core { OnOk result (running_core.new ≡ (step_result running_core.old (transition_and_proposal running_core.old (TakeAct message.now))).core) }
    ensures running { OnOk result (is_stopped running_core.old.state ≡ false) }
    ensures refused { IfErr result (λ fault. fault ≡ Memory) }
{
    let copy = copied_message(message)?;
    step_with_message(running_core, copy, sends)
}

/// Runs one step on a message that the core takes.
fn step_with_message<A: Allocator + Copy>(
    running_core: &mut RunningCore<A>,
    message: Message<A>,
    sends: &mut Vec<OutgoingFrame<A>, A>,
) -> Result<Vec<Out<A>, A>, Fault>
    requires taken { is_taken running_core.old message ≡ true }
    requires empty { sends.old.items ≡ [] }
    ensures given { IfOk result (λ told. IsGiven (step_result running_core.old (transition_and_proposal running_core.old (TakeAct message))).outs sends.new.items told.items) }
    ensures core { OnOk result (running_core.new ≡ (step_result running_core.old (transition_and_proposal running_core.old (TakeAct message))).core) }
    ensures running { is_stopped running_core.old.state ≡ false }
    ensures refused { IfErr result (λ fault. fault ≡ Memory) }
{
    let before = running_core.ring_progress();
    take_and_propose(running_core, message, sends)?;
    let other_outputs = running_core.empty_list();
    deliver_and_install(running_core, before, other_outputs)
}

/// Takes a message, and then proposes a ring if one is due.
fn take_and_propose<A: Allocator + Copy>(
    running_core: &mut RunningCore<A>,
    message: Message<A>,
    sends: &mut Vec<OutgoingFrame<A>, A>,
) -> Result<(), Fault>
    requires { is_taken running_core.old message ≡ true }
    ensures core { OnOk result (running_core.new ≡ (transition_and_proposal running_core.old (TakeAct message)).core) }
    ensures sends { OnOk result (sends.new.items ≡ sends.old.items ++ sends_with_receivers (transition_and_proposal running_core.old (TakeAct message)).sends) }
    ensures refused { IfErr result (λ fault. fault ≡ Memory) }
{
    running_core.take(message)?;
    running_core.propose_if_due(sends)
}

/// Runs one step on a copy of a frame.
#[inline(never)]
fn step_with_frame_copy<A: Allocator + Copy>(
    running_core: &mut RunningCore<A>,
    frame: &Frame<A>,
    sends: &mut Vec<OutgoingFrame<A>, A>,
) -> Result<Vec<Out<A>, A>, Fault>
    requires fits { FrameFits frame.now }
    requires empty { sends.old.items ≡ [] }
    ensures given { IfOk result (λ told. IsGiven (ring_step running_core.old (FrameInput frame.now)).outs sends.new.items told.items) }
    ensures core { OnOk result (running_core.new ≡ (ring_step running_core.old (FrameInput frame.now)).core) }
    ensures running { OnOk result (is_stopped running_core.old.state ≡ false) }
    ensures refused { IfErr result (λ fault. fault ≡ Memory) }
{
    let copy = copied_frame(frame)?;
    step(running_core, Input::Frame(copy), sends)
}

/// Runs one step on a token that the core accepts.
fn step_with_token<A: Allocator + Copy>(
    running_core: &mut RunningCore<A>,
    token: &Token,
    sends: &mut Vec<OutgoingFrame<A>, A>,
) -> Result<Vec<Out<A>, A>, Fault>
    requires allowed { VisitAllowed running_core.old token.now }
    requires empty { sends.old.items ≡ [] }
    ensures given { IfOk result (λ told. IsGiven (step_result running_core.old (transition_and_proposal running_core.old (VisitAct token.now))).outs sends.new.items told.items) }
    ensures core { OnOk result (running_core.new ≡ (step_result running_core.old (transition_and_proposal running_core.old (VisitAct token.now))).core) }
    ensures running { is_stopped running_core.old.state ≡ false }
    ensures refused { IfErr result (λ fault. fault ≡ Memory) }
{
    let other_outputs = running_core.visit_output_buffer()?;
    let before = running_core.ring_progress();
    visit_and_propose(running_core, token, sends)?;
    deliver_and_install(running_core, before, other_outputs)
}

/// Visits a token, and then proposes a ring if one is due.
fn visit_and_propose<A: Allocator + Copy>(
    running_core: &mut RunningCore<A>,
    token: &Token,
    sends: &mut Vec<OutgoingFrame<A>, A>,
) -> Result<(), Fault>
    requires { VisitAllowed running_core.old token.now }
    ensures core { OnOk result (running_core.new ≡ (transition_and_proposal running_core.old (VisitAct token.now)).core) }
    ensures sends { OnOk result (sends.new.items ≡ sends.old.items ++ sends_with_receivers (transition_and_proposal running_core.old (VisitAct token.now)).sends) }
    ensures refused { IfErr result (λ fault. fault ≡ Memory) }
{
    running_core.visit(token, sends)?;
    running_core.propose_if_due(sends)
}

/// Performs the visit of the formed ring's first token by its representative, processor 1. Returns the outputs.
///
/// Errors: `Memory` if an allocation fails; the core is then unspecified.
///
/// Rules: Rings and states 14; The commit token 7
pub(crate) fn visit_first_token<A: Allocator + Copy>(
    running_core: &mut RunningCore<A>,
    fixed: Fixed,
) -> Result<Vec<Out<A>, A>, Fault>
    requires { running_core.old ≡ formed fixed.count 1 }
    ensures core { OnOk result (running_core.new ≡ (token_visited (formed fixed.count 1) (first_token (formed_ring_of fixed.count).ring)).core) }
    ensures outs { IfOk result (λ outs. outs.items ≡ sent (token_visited (formed fixed.count 1) (first_token (formed_ring_of fixed.count).ring)).sends) }
    ensures refused { IfErr result (λ fault. fault ≡ Memory) }
{
    let token = first_token(formed_ring(fixed).ring);
    let mut sends = running_core.empty_list();
    running_core.visit(&token, &mut sends)?;
    concatenate_outputs(sends, running_core.empty_list())
}

/// Appends the outputs after a transition to `output_buffer`, which must be empty, and returns it.
///
/// These are what is newly agreed and safe of the ring that was installed before the transition, and the outputs of an
/// installation.
fn deliver_and_install<A: Allocator + Copy>(
    running_core: &mut RunningCore<A>,
    before: RingProgress,
    mut output_buffer: Vec<Out<A>, A>,
) -> Result<Vec<Out<A>, A>, Fault>
    requires empty { output_buffer.items ≡ [] }
    requires ring { before.ring ≡ running_core.old.installed.ring }
    requires mark { mark running_core.old running_core.old.installed.ring ≤ before.front }
    ensures told { IfOk result (λ told. told.items ≡ delivered_from running_core.old before.ring before.front before.mark ++
        (with_installation_if (may_install running_core.old) running_core.old []).outs) }
    ensures core { OnOk result (running_core.new ≡ (with_installation_if (may_install running_core.old) running_core.old []).core) }
    ensures refused { IfErr result (λ fault. fault ≡ Memory) }
{
    running_core.give_ring_outputs(before, &mut output_buffer)?;
    running_core.install_if_due(&mut output_buffer)?;
    Ok(output_buffer)
}

/// Returns all outputs of a step in one list: the frames to be sent, then the others.
fn concatenate_outputs<A: Allocator + Copy>(
    sends: Vec<OutgoingFrame<A>, A>,
    mut other_outputs: Vec<Out<A>, A>,
) -> Result<Vec<Out<A>, A>, Fault>
    ensures ok { IfOk result (λ outs. outs.items ≡ map (λ (s : ToldSent A). Send s.to s.frame) sends.items ++ other_outputs.items) }
    ensures refused { IfErr result (λ fault. fault ≡ Memory) }
{
    let mut outs = Vec::new(*other_outputs.allocator());
    outs.reserve(sends.len().saturating_add(other_outputs.len()))?;
    for sent in sends {
        outs.push(Out::Send(sent.to, sent.frame))?;
    }
    outs.append(&mut other_outputs)?;
    Ok(outs)
}

/// Queues a payload if the state is Operational and its kind may be queued; otherwise drops it.
///
/// Errors: `Memory` if an allocation fails; the core is unchanged.
///
/// Rules: Rings and states 9
pub(crate) fn enqueue_if_operational<A: Allocator + Copy>(
    running_core: &mut RunningCore<A>,
    payload: Payload<A>,
) -> Result<(), Fault>
    requires { may_install running_core.old ≡ false }
    ensures ok { OnOk result (running_core.new ≡ (ring_step running_core.old (SendInput payload)).core) }
    ensures silent { OnOk result ((ring_step running_core.old (SendInput payload)).outs ≡ []) }
    ensures kept { OnErr result (running_core.new ≡ running_core.old) }
    ensures running { is_stopped running_core.old.state ≡ false }
    ensures refused { IfErr result (λ fault. fault ≡ Memory) }
{
    match running_core.state() {
        State::Operational => {
            if is_queued(&payload) {
                running_core.enqueue(payload)
            } else {
                Ok(())
            }
        }
        _ => Ok(()),
    }
}

/// Applies a transition, and then proposes a ring if one may follow and is due.
fn apply_and_propose<A: Allocator + Copy>(
    running_core: &mut RunningCore<A>,
    chosen_transition: Transition<A>,
    sends: &mut Vec<OutgoingFrame<A>, A>,
) -> Result<(), Fault>
    requires { MayApply running_core.old (transition_of chosen_transition) }
    ensures core { OnOk result (running_core.new ≡ (transition_and_proposal running_core.old (transition_of chosen_transition)).core) }
    ensures sends { OnOk result (sends.new.items ≡ sends.old.items ++ sends_with_receivers (transition_and_proposal running_core.old (transition_of chosen_transition)).sends) }
    ensures refused { IfErr result (λ fault. fault ≡ Memory) }
{
    let may_propose = may_propose_after(&chosen_transition);
    apply_transition(running_core, chosen_transition, sends)?;
    if may_propose {
        running_core.propose_if_due(sends)
    } else {
        Ok(())
    }
}

fn apply_transition<A: Allocator + Copy>(
    running_core: &mut RunningCore<A>,
    chosen_transition: Transition<A>,
    sends: &mut Vec<OutgoingFrame<A>, A>,
) -> Result<(), Fault>
    requires { MayApply running_core.old (transition_of chosen_transition) }
    ensures core { OnOk result (running_core.new ≡ (apply_transition running_core.old (transition_of chosen_transition)).core) }
    ensures sends { OnOk result (sends.new.items ≡ sends.old.items ++ sends_with_receivers (apply_transition running_core.old (transition_of chosen_transition)).sends) }
    ensures refused { IfErr result (λ fault. fault ≡ Memory) }
{
    match chosen_transition {
        Transition::Ignore => Ok(()),
        Transition::Enqueue(payload) => running_core.enqueue(payload),
        Transition::Repeat => running_core.send_kept_token(sends),
        Transition::Announce => running_core.send_own_join(sends),
        Transition::Invite => running_core.send_invitation_join(sends),
        Transition::GiveUp => {
            running_core.give_up();
            running_core.send_own_join(sends)
        }
        Transition::EnterGather => {
            running_core.enter_gather();
            running_core.send_own_join(sends)
        }
        Transition::Agree(join) => {
            running_core.agree(&join);
            Ok(())
        }
        Transition::MergeJoin(join) => {
            running_core.merge_join(&join);
            running_core.send_own_join(sends)
        }
        Transition::EnterGatherAndAgree(join) => {
            running_core.enter_gather();
            running_core.agree(&join);
            running_core.send_own_join(sends)
        }
        Transition::EnterGatherAndMergeJoin(join) => {
            running_core.enter_gather();
            running_core.merge_join(&join);
            running_core.send_own_join(sends)
        }
        Transition::Take(message) => running_core.take(message),
        Transition::Visit(token) => running_core.visit(&token, sends),
        Transition::Fill(boxed) => running_core.fill(boxed, sends),
        Transition::Learn(boxed) => running_core.learn(boxed, sends),
    }
}

/// Returns whether a proposal may follow the transition: after a timeout, or a frame that isn't ignored.
///
/// Rules: Gather 10 and 11
fn may_propose_after<A: Allocator + Copy>(chosen_transition: &Transition<A>) -> bool
    ensures { result ≡ may_propose_after (transition_of chosen_transition.now) }
{
    !matches!(
        chosen_transition,
        Transition::Ignore | Transition::Enqueue(_)
    )
}

fn copied_frame<A: Allocator + Copy>(frame: &Frame<A>) -> Result<Frame<A>, Fault>
    ensures ok { IfOk result (λ copy. copy ≡ frame.now) }
    ensures refused { IfErr result (λ fault. fault ≡ Memory) }
{
    let copy = frame.clone()?;
    Ok(copy)
}

fn copied_message<A: Allocator + Copy>(message: &Message<A>) -> Result<Message<A>, Fault>
    ensures ok { IfOk result (λ copy. copy ≡ message.now) }
    ensures refused { IfErr result (λ fault. fault ≡ Memory) }
{
    let copy = message.clone()?;
    Ok(copy)
}
