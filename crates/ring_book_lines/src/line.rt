//! The lines of the book, and lookups of frames in them.
//!
//! Rules: The book and the threads 9 to 11 and 16

ghost use Rattle.std.specs.Prelude.{◌≡◌, ◌+◌, ◌≤◌, ◌↔◌, Some, IsTrue, length};
ghost use Rattle.ring_node_spec.specs.NodeLimits.{InputFits};
ghost use Rattle.ring_wire.specs.Frames.{FrameFits};
ghost use Rattle.ring_book_lines.specs.StoredSteps.{line_input};
ghost use Rattle.ring_book_lines.specs.Lines.{cause_of, frame_to, IsDeliverable, IsFrameAt, HasBytesAt};
ghost use Rattle.ring_book_lines.specs.declared.input.LineInput.TheVariants.{Received};
ghost use Rattle.ring_base.specs.Numbers.{max_frame_bytes};

use crate::cause::Cause;
use crate::frame_ref::FrameRef;
use crate::ghost_models::{StepModel, step_model};
use crate::input::{LineInput, StepInput};
use crate::line_frames::LineFrames;
use crate::received_frame::ReceivedFrame;
use crate::step::Step;
use bytes::BytesMut;
use ring_base::{Ghost, Proc};
use ring_node_spec::Input;
use ring_payload::Call;
use ring_session::TicketAnswer;
use ring_wire::Frame;
use std::alloc::{Allocator, Global};
use std::marker::Model;
use std::mem::size_of;

/// A line of the book: its number in the list, counted from 0, and one step or submit of a node.
///
/// Of a delivered frame it keeps only the `FrameRef`.
///
/// Rules: The book and the threads 9 and 10
#[derive(Drop)]
pub struct Line<A: Allocator + Copy + Drop = Global> {
    number: u32,
    node: Proc,
    cause: Cause<A>,
    frames: LineFrames<A>,
    answers: Vec<TicketAnswer<A>, A>,
    calls: Vec<Call<A>, A>,
    step: Ghost<StepModel<A>>,
}

impl<A: Allocator + Copy + Drop> Model for Line<A> {
    ghost use Rattle.std.specs.Prelude.{◌≡◌};
    ghost use Rattle.ring_book_lines.specs.StoredSteps.{IsStepKept};
    ghost use Rattle.ring_book_lines.specs.Steps.{LineView};

    ghost Value = { LineView A };

    ghost view = { λ l. record { number = l.number; step = l.step.value } };

    ghost invariant = { λ l. IsStepKept l.step.value l.node l.cause l.frames l.answers.items l.calls.items };
}

/// A line is small, so that a full book of an idle ring is small too.
const _: () = prove!(size_of::<Line>() <= 136);

/// Returns what the line records of the input.
fn cause_of_step<A: Allocator + Copy + Drop>(input: StepInput<A>) -> Cause<A>
    ensures { result ≡ cause_of (line_input input) }
{
    match input {
        StepInput::Full(input) => line_cause(input),
        StepInput::FrameBytes(_, at) => Cause::Delivered(at),
    }
}

/// Returns what the line records of the input.
fn line_cause<A: Allocator + Copy + Drop>(input: LineInput<A>) -> Cause<A>
    ensures { result ≡ cause_of input }
{
    match input {
        LineInput::Submitted(call) => Cause::Submitted(call),
        LineInput::Received(input, at) => {
            let cause = input_cause(&input, at);
            // By name, so that the input is dropped in a function of any type, and no value is live at an exit
            // (docs/DECISIONS.md, *The gate*, 5).
            drop(input);
            cause
        }
    }
}

/// Returns what the line records of a node's input.
///
/// If it is a frame, it is at `at` in the book.
fn input_cause<A: Allocator + Copy + Drop>(input: &Input<A>, at: FrameRef) -> Cause<A>
    ensures { result ≡ cause_of (Received input.now at) }
{
    match input {
        Input::Frame(_) => Cause::Delivered(at),
        Input::Noise => Cause::Noise,
        Input::Timeout(kind) => Cause::Timeout(*kind),
        Input::Stop => Cause::Stopped,
    }
}

impl<A: Allocator + Copy + Drop> Line<A> {
    /// Returns line `number`, counted from 0, for a step.
    ///
    /// A frame that the step delivers is dropped, except for its `FrameRef`. That the step belongs at this place of a
    /// list isn't checked: see [`is_deliverable`]. Does not allocate.
    ///
    /// Rules: The book and the threads 9 and 10
    pub fn new(number: u32, step: Step<A>) -> Line<A>
        ensures { result ≡ record { number = number; step = step } }
    {
        let told = step_model(&step);
        let Step {
            node,
            input,
            frames,
            answers,
            calls,
            committed: _,
        } = step;
        Line {
            number,
            node,
            cause: cause_of_step(input),
            frames,
            answers,
            calls,
            step: told,
        }
    }

    /// Returns the line's number in the book's list, counted from 0.
    ///
    /// Does not allocate.
    ///
    /// Rules: The book and the threads 10
    pub fn number(&self) -> u32
        ensures { result ≡ self.now.number }
    {
        self.number
    }

    /// Returns the processor whose node ran the line's step or took the submitted call.
    ///
    /// Does not allocate.
    ///
    /// Rules: The book and the threads 9
    pub fn node(&self) -> Proc
        ensures { result ≡ self.now.step.node }
    {
        self.node
    }

    /// Returns the line's event: the call, a reference to the frame, noise, the kind of the timeout, or the stop.
    ///
    /// Does not allocate.
    ///
    /// Rules: The book and the threads 9
    pub fn cause(&self) -> &Cause<A>
        ensures { result.now ≡ cause_of self.now.step.input }
    {
        &self.cause
    }

    /// Returns the frames that the line's step sent, each with its receivers, in the order of sending.
    ///
    /// A submit has none, and neither has a stop. The index of a frame in this list, counted from 0, is the `place` in
    /// its `FrameRef`. Does not allocate.
    ///
    /// Rules: The book and the threads 9 and 10
    pub fn frames(&self) -> &LineFrames<A>
        ensures { result.now ≡ self.now.step.frames }
    {
        &self.frames
    }

    /// Returns the answers that the node gave in the line's step, each with its ticket, in the order given.
    ///
    /// A submit has none, and neither has a stop. Does not allocate.
    ///
    /// Rules: The book and the threads 9; The replicated log 14
    pub fn answers(&self) -> &[TicketAnswer<A>]
        ensures { result.now ≡ self.now.step.answers }
    {
        self.answers.as_slice()
    }

    /// Returns the calls at the places that the node newly committed in the line's step, in order, including repeats.
    ///
    /// A submit has none, and neither has a stop. Places that a restored snapshot replaces aren't among them. Does not
    /// allocate.
    ///
    /// Rules: The book and the threads 9; The replicated log 12
    pub fn committed(&self) -> &[Call<A>]
        ensures { result.now ≡ self.now.step.calls }
    {
        self.calls.as_slice()
    }
}

/// Returns whether the lines have a frame at `at` that was sent to `node` and whose encoding is exactly `bytes`.
///
/// Returns false if there is no frame at `at`. `text` is a scratch buffer that must have a capacity of at least 8,192
/// bytes; its contents are unspecified afterwards. Does not allocate.
///
/// Rules: The book and the threads 15
pub fn has_bytes_at<A: Allocator + Copy + Drop>(
    lines: &[Line<A>],
    at: FrameRef,
    node: Proc,
    bytes: &[u8],
    text: &mut BytesMut<A>,
) -> bool
    requires { max_frame_bytes ≤ length text.old.items + text.old.spare }
    ensures found { IsTrue result ↔ HasBytesAt lines.now at node bytes.now }
    ensures room { max_frame_bytes ≤ length text.new.items + text.new.spare }
{
    match lines.get(at.line as usize) {
        Some(line) => line.frames().has_bytes(at.place, node, bytes, text),
        None => false,
    }
}

/// Returns whether the step may be entered after these lines.
///
/// It may if it delivers no frame, or if the lines have that frame at its `FrameRef`, sent to the step's node. `text`
/// is a scratch buffer that must have a capacity of at least 8,192 bytes; its contents are unspecified afterwards. Does
/// not allocate.
///
/// Rules: The book and the threads 11 and 16
pub fn is_deliverable<A: Allocator + Copy + Drop>(
    lines: &[Line<A>],
    step: &Step<A>,
    text: &mut BytesMut<A>,
) -> bool
    requires { max_frame_bytes ≤ length text.old.items + text.old.spare }
    ensures found { IsTrue result ↔ IsDeliverable lines.now step.now.node step.now.input }
    ensures room { max_frame_bytes ≤ length text.new.items + text.new.spare }
{
    match &step.input {
        StepInput::Full(LineInput::Received(input, at)) => {
            has_input_frame_at(lines, *at, step.node, input, text)
        }
        StepInput::Full(LineInput::Submitted(_)) => true,
        StepInput::FrameBytes(frame, at) => has_received_frame_at(
            lines, *at, step.node, frame, text,
        ),
    }
}

/// Returns whether the input isn't a frame, or is the frame at `at`, sent to `node`.
fn has_input_frame_at<A: Allocator + Copy + Drop>(
    lines: &[Line<A>],
    at: FrameRef,
    node: Proc,
    input: &Input<A>,
    text: &mut BytesMut<A>,
) -> bool
    requires fits { InputFits input.now }
    requires room { max_frame_bytes ≤ length text.old.items + text.old.spare }
    ensures found { IsTrue result ↔ IsFrameAt lines.now node at input.now }
    ensures room { max_frame_bytes ≤ length text.new.items + text.new.spare }
{
    match input {
        Input::Frame(frame) => has_frame_at(lines, at, node, frame, text),
        Input::Noise | Input::Timeout(_) | Input::Stop => true,
    }
}

/// Returns whether the frame at `at` is `frame` and was sent to `node`.
fn has_frame_at<A: Allocator + Copy + Drop>(
    lines: &[Line<A>],
    at: FrameRef,
    node: Proc,
    frame: &Frame<A>,
    text: &mut BytesMut<A>,
) -> bool
    requires fits { FrameFits frame.now }
    requires room { max_frame_bytes ≤ length text.old.items + text.old.spare }
    ensures found { IsTrue result ↔ (frame_to lines.now at node ≡ Some frame.now) }
    ensures room { max_frame_bytes ≤ length text.new.items + text.new.spare }
{
    match lines.get(at.line as usize) {
        Some(line) => line.frames().has_frame_for(at.place, node, frame, text),
        None => false,
    }
}

/// Returns whether the frame at `at` is the received `frame` and was sent to `node`.
///
/// `text` is a scratch buffer that must have a capacity of at least 8,192 bytes.
fn has_received_frame_at<A: Allocator + Copy + Drop>(
    lines: &[Line<A>],
    at: FrameRef,
    node: Proc,
    frame: &ReceivedFrame<A>,
    text: &mut BytesMut<A>,
) -> bool
    requires { max_frame_bytes ≤ length text.old.items + text.old.spare }
    ensures found { IsTrue result ↔ (frame_to lines.now at node ≡ Some frame.now) }
    ensures room { max_frame_bytes ≤ length text.new.items + text.new.spare }
{
    match lines.get(at.line as usize) {
        Some(line) => line
            .frames()
            .has_received_frame(at.place, node, frame, text),
        None => false,
    }
}
