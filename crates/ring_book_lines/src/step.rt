//! A step of a node, as the journal carries it from the cell to the book.
//!
//! Rules: The book and the threads 9 and 13

ghost use Rattle.std.specs.Prelude.{◌≡◌, []};
ghost use Rattle.ring_node_spec.specs.declared.input.Input.TheVariants.{Stop};
ghost use Rattle.ring_book_lines.specs.Runs.{LineFits};
ghost use Rattle.ring_payload.specs.Calls.{CallFits};
ghost use Rattle.ring_book_lines.specs.declared.input.LineInput.TheVariants.{Submitted, Received};

use crate::frame_ref::FrameRef;
use crate::input::{LineInput, StepInput};
use crate::line_frames::LineFrames;
use ring_base::Proc;
use ring_node_spec::Input;
use ring_order_proof::limit_laws::call_fits_snapshot_law;
use ring_payload::Call;
use ring_session::TicketAnswer;
use std::alloc::{Allocator, Global};
use std::marker::Model;

/// One step of a node, or one submit, with its outputs.
///
/// A cell makes it, and the book makes a line of it.
///
/// Rules: The book and the threads 9 and 13
#[derive(Drop)]
pub struct Step<A: Allocator + Copy + Drop = Global> {
    /// The processor of the node.
    pub(crate) node: Proc,
    /// The input of the step, or the submitted call.
    pub(crate) input: StepInput<A>,
    /// The frames sent, in the order of sending.
    pub(crate) frames: LineFrames<A>,
    /// The answers given, each with its ticket, in the order given.
    pub(crate) answers: Vec<TicketAnswer<A>, A>,
    /// The newly committed calls, in order, including repeats.
    pub(crate) calls: Vec<Call<A>, A>,
    /// The node's committed length after the step, including dropped places.
    pub(crate) committed: usize,
}

impl<A: Allocator + Copy + Drop> Model for Step<A> {
    ghost use Rattle.ring_book_lines.specs.StoredSteps.{line_input};
    ghost use Rattle.ring_book_lines.specs.Runs.{LineFits};
    ghost use Rattle.ring_book_lines.specs.Steps.{StepView};

    ghost Value = { StepView A };

    ghost view = { λ s. record {
      node = s.node;
      input = line_input s.input;
      frames = s.frames;
      answers = s.answers.items;
      calls = s.calls.items;
      committed = s.committed;
    } };

    ghost invariant = { λ s. LineFits (line_input s.input) };
}

impl<A: Allocator + Copy + Drop> Step<A> {
    ghost use Rattle.ring_book_lines.specs.StoredSteps.{line_input};
    ghost use Rattle.ring_book_lines.specs.declared.input.LineInput.{LineInput};
    ghost use Rattle.ring_book_lines.specs.declared.input.StepInput.TheVariants.{Full};

    /// Returns a node's step on an input, with the frames sent, the answers given and the newly committed calls.
    ///
    /// `committed` is the node's committed length after the step, including dropped places. A frame in the input must
    /// be within the limits of its format, and a call within those of a call. That the outputs are those of a node on
    /// this input isn't checked. Does not allocate.
    ///
    /// Rules: The book and the threads 9
    pub fn new(
        node: Proc,
        input: StepInput<A>,
        frames: LineFrames<A>,
        answers: Vec<TicketAnswer<A>, A>,
        calls: Vec<Call<A>, A>,
        committed: usize,
    ) -> Step<A>
        requires { (told : LineInput A) → input ≡ Full told → LineFits told }
        ensures { result ≡ record {
          node = node;
          input = line_input input;
          frames = frames;
          answers = answers.items;
          calls = calls.items;
          committed = committed;
        } }
    {
        if let StepInput::FrameBytes(frame, _) = &input {
            // No effect at run time. The proof takes from this call that the frame is within the limits of frames.
            let _bytes = frame.bytes();
        }
        Step {
            node,
            input,
            frames,
            answers,
            calls,
            committed,
        }
    }

    /// Returns the submit of a call that a node took, which has no frames, answers or committed calls.
    ///
    /// `committed` is the node's committed length, including dropped places. The call must be within the limits of a
    /// call. Does not allocate.
    ///
    /// Rules: The book and the threads 9
    pub fn submit_of(alloc: A, node: Proc, call: Call<A>, committed: usize) -> Step<A>
        requires { CallFits call }
        ensures { result ≡ record { node = node; input = Submitted call; frames = []; answers = []; calls = []; committed = committed } }
    {
        // A law: no effect at run time. The proof takes from it that a call within the limits of frames is within those
        // of snapshots.
        call_fits_snapshot_law(&call);
        Step::new(
            node,
            StepInput::Full(LineInput::Submitted(call)),
            LineFrames::without_frames(alloc),
            Vec::new(alloc),
            Vec::new(alloc),
            committed,
        )
    }

    /// Returns the stop of a node, which has no frames, answers or committed calls.
    ///
    /// `committed` is the node's committed length, including dropped places. `at` is recorded, but has no meaning. Does
    /// not allocate.
    ///
    /// Rules: The book and the threads 9 and 14
    pub fn stop_of_node(alloc: A, node: Proc, at: FrameRef, committed: usize) -> Step<A>
        ensures { result ≡ record { node = node; input = Received Stop at; frames = []; answers = []; calls = []; committed = committed } }
    {
        Step::new(
            node,
            StepInput::Full(LineInput::Received(Input::Stop, at)),
            LineFrames::without_frames(alloc),
            Vec::new(alloc),
            Vec::new(alloc),
            committed,
        )
    }
}
