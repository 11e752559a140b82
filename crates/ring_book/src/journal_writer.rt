//! The writer of a node's journal.
//!
//! Rules: The book and the threads 13, 14 and 36

ghost use Rattle.std.specs.Prelude.{◌≡◌, ◌+◌, ◌<◌, ◌≤◌, length, OnOk};
ghost use Rattle.std.specs.List.{AllByRecursion};
ghost use Rattle.rtrb.specs.Ring.{known_free};
ghost use Rattle.ring_base.specs.Numbers.{max_frame_bytes};
ghost use Rattle.ring_wire.specs.Frames.{FrameFits};
ghost use Rattle.ring_book_lines.specs.Runs.{LineFits};
ghost use Rattle.ring_book_lines.specs.StoredSteps.{line_input};
ghost use Rattle.ring_book.specs.Journals.{HasAdded, IsAfterStep};

use bytes::BytesMut;
use ring_base::{Fault, Proc};
use ring_book_lines::{FrameRef, LineFrames, Step, StepInput};
use ring_node::Outs;
use rtrb::Producer;
use std::alloc::Allocator;

/// The sending end of a node's journal, with what a step is made of beside the node's outputs.
///
/// Rules: The book and the threads 13
#[derive(Drop)]
pub(crate) struct JournalWriter<A: Allocator + Copy + Drop> {
    /// The processor of the node.
    pub(crate) me: Proc,
    /// Whether the journal's last step hasn't been entered in the book yet.
    pub(crate) is_step_unentered: bool,
    /// The sending end of the node's journal.
    pub(crate) journal: Producer<Step<A>, A>,
    /// The allocator of the steps.
    pub(crate) alloc: A,
    /// A scratch buffer for encoding a frame, with a capacity of at least 8,192 bytes.
    pub(crate) text: BytesMut<A>,
}

impl<A: Allocator + Copy + Drop> JournalWriter<A> {
    /// Adds the step to the journal, which must have room for it.
    pub(crate) fn add(&mut self, step: Step<A>)
        requires { 0 < known_free self.old.journal }
        ensures added { HasAdded self.old self.new step }
        ensures text { self.new.text ≡ self.old.text }
    {
        self.journal.push_reserved(step);
        self.is_step_unentered = true;
    }

    /// Adds the node's step to the journal, or its stop if memory was refused to the step, and returns `stepped`.
    ///
    /// `stepped` is the result of the step; after any other error, nothing is added. `committed` is the node's committed
    /// length after the step, including dropped places. The journal must have room for a step. A stop records `at`,
    /// which has no meaning there, and does not allocate.
    pub(crate) fn add_step_or_stop(
        &mut self,
        stepped: Result<(), Fault>,
        input: StepInput<A>,
        at: FrameRef,
        outs: Outs<A>,
        committed: usize,
    ) -> Result<(), Fault>
        requires input { LineFits (line_input input) }
        requires sends { OnOk stepped (AllByRecursion (λ s. FrameFits s.frame) outs.sends.items) }
        requires room { max_frame_bytes ≤ length self.old.text.items + self.old.text.spare }
        requires free { 0 < known_free self.old.journal }
        ensures same { result ≡ stepped }
        ensures added { IsAfterStep stepped self.old self.new (record {
          node = self.old.me;
          input = line_input input;
          frames = outs.sends.items;
          answers = outs.answers.items;
          calls = outs.committed.items;
          committed = committed;
        }) at }
        ensures room { max_frame_bytes ≤ length self.new.text.items + self.new.text.spare }
    {
        match stepped {
            Ok(()) => {
                let step = self.step_with_outputs(input, outs, committed);
                self.add(step);
                Ok(())
            }
            Err(fault) => {
                // By name, so that no value is live at the exit.
                drop(outs);
                drop(input);
                match fault {
                    Fault::Memory => {
                        self.add(Step::stop_of_node(self.alloc, self.me, at, committed));
                        Err(Fault::Memory)
                    }
                    _ => Err(fault),
                }
            }
        }
    }

    /// Returns the step of the node on this input, with these outputs and this committed length.
    fn step_with_outputs(&mut self, input: StepInput<A>, outs: Outs<A>, committed: usize) -> Step<A>
        requires input { LineFits (line_input input) }
        requires sends { AllByRecursion (λ s. FrameFits s.frame) outs.sends.items }
        requires room { max_frame_bytes ≤ length self.old.text.items + self.old.text.spare }
        ensures step { result ≡ record {
          node = self.old.me;
          input = line_input input;
          frames = outs.sends.items;
          answers = outs.answers.items;
          calls = outs.committed.items;
          committed = committed;
        } }
        ensures kept { self.new ≡ record self.old { text = self.new.text } }
        ensures room { max_frame_bytes ≤ length self.new.text.items + self.new.text.spare }
    {
        let Outs {
            sends,
            answers,
            committed: calls,
            dropped: _,
            restored: _,
        } = outs;
        let frames = LineFrames::new(self.alloc, sends, &mut self.text);
        Step::new(self.me, input, frames, answers, calls, committed)
    }
}
