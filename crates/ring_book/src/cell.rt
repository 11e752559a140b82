//! The cell of a node: what that node's lock holds.
//!
//! Rules: The book and the threads 13, 14, 18 and 36; Refusals 4 to 6

ghost use Rattle.std.specs.Prelude.{◌≡◌, OnErr, MatchResult};
ghost use Rattle.ring_book_lines.specs.declared.input.LineInput.TheVariants.{Submitted, Received};
ghost use Rattle.ring_node_spec.specs.NodeLimits.{InputFits};
ghost use Rattle.ring_payload.specs.Calls.{CallFits};
ghost use Rattle.ring_wire.specs.Frames.{FrameFits, encoding_of};
ghost use Rattle.ring_node_spec.specs.declared.input.Input.TheVariants.{Frame as Comes};

use crate::book_name::BookName;
use crate::journal_writer::JournalWriter;
use ring_base::{Fault, Proc};
use ring_book_lines::{
    FrameRef, LineInput, ReceivedFrame, Step, StepInput, call_fits_snapshot_law, node_fits_law,
};
use ring_node::{Node, Outs};
use ring_node_spec::Input;
use ring_object::Object;
use ring_payload::Call;
use ring_session::Ticket;
use ring_wire::Frame;
use std::marker::{Model, PhantomData};

/// What a node's lock holds: the node, and the sending end of its journal, which has room for one step.
///
/// A cell can't be copied.
///
/// Rules: The book and the threads 12, 13 and 18
#[derive(Drop)]
pub struct Cell<O: Object, K: BookName<O::Alloc>> {
    /// The node, as its last step or submit left it.
    pub(crate) node: Node<O>,
    /// The writer of its journal.
    pub(crate) writer: JournalWriter<O::Alloc>,
    pub(crate) book_name: PhantomData<K>,
}

impl<O: Object, K: BookName<O::Alloc>> Model for Cell<O, K> {
    ghost use Rattle.std.specs.Prelude.{◌+◌, length};
    ghost use Rattle.ring_book_lines.specs.Limits.{NodeFits};
    ghost use Rattle.ring_node_spec.specs.Nodes.{Node as ToldNode};
    ghost use Rattle.ring_book.specs.Cells.{IsCell};
    ghost use Rattle.ring_book_lines.specs.Machines.{node_machine};
    ghost use Rattle.ring_book.specs.BookViews.{CellView};
    ghost use Rattle.ring_book.specs.Journals.{cell_view};

    ghost Value = { CellView (ToldNode O.Alloc) O.Alloc };

    ghost view = { λ c. cell_view c.writer c.node };

    ghost invariant = { λ c. IsCell (node_machine O.sequential K.name.group) NodeFits K.name c.writer.me c.writer.is_step_unentered c.node
        c.writer.journal (length c.writer.text.items + c.writer.text.spare) };
}

impl<O: Object, K: BookName<O::Alloc>> Cell<O, K> {
    ghost use Rattle.std.specs.Prelude.{length};
    ghost use Rattle.ring_book.specs.Cells.{HasJournaled, StepRefused, SubmitRefused};
    ghost use Rattle.ring_book_lines.specs.Machines.{node_machine};

    /// Returns the processor of the cell's node.
    ///
    /// Does not allocate.
    ///
    /// Rules: The book and the threads 13
    pub fn processor(&self) -> Proc
        ensures { result ≡ self.now.me }
    {
        self.writer.me
    }

    /// Returns the cell's node, after its last step or submit, even if that hasn't been entered in the book yet.
    ///
    /// Does not allocate.
    ///
    /// Rules: The book and the threads 18
    pub fn node(&self) -> &Node<O>
        ensures { result.now ≡ self.now.node }
    {
        &self.node
    }

    /// Runs one step of the node on an input, and adds the step to the journal.
    ///
    /// [`Book::enter`](crate::Book::enter) must enter the step in the book before the cell's next step or submit.
    ///
    /// `at` is the frame's place in the book; for any other input it has no meaning. It isn't checked here: while the
    /// book doesn't have the frame at `at` for this node, `enter` refuses the step, and the cell then refuses all other
    /// steps and submits. So call [`Book::check`](crate::Book::check) first. A frame must be within the limits of its
    /// format, as every decoded frame is. A stop does not allocate.
    ///
    /// Errors, in this order: `Stranger` if the last step hasn't been entered yet, and `Stopped` if the node has
    /// stopped; nothing has then changed. `Memory` if an allocation fails; the node has then stopped, and its stop is
    /// added to the journal.
    ///
    /// Rules: The book and the threads 13 and 14; Refusals 4 to 6
    pub fn step(&mut self, input: Input<O::Alloc>, at: FrameRef) -> Result<(), Fault>
        requires { InputFits input }
        ensures { let m = node_machine O.sequential K.name.group in
            MatchResult result (λ _. HasJournaled m self.old self.new (Received input at)) (StepRefused m self.old self.new input at) }
    {
        if self.writer.is_step_unentered {
            // By name, so that no value is live at the exit.
            drop(input);
            return Err(Fault::Stranger);
        }
        // A law: no effect at run time. The proof takes from it that a step keeps a node, and the frames that it sends,
        // within the limits.
        node_fits_law::<O>();
        let mut outs = Outs::new(self.writer.alloc);
        let stepped = self.node.step_into(&input, &mut outs);
        let step_input = StepInput::Full(LineInput::Received(input, at));
        let committed = self.node.committed_len() as usize;
        self.writer
            .add_step_or_stop(stepped, step_input, at, outs, committed)
    }

    /// Runs one step of the node on a received frame, and adds the step to the journal, which keeps only the frame's
    /// bytes.
    ///
    /// `bytes` must be the encoding of `frame`, which must be within the limits of its format. `at` is its place in the
    /// book, which isn't checked here: call [`Book::check`](crate::Book::check) first, for the reason that
    /// [`step`](Cell::step) states. The step must be entered in the book before the cell's next step or submit.
    ///
    /// Errors, in this order: `Stranger` if the last step hasn't been entered yet, and `Stopped` if the node has
    /// stopped; nothing has then changed. `Memory` if an allocation fails; the node has then stopped, and its stop is
    /// added to the journal.
    ///
    /// Rules: The book and the threads 13 and 14; Refusals 4 to 6
    pub fn receive(
        &mut self,
        frame: &Frame<O::Alloc>,
        bytes: Vec<u8, O::Alloc>,
        at: FrameRef,
    ) -> Result<(), Fault>
        requires fits { FrameFits frame.now }
        requires bytes { bytes.items ≡ encoding_of frame.now }
        ensures { let m = node_machine O.sequential K.name.group in
            MatchResult result (λ _. HasJournaled m self.old self.new (Received (Comes frame.now) at)) (StepRefused m self.old self.new (Comes frame.now) at) }
    {
        if self.writer.is_step_unentered {
            return Err(Fault::Stranger);
        }
        // A law: no effect at run time. The proof takes from it that a step keeps a node, and the frames that it sends,
        // within the limits.
        node_fits_law::<O>();
        let mut outs = Outs::new(self.writer.alloc);
        let stepped = self.node.receive_into(frame, &mut outs);
        let frame_input = StepInput::FrameBytes(ReceivedFrame::new(frame, bytes), at);
        let committed = self.node.committed_len() as usize;
        self.writer
            .add_step_or_stop(stepped, frame_input, at, outs, committed)
    }

    /// Submits a call at the node, adds the submit to the journal, and returns the ticket.
    ///
    /// The call must be within the limits of a call, as every one from `Call::new` is. The submit must be entered in
    /// the book before the cell's next step or submit.
    ///
    /// Errors, in this order: `Stranger` if the last step hasn't been entered yet. `Stopped` if the node has stopped.
    /// `PendingFull` if 64 of its tickets are unanswered or 2^62 have been given. `Memory` if an allocation fails.
    /// Nothing has then changed.
    ///
    /// Rules: The book and the threads 13 and 14; The replicated log 13; Refusals 4
    pub fn submit(&mut self, call: Call<O::Alloc>) -> Result<Ticket, Fault>
        requires { CallFits call }
        ensures given { let m = node_machine O.sequential K.name.group in
            MatchResult result
            (λ ticket. (ticket ≡ m.tickets self.old.node) × HasJournaled m self.old self.new (Submitted call))
            (SubmitRefused m self.old) }
        ensures err { OnErr result (self.new ≡ self.old) }
    {
        if self.writer.is_step_unentered {
            return Err(Fault::Stranger);
        }
        // Laws: no effect at run time. The proof takes from them that the node is within the limits, and the call
        // within those of snapshots.
        node_fits_law::<O>();
        call_fits_snapshot_law(&call);
        let ticket = self.node.submit_borrowed(&call)?;
        let places = self.node.committed_len() as usize;
        let step = Step::submit_of(self.writer.alloc, self.writer.me, call, places);
        self.writer.add(step);
        Ok(ticket)
    }
}
