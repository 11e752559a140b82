//! A turn, step by step, with the lock that each step holds.
//!
//! Rules: The book and the threads 21 and 22

ghost use Rattle.std.specs.Prelude.{◌≡◌, ◌≤◌, ◌↔◌, ◌++◌, ◌∷◌, [], None, IfErr, IfOk, IfSome, IsOk, IsTrue, OnErr, OnOk};
ghost use Rattle.ring_node_spec.specs.Nodes.{node_known_log};
ghost use Rattle.ring_seat.specs.Clocks.{clock_after_turn};
ghost use Rattle.ring_seat.specs.Seats.{IsOwn};
ghost use Rattle.ring_host.specs.Gates.{HasPassed};
ghost use Rattle.ring_host.specs.declared.gate.GatePlace.TheVariants.{Held};
ghost use Rattle.ring_host.specs.Items.{IsCopyOfFrame};
ghost use Rattle.ring_host.specs.LockedSteps.{IsEndOfRun, IsFinished, IsSettled};
ghost use Rattle.ring_host.specs.RefusingHeap.{IsTurnFault};
ghost use Rattle.ring_host.specs.Steps.{IsLeftQuiet, IsTurnActivity, IsStepReport};
ghost use Rattle.ring_host.specs.Tasks.{TaskFits};
ghost use Rattle.ring_host.specs.Turns.{published_by, length_of, IsTurnedAt, IsTurned, IsNoted};

use crate::gate::{Gate, GatePlace, TurnActivity};
use crate::host::HostOf;
use crate::inbox_frame_and_task::{InboxFrame, Task, TaskKind};
use crate::locked_step::{check_and_reserve, finish_step, step_cell};
use crate::locking::lock_after_spinning;
use crate::turn::Turn;
use ring_base::{Fault, Kind, Proc, State};
use ring_book::{Book, BookName, Cell, FrameRef, Node, Place};
use ring_object::Object;
use ring_seat::{Outbox, Seat};
use ring_wire::Frame;
use std::alloc::Allocator;
use std::sync::Wait;

/// The report of a turn's step that succeeded.
///
/// Rules: The book and the threads 21
#[derive(Clone, Copy)]
pub(crate) struct StepReport {
    /// The node's committed length after the step, dropped places included.
    committed_len: u64,
    task_kind: TaskKind,
    /// The number of frames that its line sent.
    ///
    /// A token that the node ignores sends none.
    sent: usize,
    /// The number of copies of these that were dropped.
    dropped: u32,
    activity: TurnActivity,
}

/// Returns the report of a step on a task of this kind that sent `sent` frames.
///
/// `node` is the node after it.
///
/// No copy is dropped yet.
fn step_report<O: Object>(node: &Node<O>, task_kind: TaskKind, sent: usize) -> StepReport
    ensures task_kind { result.task_kind ≡ task_kind }
    ensures sent { result.sent ≡ sent }
    ensures length { result.committed_len ≡ (node_known_log node.now).committed }
    ensures activity { IsTurnActivity node.now task_kind sent result.activity }
{
    let committed_len = node.committed_len();
    let activity = turn_activity(node, task_kind, sent);
    StepReport {
        committed_len,
        task_kind,
        sent,
        dropped: 0,
        activity,
    }
}

/// Returns the activity of a step on a task of this kind that sent `sent` frames.
///
/// `node` is the node after it.
fn turn_activity<O: Object>(node: &Node<O>, task_kind: TaskKind, sent: usize) -> TurnActivity
    ensures { IsTurnActivity node.now task_kind sent result }
{
    if !is_quiet(node, sent) {
        return TurnActivity::Busy;
    }
    match task_kind {
        TaskKind::Token => TurnActivity::Quiet,
        TaskKind::Timeout(_) => TurnActivity::Timeout,
        TaskKind::Other => TurnActivity::Busy,
    }
}

/// Returns whether a step that sent `sent` frames leaves its node quiet.
fn is_quiet<O: Object>(node: &Node<O>, sent: usize) -> bool
    ensures { IsTrue result ↔ IsLeftQuiet node.now sent }
{
    sent <= 1 && node.state() == State::Operational && node.log_len() == node.committed_len()
}

/// Updates the seat's clock after a step: the turn took the item if that was a token that the node didn't ignore.
fn note_token_taken<A: Allocator + Copy + Drop>(seat: &mut Seat<A>, done: &StepReport)
    ensures clock { IsNoted done.now.task_kind done.now.sent seat.old.clock seat.new.clock }
    ensures seat { seat.new ≡ record (seat.old) { clock = seat.new.clock } }
{
    match done.task_kind {
        TaskKind::Token => {
            if done.sent > 0 {
                seat.take();
            }
        }
        TaskKind::Timeout(_) | TaskKind::Other => {}
    }
}

/// Returns the report of a turn from that of its step.
///
/// `None` stands for a turn that found nothing to do: it dropped no copy and has no length.
///
/// Rules: The book and the threads 21
pub(crate) fn turn_report(done: Option<StepReport>) -> Turn
    ensures length { result.length ≡ length_of done }
    ensures empty_turns { done ≡ None → result.dropped ≡ 0 }
{
    match done {
        Some(done) => Turn {
            dropped: done.dropped,
            length: Some(done.committed_len),
        },
        None => Turn {
            dropped: 0,
            length: None,
        },
    }
}

impl<C, B, A: Allocator + Copy + Drop> HostOf<C, B, A> {
    /// Ends a turn of the node that finds nothing: the thread waits, unless the gate has waits of its own.
    ///
    /// `turns_to_consensus` is the number of turns until the node's consensus timeout is due.
    fn wait_after_empty_turn<W: Wait, G: Gate>(
        &self,
        rt: &W,
        node: Proc,
        turns_to_consensus: u16,
        gate: &G,
    ) {
        if let Some(inbox) = self.inboxes.get(node.number() as usize - 1) {
            inbox.note_turns_to_consensus(turns_to_consensus);
            if !gate.has_own_waits() {
                inbox.wait_at_full_speed(rt, node);
            }
        }
        gate.after_turn(node, TurnActivity::Nothing);
    }

    /// Records the node's state after a step and the number of its unanswered calls, on which its waits depend.
    fn note_for_waits(&self, node: Proc, state: State, waiting: usize) {
        if let Some(inbox) = self.inboxes.get(node.number() as usize - 1) {
            inbox.note_step(node, state, waiting);
        }
    }

    /// Pushes a copy of each frame to the inbox of each of its receivers.
    ///
    /// Returns the number of copies dropped.
    fn push_copies<W: Wait>(&self, rt: &W, outbox: &Outbox<A>) -> u32 {
        let mut dropped = outbox.dropped;
        for (index, outbox_frame) in outbox.frames.as_slice().iter().enumerate() {
            for receiver in outbox_frame.to.iter() {
                if !self.push_copy(rt, receiver, outbox, index) {
                    dropped = dropped.saturating_add(1);
                }
            }
        }
        dropped
    }

    /// Pushes a copy of the outbox's frame at `index` to the receiver's inbox.
    ///
    /// Returns false if the receiver isn't one of this host's nodes, the inbox is full, or an allocation for the copy
    /// fails.
    fn push_copy<W: Wait>(&self, rt: &W, receiver: Proc, outbox: &Outbox<A>, index: usize) -> bool {
        let Some(inbox) = self.inboxes.get(receiver.number() as usize - 1) else {
            return false;
        };
        let Some(item) = inbox_frame(self.alloc, outbox, index) else {
            return false;
        };
        inbox.push_and_wake(rt, item, outbox, index)
    }
}

/// Makes the item for the outbox's frame at `index`: a copy of its bytes, with its place in the book.
///
/// Returns `None` if the outbox has no such frame, or an allocation for the copy fails.
///
/// Rules: The book and the threads 21 and 23
fn inbox_frame<A: Allocator + Copy + Drop>(
    alloc: A,
    outbox: &Outbox<A>,
    index: usize,
) -> Option<InboxFrame<A>>
    ensures { IfSome result (IsCopyOfFrame outbox.now index) }
{
    let outbox_frame = outbox.frames.get(index)?;
    let text = outbox.bytes_at(index)?;
    let Ok(bytes) = text.to_vec(alloc) else {
        return None;
    };
    let book_place = FrameRef {
        line: outbox.line,
        place: outbox_frame.place,
    };
    Some(InboxFrame { book_place, bytes })
}

impl<O: Object, K: BookName<O::Alloc>> HostOf<Cell<O, K>, Book<O, K>, O::Alloc> {
    /// Runs one turn of the seat's node, and reports it to the gate.
    ///
    /// Returns the report of its step, or `None` if the turn found nothing to do.
    ///
    /// Errors: as for [`turn`](HostOf::turn). The end of the turn isn't reported to the gate then.
    ///
    /// Rules: The book and the threads 21 and 22, 29 to 32
    pub(crate) fn gated_turn<W: Wait, G: Gate>(
        &self,
        rt: &W,
        seat: &mut Seat<O::Alloc>,
        gate: &G,
    ) -> Result<Option<StepReport>, Fault>
        requires own { IsOwn self.now.gauge seat.old }
        ensures seat { IsOwn self.now.gauge seat.new × (seat.new.node ≡ seat.old.node) × (seat.new.seen ≡ seat.old.seen) }
        ensures ok { IfOk result (λ done. seat.new.published ≡ published_by (length_of done) seat.old.published) }
        ensures clock { IfOk result (λ done. IsTurned O.Alloc O.sequential K.name.group done seat.old.clock seat.new.clock) }
        ensures gate { IfOk result (λ done. IfSome done (λ _. HasPassed (G.has_reached gate.now) seat.old.node)) }
        ensures err { OnErr result ((seat.new.published ≡ seat.old.published) × (seat.new.clock ≡ clock_after_turn seat.old.clock)) }
        ensures refused { IfErr result IsTurnFault }
    {
        let Some(node) = seat.node() else {
            unreachable!()
        };
        let due = seat.tick();
        let mut received = None;
        let turned = self.turn_at(rt, seat, node, due, &mut received, gate);
        // An explicit drop: the frame is dropped in a function of any type, and is live at no exit.
        drop(received);
        turned
    }

    /// Runs a turn that the clock has counted, with the timeout that is due, if one is.
    ///
    /// A received frame is decoded into `received`. Returns the report of the step, or `None` if the turn found nothing
    /// to do.
    fn turn_at<W: Wait, G: Gate>(
        &self,
        rt: &W,
        seat: &mut Seat<O::Alloc>,
        node: Proc,
        due: Option<Kind>,
        received: &mut Option<Frame<O::Alloc>>,
        gate: &G,
    ) -> Result<Option<StepReport>, Fault>
        requires own { IsOwn self.now.gauge seat.old }
        requires member { node ≤ self.now.gauge.words }
        ensures seat { IsOwn self.now.gauge seat.new × (seat.new.node ≡ seat.old.node) × (seat.new.seen ≡ seat.old.seen) }
        ensures ok { IfOk result (λ done. seat.new.published ≡ published_by (length_of done) seat.old.published) }
        ensures clock { IfOk result (λ done. IsTurnedAt O.Alloc O.sequential K.name.group due done seat.old.clock seat.new.clock) }
        ensures gate { IfOk result (λ done. IfSome done (λ _. HasPassed (G.has_reached gate.now) seat.old.node)) }
        ensures err { OnErr result ((seat.new.published ≡ seat.old.published) × (seat.new.clock ≡ seat.old.clock)) }
        ensures refused { IfErr result IsTurnFault }
    {
        match self.take_task(rt, node, due, received)? {
            Some(task) => {
                let done = self.run_task(rt, seat, task, received, gate)?;
                Ok(Some(done))
            }
            None => {
                self.wait_after_empty_turn(rt, node, seat.clock().consensus, gate);
                Ok(None)
            }
        }
    }

    /// Performs the task of a turn: steps the node, sends the frames and publishes the length.
    fn run_task<W: Wait, G: Gate>(
        &self,
        rt: &W,
        seat: &mut Seat<O::Alloc>,
        task: Task<O::Alloc>,
        received: &Option<Frame<O::Alloc>>,
        gate: &G,
    ) -> Result<StepReport, Fault>
        requires own { IsOwn self.now.gauge seat.old }
        requires fits { TaskFits received.now task }
        ensures seat { IsOwn self.now.gauge seat.new × (seat.new.node ≡ seat.old.node) × (seat.new.seen ≡ seat.old.seen) }
        ensures ok { IfOk result (λ done. seat.new.published ≡ seat.old.published ++ done.committed_len ∷ []) }
        ensures done { IfOk result (IsStepReport O.sequential K.name.group received.now task) }
        ensures clock { IfOk result (λ done. IsNoted done.task_kind done.sent seat.old.clock seat.new.clock) }
        ensures gate { OnOk result (HasPassed (G.has_reached gate.now) seat.old.node) }
        ensures err { OnErr result ((seat.new.published ≡ seat.old.published) × (seat.new.clock ≡ seat.old.clock)) }
        ensures refused { IfErr result IsTurnFault }
    {
        let Some(node) = seat.node() else {
            unreachable!()
        };
        let mut outbox = seat.take_outbox();
        let stepped = self.step_and_send(rt, node, task, received, gate, &mut outbox);
        seat.put_outbox(outbox);
        let done = stepped?;
        note_token_taken(seat, &done);
        self.gauge.publish(seat, done.committed_len);
        gate.at(node, GatePlace::Entered);
        gate.after_turn(node, done.activity);
        Ok(done)
    }

    /// Steps the node under its lock, then sends the frames with no lock held.
    ///
    /// The outbox holds the frames in between.
    fn step_and_send<W: Wait, G: Gate>(
        &self,
        rt: &W,
        node: Proc,
        task: Task<O::Alloc>,
        received: &Option<Frame<O::Alloc>>,
        gate: &G,
        outbox: &mut Outbox<O::Alloc>,
    ) -> Result<StepReport, Fault>
        requires member { node ≤ self.now.gauge.words }
        requires fits { TaskFits received.now task }
        ensures done { IfOk result (IsStepReport O.sequential K.name.group received.now task) }
        ensures gate { G.has_reached gate.now node Held }
        ensures refused { IfErr result IsTurnFault }
    {
        let mut done = self.step(rt, node, task, received, gate, outbox)?;
        done.dropped = self.push_copies(rt, outbox);
        Ok(done)
    }

    /// Reserves a place, steps the node and enters the line, under the node's lock.
    ///
    /// The line's frames go to the outbox. The book's lock is held for the place and for the line, not for the step.
    fn step<W: Wait, G: Gate>(
        &self,
        rt: &W,
        node: Proc,
        task: Task<O::Alloc>,
        received: &Option<Frame<O::Alloc>>,
        gate: &G,
        outbox: &mut Outbox<O::Alloc>,
    ) -> Result<StepReport, Fault>
        requires member { node ≤ self.now.gauge.words }
        requires fits { TaskFits received.now task }
        ensures done { IfOk result (IsStepReport O.sequential K.name.group received.now task) }
        ensures gate { G.has_reached gate.now node Held }
        ensures refused { IfErr result IsTurnFault }
    {
        let mut cell = lock_after_spinning(rt, &self.cells[node.number() as usize - 1]);
        gate.at(node, GatePlace::Held);
        let place = self.reserve_place(rt, node, &task)?;
        let done = self.step_locked(rt, place, &mut cell, task, received, outbox)?;
        let after = cell.node();
        self.note_for_waits(node, after.state(), after.waiting());
        Ok(done)
    }

    /// Steps the cell, which is locked, and enters its line in the reserved place.
    fn step_locked<W: Wait>(
        &self,
        rt: &W,
        place: Place,
        cell: &mut Cell<O, K>,
        task: Task<O::Alloc>,
        received: &Option<Frame<O::Alloc>>,
        outbox: &mut Outbox<O::Alloc>,
    ) -> Result<StepReport, Fault>
        requires fits { TaskFits received.now task }
        ensures done { IfOk result (IsStepReport O.sequential K.name.group received.now task) }
        ensures settled { IsSettled result cell.old cell.new }
        ensures refused { IfErr result IsTurnFault }
    {
        let task_kind = task.task_kind(received);
        let stepped = step_cell(cell, task, received);
        let sent = self.lock_and_finish_step(rt, place, cell, stepped, outbox)?;
        Ok(step_report(cell.node(), task_kind, sent))
    }

    /// Reserves a place for the task's line, if its frame is in the book.
    fn reserve_place<W: Wait>(
        &self,
        rt: &W,
        node: Proc,
        task: &Task<O::Alloc>,
    ) -> Result<Place, Fault>
        ensures refused { IfErr result IsTurnFault }
    {
        let mut book = lock_after_spinning(rt, &self.book);
        check_and_reserve(&mut book, node, task)
    }

    /// Locks the book and finishes the step as [`finish_step`] does.
    ///
    /// Returns the number of frames that the line sent.
    ///
    /// Errors: as for [`finish_step`].
    ///
    /// Rules: The book and the threads 21 and 22
    fn lock_and_finish_step<W: Wait>(
        &self,
        rt: &W,
        place: Place,
        cell: &mut Cell<O, K>,
        stepped: Result<(), Fault>,
        outbox: &mut Outbox<O::Alloc>,
    ) -> Result<usize, Fault>
        requires refused { IfErr stepped IsTurnFault }
        ensures done { OnOk result (IsOk stepped) }
        ensures ends { IfOk result (IsEndOfRun O.sequential K.name.group cell.old cell.new) }
        ensures finished { IsFinished stepped result cell.old cell.new }
        ensures refused { IfErr result IsTurnFault }
    {
        let mut book = lock_after_spinning(rt, &self.book);
        finish_step(&mut book, place, cell, stepped, outbox)
    }
}
