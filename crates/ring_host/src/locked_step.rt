//! The parts of a turn's step that run with the node's cell or the book locked.
//!
//! Rules: The book and the threads 21, 22 and 25

ghost use Rattle.std.specs.Prelude.{◌≡◌, ◌+◌, ◌↔◌, IsOk, IfOk, IfErr, OnOk, OnErr, MatchResult};
ghost use Rattle.ring_base.specs.declared.fault.Fault.TheVariants.{Stranger};
ghost use Rattle.ring_node_spec.specs.declared.input.Input.TheVariants.{Timeout as TimedOut, Stop};
ghost use Rattle.ring_book.specs.Books.{HasEntered, IsStrange};
ghost use Rattle.ring_book.specs.Cells.{HasJournaled, StepRefused};
ghost use Rattle.ring_book_lines.specs.Machines.{node_machine};
ghost use Rattle.ring_seat.specs.Outboxes.{frames_in};
ghost use Rattle.ring_book_lines.specs.declared.input.LineInput.TheVariants.{Received};
ghost use Rattle.ring_host.specs.LockedSteps.{AreCopiesOf, IsFull, IsReleased, HasSent, IsEndOfRun, IsPlaceFault, IsUntold};
ghost use Rattle.ring_host.specs.RefusingHeap.{IsTurnFault};
ghost use Rattle.ring_host.specs.Tasks.{TaskFits, IsTaskInBook, input_of, ref_of};

use crate::inbox_frame_and_task::Task;
use ring_base::{Fault, Kind, Proc};
use ring_book::{Book, BookName, Cell, FrameRef, Input, Place};
use ring_book_lines::LineFrames;
use ring_object::Object;
use ring_seat::Outbox;
use ring_wire::Frame;
use std::alloc::Allocator;

/// The reference passed with an input that isn't a frame; the cell ignores it.
const NO_REFERENCE: FrameRef = FrameRef { line: 0, place: 0 };

/// Reserves a place for the task's line and returns it.
///
/// Errors, in this order: `Stranger` exactly if the task's frame isn't in the book for the node; `BookFull`; `Memory`
/// if an allocation fails. The book is then unchanged.
///
/// Rules: The book and the threads 21 and 22
pub(crate) fn check_and_reserve<O: Object, K: BookName<O::Alloc>>(
    book: &mut Book<O, K>,
    node: Proc,
    task: &Task<O::Alloc>,
) -> Result<Place, Fault>
    ensures stands { OnOk result (IsTaskInBook book.old.lines node task.now) }
    ensures full { OnOk result (IsFull book.old → ⊥) }
    ensures lines { book.new.lines ≡ book.old.lines }
    ensures ok { OnOk result (book.new.reserved ≡ book.old.reserved + 1) }
    ensures err { OnErr result (book.new ≡ book.old) }
    ensures why { IfErr result (IsPlaceFault (IsTaskInBook book.old.lines node task.now) book.old) }
    ensures refused { IfErr result IsTurnFault }
{
    check_task(book, node, task)?;
    book.reserve()
}

/// Checks that the task's frame, if it has one, is in the book for the node.
///
/// Errors: `Stranger` exactly if it isn't.
fn check_task<O: Object, K: BookName<O::Alloc>>(
    book: &mut Book<O, K>,
    node: Proc,
    task: &Task<O::Alloc>,
) -> Result<(), Fault>
    ensures same { book.new ≡ book.old }
    ensures ok { IsOk result ↔ IsTaskInBook book.old.lines node task.now }
    ensures err { IfErr result (λ fault. fault ≡ Stranger) }
{
    match task {
        Task::Timeout(_) => Ok(()),
        Task::Received(bytes, at) => book.check(node, *at, bytes.as_slice()),
    }
}

/// Steps the node on the task.
///
/// `received` must have the frame that was decoded from the bytes of a task that has one.
///
/// Errors: `Stranger`, `Stopped` and `Memory` as for [`Cell::step`], in this order.
///
/// Rules: The book and the threads 21
pub(crate) fn step_cell<O: Object, K: BookName<O::Alloc>>(
    cell: &mut Cell<O, K>,
    task: Task<O::Alloc>,
    received: &Option<Frame<O::Alloc>>,
) -> Result<(), Fault>
    requires fits { TaskFits received.now task }
    ensures steps { let m = node_machine O.sequential K.name.group in
        MatchResult result (λ _. HasJournaled m cell.old cell.new (Received (input_of received.now task) (ref_of task)))
        (StepRefused m cell.old cell.new (input_of received.now task) (ref_of task)) }
    ensures refused { IfErr result IsTurnFault }
{
    match task {
        Task::Timeout(kind) => time_out(cell, kind),
        Task::Received(bytes, at) => {
            let Some(frame) = received else {
                unreachable!()
            };
            cell.receive(frame, bytes, at)
        }
    }
}

/// Steps the node on a timeout.
///
/// A function of its own keeps the stack slot of the `Input` out of its caller.
#[inline(never)]
fn time_out<O: Object, K: BookName<O::Alloc>>(
    cell: &mut Cell<O, K>,
    kind: Kind,
) -> Result<(), Fault>
    ensures steps { let m = node_machine O.sequential K.name.group in
        MatchResult result (λ _. HasJournaled m cell.old cell.new (Received (TimedOut kind) (record { line = 0; place = 0 })))
        (StepRefused m cell.old cell.new (TimedOut kind) (record { line = 0; place = 0 })) }
    ensures refused { IfErr result IsTurnFault }
{
    cell.step(Input::Timeout(kind), NO_REFERENCE)
}

/// Stops the cell's node, for good.
///
/// Does not allocate.
///
/// Errors, in this order: `Stranger` while the cell's last step isn't entered; `Stopped` if the node had already
/// stopped. Nothing has changed then.
///
/// Rules: The book and the threads 25
pub(crate) fn stop_cell<O: Object, K: BookName<O::Alloc>>(
    cell: &mut Cell<O, K>,
) -> Result<(), Fault>
    ensures steps { let m = node_machine O.sequential K.name.group in
        MatchResult result (λ _. HasJournaled m cell.old cell.new (Received Stop (record { line = 0; place = 0 })))
        (StepRefused m cell.old cell.new Stop (record { line = 0; place = 0 })) }
    ensures refused { IfErr result IsTurnFault }
{
    cell.step(Input::Stop, NO_REFERENCE)
}

/// Enters the cell's line and copies its frames into the outbox, or releases the place.
///
/// Returns the number of frames that the line sent. `stepped` is the result of the cell's step.
///
/// Errors: that of `stepped`; a step refused because an allocation failed is entered as a stop. `Stranger` if the line
/// can't be entered.
///
/// Rules: The book and the threads 21 and 22
pub(crate) fn finish_step<O: Object, K: BookName<O::Alloc>>(
    book: &mut Book<O, K>,
    place: Place,
    cell: &mut Cell<O, K>,
    stepped: Result<(), Fault>,
    outbox: &mut Outbox<O::Alloc>,
) -> Result<usize, Fault>
    requires refused { IfErr stepped IsTurnFault }
    ensures done { OnOk result (IsOk stepped) }
    ensures entered { OnOk result (HasEntered book.old book.new cell.old cell.new) }
    ensures sent { IfOk result (HasSent book.new.lines) }
    ensures ends { IfOk result (IsEndOfRun O.sequential K.name.group cell.old cell.new) }
    ensures why { IfErr result (IsUntold stepped book.old book.new cell.old cell.new) }
    ensures refused { IfErr result IsTurnFault }
{
    match stepped {
        Ok(()) => enter_line_or_release(book, place, cell, outbox),
        Err(Fault::Memory) => match enter_line_or_release(book, place, cell, outbox) {
            Ok(_) => Err(Fault::Memory),
            Err(fault) => Err(fault),
        },
        Err(fault) => {
            book.release(place);
            Err(fault)
        }
    }
}

/// Enters the cell's line and copies its frames into the outbox.
///
/// Returns the number of frames that the line sent.
///
/// Errors: `Stranger` if no line can be entered; the place is then released.
fn enter_line_or_release<O: Object, K: BookName<O::Alloc>>(
    book: &mut Book<O, K>,
    place: Place,
    cell: &mut Cell<O, K>,
    outbox: &mut Outbox<O::Alloc>,
) -> Result<usize, Fault>
    ensures entered { OnOk result (HasEntered book.old book.new cell.old cell.new) }
    ensures sent { IfOk result (HasSent book.new.lines) }
    ensures ends { IfOk result (IsEndOfRun O.sequential K.name.group cell.old cell.new) }
    ensures strange { OnErr result (IsStrange book.old cell.old) }
    ensures released { OnErr result (IsReleased book.old book.new) }
    ensures cell { OnErr result (cell.new ≡ cell.old) }
    ensures refused { IfErr result (λ fault. fault ≡ Stranger) }
{
    match book.enter(place, cell) {
        Ok(line) => {
            fill_outbox(line.number(), line.frames(), outbox);
            let sent = line.frames().len();
            // Laws: no effect at run time. They tell the proof that the lines are a run of the group, and that the
            // node's state is the one after that run.
            book.run_law();
            book.cell_follows_book_law(cell);
            Ok(sent)
        }
        Err(fault) => {
            book.release(place);
            Err(fault)
        }
    }
}

/// Copies the frames of line `number` into the outbox.
///
/// If an allocation for a frame fails, it is left out, and its copies are counted as dropped.
fn fill_outbox<A: Allocator + Copy + Drop>(
    number: u32,
    frames: &LineFrames<A>,
    outbox: &mut Outbox<A>,
)
    ensures line { outbox.new.line ≡ number }
    ensures copies { AreCopiesOf frames.now (frames_in outbox.new) }
{
    outbox.start_line(number);
    let many = frames.len().min(65_535) as u16;
    for place in 0..many {
        let Some(to) = frames.receivers(place) else {
            continue;
        };
        let is_put = frames.append_encoding(place, &mut outbox.text).is_ok();
        outbox.add_frame(place, to, is_put);
    }
}
