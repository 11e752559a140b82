//! The items of an inbox, and the tasks that turns make of them.
//!
//! Rules: The book and the threads 21 to 23

ghost use Rattle.std.specs.Prelude.{◌≡◌, ◌⊎◌, IfOk, IfErr, OnOk};
ghost use Rattle.ring_base.specs.declared.fault.Fault.TheVariants.{Memory, Stranger, BadFrame};
ghost use Rattle.ring_wire.specs.declared.frame.Frame.{Frame as OneFrame};
ghost use Rattle.ring_wire.specs.Prefixes.{IsReadFault};
ghost use Rattle.ring_wire.specs.IsFrameEncoding.{IsFrameEncoding};
ghost use Rattle.ring_host.specs.declared.inbox_frame_and_task.Task.TheVariants.{Received};
ghost use Rattle.ring_host.specs.Tasks.{IsRead, TaskFits, frame_task_kind, task_kind_of};

use ring_base::{Fault, Kind};
use ring_book::FrameRef;
use ring_wire::Frame;
use std::alloc::{Allocator, Global};

/// A frame in an inbox: its bytes, and a reference to its place in the book.
///
/// The book checks that the two belong together.
///
/// Rules: The book and the threads 23
#[derive(Drop)]
pub struct InboxFrame<A: Allocator + Copy + Drop = Global> {
    /// The place in the book that the frame is claimed to have.
    pub book_place: FrameRef,
    /// The frame's encoding.
    pub bytes: Vec<u8, A>,
}

/// The kind of a task, as the seat's clock and a gate use it.
///
/// Rules: The book and the threads 29 and 31
#[derive(Clone, Copy, Debug, PartialEq, Eq)]
pub(crate) enum TaskKind {
    /// A timeout of this kind.
    Timeout(Kind),
    /// A token or a commit token.
    Token,
    /// A message or a join.
    Other,
}

/// The task of a turn.
///
/// A received frame is decoded into a variable of the turn and never moved.
///
/// Rules: The book and the threads 21
#[derive(Drop)]
pub(crate) enum Task<A: Allocator + Copy + Drop = Global> {
    /// A timeout of this kind, which is due.
    Timeout(Kind),
    /// A received frame: its encoding, and the reference to its place in the book.
    Received(Vec<u8, A>, FrameRef),
}

impl<A: Allocator + Copy + Drop> Task<A> {
    /// Reads the item's frame into `place` and returns the task.
    ///
    /// Errors: `Stranger` if the bytes don't encode a frame: no book has them, so this is the fault with which a book
    /// would refuse them. `Memory` if an allocation fails. The contents of `place` are then unspecified.
    ///
    /// Rules: The book and the threads 21; Refusals 2 and 4
    pub(crate) fn decode_task(
        alloc: A,
        item: InboxFrame<A>,
        place: &mut Option<Frame<A>>,
    ) -> Result<Task<A>, Fault>
        ensures received { IfOk result (λ task. task ≡ Received item.bytes item.book_place) }
        ensures fits { IfOk result (TaskFits place.new) }
        ensures refused { IfErr result (λ fault. (fault ≡ Memory) ⊎ (fault ≡ Stranger)) }
        ensures stranger { IfErr result (λ fault. fault ≡ Stranger → (frame : OneFrame A) → ¬ IsFrameEncoding frame item.bytes.items) }
    {
        let InboxFrame { book_place, bytes } = item;
        match read_frame(alloc, bytes.as_slice(), place) {
            Ok(()) => Ok(Task::Received(bytes, book_place)),
            Err(Fault::Memory) => Err(Fault::Memory),
            Err(_) => Err(Fault::Stranger),
        }
    }

    /// Returns the task's kind.
    ///
    /// `place` must have the frame of a task that has one.
    ///
    /// Rules: The book and the threads 29 and 31
    pub(crate) fn task_kind(&self, place: &Option<Frame<A>>) -> TaskKind
        ensures { result ≡ task_kind_of place.now self.now }
    {
        match self {
            Task::Timeout(kind) => TaskKind::Timeout(*kind),
            Task::Received(_, _) => frame_task_kind(place),
        }
    }
}

/// Decodes the bytes, which must all be one frame, into `place`.
fn read_frame<A: Allocator + Copy>(
    alloc: A,
    bytes: &[u8],
    place: &mut Option<Frame<A>>,
) -> Result<(), Fault>
    ensures read { OnOk result (IsRead place.new bytes.now) }
    ensures bad { IfErr result (λ fault. fault ≡ BadFrame → (frame : OneFrame A) → ¬ IsFrameEncoding frame bytes.now) }
    ensures refused { IfErr result IsReadFault }
{
    let len = Frame::<A>::decode_first_frame_into(alloc, bytes, place)?;
    if len != bytes.len() {
        return Err(Fault::BadFrame);
    }
    Ok(())
}

fn frame_task_kind<A: Allocator + Copy>(frame: &Option<Frame<A>>) -> TaskKind
    ensures { result ≡ frame_task_kind frame.now }
{
    match frame {
        Some(Frame::Token(_) | Frame::Commit(_)) => TaskKind::Token,
        Some(Frame::Message(_) | Frame::Join(_)) | None => TaskKind::Other,
    }
}
