//! The book, which is the list of all lines: what the book's lock holds.
//!
//! Rules: The book and the threads 11, 15 to 18 and 36; Refusals 2, 4 and 5

ghost use Rattle.std.specs.Prelude.{⊤, ℕ, Some, slice_get, ◌-◌, ◌≡◌, ◌+◌, ◌<◌, ◌≤◌, ◌⊎◌, MatchOption, MatchResult, OnOk};
ghost use Rattle.std.specs.Prelude.{OnErr, IfOk, IfErr, IsOk, IsSomeAnd, ◌↔◌, [], ◌∷◌, ◌++◌, length, vec_len};
ghost use Rattle.std.specs.Prelude.{vec_capacity};
ghost use Rattle.std.specs.List.{AllByRecursion};
ghost use Rattle.std.specs.Option.{option_copied};
ghost use Rattle.ring_base.specs.declared.fault.Fault.TheVariants.{BookFull, Memory, Stranger};
ghost use Rattle.ring_book.specs.AnswerIndex.{AreRoomier};
ghost use Rattle.ring_book_lines.specs.Lines.{HasBytesAt};

use crate::PLACES;
use crate::answer_indexes::AnswerIndex;
use crate::book_name::BookName;
use crate::cell::Cell;
use bytes::BytesMut;
use ring_base::{Fault, Proc};
use ring_book_lines::book_run_laws::book_run_law;
use ring_book_lines::{
    FrameRef, Line, LogSegment, Step, extend_longest_log, has_bytes_at, history_of_lines,
    is_deliverable, linear_law, order_of_segments,
};
use ring_node_spec::Item;
use ring_object::Object;
use ring_payload::Call;
use ring_session::{Answer, Ticket};
use rtrb::Consumer;
use std::alloc::Allocator;
use std::marker::{Model, PhantomData};

/// A reserved place of the book, which `enter` uses up and `release` gives back.
///
/// It is one unit of a count, not a position: any reserved place will do.
///
/// Rules: The book and the threads 16 and 17
#[derive(Clone, Copy, Debug, PartialEq, Eq)]
pub struct Place {
    _private: (),
}

/// The book: the list of all lines, and the receiving ends of the journals.
///
/// Its list is always a run of the group, as `run_law` states. A book can't be copied.
///
/// Rules: The book and the threads 11, 12 and 15 to 17
#[derive(Drop)]
pub struct Book<O: Object, K: BookName<O::Alloc>> {
    lines: Vec<Line<O::Alloc>, O::Alloc>,
    reserved: u32,
    journal_ends: Vec<Consumer<Step<O::Alloc>, O::Alloc>, O::Alloc>,
    /// The answers of each node's tickets.
    answer_indexes: Vec<AnswerIndex<O::Alloc>, O::Alloc>,
    /// The length of the longest committed log, in places, and the segments of lines that make it up.
    longest_log_len: usize,
    segments: Vec<LogSegment, O::Alloc>,
    /// A scratch buffer for encoding a frame.
    frame_buffer: BytesMut<O::Alloc>,
    of: PhantomData<(O, K)>,
}

impl<O: Object, K: BookName<O::Alloc>> Model for Book<O, K> {
    ghost use Rattle.std.specs.Prelude.{◌+◌, length, vec_capacity};
    ghost use Rattle.ring_book.specs.Books.{IsBook};
    ghost use Rattle.ring_book_lines.specs.Machines.{node_machine};
    ghost use Rattle.ring_book.specs.BookViews.{BookView};

    ghost Value = { BookView O.Alloc };

    ghost view = { λ b. record { lines = b.lines.items; reserved = b.reserved } };

    ghost invariant = { λ b. IsBook (node_machine O.sequential K.name.group) K.name b.lines.items b.reserved
        b.journal_ends.items b.answer_indexes.items (record { total = b.longest_log_len; segments = b.segments.items }) (vec_capacity b.lines)
        (vec_capacity b.segments) (length b.frame_buffer.items + b.frame_buffer.spare) };
}

impl<O: Object, K: BookName<O::Alloc>> Book<O, K> {
    ghost use Rattle.std.specs.Borrow.{sem};
    ghost use mathlib.Core.Option.{none};
    ghost use denote.Follow.{follows_so};
    ghost use Rattle.ring_book.specs.contracts.book.Book.{the_row};
    ghost use Rattle.ring_book_lines.specs.Answers.{first_answer_in, answers_of_node};
    ghost use Rattle.ring_book.specs.Books.{max_places, HasEntered, IsStrange, IsBook};
    ghost use Rattle.ring_book.specs.Entered.{IsEnterResult};
    ghost use Rattle.ring_book_lines.specs.Events.{IsRun, events_of, history_of};
    ghost use Rattle.ring_base.specs.Prefixes.{IsListPrefix};
    ghost use Rattle.ring_session.specs.Deduplicated.{deduplicated};
    ghost use Rattle.ring_order_proof.specs.Linear.{HasCommittedPlaces, FollowsOrder};
    ghost use Rattle.ring_book_lines.specs.Logs.{committed_calls_of};
    ghost use Rattle.ring_book_lines.specs.Lines.{sent_at, steps_of};
    ghost use Rattle.ring_book_lines.specs.AppendedFrames.{IsPut};
    ghost use Rattle.ring_book_lines.specs.Steps.{LineView};
    ghost use Rattle.ring_book_lines.specs.Machines.{node_machine};
    ghost use Rattle.ring_book.specs.Openings.{empty_book};
    ghost use Rattle.ring_node_spec.specs.Worlds.{run, world_opening, order as order_in};

    /// Returns a book without lines and without reserved places.
    ///
    /// Does not allocate.
    ///
    /// `ends` must be the receiving ends of the journals and `answer_indexes` the empty indexes, both from processor 1
    /// on. `text` must have a capacity of at least 8,192 bytes.
    pub(crate) fn new(
        alloc: O::Alloc,
        ends: Vec<Consumer<Step<O::Alloc>, O::Alloc>, O::Alloc>,
        answer_indexes: Vec<AnswerIndex<O::Alloc>, O::Alloc>,
        text: BytesMut<O::Alloc>,
    ) -> Book<O, K>
        requires { IsBook (node_machine O.sequential K.name.group) K.name [] 0 ends.items answer_indexes.items
            (record { total = 0; segments = [] }) 0 0 (length text.items + text.spare) }
        ensures { result ≡ empty_book }
    {
        Book {
            lines: Vec::new(alloc),
            reserved: 0,
            journal_ends: ends,
            answer_indexes,
            longest_log_len: 0,
            segments: Vec::new(alloc),
            frame_buffer: text,
            of: PhantomData,
        }
    }

    /// States that this book's list is a run of the group.
    ///
    /// The inputs of its lines are the events of a run of `World`, with exactly these frames, answers and committed
    /// calls; `linear_law` of ring_order_proof covers that run. `order` and `history` are those of the run. `answer` is
    /// the sessions' answer to the ticket's call along the node's committed log. Each line has the number of its place,
    /// counted from 0, and the group has at most 16 processors.
    ///
    /// Rules: The book and the threads 10 and 11
    pub fn run_law(&self)
        ensures run { IsRun O.sequential K.name.group self.now.lines }
        ensures numbered { (i : ℕ) (l : LineView O.Alloc) → slice_get self.now.lines i ≡ Some l → l.number ≡ i }
        ensures few { K.name.group.count ≤ 16 }
    {
        // A law: no effect at run time. The proof takes from it that such lines are a run of the group.
        book_run_law::<O>();
        // No effect at run time. The proof sees the invariant of `Book` only where the body reads a field.
        let _lines = &self.lines;
    }

    /// States that a cell's committed log according to this book, with repeats removed, is a prefix of the book's
    /// order.
    ///
    /// The cell's processor is one of the group. If all steps of the cell have been entered, its node is that
    /// processor's node in the run of the book's list. The node's snapshot is then the object's state after a prefix of
    /// the book's order, and the committed calls that it keeps, with repeats removed, come next in that order.
    ///
    /// Rules: Sessions 11; The book and the threads 18
    pub fn cell_follows_book_law(&self, cell: &Cell<O, K>)
        ensures member { (1 ≤ cell.now.me) × (cell.now.me ≤ K.name.group.count) }
        ensures node { cell.now.journal ≡ steps_of cell.now.me self.now.lines →
            cell.now.node ≡ (run O.sequential (world_opening K.name.group) (events_of self.now.lines)).nodes cell.now.me }
        ensures prefix { IsListPrefix (deduplicated (committed_calls_of cell.now.me self.now.lines))
            (order_in (run O.sequential (world_opening K.name.group) (events_of self.now.lines))) }
        ensures follows { cell.now.journal ≡ steps_of cell.now.me self.now.lines →
            HasCommittedPlaces O.sequential cell.now.node (committed_calls_of cell.now.me self.now.lines)
            × FollowsOrder O.sequential cell.now.node (committed_calls_of cell.now.me self.now.lines)
            (order_in (run O.sequential (world_opening K.name.group) (events_of self.now.lines))) }
    {
        // Laws: no effect at run time. The proof takes from them that such lines are a run of the group, and how a
        // node's committed log and its snapshot relate to the run's order.
        book_run_law::<O>();
        linear_law::<O>();
        // No effect at run time. The proof sees the invariants of the book and of the cell only where the body reads
        // fields.
        let _lines = &self.lines;
        let _me = cell.writer.me;
    }

    /// Returns the number of places used and reserved, 0 to 262,144.
    ///
    /// Each line uses one. Does not allocate.
    ///
    /// Rules: The book and the threads 15
    pub fn places(&self) -> u32
        ensures { result ≡ length self.now.lines + self.now.reserved }
    {
        self.lines.len() as u32 + self.reserved
    }

    /// Reserves a place for a line, so that `enter` doesn't allocate, and returns it for `enter` or `release`.
    ///
    /// The number of reserved places grows by one, and the list is unchanged. Dropping the result gives nothing back.
    ///
    /// Errors: `BookFull` exactly if 262,144 places are used or reserved. Otherwise `Memory` if an allocation fails.
    /// Nothing has then changed.
    ///
    /// Rules: The book and the threads 15 and 17; Refusals 3 and 4
    pub fn reserve(&mut self) -> Result<Place, Fault>
        ensures lines { self.new.lines ≡ self.old.lines }
        ensures ok { OnOk result (self.new.reserved ≡ self.old.reserved + 1) }
        ensures err { IfErr result (λ e. (self.new ≡ self.old) × ((e ≡ Memory) ⊎ (e ≡ BookFull))) }
        ensures full { (result ≡ Err BookFull) ↔ (length self.old.lines + self.old.reserved ≡ max_places) }
    {
        if self.places() == PLACES {
            return Err(Fault::BookFull);
        }
        make_room(
            &mut self.lines,
            &mut self.segments,
            &mut self.answer_indexes,
            self.reserved + 1,
        )?;
        self.reserved += 1;
        Ok(Place { _private: () })
    }

    /// Gives one reserved place back, so that the number of reserved places falls by one.
    ///
    /// Does nothing if none is reserved. The list is unchanged. Does not allocate.
    ///
    /// Rules: The book and the threads 15 and 17
    pub fn release(&mut self, _place: Place)
        ensures lines { self.new.lines ≡ self.old.lines }
        ensures none { self.old.reserved ≡ 0 → self.new.reserved ≡ 0 }
        ensures some { 0 < self.old.reserved → self.old.reserved ≡ self.new.reserved + 1 }
    {
        if self.reserved > 0 {
            self.reserved -= 1;
        }
    }

    /// Checks that the frame at `at` was sent to `node` and that its encoding is exactly `bytes`.
    ///
    /// The book is unchanged. Does not allocate.
    ///
    /// Errors: `Stranger` if either doesn't hold, including when the list has no frame at `at`, and only then.
    ///
    /// Rules: The book and the threads 15; Refusals 2
    pub fn check(&mut self, node: Proc, at: FrameRef, bytes: &[u8]) -> Result<(), Fault>
        ensures same { self.new ≡ self.old }
        ensures ok { IsOk result ↔ HasBytesAt self.old.lines at node bytes.now }
        ensures err { IfErr result (λ e. e ≡ Stranger) }
    {
        if has_bytes_at(
            self.lines.as_slice(),
            at,
            node,
            bytes,
            &mut self.frame_buffer,
        ) {
            Ok(())
        } else {
            Err(Fault::Stranger)
        }
    }

    /// Returns the answer to a node's ticket in the book's list, or `None` while the list doesn't answer it.
    ///
    /// Also returns `None` for a ticket that the node didn't give, and for a processor outside the group. Does not
    /// allocate.
    ///
    /// Rules: The book and the threads 15
    pub fn answer(&self, node: Proc, ticket: Ticket) -> Option<Answer>
        ensures { result ≡ first_answer_in self.now.lines node ticket }
    {
        match answer_index_of(self.answer_indexes.as_slice(), node) {
            Some(answer_indexes) => answer_indexes.answer(ticket),
            None => None,
        }
    }

    /// Returns the answers of a node's tickets in the book's list, in the order of tickets, from ticket 0 on.
    ///
    /// A ticket that the list doesn't answer has `None`. The result is empty for a processor outside the group. Does
    /// not allocate.
    ///
    /// Rules: The book and the threads 15
    pub fn answers(&self, node: Proc) -> &[Option<Answer>]
        ensures { result.now ≡ answers_of_node node self.now.lines }
    {
        match answer_index_of(self.answer_indexes.as_slice(), node) {
            Some(answer_indexes) => answer_indexes.answers(),
            None => &[],
        }
    }

    /// Returns the history of the list's run: copies of the issued calls and the replies, in order.
    ///
    /// Errors: `Memory` if an allocation fails.
    ///
    /// Rules: The book and the threads 15; Sessions 9
    pub fn history(&self) -> Result<Vec<Item<O::Alloc>, O::Alloc>, Fault>
        ensures ok { IfOk result (λ items. items.items ≡ history_of self.now.lines) }
        ensures refused { IfErr result (λ e. e ≡ Memory) }
    {
        history_of_lines(*self.lines.allocator(), self.lines.as_slice())
    }

    /// Returns the order of the list's run: copies of the calls that take effect in the longest committed log of all
    /// nodes.
    ///
    /// Repeats are removed.
    ///
    /// Errors: `Memory` if an allocation fails.
    ///
    /// Rules: The book and the threads 15; Sessions 10
    pub fn order(&self) -> Result<Vec<Call<O::Alloc>, O::Alloc>, Fault>
        ensures ok { IfOk result (λ calls. calls.items ≡ order_in (run O.sequential (world_opening K.name.group) (events_of self.now.lines))) }
        ensures refused { IfErr result (λ fault. fault ≡ Memory) }
    {
        // A law: no effect at run time. The proof takes from it that such lines are a run of the group.
        book_run_law::<O>();
        order_of_segments(
            *self.lines.allocator(),
            self.lines.as_slice(),
            self.segments.as_slice(),
        )
    }

    /// Returns line `number`, counted from 0, or `None` if the list has no such line.
    ///
    /// Does not allocate.
    ///
    /// Rules: The book and the threads 10
    pub fn line(&self, number: u32) -> Option<&Line<O::Alloc>>
        ensures { option_copied result ≡ slice_get self.now.lines number }
    {
        self.lines.get(number as usize)
    }

    /// Appends the encoding of the frame at `at` to `out`, at most 8,192 bytes.
    ///
    /// The receivers don't matter. The book is unchanged.
    ///
    /// Errors: `Stranger` if there is no such frame. Otherwise `Memory` if an allocation fails. Nothing is then
    /// appended.
    ///
    /// Rules: The book and the threads 15; Refusals 2 and 4
    /// Formats: Frames
    pub fn encode(&self, at: FrameRef, out: &mut BytesMut<O::Alloc>) -> Result<(), Fault>
        ensures { IsPut (sent_at self.now.lines at) out.old.items out.new.items result }
    {
        match self.line(at.line) {
            Some(line) => line.frames().append_encoding(at.place, out),
            None => Err(Fault::Stranger),
        }
    }

    /// Enters the cell's step, as `enter` does.
    fn append_step_of_cell(&mut self, cell: &mut Cell<O, K>) -> Result<(), Fault>
        ensures { MatchResult result
            (λ _. HasEntered self.old self.new cell.old cell.new)
            (λ e. (e ≡ Stranger) × (self.new ≡ self.old) × (cell.new ≡ cell.old) × IsStrange self.old cell.old) }
    {
        if self.reserved == 0 {
            return Err(Fault::Stranger);
        }
        let at = cell.writer.me.number() as usize - 1;
        let end = &mut self.journal_ends[at];
        if end.slots_beside(&mut cell.writer.journal) == 0 {
            return Err(Fault::Stranger);
        }
        if !is_deliverable(
            self.lines.as_slice(),
            end.peek_known(),
            &mut self.frame_buffer,
        ) {
            return Err(Fault::Stranger);
        }
        let step = end.pop_known();
        cell.writer.journal.slots_beside(end);
        self.answer_indexes[at].add_answers(&step);
        let number = self.lines.len() as u32;
        extend_longest_log(&mut self.longest_log_len, &mut self.segments, number, &step);
        self.lines.push_reserved(Line::new(number, step));
        self.reserved -= 1;
        cell.writer.is_step_unentered = false;
        Ok(())
    }

    /// Returns the last line.
    ///
    /// There must be one.
    fn last_line_of_book(&self) -> &Line<O::Alloc>
        requires { 0 < length self.now.lines }
        ensures { slice_get self.now.lines (length self.now.lines - 1) ≡ Some result.now }
    {
        &self.lines[self.lines.len() - 1]
    }

    /// Appends the cell's step to the list, in a reserved place, and returns its line.
    ///
    /// The place is used up, and the cell may step again. Does not allocate.
    ///
    /// Errors: `Stranger` if all of the cell's steps have been entered, if no place is reserved, or if the step
    /// delivers a frame that the list doesn't have at its `FrameRef` for this node. Book and cell are then unchanged,
    /// and reserved places stay reserved.
    ///
    /// Rules: The book and the threads 15 to 18; Refusals 2
    pub fn enter(&mut self, _place: Place, cell: &mut Cell<O, K>) -> Result<&Line<O::Alloc>, Fault>
        ensures* after { sem 𝓛 (follows_so (the_row O.row K.row O.Alloc.row O.Object O.Alloc.Allocator K.BookName)
            (the_row O.row K.row O.Alloc.row O.Object O.Alloc.Allocator K.BookName) self.entry.ghost_name none
            (λ _ _. ⊤) (λ n. IsEnterResult self.old n cell.old cell.new result)) }
    {
        self.append_step_of_cell(cell)?;
        Ok(self.last_line_of_book())
    }
}

/// Returns the answers of the node's tickets, or `None` if the node isn't in the group.
fn answer_index_of<A: Allocator + Copy + Drop>(
    answer_indexes: &[AnswerIndex<A>],
    node: Proc,
) -> Option<&AnswerIndex<A>>
    ensures lookup { option_copied result ≡ slice_get answer_indexes.now (node - 1) }
    ensures counted { 1 ≤ node }
{
    answer_indexes.get(node.number() as usize - 1)
}

/// Makes room for `more` more lines, as many segments of the longest log, and as many tickets of each node.
///
/// Errors: `Memory` if an allocation fails; the contents are unchanged.
fn make_room<A: Allocator + Copy + Drop>(
    lines: &mut Vec<Line<A>, A>,
    segments: &mut Vec<LogSegment, A>,
    answer_indexes: &mut Vec<AnswerIndex<A>, A>,
    more: u32,
) -> Result<(), Fault>
    ensures lines { lines.new.items ≡ lines.old.items }
    ensures lines_stay { vec_capacity lines.old ≤ vec_capacity lines.new }
    ensures lines_room { OnOk result (vec_len lines.new + more ≤ vec_capacity lines.new) }
    ensures segments { segments.new.items ≡ segments.old.items }
    ensures segments_stay { vec_capacity segments.old ≤ vec_capacity segments.new }
    ensures segments_room { OnOk result (vec_len segments.new + more ≤ vec_capacity segments.new) }
    ensures answer_indexes { AreRoomier answer_indexes.old.items answer_indexes.new.items }
    ensures told_room { OnOk result (AllByRecursion (λ t. length t.answers + more ≤ t.room) answer_indexes.new.items) }
    ensures refused { IfErr result (λ e. e ≡ Memory) }
{
    reserve_answers(answer_indexes, more)?;
    lines.reserve(more as usize)?;
    segments.reserve(more as usize)?;
    Ok(())
}

/// Makes room for `more` more tickets of each node.
///
/// Errors: `Memory` if an allocation fails; the answers are unchanged.
fn reserve_answers<A: Allocator + Copy + Drop>(
    answer_indexes: &mut Vec<AnswerIndex<A>, A>,
    more: u32,
) -> Result<(), Fault>
    ensures stays { AreRoomier answer_indexes.old.items answer_indexes.new.items }
    ensures room { OnOk result (AllByRecursion (λ t. length t.answers + more ≤ t.room) answer_indexes.new.items) }
    ensures refused { IfErr result (λ e. e ≡ Memory) }
{
    for at in 0..answer_indexes.len() {
        answer_indexes[at].reserve(more)?;
    }
    Ok(())
}
