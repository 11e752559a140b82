//! A book of a group with its cells, driven by hand.

ghost use Rattle.std.specs.Prelude.{◌≡◌};
ghost use Rattle.ring_node_spec.specs.NodeLimits.{InputFits};
ghost use Rattle.ring_payload.specs.Calls.{CallFits};

use bytes::BytesMut;
use ring_base::{Fault, Kind, Proc, ProcSet};
use ring_book::{Book, BookName, Cell, FrameRef, Opening, Place};
use ring_node::Input;
use ring_object::{Object, Reply};
use ring_payload::Call;
use ring_session::Ticket;
use ring_things::{Counters, Operation, Outcome, outcome_reply_with};
use ring_wire::decode_frame;
use std::alloc::Allocator;
use std::collections::VecDeque;

/// The place of the first frame of the first line.
pub const FIRST: FrameRef = FrameRef { line: 0, place: 0 };

/// Returns the operation that adds 5 to key 0 of an object of counters.
pub fn add_five() -> Operation {
    Counters::add(0, 5)
}

/// Returns the reply to the first such operation: it is done, and the sum is 5.
pub fn five() -> Reply {
    outcome_reply_with(Outcome::Done, 5)
}

/// The frames that were sent and not delivered, the oldest first, each with one receiver.
type Way<A> = VecDeque<(FrameRef, Proc), A>;

/// A book and its cells, the frames in flight, and the processors that are cut off from the others.
#[derive(Drop)]
pub struct DrivenBook<O: Object, K: BookName<O::Alloc>> {
    pub alloc: O::Alloc,
    pub book: Book<O, K>,
    pub cells: Vec<Cell<O, K>, O::Alloc>,
    open: Way<O::Alloc>,
    apart: ProcSet,
}

impl<O: Object, K: BookName<O::Alloc>> DrivenBook<O, K> {
    /// Makes the book and the cells of the opening that `K` names.
    /// Errors: `Memory`.
    pub fn new(alloc: O::Alloc, opening: Opening<O>) -> Result<DrivenBook<O, K>, Fault>
        requires { opening ≡ K.name }
    {
        let (book, cells) = opening.parts::<K>()?;
        let open = VecDeque::new(alloc);
        Ok(DrivenBook {
            alloc,
            book,
            cells,
            open,
            apart: ProcSet::new(),
        })
    }

    /// Steps the cell of this processor by an input, and enters the step, or its stop where memory is refused. The frames
    /// sent are then in flight.
    /// Errors: `NotMember` where there is no such cell, else those of `Cell::step` and `Book::enter`.
    pub fn step(&mut self, processor: u8, input: Input<O::Alloc>, at: FrameRef) -> Result<(), Fault>
        requires { InputFits input }
    {
        let cell = cell_of(self.cells.as_mut_slice(), processor)?;
        let line = entered_step(&mut self.book, cell, input, at)?;
        send_all(&self.book, line, &mut self.open)
    }

    /// Submits a call of client 7 at this processor, and enters the submit. Returns its ticket.
    /// Errors: those of `Call::new`, `NotMember` where there is no such cell, else those of `Cell::submit` and
    /// `Book::enter`.
    pub fn submit(&mut self, processor: u8, number: u64, op: &[u8]) -> Result<Ticket, Fault> {
        let call = Call::new(self.alloc, 7, number, op)?;
        let cell = cell_of(self.cells.as_mut_slice(), processor)?;
        entered_submit(&mut self.book, cell, call)
    }

    /// Returns the bytes of the frame at this place of the book.
    /// Errors: `Stranger` where there is none, then `Memory`.
    pub fn encoded_frame(&self, at: FrameRef) -> Result<BytesMut<O::Alloc>, Fault> {
        let mut bytes = BytesMut::new(self.alloc);
        self.book.encode(at, &mut bytes)?;
        Ok(bytes)
    }

    /// Delivers the frame at this place to this processor.
    fn deliver(&mut self, processor: Proc, at: FrameRef) -> Result<(), Fault> {
        let bytes = self.encoded_frame(at)?;
        self.book.check(processor, at, bytes.as_slice())?;
        let frame = decode_frame(self.alloc, bytes.as_slice())?;
        self.step(processor.number(), Input::Frame(frame), at)
    }

    /// Cuts these processors off from the others from now on.
    pub fn cut(&mut self, apart: ProcSet) {
        self.apart = apart;
    }

    /// Returns whether the frame's sender and its receiver are cut off from each other.
    fn is_cut(&self, at: FrameRef, receiver: Proc) -> bool {
        match self.book.line(at.line) {
            Some(line) => self.apart.contains(line.node()) != self.apart.contains(receiver),
            None => false,
        }
    }

    /// Delivers the oldest frame in flight, if there is one. It is lost if sender and receiver are cut off from each
    /// other.
    fn turn(&mut self) -> Result<(), Fault> {
        match self.open.pop_front() {
            Some((at, receiver)) => {
                if self.is_cut(at, receiver) {
                    Ok(())
                } else {
                    self.deliver(receiver, at)
                }
            }
            None => Ok(()),
        }
    }

    /// Delivers the oldest frames in flight, at most `turns`.
    pub fn pump(&mut self, turns: u32) -> Result<(), Fault> {
        for _ in 0..turns {
            self.turn()?;
        }
        Ok(())
    }

    /// Steps this processor by a join timeout.
    pub fn time(&mut self, processor: u8) -> Result<(), Fault> {
        self.time_out(processor, Kind::Join)
    }

    /// Steps this processor by a timeout of this kind.
    pub fn time_out(&mut self, processor: u8, kind: Kind) -> Result<(), Fault> {
        self.step(processor, Input::Timeout(kind), FIRST)
    }

    /// Steps each node by a join timeout, and then delivers at most `turns` frames.
    pub fn settle(&mut self, nodes: u8, turns: u32) -> Result<(), Fault> {
        for before in 0..nodes {
            self.time(before.saturating_add(1))?;
        }
        self.pump(turns)
    }
}

/// Returns the cell of this processor, counted from 1.
/// Errors: `NotMember` where there is none.
pub fn cell_of<O: Object, K: BookName<O::Alloc>>(
    cells: &mut [Cell<O, K>],
    processor: u8,
) -> Result<&mut Cell<O, K>, Fault> {
    let place = usize::from(processor).wrapping_sub(1);
    cells.get_mut(place).ok_or(Fault::NotMember)
}

/// Enters the cell's step and returns the number of its line, or gives the place back where there is nothing to enter.
fn enter<O: Object, K: BookName<O::Alloc>>(
    book: &mut Book<O, K>,
    place: Place,
    cell: &mut Cell<O, K>,
) -> Result<u32, Fault> {
    match book.enter(place, cell) {
        Ok(line) => Ok(line.number()),
        Err(fault) => {
            book.release(place);
            Err(fault)
        }
    }
}

/// Steps the cell by an input and enters the step. Returns the line where the cell took the input.
fn entered_step<O: Object, K: BookName<O::Alloc>>(
    book: &mut Book<O, K>,
    cell: &mut Cell<O, K>,
    input: Input<O::Alloc>,
    at: FrameRef,
) -> Result<u32, Fault>
    requires { InputFits input }
{
    let place = book.reserve()?;
    let done = cell.step(input, at);
    let line = enter(book, place, cell);
    done?;
    line
}

/// Submits a call at the cell and enters the submit. Returns the ticket where the cell took the call.
fn entered_submit<O: Object, K: BookName<O::Alloc>>(
    book: &mut Book<O, K>,
    cell: &mut Cell<O, K>,
    call: Call<O::Alloc>,
) -> Result<Ticket, Fault>
    requires { CallFits call }
{
    let place = book.reserve()?;
    let ticket = cell.submit(call);
    let line = enter(book, place, cell);
    let ticket = ticket?;
    line?;
    Ok(ticket)
}

/// Adds the frame at this place, once for each of its receivers in ascending order, to the frames in flight.
fn send<A: Allocator + Copy + Drop>(
    at: FrameRef,
    receivers: Option<ProcSet>,
    open: &mut Way<A>,
) -> Result<(), Fault> {
    let Some(receivers) = receivers else {
        return Ok(());
    };
    for receiver in receivers.iter() {
        open.push_back((at, receiver))?;
    }
    Ok(())
}

/// Adds the frames of the line to the frames in flight.
fn send_all<O: Object, K: BookName<O::Alloc>>(
    book: &Book<O, K>,
    line: u32,
    open: &mut Way<O::Alloc>,
) -> Result<(), Fault> {
    let Some(entered) = book.line(line) else {
        return Ok(());
    };
    let count = entered.frames().len().min(65_535) as u16;
    for place in 0..count {
        send(
            FrameRef { line, place },
            entered.frames().receivers(place),
            open,
        )?;
    }
    Ok(())
}
