//! A node of a ring of one, driven by hand with frames given byte by byte.
//! Formats: Frames; first reply

ghost use Rattle.std.specs.Prelude.{IfOk};
ghost use Rattle.ring_wire.specs.Frames.{FrameFits};

use ring_base::{Fault, Fixed, Kind, State};
use ring_node::{Input, Node, Outs};
use ring_object::Object;
use ring_payload::Call;
use ring_session::Ticket;
use ring_things::Counters;
use ring_wire::{Frame, Wire};
use std::alloc::Allocator;
use std::mem;

/// The commit token of ring 1.1 of processor 1 alone; its hop, here 0, is at byte 19.
const COMMIT: [u8; 77] = *b"TR\x01\x04\0\0\0\x45\0\0\0\0\0\0\0\x01\x01\0\x01\0\0\0\0\0\0\0\0\0\x01\
    \0\0\0\0\0\0\0\0\0\0\0\0\0\0\0\0\0\0\0\0\0\0\0\0\0\0\0\0\0\0\0\0\0\0\0\0\0\0\0\0\0\0\0\0\0\0\0\0";

/// The token of ring 1.1 that requests nothing. Its number, here 0, ends at byte 24, `seq` at 32 and `aru` at 40.
const TOKEN: [u8; 43] = *b"TR\x01\x02\0\0\0\x23\0\0\0\0\0\0\0\x01\x01\0\0\0\0\0\0\0\0\
    \0\0\0\0\0\0\0\0\0\0\0\0\0\0\0\0\0\0";

/// Returns the commit token at this hop.
fn commit(hop: u8) -> [u8; 77] {
    let mut bytes = COMMIT;
    bytes[19] = hop;
    bytes
}

/// Returns the token of this number after `messages` messages, all of which are held.
fn token(number: u8, messages: u8) -> [u8; 43] {
    let mut bytes = TOKEN;
    bytes[24] = number;
    bytes[32] = messages;
    bytes[40] = messages;
    bytes
}

/// Returns the frame that these bytes encode.
fn frame_of<A: Allocator + Copy>(alloc: A, bytes: &[u8]) -> Result<Frame<A>, Fault>
    ensures { IfOk result (λ frame. FrameFits frame) }
{
    let (frame, _) = Frame::<A>::get(alloc, bytes)?;
    Ok(frame)
}

/// A node as observed: its state, its last installed ring's number, and three counts.
/// These are the committed places that it keeps, the places of its log, and the calls that took effect.
pub type Seen = (State, u64, usize, u64, u64);

/// A node under test, the counts of the outputs of its steps, and the last token that it sent.
/// Values that aren't the node's are allocated in `ample`, where no request is refused.
#[derive(Drop)]
pub struct DrivenNode<O: Object> {
    ample: O::Alloc,
    pub node: Node<O>,
    answers: usize,
    committed: usize,
    pub dropped: usize,
    /// The last token's number, and the number of messages sent by then.
    last: Option<(u8, u8)>,
    /// The outputs of the last step by reference; the next one reuses their room.
    lent: Outs<O::Alloc>,
}

impl<O: Object> DrivenNode<O> {
    /// Creates a node at its opening, with its memory in `heap`.
    pub fn new(heap: O::Alloc, ample: O::Alloc) -> Result<DrivenNode<O>, Fault> {
        let fixed = Fixed::new(1)?;
        Ok(DrivenNode {
            ample,
            node: Node::new(heap, fixed, fixed.proc(1)?)?,
            answers: 0,
            committed: 0,
            dropped: 0,
            last: None,
            lent: Outs::new(heap),
        })
    }

    /// Counts the outputs of a step.
    fn count(&mut self, outs: &Outs<O::Alloc>) {
        self.answers = self.answers.saturating_add(outs.answers.len());
        self.committed = self.committed.saturating_add(outs.committed.len());
        self.dropped = self.dropped.saturating_add(outs.dropped.len());
        for sent in &outs.sends {
            if let Frame::Token(sent) = &sent.frame {
                let number = sent.number.to_be_bytes()[7];
                let messages = sent.seq.to_be_bytes()[7];
                self.last = Some((number, messages));
            }
        }
    }

    /// Lets the join timeout occur.
    pub fn time(&mut self) -> Result<(), Fault> {
        let outs = self.node.step(Input::Timeout(Kind::Join))?;
        self.count(&outs);
        Ok(())
    }

    /// Delivers a frame, which is moved into the node.
    fn deliver(&mut self, bytes: &[u8]) -> Result<(), Fault> {
        let frame = frame_of(self.ample, bytes)?;
        let outs = self.node.step(Input::Frame(frame))?;
        self.count(&outs);
        Ok(())
    }

    /// Delivers a frame, which the node copies.
    fn deliver_on(&mut self, bytes: &[u8]) -> Result<(), Fault> {
        let frame = frame_of(self.ample, bytes)?;
        let mut outs = mem::replace(&mut self.lent, Outs::new(self.ample));
        self.node.step_into(&Input::Frame(frame), &mut outs)?;
        self.count(&outs);
        self.lent = outs;
        Ok(())
    }

    /// Submits client 7's call of this number, `add 0 5`. The first is moved into the node; the others the node copies.
    pub fn submit(&mut self, number: u64) -> Result<Ticket, Fault> {
        let add = Counters::add(0, 5);
        let call = Call::new(self.ample, 7, number, add.as_slice())?;
        if number == 1 {
            self.node.submit(call)
        } else {
            self.node.submit_borrowed(&call)
        }
    }

    /// Delivers the token that the node sent last.
    pub fn turn(&mut self) -> Result<(), Fault> {
        match self.last {
            Some((number, messages)) => self.deliver(&token(number, messages)),
            None => Ok(()),
        }
    }

    /// Submits client 7's call of this number, `add 0 1`.
    pub fn add(&mut self, number: u64) -> Result<Ticket, Fault> {
        let add = Counters::add(0, 1);
        let call = Call::new(self.ample, 7, number, add.as_slice())?;
        self.node.submit(call)
    }

    /// Does the step at this place of the run, in which the ring is formed and its token circulates.
    /// Each message was sent before the token, and is held.
    pub fn step(&mut self, place: u8) -> Result<(), Fault> {
        match place {
            0 => self.time(),
            1 => self.deliver(&commit(1)),
            2 => self.deliver_on(&commit(2)),
            3 => self.deliver(&token(1, 1)),
            4 => self.deliver_on(&token(2, 1)),
            5 => self.deliver(&token(3, 2)),
            _ => self.deliver_on(&token(4, 3)),
        }
    }

    /// Returns the numbers of calls committed and of answers given.
    pub fn told(&self) -> (usize, usize) {
        (self.committed, self.answers)
    }

    /// Whether the node has stopped.
    pub fn is_stopped(&self) -> bool {
        self.node.state() == State::Stopped
    }

    /// Returns the node as observed.
    pub fn seen(&self) -> Seen {
        let node = &self.node;
        (
            node.state(),
            node.ring().seq,
            node.committed().len(),
            node.log_len(),
            node.order_len(),
        )
    }
}
