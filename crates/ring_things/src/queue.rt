//! A first-in first-out queue of values, with the operations push, pop and length.
//!
//! Rules: Objects 2 to 5
//! Formats: Operations and replies, Snapshots

ghost use Rattle.std.specs.Prelude.{◌≡◌, ◌+◌, ◌*◌, ◌≤◌, ◌++◌, length, Some, IfOk, IfErr, OnOk};
ghost use Rattle.ring_things.specs.Queue.{decoding, encoding};

use crate::encoded_numbers::{append_encoded_numbers, decode_numbers};
use crate::operations::Operation;
use crate::replies::{Outcome, outcome_reply, outcome_reply_with};
use byteorder::{BigEndian, ByteOrder};
use ring_base::Fault;
use ring_object::{Object, Reply};
use std::alloc::{Allocator, Global};
use std::collections::VecDeque;
use std::marker::Model;

/// The maximum number of values in a queue.
const MAX_QUEUE_VALUES: usize = 1024;

/// A first-in first-out queue of at most 1,024 values of 64 bits, empty at the start.
///
/// | Operation | Bytes | Reply |
/// |---|---|---|
/// | push | `01` value | `00`, and the value is last; `01`, and no change, if there are 1,024 values |
/// | pop | `02` | `00` and the first value, which is removed; `01` if there is none |
/// | length | `03` | `00` and the number of values, in 8 bytes |
///
/// The snapshot is the number of values in 2 bytes, then the values in 8 bytes each, oldest first. All numbers are
/// big-endian.
///
/// Rules: Objects 5
/// Formats: Operations and replies, Snapshots
#[derive(Drop)]
pub struct Queue<A: Allocator + Copy = Global> {
    items: VecDeque<u64, A>,
}

impl<A: Allocator + Copy> Model for Queue<A> {
    ghost use Rattle.std.specs.Prelude.{ℕ, List};
    ghost use Rattle.ring_things.specs.Queue.{IsQueue};

    ghost Value = { List ℕ };

    ghost view = { λ queue. queue.items.items };

    ghost invariant = { λ queue. IsQueue queue.items.items };
}

impl<A: Allocator + Copy + Drop> Object for Queue<A> {
    ghost use Rattle.std.specs.Prelude.{[]};
    ghost use Rattle.ring_things.specs.Queue.{IsQueue, is_readable, reply, next, snapshot_of, queue_of};
    ghost use Rattle.ring_things.specs.QueueLaws.{empty_IsQueue, next_kept, replies_fit, ignored, queues_restore};

    type Alloc = A;

    ghost is_content = { IsQueue };

    ghost is_readable = { is_readable };

    ghost sequential = { record { initial = []; reply = reply; next = next; snapshot_of = snapshot_of; restored = queue_of } };

    ghost starts = { empty_IsQueue };

    ghost keeps = { next_kept };

    ghost replies = { replies_fit };

    ghost ignores = { ignored };

    ghost restores = { queues_restore };

    fn start(alloc: A) -> Result<Queue<A>, Fault> {
        Ok(Queue {
            items: VecDeque::new(alloc),
        })
    }

    fn apply(&mut self, op: &[u8]) -> Result<Reply, Fault> {
        Ok(match QueueOperation::decode_queue_operation(op) {
            Some(QueueOperation::Push(value)) => {
                if self.items.len() == MAX_QUEUE_VALUES {
                    return Ok(outcome_reply(Outcome::NotDone));
                }
                self.items.push_back(value)?;
                outcome_reply(Outcome::Done)
            }
            Some(QueueOperation::Pop) => match self.items.pop_front() {
                Some(value) => outcome_reply_with(Outcome::Done, value),
                None => outcome_reply(Outcome::NotDone),
            },
            Some(QueueOperation::Count) => outcome_reply_with(
                Outcome::Done,
                self.items.len() as u64,
            ),
            None => outcome_reply(Outcome::Unreadable),
        })
    }

    fn snapshot(&self, out: &mut Vec<u8, A>) -> Result<(), Fault> {
        let count = self.items.len();
        out.reserve(2 + 8 * count)?;
        let mut head = [0; 2];
        BigEndian::write_u16(&mut head, count as u16);
        out.extend_from_slice(&head).unwrap();
        let (first, last) = self.items.as_slices();
        append_encoded_numbers(out, first);
        append_encoded_numbers(out, last);
        Ok(())
    }

    fn restore(alloc: A, bytes: &[u8]) -> Result<Queue<A>, Fault> {
        if bytes.len() < 2 {
            return Err(Fault::BadSnapshot);
        }
        let count = BigEndian::read_u16(bytes) as usize;
        let rest = &bytes[2..];
        if count > MAX_QUEUE_VALUES || rest.len() != 8 * count {
            return Err(Fault::BadSnapshot);
        }
        let items = VecDeque::from_vec(decode_numbers(alloc, count, rest)?);
        Ok(Queue { items })
    }
}

/// The operations of a queue, as bytes.
///
/// Formats: Operations and replies
impl Queue {
    ghost use Rattle.ring_things.specs.declared.queue.QueueOperation.TheVariants.{Push, Pop, Count};

    /// Returns the operation that appends `value` to the queue: `01` and the value in 8 bytes, big-endian.
    ///
    /// Formats: Operations and replies
    #[tactic(auto, using(crate::proofs::OperationsRead::push_read))]
    pub fn push(value: u64) -> Operation
        ensures bytes { result ≡ encoding (Push value) }
        ensures read { decoding result ≡ Some (Push value) }
    {
        let mut bytes = [1; 9];
        BigEndian::write_u64(&mut bytes[1..], value);
        Operation::from_slice(&bytes)
    }

    /// Returns the operation that removes the oldest value and replies with it: `02`.
    ///
    /// Formats: Operations and replies
    pub fn pop() -> Operation
        ensures bytes { result ≡ encoding Pop }
        ensures read { decoding result ≡ Some Pop }
    {
        Operation::from_slice(&[2])
    }

    /// Returns the operation that reads the number of values in the queue: `03`.
    ///
    /// Formats: Operations and replies
    pub fn length() -> Operation
        ensures bytes { result ≡ encoding Count }
        ensures read { decoding result ≡ Some Count }
    {
        Operation::from_slice(&[3])
    }
}

/// An operation of a queue, decoded.
enum QueueOperation {
    /// The value to append.
    Push(u64),
    /// The oldest value is removed and returned.
    Pop,
    /// The number of values is read.
    Count,
}

impl QueueOperation {
    /// Decodes an operation of a queue, or returns `None` for bytes that aren't one.
    fn decode_queue_operation(op: &[u8]) -> Option<QueueOperation>
        ensures { result ≡ decoding op.now }
    {
        let [code, rest @ ..] = op else {
            return None;
        };
        match (*code, rest.len()) {
            (1, 8) => Some(QueueOperation::Push(BigEndian::read_u64(rest))),
            (2, 0) => Some(QueueOperation::Pop),
            (3, 0) => Some(QueueOperation::Count),
            _ => None,
        }
    }
}
