//! Counters: a count for each of 256 keys, with the operations add and read.
//!
//! Rules: Objects 2 to 5
//! Formats: Operations and replies, Snapshots

ghost use Rattle.std.specs.Prelude.{◌≡◌, Some};
ghost use Rattle.ring_things.specs.Counters.{decoding, encoding};

use crate::operations::{Operation, key_operation, key_value_operation};
use crate::replies::{Outcome, outcome_reply, outcome_reply_with};
use crate::table::Table;
use byteorder::{BigEndian, ByteOrder};
use ring_base::Fault;
use ring_object::{Object, Reply};
use std::alloc::{Allocator, Global};
use std::marker::Model;

/// A count of 64 bits for each of the keys 0 to 255, all 0 at the start.
///
/// No operation allocates.
///
/// | Operation | Bytes | Reply |
/// |---|---|---|
/// | add | `01` key amount | `00` and the new count; `01`, and no change, if the new count would be above 2^64 - 1 |
/// | read | `02` key | `00` count |
///
/// The snapshot is the counts in the order of their keys, 8 bytes each, big-endian: 2,048 bytes.
///
/// Rules: Objects 5
/// Formats: Operations and replies, Snapshots
#[derive(Drop)]
pub struct Counters<A: Allocator + Copy = Global> {
    counts: Table<A>,
}

impl<A: Allocator + Copy> Model for Counters<A> {
    ghost use Rattle.std.specs.Prelude.{ℕ, List};

    ghost Value = { List ℕ };

    ghost view = { λ counters. counters.counts };
}

impl<A: Allocator + Copy + Drop> Object for Counters<A> {
    ghost use Rattle.ring_things.specs.Table.{IsTable, keys, zeros, snapshot_of, table_of, zeros_IsTable, tables_restore};
    ghost use Rattle.ring_things.specs.Counters.{is_readable, reply, next};
    ghost use Rattle.ring_things.specs.CountersLaws.{next_kept, replies_fit, ignored};

    type Alloc = A;

    ghost is_content = { IsTable keys };

    ghost is_readable = { is_readable };

    ghost sequential = { record { initial = zeros keys; reply = reply; next = next; snapshot_of = snapshot_of; restored = table_of keys } };

    ghost starts = { zeros_IsTable keys };

    ghost keeps = { next_kept };

    ghost replies = { replies_fit };

    ghost ignores = { ignored };

    ghost restores = { tables_restore keys };

    fn start(alloc: A) -> Result<Counters<A>, Fault> {
        let counts = Table::zeros(alloc)?;
        Ok(Counters { counts })
    }

    fn apply(&mut self, op: &[u8]) -> Result<Reply, Fault> {
        Ok(match CounterOperation::decode_counter_operation(op) {
            Some(CounterOperation::Add(key, amount)) => match self
                .counts
                .get(key)
                .checked_add(amount)
            {
                Some(count) => {
                    self.counts.set(key, count);
                    outcome_reply_with(Outcome::Done, count)
                }
                None => outcome_reply(Outcome::NotDone),
            },
            Some(CounterOperation::Read(key)) => outcome_reply_with(
                Outcome::Done,
                self.counts.get(key),
            ),
            None => outcome_reply(Outcome::Unreadable),
        })
    }

    fn snapshot(&self, out: &mut Vec<u8, A>) -> Result<(), Fault> {
        self.counts.snapshot(out)
    }

    fn restore(alloc: A, bytes: &[u8]) -> Result<Counters<A>, Fault> {
        let counts = Table::restore(alloc, bytes)?;
        Ok(Counters { counts })
    }
}

/// The operations of counters, as bytes.
///
/// Formats: Operations and replies
impl Counters {
    ghost use Rattle.ring_things.specs.declared.counters.CounterOperation.TheVariants.{Add, Read};

    /// Returns the operation that adds `amount` to the count for `key`: `01`, the key, and the amount in 8 bytes,
    /// big-endian.
    ///
    /// Formats: Operations and replies
    #[tactic(auto, using(crate::proofs::OperationsRead::add_read))]
    pub fn add(key: u8, amount: u64) -> Operation
        ensures bytes { result ≡ encoding (Add key amount) }
        ensures read { decoding result ≡ Some (Add key amount) }
    {
        key_value_operation(1, key, amount)
    }

    /// Returns the operation that reads the count for `key`: `02` and the key.
    ///
    /// Formats: Operations and replies
    pub fn read(key: u8) -> Operation
        ensures bytes { result ≡ encoding (Read key) }
        ensures read { decoding result ≡ Some (Read key) }
    {
        key_operation(2, key)
    }
}

/// An operation of counters, decoded.
enum CounterOperation {
    /// The key and the amount to add to its count.
    Add(u8, u64),
    /// The key whose count is read.
    Read(u8),
}

impl CounterOperation {
    /// Decodes an operation of counters, or returns `None` for bytes that aren't one.
    fn decode_counter_operation(op: &[u8]) -> Option<CounterOperation>
        ensures { result ≡ decoding op.now }
    {
        let [code, key, rest @ ..] = op else {
            return None;
        };
        match (*code, rest.len()) {
            (1, 8) => Some(CounterOperation::Add(*key, BigEndian::read_u64(rest))),
            (2, 0) => Some(CounterOperation::Read(*key)),
            _ => None,
        }
    }
}
