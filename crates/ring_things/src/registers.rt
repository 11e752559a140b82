//! Registers: a value for each of 256 keys, with the operations get, put and compare-and-set.
//!
//! Rules: Objects 2 to 5
//! Formats: Operations and replies, Snapshots

ghost use Rattle.std.specs.Prelude.{◌≡◌, Some};
ghost use Rattle.ring_things.specs.Registers.{decoding, encoding};

use crate::operations::{Operation, key_operation, key_value_operation};
use crate::replies::{Outcome, outcome_reply, outcome_reply_with};
use crate::table::Table;
use byteorder::{BigEndian, ByteOrder};
use ring_base::Fault;
use ring_object::{Object, Reply};
use std::alloc::{Allocator, Global};
use std::marker::Model;

/// A value of 64 bits for each of the keys 0 to 255, all 0 at the start.
///
/// No operation allocates.
///
/// | Operation | Bytes | Reply |
/// |---|---|---|
/// | get | `01` key | `00` value |
/// | put | `02` key value | `00` |
/// | compare and set | `03` key expected new | `00`, and new is stored, if the value is expected; if not, `01` value |
///
/// The snapshot is the values in the order of their keys, 8 bytes each, big-endian: 2,048 bytes.
///
/// Rules: Objects 5
/// Formats: Operations and replies, Snapshots
#[derive(Drop)]
pub struct Registers<A: Allocator + Copy = Global> {
    values: Table<A>,
}

impl<A: Allocator + Copy> Model for Registers<A> {
    ghost use Rattle.std.specs.Prelude.{ℕ, List};

    ghost Value = { List ℕ };

    ghost view = { λ registers. registers.values };
}

impl<A: Allocator + Copy + Drop> Object for Registers<A> {
    ghost use Rattle.ring_things.specs.Table.{IsTable, keys, zeros, snapshot_of, table_of, zeros_IsTable, tables_restore};
    ghost use Rattle.ring_things.specs.Registers.{is_readable, reply, next};
    ghost use Rattle.ring_things.specs.RegistersLaws.{next_kept, replies_fit, ignored};

    type Alloc = A;

    ghost is_content = { IsTable keys };

    ghost is_readable = { is_readable };

    ghost sequential = { record { initial = zeros keys; reply = reply; next = next; snapshot_of = snapshot_of; restored = table_of keys } };

    ghost starts = { zeros_IsTable keys };

    ghost keeps = { next_kept };

    ghost replies = { replies_fit };

    ghost ignores = { ignored };

    ghost restores = { tables_restore keys };

    fn start(alloc: A) -> Result<Registers<A>, Fault> {
        let values = Table::zeros(alloc)?;
        Ok(Registers { values })
    }

    fn apply(&mut self, op: &[u8]) -> Result<Reply, Fault> {
        Ok(match RegisterOperation::decode_register_operation(op) {
            Some(RegisterOperation::Get(key)) => outcome_reply_with(
                Outcome::Done,
                self.values.get(key),
            ),
            Some(RegisterOperation::Put(key, value)) => {
                self.values.set(key, value);
                outcome_reply(Outcome::Done)
            }
            Some(RegisterOperation::CompareAndSet(key, expected, new)) => {
                let value = self.values.get(key);
                if value != expected {
                    return Ok(outcome_reply_with(Outcome::NotDone, value));
                }
                self.values.set(key, new);
                outcome_reply(Outcome::Done)
            }
            None => outcome_reply(Outcome::Unreadable),
        })
    }

    fn snapshot(&self, out: &mut Vec<u8, A>) -> Result<(), Fault> {
        self.values.snapshot(out)
    }

    fn restore(alloc: A, bytes: &[u8]) -> Result<Registers<A>, Fault> {
        let values = Table::restore(alloc, bytes)?;
        Ok(Registers { values })
    }
}

/// The operations of registers, as bytes.
///
/// Formats: Operations and replies
impl Registers {
    ghost use Rattle.ring_things.specs.declared.registers.RegisterOperation.TheVariants.{Get, Put, CompareAndSet};

    /// Returns the operation that reads the value for `key`: `01` and the key.
    ///
    /// Formats: Operations and replies
    pub fn get(key: u8) -> Operation
        ensures bytes { result ≡ encoding (Get key) }
        ensures read { decoding result ≡ Some (Get key) }
    {
        key_operation(1, key)
    }

    /// Returns the operation that stores `value` for `key`: `02`, the key, and the value in 8 bytes, big-endian.
    ///
    /// Formats: Operations and replies
    #[tactic(auto, using(crate::proofs::OperationsRead::put_read))]
    pub fn put(key: u8, value: u64) -> Operation
        ensures bytes { result ≡ encoding (Put key value) }
        ensures read { decoding result ≡ Some (Put key value) }
    {
        key_value_operation(2, key, value)
    }

    /// Returns the operation that stores `new` for `key` if the value there is `expected`.
    ///
    /// It is `03`, the key, and both values in 8 bytes each, big-endian. If the value there is another one, it is
    /// unchanged and is the reply's value.
    ///
    /// Formats: Operations and replies
    #[tactic(auto, using(crate::proofs::OperationsRead::compare_and_set_read))]
    pub fn compare_and_set(key: u8, expected: u64, new: u64) -> Operation
        ensures bytes { result ≡ encoding (CompareAndSet key expected new) }
        ensures read { decoding result ≡ Some (CompareAndSet key expected new) }
    {
        let mut bytes = [3; 18];
        bytes[1] = key;
        BigEndian::write_u64(&mut bytes[2..], expected);
        BigEndian::write_u64(&mut bytes[10..], new);
        Operation::from_slice(&bytes)
    }
}

/// An operation of registers, decoded.
enum RegisterOperation {
    /// The key whose value is read.
    Get(u8),
    /// The key and the value to store.
    Put(u8, u64),
    /// The key, the expected value and the new value.
    CompareAndSet(u8, u64, u64),
}

impl RegisterOperation {
    /// Decodes an operation of registers, or returns `None` for bytes that aren't one.
    fn decode_register_operation(op: &[u8]) -> Option<RegisterOperation>
        ensures { result ≡ decoding op.now }
    {
        let [code, key, rest @ ..] = op else {
            return None;
        };
        match (*code, rest.len()) {
            (1, 0) => Some(RegisterOperation::Get(*key)),
            (2, 8) => Some(RegisterOperation::Put(*key, BigEndian::read_u64(rest))),
            (3, 16) => {
                let expected = BigEndian::read_u64(rest);
                let new = BigEndian::read_u64(&rest[8..]);
                Some(RegisterOperation::CompareAndSet(*key, expected, new))
            }
            _ => None,
        }
    }
}
