//! A table: a number for each of 256 keys.
//!
//! Formats: Snapshots

ghost use Rattle.std.specs.Prelude.{◌≡◌, ◌++◌, slice_index, slice_set, Some, IfOk, IfErr, OnOk, OnErr};
ghost use Rattle.ring_things.specs.Numbers.{list_encoding};

use crate::encoded_numbers::{append_encoded_numbers, decode_numbers};
use ring_base::Fault;
use std::alloc::{Allocator, Global};
use std::marker::Model;

/// The number of keys.
///
/// A key is one byte.
const TABLE_KEYS: usize = 256;

/// A number of 64 bits for each of the keys 0 to 255, all 0 at the start.
///
/// Contracts see the list of the numbers.
///
/// The snapshot is the numbers in the order of their keys, 8 bytes each, big-endian: 2,048 bytes.
///
/// Formats: Snapshots
#[derive(Drop)]
pub struct Table<A: Allocator + Copy = Global> {
    numbers: Vec<u64, A>,
}

impl<A: Allocator + Copy> Model for Table<A> {
    ghost use Rattle.std.specs.Prelude.{ℕ, List};
    ghost use Rattle.ring_things.specs.Table.{IsTable, keys};

    ghost Value = { List ℕ };

    ghost view = { λ table. table.numbers.items };

    ghost invariant = { λ table. IsTable keys table.numbers.items };
}

impl<A: Allocator + Copy + Drop> Table<A> {
    ghost use Rattle.ring_things.specs.Table.{IsTable, keys, zeros, table_of};
    ghost use Rattle.ring_object.specs.Snapshots.{IsSnapshotRefusal};

    /// Returns a table that has the number 0 for each of the 256 keys, in memory of `alloc`.
    ///
    /// Errors: `Memory` if an allocation fails.
    ///
    /// Rules: Objects 5
    pub fn zeros(alloc: A) -> Result<Table<A>, Fault>
        ensures ok { IfOk result (λ table. table ≡ zeros keys) }
        ensures refused { IfErr result (λ fault. fault ≡ Fault.Memory) }
    {
        let numbers = vec![in alloc; 0; TABLE_KEYS]?;
        Ok(Table { numbers })
    }

    /// Returns the number for `key`.
    pub fn get(&self, key: u8) -> u64
        ensures { result ≡ slice_index self.now key }
    {
        self.numbers[key as usize]
    }

    /// Stores `number` for `key`, in place of the number there.
    ///
    /// Does not allocate.
    pub fn set(&mut self, key: u8, number: u64)
        ensures { self.new ≡ slice_set self.old key number }
    {
        self.numbers[key as usize] = number;
    }

    /// Appends the snapshot of 2,048 bytes to `out`, and changes nothing before it.
    ///
    /// Errors: `Memory` if an allocation fails; the bytes of `out` are then unchanged.
    ///
    /// Rules: Objects 3 and 4
    /// Formats: Snapshots
    pub fn snapshot(&self, out: &mut Vec<u8, A>) -> Result<(), Fault>
        ensures content { OnOk result (IsTable keys self.now) }
        ensures ok { OnOk result (out.new.items ≡ out.old.items ++ list_encoding 8 self.now) }
        ensures err { OnErr result (out.new.items ≡ out.old.items) }
        ensures refused { IfErr result (λ fault. fault ≡ Fault.Memory) }
    {
        out.reserve(8 * TABLE_KEYS)?;
        append_encoded_numbers(out, self.numbers.as_slice());
        Ok(())
    }

    /// Returns the table whose snapshot is `bytes`, in memory of `alloc`.
    ///
    /// Errors: `BadSnapshot`, exactly if there aren't 2,048 bytes. `Memory` if there are and an allocation fails.
    ///
    /// Rules: Objects 3
    /// Formats: Snapshots
    pub fn restore(alloc: A, bytes: &[u8]) -> Result<Table<A>, Fault>
        ensures ok { IfOk result (λ table. table_of keys bytes.now ≡ Some table) }
        ensures refused { IfErr result (IsSnapshotRefusal (table_of keys bytes.now)) }
    {
        if bytes.len() != 8 * TABLE_KEYS {
            return Err(Fault::BadSnapshot);
        }
        let numbers = decode_numbers(alloc, TABLE_KEYS, bytes)?;
        Ok(Table { numbers })
    }
}
