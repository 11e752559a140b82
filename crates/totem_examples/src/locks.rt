//! The lock table, an object to replicate.

ghost use Rattle.std.specs.Prelude.{◌≡◌};

use crate::lock_operation::LockOperation;
use std::alloc::{Allocator, Global};
use std::marker::Model;
use totem_ring::{
    Fault, Object, Reply, ReplyParts, Table, done, done_with, not_done_with, reply_of,
};

/// A table of 256 locks, all free at the start. Each is free or has a holder.
///
/// | Operation | Reply |
/// |---|---|
/// | acquire | done if the lock was free or already the holder's; otherwise refused, with the holder |
/// | release | done if the lock was the holder's, and it is free now; otherwise refused, with the holder |
/// | holder | done, with the holder, or 0 if the lock is free |
#[derive(Drop)]
pub struct Locks<A: Allocator + Copy = Global> {
    holders: Table<A>,
}

impl<A: Allocator + Copy> Model for Locks<A> {
    ghost use Rattle.std.specs.Prelude.{ℕ, List};

    ghost Value = { List ℕ };

    ghost view = { λ locks. locks.holders };
}

impl<A: Allocator + Copy + Drop> Object for Locks<A> {
    ghost use Rattle.totem_ring.specs.Table.{IsTable, zeros_IsTable, zeros, snapshot_of, table_of, tables_restore};
    ghost use Rattle.totem_ring.specs.Typed.{typed, is_read, typed_keeps, typed_replies, typed_ignores};
    ghost use Rattle.totem_examples.specs.Locks.{encoding, decoding, reply_to, after};
    ghost use Rattle.totem_examples.specs.LocksLaws.{Fits, reads, keeps_table};

    type Alloc = A;

    ghost is_content = { IsTable 256 };

    ghost is_readable = { is_read decoding };

    ghost sequential = { typed (zeros 256) decoding reply_to after snapshot_of (table_of 256) };

    ghost starts = { zeros_IsTable 256 };

    ghost keeps = { typed_keeps (IsTable 256) Fits encoding decoding reads after keeps_table };

    ghost replies = { typed_replies (IsTable 256) decoding reply_to };

    ghost ignores = { typed_ignores decoding reply_to after };

    ghost restores = { tables_restore 256 };

    fn start(alloc: A) -> Result<Locks<A>, Fault> {
        let holders = Table::zeros(alloc)?;
        Ok(Locks { holders })
    }

    fn apply(&mut self, op: &[u8]) -> Result<Reply, Fault> {
        let Some(operation) = LockOperation::read(op) else {
            return Ok(reply_of(None));
        };
        Ok(reply_of(Some(self.answer(operation))))
    }

    fn snapshot(&self, out: &mut Vec<u8, A>) -> Result<(), Fault> {
        self.holders.snapshot(out)
    }

    fn restore(alloc: A, bytes: &[u8]) -> Result<Locks<A>, Fault> {
        let holders = Table::restore(alloc, bytes)?;
        Ok(Locks { holders })
    }
}

impl<A: Allocator + Copy + Drop> Locks<A> {
    ghost use Rattle.totem_examples.specs.Locks.{reply_to, after};

    /// Does an operation and returns its reply.
    fn answer(&mut self, operation: LockOperation) -> ReplyParts
        ensures reply { result ≡ reply_to self.old operation }
        ensures after { self.new ≡ after self.old operation }
    {
        match operation {
            LockOperation::Acquire(lock, holder) => {
                let has_it = self.holders.get(lock);
                if has_it != 0 && has_it != holder {
                    return not_done_with(has_it);
                }
                self.holders.set(lock, holder);
                done()
            }
            LockOperation::Release(lock, holder) => {
                let has_it = self.holders.get(lock);
                if has_it != holder {
                    return not_done_with(has_it);
                }
                self.holders.set(lock, 0);
                done()
            }
            LockOperation::Holder(lock) => done_with(self.holders.get(lock)),
        }
    }
}
