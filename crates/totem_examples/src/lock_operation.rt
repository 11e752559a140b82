//! The operations of a lock table.

ghost use Rattle.std.specs.Prelude.{◌≡◌, Some};
ghost use Rattle.totem_examples.specs.Locks.{parts_of, decoding, encoding};

use totem_ring::{KeyedOperation, Operation};

/// An operation on a lock table, which has 256 locks, numbered from 0. A holder is a number; the number 0 is nobody.
#[derive(Clone, Copy)]
pub enum LockOperation {
    /// Acquires this lock for this holder.
    Acquire(u8, u64),
    /// Releases this lock, which this holder has.
    Release(u8, u64),
    /// Asks for the holder of this lock.
    Holder(u8),
}

impl LockOperation {
    /// Returns the operation's bytes, which [`read`](LockOperation::read) decodes.
    #[tactic(auto, using(crate::specs::LocksLaws::parts_read))]
    pub fn encode(self) -> Operation
        ensures bytes { result ≡ encoding self }
        ensures read { decoding result ≡ Some self }
    {
        self.parts().encode()
    }

    fn parts(self) -> KeyedOperation
        ensures { result ≡ parts_of self }
    {
        let (code, key, value) = match self {
            LockOperation::Acquire(lock, holder) => (1, lock, Some(holder)),
            LockOperation::Release(lock, holder) => (2, lock, Some(holder)),
            LockOperation::Holder(lock) => (3, lock, None),
        };
        KeyedOperation { code, key, value }
    }

    /// Decodes an operation. Returns `None` if the bytes don't encode one.
    pub fn read(op: &[u8]) -> Option<LockOperation>
        ensures { result ≡ decoding op.now }
    {
        let KeyedOperation { code, key, value } = KeyedOperation::read(op)?;
        match (code, value) {
            (1, Some(holder)) => Some(LockOperation::Acquire(key, holder)),
            (2, Some(holder)) => Some(LockOperation::Release(key, holder)),
            (3, None) => Some(LockOperation::Holder(key)),
            _ => None,
        }
    }
}
