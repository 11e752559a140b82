//! A shelf: four objects as one object.
//!
//! Rules: Objects 1 to 6
//! Formats: Operations and replies, Snapshots

ghost use Rattle.std.specs.Prelude.{◌≡◌, ◌∷◌, ◌++◌, take, Option, IfErr, OnOk, OnErr, vec_len};
ghost use Rattle.std.specs.Option.{option_map};
ghost use Rattle.ring_object.specs.Snapshots.{IsRestoreResult};
ghost use Rattle.ring_things.specs.Shelf.{number_of, first_text, texts_of, shelf_snapshot, both_of};
ghost use Rattle.ring_things.specs.ShelfLaws.{AreContents};

use crate::counters::Counters;
use crate::names::Names;
use crate::operations::{Operation, ShelfOperation, prefixed_bytes};
use crate::queue::Queue;
use crate::registers::Registers;
use crate::replies::{Outcome, outcome_reply};
use byteorder::{BigEndian, ByteOrder};
use ring_base::Fault;
use ring_object::{Object, Reply, append_sized_snapshot};
use std::marker::Model;

/// A composite object: four objects of any types as one object.
///
/// The first byte of an operation, 0 to 3, is the number of an object. The rest is an operation of that object, whose
/// reply is the reply. An operation with another first byte, or without bytes, is unreadable. The snapshot is, for each
/// object in turn, the length of its snapshot in 8 bytes, big-endian, and that snapshot.
///
/// Rules: Objects 5
/// Formats: Operations and replies, Snapshots
#[derive(Drop)]
pub struct Shelf<P: Drop, Q: Drop, R: Drop, S: Drop> {
    first: P,
    second: Q,
    third: R,
    fourth: S,
}

/// The standard object, which the program replicates: a shelf of registers, counters, a queue and names.
///
/// Their numbers on the shelf are 0 to 3, in this order.
///
/// Rules: Objects 6
pub type StandardObjects<A> = Shelf<Registers<A>, Counters<A>, Queue<A>, Names<A>>;

impl<P: Drop, Q: Drop, R: Drop, S: Drop> Model for Shelf<P, Q, R, S> {
    ghost Value = { P × Q × R × S };

    ghost view = { λ shelf. (shelf.first, shelf.second, shelf.third, shelf.fourth) };
}

impl<
    P: Object,
    Q: Object<Alloc = P::Alloc>,
    R: Object<Alloc = P::Alloc>,
    S: Object<Alloc = P::Alloc>,
> Object for Shelf<P, Q, R, S> {
    ghost use Rattle.ring_things.specs.Shelf.{shelf_readable, shelf_reply, shelf_next};
    ghost use Rattle.ring_things.specs.Shelf.{shelf_of};
    ghost use Rattle.ring_things.specs.ShelfLaws.{shelf_kept, shelf_replies};
    ghost use Rattle.ring_things.specs.ShelfLaws.{shelf_ignores, shelves_restore};

    type Alloc = P::Alloc;

    ghost is_content = { AreContents P.is_content Q.is_content R.is_content S.is_content };

    ghost is_readable = { shelf_readable P.is_readable Q.is_readable R.is_readable S.is_readable };

    ghost sequential = { record {
      initial = (
        P.sequential.initial,
        Q.sequential.initial,
        R.sequential.initial,
        S.sequential.initial,
      );
      reply = shelf_reply P.sequential.reply Q.sequential.reply R.sequential.reply
          S.sequential.reply;
      next = shelf_next P.sequential.next Q.sequential.next R.sequential.next
          S.sequential.next;
      snapshot_of = shelf_snapshot P.sequential.snapshot_of Q.sequential.snapshot_of R.sequential.snapshot_of
          S.sequential.snapshot_of;
      restored = shelf_of P.sequential.restored Q.sequential.restored R.sequential.restored
          S.sequential.restored;
    } };

    ghost starts = { (P.starts, Q.starts, R.starts, S.starts) };

    ghost keeps = { shelf_kept
        P.is_content Q.is_content R.is_content S.is_content
        P.sequential.next Q.sequential.next R.sequential.next S.sequential.next
        P.keeps Q.keeps R.keeps S.keeps };

    ghost replies = { shelf_replies
        P.is_content Q.is_content R.is_content S.is_content
        P.sequential.reply Q.sequential.reply R.sequential.reply S.sequential.reply
        P.replies Q.replies R.replies S.replies };

    ghost ignores = { shelf_ignores
        P.sequential.reply Q.sequential.reply R.sequential.reply S.sequential.reply
        P.sequential.next Q.sequential.next R.sequential.next S.sequential.next
        P.is_readable Q.is_readable R.is_readable S.is_readable
        P.ignores Q.ignores R.ignores S.ignores };

    ghost restores = { shelves_restore
        P.is_content Q.is_content R.is_content S.is_content
        P.sequential.snapshot_of Q.sequential.snapshot_of R.sequential.snapshot_of S.sequential.snapshot_of
        P.sequential.restored Q.sequential.restored R.sequential.restored S.sequential.restored
        P.restores Q.restores R.restores S.restores };

    fn start(alloc: P::Alloc) -> Result<Self, Fault> {
        Ok(Shelf {
            first: P::start(alloc)?,
            second: Q::start(alloc)?,
            third: R::start(alloc)?,
            fourth: S::start(alloc)?,
        })
    }

    fn apply(&mut self, op: &[u8]) -> Result<Reply, Fault> {
        match op.split_first() {
            Some((0, rest)) => self.first.apply(rest),
            Some((1, rest)) => self.second.apply(rest),
            Some((2, rest)) => self.third.apply(rest),
            Some((3, rest)) => self.fourth.apply(rest),
            _ => Ok(outcome_reply(Outcome::Unreadable)),
        }
    }

    fn snapshot(&self, out: &mut Vec<u8, P::Alloc>) -> Result<(), Fault> {
        let start = out.len();
        let appended = append_shelf_snapshots(
            &self.first,
            &self.second,
            &self.third,
            &self.fourth,
            out,
        );
        if appended.is_err() {
            out.truncate(start);
        }
        appended
    }

    fn restore(alloc: P::Alloc, bytes: &[u8]) -> Result<Self, Fault> {
        let Some((first, second, third, fourth)) = split_shelf_snapshot(bytes) else {
            return Err(Fault::BadSnapshot);
        };
        let front = both_restored(P::restore(alloc, first), Q::restore(alloc, second));
        let back = both_restored(R::restore(alloc, third), S::restore(alloc, fourth));
        let ((first, second), (third, fourth)) = both_restored(front, back)?;
        Ok(Shelf {
            first,
            second,
            third,
            fourth,
        })
    }
}

/// The position of an object on a shelf.
///
/// Its discriminant is the object's number, 0 to 3.
///
/// Formats: Operations and replies
#[derive(Clone, Copy, Debug, PartialEq, Eq)]
pub enum ShelfPosition {
    /// The shelf's first object, number 0.
    First = 0,
    /// The shelf's second object, number 1.
    Second = 1,
    /// The shelf's third object, number 2.
    Third = 2,
    /// The shelf's fourth object, number 3.
    Fourth = 3,
}

impl ShelfPosition {
    /// Returns the shelf's operation that applies `operation` to the object at this position.
    ///
    /// It is the object's number in one byte, then the bytes of `operation`.
    ///
    /// Formats: Operations and replies
    pub fn operation(self, operation: &Operation) -> ShelfOperation
        ensures { result ≡ number_of self ∷ operation.now }
    {
        prefixed_bytes(self as u8, operation.as_slice())
    }
}

/// Appends the snapshots of four objects to `out`, each preceded by its length.
///
/// Errors: `Memory` if an allocation fails; some of the bytes may then have been appended.
fn append_shelf_snapshots<
    P: Object,
    Q: Object<Alloc = P::Alloc>,
    R: Object<Alloc = P::Alloc>,
    S: Object<Alloc = P::Alloc>,
>(first: &P, second: &Q, third: &R, fourth: &S, out: &mut Vec<u8, P::Alloc>) -> Result<(), Fault>
    ensures content { OnOk result
        (AreContents P.is_content Q.is_content R.is_content S.is_content
        (first.now, second.now, third.now, fourth.now)) }
    ensures ok { OnOk result (out.new.items ≡ out.old.items
        ++ shelf_snapshot P.sequential.snapshot_of Q.sequential.snapshot_of R.sequential.snapshot_of S.sequential.snapshot_of
        (first.now, second.now, third.now, fourth.now)) }
    ensures front { take (vec_len out.old) out.new.items ≡ out.old.items }
    ensures refused { IfErr result (λ fault. fault ≡ Fault.Memory) }
{
    append_sized_snapshot(first, out)?;
    append_sized_snapshot(second, out)?;
    append_sized_snapshot(third, out)?;
    append_sized_snapshot(fourth, out)
}

/// Splits the bytes into a text preceded by its length, and the rest.
///
/// Returns `None` if they are too short.
fn split_sized_text(bytes: &[u8]) -> Option<(&[u8], &[u8])>
    ensures { option_map (λ parts. (parts.0.now, parts.1.now)) result ≡ first_text 8 bytes.now }
{
    if bytes.len() < 8 {
        return None;
    }
    let len = BigEndian::read_u64(bytes);
    let rest = &bytes[8..];
    if len > rest.len() as u64 {
        return None;
    }
    Some(rest.split_at(len as usize))
}

/// Splits the bytes into exactly four texts, each preceded by its length.
///
/// Returns `None` if they are anything else.
fn split_shelf_snapshot(bytes: &[u8]) -> Option<(&[u8], &[u8], &[u8], &[u8])>
    ensures { option_map (λ texts. (texts.0.now, texts.1.now, texts.2.now, texts.3.now)) result
        ≡ texts_of bytes.now }
{
    let (first, rest) = split_sized_text(bytes)?;
    let (second, rest) = split_sized_text(rest)?;
    let (third, rest) = split_sized_text(rest)?;
    let (fourth, rest) = split_sized_text(rest)?;
    if !rest.is_empty() {
        return None;
    }
    Some((first, second, third, fourth))
}

/// Returns both restored objects.
///
/// Errors: `BadSnapshot` if either result has it; otherwise `Memory`.
fn both_restored<X: Drop, Y: Drop>(
    first: Result<X, Fault>,
    second: Result<Y, Fault>,
) -> Result<(X, Y), Fault>
    ensures { (x : Option X) (y : Option Y) → IsRestoreResult x first → IsRestoreResult y second
        → IsRestoreResult (both_of x y) result }
{
    match (first, second) {
        (Ok(first), Ok(second)) => Ok((first, second)),
        (Err(Fault::BadSnapshot), _) | (_, Err(Fault::BadSnapshot)) => Err(Fault::BadSnapshot),
        (Err(fault), _) | (_, Err(fault)) => Err(fault),
    }
}
