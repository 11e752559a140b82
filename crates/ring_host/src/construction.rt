//! The construction of a host from an opening.
//!
//! Rules: The book and the threads 19

ghost use Rattle.std.specs.Prelude.{◌≡◌, ◌<◌, ◌≤◌, ◌+◌, vec_len, length, All, IfOk, IfErr};
ghost use Rattle.ring_base.specs.declared.fault.Fault.TheVariants.{Memory};
ghost use Rattle.ring_seat.specs.Seats.{IsAt, AreNew};
ghost use Rattle.ring_host.specs.Items.{HasRoomFor};

use crate::INBOX;
use crate::event_count::EventCount;
use crate::host::{Host, HostOf};
use crate::inbox::Inbox;
use crate::latch::AtomicLatch;
use ring_base::Fault;
use ring_book::{Book, BookName, Cell, Opening};
use ring_object::Object;
use ring_seat::{Gauge, Seat};
use std::alloc::Allocator;
use std::sync::Mutex;

impl<O: Object, K: BookName<O::Alloc>> HostOf<Cell<O, K>, Book<O, K>, O::Alloc> {
    /// Creates the host of the opening, and its seats.
    ///
    /// `K` must be the name of `opening`. The seats are the own seat of each node, in ascending order, then `more`
    /// seats of no node. `more` must be at most 256. Each inbox has room for 1,024 items.
    ///
    /// Errors: `Memory` if an allocation fails; the opening is then dropped.
    ///
    /// Rules: The book and the threads 19
    pub fn new(
        alloc: O::Alloc,
        opening: Opening<O>,
        more: u16,
    ) -> Result<(Host<O, K>, Vec<Seat<O::Alloc>, O::Alloc>), Fault>
        requires name { opening ≡ K.name }
        requires few { more ≤ 256 }
        ensures count { IfOk result (λ r. length r.1.items ≡ K.name.group.count + more) }
        ensures seats { IfOk result (λ r. AreNew r.0.gauge K.name.group.count r.1.items) }
        ensures at { IfOk result (λ r. All (IsAt r.0.gauge) r.1.items) }
        ensures nodes { IfOk result (λ r. r.0.gauge.words ≡ K.name.group.count) }
        ensures inboxes { IfOk result (λ r. r.0.inbox_size ≡ 1024) }
        ensures refused { IfErr result (λ fault. fault ≡ Memory) }
    {
        HostOf::with_inbox(alloc, opening, more, INBOX)
    }

    /// Creates a host as [`HostOf::new`] does, with inboxes of `size` items.
    ///
    /// `size` must be 1 to 1,024. `K` must be the name of `opening`, and `more` at most 256.
    ///
    /// Errors: `Memory` if an allocation fails; the opening is then dropped.
    ///
    /// Rules: The book and the threads 19 and 23
    pub fn with_inbox(
        alloc: O::Alloc,
        opening: Opening<O>,
        more: u16,
        size: usize,
    ) -> Result<(Host<O, K>, Vec<Seat<O::Alloc>, O::Alloc>), Fault>
        requires name { opening ≡ K.name }
        requires few { more ≤ 256 }
        requires size { (1 ≤ size) × (size ≤ 1024) }
        ensures count { IfOk result (λ r. length r.1.items ≡ K.name.group.count + more) }
        ensures seats { IfOk result (λ r. AreNew r.0.gauge K.name.group.count r.1.items) }
        ensures at { IfOk result (λ r. All (IsAt r.0.gauge) r.1.items) }
        ensures nodes { IfOk result (λ r. r.0.gauge.words ≡ K.name.group.count) }
        ensures inboxes { IfOk result (λ r. r.0.inbox_size ≡ size) }
        ensures refused { IfErr result (λ fault. fault ≡ Memory) }
    {
        let (book, parts) = opening.parts::<K>()?;
        let count = parts.len();
        let cells = locks(alloc, parts)?;
        let inboxes = inboxes(alloc, count, size)?;
        let (gauge, seats) = Gauge::new(alloc, count as u8, more)?;
        let host = HostOf {
            alloc,
            cells,
            inboxes,
            inbox_size: size,
            gauge,
            event_count: EventCount::new(),
            closed: AtomicLatch::new(),
            book: Mutex::new(book),
        };
        Ok((host, seats))
    }
}

/// Puts each cell into a lock.
///
/// Errors: `Memory` if an allocation fails.
fn locks<C: Drop, A: Allocator + Copy + Drop>(
    alloc: A,
    parts: Vec<C, A>,
) -> Result<Vec<Mutex<C>, A>, Fault>
    ensures count { IfOk result (λ v. vec_len v ≡ vec_len parts) }
    ensures refused { IfErr result (λ fault. fault ≡ Memory) }
{
    let mut cells = Vec::new(alloc);
    for cell in parts {
        cells.push(Mutex::new(cell))?;
    }
    Ok(cells)
}

/// Creates `count` inboxes of `size` items.
///
/// Errors: `Memory` if an allocation fails.
fn inboxes<A: Allocator + Copy + Drop>(
    alloc: A,
    count: usize,
    size: usize,
) -> Result<Vec<Inbox<A>, A>, Fault>
    requires { 0 < size }
    ensures count { IfOk result (λ v. vec_len v ≡ count) }
    ensures sizes { IfOk result (λ v. All (HasRoomFor size) v.items) }
    ensures refused { IfErr result (λ fault. fault ≡ Memory) }
{
    let mut inboxes = Vec::new(alloc);
    for _ in 0..count {
        inboxes.push(Inbox::new(alloc, size)?)?;
    }
    Ok(inboxes)
}
