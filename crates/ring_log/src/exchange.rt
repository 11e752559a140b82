//! The exchange of a primary ring: which Heads, snapshot pieces and Parts it accepts, and when it is complete.
//!
//! Rules: The replicated log 3, 4 and 6

ghost use Rattle.std.specs.Prelude.{◌≡◌, ◌+◌, ◌^◌, ◌<◌, ◌==◌, nat_le, length, true, IfOk, IfErr, OnOk, OnErr};
ghost use Rattle.ring_base.specs.declared.fault.Fault.TheVariants.{Memory};
ghost use Rattle.ring_log.specs.Exchanges.{exchange_opening, wanted, heard, hear_head, hear_snap, has_wanted_snapshot, is_piece_of, is_next_piece, hear_part, is_next};
ghost use Rattle.ring_log.specs.Exchanges.{is_wanted, is_exchange_complete, base_at, handed_out, exchange_drained};

use crate::base::Base;
use crate::heads::wanted_from_heads;
use crate::received_head::ReceivedHead;
use crate::snapshot::Snapshot;
use crate::wanted::Wanted;
use ring_base::{Fault, Proc, ProcSet};
use ring_wire::{Call, CallList, Head, MAX_SNAPSHOT, Part, Payload, Snap};
use std::alloc::{AllocError, Allocator, Global};
use std::marker::Model;
use std::mem;

/// The state transfer with which a primary ring begins, as far as one member has received it.
///
/// It collects every member's Head, then the owner's snapshot in pieces, if one is wanted, and then the wanted places
/// of the owner's log. A snapshot is wanted if the owner has dropped places that some member hasn't committed.
/// Contracts see its whole state.
///
/// Rules: The replicated log 3 and 4
#[derive(Drop)]
pub struct Exchange<A: Allocator + Copy = Global> {
    alloc: A,
    missing_heads: ProcSet,
    heads: Vec<ReceivedHead, A>,
    received_bytes: u64,
    total: u32,
    places: u64,
    bytes: Vec<u8, A>,
    received_calls: Vec<Call<A>, A>,
}

impl<A: Allocator + Copy> Model for Exchange<A> {
    ghost use Rattle.ring_log.specs.Exchanges.{Exchange as ExchangeValue};

    ghost Value = { ExchangeValue A };

    ghost view = { λ e. record {
      missing_heads = e.missing_heads;
      heads = e.heads.items;
      received_bytes = e.received_bytes;
      total = e.total;
      places = e.places;
      bytes = e.bytes.items;
      received_calls = e.received_calls.items;
    } };
}

impl<A: Allocator + Copy> Clone for Exchange<A> {
    ghost is_clone = { λ exchange copy. copy ≡ exchange };

    fn clone(&self) -> Result<Exchange<A>, AllocError> {
        Ok(Exchange {
            alloc: self.alloc,
            missing_heads: self.missing_heads,
            heads: self.heads.clone()?,
            received_bytes: self.received_bytes,
            total: self.total,
            places: self.places,
            bytes: self.bytes.clone()?,
            received_calls: self.received_calls.clone()?,
        })
    }
}

impl<A: Allocator + Copy> Exchange<A> {
    /// Creates the exchange of a ring of `members`, with nothing received. Does not allocate.
    ///
    /// Rules: The replicated log 3
    pub fn new(alloc: A, members: ProcSet) -> Exchange<A>
        ensures { result ≡ exchange_opening members }
    {
        Exchange {
            alloc,
            missing_heads: members,
            heads: Vec::new(alloc),
            received_bytes: 0,
            total: 0,
            places: 0,
            bytes: Vec::new(alloc),
            received_calls: Vec::new(alloc),
        }
    }

    /// Returns the owner and the wanted part of its log, or `None` until every member's Head has arrived. Does not
    /// allocate.
    ///
    /// Rules: The replicated log 4, 5 and 19
    pub fn wanted(&self) -> Option<Wanted>
        ensures { result ≡ wanted self.now }
    {
        if self.missing_heads.bits() == 0 {
            wanted_from_heads(self.heads.as_slice())
        } else {
            None
        }
    }

    /// Applies a member's payload. Returns the base if this payload completes the exchange, otherwise `None`.
    ///
    /// Payloads must come in the order of the ring; this isn't checked. Accepted are a member's first Head; then, from
    /// the owner, each next piece of a wanted snapshot, and then each next Part of the wanted places. Every other
    /// payload is ignored, even if it would be wanted later, and so is one of a processor that isn't a member. The base
    /// is returned only once, and its bytes and calls leave the exchange.
    ///
    /// Errors: `Memory` if an allocation fails; the exchange is unchanged.
    ///
    /// Rules: The replicated log 3, 4, 6 and 19
    pub fn hear(&mut self, sender: Proc, payload: &Payload<A>) -> Result<Option<Base<A>>, Fault>
        ensures base { IfOk result (λ base. base ≡ base_at self.old sender payload.now) }
        ensures ok { OnOk result (self.new ≡ exchange_drained (heard self.old sender payload.now)) }
        ensures err { OnErr result (self.new ≡ self.old) }
        ensures refused { IfErr result (λ fault. fault ≡ Memory) }
    {
        let was_whole = self.is_exchange_complete();
        match payload {
            Payload::Head(head) => self.hear_head(sender, head)?,
            Payload::Snap(snap) => self.hear_snap(sender, snap)?,
            Payload::Part(part) => self.hear_part(sender, part)?,
            _ => {}
        }
        let base = self.take_base();
        if was_whole { Ok(None) } else { Ok(base) }
    }

    /// Returns whether every Head and all wanted bytes and places have arrived.
    fn is_exchange_complete(&self) -> bool
        ensures { result ≡ is_exchange_complete self.now }
    {
        match self.wanted() {
            Some(wanted) => {
                self.has_wanted_snapshot(&wanted)
                    && wanted.to.saturating_sub(wanted.from) <= self.places
            }
            None => false,
        }
    }

    /// Returns whether no snapshot is wanted, or all of its bytes have arrived.
    fn has_wanted_snapshot(&self, wanted: &Wanted) -> bool
        ensures { result ≡ has_wanted_snapshot wanted.now.snapshot self.now.received_bytes self.now.total }
    {
        match wanted.snapshot {
            Some(_) => self.total >= 1 && self.received_bytes == u64::from(self.total),
            None => true,
        }
    }

    fn hear_head(&mut self, sender: Proc, head: &Head) -> Result<(), Fault>
        ensures ok { OnOk result (self.new ≡ hear_head self.old sender head.now) }
        ensures err { OnErr result (self.new ≡ self.old) }
        ensures refused { IfErr result (λ fault. fault ≡ Memory) }
    {
        if self.missing_heads.contains(sender) {
            self.heads.push(ReceivedHead {
                sender,
                head: *head,
            })?;
            self.missing_heads = self
                .missing_heads
                .without_members(ProcSet::singleton(sender));
        }
        Ok(())
    }

    /// Adds a piece, if it is the next one. The first piece reserves capacity for the whole snapshot.
    ///
    /// Errors: `Memory` if an allocation fails; the exchange is unchanged.
    fn hear_snap(&mut self, sender: Proc, snap: &Snap<A>) -> Result<(), Fault>
        ensures ok { OnOk result (self.new ≡ hear_snap self.old sender snap.now) }
        ensures err { OnErr result (self.new ≡ self.old) }
        ensures refused { IfErr result (λ fault. fault ≡ Memory) }
    {
        if self.is_next_piece(sender, snap) {
            if self.total == 0 {
                let room = snap.total.min(MAX_SNAPSHOT);
                self.bytes.reserve_exact(room as usize)?;
            }
            let bytes = snap.bytes.as_slice();
            self.bytes.extend_from_slice(bytes)?;
            self.received_bytes += bytes.len() as u64;
            self.total = snap.total;
        }
        Ok(())
    }

    /// Returns whether a piece comes from the owner and is the next one of the wanted snapshot.
    fn is_next_piece(&self, sender: Proc, snap: &Snap<A>) -> bool
        ensures value { result ≡ is_next_piece (wanted self.now) self.now.received_bytes self.now.total sender snap.now }
        ensures room { result ≡ true → self.now.received_bytes < 2 ^ 32 }
    {
        match self.wanted() {
            Some(wanted) => sender == wanted.owner && self.is_piece_of(wanted.snapshot, snap),
            None => false,
        }
    }

    /// Returns whether a piece belongs to the snapshot of `places` places and continues the bytes received so far.
    ///
    /// It must begin where these end, and state the same total as the pieces before it.
    fn is_piece_of(&self, places: Option<u64>, snap: &Snap<A>) -> bool
        ensures value { result ≡ is_piece_of places self.now.received_bytes self.now.total snap.now }
        ensures room { result ≡ true → self.now.received_bytes < 2 ^ 32 }
    {
        match places {
            Some(at) => {
                snap.at == at
                    && u64::from(snap.offset) == self.received_bytes
                    && (self.total == 0 || snap.total == self.total)
                    && self.received_bytes < u64::from(snap.total)
            }
            None => false,
        }
    }

    fn hear_part(&mut self, sender: Proc, part: &Part<A>) -> Result<(), Fault>
        ensures ok { OnOk result (self.new ≡ hear_part self.old sender part.now) }
        ensures err { OnErr result (self.new ≡ self.old) }
        ensures refused { IfErr result (λ fault. fault ≡ Memory) }
    {
        if self.is_wanted_part(sender, part) {
            let calls = part.calls.as_slice();
            self.received_calls.extend_from_slice(calls)?;
            self.places += calls.len() as u64;
        }
        Ok(())
    }

    /// Returns whether a Part is the next wanted one, and no bytes of a wanted snapshot are missing.
    fn is_wanted_part(&self, sender: Proc, part: &Part<A>) -> bool
        ensures value { result ≡ is_wanted (wanted self.now) self.now.received_bytes self.now.total self.now.places sender part.now }
        ensures room { result ≡ true → self.now.places + length part.now.calls < 2 ^ 64 }
    {
        match self.wanted() {
            Some(wanted) => {
                self.has_wanted_snapshot(&wanted)
                    && is_next_part(&wanted, self.places, sender, part)
            }
            None => false,
        }
    }

    /// Takes the base out of the exchange if that is complete. Bytes and calls are moved, not copied.
    fn take_base(&mut self) -> Option<Base<A>>
        ensures base { result ≡ handed_out self.old }
        ensures state { self.new ≡ exchange_drained self.old }
    {
        if !self.is_exchange_complete() {
            return None;
        }
        let wanted = self.wanted()?;
        let bytes = mem::replace(&mut self.bytes, Vec::new(self.alloc));
        let calls = mem::replace(&mut self.received_calls, Vec::new(self.alloc));
        let snapshot = match wanted.snapshot {
            Some(_) => Some(Snapshot::from_vec(bytes)),
            None => None,
        };
        Some(Base {
            from: wanted.from,
            snapshot,
            calls: CallList::from_vec(calls),
        })
    }
}

/// Returns whether a Part comes from the owner, begins where the received places end, and ends within the wanted
/// places.
fn is_next_part<A: Allocator + Copy>(
    wanted: &Wanted,
    places: u64,
    sender: Proc,
    part: &Part<A>,
) -> bool
    ensures value { result ≡ is_next wanted.now places sender part.now }
    ensures room { result ≡ true → places + length part.now.calls < 2 ^ 64 }
{
    if sender != wanted.owner {
        return false;
    }
    let count = part.calls.as_slice().len() as u64;
    is_first_missing(wanted, places, part.first) && ends_within(wanted, part.first, count)
}

/// Returns whether `first` is the place after the first `places` wanted ones.
fn is_first_missing(wanted: &Wanted, places: u64, first: u64) -> bool
    ensures { result ≡ (first == wanted.now.from + places) }
{
    wanted.from <= first && first - wanted.from == places
}

/// Returns whether the `count` places from `first` on end within the wanted places.
fn ends_within(wanted: &Wanted, first: u64, count: u64) -> bool
    ensures value { result ≡ nat_le (first + count) wanted.now.to }
    ensures room { result ≡ true → first + count < 2 ^ 64 }
{
    first <= wanted.to && count <= wanted.to - first
}
