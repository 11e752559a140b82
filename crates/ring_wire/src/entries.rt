//! The entries of a commit token: each member's report of its old ring.
//!
//! Rules: The commit token 2
//! Formats: The commit entry

ghost use Rattle.std.specs.Prelude.{◌≡◌, ℕ, ◌+◌, ◌^◌, ◌<◌, ◌≤◌, List, [], ◌∷◌, ◌++◌, length, ◌==◌, ◌*◌, true};
ghost use Rattle.std.specs.List.{list_all};
ghost use Rattle.ring_payload.specs.Codecs.{Appends, IsReadResult, IsReadResultBy, repeated_at};
ghost use Rattle.ring_payload.specs.Base.{window_size};

use crate::checked_value::checked_value;
use arrayvec::ArrayVec;
use bytes::BytesMut;
use ring_payload::{
    Decode, Encode, Fault, MAX, PROCESSORS, Proc, Reader, RingId, WINDOW_SIZE, decode_list_into,
};
use std::alloc::{AllocError, Allocator};
use std::marker::Model;

/// `CommitEntry`: a member's entry in a commit token: its report of its old ring.
///
/// `mark` <= `front` <= `MAX`, and `front` is at most 256 above `mark`. Bit 0 is clear, and so is the bit of each
/// number that is more than 256 above `mark`. If the old ring has number 0, front, mark and all bits are 0.
///
/// Rules: The commit token 2
/// Formats: The commit entry
#[derive(Clone, Copy, Debug, PartialEq, Eq)]
pub struct CommitEntry {
    /// The member's last installed ring, its old ring, whose number is below that of the proposed ring.
    pub old: RingId,
    /// The member's front in the old ring: the greatest number up to which it holds all messages.
    pub front: u64,
    /// The member's safe mark in the old ring: the number up to which it knows that all members hold the messages.
    pub mark: u64,
    /// Which of the 256 numbers after the front the member holds.
    ///
    /// Bit j, 0 to 255, means the number `front` + 1 + j. It is bit j mod 8, counted from the least significant, of
    /// byte j div 8.
    pub held: [u8; 32],
}

/// The entry of processor 1 at its opening, as a value to start from.
impl Default for CommitEntry {
    fn default() -> CommitEntry {
        CommitEntry {
            old: RingId {
                seq: 0,
                rep: Proc::new(1),
            },
            front: 0,
            mark: 0,
            held: [0; 32],
        }
    }
}

impl CommitEntry {
    ghost use Rattle.ring_wire.specs.Entries.{bit_of, is_invalid_bit as is_wrong_bit, held_test, nothing_test, entry_test};

    /// Returns whether bit `j` is set: whether the member holds the number `front` + 1 + `j`.
    ///
    /// `j` counts from 0 and must be below 256.
    ///
    /// Formats: The commit entry
    pub fn is_held_bit(&self, j: usize) -> bool
        requires { j < window_size }
        ensures { result ≡ bit_of self.now.held j }
    {
        (self.held[j / 8] >> (j % 8)) & 1 == 1
    }

    /// Returns whether bit `j` is set although it must be clear: it is the first, or its number is above `mark` + 256.
    fn is_invalid_bit(&self, j: usize) -> bool
        requires index { j < window_size }
        requires front { self.now.front < 2 ^ 63 }
        requires mark { self.now.mark < 2 ^ 63 }
        ensures { result ≡ is_wrong_bit self.now.front self.now.mark self.now.held j }
    {
        self.is_held_bit(j) && (j == 0 || self.front + 1 + j as u64 > self.mark + WINDOW_SIZE)
    }

    /// Returns whether byte `byte` has no bit set that must be clear.
    ///
    /// The bytes before it must be valid in the same sense.
    fn is_byte_valid(&self, byte: usize) -> bool
        requires index { byte < 32 }
        requires front { self.now.front < 2 ^ 63 }
        requires mark { self.now.mark < 2 ^ 63 }
        requires before { held_test self.now.front self.now.mark self.now.held (8 * byte) ≡ true }
        ensures { result ≡ held_test self.now.front self.now.mark self.now.held (8 * byte + 8) }
    {
        if self.held[byte] == 0 {
            return true;
        }
        for bit in 0..8 {
            if self.is_invalid_bit(8 * byte + bit) {
                return false;
            }
        }
        true
    }

    /// Returns whether no bit is set that must be clear.
    fn is_held_valid(&self) -> bool
        requires front { self.now.front < 2 ^ 63 }
        requires mark { self.now.mark < 2 ^ 63 }
        ensures { result ≡ held_test self.now.front self.now.mark self.now.held window_size }
    {
        for byte in 0..32 {
            if !self.is_byte_valid(byte) {
                return false;
            }
        }
        true
    }

    /// Returns whether front, mark and all bits are 0.
    fn is_opening_report(&self) -> bool
        ensures { result ≡ nothing_test self.now }
    {
        self.front == 0 && self.mark == 0 && are_zero_bytes(&self.held)
    }

    /// Returns whether the fields are within the limits of an entry, except for those that its commit token sets.
    fn is_valid_entry(&self) -> bool
        ensures { result ≡ entry_test self.now }
    {
        self.mark <= self.front
            && self.front <= MAX
            && self.front <= self.mark + WINDOW_SIZE
            && self.is_held_valid()
            && (self.old.seq != 0 || self.is_opening_report())
    }
}

impl Encode for CommitEntry {
    ghost use Rattle.ring_wire.specs.Entries.{entry_encoding, EntryFits, entry_at, entry_format};

    ghost encoding = { entry_encoding };

    ghost max_encoded_len = { 57 };

    ghost is_within_limits = { EntryFits };

    ghost decoding_at_front = { entry_at };

    ghost decoding_is_exact = { entry_format };

    fn encoded_len(&self) -> usize {
        57
    }

    fn write<B: Allocator + Copy>(&self, out: &mut BytesMut<B>) {
        self.old.write(out);
        self.front.write(out);
        self.mark.write(out);
        self.held.write(out);
    }
}

impl<A: Allocator + Copy> Decode<A> for CommitEntry {
    #[tactic(auto, unfolding(crate::specs::Entries::entry_at))]
    fn read(alloc: A, from: &mut Reader<'_>) -> Result<CommitEntry, Fault> {
        let entry = CommitEntry {
            old: Decode::read(alloc, from)?,
            front: Decode::read(alloc, from)?,
            mark: Decode::read(alloc, from)?,
            held: Decode::read(alloc, from)?,
        };
        checked_value(entry.is_valid_entry(), entry)
    }
}

/// Returns whether all bytes are 0.
fn are_zero_bytes(bytes: &[u8]) -> bool
    ensures { result ≡ list_all (λ b. b == 0) bytes.now }
{
    bytes.iter().all(|byte| *byte == 0)
}

/// A list of at most 16 entries of a commit token, in ascending order of members, stored inline.
///
/// Contracts see the list.
///
/// Rules: The commit token 1
#[derive(Drop)]
pub struct Entries {
    entries: ArrayVec<CommitEntry, PROCESSORS>,
}

impl Model for Entries {
    ghost use Rattle.std.specs.Prelude.{List};
    ghost use Rattle.ring_wire.specs.declared.entries.CommitEntry.{CommitEntry as OneEntry};

    ghost Value = { List OneEntry };

    ghost view = { λ e. e.entries.items };
}

impl Entries {
    /// Returns an empty list.
    ///
    /// Does not allocate.
    pub fn new() -> Entries
        ensures { result ≡ [] }
    {
        Entries {
            entries: ArrayVec::new(),
        }
    }

    /// Returns the entries, at most 16, the smallest member's first.
    ///
    /// Rules: The commit token 1
    pub fn as_slice(&self) -> &[CommitEntry]
        ensures value { result.now ≡ self.now }
        ensures few { length result.now ≤ 16 }
    {
        self.entries.as_slice()
    }

    /// Appends `entry`.
    ///
    /// The list must have fewer than 16 entries. Does not allocate.
    ///
    /// Rules: The commit token 5
    pub fn push(&mut self, entry: CommitEntry)
        requires { length self.old < 16 }
        ensures { self.new ≡ self.old ++ entry ∷ [] }
    {
        self.entries.push(entry);
    }

    /// Returns a copy of the list.
    ///
    /// Unlike `clone` it returns no `Result`. Does not allocate.
    pub fn copy_of_entries(&self) -> Entries
        ensures { result ≡ self.now }
    {
        let mut entries = ArrayVec::new();
        entries
            .try_extend_from_slice(self.entries.as_slice())
            .unwrap();
        Entries { entries }
    }
}

impl Clone for Entries {
    ghost is_clone = { λ entries copy. copy ≡ entries };

    ghost is_infallible = { λ _. Unit {0} };

    fn clone(&self) -> Result<Entries, AllocError> {
        Ok(self.copy_of_entries())
    }
}

impl Entries {
    ghost use Rattle.ring_wire.specs.Entries.{entry_at};

    /// Decodes the `count` entries at the front of `from` into this list, and moves `from` past them.
    ///
    /// The list must be empty, and `count` at most 16.
    ///
    /// Errors: `BadFrame`, only if `from` doesn't begin with the encodings of `count` entries. The content of the list,
    /// and what is left to read, are then unspecified.
    ///
    /// Formats: The commit entry
    pub(crate) fn decode_entries<A: Allocator + Copy>(
        &mut self,
        alloc: A,
        count: usize,
        from: &mut Reader<'_>,
    ) -> Result<(), Fault>
        requires few { count ≤ 16 }
        requires empty { self.old ≡ [] }
        ensures { IsReadResultBy (λ _. self.new) result from.new (repeated_at count entry_at from.old) }
    {
        decode_list_into(alloc, count, from, &mut self.entries)
    }
}
