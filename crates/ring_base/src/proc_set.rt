//! Sets of processors, as words of 16 bits.
//!
//! Rules: Processors and sets 3

ghost use Rattle.std.specs.Prelude.{◌≡◌, ◌≢◌, ℕ, ◌^◌, ◌<◌, ◌≤◌, ◌↔◌, ◌⊎◌, IsTrue, IsSome, IsNone, IfSome};
ghost use Rattle.ring_base.specs.Processors.{max_processors, IsProc, IsMember, IsSubset, has, within, nobody, only};
ghost use Rattle.ring_base.specs.Processors.{union, intersection, less, size, smallest, position_of, at, next};

use crate::limits::MAX_PROCESSORS;
use crate::processor::Proc;
use std::fmt::{self, Display};
use std::marker::Model;

/// `ProcSet`: a set of processors, as a word of 16 bits: processor i is the bit of value 2^(i - 1).
///
/// Contracts see the word.
///
/// Rules: Processors and sets 3
#[derive(Clone, Copy, Debug, Default, PartialEq, Eq)]
pub struct ProcSet {
    bits: u16,
}

impl Model for ProcSet {
    ghost Value = { ℕ };

    ghost view = { λ set. set.bits };

    ghost inverse = { λ word. record { bits = word } };
}

impl ProcSet {
    /// Returns the empty set, whose word is 0.
    ///
    /// Rules: Processors and sets 3
    pub fn new() -> ProcSet
        ensures { result ≡ nobody }
    {
        ProcSet { bits: 0 }
    }

    /// Returns the set that contains only `proc`.
    ///
    /// Rules: Processors and sets 3
    pub fn singleton(proc: Proc) -> ProcSet
        ensures members { (i : ℕ) → IsMember result i ↔ (i ≡ proc) }
        ensures value { result ≡ only proc }
    {
        ProcSet {
            bits: 1 << (proc.number() - 1),
        }
    }

    /// Returns the set that the word `bits` encodes: processor i is a member if the bit of value 2^(i - 1) is set.
    ///
    /// Every word of 16 bits is a set.
    ///
    /// Rules: Processors and sets 3
    pub fn from_bits(bits: u16) -> ProcSet
        ensures { result ≡ bits }
    {
        ProcSet { bits }
    }

    /// Returns the set as a word of 16 bits: the bit of value 2^(i - 1) is set if processor i is a member.
    ///
    /// Rules: Processors and sets 3
    pub fn bits(self) -> u16
        ensures value { result ≡ self }
        ensures in_range { result < 2 ^ 16 }
    {
        self.bits
    }

    /// Returns whether the set has no members.
    ///
    /// Rules: Processors and sets 3
    pub fn is_empty(self) -> bool
        ensures { IsTrue result ↔ (self ≡ nobody) }
    {
        self.bits == 0
    }

    /// Returns the number of members, 0 to 16.
    ///
    /// Rules: Processors and sets 3
    pub fn len(self) -> u32
        ensures value { result ≡ size self }
        ensures bound { result ≤ max_processors }
    {
        self.bits.count_ones()
    }

    /// Returns the member with the smallest number, or `None` if the set is empty.
    ///
    /// Rules: Processors and sets 3; Rings and states 2
    pub fn smallest(self) -> Option<Proc>
        ensures found { IfSome result (λ proc. proc ≡ smallest self) }
        ensures member { IfSome result (λ proc. IsProc proc × IsMember self proc) }
        ensures none { IsNone result ↔ (self ≡ nobody) }
    {
        if self.bits == 0 {
            return None;
        }
        Some(Proc::new(self.bits.trailing_zeros() as u8 + 1))
    }

    /// Returns the number of members below `proc`, 0 to 15.
    ///
    /// If `proc` is a member, this is its position among the members in ascending order, counted from 0.
    ///
    /// Rules: Processors and sets 3
    pub fn position_of(self, proc: Proc) -> u32
        ensures value { result ≡ position_of self proc }
        ensures inside { IsMember self proc → result < size self }
    {
        let below = (1 << (proc.number() - 1)) - 1;
        (self.bits & below).count_ones()
    }

    /// Returns the member at `position` in ascending order, counted from 0, or `None` past the last member.
    ///
    /// A position is past the last if it is at least the number of members.
    ///
    /// Rules: Processors and sets 3
    pub fn at(self, position: u32) -> Option<Proc>
        ensures found { IfSome result (λ proc. proc ≡ at self position) }
        ensures some { IsSome result ↔ (position < size self) }
    {
        self.iter().nth(position as usize)
    }

    /// Returns the member after `proc` in ascending order, and the smallest member after the greatest.
    ///
    /// In a set of one it is `proc` itself. `proc` must be a member.
    ///
    /// Rules: Rings and states 2
    pub fn next_cyclic(self, proc: Proc) -> Proc
        requires { IsMember self proc }
        ensures value { result ≡ next self proc }
        ensures member { IsMember self result }
    {
        let size = self.len();
        let following = self.position_of(proc) + 1;
        self.at(following % size).unwrap()
    }

    /// Returns whether `proc` is a member of the set.
    ///
    /// Rules: Processors and sets 3
    pub fn contains(self, proc: Proc) -> bool
        ensures member { IsTrue result ↔ IsMember self proc }
        ensures value { result ≡ has self proc }
    {
        (self.bits >> (proc.number() - 1)) & 1 == 1
    }

    /// Returns whether every member of this set is also a member of `other`.
    ///
    /// The empty set is a subset of every set, and every set of itself.
    ///
    /// Rules: Processors and sets 3
    pub fn is_subset(self, other: ProcSet) -> bool
        ensures members { IsTrue result ↔ IsSubset self other }
        ensures value { result ≡ within self other }
    {
        self.bits & other.bits == self.bits
    }

    /// Adds `proc` to the set, and returns whether it was missing before.
    ///
    /// If it was already a member, nothing changes.
    ///
    /// Rules: Processors and sets 3
    pub fn insert(&mut self, proc: Proc) -> bool
        ensures members { (i : ℕ) → IsMember self.new i ↔ (IsMember self.old i ⊎ (i ≡ proc)) }
        ensures value { self.new ≡ union self.old (only proc) }
        ensures added { IsTrue result ↔ ¬ IsMember self.old proc }
    {
        let is_new = !self.contains(proc);
        *self = self.union(ProcSet::singleton(proc));
        is_new
    }

    /// Returns the union: the members of either set.
    ///
    /// Rules: Processors and sets 3
    pub fn union(self, other: ProcSet) -> ProcSet
        ensures members { (i : ℕ) → IsMember result i ↔ (IsMember self i ⊎ IsMember other i) }
        ensures value { result ≡ union self other }
    {
        ProcSet {
            bits: self.bits | other.bits,
        }
    }

    /// Returns the intersection: the members of both sets.
    ///
    /// Rules: Processors and sets 3
    pub fn intersection(self, other: ProcSet) -> ProcSet
        ensures members { (i : ℕ) → IsMember result i ↔ (IsMember self i × IsMember other i) }
        ensures value { result ≡ intersection self other }
    {
        ProcSet {
            bits: self.bits & other.bits,
        }
    }

    /// Returns the difference: the members of this set that aren't members of `other`.
    ///
    /// Rules: Processors and sets 3
    pub fn without_members(self, other: ProcSet) -> ProcSet
        ensures members { (i : ℕ) → IsMember result i ↔ (IsMember self i × ¬ IsMember other i) }
        ensures value { result ≡ less self other }
    {
        ProcSet {
            bits: self.bits & !other.bits,
        }
    }
}

/// Prints the numbers of the members in ascending order, separated by commas, as in `1,2,3`.
///
/// The empty set prints as nothing.
impl Display for ProcSet {
    fn fmt<W: fmt::Write>(&self, f: &mut fmt::Formatter<W>) -> fmt::Result {
        let mut separator = "";
        for preceding_number in 0..MAX_PROCESSORS {
            let node = Proc::new(preceding_number + 1);
            if self.contains(node) {
                write!(f, "{separator}{node}")?;
                separator = ",";
            }
        }
        Ok(())
    }
}
