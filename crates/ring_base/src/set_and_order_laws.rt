//! Laws of the definitions: each clause holds for all values that it names.
//!
//! Rules: Processors and sets 3 and 4; Rings and states 1; Limits 1

ghost use Rattle.std.specs.Prelude.{◌≡◌, ℕ, ◌^◌, ◌<◌, ◌≤◌, ◌↔◌, ◌⊎◌, Option, List, length, Contains, IsTrue, Some, None, slice_get};
ghost use Rattle.std.specs.List.Sorted.{IsStrictlyIncreasing};
ghost use Rattle.ring_base.specs.declared.limits.TheConstants.{MAX_FRAME_BYTES, MAX_PROCESSORS, PROCESSORS, MAX, WINDOW_SIZE, VISIT_LIMIT};
ghost use Rattle.ring_base.specs.declared.ring_id.RingId.{RingId};
ghost use Rattle.ring_base.specs.Prefixes.{IsListPrefix};
ghost use Rattle.ring_base.specs.Group.{Group, IsPrimary, is_primary, PrimariesMeet};
ghost use Rattle.ring_base.specs.Processors.{IsProc, IsMember, elements, size, at, position_of};
ghost use Rattle.ring_base.specs.Rings.{IsBelow, IsPrimaryBelow};

/// States the value of each constant in this crate's limits, one clause per constant.
///
/// Rules: Limits 1
pub fn limits_law()
    ensures processors { MAX_PROCESSORS ≡ 16 }
    ensures rows { PROCESSORS ≡ 16 }
    ensures numbers { MAX ≡ 2 ^ 62 }
    ensures window { WINDOW_SIZE ≡ 256 }
    ensures new_messages { VISIT_LIMIT ≡ 8 }
    ensures frame { MAX_FRAME_BYTES ≡ 8192 }
{}

/// States that, in every group, any two primary sets share a processor of the group.
///
/// A set is primary if its members belong to the group and have more than half of all votes. The test `is_primary` is
/// true exactly for primary sets.
///
/// Rules: Processors and sets 4
pub fn primary_law()
    ensures meet { PrimariesMeet }
    ensures tested { (group : Group) (set : ℕ) → IsTrue (is_primary group set) ↔ IsPrimary group set }
{}

/// States that, for every set of processors, the list of its elements has each member exactly once, in ascending order.
///
/// Each member is found at its position, counted from 0, and each position below the number of members belongs to one
/// member. A set that is a word of 16 bits has only members from 1 to 16.
///
/// Rules: Processors and sets 3
pub fn members_law()
    ensures ascending { (set : ℕ) → IsStrictlyIncreasing (elements set) }
    ensures members { (set i : ℕ) → Contains (elements set) i ↔ (IsProc i × IsMember set i) }
    ensures places { (set i : ℕ) → IsProc i → IsMember set i → at set (position_of set i) ≡ i }
    ensures positions { (set k : ℕ) → k < size set → position_of set (at set k) ≡ k }
    ensures processors { (set i : ℕ) → set < 2 ^ 16 → IsMember set i → IsProc i }
{}

/// States that rings are totally ordered: of two different rings exactly one is below the other.
///
/// The number decides; between equal numbers the representative does.
///
/// Rules: Rings and states 1
pub fn ring_order_law()
    ensures irreflexive { (a : RingId) → ¬ IsBelow a a }
    ensures transitive { (a b c : RingId) → IsBelow a b → IsBelow b c → IsBelow a c }
    ensures total { (a b : RingId) → IsBelow a b ⊎ ((a ≡ b) ⊎ IsBelow b a) }
    ensures numbers { (a b : RingId) → IsBelow a b ↔ ((a.seq < b.seq) ⊎ ((a.seq ≡ b.seq) × (a.rep < b.rep))) }
{}

/// States that last primaries, each a ring or none, are totally ordered.
///
/// Two rings are ordered as in [`ring_order_law`], and none is below every ring.
///
/// Rules: Rings and states 1
pub fn primary_order_law()
    ensures irreflexive { (a : Option RingId) → ¬ IsPrimaryBelow a a }
    ensures transitive { (a b c : Option RingId) → IsPrimaryBelow a b → IsPrimaryBelow b c → IsPrimaryBelow a c }
    ensures total { (a b : Option RingId) → IsPrimaryBelow a b ⊎ ((a ≡ b) ⊎ IsPrimaryBelow b a) }
    ensures rings { (a b : RingId) → IsPrimaryBelow (Some a) (Some b) ↔ IsBelow a b }
    ensures none { (a : RingId) → IsPrimaryBelow None (Some a) }
{}

/// States that the prefixes of a list are ordered by length: the shorter of two is a prefix of the longer.
///
/// A prefix has the elements of the list at the same indices. A prefix that is as long as the list is the list itself.
pub fn prefix_law<T>()
    ensures reflexive { (xs : List T) → IsListPrefix xs xs }
    ensures transitive { (xs ys zs : List T) → IsListPrefix xs ys → IsListPrefix ys zs → IsListPrefix xs zs }
    ensures comparable { (xs ys zs : List T) → IsListPrefix xs zs → IsListPrefix ys zs → length xs ≤ length ys → IsListPrefix xs ys }
    ensures lengths { (xs ys : List T) → IsListPrefix xs ys → length xs ≤ length ys }
    ensures whole { (xs ys : List T) → IsListPrefix xs ys → length ys ≤ length xs → xs ≡ ys }
    ensures places { (xs ys : List T) (k : ℕ) (x : T) → IsListPrefix xs ys → slice_get xs k ≡ Some x → slice_get ys k ≡ Some x }
{}
