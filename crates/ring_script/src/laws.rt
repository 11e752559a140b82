//! Laws of cuts.
//!
//! Formats: Scripts

ghost use Rattle.std.specs.Prelude.{◌≡◌, ◌-◌, ◌≤◌, ◌↔◌, ℕ, List, Contains, Some, slice_index, true};
ghost use Rattle.ring_base.specs.Group.{Group};
ghost use Rattle.ring_base.specs.Processors.{IsProc, IsMember, has};
ghost use Rattle.ring_script.specs.Cuts.{AreConnected, Names, cut_at, is_cut, table_of};

/// States which nodes a cut connects, for every group of nodes and every cut of it.
///
/// Two nodes are connected, so that each hears the other, exactly if one group of the cut has both. Each node is in one
/// group of the cut and in no other. A cut that is parsed from words connects two nodes exactly if one word has the
/// numbers of both. Has no effect at run time.
///
/// Formats: Scripts; Pump
pub fn cut_law()
    ensures union_of_groups { (nodes : Group) (groups : List ℕ) (a b : ℕ) → is_cut nodes groups ≡ true → IsProc a → IsProc b
        → (has (slice_index (table_of groups) (a - 1)) b ≡ true) ↔ AreConnected groups a b }
    ensures everyone { (nodes : Group) (groups : List ℕ) (a : ℕ) → is_cut nodes groups ≡ true → 1 ≤ a → a ≤ nodes.count → AreConnected groups a a }
    ensures once { (nodes : Group) (groups : List ℕ) (a one other : ℕ) → is_cut nodes groups ≡ true
        → Contains groups one → Contains groups other → IsMember one a → IsMember other a → one ≡ other }
    ensures told { (nodes : Group) (words rest : List (List ℕ)) (cut : List ℕ) (a b : ℕ) → cut_at nodes words ≡ Some
        (cut, rest) → IsProc a → IsProc b → (has (slice_index cut (a - 1)) b ≡ true) ↔ ((word : List ℕ)
        × Contains words word × Names nodes word a × Names nodes word b) }
{}
