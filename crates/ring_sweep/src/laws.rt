//! Laws of sweeps.
//!
//! Each clause holds for all values that it names.
//!
//! Formats: The command line

ghost use Rattle.std.specs.Prelude.{◌≡◌, ℕ, ◌+◌, ◌*◌, ◌<◌, ◌≤◌, true, List, Some, None};
ghost use Rattle.ring_base.specs.Group.{Group};
ghost use Rattle.ring_script.specs.declared.scripts.NumberedLine.{NumberedLine};
ghost use Rattle.ring_sweep.specs.declared.injection.Injection.{Injection};
ghost use Rattle.ring_sweep.specs.Variants.{injection_at, AreTried, IsTried, IsFirstIllegal};

use ring_object::Object;

/// States that a sweep leaves out no injection, for every number of nodes and of events.
///
/// For N nodes and M events, each stop and each cut of a node 1 to N, before one of the events or at the end, is the
/// injection of one of the 2 * (M + 1) * N variants. Has no effect at run time.
///
/// Formats: The command line
pub fn variants_law()
    ensures { (count events : ℕ) (u : Injection) → 1 ≤ u.node → u.node ≤ count → u.before ≤ events
        → (place : ℕ) × (place < 2 * (events + 1) * count) × (injection_at count place ≡ u) }
{}

/// States what a sweep over the first `n` variants finds, for every object, group of nodes and lines of a script.
///
/// If it reports an injection, the variant with it isn't legal and each earlier variant is legal. If it reports none,
/// all `n` are legal. Has no effect at run time.
///
/// Rules: Sessions 10
/// Formats: The command line
pub fn first_law<O: Object>()
    ensures told { (group : Group) (lines : List (NumberedLine O.Alloc)) (n : ℕ) (u : Injection) → AreTried O.sequential group lines n (Some u)
        → IsFirstIllegal O.sequential group lines n u }
    ensures none { (group : Group) (lines : List (NumberedLine O.Alloc)) (n k : ℕ) → AreTried O.sequential group lines n None → k < n
        → IsTried O.sequential group lines (injection_at group.count k) true }
{}
