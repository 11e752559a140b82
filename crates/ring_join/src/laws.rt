//! The law of consensus.
//!
//! Rules: Gather 9

ghost use Rattle.std.specs.Prelude.{◌≡◌, ◌↔◌, ◌≤◌, ℕ, true};
ghost use Rattle.ring_join.specs.Gathering.{Gathering, has_consensus, HasConsensus, AllHaveOwnSets, AllAreProcs};

/// States that the test for consensus succeeds exactly if each processor that isn't given up agrees.
///
/// A processor agrees if it is the node itself or sent a counted join. The law holds for every node in Gather whose
/// counted joins have exactly its sets.
///
/// Rules: Gather 9
pub fn consensus_test_law()
    ensures { (me : ℕ) (g : Gathering) → 1 ≤ me → AllAreProcs g → AllHaveOwnSets g → (has_consensus me g ≡ true) ↔ HasConsensus me g }
{}
