//! An example of a wrong node, whose snapshot isn't of the places that it dropped.
//!
//! Rules: The replicated log 20

ghost use Rattle.std.specs.Prelude.{◌≡◌, List, [], ◌∷◌};
ghost use Rattle.ring_session.specs.Snapshots.{table_snapshot};
ghost use Rattle.ring_session.specs.Table.{opening as table_opening};
ghost use Rattle.ring_node_spec.specs.Nodes.{node_snapshot, node_trimmed};
ghost use Rattle.ring_order_proof.specs.Linear.{FollowsOrder};
ghost use Rattle.ring_order_proof.specs.WrongSnapshots.{first_call, dropped_one};

use ring_object::Object;

/// States an example of a wrong node: it has dropped a call's place, but its snapshot is that of the opening.
///
/// That snapshot is of an empty prefix of the order, and lacks the dropped call. So the node doesn't follow the order
/// (`FollowsOrder`).
///
/// Rules: The replicated log 20
pub fn a_dropped_call_is_forgotten<O: Object>()
    ensures dropped { node_trimmed (dropped_one {A = O.Alloc}) ≡ 1 }
    ensures snapshot { node_snapshot O.sequential (dropped_one {A = O.Alloc})
        ≡ table_snapshot O.sequential.snapshot_of (table_opening O.sequential.initial) }
    ensures refused { FollowsOrder O.sequential (dropped_one {A = O.Alloc}) (first_call ∷ []) [] → ⊥ }
{}
