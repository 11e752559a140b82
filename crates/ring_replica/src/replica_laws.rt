//! The law that a node is its core and its replica.

ghost use Rattle.std.specs.Prelude.{◌≡◌, ℕ, false, true};
ghost use Rattle.ring_base.specs.Group.{Group};
ghost use Rattle.ring_payload.specs.declared.call.Call.{Call as OneCall};
ghost use Rattle.ring_core_spec.specs.State.{StepResult};
ghost use Rattle.ring_replication.specs.NodeSpec.{Node, node_opening, node_committed, node_length, node_trimmed, node_reply, is_stopped, after_core};
ghost use Rattle.ring_replication.specs.NodeSpec.{submit_fault, node_after_submit};
ghost use Rattle.ring_replica.specs.Replicas.{replica_opening, replica_of, replica_committed, replica_length, replica_trimmed, replica_reply};
ghost use Rattle.ring_replica.specs.Replicas.{submit_refusal, replica_with_ticket, replica_step, running_of, node_of_core_and_replica, node_with_ticket};
ghost use Rattle.ring_replication.specs.Replications.{rises, HasSoundEpochs};

use ring_object::Object;

/// States that a node is its core and its replica, so that what holds of a node's step also holds of its replica's.
///
/// This holds for every node and every object: at the opening, after a submit, in the node's reports, and after a step
/// of its core if the replica's due payloads are then handed to the core. Two things are required of that step. It must
/// not lower a safe mark, and the node's epochs must be sound (`HasSoundEpochs`): no base lacked committed places, and
/// only committed places were dropped.
///
/// Rules: The replicated log 1, 13 and 18
pub fn replica_law<O: Object>()
    ensures opening { (group : Group) (me : ℕ) → replica_of (node_opening {A = O.Alloc} group me) ≡ replica_opening group me }
    ensures step { (n : Node O.Alloc) (s : StepResult O.Alloc) → HasSoundEpochs n.group n.epochs → rises n.epochs s.outs ≡ true →
        after_core O.sequential n s ≡ node_of_core_and_replica n s.core (replica_step O.sequential (running_of s.core) (replica_of n) s.outs) }
    ensures refused { (n : Node O.Alloc) → is_stopped n.core.state ≡ false → submit_fault n ≡ submit_refusal (replica_of n) }
    ensures given { (n : Node O.Alloc) (c : OneCall O.Alloc) → node_after_submit n c ≡ node_with_ticket n c (replica_with_ticket (running_of n.core) (replica_of n) c) }
    ensures length { (n : Node O.Alloc) → replica_length (replica_of n) ≡ node_length n }
    ensures trimmed { (n : Node O.Alloc) → replica_trimmed (replica_of n) ≡ node_trimmed n }
    ensures committed { (n : Node O.Alloc) → replica_committed (replica_of n) ≡ node_committed n }
    ensures reply { (n : Node O.Alloc) (ticket : ℕ) → replica_reply (replica_of n) ticket ≡ node_reply n ticket }
{}
