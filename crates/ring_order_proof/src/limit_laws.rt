//! Laws that a node's frames and calls are within their limits, for code of users that drives a node.
//!
//! Rules: Limits 1

ghost use Rattle.std.specs.Prelude.{ℕ, ◌≤◌};
ghost use Rattle.std.specs.List.{AllByRecursion};
ghost use Rattle.ring_base.specs.Group.{Group};
ghost use Rattle.ring_payload.specs.Calls.{CallFits};
ghost use Rattle.ring_payload.specs.declared.call.Call.{Call};
ghost use Rattle.ring_node_spec.specs.NodeLimits.{InputFits};
ghost use Rattle.ring_node_spec.specs.Nodes.{Node, node_opening, node_stopped, node_known_log};
ghost use Rattle.ring_node_spec.specs.Stepping.{node_step, node_after_submit};
ghost use Rattle.ring_node_spec.specs.declared.input.Input.{Input};
ghost use Rattle.ring_order_proof.specs.NodeFits.{NodeFits, SendsFit};
ghost use Rattle.ring_object.specs.Bytes.{AreBytes};
ghost use Rattle.ring_session.specs.Snapshots.{KeepsLimits};

use ring_object::Object;
use ring_payload::Call as OneCall;
use std::alloc::Allocator;

/// States that a node stays within the limits of frames, and that each frame that it sends has an encoding.
///
/// It is within them at its opening, and remains so after each step with a valid input, each submit of a valid call,
/// and a stop. So a node may receive each frame that another sends. The calls at the places that it hasn't dropped are
/// within their limits too.
///
/// The limits are those of operations, Parts, Packs, pieces of snapshots and requests, numbers up to 2^62, and
/// processors up to N.
///
/// Rules: Limits 1
pub fn node_fits_law<O: Object>()
    ensures opening { (group : Group) (me : ℕ) → 1 ≤ me → me ≤ group.count → group.count ≤ 16 → NodeFits {A = O.Alloc} (node_opening group me) }
    ensures step { (n : Node O.Alloc) (input : Input O.Alloc) → NodeFits n → InputFits input → NodeFits (node_step O.sequential n input).node }
    ensures sends { (n : Node O.Alloc) (input : Input O.Alloc) → NodeFits n → InputFits input → SendsFit (node_step O.sequential n input).sends }
    ensures stopped { (n : Node O.Alloc) → NodeFits n → NodeFits (node_stopped n) }
    ensures submit { (n : Node O.Alloc) (c : Call O.Alloc) → NodeFits n → CallFits c → NodeFits (node_after_submit n c) }
    ensures log { (n : Node O.Alloc) → NodeFits n → AllByRecursion CallFits (node_known_log n).calls }
{}

/// States that a call that is within the limits of frames can be encoded in a snapshot: its operation consists of
/// bytes.
///
/// Rules: Limits 1; Sessions 12
pub fn call_fits_snapshot_law<A: Allocator + Copy>(call: &OneCall<A>)
    ensures { CallFits call.now → KeepsLimits call.now }
{
    // A law without effect at run time. The proof uses it to show that the operation's bytes are below 256.
    operation_bytes_law(call.op.as_slice());
}

/// States that bytes in code are numbers below 256.
fn operation_bytes_law(bytes: &[u8])
    ensures { AreBytes bytes.now }
{}
