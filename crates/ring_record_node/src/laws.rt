//! The law that the reported outcome of a token agrees with the rules of the ring core.
//!
//! Rules: Nodes that records drive 3

ghost use Rattle.std.specs.Prelude.{◌≡◌, true, false};
ghost use Rattle.ring_wire.specs.declared.frame.Frame.{Frame};
ghost use Rattle.ring_core_spec.specs.Deciding.{Ignore, decide};
ghost use Rattle.ring_core_spec.specs.declared.input.Input.TheVariants.{Frame as CoreFrame};
ghost use Rattle.ring_node_spec.specs.Nodes.{Node, is_stopped};
ghost use Rattle.ring_node_spec.specs.Stepping.{node_step};
ghost use Rattle.ring_node_spec.specs.declared.input.Input.TheVariants.{Frame as FrameInput};
ghost use Rattle.ring_clock.specs.StepOutcomes.{has_sent_frame, is_token_or_commit_token};

use ring_object::Object;

/// States when a step on a token or a commit token sends something, for every object, every node and every such frame.
///
/// If the ring core ignores the frame, the step sends nothing. Otherwise it sends at least one frame, unless the node
/// has stopped after the step. So the reported outcome of a token is the core's. It has no effect at run time.
///
/// Rules: Nodes that records drive 3
pub fn token_law<O: Object>()
    ensures ignored { (n : Node O.Alloc) (frame : Frame O.Alloc) → is_token_or_commit_token (FrameInput frame) ≡ true → decide n.core (CoreFrame frame) ≡ Ignore
        → has_sent_frame (node_step O.sequential n (FrameInput frame)).sends ≡ false }
    ensures taken { (n : Node O.Alloc) (frame : Frame O.Alloc) → is_token_or_commit_token (FrameInput frame) ≡ true → ¬ (decide n.core (CoreFrame frame) ≡ Ignore)
        → is_stopped (node_step O.sequential n (FrameInput frame)).node.core.state ≡ false
        → has_sent_frame (node_step O.sequential n (FrameInput frame)).sends ≡ true }
{}
