//! What a node's timers need to know of a step, derived from its input and its frames.
//!
//! Rules: A node with a clock 5; Nodes that records drive 3

ghost use Rattle.std.specs.Prelude.{◌≡◌};
ghost use Rattle.std.specs.List.{list_any};
ghost use Rattle.ring_clock.specs.StepOutcomes.{is_token_or_commit_token, has_sent_frame, is_join, timeout_in, outcome_from};

use ring_base::Kind;
use ring_core_spec::OutgoingFrame;
use ring_node_spec::Input;
use ring_timers::StepOutcome;
use ring_wire::Frame;
use std::alloc::Allocator;

/// Returns the kind of the timeout if the input is one, otherwise `None`.
///
/// Rules: A node with a clock 5
pub fn timeout_in<A: Allocator + Copy>(input: &Input<A>) -> Option<Kind>
    ensures { result ≡ timeout_in input.now }
{
    match input {
        Input::Timeout(kind) => Some(*kind),
        Input::Frame(_) | Input::Noise | Input::Stop => None,
    }
}

/// Returns whether the input is a token or a commit token.
///
/// Rules: A node with a clock 5
pub fn is_token_or_commit_token<A: Allocator + Copy>(input: &Input<A>) -> bool
    ensures { result ≡ is_token_or_commit_token input.now }
{
    match input {
        Input::Frame(Frame::Token(_)) | Input::Frame(Frame::Commit(_)) => true,
        Input::Frame(_) | Input::Noise | Input::Timeout(_) | Input::Stop => false,
    }
}

/// Returns whether a step sent at least one frame.
///
/// For a step on a token or a commit token, this is whether the node took it.
///
/// Rules: Nodes that records drive 3
pub fn has_sent_frame<A: Allocator + Copy>(sends: &[OutgoingFrame<A>]) -> bool
    ensures { result ≡ has_sent_frame sends.now }
{
    !sends.is_empty()
}

/// Returns what the timers need to know of a step that sent these frames.
///
/// That is its timeout, whether it took a token or a commit token, and whether it sent a join. `timeout` and `is_token`
/// must be those of its input, as [`timeout_in`] and [`is_token_or_commit_token()`] return them; this isn't checked.
///
/// Rules: A node with a clock 5
pub fn step_outcome<A: Allocator + Copy>(
    timeout: Option<Kind>,
    is_token: bool,
    sends: &[OutgoingFrame<A>],
) -> StepOutcome
    ensures { result ≡ outcome_from timeout is_token sends.now }
{
    StepOutcome {
        timeout,
        took_token: is_token && has_sent_frame(sends),
        sent_join: has_sent_join(sends),
    }
}

/// Returns whether a join is among the frames.
fn has_sent_join<A: Allocator + Copy>(sends: &[OutgoingFrame<A>]) -> bool
    ensures { result ≡ list_any is_join sends.now }
{
    for sent in sends {
        if is_join(sent) {
            return true;
        }
    }
    false
}

/// Returns whether the frame is a join.
fn is_join<A: Allocator + Copy>(sent: &OutgoingFrame<A>) -> bool
    ensures { result ≡ is_join sent.now }
{
    match &sent.frame {
        Frame::Join(_) => true,
        Frame::Message(_) | Frame::Token(_) | Frame::Commit(_) => false,
    }
}
