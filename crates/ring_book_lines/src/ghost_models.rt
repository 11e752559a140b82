//! Frames and steps as contracts see them.

ghost use Rattle.std.specs.Prelude.{◌≡◌};
ghost use Rattle.ring_book_lines.specs.StoredSteps.{placeholder_frame, placeholder_step};

use crate::step::Step;
use ring_base::{Ghost, ghost_of, ghost_step};
use ring_wire::Frame;
use std::alloc::{Allocator, Global};
use std::marker::{Model, PhantomData};

/// A frame as contracts see it, beside its bytes.
///
/// No value of this type exists at run time.
pub struct FrameModel<A: Allocator + Copy = Global> {
    allocator: PhantomData<A>,
}

impl<A: Allocator + Copy> Model for FrameModel<A> {
    ghost use Rattle.ring_wire.specs.declared.frame.Frame.{Frame};
    ghost use Rattle.ring_book_lines.specs.StoredSteps.{placeholder_frame};

    ghost Value = { Frame A };

    ghost view = { λ _. placeholder_frame };
}

/// A step as contracts see it, with its whole input.
///
/// No value of this type exists at run time.
pub struct StepModel<A: Allocator + Copy = Global> {
    allocator: PhantomData<A>,
}

impl<A: Allocator + Copy> Model for StepModel<A> {
    ghost use Rattle.ring_book_lines.specs.StoredSteps.{placeholder_step};
    ghost use Rattle.ring_book_lines.specs.Steps.{StepView};

    ghost Value = { StepView A };

    ghost view = { λ _. placeholder_step };
}

/// Returns a placeholder for a ghost frame.
fn any_frame_model<A: Allocator + Copy>() -> Ghost<FrameModel<A>>
    ensures { result.value ≡ placeholder_frame }
{
    ghost_of(&())
}

/// Returns a placeholder for a ghost step.
fn any_step_model<A: Allocator + Copy>() -> Ghost<StepModel<A>>
    ensures { result.value ≡ placeholder_step }
{
    ghost_of(&())
}

/// Returns the frame as a ghost value, which has no effect at run time.
pub(crate) fn frame_model<A: Allocator + Copy>(frame: &Frame<A>) -> Ghost<FrameModel<A>>
    ensures { result.value ≡ frame.now }
{
    ghost_step(&any_frame_model(), &frame)
}

/// Returns the step as a ghost value, which has no effect at run time.
pub(crate) fn step_model<A: Allocator + Copy + Drop>(step: &Step<A>) -> Ghost<StepModel<A>>
    ensures { result.value ≡ step.now }
{
    ghost_step(&any_step_model(), step)
}
