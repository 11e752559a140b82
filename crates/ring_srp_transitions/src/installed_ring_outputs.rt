//! The outputs of a step for the ring that was installed at the start of the step.
//!
//! Rules: Outputs 1, 3 and 4

ghost use Rattle.std.specs.Prelude.{◌≡◌, ◌++◌, ◌≤◌, false, IfErr, OnOk};
ghost use Rattle.ring_base.specs.declared.fault.Fault.TheVariants.{Memory};
ghost use Rattle.ring_core_spec.specs.Giving.{delivered_from};
ghost use Rattle.ring_core_spec.specs.Views.{front, mark};
ghost use Rattle.ring_token.specs.Histories.{last_aru};
ghost use Rattle.ring_token.specs.TokenVisits.{visits_in_ring};
ghost use Rattle.ring_core_spec.specs.State.{is_stopped};

use crate::running_core::RunningCore;
use ring_base::{Fault, RingId};
use ring_core_spec::Out;
use ring_srp_state::{give_agreed, give_safe};
use std::alloc::Allocator;

/// A node's progress in a ring at the start of a step. The step's `Agreed` and `Safe` report what has been added since.
///
/// Rules: Outputs 3 and 4
#[derive(Clone, Copy)]
pub struct RingProgress {
    /// The ring: the last installed one at the start of the step.
    pub ring: RingId,
    /// The front: the greatest number up to which the node holds every message of the ring, 0 if it lacks number 1.
    pub front: u64,
    /// The safe mark: the number up to which the node knows that all members hold the ring's messages.
    ///
    /// It is at most the front.
    pub mark: u64,
}

impl<A: Allocator + Copy> RunningCore<A> {
    /// Returns the node's present progress in its last installed ring. Call it at the start of a step.
    ///
    /// The safe mark, and the `aru` that the node forwarded last in that ring, are at most the front.
    ///
    /// Rules: Token and window 2 and 3
    pub fn ring_progress(&self) -> RingProgress
        ensures ring { result.ring ≡ self.now.installed.ring }
        ensures front { result.front ≡ front self.now self.now.installed.ring }
        ensures mark { result.mark ≡ mark self.now self.now.installed.ring }
        ensures safe { mark self.now self.now.installed.ring ≤ result.front }
        ensures led { last_aru (visits_in_ring self.now.installed.ring self.now.turns) ≤ result.front }
        ensures running { is_stopped self.now.state ≡ false }
    {
        let window = &self.installed_part.window;
        RingProgress {
            ring: self.installed.ring,
            front: window.front(),
            mark: window.mark(),
        }
    }

    /// Appends what a step has added to the installed ring since `before`.
    ///
    /// That is an `Agreed` for each user message that the front newly covers, and a `Safe` if the mark has risen; there
    /// may be none. `before` must be the progress in the last installed ring, and the present safe mark must be at most
    /// `before.front`, so that the window still has these messages.
    ///
    /// Errors: `Memory` if an allocation fails; the contents of `outs` are then unspecified.
    ///
    /// Rules: Outputs 1, 3 and 4
    pub fn give_ring_outputs(
        &self,
        before: RingProgress,
        outs: &mut Vec<Out<A>, A>,
    ) -> Result<(), Fault>
        requires ring { before.ring ≡ self.now.installed.ring }
        requires mark { mark self.now self.now.installed.ring ≤ before.front }
        ensures ok { OnOk result (outs.new.items ≡ outs.old.items ++ delivered_from self.now before.ring before.front before.mark) }
        ensures refused { IfErr result (λ fault. fault ≡ Memory) }
    {
        self.reserve_ring_outputs(before.front, before.mark, outs)?;
        let window = &self.installed_part.window;
        give_agreed(window, before.front, outs)?;
        give_safe(window.ring(), before.mark, window.mark(), outs)
    }

    /// Reserves capacity for the outputs past `front` and `mark`, and no more.
    ///
    /// These are the messages that the front newly covers, and the safe mark if it has risen: most often one output or
    /// none.
    fn reserve_ring_outputs(
        &self,
        front: u64,
        mark: u64,
        outs: &mut Vec<Out<A>, A>,
    ) -> Result<(), Fault>
        ensures kept { outs.new.items ≡ outs.old.items }
        ensures refused { IfErr result (λ fault. fault ≡ Memory) }
    {
        let window = &self.installed_part.window;
        let covered = window.front().saturating_sub(front) as usize;
        let marks = usize::from(mark < window.mark());
        outs.reserve_exact(covered.saturating_add(marks))?;
        Ok(())
    }
}
