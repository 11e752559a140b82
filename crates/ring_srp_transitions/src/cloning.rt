//! Copies of a running ring core.

ghost use Rattle.std.specs.Prelude.{◌≡◌, None, Ok, IfOk, MatchOption};
ghost use Rattle.std.specs.Option.{IsSomeAnd};
ghost use Rattle.ring_srp_state.specs.Copies.{IsCopied};

use crate::running_core::RunningCore;
use ring_base::pair_result;
use ring_core_spec::OutgoingFrame;
use ring_payload::Payload;
use ring_srp_state::{RecoveryState, WindowAndVisits};
use std::alloc::{AllocError, Allocator};
use std::collections::VecDeque;

impl<A: Allocator + Copy> Clone for RunningCore<A> {
    ghost is_clone = { λ running_core copy. copy ≡ running_core };

    fn clone(&self) -> Result<RunningCore<A>, AllocError> {
        let held = self.held.clone()?;
        let history = self.history.clone()?;
        let gather = self.gather.clone()?;
        let frames = copied_frames(&self.queue, &self.last_sent)?;
        let (frames, parts) = pair_result(
            frames,
            copied_parts(&self.installed_part, &self.recovery),
        )?;
        Ok(RunningCore {
            alloc: self.alloc,
            me: self.me,
            fixed: self.fixed,
            state: self.state,
            newest_ring: self.newest_ring,
            installed: self.installed,
            gather,
            last_sent: frames.1,
            queue: frames.0,
            installed_part: parts.0,
            recovery: parts.1,
            held,
            history,
        })
    }
}

/// Returns copies of the queue and of the kept token with its receivers.
fn copied_frames<A: Allocator + Copy>(
    queue: &VecDeque<Payload<A>, A>,
    last_sent: &Option<OutgoingFrame<A>>,
) -> Result<(VecDeque<Payload<A>, A>, Option<OutgoingFrame<A>>), AllocError>
    ensures queue { IfOk result (λ copy. copy.0.items ≡ queue.now.items) }
    ensures last_sent { IfOk result (λ copy. copy.1 ≡ last_sent.now) }
{
    let queue = copied_queue(queue)?;
    pair_result(queue, copied_last_sent(last_sent))
}

/// Returns copies of what is kept of the installed ring, and of the state of Recovery.
fn copied_parts<A: Allocator + Copy>(
    kept: &WindowAndVisits<A>,
    recovery: &Option<RecoveryState<A>>,
) -> Result<(WindowAndVisits<A>, Option<RecoveryState<A>>), AllocError>
    ensures kept { IfOk result (λ copy. copy.0 ≡ kept.now) }
    ensures recovery { IfOk result (λ copy. MatchOption recovery.now (copy.1 ≡ None) (λ kept. IsSomeAnd copy.1 (IsCopied kept))) }
{
    let kept = kept.clone()?;
    pair_result(kept, copied_recovery(recovery))
}

/// Returns a copy of the kept token with its receivers, if there is one.
fn copied_last_sent<A: Allocator + Copy>(
    last_sent: &Option<OutgoingFrame<A>>,
) -> Result<Option<OutgoingFrame<A>>, AllocError>
    ensures { IfOk result (λ copy. copy ≡ last_sent.now) }
{
    last_sent.clone()
}

/// Returns a copy of the queue.
fn copied_queue<A: Allocator + Copy>(
    queue: &VecDeque<Payload<A>, A>,
) -> Result<VecDeque<Payload<A>, A>, AllocError>
    ensures { IfOk result (λ copy. copy.items ≡ queue.now.items) }
{
    queue.clone()
}

/// Returns a copy of the state of Recovery, if there is one.
fn copied_recovery<A: Allocator + Copy>(
    recovery: &Option<RecoveryState<A>>,
) -> Result<Option<RecoveryState<A>>, AllocError>
    ensures { IfOk result (λ copy. MatchOption recovery.now (copy ≡ None) (λ kept. IsSomeAnd copy (IsCopied kept))) }
{
    recovery.clone()
}
