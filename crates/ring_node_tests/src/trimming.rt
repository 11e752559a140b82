//! A node that trims its log.
//! Rules: The replicated log 18 and 20
//! Formats: dropped places

use crate::driven::DrivenNode;
use refusing_alloc::RefusingHeap;
use ring_base::{Fault, State};
use ring_object::Object;
use ring_session::{Answer, Ticket};
use ring_things::{Counters, Outcome, outcome_reply_with};
use std::alloc::Global;
use std::test::Fail;

/// A node as observed: its state, its last installed ring's number, and four counts.
/// These are its committed length, its log's length, its trimmed length, and the number of calls that took effect.
type Shown = (State, u64, u64, u64, u64, u64);

/// The numbers of calls that a node's steps committed, answered and dropped, and the number of committed places that it keeps.
type Counts = ((usize, usize), usize, usize);

/// Returns a node as observed, and the counts of its steps.
fn shown<O: Object>(driven: &DrivenNode<O>) -> (Shown, Counts) {
    let node = &driven.node;
    let shown = (
        node.state(),
        node.ring().seq,
        node.committed_len(),
        node.log_len(),
        node.trimmed(),
        node.order_len(),
    );
    (
        shown,
        (driven.told(), driven.dropped, node.committed().len()),
    )
}

/// Submits 64 calls, with numbers from `first` on.
fn calls<O: Object>(driven: &mut DrivenNode<O>, first: u64) -> Result<(), Fault> {
    for more in 0..64u64 {
        driven.add(first.saturating_add(more))?;
    }
    Ok(())
}

/// Lets 64 calls be done, with numbers from `first` on.
fn round<O: Object>(driven: &mut DrivenNode<O>, first: u64) -> Result<(), Fault> {
    calls(driven, first)?;
    driven.turn()?;
    driven.turn()
}

/// Lets the node form its ring and do 192 calls. 64 more are then in its log, and one turn of the token commits them.
fn fill_almost_to_trim<O: Object>(driven: &mut DrivenNode<O>) -> Result<(), Fault> {
    for place in 0..5u8 {
        driven.step(place)?;
    }
    round(driven, 1)?;
    round(driven, 65)?;
    round(driven, 129)?;
    calls(driven, 193)?;
    driven.turn()
}

/// Lets a node trim its log. Returns the numbers of memory requests before that step and after it, and whether all is right.
/// The last call must be answered, and no committed place kept. After a refused request in that step, the node must be stopped,
/// without outputs of the step.
fn trims<O: Object>(
    driven: &mut DrivenNode<O>,
    heap: &RefusingHeap,
) -> Result<(u64, u64, bool), Fault> {
    fill_almost_to_trim(driven)?;
    let before = heap.request_count();
    let is_right = match driven.turn() {
        Ok(()) => {
            let trimmed = (State::Operational, 1, 256, 256, 256, 256);
            let last = Answer::Done(outcome_reply_with(Outcome::Done, 256));
            shown(driven) == (trimmed, ((256, 256), 256, 0))
                && driven.node.reply(Ticket::new(255)) == Some(last)
        }
        Err(Fault::Memory) => {
            let stopped = (State::Stopped, 1, 192, 256, 0, 192);
            shown(driven) == (stopped, ((192, 192), 0, 192))
        }
        Err(_) => false,
    };
    Ok((before, heap.request_count(), is_right))
}

/// Does the same with a new node whose memory is in `heap`.
fn trims_in<O: Object>(
    heap: O::Alloc,
    ample: O::Alloc,
    refusing: &RefusingHeap,
) -> Result<(u64, u64, bool), Fault> {
    let mut driven = DrivenNode::<O>::new(heap, ample)?;
    let trims = trims(&mut driven, refusing);
    drop(driven);
    trims
}

/// Does the same if the first `passed` requests for memory are granted.
fn trims_after(
    ample: &RefusingHeap,
    alloc: Global,
    passed: u64,
) -> Result<(u64, u64, bool), Fault> {
    let heap = RefusingHeap::new(alloc, passed);
    trims_in::<Counters<&RefusingHeap>>(&heap, ample, &heap)
}

#[test]
fn step_that_is_refused_memory_drops_nothing(rt: HostRuntime) -> Result<(), Fail> {
    let ample = RefusingHeap::new(rt.alloc(), u64::MAX);
    let (before, after, is_right) = trims_after(&ample, rt.alloc(), u64::MAX)?;
    assert!(rt; is_right && after > before);
    for passed in before..after {
        let (_, _, is_right) = trims_after(&ample, rt.alloc(), passed)?;
        assert!(rt; is_right, "at {passed}");
    }
    Ok(())
}
