//! A node that was cut off is restored, or is refused memory. The expected values are those of `docs/PROTOCOL.md`. What such a node
//! answers is shown by `waits_at_a_restore` in the data of `totem_examples`.
//! Rules: The replicated log 6, 18 and 20; Refusals 6

use crate::grouped::MemberGroup;
use refusing_alloc::RefusingHeap;
use ring_base::{Fault, Kind, Proc, ProcSet, State};
use ring_object::Object;
use ring_things::Counters;
use std::alloc::Global;
use std::test::Fail;

/// A node's state, its committed length, its log length, its trimmed length, the number of calls that took effect, and the
/// number of committed places that it keeps.
type Shown = (State, u64, u64, u64, u64, usize);

/// Returns these values of a node.
fn shown<O: Object>(group: &MemberGroup<O>, number: u8) -> Option<Shown> {
    let node = group.node(number)?;
    Some((
        node.state(),
        node.committed_len(),
        node.log_len(),
        node.trimmed(),
        node.order_len(),
        node.committed().len(),
    ))
}

/// Submits `count` calls of client 7, from number `first` on, at a node, and then delivers at most `letters` frames.
fn calls<O: Object>(
    group: &mut MemberGroup<O>,
    number: u8,
    first: u64,
    count: u64,
    letters: u32,
) -> Result<(), Fault> {
    for more in 0..count {
        group.submit(number, first.saturating_add(more))?;
    }
    group.pump(letters)
}

/// Gives each of three nodes a join timeout.
fn join<O: Object>(group: &mut MemberGroup<O>) -> Result<(), Fault> {
    group.time(1, Kind::Join)?;
    group.time(2, Kind::Join)?;
    group.time(3, Kind::Join)
}

/// Forms a ring of three nodes and does 10 calls.
fn formed<O: Object>(group: &mut MemberGroup<O>) -> Result<(), Fault> {
    join(group)?;
    group.pump(200)?;
    calls(group, 1, 1, 10, 200)
}

/// Cuts node 3 off, and does 290 calls at nodes 1 and 2.
fn parted<O: Object>(group: &mut MemberGroup<O>) -> Result<(), Fault> {
    group.cut(ProcSet::singleton(Proc::new(3)));
    group.time(1, Kind::Loss)?;
    group.pump(200)?;
    group.time(1, Kind::Consensus)?;
    group.time(2, Kind::Consensus)?;
    group.pump(400)?;
    for round in 0..4u64 {
        calls(group, 1, 11 + 64 * round, 64, 400)?;
    }
    calls(group, 1, 267, 34, 400)
}

/// Lets all three nodes hear each other again.
fn met<O: Object>(group: &mut MemberGroup<O>) -> Result<(), Fault> {
    group.cut(ProcSet::new());
    group.time(3, Kind::Join)?;
    group.pump(600)?;
    join(group)
}

/// The step in which node 3 is restored, or is refused memory: the number of requests for memory before it and after it,
/// its result, and whether everything is then as it should be.
type Restore = (u64, u64, Result<(), Fault>, bool);

/// Returns the trimmed length of node 3.
fn trimmed<O: Object>(group: &MemberGroup<O>) -> u64 {
    match group.node(3) {
        Some(node) => node.trimmed(),
        None => 0,
    }
}

/// Returns whether node 3 has stopped with the log that it had before it was to be restored.
fn has_stopped<O: Object>(group: &MemberGroup<O>) -> bool {
    let is_as_before = shown(group, 3) == Some((State::Stopped, 10, 10, 0, 10, 10));
    is_as_before && group.told(3) == Some((10, 0, None))
}

/// Returns whether node 3 has stopped for good: it refuses a timeout, and a frame by which another node looks for it.
fn stays_stopped<O: Object>(group: &mut MemberGroup<O>) -> Result<bool, Fault> {
    let was_stopped = has_stopped(group);
    let on_timeout = group.time(3, Kind::Join);
    group.time(1, Kind::Loss)?;
    let on_letter = group.pump(600);
    let refuses = on_timeout == Err(Fault::Stopped) && on_letter == Err(Fault::Stopped);
    Ok(was_stopped && refuses && has_stopped(group))
}

/// Returns whether node 3 is restored, and in the ring with the others, after their frames arrived. Node 1 has reported all calls
/// as committed, and those of its dropped places as dropped.
fn is_restored<O: Object>(group: &mut MemberGroup<O>) -> Result<bool, Fault> {
    group.pump(600)?;
    let is_in_ring = shown(group, 3) == Some((State::Operational, 300, 300, 266, 300, 34));
    let is_told = group.told(3) == Some((44, 0, Some(266)));
    Ok(is_in_ring && is_told && group.told(1) == Some((300, 266, None)))
}

/// Cuts node 3 off, whose memory is in `heap`, and delivers frames up to the one that restores it or for which it is
/// refused memory. Then it is in the ring with the others, or has stopped for good.
fn restore<O: Object>(group: &mut MemberGroup<O>, heap: &RefusingHeap) -> Result<Restore, Fault> {
    formed(group)?;
    parted(group)?;
    met(group)?;
    for _ in 0..600 {
        let before = heap.request_count();
        let answer = group.pump(1);
        if answer.is_err() || trimmed(group) > 0 {
            let after = heap.request_count();
            let is_right = if answer.is_ok() {
                is_restored(group)?
            } else {
                stays_stopped(group)?
            };
            return Ok((before, after, answer, is_right));
        }
    }
    Ok((0, 0, Ok(()), false))
}

/// Does this in a new group.
fn restore_anew<O: Object>(
    ample: O::Alloc,
    last: O::Alloc,
    heap: &RefusingHeap,
) -> Result<Restore, Fault> {
    let mut group = MemberGroup::<O>::new(ample, last, 3)?;
    let restored = restore(&mut group, heap);
    drop(group);
    restored
}

/// Does this in a new group whose node 3 is refused memory after `passed` requests.
fn restore_after(ample: &RefusingHeap, alloc: Global, passed: u64) -> Result<Restore, Fault> {
    let heap = RefusingHeap::new(alloc, passed);
    restore_anew::<Counters<&RefusingHeap>>(ample, &heap, &heap)
}

#[test]
fn restore_that_is_refused_memory_stops_the_node(rt: HostRuntime) -> Result<(), Fail> {
    let ample = RefusingHeap::new(rt.alloc(), u64::MAX);
    let (before, after, answer, is_right) = restore_after(&ample, rt.alloc(), u64::MAX)?;
    let count = after.saturating_sub(before);
    assert!(rt; answer == Ok(()) && is_right && 0 < count && count < 1_000);
    for passed in before..after {
        let (_, _, answer, is_right) = restore_after(&ample, rt.alloc(), passed)?;
        assert!(rt; answer == Err(Fault::Memory) && is_right, "at {passed}");
    }
    Ok(())
}
