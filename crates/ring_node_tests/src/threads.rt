//! A node's first step in another thread.

use crate::driven::{DrivenNode, Seen};
use ring_base::{Fault, State};
use ring_object::Object;
use ring_things::Counters;
use std::test::Fail;
use std::thread;
use std::thread::Threads;

/// The node as observed after its join timeout: it has proposed a ring of one.
const SEEN: Seen = (State::Commit, 0, 0, 0, 0);

/// Does a node's first step in another thread, and returns the node as observed.
/// A node may be sent to a thread if its object may be sent there and its allocator may be shared: the calls that it keeps share
/// their bytes with copies elsewhere.
fn view_after_step_in_thread<O: Object + Send, R: Threads>(
    rt: &R,
    driven: &mut DrivenNode<O>,
) -> Result<Seen, Fault>
where
    O::Alloc: Send + Sync,
{
    let lent = &mut *driven;
    let (stepped, ()) = thread::join(rt, move || lent.step(0), || ());
    stepped?;
    Ok(driven.seen())
}

/// Does the same with a node that is created here.
fn view_in_thread<O: Object + Send, R: Threads>(rt: &R, alloc: O::Alloc) -> Result<Seen, Fault>
where
    O::Alloc: Send + Sync,
{
    let mut driven = DrivenNode::<O>::new(alloc, alloc)?;
    let seen = view_after_step_in_thread(rt, &mut driven);
    drop(driven);
    seen
}

#[test]
fn steps_in_another_thread(rt: HostRuntime) -> Result<(), Fail> {
    let seen = view_in_thread::<Counters, _>(&rt, rt.alloc())?;
    assert!(rt; seen == SEEN);
    Ok(())
}
