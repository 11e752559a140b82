//! Tests of runs in which each request for memory is refused in turn: `done` returns the number of events done.
//! Rules: Rings and states 15; Refusals 3

use crate::pump::pumped;
use crate::steps::{Opening, ran};
use refusing_alloc::RefusingHeap;
use ring_base::{Fault, Fixed};
use std::alloc::{Allocator, Global};
use std::process::Abort;
use std::test::Fail;

/// Join timeouts of three processors.
const JOINS: &str = "\
join 1
join 2
join 3
";

/// A call goes round a ring of two.
const CIRCLE: &str = "\
call 2
hand 2 1
hand 1 2
hand 1 3
";

/// A run: its opening and number of processors, its lines, and the number of its events.
#[derive(Clone, Copy)]
struct Run<'a> {
    from: (Opening, u8),
    script: &'a str,
    events: u64,
}

/// The number of events done, and whether that was all of them. An error where the opening was refused memory.
type Done = Result<(u64, bool), Fault>;

/// Runs the first `count` events with the memory of `heap`.
fn done_with<A: Allocator + Copy>(heap: A, ample: A, run: Run, count: u64) -> Done {
    let (done, outs) = ran(heap, ample, run.from, run.script, count)?;
    Ok((done, outs.is_some()))
}

/// Does the same where one request is refused: the one after the first `passed`. Returns also whether it was refused.
fn done_past(
    alloc: Global,
    ample: &RefusingHeap,
    run: Run,
    passed: u64,
    count: u64,
) -> (Done, bool) {
    let heap = RefusingHeap::new(alloc, passed);
    let done = done_with::<&RefusingHeap>(&heap, ample, run, count);
    (done, heap.has_refused())
}

/// Returns whether a refused run reports the number of events before the refused one: with the same memory these are
/// done, and one more isn't.
fn tells_its_events(
    alloc: Global,
    ample: &RefusingHeap,
    run: Run,
    passed: u64,
    done: Done,
) -> bool {
    let Ok((events, _)) = done else {
        return done == Err(Fault::Memory);
    };
    let (before, _) = done_past(alloc, ample, run, passed, events);
    let (after, _) = done_past(alloc, ample, run, passed, events.saturating_add(1));
    events < run.events && before == Ok((events, true)) && after == Ok((events, false))
}

/// Refuses each request for memory of a run in turn. The run makes more than `least` requests.
fn refuse_each(rt: &impl Abort, alloc: Global, ample: &RefusingHeap, run: Run, least: u64) {
    for passed in 0..u64::MAX {
        let (done, is_refused) = done_past(alloc, ample, run, passed, run.events);
        if !is_refused {
            assert!(rt;
                done == Ok((run.events, true)) && passed > least,
                "{passed}"
            );
            return;
        }
        assert!(rt;
            tells_its_events(alloc, ample, run, passed, done),
            "{passed}"
        );
    }
}

/// Does the same, with enough memory for the payloads of the events.
fn refuse_in_turn(rt: &impl Abort, alloc: Global, run: Run, least: u64) {
    let ample = RefusingHeap::new(alloc, u64::MAX);
    refuse_each(rt, alloc, &ample, run, least);
}

#[test]
fn each_request_of_a_gather_and_a_recovery_is_refused_in_turn(rt: HostRuntime) -> Result<(), Fail> {
    let script = pumped(rt.alloc(), Fixed::new(3)?, JOINS, 100)?;
    let run = Run {
        from: (Opening::Gather, 3),
        script: script.as_str(),
        events: 103,
    };
    refuse_in_turn(&rt, rt.alloc(), run, 100);
    Ok(())
}

#[test]
fn each_request_on_a_formed_ring_is_refused_in_turn(rt: HostRuntime) {
    let run = Run {
        from: (Opening::FormedRing, 2),
        script: CIRCLE,
        events: 4,
    };
    refuse_in_turn(&rt, rt.alloc(), run, 10);
}
