//! Work that takes memory, with each request refused in turn.
//! Rules: Objects 4; Sessions 5

use crate::sessions::refusals;
use crate::snapshots::call_and_come_back;
use crate::things::change_and_restore_with_faults;
use crate::tickets::answer_three;
use refusing_alloc::{RefusingHeap, refuse_in_turn};
use ring_base::Fault;
use ring_things::{Counters, Names, Queue, StandardObjects};
use std::alloc::{AllocError, Global};

/// Whether the work's result is `Memory` exactly if a request was refused.
fn has_ended(heap: &RefusingHeap, told: Result<(), Fault>) -> bool {
    let fault = if heap.has_refused() {
        Some(Fault::Memory)
    } else {
        None
    };
    told.err() == fault
}

/// Work that takes memory.
#[derive(Clone, Copy)]
enum Work {
    /// Completes in spite of refusals, and counts them.
    Calls,
    Snapshots,
    Shelf,
    Tickets,
}

/// Runs the work and gives `refuse_in_turn` the result that it expects: an error if a request was refused. If the work
/// itself is wrong, the result is the opposite. The only fault is `Memory`, and it comes with each refused request.
fn answered(heap: &RefusingHeap, ample: &RefusingHeap, work: Work) -> Result<(), AllocError> {
    let is_right = match work {
        Work::Calls => {
            let refusals = refusals::<Names<&RefusingHeap>>(heap, ample);
            refusals == Ok(u64::from(heap.has_refused()))
        }
        Work::Snapshots => has_ended(heap, call_and_come_back::<Queue<&RefusingHeap>>(heap)),
        Work::Shelf => has_ended(
            heap,
            change_and_restore_with_faults::<StandardObjects<&RefusingHeap>>(heap),
        ),
        Work::Tickets => has_ended(heap, answer_three::<Counters<&RefusingHeap>>(heap)),
    };
    heap.expected_result(is_right)
}

/// The number of requests for memory that the work makes when each is refused once.
fn requests_of(alloc: Global, work: Work) -> Option<u64> {
    let ample = RefusingHeap::new(alloc, u64::MAX);
    refuse_in_turn(alloc, &|heap: &RefusingHeap| answered(heap, &ample, work))
}

#[test]
fn each_request_is_refused_in_turn(rt: HostRuntime) {
    for (work, least) in &[
        (Work::Calls, 16),
        (Work::Snapshots, 8),
        (Work::Shelf, 10),
        (Work::Tickets, 6),
    ] {
        assert!(rt; requests_of(rt.alloc(), *work) > Some(*least), "{least}");
    }
}
