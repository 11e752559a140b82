//! One run with each of its requests for memory refused in turn.
//! Rules: Refusals 3, 5 and 6

use crate::driven::DrivenNode;
use refusing_alloc::{RefusingHeap, refuse_in_turn};
use ring_base::{Fault, State};
use ring_object::Object;
use ring_things::Counters;
use std::alloc::AllocError;

/// The result of a run with a wrong outcome.
const WRONG: Fault = Fault::Conflict;

/// Submits the call of this number, again if it was refused memory. Returns the number of refusals.
/// A refusal must leave the node unchanged.
fn count_refused_submits<O: Object>(driven: &mut DrivenNode<O>, number: u64) -> Result<u64, Fault> {
    let before = driven.seen();
    match driven.submit(number) {
        Ok(_) => Ok(0),
        Err(Fault::Memory) if driven.seen() == before => {
            driven.submit(number)?;
            Ok(1)
        }
        Err(_) => Err(WRONG),
    }
}

/// Does the step at this place. Returns the number of refusals.
/// After one, the node must be stopped for good with its log from before the step.
fn count_refused_steps<O: Object>(driven: &mut DrivenNode<O>, place: u8) -> Result<u64, Fault> {
    let (_, ring, committed, places, effects) = driven.seen();
    let stopped = (State::Stopped, ring, committed, places, effects);
    match driven.step(place) {
        Ok(()) => Ok(0),
        Err(Fault::Memory) if driven.seen() == stopped && driven.time() == Err(Fault::Stopped) => {
            Ok(1)
        }
        Err(_) => Err(WRONG),
    }
}

/// Does the whole run, which ends if the node stops. Returns the number of refusals, the `before` earlier ones included.
/// Two calls are submitted: one waits for the ring, the other is sent at once.
fn count_refusals_in_run<O: Object>(driven: &mut DrivenNode<O>, before: u64) -> Result<u64, Fault> {
    let mut all = before;
    for place in 0..7u8 {
        if driven.is_stopped() {
            return Ok(all);
        }
        let submits = match place {
            2 => count_refused_submits(driven, 1)?,
            5 => count_refused_submits(driven, 2)?,
            _ => 0,
        };
        let steps = count_refused_steps(driven, place)?;
        all = all.saturating_add(submits).saturating_add(steps);
    }
    Ok(all)
}

/// Does the same, and checks that a node that still runs at the end has committed and answered both calls.
fn count_refusals_after<O: Object>(driven: &mut DrivenNode<O>, before: u64) -> Result<u64, Fault> {
    let refused = count_refusals_in_run(driven, before)?;
    if driven.is_stopped() || driven.told() == (2, 2) {
        Ok(refused)
    } else {
        Err(WRONG)
    }
}

/// Does the same with a new node, whose creation is repeated if it is refused memory.
fn refusals<O: Object>(heap: O::Alloc, ample: O::Alloc) -> Result<u64, Fault> {
    let (made, before) = match DrivenNode::<O>::new(heap, ample) {
        Err(Fault::Memory) => (DrivenNode::<O>::new(heap, ample), 1),
        made => (made, 0),
    };
    let mut driven = made?;
    let refused = count_refusals_after(&mut driven, before);
    drop(driven);
    refused
}

/// The probe for `refuse_in_turn`: a run is right if it reports one refusal after a refused request, and none otherwise.
fn told(heap: &RefusingHeap, refusals: Result<u64, Fault>) -> Result<(), AllocError> {
    heap.expected_result(refusals == Ok(u64::from(heap.has_refused())))
}

#[test]
fn each_request_is_refused_in_turn(rt: HostRuntime) {
    let ample = RefusingHeap::new(rt.alloc(), u64::MAX);
    let requests = refuse_in_turn(
        rt.alloc(),
        &|heap: &RefusingHeap| told(heap, refusals::<Counters<&RefusingHeap>>(heap, &ample)),
    );
    assert!(rt; requests > Some(16));
}
