//! The check of an order against a history, with each of its requests for memory refused in turn.
//! Rules: Sessions 10; Refusals 6

use refusing_alloc::RefusingHeap;
use ring_base::{Fault, pair_result};
use ring_checker::is_linearization;
use ring_console::{Script, ScriptRun, StandardObjects};
use std::alloc::Global;
use std::io::Write;

/// Two clients, one of which retries a call, and a call without an answer.
const CALLS: &str =
    "nodes 1\ntimeout 1 join\npump 10\ncall 1 7 1 add 0 5\npump 4\ncall 1 7 1 add 0 5\ncall 1 8 1 read 0\n\
    pump 10\ncall 1 7 2 push 3\n";

/// A check: how many requests for memory came before it, and its result.
#[derive(Drop)]
struct CheckOutcome {
    earlier: u64,
    result: Result<bool, Fault>,
}

/// Checks the run of a script.
fn check<'a>(
    heap: &'a RefusingHeap,
    run: &ScriptRun<StandardObjects<&'a RefusingHeap>>,
) -> Result<CheckOutcome, Fault> {
    let order = run.world().order()?;
    let earlier = heap.request_count();
    let result = is_linearization::<StandardObjects<&RefusingHeap>>(
        heap,
        order.as_slice(),
        run.world().history(),
    );
    Ok(CheckOutcome { earlier, result })
}

/// Runs the calls, and then checks the run.
fn check_of(heap: &RefusingHeap, alloc: Global) -> Result<CheckOutcome, Fault> {
    let Ok(script) = Script::read(heap, &mut CALLS.as_bytes()) else {
        return Err(Fault::BadScript);
    };
    let made = ScriptRun::<StandardObjects<&RefusingHeap>>::new(heap, script.nodes);
    let (script, mut run) = pair_result(script, made)?;
    let mut out = Vec::<u8>::new(alloc);
    let mut output: &mut dyn Write = &mut out;
    let _ = run.run_and_print_lines(script, &mut output);
    let told = check(heap, &run);
    drop(run);
    told
}

#[test]
fn each_request_of_a_check_may_be_refused(rt: HostRuntime) {
    let ample = RefusingHeap::new(rt.alloc(), u64::MAX);
    let whole = check_of(&ample, rt.alloc());
    let Ok(CheckOutcome { earlier, result }) = whole else {
        panic!(rt; "the calls were not run");
    };
    assert!(rt; result == Ok(true));
    let requests = ample.request_count();
    assert!(rt;
        requests.saturating_sub(earlier) > 1,
        "{earlier} of {requests}"
    );
    for passed in earlier..requests {
        let heap = RefusingHeap::new(rt.alloc(), passed);
        let told = check_of(&heap, rt.alloc());
        let is_refused = matches!(
            told,
            Ok(CheckOutcome {
                earlier: _,
                result: Err(Fault::Memory)
            })
        );
        assert!(rt; is_refused && heap.has_refused(), "at {passed}");
    }
}
