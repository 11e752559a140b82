//! The output of a network that splits and merges, with memory refused on the way.

use crate::explained::is_explained;
use crate::failing_runs::run_of;
use crate::printed::RunOutput;
use refusing_alloc::RefusingHeap;
use ring_base::Fault;
use std::alloc::Global;
use std::process::Abort;
use std::str;

/// The example `cut_and_merged`: a call is sent at node 1, and a cut isolates the node before the call is safe. The call is
/// retried at node 2, and the sides merge.
const CUT_AND_MERGED: &str =
    "nodes 3\ntimeout 1 join\ntimeout 2 join\ntimeout 3 join\npump 100\ncall 1 7 1 add 0 5\npump 2\n\
    cut 1 2,3\npump 10\ntimeout 1 loss\ntimeout 2 loss\npump 10\ntimeout 1 consensus\ntimeout 2 consensus\npump 200\n\
    call 2 7 1 add 0 5\npump 100\nheal\ntimeout 1 join\npump 300\ncall 3 8 1 read 0\npump 100\nshow\n";

/// Runs and checks that script, and returns its output.
fn printed_over(heap: &RefusingHeap, alloc: Global) -> RunOutput {
    run_of(heap, alloc, true, &mut CUT_AND_MERGED.as_bytes())
}

/// Whether a node reports that memory was refused, by having stopped or not taken a call, and the whole run is legal.
fn goes_on(printed: &RunOutput) -> bool {
    let text = str::from_utf8(printed.out.as_slice()).unwrap_or("");
    let is_told = text.contains(" stopped ")
        || text.lines().any(|line| line.starts_with("refused ") && line.ends_with(" 11"));
    is_told && text.ends_with("legal yes\n") && printed.is_refused("", 0)
}

/// Whether the refusal of the request after `passed` others is reported: by a node; or by the run, which ended after a prefix of
/// its whole output and is legal so far. Nothing is printed where the refusal comes before the run.
fn is_told(alloc: Global, passed: u64, whole: &[u8]) -> bool {
    let heap = RefusingHeap::new(alloc, passed);
    let printed = printed_over(&heap, alloc);
    if !heap.has_refused() {
        return false;
    }
    if !printed.is_refused("totem: 11 out of memory\n", 1) {
        return goes_on(&printed);
    }
    let heap = RefusingHeap::new(alloc, passed);
    let told = is_explained(&heap, alloc, CUT_AND_MERGED);
    let is_before_run = told == Err(Fault::Memory) && printed.out.is_empty();
    whole.starts_with(printed.out.as_slice()) && (told == Ok(true) || is_before_run)
}

/// The number of parts in which the requests are tried, so that each test is short.
const PARTS: u64 = 6;

/// Refuses each request of this part in turn.
fn refuse_each(rt: &impl Abort, alloc: Global, part: u64) {
    let heap = RefusingHeap::new(alloc, u64::MAX);
    let printed = printed_over(&heap, alloc);
    let requests = heap.request_count();
    assert!(rt; requests > 200, "{requests}");
    for passed in 0..requests {
        if passed % PARTS == part {
            assert!(rt;
                is_told(alloc, passed, printed.out.as_slice()),
                "at {passed}"
            );
        }
    }
}

#[test]
fn each_first_request_of_six_may_be_refused(rt: HostRuntime) {
    refuse_each(&rt, rt.alloc(), 0);
}

#[test]
fn each_second_request_of_six_may_be_refused(rt: HostRuntime) {
    refuse_each(&rt, rt.alloc(), 1);
}

#[test]
fn each_third_request_of_six_may_be_refused(rt: HostRuntime) {
    refuse_each(&rt, rt.alloc(), 2);
}

#[test]
fn each_fourth_request_of_six_may_be_refused(rt: HostRuntime) {
    refuse_each(&rt, rt.alloc(), 3);
}

#[test]
fn each_fifth_request_of_six_may_be_refused(rt: HostRuntime) {
    refuse_each(&rt, rt.alloc(), 4);
}

#[test]
fn each_last_request_of_six_may_be_refused(rt: HostRuntime) {
    refuse_each(&rt, rt.alloc(), 5);
}
