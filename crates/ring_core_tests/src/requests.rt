//! Tests of `refusing_alloc`: which requests it refuses, for one thread and for two.
use refusing_alloc::{RefusingHeap, refuse_in_turn};
use std::alloc::{AllocError, Allocator, Global};
use std::thread;

/// Makes three requests of three kinds, one after another, and returns which of them succeeded.
fn three_requests<A: Allocator + Copy>(heap: A) -> [bool; 3] {
    let number = Box::new(heap, 1u64).is_ok();
    let room = Vec::<u8, A>::with_capacity(heap, 100).is_ok();
    let bytes = Vec::from_slice(heap, &[1u8, 2]).is_ok();
    [number, room, bytes]
}

#[test]
fn refuses_only_the_request_after_those_passed(rt: HostRuntime) {
    for (passed, want) in &[
        (0, [false, true, true]),
        (1, [true, false, true]),
        (2, [true, true, false]),
        (3, [true, true, true]),
    ] {
        let heap = RefusingHeap::new(rt.alloc(), *passed);
        assert!(rt; !heap.has_refused(), "before, at {passed}");
        assert!(rt; three_requests(&heap) == *want, "at {passed}");
        assert!(rt;
            heap.request_count() == 3 && heap.has_refused() == (*passed < 3),
            "at {passed}"
        );
    }
}

/// Returns a list of one byte with capacity `room`.
fn list_in<A: Allocator>(heap: A, room: usize) -> Result<Vec<u8, A>, AllocError> {
    let mut list = Vec::with_capacity(heap, room)?;
    list.push(7)?;
    Ok(list)
}

#[test]
fn counts_growth(rt: HostRuntime) -> Result<(), AllocError> {
    let heap = RefusingHeap::new(rt.alloc(), 2);
    let mut list = list_in(&heap, 1)?;
    assert!(rt;
        heap.request_count() == 1 && list.reserve_exact(1).is_ok() && heap.request_count() == 2
    );
    assert!(rt;
        !list.reserve_exact(100).is_ok() && heap.request_count() == 3 && heap.has_refused()
    );
    assert!(rt; list.reserve_exact(100).is_ok() && heap.request_count() == 4);
    assert!(rt; list.as_slice() == [7].as_slice());
    Ok(())
}

#[test]
fn counts_shrinking(rt: HostRuntime) -> Result<(), AllocError> {
    let heap = RefusingHeap::new(rt.alloc(), 9);
    let mut list = list_in(&heap, 100)?;
    list.shrink_to_fit();
    assert!(rt; heap.request_count() == 2 && list.as_slice() == [7].as_slice());
    Ok(())
}

/// Two threads each make a list with the same allocator.
#[test]
fn refuses_one_request_of_two_threads(rt: HostRuntime) {
    for passed in 0..3 {
        let heap = RefusingHeap::new(rt.alloc(), passed);
        let one = || Vec::from_slice(&heap, &[1u8, 2]);
        let (left, right) = thread::join(&rt, one, one);
        let refused = u8::from(left.is_err()) + u8::from(right.is_err());
        assert!(rt;
            refused == u8::from(passed < 2) && heap.request_count() == 2,
            "at {passed}"
        );
    }
}

/// Makes `requests` requests for memory, up to the first refusal.
fn boxes<A: Allocator + Copy>(heap: A, requests: u8) -> Result<(), AllocError> {
    for value in 0..requests {
        let _value = Box::new(heap, value)?;
    }
    Ok(())
}

#[test]
fn refuses_each_request_in_turn(rt: HostRuntime) {
    for requests in 0..4u8 {
        let refused = refuse_in_turn(rt.alloc(), &|heap: &RefusingHeap| boxes(heap, requests));
        assert!(rt; refused == Some(u64::from(requests)));
    }
}

#[test]
fn tells_a_wrong_answer(rt: HostRuntime) {
    let hides_a_refusal = |heap: &RefusingHeap| {
        let _hidden = boxes(heap, 2);
        Ok(())
    };
    assert!(rt; refuse_in_turn(rt.alloc(), &hides_a_refusal).is_none());
    let only_gives_up = |_heap: &RefusingHeap| Err(AllocError);
    assert!(rt; refuse_in_turn(rt.alloc(), &only_gives_up).is_none());
}
