//! An allocator that refuses one request for memory, to test how a function behaves when an allocation fails.
//!
//! A test passes it as `&heap` wherever an allocator is wanted: a `&` to an allocator is one too, and is `Copy`.
#![tactic(auto)]

ghost use Rattle.std.specs.Prelude.{◌≡◌, ◌<◌, ℕ, IfSome, alloc_error};
ghost use Rattle.refusing_alloc.specs.RefusingHeap.{refused_index, MayReturn};

mod request_counter;

use request_counter::RequestCounter;
use std::alloc::{AllocError, Allocator, Global};

/// An allocator that refuses one request, and passes every other request on to `inner`.
///
/// A request is a call of `allocate`. Growing or shrinking a block is a request too, since the block moves to a new
/// one. Freeing a block isn't a request. Threads may share a `&` to the allocator: each request has its own number, so
/// exactly one is refused, whichever thread makes it.
#[derive(Drop)]
pub struct RefusingHeap<B: Allocator = Global> {
    inner: B,
    requests: RequestCounter,
}

impl<B: Allocator> RefusingHeap<B> {
    /// Returns an allocator that refuses the request after the first `passed_requests` requests, and no other.
    ///
    /// With `passed_requests` 0 it refuses the first request. It passes all other requests on to `inner`.
    pub fn new(inner: B, passed_requests: u64) -> RefusingHeap<B>
        ensures { refused_index result ≡ passed_requests }
    {
        RefusingHeap {
            inner,
            requests: RequestCounter::refusing_request(passed_requests),
        }
    }

    /// Returns the number of requests that all threads have made so far, including the refused one.
    pub fn request_count(&self) -> u64 {
        self.requests.counted_requests()
    }

    /// Returns whether this allocator has refused a request yet: whether it has had more requests than `new` lets pass.
    pub fn has_refused(&self) -> bool {
        self.requests.has_reached_refused()
    }

    /// Returns the result that [`refuse_in_turn`] expects of its `work`: `Err` if a request has been refused, otherwise
    /// `Ok`.
    ///
    /// If `is_right` is false, it returns the other of the two, so that `refuse_in_turn` returns `None`. `work` calls
    /// it last, with the outcome of its own checks.
    pub fn expected_result(&self, is_right: bool) -> Result<(), AllocError> {
        if is_right == self.has_refused() {
            Err(AllocError)
        } else {
            Ok(())
        }
    }
}

// Sound if `inner` is: each block comes from `inner`, and goes back to it unchanged. A refused request returns no
// block.
unsafe impl<B: Allocator> Allocator for RefusingHeap<B> {
    // A block is freed by the allocator that gave it.
    ghost dealloc_token = { λ heap ty ptr. B.dealloc_token heap.inner ty ptr };

    fn allocate(&self, size: usize, align: usize) -> Result<*mut u8, AllocError> {
        if self.requests.count_and_is_refused() {
            return Err(AllocError);
        }
        self.inner.allocate(size, align)
    }

    unsafe fn deallocate(&self, ptr: *mut u8, size: usize, align: usize) {
        self.inner.deallocate(ptr, size, align);
    }
}

/// Calls `work` with an allocator that refuses the first request, then with one that refuses the second, and so on.
///
/// The last call is the first one that makes too few requests to be refused any.
///
/// Returns the number of calls in which a request was refused, which is the number of requests that `work` makes if
/// none is refused. Returns `None` if a call returned the wrong result, or if `alloc` itself ran out of memory. The
/// right result is `Err` if a request of the call was refused, otherwise `Ok`.
pub fn refuse_in_turn<F: Fn(&RefusingHeap) -> Result<(), AllocError>>(
    alloc: Global,
    work: &F,
) -> Option<u64>
    requires { F.IsAlwaysCallable work.now }
    ensures refused { IfSome result (λ n. (k : ℕ) → k < n
        → MayReturn (F.post work.now) k (Err alloc_error)) }
    ensures succeeded { IfSome result (λ n. MayReturn (F.post work.now) n (Ok tt)) }
{
    for passed_requests in 0..u64::MAX {
        let heap = RefusingHeap::new(alloc, passed_requests);
        match (work(&heap), heap.has_refused()) {
            (Ok(()), false) => return Some(passed_requests),
            (Err(AllocError), true) => {}
            _ => return None,
        }
    }
    None
}
