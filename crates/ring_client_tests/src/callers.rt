//! The refusals of a run of callers, and that no caller makes a call then.
//! Rules: The book and the threads 28; Refusals 4

use refusing_alloc::RefusingHeap;
use ring_base::{Fault, Fixed};
use ring_client::{Client, Port};
use ring_client_threads::{Caller, run_callers};
use ring_object::Object;
use ring_things::Counters;
use std::alloc::{Allocator, Global};
use std::sync::Wait;
use std::sync::atomic::{AtomicBool, Ordering};
use std::thread::Threads;

/// A client that makes no calls: the node that it would try first, and whether `make_calls` was called.
#[derive(Drop)]
struct Silent {
    first: u8,
    was_let: AtomicBool,
}

impl Caller for Silent {
    ghost first = { λ silent. silent.first };

    fn first_node(&self) -> u8 {
        self.first
    }

    fn make_calls<P: Port>(&self, _client: &mut Client<P>) {
        self.was_let.store(true, Ordering::SeqCst);
    }
}

/// The result of a run, as its number of calls or a refusal, and whether `make_calls` of a caller was called.
type Seen = (Result<usize, Fault>, bool);

/// Runs these clients over a group of which the nodes in `stopped` are stopped. Returns the number of calls made.
fn calls_of<O: Object + Send, W: Threads + Wait + Sync>(
    rt: &W,
    alloc: O::Alloc,
    group: Fixed,
    stopped: &[u8],
    callers: &[Silent],
) -> Result<usize, Fault>
where
    O::Alloc: Send + Sync,
{
    let calls = run_callers::<O, _, _>(rt, alloc, group, stopped, callers)?;
    let count = calls.order.len();
    drop(calls);
    Ok(count)
}

/// Returns whether `make_calls` of one of the clients was called.
fn is_any_let(callers: &[Silent]) -> bool {
    let mut is = false;
    for caller in callers {
        is = is || caller.was_let.load(Ordering::SeqCst);
    }
    is
}

/// Returns the result of such a run of `nodes` nodes with counters, whose memory is in `alloc`.
fn run_of<A: Allocator + Copy + Drop + Send + Sync, W: Threads + Wait + Sync>(
    rt: &W,
    alloc: A,
    nodes: u8,
    stopped: &[u8],
    callers: &[Silent],
) -> Result<Seen, Fault> {
    let group = Fixed::new(nodes)?;
    let answered = calls_of::<Counters<A>, W>(rt, alloc, group, stopped, callers);
    Ok((answered, is_any_let(callers)))
}

/// Returns clients with these first nodes.
fn clients(alloc: Global, firsts: &[u8]) -> Result<Vec<Silent>, Fault> {
    let mut callers = Vec::new(alloc);
    for first in firsts {
        callers.push(Silent {
            first: *first,
            was_let: AtomicBool::new(false),
        })?;
    }
    Ok(callers)
}

/// Returns the result of a run of clients with these first nodes.
fn seen<W: Threads + Wait + Sync>(
    rt: &W,
    alloc: Global,
    nodes: u8,
    stopped: &[u8],
    firsts: &[u8],
) -> Result<Seen, Fault> {
    let callers = clients(alloc, firsts)?;
    run_of(rt, alloc, nodes, stopped, callers.as_slice())
}

#[test]
fn numbers_that_are_of_no_node_and_those_that_stand_twice(rt: HostRuntime) {
    let cases: [(&[u8], &[u8], Fault); 9] = [
        (&[0], &[1], Fault::NotMember),
        (&[4], &[1], Fault::NotMember),
        (&[1, 2, 4], &[1], Fault::NotMember),
        (&[], &[0], Fault::NotMember),
        (&[], &[1, 4], Fault::NotMember),
        (&[1, 1], &[1], Fault::Stopped),
        (&[3, 1, 2, 3], &[1], Fault::Stopped),
        (&[1, 1, 4], &[1], Fault::NotMember),
        (&[1, 1], &[4], Fault::NotMember),
    ];
    for (stopped, firsts, fault) in cases {
        let seen = seen(&rt, rt.alloc(), 3, stopped, firsts);
        assert!(rt; seen == Ok((Err(fault), false)), "{stopped:?} {firsts:?}");
    }
}

/// Returns the results of one node with 257 clients, and of 16 nodes with 17 and with 16.
fn with_ports<W: Threads + Wait + Sync>(rt: &W, alloc: Global) -> [Result<Seen, Fault>; 3] {
    [
        seen(rt, alloc, 1, &[], &[1; 257]),
        seen(rt, alloc, 16, &[], &[1; 17]),
        seen(rt, alloc, 16, &[], &[1; 16]),
    ]
}

#[test]
fn more_than_256_ports(rt: HostRuntime) {
    let refused = Ok((Err(Fault::NotMember), false));
    assert!(rt; with_ports(&rt, rt.alloc()) == [refused, refused, Ok((Ok(0), true))]);
}

/// Returns the result of three nodes and a client where the first request for memory is refused, and whether any request
/// was made.
fn without_memory<W: Threads + Wait + Sync>(
    rt: &W,
    alloc: Global,
    stopped: &[u8],
) -> Result<(Seen, bool), Fault> {
    let callers = clients(alloc, &[1])?;
    let heap = RefusingHeap::new(alloc, 0);
    let seen = run_of(rt, &heap, 3, stopped, callers.as_slice())?;
    Ok((seen, heap.request_count() > 0))
}

#[test]
fn memory_is_asked_for_where_nothing_else_refuses(rt: HostRuntime) {
    let cases: [(&[u8], Fault, bool); 3] = [
        (&[4], Fault::NotMember, false),
        (&[2, 2], Fault::Stopped, false),
        (&[2], Fault::Memory, true),
    ];
    for (stopped, fault, is_asked) in cases {
        let seen = without_memory(&rt, rt.alloc(), stopped);
        assert!(rt; seen == Ok(((Err(fault), false), is_asked)), "{stopped:?}");
    }
}
