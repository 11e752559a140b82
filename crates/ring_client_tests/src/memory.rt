//! Refuses each request for memory of a call in turn.
//! Rules: Clients 5; Refusals 3 and 5

use crate::scripted::{Behaviour, client_of};
use refusing_alloc::RefusingHeap;
use ring_base::Fault;
use ring_client::{Client, Port};
use ring_object::Reply;
use ring_session::Answer;
use std::alloc::{Allocator, Global};
use std::test::Fail;

/// Returns the reply that the third port gives.
fn replied() -> Reply {
    Reply::from_slice(&[5])
}

/// Returns the behaviour of three ports, of which the last answers.
fn ports() -> [Behaviour; 3] {
    [
        Behaviour::IsSilent,
        Behaviour::Refuses(Fault::Stopped),
        Behaviour::AnswersAfter(0, Answer::Done(replied())),
    ]
}

/// Returns the number of ports at which a call was submitted.
fn asked_ports<P: Port>(client: &Client<P>) -> usize {
    client
        .ports()
        .iter()
        .filter(|port| port.asked().number > 0)
        .count()
}

/// Makes a call, or tries the open call again, and returns its result.
fn called<P: Port>(client: &mut Client<P>) -> Result<Reply, Fault> {
    if client.is_open() {
        client.again()
    } else {
        client.call(b"a")
    }
}

/// The number of requests for memory for one port's call: its bytes, and its reference count.
const A_CALL: u64 = 2;

/// Returns whether a call whose copy for one port is refused memory, after `passed` requests, is handled correctly. At the
/// first port the client is unchanged; at a later port the call is open. A second try is answered.
fn is_refused_once<P: Port>(client: &mut Client<P>, passed: u64) -> bool {
    let asked = passed / A_CALL;
    let is_refused = called(client) == Err(Fault::Memory) && asked_ports(client) as u64 == asked;
    let is_kept = client.is_open() == (asked > 0) && client.next_number() == Some(1);
    let is_replied = called(client) == Ok(replied()) && client.next_number() == Some(2);
    is_refused && is_kept && is_replied
}

/// Returns this for a new client whose calls have their memory in `heap`.
fn is_new_refused<A: Allocator + Copy + Drop>(
    heap: A,
    ample: A,
    passed: u64,
) -> Result<bool, Fault> {
    let mut client = client_of(heap, ample, &ports(), 2)?;
    let is_refused = is_refused_once(&mut client, passed);
    drop(client);
    Ok(is_refused)
}

/// Returns this for a client that is refused the request after `passed` others.
fn is_refused(alloc: Global, passed: u64) -> Result<bool, Fault> {
    let ample = RefusingHeap::new(alloc, u64::MAX);
    let heap = RefusingHeap::new(alloc, passed);
    is_new_refused(&heap, &ample, passed)
}

/// Returns the result of a call of a new client whose calls have their memory in `heap`.
fn answered<A: Allocator + Copy + Drop>(heap: A, ample: A) -> Result<Reply, Fault> {
    let mut client = client_of(heap, ample, &ports(), 2)?;
    let answer = called(&mut client);
    drop(client);
    answer
}

/// Returns the number of requests for memory of a call without refusals, and its result.
fn requests(alloc: Global) -> (u64, Result<Reply, Fault>) {
    let ample = RefusingHeap::new(alloc, u64::MAX);
    let heap = RefusingHeap::new(alloc, u64::MAX);
    let answer = answered(&heap, &ample);
    (heap.request_count(), answer)
}

/// Each port's call takes memory.
#[test]
fn each_request_is_refused_in_turn(rt: HostRuntime) -> Result<(), Fail> {
    for passed in 0..3 * A_CALL {
        assert!(rt; is_refused(rt.alloc(), passed)?, "at {passed}");
    }
    assert!(rt; requests(rt.alloc()) == (3 * A_CALL, Ok(replied())));
    Ok(())
}
