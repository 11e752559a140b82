//! Refuses each request for memory of a client's call over three nodes in turn.
//! Rules: Clients 5, 6 and 8; Refusals 3 and 6

use crate::shared::{add, client_of, counted, order_len, three};
use refusing_alloc::RefusingHeap;
use ring_base::Fault;
use ring_checker::is_linearization;
use ring_client::{Client, Port};
use ring_object::{Object, Reply};
use ring_payload::Call;
use ring_things::Counters;
use ring_world_port::{SharedNetwork, World, WorldPort};
use std::alloc::Global;
use std::process::Abort;

/// The most polls of a node: enough for the two others to answer where one stops.
const POLLS: u64 = 400;

/// Makes three nodes, again after a refusal.
fn opened<O: Object>(heap: O::Alloc) -> Result<SharedNetwork<O>, Fault> {
    match three::<O>(heap) {
        Err(Fault::Memory) => three::<O>(heap),
        made => made,
    }
}

/// Makes a client, again after a refusal.
fn client<O: Object>(
    heap: O::Alloc,
    shared: &SharedNetwork<O>,
) -> Result<Client<WorldPort<O>>, Fault> {
    match client_of(heap, shared, POLLS) {
        Err(Fault::Memory) => client_of(heap, shared, POLLS),
        made => made,
    }
}

/// Makes the call, and tries it again once if it got no reply.
fn called<P: Port>(client: &mut Client<P>) -> Result<Reply, Fault> {
    match client.call(add().as_slice()) {
        Ok(reply) => Ok(reply),
        Err(_) if client.is_open() => client.again(),
        Err(_) => client.call(add().as_slice()),
    }
}

/// Returns the reply to the client's call, at the second try at the latest.
fn replied<O: Object>(heap: O::Alloc, shared: &SharedNetwork<O>) -> Result<Reply, Fault> {
    let mut client = client(heap, shared)?;
    let replied = called(&mut client);
    drop(client);
    replied
}

/// Returns the order of a world, asking again after a refusal.
fn order_of<O: Object>(world: &World<O>) -> Result<Vec<Call<O::Alloc>, O::Alloc>, Fault> {
    match world.order() {
        Err(Fault::Memory) => world.order(),
        order => order,
    }
}

/// Returns whether the order of the world explains its history.
fn is_explained<O: Object>(world: &World<O>, ample: O::Alloc) -> Result<bool, Fault> {
    let order = order_of(world)?;
    let explains = is_linearization::<O>(ample, order.as_slice(), world.history());
    drop(order);
    explains
}

/// Returns this for the world of three nodes.
fn explains<O: Object>(shared: &SharedNetwork<O>, ample: O::Alloc) -> Result<bool, Fault> {
    let Ok(network) = shared.try_borrow() else {
        return Err(Fault::NoAnswer);
    };
    is_explained(network.world(), ample)
}

/// Returns whether a client's call is answered, at node 1 or else at node 2, and takes effect once.
fn is_answered_by<O: Object>(
    shared: &SharedNetwork<O>,
    heap: O::Alloc,
    ample: O::Alloc,
) -> Result<bool, Fault> {
    let is_replied = replied(heap, shared)? == counted(5);
    Ok(is_replied && order_len(shared)? == 1 && explains(shared, ample)?)
}

/// Returns this for three nodes whose memory is in `heap` too.
fn is_answered_once<O: Object>(heap: O::Alloc, ample: O::Alloc) -> Result<bool, Fault> {
    let shared = opened::<O>(heap)?;
    let is_answered = is_answered_by(&shared, heap, ample);
    drop(shared);
    is_answered
}

/// Returns this with the request after `passed` others refused, whether that request was made, and the number of requests.
fn is_answered_past(
    alloc: Global,
    ample: &RefusingHeap,
    passed: u64,
) -> (Result<bool, Fault>, bool, u64) {
    let heap = RefusingHeap::new(alloc, passed);
    let is_answered = is_answered_once::<Counters<&RefusingHeap>>(&heap, ample);
    (is_answered, heap.has_refused(), heap.request_count())
}

/// The number of parts in which the requests are tried, so that each test is short.
const PARTS: u64 = 4;

/// Refuses each request of this part in turn, each in a new run. The call is always answered.
fn refuse_each(rt: &impl Abort, alloc: Global, part: u64) {
    let ample = RefusingHeap::new(alloc, u64::MAX);
    let (is_answered, _, requests) = is_answered_past(alloc, &ample, u64::MAX);
    assert!(rt; requests > 100 && is_answered == Ok(true), "{requests}");
    for passed in 0..requests {
        if passed % PARTS == part {
            let (is_answered, is_refused, _) = is_answered_past(alloc, &ample, passed);
            assert!(rt; is_refused && is_answered == Ok(true), "at {passed}");
        }
    }
}

#[test]
fn each_request_is_refused_in_turn(rt: HostRuntime) {
    refuse_each(&rt, rt.alloc(), 0);
}

#[test]
fn each_request_next_to_these_is_refused(rt: HostRuntime) {
    refuse_each(&rt, rt.alloc(), 1);
}

#[test]
fn each_request_after_those_is_refused(rt: HostRuntime) {
    refuse_each(&rt, rt.alloc(), 2);
}

#[test]
fn each_last_request_of_four_is_refused(rt: HostRuntime) {
    refuse_each(&rt, rt.alloc(), 3);
}
