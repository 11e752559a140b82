//! Ports to three nodes of one world.
//! Rules: Clients 2 and 8

use crate::shared::{add, counted, run_event, three};
use refusing_alloc::RefusingHeap;
use ring_base::{Fault, Proc};
use ring_client::Port;
use ring_object::Object;
use ring_payload::{Call, CallOperation};
use ring_session::Answer;
use ring_things::Counters;
use ring_world_port::{Event, SharedNetwork, WorldPort};
use std::alloc::Allocator;
use std::test::Fail;

/// Returns the first answer that a poll gives to client 7's first call, within 200 polls, and the result of one more poll.
fn answers<P: Port>(port: &mut P, alloc: P::Alloc) -> Result<[Option<Answer>; 2], Fault> {
    let ticket = port.submit(&Call::new(alloc, 7, 1, add().as_slice())?)?;
    let mut first = None;
    for _ in 0..200 {
        if first.is_none() {
            first = port.poll(&ticket);
        }
    }
    Ok([first, port.poll(&ticket)])
}

/// Returns these answers at the first of three nodes that hear each other.
fn answers_of_first<O: Object>(alloc: O::Alloc) -> Result<[Option<Answer>; 2], Fault> {
    let mut port = WorldPort::new(three::<O>(alloc)?, Proc::new(1));
    let answers = answers(&mut port, alloc);
    drop(port);
    answers
}

#[test]
fn a_poll_gives_the_answer_that_the_node_told(rt: HostRuntime) -> Result<(), Fail> {
    let five = Some(Answer::Done(counted(5)));
    let heap = RefusingHeap::new(rt.alloc(), u64::MAX);
    assert!(rt; answers_of_first::<Counters<&RefusingHeap>>(&heap)? == [five, five]);
    Ok(())
}

/// The refusal of a submit, and the number of the refusal that the port records.
type Refused = (Option<Fault>, Option<u8>);

/// Submits the call and returns its refusal.
fn refused<O: Object>(port: &mut WorldPort<O>, call: &Call<O::Alloc>) -> Refused {
    let fault = port.submit(call).err();
    (fault, port.asked().refused)
}

/// Returns a call of number 0, which no client makes.
fn numbered_0<A: Allocator + Copy>(alloc: A, op: &[u8]) -> Result<Call<A>, Fault> {
    Ok(Call {
        client: 7,
        number: 0,
        op: CallOperation::from_slice(alloc, op)?,
    })
}

/// Returns the refusal at a port to a node that isn't in the group.
fn refused_of_stranger<O: Object>(
    shared: &SharedNetwork<O>,
    call: &Call<O::Alloc>,
) -> Result<Refused, Fault> {
    let mut stranger = WorldPort::new(shared.clone()?, Proc::new(4));
    let refused = refused(&mut stranger, call);
    drop(stranger);
    Ok(refused)
}

/// Returns the refusal while another holder has the network borrowed.
fn refused_while_held<O: Object>(
    shared: &SharedNetwork<O>,
    port: &mut WorldPort<O>,
    call: &Call<O::Alloc>,
) -> Refused {
    match shared.try_borrow_mut() {
        Ok(_held) => refused(port, call),
        Err(_) => (None, None),
    }
}

/// Submits the call `times` times.
fn submit_often<O: Object>(
    port: &mut WorldPort<O>,
    call: &Call<O::Alloc>,
    times: u8,
) -> Result<(), Fault> {
    for _ in 0..times {
        port.submit(call)?;
    }
    Ok(())
}

/// Two calls of number 0, of which one has too long an operation, and a call that a node takes.
#[derive(Drop)]
struct Calls<A: Allocator + Copy> {
    long: Call<A>,
    none: Call<A>,
    first: Call<A>,
}

/// Returns each refusal in turn: of calls that reach no node, then of the node with 64 waiting tickets, and of the stopped
/// node.
fn refused_in_turn<O: Object>(
    shared: &SharedNetwork<O>,
    port: &mut WorldPort<O>,
    calls: &Calls<O::Alloc>,
) -> Result<[Refused; 6], Fault> {
    let stranger = refused_of_stranger(shared, &calls.long)?;
    let long = refused(port, &calls.long);
    let none = refused(port, &calls.none);
    let held = refused_while_held(shared, port, &calls.none);
    submit_often(port, &calls.first, 64)?;
    let full = refused(port, &calls.first);
    run_event(shared, Event::Stop(Proc::new(1)))?;
    let stopped = refused(port, &calls.first);
    Ok([stranger, long, none, held, full, stopped])
}

/// Returns these refusals at the first node.
fn refused_at_first<O: Object>(
    shared: &SharedNetwork<O>,
    calls: &Calls<O::Alloc>,
) -> Result<[Refused; 6], Fault> {
    let mut port = WorldPort::new(shared.clone()?, Proc::new(1));
    let refused = refused_in_turn(shared, &mut port, calls);
    drop(port);
    refused
}

/// Returns these refusals at the first of three nodes.
fn refused_by_three<O: Object>(alloc: O::Alloc) -> Result<[Refused; 6], Fault> {
    let calls = Calls {
        long: numbered_0(alloc, &[0; 1025])?,
        none: numbered_0(alloc, add().as_slice())?,
        first: Call::new(alloc, 7, 1, add().as_slice())?,
    };
    let shared = three::<O>(alloc)?;
    let refused = refused_at_first(&shared, &calls);
    drop(shared);
    refused
}

#[test]
fn a_submit_is_refused_for_its_first_reason(rt: HostRuntime) -> Result<(), Fail> {
    let reasons = [
        (Some(Fault::NotMember), Some(1)),
        (Some(Fault::OpTooLong), Some(3)),
        (Some(Fault::NumberGap), Some(6)),
        (Some(Fault::NoAnswer), Some(14)),
        (Some(Fault::PendingFull), Some(2)),
        (Some(Fault::Stopped), Some(8)),
    ];
    let heap = RefusingHeap::new(rt.alloc(), u64::MAX);
    assert!(rt; refused_by_three::<Counters<&RefusingHeap>>(&heap)? == reasons);
    Ok(())
}

/// Returns the number of the world's events.
fn events<O: Object>(shared: &SharedNetwork<O>) -> Result<usize, Fault> {
    let Ok(network) = shared.try_borrow() else {
        return Err(Fault::NoAnswer);
    };
    Ok(network.world().events().len())
}

/// Submits the call twice. Returns the refusal of the first submit, and the number of events after each.
fn refused_once<O: Object>(
    shared: &SharedNetwork<O>,
    port: &mut WorldPort<O>,
    call: &Call<O::Alloc>,
) -> Result<(Refused, usize, usize), Fault> {
    let refused = refused(port, call);
    let before = events(shared)?;
    submit_often(port, call, 1)?;
    Ok((refused, before, events(shared)?))
}

/// Does this at the first node.
fn refused_once_at_first<O: Object>(
    shared: &SharedNetwork<O>,
    call: &Call<O::Alloc>,
) -> Result<(Refused, usize, usize), Fault> {
    let mut port = WorldPort::new(shared.clone()?, Proc::new(1));
    let refused = refused_once(shared, &mut port, call);
    drop(port);
    refused
}

/// Does this with a call whose memory is used up once the call is made.
fn submitted_from_full_memory<O: Object>(
    heap: O::Alloc,
    ample: O::Alloc,
) -> Result<(Refused, usize, usize), Fault> {
    let call = Call::new(heap, 7, 1, add().as_slice())?;
    let shared = three::<O>(ample)?;
    let refused = refused_once_at_first(&shared, &call);
    drop(shared);
    refused
}

/// Making a call takes two requests for memory; the copy that a submit passes on takes none.
#[test]
fn a_submitted_copy_takes_no_memory(rt: HostRuntime) -> Result<(), Fail> {
    let ample = RefusingHeap::new(rt.alloc(), u64::MAX);
    let heap = RefusingHeap::new(rt.alloc(), 2);
    let none = (None, None);
    assert!(rt;
        submitted_from_full_memory::<Counters<&RefusingHeap>>(&heap, &ample)? == (none, 1, 2)
    );
    Ok(())
}
