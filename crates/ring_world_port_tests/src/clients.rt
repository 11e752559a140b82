//! Worked runs of a client over three nodes of one world.
//! Rules: Clients 3 to 6 and 8; The replicated log 10

use crate::shared::{add, client_of, counted, cut, everybody, order_len, read, run_event, three};
use refusing_alloc::RefusingHeap;
use ring_base::{Fault, Kind, Proc, ProcSet, pair_result};
use ring_client::{Client, Port};
use ring_object::{Object, Reply};
use ring_things::Counters;
use ring_world_port::{Event, SharedNetwork, WorldPort};
use std::test::Fail;

/// A port's last submit: its number, its refusal, and the number of polls since.
type Told = (u64, Option<u8>, u64);

/// Returns the last submit of the port at this index.
fn told<P: Port>(client: &Client<P>, place: usize) -> Option<Told> {
    let port = client.ports().get(place)?;
    let asked = port.asked();
    Some((asked.number, asked.refused, asked.polls))
}

/// The outcome of a call: the reply or refusal, the next number, whether a call is then open, and the last submits of the
/// first three ports.
#[derive(Clone, Copy)]
struct ClientSeen {
    reply: Result<Reply, Fault>,
    number: Option<u64>,
    is_open: bool,
    told: [Option<Told>; 3],
}

/// Makes a call of this operation, or tries the open call again if there is none, and returns its outcome.
fn seen_of<P: Port>(client: &mut Client<P>, op: Option<&[u8]>) -> ClientSeen {
    let reply = match op {
        Some(op) => client.call(op),
        None => client.again(),
    };
    ClientSeen {
        reply,
        number: client.next_number(),
        is_open: client.is_open(),
        told: [told(client, 0), told(client, 1), told(client, 2)],
    }
}

/// Does this over ports to a world.
fn seen<O: Object>(client: &mut Client<WorldPort<O>>, op: Option<&[u8]>) -> ClientSeen {
    seen_of(client, op)
}

/// Makes a call that adds, and returns its outcome.
fn added<O: Object>(client: &mut Client<WorldPort<O>>) -> ClientSeen {
    seen(client, Some(add().as_slice()))
}

/// Makes a call that reads, and returns its outcome.
fn counter<O: Object>(client: &mut Client<WorldPort<O>>) -> ClientSeen {
    seen(client, Some(read().as_slice()))
}

/// Returns whether the reply is that the counter is at 5.
fn is_five(seen: &ClientSeen) -> bool {
    seen.reply == Ok(counted(5))
}

/// Makes a client of three nodes, of which those of `group` hear each other. It polls each port at most `polls` times.
fn client_in<O: Object>(
    alloc: O::Alloc,
    shared: &SharedNetwork<O>,
    group: ProcSet,
    polls: u64,
) -> Result<Client<WorldPort<O>>, Fault> {
    cut(shared, group)?;
    client_of(alloc, shared, polls)
}

/// Makes three nodes, of which those of `group` hear each other, and a client that polls each port at most `polls` times.
fn opened<O: Object>(
    alloc: O::Alloc,
    group: ProcSet,
    polls: u64,
) -> Result<(SharedNetwork<O>, Client<WorldPort<O>>), Fault> {
    let shared = three::<O>(alloc)?;
    let client = client_in(alloc, &shared, group, polls);
    pair_result(shared, client)
}

/// Returns whether a call gets no answer and stays open, after each node was polled in vain. While a call is open, another
/// is refused at once, without a submit.
fn stays_open<O: Object>(client: &mut Client<WorldPort<O>>) -> bool {
    let seen = added(client);
    let in_vain = Some((1, None, 300));
    seen.reply == Err(Fault::NoAnswer) && seen.is_open && seen.told == [in_vain, in_vain, None]
}

/// Returns whether the call stays open twice, and is answered once all nodes hear each other. The counter has it once,
/// though two nodes waited for it.
fn is_answered_later<O: Object>(
    client: &mut Client<WorldPort<O>>,
    shared: &SharedNetwork<O>,
) -> Result<bool, Fault> {
    let stays = stays_open(client) && stays_open(client);
    cut(shared, everybody()?)?;
    let again = seen(client, None);
    let is_answered = is_five(&again) && again.number == Some(2);
    Ok(stays && is_answered && is_five(&counter(client)) && order_len(shared)? == 2)
}

/// Returns whether a stopped node refuses the submit and isn't polled, and the others, which are a majority, answer.
fn is_passed_over<O: Object>(
    client: &mut Client<WorldPort<O>>,
    shared: &SharedNetwork<O>,
) -> Result<bool, Fault> {
    run_event(shared, Event::Stop(Proc::new(1)))?;
    let first = added(client);
    let second = counter(client);
    let is_refused = second.told[0] == Some((2, Some(8), 0));
    Ok(is_five(&first) && is_five(&second) && is_refused && order_len(shared)? == 2)
}

/// Returns the number of calls that the node of this number has committed, duplicates included.
fn committed<O: Object>(shared: &SharedNetwork<O>, number: u8) -> Result<usize, Fault> {
    let Ok(network) = shared.try_borrow() else {
        return Err(Fault::NoAnswer);
    };
    let world = network.world();
    let node = world.fixed().proc(number)?;
    Ok(world.node(node).committed().len())
}

/// Returns whether the second node answers the call after the first was polled in vain. Then the first node hears the
/// others again, commits the call as they have it, and doesn't send its own try. By the rules of the replicated log, a
/// call that is in the base already isn't queued.
fn counts_once<O: Object>(
    client: &mut Client<WorldPort<O>>,
    shared: &SharedNetwork<O>,
) -> Result<bool, Fault> {
    let by_second = added(client);
    let is_in_vain = by_second.told[0] == Some((1, None, 200));
    let is_answered = is_five(&by_second) && is_in_vain && order_len(shared)? == 1;
    cut(shared, everybody()?)?;
    run_event(shared, Event::Timeout(Proc::new(1), Kind::Join))?;
    let seen = counter(client);
    let is_by_first = matches!(seen.told[0], Some((2, None, polls)) if polls < 200);
    let is_sent_once = is_five(&seen) && is_by_first && committed(shared, 1)? == 2;
    Ok(is_answered && is_sent_once && order_len(shared)? == 2)
}

/// What happens to the nodes that a client tries.
#[derive(Clone, Copy)]
enum ClientStory {
    /// No node hears another until the call was tried twice.
    NobodyHears,
    /// The first node stops.
    FirstStops,
    /// The first node is cut off from the others until the second answered.
    FirstIsCutOff,
}

impl ClientStory {
    /// Returns which nodes hear each other at first, and the most polls of each port for one call.
    fn opening(self) -> Result<(ProcSet, u64), Fault> {
        match self {
            ClientStory::NobodyHears => Ok((ProcSet::new(), 300)),
            ClientStory::FirstStops => Ok((everybody()?, 400)),
            ClientStory::FirstIsCutOff => Ok((
                everybody()?.without_members(ProcSet::singleton(Proc::new(1))),
                200,
            )),
        }
    }
}

/// Returns whether the client's calls have the outcomes that they should.
fn goes_well<O: Object>(
    client: &mut Client<WorldPort<O>>,
    shared: &SharedNetwork<O>,
    story: ClientStory,
) -> Result<bool, Fault> {
    match story {
        ClientStory::NobodyHears => is_answered_later(client, shared),
        ClientStory::FirstStops => is_passed_over(client, shared),
        ClientStory::FirstIsCutOff => counts_once(client, shared),
    }
}

/// Returns this for a new client of three nodes.
fn goes_well_anew<O: Object>(alloc: O::Alloc, story: ClientStory) -> Result<bool, Fault> {
    let (group, polls) = story.opening()?;
    let (shared, mut client) = opened::<O>(alloc, group, polls)?;
    let goes_well = goes_well(&mut client, &shared, story);
    drop(client);
    drop(shared);
    goes_well
}

#[test]
fn an_open_call_is_answered_once_all_hear_each_other(rt: HostRuntime) -> Result<(), Fail> {
    let heap = RefusingHeap::new(rt.alloc(), u64::MAX);
    assert!(rt; goes_well_anew::<Counters<&RefusingHeap>>(&heap, ClientStory::NobodyHears)?);
    Ok(())
}

#[test]
fn a_stopped_node_is_passed_over(rt: HostRuntime) -> Result<(), Fail> {
    let heap = RefusingHeap::new(rt.alloc(), u64::MAX);
    assert!(rt; goes_well_anew::<Counters<&RefusingHeap>>(&heap, ClientStory::FirstStops)?);
    Ok(())
}

#[test]
fn a_call_that_two_nodes_took_counts_once(rt: HostRuntime) -> Result<(), Fail> {
    let heap = RefusingHeap::new(rt.alloc(), u64::MAX);
    assert!(rt; goes_well_anew::<Counters<&RefusingHeap>>(&heap, ClientStory::FirstIsCutOff)?);
    Ok(())
}
