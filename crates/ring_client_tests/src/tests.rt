//! Worked runs over scripted ports.
//! Rules: Clients 2 to 7

use crate::asked::{Told, tell};
use crate::scripted::{Behaviour, Scripted, client_of};
use ring_base::Fault;
use ring_client::{Asked, Client, Op, Port};
use ring_object::Reply;
use ring_payload::{Call, CallOperation};
use ring_session::Answer;
use std::alloc::Allocator;
use std::test::Fail;

/// Returns the reply of this byte.
fn reply(byte: u8) -> Reply {
    Reply::from_slice(&[byte])
}

/// Returns the behaviour of a port that answers at the first poll.
fn answers_at_once() -> Behaviour {
    Behaviour::AnswersAfter(0, Answer::Done(reply(1)))
}

/// An action of a client.
#[derive(Clone, Copy)]
enum ClientAct {
    Call(&'static [u8]),
    Again,
    /// A call that is tried again up to this number of times.
    UntilAnswered(&'static [u8], u64),
}

/// Does the action, and returns the reply or the refusal.
fn done<P: Port>(client: &mut Client<P>, deed: ClientAct) -> Result<Reply, Fault> {
    match deed {
        ClientAct::Call(op) => client.call(op),
        ClientAct::Again => client.again(),
        ClientAct::UntilAnswered(op, limit) => client.until_answered(op, limit),
    }
}

/// A step of a run: an action of a client, or a check of its state.
#[derive(Clone, Copy)]
enum Step<'a> {
    /// An action, the byte of its reply or its refusal, and the next number and whether a call is open afterwards.
    Does(ClientAct, Result<u8, Fault>, u64, bool),
    /// The next number.
    Next(u64),
    /// The last submits of its ports.
    Tell(&'a [Told]),
    /// The numbers of the calls that were submitted at each of its ports, in order; all are client 7's.
    Submitted(&'a [&'a [u64]]),
    /// The operation of the last submit at each of its ports.
    Handed(&'a [u8]),
}

/// Returns whether the action has this result and this effect on the client.
fn does<P: Port>(
    client: &mut Client<P>,
    deed: ClientAct,
    want: Result<u8, Fault>,
    number: u64,
    is_open: bool,
) -> bool {
    let is_done = done(client, deed) == want.map(reply);
    is_done && client.next_number() == Some(number) && client.is_open() == is_open
}

/// Returns whether these are client 7's calls of these numbers.
fn are_calls(calls: &[(u32, u64)], numbers: &[u64]) -> bool {
    let mut are = calls.len() == numbers.len();
    for (call, number) in calls.iter().zip(numbers) {
        are = are && *call == (7, *number);
    }
    are
}

/// Returns whether exactly these calls were submitted at the ports.
fn were_submitted<A: Allocator + Copy + Drop>(
    client: &Client<Scripted<A>>,
    want: &[&[u64]],
) -> bool {
    let mut were = client.ports().len() == want.len();
    for (port, numbers) in client.ports().iter().zip(want) {
        were = were && are_calls(port.submits.as_slice(), numbers);
    }
    were
}

/// Returns whether each port was given this operation last.
fn have_operation<P: Port>(client: &Client<P>, op: &[u8]) -> bool {
    let mut have = true;
    for port in client.ports() {
        have = have && port.asked().op.as_slice() == op;
    }
    have
}

/// Returns whether this step holds.
fn is_so<A: Allocator + Copy + Drop>(client: &mut Client<Scripted<A>>, step: Step<'_>) -> bool {
    match step {
        Step::Does(deed, want, number, is_open) => does(client, deed, want, number, is_open),
        Step::Next(number) => client.next_number() == Some(number),
        Step::Tell(want) => tell(client, want),
        Step::Submitted(want) => were_submitted(client, want),
        Step::Handed(op) => have_operation(client, op),
    }
}

/// Returns whether all these steps hold, one after another.
fn are_so<A: Allocator + Copy + Drop>(
    client: &mut Client<Scripted<A>>,
    steps: &[Step<'_>],
) -> bool {
    let mut are = true;
    for step in steps {
        are = are && is_so(client, *step);
    }
    are
}

/// Returns whether these steps hold for client 7 over these ports with ample memory. It polls each at most `turns` times a
/// call.
fn runs<A: Allocator + Copy + Drop>(
    alloc: A,
    ports: &[Behaviour],
    turns: u64,
    steps: &[Step<'_>],
) -> Result<bool, Fault> {
    let mut client = client_of(alloc, alloc, ports, turns)?;
    let are_so = are_so(&mut client, steps);
    drop(client);
    Ok(are_so)
}

/// The first port refuses, and the second answers at the third poll. The next call has number 2.
#[test]
fn a_refused_submit_is_passed_over(rt: HostRuntime) -> Result<(), Fail> {
    let five = Answer::Done(reply(5));
    let ports = [
        Behaviour::Refuses(Fault::Stopped),
        Behaviour::AnswersAfter(2, five),
    ];
    let told = [(1, Some(8), 0, None), (1, None, 3, Some(five))];
    let steps = [
        Step::Does(ClientAct::Call(b"a"), Ok(5), 2, false),
        Step::Tell(&told),
        Step::Does(ClientAct::Call(b"b"), Ok(5), 3, false),
        Step::Submitted(&[&[], &[1, 2]]),
    ];
    assert!(rt; runs(rt.alloc(), &ports, 3, &steps)?);
    Ok(())
}

/// Two ports that never answer are polled three times each. Then the call is open: another is refused at once, and `again`
/// submits the same call again.
#[test]
fn an_unanswered_call_stays_open(rt: HostRuntime) -> Result<(), Fail> {
    let ports = [Behaviour::IsSilent, Behaviour::IsSilent];
    let unanswered = Err(Fault::NoAnswer);
    let steps = [
        Step::Does(ClientAct::Call(b"a"), unanswered, 1, true),
        Step::Tell(&[(1, None, 3, None), (1, None, 3, None)]),
        Step::Does(ClientAct::Call(b"b"), unanswered, 1, true),
        Step::Submitted(&[&[1], &[1]]),
        Step::Does(ClientAct::Again, unanswered, 1, true),
        Step::Submitted(&[&[1, 1], &[1, 1]]),
        Step::Handed(b"a"),
    ];
    assert!(rt; runs(rt.alloc(), &ports, 3, &steps)?);
    Ok(())
}

/// A call that is tried until it is answered is submitted once, and then once for each further try.
#[test]
fn a_call_is_tried_anew_so_often(rt: HostRuntime) -> Result<(), Fail> {
    let steps = [
        Step::Does(
            ClientAct::UntilAnswered(b"a", 2),
            Err(Fault::NoAnswer),
            1,
            true,
        ),
        Step::Submitted(&[&[1, 1, 1]]),
    ];
    assert!(rt; runs(rt.alloc(), &[Behaviour::IsSilent], 1, &steps)?);
    Ok(())
}

/// Returns whether the third of four ports answers the call of this number.
fn third_answers<A: Allocator + Copy + Drop>(
    client: &mut Client<Scripted<A>>,
    number: u64,
) -> bool {
    let nine = Answer::Kept(reply(9));
    let told = [
        (number, Some(2), 0, None),
        (number, None, 4, None),
        (number, None, 1, Some(nine)),
        (0, None, 0, None),
    ];
    let steps = [
        Step::Next(number),
        Step::Does(ClientAct::Call(&[]), Ok(9), number.saturating_add(1), false),
        Step::Tell(&told),
    ];
    are_so(client, &steps)
}

/// Returns whether this holds for three calls, one after another.
fn third_answers_thrice<A: Allocator + Copy + Drop>(client: &mut Client<Scripted<A>>) -> bool {
    let mut are = true;
    for number in 1..4u64 {
        are = are && third_answers(client, number);
    }
    are
}

/// Returns whether this holds for three calls of a client, and each was submitted once at each port before the fourth that
/// doesn't refuse.
fn asks_each_once<A: Allocator + Copy + Drop>(alloc: A) -> Result<bool, Fault> {
    let ports = [
        Behaviour::Refuses(Fault::PendingFull),
        Behaviour::IsSilent,
        Behaviour::AnswersAfter(0, Answer::Kept(reply(9))),
        Behaviour::IsSilent,
    ];
    let mut client = client_of(alloc, alloc, &ports, 4)?;
    let want: [&[u64]; 4] = [&[], &[1, 2, 3], &[1, 2, 3], &[]];
    let answers = third_answers_thrice(&mut client) && were_submitted(&client, &want);
    drop(client);
    Ok(answers)
}

/// A refusing, a silent and an answering port, and one after them that isn't asked.
#[test]
fn each_port_is_asked_once_a_call(rt: HostRuntime) -> Result<(), Fail> {
    assert!(rt; asks_each_once(rt.alloc())?);
    Ok(())
}

/// Returns whether a call is closed where the first of two ports answers with this refusal, twice.
fn is_closed<A: Allocator + Copy + Drop>(
    alloc: A,
    number: u8,
    fault: Fault,
) -> Result<bool, Fault> {
    let ports = [
        Behaviour::AnswersAfter(0, Answer::Refused(number)),
        Behaviour::IsSilent,
    ];
    let steps = [
        Step::Does(ClientAct::Call(b"a"), Err(fault), 1, false),
        Step::Does(ClientAct::Again, Err(Fault::NoAnswer), 1, false),
        Step::Does(ClientAct::Call(b"a"), Err(fault), 1, false),
        Step::Does(ClientAct::Again, Err(Fault::NoAnswer), 1, false),
        Step::Submitted(&[&[1, 1], &[]]),
    ];
    runs(alloc, &ports, 1, &steps)
}

/// A refusal in an answer closes the call. The next call has the same number.
#[test]
fn a_told_refusal_closes_the_call(rt: HostRuntime) -> Result<(), Fail> {
    for (number, fault) in [
        (4, Fault::Conflict),
        (5, Fault::Stale),
        (6, Fault::NumberGap),
        (7, Fault::SessionsFull),
    ] {
        assert!(rt; is_closed(rt.alloc(), number, fault)?, "{number}");
    }
    Ok(())
}

/// There is no port, and no open call.
#[test]
fn no_port_is_asked(rt: HostRuntime) -> Result<(), Fail> {
    let steps = [
        Step::Does(ClientAct::Again, Err(Fault::NoAnswer), 1, false),
        Step::Does(ClientAct::Call(b"a"), Err(Fault::NoAnswer), 1, true),
        Step::Does(ClientAct::Again, Err(Fault::NoAnswer), 1, true),
    ];
    assert!(rt; runs(rt.alloc(), &[], 3, &steps)?);
    Ok(())
}

/// The client polls no port.
#[test]
fn a_port_is_not_polled(rt: HostRuntime) -> Result<(), Fail> {
    let steps = [
        Step::Does(ClientAct::Again, Err(Fault::NoAnswer), 1, false),
        Step::Submitted(&[&[]]),
        Step::Does(ClientAct::Call(b"a"), Err(Fault::NoAnswer), 1, true),
        Step::Tell(&[(1, None, 0, None)]),
    ];
    assert!(rt; runs(rt.alloc(), &[answers_at_once()], 0, &steps)?);
    Ok(())
}

#[test]
fn an_operation_has_at_most_1024_bytes(rt: HostRuntime) -> Result<(), Fail> {
    let steps = [
        Step::Does(ClientAct::Call(&[7; 1025]), Err(Fault::OpTooLong), 1, false),
        Step::Submitted(&[&[]]),
        Step::Does(ClientAct::Call(&[7; 1024]), Ok(1), 2, false),
        Step::Submitted(&[&[1]]),
    ];
    assert!(rt; runs(rt.alloc(), &[answers_at_once()], 1, &steps)?);
    Ok(())
}

/// Returns the record of a submitted call of this operation.
fn noted<A: Allocator + Copy>(alloc: A, op: &[u8]) -> Result<Asked, Fault> {
    let mut asked = Asked::new();
    let call = Call {
        client: 7,
        number: 1,
        op: CallOperation::from_slice(alloc, op)?,
    };
    asked.note_submit(&call);
    Ok(asked)
}

/// Returns the number of recorded polls after each of two more.
fn noted_polls(asked: &mut Asked) -> (u64, u64) {
    asked.note_poll(None);
    let first = asked.polls;
    asked.note_poll(None);
    (first, asked.polls)
}

/// The record of a call whose operation is too long, and of more polls than can be counted.
#[test]
fn what_asked_has_no_room_for(rt: HostRuntime) -> Result<(), Fail> {
    let mut asked = noted(rt.alloc(), &[3; 2000])?;
    assert!(rt; asked.op == Op::from_slice(&[3; 1024]));
    asked.polls = u64::MAX - 1;
    assert!(rt; noted_polls(&mut asked) == (u64::MAX, u64::MAX));
    Ok(())
}
