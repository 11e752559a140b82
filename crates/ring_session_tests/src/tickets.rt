//! Answers to tickets: to the 64 that a node may have unanswered, and to two more.
//! Rules: The replicated log 13 to 15

use ring_base::Fault;
use ring_object::Object;
use ring_payload::Call;
use ring_session::{PendingTicket, Sessions, Ticket, Tickets, answers_of};
use ring_things::Counters;
use std::alloc::Allocator;

/// Client 7's call with this number.
fn call<A: Allocator + Copy>(alloc: A, number: u64) -> Result<Call<A>, Fault> {
    Call::new(alloc, 7, number, Counters::add(0, 1).as_slice())
}

fn calls<A: Allocator + Copy>(alloc: A, numbers: &[u64]) -> Result<Vec<Call<A>, A>, Fault> {
    let mut calls = Vec::new(alloc);
    for number in numbers {
        calls.push(call(alloc, *number)?)?;
    }
    Ok(calls)
}

/// Gives tickets to the calls 1 to 64; then adds two pending tickets past the limit, 65 and 66, to the calls of these numbers.
fn push_66<A: Allocator + Copy + Drop>(
    alloc: A,
    tickets: &mut Tickets<A>,
    pending: &mut Vec<PendingTicket<A>, A>,
) -> Result<(), Fault> {
    for number in 1..65 {
        tickets.check()?;
        let call = call(alloc, number)?;
        tickets.give_ticket(call);
    }
    pending.extend_from_slice(tickets.pending())?;
    for number in 65..67 {
        let call = call(alloc, number)?;
        let ticket = Ticket::new(number);
        pending.push(PendingTicket { ticket, call })?;
    }
    Ok(())
}

/// `push_66` for a new node.
fn pending<A: Allocator + Copy + Drop>(alloc: A) -> Result<Vec<PendingTicket<A>, A>, Fault> {
    let mut tickets = Tickets::new(alloc)?;
    let mut pending = Vec::new(alloc);
    push_66(alloc, &mut tickets, &mut pending)?;
    Ok(pending)
}

/// The number of tickets answered, the first of them, and the number of calls that took effect, as these calls are committed.
fn ticket_outcomes<O: Object>(
    alloc: O::Alloc,
    sessions: &mut Sessions<O>,
    pending: &[PendingTicket<O::Alloc>],
    calls: &[Call<O::Alloc>],
) -> Result<(usize, Option<u64>, u64), Fault> {
    let (answers, effects) = answers_of(alloc, sessions, pending, calls)?;
    let first = match answers.first() {
        Some(ticket_outcomes) => Some(ticket_outcomes.ticket.number()),
        None => None,
    };
    Ok((answers.len(), first, effects))
}

/// `ticket_outcomes` for these tickets and new sessions, as four calls are committed.
fn outcomes_of_four<O: Object>(
    alloc: O::Alloc,
    pending: &[PendingTicket<O::Alloc>],
) -> Result<(usize, Option<u64>, u64), Fault> {
    let calls = calls(alloc, &[66, 1, 66, 64])?;
    let mut sessions = Sessions::<O>::new(alloc)?;
    ticket_outcomes(alloc, &mut sessions, pending, calls.as_slice())
}

/// Checks that these commits answer three of 66 tickets, else `Conflict`.
pub fn answer_three<O: Object>(alloc: O::Alloc) -> Result<(), Fault> {
    let pending = pending(alloc)?;
    match outcomes_of_four::<O>(alloc, pending.as_slice()) {
        Ok((3, Some(66), 1)) => Ok(()),
        Ok(_) => Err(Fault::Conflict),
        Err(fault) => Err(fault),
    }
}
