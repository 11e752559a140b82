//! The tickets of a node, and the answers that committed calls give to them.
//!
//! Rules: The replicated log 13 to 15

ghost use Rattle.std.specs.Prelude.{◌≡◌, ◌≤◌, ◌<◌, List, [], ◌∷◌, ◌++◌, fold, true, false, not, IfOk, IfErr, OnOk, length};
ghost use Rattle.std.specs.Vec.{vec_capacity};
ghost use Rattle.ring_base.specs.declared.fault.Fault.TheVariants.{Memory, PendingFull};
ghost use Rattle.ring_payload.specs.declared.call.Call.{Call as OneCall};
ghost use Rattle.ring_session.specs.Buckets.{AreChained, AreCommitted};
ghost use Rattle.ring_session.specs.SessionAnswer.{is_done, is_same};
ghost use Rattle.ring_session.specs.Table.{table_next};
ghost use Rattle.ring_session.specs.RecentAnswers.{recent_answer_to};
ghost use Rattle.ring_session.specs.TicketEffects.{done_after};
ghost use Rattle.ring_session.specs.TicketsState.{no_tickets, may_give_no_ticket, with_ticket, contains_call, answers_to, answers_after_committed, unanswered_by, with_answers};

use crate::buckets::{Buckets, CommittedFlags};
use crate::pending_ticket::PendingTicket;
use crate::recent_answers::RecentAnswers;
use crate::ticket::Ticket;
use crate::ticket_answer::TicketAnswer;
use crate::{Answer, MAX_UNANSWERED, Sessions};
use ring_base::{Fault, MAX};
use ring_object::Object;
use ring_payload::Call;
use std::alloc::{AllocError, Allocator, Global};
use std::marker::Model;

/// The tickets of a node: the number of tickets given, the unanswered tickets, and the answers given last.
///
/// Memory for [`MAX_UNANSWERED`] unanswered tickets and [`KEPT_ANSWERS`] answers is allocated when the value is
/// created. Contracts see the three parts.
///
/// Rules: The replicated log 13 to 15
#[derive(Drop)]
pub struct Tickets<A: Allocator + Copy + Drop = Global> {
    given: u64,
    pending: Vec<PendingTicket<A>, A>,
    recent: RecentAnswers<A>,
}

impl<A: Allocator + Copy + Drop> Model for Tickets<A> {
    ghost use Rattle.std.specs.Prelude.{◌≤◌, length};
    ghost use Rattle.std.specs.Vec.{vec_capacity};
    ghost use Rattle.ring_base.specs.Numbers.{max_number};
    ghost use Rattle.ring_session.specs.TicketsState.{Tickets as TicketsState};

    ghost Value = { TicketsState A };

    ghost view = { λ t. record { given = t.given; pending = t.pending.items; kept = t.recent } };

    ghost invariant = { λ t. (length t.pending.items ≤ 64) × (64 ≤ vec_capacity t.pending) × (t.given ≤ max_number) };
}

/// A copy also has memory for [`MAX_UNANSWERED`] unanswered tickets and [`KEPT_ANSWERS`] answers.
impl<A: Allocator + Copy + Drop> Clone for Tickets<A> {
    ghost is_clone = { λ tickets copy. copy ≡ tickets };

    fn clone(&self) -> Result<Tickets<A>, AllocError> {
        let mut pending: Vec<PendingTicket<A>, A> = Vec::with_capacity(
            *self.pending.allocator(),
            MAX_UNANSWERED,
        )?;
        pending.extend_from_slice(self.pending.as_slice())?;
        Ok(Tickets {
            given: self.given,
            pending,
            recent: self.recent.clone()?,
        })
    }
}

impl<A: Allocator + Copy + Drop> Tickets<A> {
    /// Returns the tickets of a node that has given none.
    ///
    /// Errors: `Memory` if an allocation fails.
    ///
    /// Rules: The replicated log 13
    pub fn new(alloc: A) -> Result<Tickets<A>, Fault>
        ensures ok { IfOk result (λ tickets. tickets ≡ no_tickets) }
        ensures refused { IfErr result (λ fault. fault ≡ Memory) }
    {
        Ok(Tickets {
            given: 0,
            pending: Vec::with_capacity(alloc, MAX_UNANSWERED)?,
            recent: RecentAnswers::new(alloc)?,
        })
    }

    /// Checks whether the node may give a ticket now.
    ///
    /// Errors: `PendingFull` if 64 tickets are unanswered, or `MAX` tickets have been given.
    ///
    /// Rules: The replicated log 13
    pub fn check(&self) -> Result<(), Fault>
        ensures ok { OnOk result (may_give_no_ticket self.now ≡ false) }
        ensures full { IfErr result (λ fault. may_give_no_ticket self.now ≡ true) }
        ensures refused { IfErr result (λ fault. fault ≡ PendingFull) }
    {
        if MAX_UNANSWERED <= self.pending.len() || MAX <= self.given {
            return Err(Fault::PendingFull);
        }
        Ok(())
    }

    /// Gives the next ticket for `call` and returns it; the ticket is unanswered.
    ///
    /// [`check`](Tickets::check) must succeed. Does not allocate.
    ///
    /// Rules: The replicated log 13
    pub fn give_ticket(&mut self, call: Call<A>) -> Ticket
        requires { may_give_no_ticket self.old ≡ false }
        ensures ticket { result ≡ self.old.given }
        ensures tickets { self.new ≡ with_ticket self.old call }
    {
        let ticket = Ticket::new(self.given);
        self.pending.push_reserved(PendingTicket { ticket, call });
        self.given += 1;
        ticket
    }

    /// Returns the unanswered tickets with their calls, at most 64, in the order in which they were given.
    ///
    /// Rules: The replicated log 13
    pub fn pending(&self) -> &[PendingTicket<A>]
        ensures { result.now ≡ self.now.pending }
    {
        self.pending.as_slice()
    }

    /// Records that the calls `committed` were done, and that the node gave `answers`, in this order.
    ///
    /// The tickets of these calls are answered from now on. Does not allocate.
    ///
    /// Rules: The replicated log 14 and 15
    pub fn record_committed_answers(&mut self, committed: &[Call<A>], answers: &[TicketAnswer<A>])
        ensures { self.new ≡ with_answers self.old committed.now answers.now }
    {
        remove_committed(&mut self.pending, committed);
        self.recent.append_answers(answers);
    }

    /// Returns the answer to `ticket` if it is among the 64 tickets answered last, otherwise `None`.
    ///
    /// Rules: The replicated log 15
    pub fn reply(&self, ticket: Ticket) -> Option<Answer>
        ensures { result ≡ recent_answer_to ticket self.now.kept }
    {
        self.recent.answer_to(ticket)
    }
}

/// Returns whether the two calls are the same: in number, client and operation.
///
/// The pending calls of a node differ nearly all by their number, so it is compared first, inline.
#[inline(always)]
fn is_same_call_by_number<A: Allocator + Copy>(call: &Call<A>, other: &Call<A>) -> bool
    ensures { result ≡ is_same call.now other.now }
{
    other.number == call.number && call.equals_call(other)
}

/// Returns a copy of the call.
///
/// The two share the bytes of the operation.
///
/// Errors: `AllocError` if an allocation fails.
pub fn copy_of<A: Allocator + Copy>(call: &Call<A>) -> Result<Call<A>, AllocError>
    ensures { IfOk result (λ copy. copy ≡ call.now) }
{
    call.clone()
}

/// Returns whether the answer is `Done`.
fn is_done_answer(answer: &Answer) -> bool
    ensures { result ≡ is_done answer.now }
{
    matches!(answer, Answer::Done(_))
}

/// Removes the tickets whose calls were committed.
fn remove_committed<A: Allocator + Copy + Drop>(
    pending: &mut Vec<PendingTicket<A>, A>,
    committed: &[Call<A>],
)
    requires { length pending.old.items ≤ 64 }
    ensures items { pending.new.items ≡ unanswered_by committed.now pending.old.items }
    ensures few { length pending.new.items ≤ length pending.old.items }
    ensures capacity { vec_capacity pending.new ≡ vec_capacity pending.old }
{
    if committed.is_empty() || pending.is_empty() {
        return;
    }
    remove_committed_some(pending, committed);
}

/// Does the same as `remove_committed`, for nonempty lists of calls and of tickets.
///
/// A separate function keeps the large stack slot for the tickets' positions out of its caller.
#[inline(never)]
fn remove_committed_some<A: Allocator + Copy + Drop>(
    pending: &mut Vec<PendingTicket<A>, A>,
    committed: &[Call<A>],
)
    requires { length pending.old.items ≤ 64 }
    ensures items { pending.new.items ≡ unanswered_by committed.now pending.old.items }
    ensures few { length pending.new.items ≤ length pending.old.items }
    ensures capacity { vec_capacity pending.new ≡ vec_capacity pending.old }
{
    let committed_flags = committed_among(pending.as_slice(), committed);
    let mut kept = 0;
    for place in 0..pending.len() {
        if !committed_flags.is_marked(place) {
            pending.swap(kept, place);
            kept += 1;
        }
    }
    pending.truncate(kept);
}

/// Returns the flags of the tickets whose calls are among the committed calls.
fn committed_among<A: Allocator + Copy>(
    pending: &[PendingTicket<A>],
    committed: &[Call<A>],
) -> CommittedFlags
    requires { length pending.now ≤ 64 }
    ensures { AreCommitted result.committed_marks committed.now pending.now }
{
    let buckets = Buckets::of_tickets(pending);
    let mut committed_flags = CommittedFlags::new();
    for call in committed {
        mark_committed(&buckets, &mut committed_flags, pending, call);
    }
    committed_flags
}

/// Marks the tickets of one committed call.
fn mark_committed<A: Allocator + Copy>(
    buckets: &Buckets,
    committed_flags: &mut CommittedFlags,
    pending: &[PendingTicket<A>],
    call: &Call<A>,
)
    requires few { length pending.now ≤ 64 }
    requires chained { AreChained buckets.now.first buckets.now.next 0 pending.now }
    ensures { (before : List (OneCall A)) → AreCommitted committed_flags.old.committed_marks before pending.now
        → AreCommitted committed_flags.new.committed_marks (before ++ call.now ∷ []) pending.now }
{
    let mut place = buckets.first_of(call);
    while place < pending.len() {
        committed_flags.mark_if_same(place, is_same_call_by_number(&pending[place].call, call));
        place = buckets.next_of(place);
    }
}

/// Returns whether one of `calls` has the same client, number and operation as `call`.
///
/// Rules: The replicated log 14
pub fn contains_call<A: Allocator + Copy>(calls: &[Call<A>], call: &Call<A>) -> bool
    ensures { result ≡ contains_call calls.now call.now }
{
    calls
        .iter()
        .any(|other| is_same_call_by_number(call, other))
}

/// Appends the answers to the tickets of a committed call, and marks these tickets.
///
/// Tickets already marked get no answer.
///
/// Errors: `Memory` if an allocation fails.
fn append_bucketed_answers<A: Allocator + Copy + Drop>(
    buckets: &Buckets,
    committed_flags: &mut CommittedFlags,
    pending: &[PendingTicket<A>],
    call: &Call<A>,
    answer: Answer,
    answers: &mut Vec<TicketAnswer<A>, A>,
) -> Result<(), Fault>
    requires few { length pending.now ≤ 64 }
    requires chained { AreChained buckets.now.first buckets.now.next 0 pending.now }
    ensures answers { OnOk result ((before : List (OneCall A)) → AreCommitted committed_flags.old.committed_marks before pending.now
        → answers.new.items ≡ answers.old.items ++ answers_to before call.now answer pending.now) }
    ensures gone { OnOk result ((before : List (OneCall A)) → AreCommitted committed_flags.old.committed_marks before pending.now
        → AreCommitted committed_flags.new.committed_marks (before ++ call.now ∷ []) pending.now) }
    ensures refused { IfErr result (λ fault. fault ≡ Memory) }
{
    let mut place = buckets.first_of(call);
    while place < pending.len() {
        let pending_ticket = &pending[place];
        if committed_flags.mark_if_same(place, is_same_call_by_number(&pending_ticket.call, call)) {
            answers.push(answer_for_ticket(pending_ticket, answer)?)?;
        }
        place = buckets.next_of(place);
    }
    Ok(())
}

/// Appends the answers to the tickets of a committed call that are beyond the buckets' capacity.
///
/// It compares each of these tickets with the call. A ticket whose call is in `before` gets no answer.
///
/// Errors: `Memory` if an allocation fails.
fn append_unbucketed_answers<A: Allocator + Copy + Drop>(
    pending: &[PendingTicket<A>],
    before: &[Call<A>],
    call: &Call<A>,
    answer: Answer,
    answers: &mut Vec<TicketAnswer<A>, A>,
) -> Result<(), Fault>
    ensures answers { OnOk result (answers.new.items ≡ answers.old.items ++ answers_to before.now call.now answer pending.now) }
    ensures refused { IfErr result (λ fault. fault ≡ Memory) }
{
    for pending_ticket in pending {
        if is_same_call_by_number(&pending_ticket.call, call)
            && !contains_call(before, &pending_ticket.call)
        {
            answers.push(answer_for_ticket(pending_ticket, answer)?)?;
        }
    }
    Ok(())
}

/// Returns `answer` as the answer to the ticket `pending_ticket`, with a copy of its call.
///
/// Errors: `AllocError` if an allocation fails.
fn answer_for_ticket<A: Allocator + Copy + Drop>(
    pending_ticket: &PendingTicket<A>,
    answer: Answer,
) -> Result<TicketAnswer<A>, AllocError>
    ensures { IfOk result (λ told. told ≡ record { ticket = pending_ticket.now.ticket; call = pending_ticket.now.call; answer = answer }) }
{
    Ok(TicketAnswer {
        ticket: pending_ticket.ticket,
        call: copy_of(&pending_ticket.call)?,
        answer,
    })
}

/// Applies newly committed calls to the sessions, in order, and answers the pending tickets of these calls.
///
/// Returns the answers and the number of calls that took effect. The answers come in the order of the calls, then of
/// their tickets. Each ticket is answered once, by the first of these calls that has the same client, number and
/// operation.
///
/// Errors: `Memory` if an allocation fails; the sessions are then unspecified.
///
/// Rules: The replicated log 12 and 14
pub fn answers_of<O: Object>(
    alloc: O::Alloc,
    sessions: &mut Sessions<O>,
    pending: &[PendingTicket<O::Alloc>],
    committed: &[Call<O::Alloc>],
) -> Result<(Vec<TicketAnswer<O::Alloc>, O::Alloc>, u64), Fault>
    ensures table { OnOk result (sessions.new ≡ fold (table_next O.sequential) sessions.old committed.now) }
    ensures answers { IfOk result (λ given. given.0.items ≡ answers_after_committed O.sequential sessions.old pending.now [] committed.now) }
    ensures effects { IfOk result (λ given. given.1 ≡ done_after O.sequential sessions.old committed.now) }
    ensures refused { IfErr result (λ fault. fault ≡ Memory) }
{
    if committed.is_empty() {
        return Ok((Vec::new(alloc), 0));
    }
    if pending.is_empty() {
        return Ok((
            Vec::new(alloc),
            apply_and_count_effects(sessions, committed)?,
        ));
    }
    answers_of_pending(alloc, sessions, pending, committed)
}

/// Applies calls to the sessions, in order, and returns the number of calls that took effect.
///
/// Errors: `Memory` if an allocation fails.
fn apply_and_count_effects<O: Object>(
    sessions: &mut Sessions<O>,
    committed: &[Call<O::Alloc>],
) -> Result<u64, Fault>
    ensures table { OnOk result (sessions.new ≡ fold (table_next O.sequential) sessions.old committed.now) }
    ensures effects { IfOk result (λ effects. effects ≡ done_after O.sequential sessions.old committed.now) }
    ensures refused { IfErr result (λ fault. fault ≡ Memory) }
{
    let mut effects = 0;
    for call in committed {
        let answer = sessions.apply(call)?;
        if is_done_answer(&answer) {
            effects += 1;
        }
    }
    Ok(effects)
}

/// Does the same as [`answers_of`], for nonempty lists of calls and of tickets.
///
/// A separate function keeps the large stack slot for the tickets' positions out of its caller.
#[inline(never)]
fn answers_of_pending<O: Object>(
    alloc: O::Alloc,
    sessions: &mut Sessions<O>,
    pending: &[PendingTicket<O::Alloc>],
    committed: &[Call<O::Alloc>],
) -> Result<(Vec<TicketAnswer<O::Alloc>, O::Alloc>, u64), Fault>
    ensures table { OnOk result (sessions.new ≡ fold (table_next O.sequential) sessions.old committed.now) }
    ensures answers { IfOk result (λ given. given.0.items ≡ answers_after_committed O.sequential sessions.old pending.now [] committed.now) }
    ensures effects { IfOk result (λ given. given.1 ≡ done_after O.sequential sessions.old committed.now) }
    ensures refused { IfErr result (λ fault. fault ≡ Memory) }
{
    let (bucketed, unbucketed) = pending.split_at(pending.len().min(MAX_UNANSWERED));
    let buckets = Buckets::of_tickets(bucketed);
    let mut committed_flags = CommittedFlags::new();
    let mut answers = Vec::new(alloc);
    let mut effects = 0;
    for (place, call) in committed.iter().enumerate() {
        let answer = sessions.apply(call)?;
        if is_done_answer(&answer) {
            effects += 1;
        }
        append_bucketed_answers(
            &buckets,
            &mut committed_flags,
            bucketed,
            call,
            answer,
            &mut answers,
        )?;
        append_unbucketed_answers(unbucketed, &committed[..place], call, answer, &mut answers)?;
    }
    Ok((answers, effects))
}
