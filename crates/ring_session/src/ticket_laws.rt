//! Laws of tickets.
//!
//! Rules: The replicated log 13 to 15

ghost use Rattle.std.specs.Prelude.{◌≡◌, ◌||◌, nat_le, ℕ, List, [], ◌∷◌, ◌++◌, length};
ghost use Rattle.ring_base.specs.Numbers.{max_number};
ghost use Rattle.ring_payload.specs.declared.call.Call.{Call as OneCall};
ghost use Rattle.ring_session.specs.Table.{Table};
ghost use Rattle.ring_session.specs.declared.ticket_answer.TicketAnswer.{TicketAnswer};
ghost use Rattle.ring_session.specs.RecentAnswers.{recent_answer_to};
ghost use Rattle.ring_session.specs.Tickets.{TicketCall, unanswered_tickets, answers_after, kept_answers, ticket_answer_in};
ghost use Rattle.ring_session.specs.TicketsState.{Tickets, no_tickets, may_give_no_ticket, with_ticket, answers_after_committed, with_answers, AreTickets};

use ring_object::Object;

/// States that a node's `Tickets` always agree with its whole history of tickets, calls done and answers.
///
/// The history determines `Tickets`: at the opening, after each submit, and as calls are done and answered. `Tickets`
/// determine the answers that each step gives, for every object and every session table. A ticket is refused exactly if
/// 64 are unanswered or 2^62 have been given. A reply is one of the last 64 answers.
///
/// Rules: The replicated log 13 to 15
pub fn tickets_law<O: Object>()
    ensures opening { AreTickets {A = O.Alloc} [] [] [] no_tickets }
    ensures given { (asked : List (TicketCall O.Alloc)) (done : List (OneCall O.Alloc)) (all : List (TicketAnswer O.Alloc)) (t : Tickets O.Alloc) (c : OneCall O.Alloc) →
        AreTickets asked done all t →
        AreTickets (asked ++ record { call = c; since = length done } ∷ []) done all (with_ticket t c) }
    ensures answers { (table : Table O) (asked : List (TicketCall O.Alloc)) (done more : List (OneCall O.Alloc)) (all : List (TicketAnswer O.Alloc))
        (t : Tickets O.Alloc) → AreTickets asked done all t →
        answers_after_committed O.sequential table t.pending [] more ≡ answers_after O.sequential table asked done more }
    ensures kept { (asked : List (TicketCall O.Alloc)) (done more : List (OneCall O.Alloc)) (all new : List (TicketAnswer O.Alloc)) (t : Tickets O.Alloc) →
        AreTickets asked done all t →
        AreTickets asked (done ++ more) (all ++ new) (with_answers t more new) }
    ensures full { (asked : List (TicketCall O.Alloc)) (done : List (OneCall O.Alloc)) (all : List (TicketAnswer O.Alloc)) (t : Tickets O.Alloc) →
        AreTickets asked done all t →
        may_give_no_ticket t ≡ nat_le 64 (length (unanswered_tickets done asked)) || nat_le max_number (length asked) }
    ensures reply { (asked : List (TicketCall O.Alloc)) (done : List (OneCall O.Alloc)) (all : List (TicketAnswer O.Alloc)) (t : Tickets O.Alloc) (ticket : ℕ) →
        AreTickets asked done all t →
        recent_answer_to ticket t.kept ≡ ticket_answer_in ticket (kept_answers all) }
{}
