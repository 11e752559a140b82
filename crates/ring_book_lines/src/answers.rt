//! The answers of a node's tickets, collected step by step.
//!
//! Rules: The replicated log 13 and 14; The book and the threads 15

ghost use Rattle.std.specs.Prelude.{◌≡◌, ◌<◌, Some, slice_set, vec_len, vec_capacity};
ghost use Rattle.ring_book_lines.specs.Answers.{with_answers, answers_after_step};

use crate::input::{LineInput, StepInput};
use crate::step::Step;
use ring_session::{Answer, TicketAnswer};
use std::alloc::Allocator;

/// Adds a step to the answers of its node's tickets.
///
/// `told` has an entry for each ticket, from ticket 0 on, which is `None` until the ticket is answered. A submit
/// appends the entry of its new ticket. Any other step stores its answers under their tickets; an answer to a ticket
/// without an entry is ignored. There must be room for one more entry. Does not allocate.
///
/// Rules: The replicated log 13 and 14; The book and the threads 15
pub fn add_answers<A: Allocator + Copy + Drop>(told: &mut Vec<Option<Answer>, A>, step: &Step<A>)
    requires { vec_len told.old < vec_capacity told.old }
    ensures items { told.new.items ≡ answers_after_step told.old.items step.now.input step.now.answers }
    ensures capacity { vec_capacity told.new ≡ vec_capacity told.old }
{
    match &step.input {
        StepInput::Full(LineInput::Submitted(_)) => told.push_reserved(None),
        StepInput::Full(LineInput::Received(_, _)) | StepInput::FrameBytes(_, _) => {
            set_answers(told, step.answers.as_slice())
        }
    }
}

/// Stores each answer under its ticket.
fn set_answers<A: Allocator + Copy + Drop>(
    told: &mut Vec<Option<Answer>, A>,
    answers: &[TicketAnswer<A>],
)
    ensures items { told.new.items ≡ with_answers told.old.items answers.now }
    ensures capacity { vec_capacity told.new ≡ vec_capacity told.old }
{
    for answered in answers {
        set_answer(told, answered);
    }
}

/// Stores the answer under its ticket, if the ticket has an entry.
#[tactic(auto, using(crate::proofs::AnswersByTicket::set_past))]
fn set_answer<A: Allocator + Copy + Drop>(
    told: &mut Vec<Option<Answer>, A>,
    answered: &TicketAnswer<A>,
)
    ensures items { told.new.items ≡ slice_set told.old.items answered.now.ticket (Some answered.now.answer) }
    ensures capacity { vec_capacity told.new ≡ vec_capacity told.old }
{
    let ticket = answered.ticket.number() as usize;
    if ticket < told.len() {
        told[ticket] = Some(answered.answer);
    }
}
