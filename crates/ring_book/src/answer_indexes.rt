//! The answers of a node's tickets, as the book stores them.
//!
//! Rules: The book and the threads 15

ghost use Rattle.std.specs.Prelude.{◌≡◌, ◌+◌, ◌<◌, ◌≤◌, [], length, OnOk, IfErr};
ghost use Rattle.ring_base.specs.declared.fault.Fault.TheVariants.{Memory};
ghost use Rattle.ring_book_lines.specs.Answers.{answer_of_ticket, answers_after_step};

use ring_base::Fault;
use ring_book_lines::{Step, add_answers};
use ring_session::{Answer, Ticket};
use std::alloc::{Allocator, Global};
use std::marker::Model;

/// The answers of one node's tickets, in the order of tickets, from ticket 0 on.
///
/// Contracts see them, and how many tickets there is room for.
///
/// Rules: The book and the threads 15
#[derive(Drop)]
pub(crate) struct AnswerIndex<A: Allocator + Copy + Drop = Global> {
    answers: Vec<Option<Answer>, A>,
}

impl<A: Allocator + Copy + Drop> Model for AnswerIndex<A> {
    ghost use Rattle.std.specs.Prelude.{vec_capacity};
    ghost use Rattle.ring_book.specs.AnswerIndex.{AnswerIndexView};

    ghost Value = { AnswerIndexView };

    ghost view = { λ t. record { answers = t.answers.items; room = vec_capacity t.answers } };
}

impl<A: Allocator + Copy + Drop> AnswerIndex<A> {
    /// Returns the index of a node that has given no ticket.
    ///
    /// Does not allocate.
    pub(crate) fn new(alloc: A) -> AnswerIndex<A>
        ensures { result.answers ≡ [] }
    {
        AnswerIndex {
            answers: Vec::new(alloc),
        }
    }

    /// Makes room for `more` tickets beyond those in the index.
    ///
    /// Errors: `Memory` if an allocation fails; the answers are unchanged.
    pub(crate) fn reserve(&mut self, more: u32) -> Result<(), Fault>
        ensures answers { self.new.answers ≡ self.old.answers }
        ensures stays { self.old.room ≤ self.new.room }
        ensures room { OnOk result (length self.new.answers + more ≤ self.new.room) }
        ensures refused { IfErr result (λ e. e ≡ Memory) }
    {
        self.answers.reserve(more as usize)?;
        Ok(())
    }

    /// Adds a step of the index's node: the new ticket of a submit, without an answer, or a step's answers under their
    /// tickets.
    ///
    /// There must be room for one more ticket. Does not allocate.
    ///
    /// Rules: The replicated log 13 and 14
    pub(crate) fn add_answers(&mut self, step: &Step<A>)
        requires { length self.old.answers < self.old.room }
        ensures answers { self.new.answers ≡ answers_after_step self.old.answers step.now.input step.now.answers }
        ensures room { self.new.room ≡ self.old.room }
    {
        add_answers(&mut self.answers, step);
    }

    /// Returns the answers, in the order of tickets, from ticket 0 on.
    ///
    /// An unanswered ticket has `None`.
    pub(crate) fn answers(&self) -> &[Option<Answer>]
        ensures { result.now ≡ self.now.answers }
    {
        self.answers.as_slice()
    }

    /// Returns the ticket's answer, or `None` if the ticket has none or isn't in the index.
    pub(crate) fn answer(&self, ticket: Ticket) -> Option<Answer>
        ensures { result ≡ answer_of_ticket self.now.answers ticket }
    {
        match self.answers.get(ticket.number() as usize) {
            Some(answer) => *answer,
            None => None,
        }
    }
}
