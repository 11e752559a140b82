//! The answers that a node gave last.
//!
//! Rules: The replicated log 15

ghost use Rattle.std.specs.Prelude.{◌≡◌, ◌≤◌, [], ◌∷◌, ◌++◌, map, IfOk, IfErr};
ghost use Rattle.std.specs.VecDeque.{deque_len, deque_capacity};
ghost use Rattle.ring_session.specs.declared.TheConstants.{KEPT_ANSWERS as MAX_KEPT};
ghost use Rattle.ring_base.specs.declared.fault.Fault.TheVariants.{Memory};
ghost use Rattle.ring_session.specs.RecentAnswers.{last_64, kept_of, recent_answer_to};

use crate::ticket::Ticket;
use crate::ticket_answer::TicketAnswer;
use crate::{Answer, KEPT_ANSWERS};
use ring_base::Fault;
use std::alloc::{AllocError, Allocator};
use std::collections::VecDeque;
use std::marker::Model;

/// An answer that a node keeps, with its ticket.
///
/// Rules: The replicated log 15
#[derive(Clone, Copy)]
pub struct KeptAnswer {
    /// The ticket that was answered.
    pub ticket: Ticket,
    /// The answer to the ticket's call.
    pub answer: Answer,
}

/// The answers that a node gave last, at most [`KEPT_ANSWERS`], oldest first.
///
/// Memory for [`KEPT_ANSWERS`] answers is allocated when the list is created.
///
/// Rules: The replicated log 15
#[derive(Drop)]
pub struct RecentAnswers<A: Allocator + Copy> {
    answers: VecDeque<KeptAnswer, A>,
}

impl<A: Allocator + Copy> Model for RecentAnswers<A> {
    ghost use Rattle.std.specs.Prelude.{List, ◌≤◌, length};
    ghost use Rattle.std.specs.VecDeque.{deque_len, deque_capacity};
    ghost use Rattle.ring_session.specs.declared.recent_answers.KeptAnswer.{KeptAnswer as OneKept};
    ghost use Rattle.ring_session.specs.declared.TheConstants.{KEPT_ANSWERS as MAX_KEPT};

    ghost Value = { List OneKept };

    ghost view = { λ recent. recent.answers.items };

    ghost invariant = { λ recent. (deque_len recent.answers ≤ MAX_KEPT) × (MAX_KEPT ≤ deque_capacity recent.answers) };
}

/// A copy also has memory for [`KEPT_ANSWERS`] answers.
impl<A: Allocator + Copy> Clone for RecentAnswers<A> {
    ghost is_clone = { λ recent copy. copy ≡ recent };

    fn clone(&self) -> Result<RecentAnswers<A>, AllocError> {
        Ok(RecentAnswers {
            answers: copy_with_full_capacity(&self.answers)?,
        })
    }
}

impl<A: Allocator + Copy> RecentAnswers<A> {
    /// Returns an empty list with memory for [`KEPT_ANSWERS`] answers.
    ///
    /// Errors: `Memory` if an allocation fails.
    ///
    /// Rules: The replicated log 15
    pub fn new(alloc: A) -> Result<RecentAnswers<A>, Fault>
        ensures ok { IfOk result (λ recent. recent ≡ []) }
        ensures refused { IfErr result (λ fault. fault ≡ Memory) }
    {
        Ok(RecentAnswers {
            answers: VecDeque::with_capacity(alloc, KEPT_ANSWERS)?,
        })
    }

    /// Appends an answer, and drops the oldest if the list is full.
    ///
    /// Does not allocate.
    fn push(&mut self, kept: KeptAnswer)
        ensures { self.new ≡ last_64 (self.old ++ kept ∷ []) }
    {
        if self.answers.len() == KEPT_ANSWERS {
            self.answers.pop_front();
        }
        self.answers.push_back_reserved(kept);
    }

    /// Appends the answers in order, and drops the oldest until at most [`KEPT_ANSWERS`] are kept.
    ///
    /// Does not allocate.
    ///
    /// Rules: The replicated log 15
    pub fn append_answers<B: Allocator + Copy>(&mut self, answers: &[TicketAnswer<B>])
        ensures { self.new ≡ last_64 (self.old ++ map kept_of answers.now) }
    {
        // No effect at run time. The proof sees the invariant of `RecentAnswers` only if the body reads a field.
        let _ = &self.answers;
        for answered in answers {
            self.push(KeptAnswer {
                ticket: answered.ticket,
                answer: answered.answer,
            });
        }
    }

    /// Returns the answer to `ticket` if it is kept.
    ///
    /// Returns `None` if the ticket was never given, is unanswered, or is no longer among the last [`KEPT_ANSWERS`]
    /// answered.
    ///
    /// Rules: The replicated log 15
    pub fn answer_to(&self, ticket: Ticket) -> Option<Answer>
        ensures { result ≡ recent_answer_to ticket self.now }
    {
        for place in 0..self.answers.len() {
            let kept = self.answers[place];
            if kept.ticket == ticket {
                return Some(kept.answer);
            }
        }
        None
    }
}

/// Copies the answers into a list with memory for [`KEPT_ANSWERS`].
///
/// Errors: `AllocError` if an allocation fails.
fn copy_with_full_capacity<A: Allocator + Copy>(
    answers: &VecDeque<KeptAnswer, A>,
) -> Result<VecDeque<KeptAnswer, A>, AllocError>
    requires { deque_len answers.now ≤ MAX_KEPT }
    ensures items { IfOk result (λ copy. copy.items ≡ answers.now.items) }
    ensures few { IfOk result (λ copy. deque_len copy ≤ MAX_KEPT) }
    ensures room { IfOk result (λ copy. MAX_KEPT ≤ deque_capacity copy) }
{
    let mut copy = VecDeque::with_capacity(*answers.allocator(), KEPT_ANSWERS)?;
    for place in 0..answers.len() {
        copy.push_back_reserved(answers[place]);
    }
    Ok(copy)
}
