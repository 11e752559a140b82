//! A cache of the answers that one look at the book found.
//!
//! Rules: The book and the threads 26

ghost use Rattle.std.specs.Prelude.{◌≡◌, ℕ, ◌+◌, [], Some, slice_get, IfSome};
ghost use Rattle.ring_session.specs.declared.answer.Answer.{Answer as OneAnswer};
ghost use Rattle.ring_book.specs.Lines.{first_answer_in, answer_of_ticket};
ghost use Rattle.ring_host.specs.Answering.{IsAnswered};
ghost use Rattle.ring_host.specs.Looking.{cached_answer};

use crate::host::HostTicket;
use ring_base::Proc;
use ring_book::{Book, BookName};
use ring_object::Object;
use ring_session::{Answer, MAX_UNANSWERED, Ticket};
use std::alloc::Allocator;
use std::marker::{Model, PhantomData};

/// The answers that one look at a host's book found, at most 64.
///
/// They are the answers to a node's tickets from one ticket on, up to the first ticket without an answer. Each is an
/// answer of the host's book: some run of the group issues the ticket and has this answer to it. Contracts see the
/// node, the first ticket and the answers.
///
/// Rules: The book and the threads 26
#[derive(Drop)]
pub struct AnswerCache<O: Object, K: BookName<O::Alloc>> {
    node: Proc,
    first: Ticket,
    found: Vec<Answer, O::Alloc>,
    of: PhantomData<(O, K)>,
}

impl<O: Object, K: BookName<O::Alloc>> Model for AnswerCache<O, K> {
    ghost use Rattle.ring_host.specs.Answering.{AreAnswered};
    ghost use Rattle.ring_host.specs.Looking.{AnswerCacheView};

    ghost Value = { AnswerCacheView };

    ghost view = { λ a. record { node = a.node; first = a.first; found = a.found.items } };

    ghost invariant = { λ a. AreAnswered O.Alloc O.sequential K.name.group a.node a.first a.found.items };
}

impl<O: Object, K: BookName<O::Alloc>> AnswerCache<O, K> {
    /// Creates an empty cache for the node, which begins at ticket 0.
    ///
    /// Does not allocate.
    pub(crate) fn empty_cache(alloc: O::Alloc, node: Proc) -> AnswerCache<O, K>
        ensures { result ≡ record { node = node; first = 0; found = [] } }
    {
        AnswerCache {
            node,
            first: Ticket::new(0),
            found: Vec::new(alloc),
            of: PhantomData,
        }
    }

    /// Returns the answer to the ticket that the last look found.
    ///
    /// Returns `None` if it found none, including before the first look, and for a ticket of another node or outside
    /// those looked up. Takes no lock and does not allocate.
    ///
    /// Rules: The book and the threads 26
    pub fn answer(&self, ticket: &HostTicket) -> Option<Answer>
        ensures kept { result ≡ cached_answer self.now ticket.now.node ticket.now.ticket }
        ensures answered { IfSome result (IsAnswered O.Alloc O.sequential K.name.group ticket.now.node ticket.now.ticket) }
    {
        // No effect at run time. The proof has the invariant of `AnswerCache` only if the body reads a field.
        let _found = &self.found;
        self.cached_answer_to(ticket)
    }

    /// Returns the answer cached for the ticket.
    fn cached_answer_to(&self, ticket: &HostTicket) -> Option<Answer>
        ensures { result ≡ cached_answer self.now ticket.now.node ticket.now.ticket }
    {
        if ticket.node != self.node || ticket.ticket.number() < self.first.number() {
            return None;
        }
        found_at(
            self.found.as_slice(),
            ticket.ticket.number() - self.first.number(),
        )
    }

    /// Allocates room for all answers that a look may find, 64, so that the look itself doesn't allocate.
    ///
    /// If the allocation fails, the look tries again.
    pub(crate) fn make_room(&mut self)
        ensures { self.new ≡ self.old }
    {
        let _room = self.found.reserve(MAX_UNANSWERED);
    }

    /// Replaces the cached answers by those of the book, from `ticket` of its node on: up to the first ticket without
    /// an answer, and at most 64.
    ///
    /// If an allocation for an answer fails, the list ends before that answer.
    ///
    /// Rules: The book and the threads 26
    pub(crate) fn fill_from_book(&mut self, book: &Book<O, K>, ticket: &HostTicket)
        ensures node { self.new.node ≡ ticket.now.node }
        ensures first { self.new.first ≡ ticket.now.ticket }
        ensures found { (i : ℕ) (answer : OneAnswer) → slice_get self.new.found i ≡ Some answer
            → first_answer_in book.now.lines ticket.now.node (ticket.now.ticket + i) ≡ Some answer }
    {
        // A law: no effect at run time. It tells the proof that the book's lines are a run of the group.
        book.run_law();
        self.node = ticket.node;
        self.first = ticket.ticket;
        copy_answers(
            book.answers(ticket.node),
            ticket.ticket.number() as usize,
            &mut self.found,
        );
    }
}

/// Copies the answers from index `from` on to `found`, up to the first missing one, and at most 64.
///
/// If an allocation for an answer fails, the list ends before that answer.
fn copy_answers<A: Allocator + Copy + Drop>(
    told: &[Option<Answer>],
    from: usize,
    found: &mut Vec<Answer, A>,
)
    ensures { (i : ℕ) (a : OneAnswer) → slice_get found.new.items i ≡ Some a → answer_of_ticket told.now (from + i) ≡ Some a }
{
    found.clear();
    if from >= told.len() {
        return;
    }
    for ahead in 0..MAX_UNANSWERED {
        let Some(answer) = answer_at(told, from + ahead) else {
            return;
        };
        if found.push(answer).is_err() {
            return;
        }
    }
}

/// Returns the answer to ticket `at`, or `None` if there is none.
fn answer_at(told: &[Option<Answer>], at: usize) -> Option<Answer>
    ensures { result ≡ answer_of_ticket told.now at }
{
    match told.get(at) {
        Some(answer) => *answer,
        None => None,
    }
}

#[tactic(auto, using(ring_base::proofs::ListPlaces::item_copied))]
fn found_at(found: &[Answer], at: u64) -> Option<Answer>
    ensures { result ≡ slice_get found.now at }
{
    found.get(at as usize).copied()
}
