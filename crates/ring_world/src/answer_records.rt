//! Recording a step's answers, for clients and in the history.
//!
//! Rules: The book and the threads 5; Sessions 9

ghost use Rattle.std.specs.Prelude.{◌≡◌, ℕ, ◌+◌, ◌≤◌, [], ◌∷◌, ◌++◌, length, vec_len, vec_capacity};
ghost use Rattle.ring_session.specs.SessionAnswer.{reply_of_answer};
ghost use Rattle.ring_node_spec.specs.Worlds.{reply_items_of, reply_items, reports_of_answers};
ghost use Rattle.ring_node_spec.specs.declared.client_report.Told.TheVariants.{Answer as ToldAnswer};
ghost use Rattle.ring_world.specs.SpareCalls.{HasCopy, HaveCopies, without, copies_after_answers};

use crate::spare_calls::SpareCalls;
use ring_base::Proc;
use ring_node_spec::{Item, Told};
use ring_payload::Call;
use ring_session::{Answer, TicketAnswer};
use std::alloc::Allocator;
use std::mem;

/// Records the answers of a node's step in `told`, and the replies among them in `history`, both in order.
///
/// Takes the answers out of `answers`, and the second copies of their calls out of `spares`, which must have a copy of
/// each answered call. `told` and `history` must have room for as many entries as there are answers. Does not allocate.
///
/// Rules: The book and the threads 5; Sessions 9
pub(crate) fn record_answers<A: Allocator + Copy>(
    alloc: A,
    told: &mut Vec<Told<A>, A>,
    history: &mut Vec<Item<A>, A>,
    spares: &mut SpareCalls<A>,
    node: Proc,
    answers: &mut Vec<TicketAnswer<A>, A>,
)
    requires left { HaveCopies spares.old.calls answers.old.items }
    requires told_room { vec_len told.old + length answers.old.items ≤ vec_capacity told.old }
    requires history_room { vec_len history.old + length answers.old.items ≤ vec_capacity history.old }
    ensures told { told.new.items ≡ told.old.items ++ reports_of_answers node answers.old.items }
    ensures history { history.new.items ≡ history.old.items ++ reply_items_of answers.old.items }
    ensures spares { spares.new.calls ≡ copies_after_answers spares.old.calls answers.old.items }
{
    if !answers.is_empty() {
        let answers = mem::replace(answers, Vec::new(alloc));
        record_all_answers(told, history, spares, node, answers);
    }
}

/// Records these answers.
///
/// A function of its own keeps the large stack slot of an answer and its call out of the caller, which mostly has no
/// answers.
#[inline(never)]
fn record_all_answers<A: Allocator + Copy>(
    told: &mut Vec<Told<A>, A>,
    history: &mut Vec<Item<A>, A>,
    spares: &mut SpareCalls<A>,
    node: Proc,
    answers: Vec<TicketAnswer<A>, A>,
)
    requires left { HaveCopies spares.old.calls answers.items }
    requires told_room { vec_len told.old + length answers.items ≤ vec_capacity told.old }
    requires history_room { vec_len history.old + length answers.items ≤ vec_capacity history.old }
    ensures told { told.new.items ≡ told.old.items ++ reports_of_answers node answers.items }
    ensures history { history.new.items ≡ history.old.items ++ reply_items_of answers.items }
    ensures spares { spares.new.calls ≡ copies_after_answers spares.old.calls answers.items }
{
    for answered in answers {
        record_answer(told, history, spares, node, answered);
    }
}

/// Records one answer.
fn record_answer<A: Allocator + Copy>(
    told: &mut Vec<Told<A>, A>,
    history: &mut Vec<Item<A>, A>,
    spares: &mut SpareCalls<A>,
    node: Proc,
    answered: TicketAnswer<A>,
)
    requires left { HasCopy spares.old.calls answered.ticket answered.call }
    requires told_room { vec_len told.old + 1 ≤ vec_capacity told.old }
    requires history_room { vec_len history.old + 1 ≤ vec_capacity history.old }
    ensures told { told.new.items ≡ told.old.items ++ ToldAnswer node answered.call answered.answer ∷ [] }
    ensures told_len { vec_len told.new ≡ vec_len told.old + 1 }
    ensures told_capacity { vec_capacity told.new ≡ vec_capacity told.old }
    ensures history { history.new.items ≡ history.old.items ++ reply_items answered.call (reply_of_answer answered.answer) }
    ensures history_len { vec_len history.new ≤ vec_len history.old + 1 }
    ensures history_capacity { vec_capacity history.new ≡ vec_capacity history.old }
    ensures spares { spares.new.calls ≡ without spares.old.calls answered.ticket }
{
    let spare = spares.take_copy(answered.ticket, &answered.call);
    append_reply(history, spare, &answered.answer);
    told.push_reserved(Told::Answer(node, answered.call, answered.answer));
}

/// Appends the answer's reply to the history, if it has one.
fn append_reply<A: Allocator + Copy>(history: &mut Vec<Item<A>, A>, call: Call<A>, answer: &Answer)
    requires { vec_len history.old + 1 ≤ vec_capacity history.old }
    ensures items { history.new.items ≡ history.old.items ++ reply_items call (reply_of_answer answer.now) }
    ensures len { vec_len history.new ≤ vec_len history.old + 1 }
    ensures capacity { vec_capacity history.new ≡ vec_capacity history.old }
{
    match answer {
        Answer::Done(reply) | Answer::Kept(reply) => history.push_reserved(Item::Reply(
            call, *reply,
        )),
        Answer::Refused(_) => {}
    }
}
