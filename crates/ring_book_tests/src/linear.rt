//! The consequences of the book's laws together with the law of all runs.
//! Rules: Sessions 8 and 10; The book and the threads 11

ghost use Rattle.std.specs.Prelude.{◌≡◌, ◌≤◌, IfOk, IfErr};
ghost use Rattle.ring_base.specs.declared.fault.Fault.TheVariants.{Memory};
ghost use Rattle.ring_node_spec.specs.Histories.{IsLinearization};
ghost use Rattle.ring_node_spec.specs.Worlds.{run, world_opening};
ghost use Rattle.ring_book_lines.specs.Answers.{answer_of_ticket};
ghost use Rattle.ring_book_lines.specs.Events.{answers_of, events_of};

use ring_base::{Fault, Proc};
use ring_book::{Book, BookName, linear_law};
use ring_node_spec::Item;
use ring_object::Object;
use ring_payload::Call;
use ring_session::{Answer, Ticket};
use std::alloc::{Allocator, Global};

/// A book's history, and an order of calls that explains it.
#[derive(Drop)]
pub struct Seen<A: Allocator + Copy + Drop = Global> {
    pub order: Vec<Call<A>, A>,
    pub history: Vec<Item<A>, A>,
}

/// Returns the book's history and the book's order, which explains it.
/// Each reply is the object's at its call's place in the order. A call that got its reply before another was issued is
/// earlier in the order.
/// Errors: `Memory`.
/// Rules: Sessions 10
pub fn explained<O: Object, K: BookName<O::Alloc>>(
    book: &Book<O, K>,
) -> Result<Seen<O::Alloc>, Fault>
    ensures ok { IfOk result (λ seen. IsLinearization O.sequential seen.order.items seen.history.items) }
    ensures refused { IfErr result (λ fault. fault ≡ Memory) }
{
    // Laws: no effect at run time. The proof takes from them that the book's lines are a run of the group, and that the
    // order of such a run explains its history.
    book.run_law();
    linear_law::<O>();
    let order = book.order()?;
    let history = book.history()?;
    Ok(Seen { order, history })
}

/// Returns the book's answer to a ticket of a processor of the group. It is the answer of the sessions along the committed
/// log of that processor's node in the book's run.
/// Rules: Sessions 8
pub fn answered<O: Object, K: BookName<O::Alloc>>(
    book: &Book<O, K>,
    node: Proc,
    ticket: Ticket,
) -> Option<Answer>
    ensures { node ≤ K.name.group.count →
        let w = run O.sequential (world_opening K.name.group) (events_of book.now.lines) in
        result ≡ answer_of_ticket (answers_of (w.nodes node)) ticket }
{
    // A law: no effect at run time. The proof takes from it that the book's lines are a run of the group.
    book.run_law();
    book.answer(node, ticket)
}
