//! The history of a list of lines.
//!
//! Rules: Sessions 9

ghost use Rattle.std.specs.Prelude.{◌≡◌, ◌++◌, OnOk, IfOk, IfErr};
ghost use Rattle.ring_base.specs.declared.fault.Fault.TheVariants.{Memory};
ghost use Rattle.ring_node_spec.specs.Worlds.{reply_items_of, reply_items};
ghost use Rattle.ring_session.specs.SessionAnswer.{reply_of_answer};
ghost use Rattle.ring_book_lines.specs.Events.{history_of, items_in};

use crate::cause::Cause;
use crate::line::Line;
use ring_base::Fault;
use ring_node_spec::Item;
use ring_session::{Answer, TicketAnswer};
use std::alloc::Allocator;

/// Returns the history of the lines: copies of their issued calls and their replies, in order.
///
/// A line adds its submitted call, or else the replies among its answers, each with a copy of its call. An answer
/// without a reply adds nothing.
///
/// Errors: `Memory` if an allocation fails.
///
/// Rules: Sessions 9
pub fn history_of_lines<A: Allocator + Copy + Drop>(
    alloc: A,
    lines: &[Line<A>],
) -> Result<Vec<Item<A>, A>, Fault>
    ensures ok { IfOk result (λ items. items.items ≡ history_of lines.now) }
    ensures refused { IfErr result (λ fault. fault ≡ Memory) }
{
    let mut items = Vec::new(alloc);
    for line in lines {
        add_items(line, &mut items)?;
    }
    Ok(items)
}

/// Appends the history items of the line.
fn add_items<A: Allocator + Copy + Drop>(
    line: &Line<A>,
    items: &mut Vec<Item<A>, A>,
) -> Result<(), Fault>
    ensures ok { OnOk result (items.new.items ≡ items.old.items ++ items_in line.now.step.input line.now.step.answers) }
    ensures refused { IfErr result (λ fault. fault ≡ Memory) }
{
    match line.cause() {
        Cause::Submitted(call) => {
            items.push(Item::Issue(call.clone()?))?;
            Ok(())
        }
        Cause::Delivered(_) | Cause::Noise | Cause::Timeout(_) | Cause::Stopped => {
            add_replies(line.answers(), items)
        }
    }
}

/// Appends the replies among these answers.
fn add_replies<A: Allocator + Copy + Drop>(
    answers: &[TicketAnswer<A>],
    items: &mut Vec<Item<A>, A>,
) -> Result<(), Fault>
    ensures ok { OnOk result (items.new.items ≡ items.old.items ++ reply_items_of answers.now) }
    ensures refused { IfErr result (λ fault. fault ≡ Memory) }
{
    for answered in answers {
        add_reply(answered, items)?;
    }
    Ok(())
}

/// Appends the reply in the answer, if it has one.
fn add_reply<A: Allocator + Copy + Drop>(
    answered: &TicketAnswer<A>,
    items: &mut Vec<Item<A>, A>,
) -> Result<(), Fault>
    ensures ok { OnOk result (items.new.items ≡ items.old.items ++ reply_items answered.now.call (reply_of_answer answered.now.answer)) }
    ensures refused { IfErr result (λ fault. fault ≡ Memory) }
{
    match answered.answer {
        Answer::Done(reply) | Answer::Kept(reply) => {
            items.push(Item::Reply(answered.call.clone()?, reply))?;
            Ok(())
        }
        Answer::Refused(_) => Ok(()),
    }
}
