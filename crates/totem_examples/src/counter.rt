//! A node of a ring with an object, driven from a user's program: a client's call goes round the ring and is answered.
//!
//! The node is alone in its group, so all its frames come back to it: as bytes, as a network would carry them.

use std::io;
use totem_ring::{
    Answer, Counters, Driver, Fault, Fixed, Kind, Object, Reply, ReplyParts, ValidFrame,
};

/// The number of frames handed to the node: four form its ring, and two more bring the call's answer.
const LETTERS: usize = 6;

/// Runs the scenario and prints the counter in the node's answer, or that there is no reply, or the fault if it is
/// refused.
///
/// Errors: those of standard output.
pub fn print_results<R: AllocGlobal + Print>(rt: &R) -> io::Result<()> {
    match count::<Counters>(rt.alloc()) {
        Ok(Some(count)) => println!(rt; "the counter is at {count}"),
        Ok(None) => println!(rt; "no reply"),
        Err(fault) => println!(rt; "{fault}"),
    }
}

/// Returns the counter in the call's answer, if there is one.
fn count<O: Object>(alloc: O::Alloc) -> Result<Option<u64>, Fault> {
    match &answered::<O>(alloc)? {
        Some(Answer::Done(reply)) => Ok(count_of(reply)),
        _ => Ok(None),
    }
}

/// Returns the value in a reply.
fn count_of(reply: &Reply) -> Option<u64> {
    ReplyParts::read(reply.as_slice())?.value
}

/// Hands the node the first frame that it has sent.
fn pass_round<O: Object>(alloc: O::Alloc, node: &mut Driver<O>) -> Result<(), Fault> {
    let Some((_, valid_frame)) = node.next_send() else {
        return Ok(());
    };
    let bytes = valid_frame.bytes(alloc)?;
    node.receive(ValidFrame::read(alloc, bytes.as_slice())?)
}

/// Submits call 1 of client 7, which adds 5 to counter 0, and hands the node its own frames until the call is answered.
fn ask<O: Object>(alloc: O::Alloc, node: &mut Driver<O>) -> Result<Option<Answer>, Fault> {
    let ticket = node.submit(7, 1, Counters::add(0, 5).as_slice())?;
    node.timeout(Kind::Join)?;
    for _ in 0..LETTERS {
        pass_round(alloc, node)?;
    }
    Ok(node.reply(ticket))
}

/// Runs `ask` on a node at its opening.
fn answered<O: Object>(alloc: O::Alloc) -> Result<Option<Answer>, Fault> {
    let mut node = Driver::<O>::new(alloc, Fixed::new(1)?, 1)?;
    let answer = ask(alloc, &mut node);
    drop(node);
    answer
}
