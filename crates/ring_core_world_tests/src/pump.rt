//! Delivers frames in the order in which they were sent.
//! Formats: Pump

use crate::steps::{happened, happens};
use ring_base::{Fault, Fixed, Proc, ProcSet, pair_result};
use ring_core_spec::Out;
use ring_core_world::{CoreWorld, RingEvent};
use std::alloc::Allocator;
use std::fmt::Write;

/// A queue of the copies of frames that were sent.
#[derive(Drop)]
struct Way<A: Allocator + Copy> {
    /// Each copy with its receiver, in order, the delivered ones included; and the number of delivered ones.
    copies: Vec<(Proc, u64), A>,
    come: usize,
    /// The number of outputs read, and the number of frames among them.
    seen: usize,
    frames: u64,
}

impl<A: Allocator + Copy> Way<A> {
    /// Returns an empty queue.
    fn new(alloc: A) -> Way<A> {
        Way {
            copies: Vec::new(alloc),
            come: 0,
            seen: 0,
            frames: 0,
        }
    }

    /// Queues the frames among the outputs that weren't read yet.
    fn follow(&mut self, outs: &[(Proc, Out<A>)]) -> Result<(), Fault> {
        for given in outs.iter().skip(self.seen) {
            if let Out::Send(to, _) = &given.1 {
                self.send(*to)?;
            }
        }
        self.seen = outs.len();
        Ok(())
    }

    /// Queues the next frame for each of its receivers.
    fn send(&mut self, to: ProcSet) -> Result<(), Fault> {
        self.frames = self.frames.saturating_add(1);
        for receiver in to.iter() {
            self.copies.push((receiver, self.frames))?;
        }
        Ok(())
    }

    /// Returns the next copy to deliver with its receiver, if there is one.
    fn next(&mut self, outs: &[(Proc, Out<A>)]) -> Result<Option<(Proc, u64)>, Fault> {
        self.follow(outs)?;
        let Some(next) = self.copies.get(self.come) else {
            return Ok(None);
        };
        self.come = self.come.saturating_add(1);
        Ok(Some(*next))
    }
}

/// Delivers a frame to its receiver and appends the line of that event.
fn handed<A: Allocator + Copy>(
    cores: CoreWorld<A>,
    (node, frame): (Proc, u64),
    lines: &mut String<A>,
) -> Result<CoreWorld<A>, Fault> {
    let written = writeln!(lines, "hand {node} {frame}");
    let (cores, ()) = pair_result(cores, written)?;
    let event = RingEvent::Deliver(node, frame);
    let happened = happens(cores, &event);
    drop(event);
    happened
}

/// Applies the event of a line and appends the line.
fn told<A: Allocator + Copy>(
    alloc: A,
    fixed: Fixed,
    cores: CoreWorld<A>,
    line: &str,
    lines: &mut String<A>,
) -> Result<CoreWorld<A>, Fault> {
    let written = writeln!(lines, "{line}");
    let (cores, ()) = pair_result(cores, written)?;
    happened(alloc, fixed, cores, line)
}

/// Returns the cores after the events of these lines.
fn opened<A: Allocator + Copy>(
    alloc: A,
    fixed: Fixed,
    opening: &str,
    lines: &mut String<A>,
) -> Result<CoreWorld<A>, Fault> {
    let mut cores = CoreWorld::unformed(alloc, fixed)?;
    for line in opening.lines() {
        cores = told(alloc, fixed, cores, line, lines)?;
    }
    Ok(cores)
}

/// Delivers `turns` copies, one in each turn, fewer where none is left.
fn turn<A: Allocator + Copy>(
    mut cores: CoreWorld<A>,
    way: &mut Way<A>,
    turns: u64,
    lines: &mut String<A>,
) -> Result<(), Fault> {
    for _ in 0..turns {
        let next = way.next(cores.outs());
        let (kept, next) = pair_result(cores, next)?;
        cores = match next {
            Some(next) => handed(kept, next, lines)?,
            None => kept,
        };
    }
    drop(cores);
    Ok(())
}

/// Appends the lines of the opening, and then those of the turns.
fn pump<A: Allocator + Copy>(
    alloc: A,
    fixed: Fixed,
    opening: &str,
    turns: u64,
    lines: &mut String<A>,
) -> Result<(), Fault> {
    let cores = opened(alloc, fixed, opening, lines)?;
    turn(cores, &mut Way::new(alloc), turns, lines)
}

/// Returns the lines of the opening and of the `turns` turns after it.
pub(crate) fn pumped<A: Allocator + Copy>(
    alloc: A,
    fixed: Fixed,
    opening: &str,
    turns: u64,
) -> Result<String<A>, Fault> {
    let mut lines = String::new(alloc);
    pump(alloc, fixed, opening, turns, &mut lines)?;
    Ok(lines)
}
