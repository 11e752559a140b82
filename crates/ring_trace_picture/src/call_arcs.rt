//! The arcs of a picture: calls, from their submission to their answers.
//!
//! Formats: The command line

ghost use Rattle.std.specs.Prelude.{◌≡◌, IfErr};
ghost use Rattle.ring_base.specs.declared.fault.Fault.TheVariants.{Memory};

use ring_base::{Fault, Proc};
use std::alloc::Allocator;

/// How a call of an arc ended.
///
/// Formats: The command line
#[derive(Clone, Copy, Debug, PartialEq, Eq)]
pub(crate) enum ArcEnd {
    /// The call has no answer.
    Waiting,
    /// The call took effect, with its answer.
    Done,
    /// The call had taken effect before; the node repeated its answer.
    Kept,
    /// The sessions refused the call, or the node didn't accept it.
    Refused,
}

/// A call, with its first and last column.
///
/// Formats: The command line
#[derive(Drop)]
pub(crate) struct CallArc<A: Allocator> {
    /// The node at which it was submitted.
    pub node: Proc,
    /// The client that made it.
    pub client: u32,
    /// The number that the client gave it.
    pub number: u64,
    /// The column in which the call was submitted, or the picture's first column if it waited there.
    pub from: u64,
    /// The column in which it ended, if it ended.
    pub to: Option<u64>,
    /// How it ended.
    pub end: ArcEnd,
    /// The text that the picture shows for it: the event that submitted it, or its answer.
    pub title: String<A>,
}

/// The arcs of a picture, in the order of their first columns.
///
/// Formats: The command line
#[derive(Drop)]
pub(crate) struct CallArcs<A: Allocator> {
    arcs: Vec<CallArc<A>, A>,
}

impl<A: Allocator + Copy> CallArcs<A> {
    /// Creates an empty list.
    ///
    /// Does not allocate.
    pub fn new(alloc: A) -> CallArcs<A> {
        CallArcs {
            arcs: Vec::new(alloc),
        }
    }

    /// Returns all arcs, in the order of their first columns.
    pub fn arcs(&self) -> &[CallArc<A>] {
        self.arcs.as_slice()
    }

    /// Adds the arc of a call at the end.
    ///
    /// Arcs must be added in the order of their first columns; this isn't checked.
    ///
    /// Errors: `Memory` if an allocation fails; nothing is added.
    pub fn push_arc(&mut self, arc: CallArc<A>) -> Result<(), Fault>
        ensures { IfErr result (λ fault. fault ≡ Memory) }
    {
        self.arcs.push(arc)?;
        Ok(())
    }

    /// Ends the first open arc of this call, given by its node, client and number, in column `column`.
    ///
    /// `end` must not be `Waiting`. The arc gets `title` in place of its text; the other arcs are unchanged. If no arc
    /// of the call is open, nothing changes. Does not allocate.
    pub fn end_open_arc(
        &mut self,
        (node, client, number): (Proc, u32, u64),
        column: u64,
        end: ArcEnd,
        title: String<A>,
    ) {
        let mut title = Some(title);
        for arc in self.arcs.iter_mut() {
            let is_of = arc.node == node && arc.client == client && arc.number == number;
            if is_of
                && arc.end == ArcEnd::Waiting
                && let Some(words) = title.take()
            {
                arc.to = Some(column);
                arc.end = end;
                arc.title = words;
            }
        }
    }
}
