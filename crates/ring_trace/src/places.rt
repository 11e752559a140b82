//! The committed places of a run, for programs.
//!
//! Formats: The command line

use ring_base::{Fault, Proc};
use ring_console::{Failure, World};
use ring_object::Object;
use ring_session::Sessions;
use ring_trace_formats::{TracePrinter, TraceVocabulary};
use std::io::Write;

/// Prints a line for each place of the longest committed log: its call, and the answer that the sessions give to it,
/// even if no node answered it.
///
/// Errors: `Output` if `out` fails; `Refused` with `Memory` if an allocation fails. The earlier lines are then on
/// `out`.
///
/// Formats: The command line
pub(crate) fn print_places<O: Object, W: Write>(
    alloc: O::Alloc,
    form: TracePrinter,
    trace_vocabulary: &TraceVocabulary,
    world: &World<O>,
    out: &mut W,
) -> Result<(), Failure> {
    let mut sessions = Sessions::<O>::new(alloc)?;
    let printed = print_each_place(form, trace_vocabulary, world, &mut sessions, out);
    // Dropped explicitly, so it is dropped in a function generic over its type, and doesn't live until the exits.
    drop(sessions);
    printed
}

/// Prints the line of each place.
///
/// `sessions` must not have applied any call yet.
fn print_each_place<O: Object, W: Write>(
    form: TracePrinter,
    trace_vocabulary: &TraceVocabulary,
    world: &World<O>,
    sessions: &mut Sessions<O>,
    out: &mut W,
) -> Result<(), Failure> {
    let number = most_committed_node(world)?.number();
    let calls = world.committed(world.fixed().proc(number)?)?;
    for (place, call) in calls.iter().enumerate() {
        let answer = sessions.apply(call)?;
        form.print_place(out, trace_vocabulary, place as u64, call, &answer)?;
    }
    Ok(())
}

/// Returns the node with the greatest committed length, the first one if there are several.
fn most_committed_node<O: Object>(world: &World<O>) -> Result<Proc, Fault> {
    let nodes = world.fixed();
    let mut longest = nodes.proc(1)?;
    let mut length = 0;
    for before in 0..nodes.count() {
        let node = nodes.proc(before.saturating_add(1))?;
        let committed = world.node(node).committed_len();
        if committed > length {
            longest = node;
            length = committed;
        }
    }
    Ok(longest)
}
