//! Whether the order of a run's world is legal for its history, also where memory was refused in the run.
//! Rules: Sessions 10; Refusals 6

use ring_base::{Fault, Fixed, pair_result};
use ring_checker::is_linearization;
use ring_console::{Script, ScriptFault, ScriptRun, StandardObjects};
use ring_object::Object;
use std::alloc::{Allocator, Global};
use std::io::Write;

/// Whether the order of a run's world is legal for its history.
fn order_explains<O: Object>(heap: O::Alloc, run: &ScriptRun<O>) -> Result<bool, Fault> {
    let order = run.world().order()?;
    is_linearization::<O>(heap, order.as_slice(), run.world().history())
}

/// Makes the run of a script, after a request for memory in place of the one that the program makes for its output.
fn made_run<A: Allocator + Copy + Drop>(
    heap: A,
    nodes: Fixed,
) -> Result<ScriptRun<StandardObjects<A>>, Fault> {
    let _room = Vec::<u8, A>::with_capacity(heap, 100)?;
    ScriptRun::new(heap, nodes)
}

/// Runs a script as far as it goes, with the requests for memory that the program makes. Returns whether its order is legal for
/// its history. A check that is refused memory is done again.
///
/// Errors: `Memory` where no run was made, `BadScript` where it is no script.
pub fn is_explained<A: Allocator + Copy + Drop>(
    heap: A,
    alloc: Global,
    text: &str,
) -> Result<bool, Fault> {
    let script = match Script::read(heap, &mut text.as_bytes()) {
        Ok(script) => script,
        Err(ScriptFault::Memory) => return Err(Fault::Memory),
        Err(ScriptFault::AtLine(_)) => return Err(Fault::BadScript),
    };
    let made = made_run(heap, script.nodes);
    let (script, mut run) = pair_result(script, made)?;
    let mut out = Vec::<u8>::new(alloc);
    let mut output: &mut dyn Write = &mut out;
    let _ = run.run_and_print_lines(script, &mut output);
    let explains = match order_explains(heap, &run) {
        Err(Fault::Memory) => order_explains(heap, &run),
        explains => explains,
    };
    drop(run);
    explains
}
