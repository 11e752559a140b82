//! The output of a script whose input fails. The data of `totem_examples` shows what other scripts print, also where the output fails.
//! Formats: What a script prints

use crate::inputs::FailingReader;
use crate::printed::RunOutput;
use refusing_alloc::RefusingHeap;
use ring_console::{script, script_check};
use std::alloc::{Allocator, Global};
use std::io::{Read, Write};
use std::test::Fail;

const FIRST_REPLY: &str =
    "nodes 1\ntimeout 1 join\ndeliver 1 1\ndeliver 1 2\ndeliver 1 3\ndeliver 1 4\n\
    call 1 7 1 add 0 5\ndeliver 1 5\ndeliver 1 6\nshow\n";

/// Runs a script, and checks it if `is_checked`. Returns the exit status. All tests use this, so that each function is compiled for
/// a single reader and writer.
fn status_of<A: Allocator + Copy + Drop>(
    heap: A,
    is_checked: bool,
    mut input: &mut dyn Read,
    mut out: &mut dyn Write,
    mut err: &mut dyn Write,
) -> u8 {
    if is_checked {
        script_check(heap, &mut input, &mut out, &mut err)
    } else {
        script(heap, &mut input, &mut out, &mut err)
    }
}

/// Runs a script, and checks it if `is_checked`. Returns its output.
pub fn run_of<A: Allocator + Copy + Drop>(
    heap: A,
    alloc: Global,
    is_checked: bool,
    input: &mut dyn Read,
) -> RunOutput {
    let mut out = Vec::new(alloc);
    let mut err = Vec::new(alloc);
    let status = status_of(heap, is_checked, input, &mut out, &mut err);
    RunOutput { out, err, status }
}

/// Whatever was read before: nothing, the beginning of a script, no script, or a whole script.
#[test]
fn an_input_that_fails_prints_nothing(rt: HostRuntime) {
    let ample = RefusingHeap::new(rt.alloc(), u64::MAX);
    for text in ["", "nodes 1\n", "nonsense\n", FIRST_REPLY] {
        let printed = run_of(
            &ample,
            rt.alloc(),
            false,
            &mut FailingReader(text.as_bytes()),
        );
        assert!(rt;
            printed.is("", "totem: 13 bad script at line 0\n", 1),
            "{text}"
        );
    }
}
