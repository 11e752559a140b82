//! The greatest length of a script, and memory refused while one is read.
//! Formats: Scripts

use crate::failing_runs::run_of;
use refusing_alloc::{RefusingHeap, refuse_in_turn};
use ring_console::{Script, ScriptFault};
use std::alloc::AllocError;
use std::test::Fail;

/// A script of this length is `nodes 1` and a comment.
#[test]
fn a_script_has_at_most_2_to_the_20_bytes(rt: HostRuntime) -> Result<(), Fail> {
    let ample = RefusingHeap::new(rt.alloc(), u64::MAX);
    let too_long = "totem: 13 bad script at line 0\n";
    for (length, line, status) in [(1_048_576, "", 0), (1_048_577, too_long, 1)] {
        let mut text = Vec::from_slice(rt.alloc(), b"nodes 1\n")?;
        text.resize(length, b'#')?;
        let printed = run_of(&ample, rt.alloc(), false, &mut text.as_slice());
        assert!(rt; printed.is("", line, status), "{length}");
    }
    Ok(())
}

#[test]
fn each_request_for_memory_may_be_refused(rt: HostRuntime) {
    let text = "nodes 1\ncall 1 7 1 insert name\nnoise 1 0011\nshow\nheal\nshow\nshow\nshow\n";
    let read = |heap: &RefusingHeap| match Script::read(heap, &mut text.as_bytes()) {
        Err(ScriptFault::Memory) => Err(AllocError),
        _ => Ok(()),
    };
    let requests = refuse_in_turn(rt.alloc(), &read);
    assert!(rt; requests > Some(4));
}
