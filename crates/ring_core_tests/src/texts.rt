//! Tests of the texts of rings and processors, and of the refusal that memory is. `ring_console_tests` has the numbers and texts
//! of all refusals.

use ring_base::{Fault, Proc, RingId};
use std::alloc::AllocError;
use std::test::Fail;

#[test]
fn names(rt: HostRuntime) -> Result<(), Fail> {
    let rep = Proc::new(3);
    let shown = format!(in rt.alloc(); "{} {rep}", RingId { seq: 1, rep })?;
    assert!(rt; shown.as_str() == "1.3 3" && Fault::from(AllocError) == Fault::Memory);
    Ok(())
}
