//! Tests of the variant that a sweep reports, and of its exit status.
//! Formats: The command line

use ring_base::{Fault, Proc};
use ring_failure::Failure;
use ring_sweep::{Injection, InjectionKind, SweepResult, verdict_status};

/// Of a sweep of 40 events: the number of events before the injection of the first variant that is not legal, its node, its
/// kind, and the line on standard error.
const ILLEGAL: [(u64, u8, InjectionKind, &str); 4] = [
    (16, 2, InjectionKind::Stop, "stop 2 before event 17\n"),
    (16, 2, InjectionKind::Cut, "cut 2 before event 17\n"),
    (39, 3, InjectionKind::Stop, "stop 3 before event 40\n"),
    (40, 3, InjectionKind::Cut, "cut 3 at the end\n"),
];

#[test]
fn the_first_that_is_not_legal_is_named(rt: HostRuntime) {
    for (before, node, injection_kind, line) in ILLEGAL {
        let illegal = Injection {
            before,
            node: Proc::new(node),
            injection_kind,
        };
        let swept = SweepResult {
            events: 40,
            variants: 246,
            illegal: Some(illegal),
        };
        let mut err = Vec::new(rt.alloc());
        let status = verdict_status(&mut err, Ok(swept));
        assert!(rt; status == 1 && err.as_slice() == line.as_bytes(), "{line}");
    }
}

/// All variants are legal, or memory was refused.
#[test]
fn nothing_is_told_but_a_fault(rt: HostRuntime) {
    let legal = SweepResult {
        events: 40,
        variants: 246,
        illegal: None,
    };
    let refused = Failure::Refused(Fault::Memory);
    for (done, status, line) in [
        (Ok(legal), 0, ""),
        (Err(refused), 1, "totem: 11 out of memory\n"),
    ] {
        let mut err = Vec::new(rt.alloc());
        let told = verdict_status(&mut err, done);
        assert!(rt;
            told == status && err.as_slice() == line.as_bytes(),
            "{line}"
        );
    }
}
