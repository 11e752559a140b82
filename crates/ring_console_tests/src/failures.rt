//! The lines on standard error for the refusals.
//! Rules: Refusals 1

use ring_base::Fault;
use ring_console::{Failure, report_failure};

/// Each refusal, and its line.
const TOLD: [(Fault, &str); 15] = [
    (Fault::NotMember, "totem: 1 not a member\n"),
    (Fault::PendingFull, "totem: 2 too many pending calls\n"),
    (Fault::OpTooLong, "totem: 3 operation too long\n"),
    (Fault::Conflict, "totem: 4 number used for another call\n"),
    (Fault::Stale, "totem: 5 stale number\n"),
    (Fault::NumberGap, "totem: 6 number gap\n"),
    (Fault::SessionsFull, "totem: 7 sessions full\n"),
    (Fault::Stopped, "totem: 8 stopped\n"),
    (Fault::BookFull, "totem: 9 book full\n"),
    (Fault::Stranger, "totem: 10 stranger\n"),
    (Fault::Memory, "totem: 11 out of memory\n"),
    (Fault::BadFrame, "totem: 12 bad frame\n"),
    (Fault::BadScript, "totem: 13 bad script\n"),
    (Fault::NoAnswer, "totem: 14 no answer\n"),
    (Fault::BadSnapshot, "totem: 15 bad snapshot\n"),
];

#[test]
fn each_refusal_is_told_by_its_number_and_its_text(rt: HostRuntime) {
    for (fault, told) in TOLD {
        let mut err = Vec::new(rt.alloc());
        let status = report_failure(&mut err, Failure::Refused(fault));
        assert!(rt; status == 1 && err.as_slice() == told.as_bytes(), "{told}");
    }
}
