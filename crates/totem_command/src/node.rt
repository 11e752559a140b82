//! The command `node`, which runs one node.
//!
//! Rules: Nodes that records drive 5
//! Formats: The command line
//! Formats: Records

use ring_base::{Fault, Fixed};
use ring_object::Object;
use ring_record_node::{Periods, serve_with_periods};
use ring_sweep::{Failure, report_failure};
use std::alloc::Global;
use std::io::{BufReader, Read, Write};

/// Runs processor `me` of a group with these votes and these periods from its opening, on the records of the input.
///
/// Returns the exit status: 0 at the end of the input, otherwise 1.
///
/// Errors: each is reported on `err`. `NotMember` unless there are 1 to 16 votes, each at least 1; `Memory` if an
/// allocation fails; otherwise those of `serve`.
///
/// Rules: Nodes that records drive 5 and 7
/// Formats: Records; The command line
pub(crate) fn run_record_node<T: Object<Alloc = Global>, I: Read, O: Write, E: Write>(
    alloc: Global,
    me: u8,
    votes: &[u8],
    periods: Periods,
    input: &mut I,
    out: &mut O,
    err: &mut E,
) -> u8 {
    match (Fixed::with_votes(votes), BufReader::new(alloc, input)) {
        (Ok(group), Ok(mut input)) => {
            serve_with_periods::<T, _, _, _>(alloc, group, me, periods, &mut input, out, err)
        }
        (Err(fault), _) => report_failure(err, Failure::Refused(fault)),
        (Ok(_), Err(_)) => report_failure(err, Failure::Refused(Fault::Memory)),
    }
}
