//! A node that takes the records of an input one after another, and writes its output records.
//!
//! Rules: Nodes that records drive 5
//! Formats: Records

ghost use Rattle.std.specs.Prelude.{◌≡◌, ℕ, ◌≤◌, length, take, OnOk, OnErr, IfOk, IfErr};
ghost use Rattle.std.specs.Io.KnownBytes.{Appends, IsAtEnd};
ghost use Rattle.ring_base.specs.declared.fault.Fault.TheVariants.{Memory};
ghost use Rattle.ring_timers.specs.Periods.{default_periods};
ghost use Rattle.ring_record_node.specs.Serving.{IsNextServed, AreRecordsServed, IsServed, IsCutFrom, IsCutOff, IsCutShort, IsStop};

use crate::record_node::RecordNode;
use ring_base::{Fault, Fixed};
use ring_clock::Periods;
use ring_failure::{Failure, report_failure};
use ring_object::Object;
use ring_records::{MAX_RECORD_BYTES, read_record};
use std::alloc::Allocator;
use std::io::{self, ErrorKind, Read, Write};

/// Runs processor `me` of the group `fixed` from its opening, with the default periods.
///
/// Takes the records of `input` one after another, and writes the whole output of each to `out` and flushes it before
/// reading the next. Returns the exit status: 0 at the end of the input, otherwise 1. Waits for `input` and `out`.
///
/// Errors, each reported on `err` unless stated otherwise:
/// - `NotMember` if `me` isn't 1 to N; nothing else is done.
/// - `BadFrame` if a record isn't a request, or if the input ends or fails within a record. No more than that record
///   has been read from the input.
/// - `Memory` if an allocation fails at the start, for a record, or for its output. No more than that record has been
///   read from the input.
/// - `out` fails: nothing is reported. The record's request is carried out, and a prefix of its output is on `out`.
/// - 2^64 - 1 records have been taken: nothing is reported.
///
/// Except with `NotMember`, the requests of all earlier records have been carried out, and their output is on `out`,
/// followed by at most that prefix. No contract says when an allocation, `input` or `out` fails. So it isn't proved
/// that memory was in fact refused, that `out` did fail, or, where less than a record was read, that the input ended or
/// failed.
///
/// Rules: Nodes that records drive 5
pub fn serve<O: Object, R: Read, W: Write, E: Write>(
    alloc: O::Alloc,
    fixed: Fixed,
    me: u8,
    input: &mut R,
    out: &mut W,
    err: &mut E,
) -> u8
    ensures status { result ≤ 1 }
    ensures empty_step { result ≡ 0 → err.new ≡ err.old }
    ensures served { result ≡ 0 → IsServed O.sequential O.Alloc fixed me default_periods (R.remaining input.old) (R.remaining input.new)
        (W.contents out.old) (W.contents out.new) }
    ensures cut { result ≡ 1 → IsCutShort O.sequential O.Alloc fixed me default_periods (R.remaining input.old) (R.remaining input.new)
        (W.contents out.old) (W.contents out.new) err.old err.new }
{
    serve_with_periods::<O, R, W, E>(alloc, fixed, me, Periods::default(), input, out, err)
}

/// Runs processor `me` of the group `fixed` as [`serve`] does, with these periods of its timeouts.
///
/// The periods count only once a record brings the time.
///
/// Errors: as for [`serve`].
///
/// Rules: Nodes that records drive 5 and 7
pub fn serve_with_periods<O: Object, R: Read, W: Write, E: Write>(
    alloc: O::Alloc,
    fixed: Fixed,
    me: u8,
    periods: Periods,
    input: &mut R,
    out: &mut W,
    err: &mut E,
) -> u8
    ensures status { result ≤ 1 }
    ensures silent { result ≡ 0 → err.new ≡ err.old }
    ensures served { result ≡ 0 → IsServed O.sequential O.Alloc fixed me periods (R.remaining input.old) (R.remaining input.new)
        (W.contents out.old) (W.contents out.new) }
    ensures cut { result ≡ 1 → IsCutShort O.sequential O.Alloc fixed me periods (R.remaining input.old) (R.remaining input.new)
        (W.contents out.old) (W.contents out.new) err.old err.new }
{
    match serve_all::<O, R, W>(alloc, fixed, me, periods, input, out) {
        Ok(()) => 0,
        Err(failure) => report_failure(err, failure),
    }
}

/// Takes the records of the input, and writes the node's output. `Refused` with `NotMember`, before anything else, or
/// with `Memory`; `BadFrame` at the first byte of a faulty record; `Output`.
fn serve_all<O: Object, R: Read, W: Write>(
    alloc: O::Alloc,
    fixed: Fixed,
    me: u8,
    periods: Periods,
    input: &mut R,
    out: &mut W,
) -> Result<(), Failure>
    ensures served { OnOk result (IsServed O.sequential O.Alloc fixed me periods (R.remaining input.old) (R.remaining input.new)
        (W.contents out.old) (W.contents out.new)) }
    ensures cut { IfErr result (IsCutOff O.sequential O.Alloc fixed me periods (R.remaining input.old) (R.remaining input.new)
        (W.contents out.old) (W.contents out.new)) }
{
    // `NotMember` comes before any memory is requested.
    fixed.proc(me)?;
    let mut bytes = room_for_bytes(alloc)?;
    let mut told = Vec::new(alloc);
    let mut node = RecordNode::<O>::with_periods(alloc, fixed, me, periods)?;
    let served = serve_records(&mut node, input, &mut bytes, &mut told, out);
    // Dropped explicitly, so it is dropped in a function generic over its type, and doesn't live until the exits.
    drop(node);
    served
}

/// Has the borrowed node take the records of the input until none is left, and writes its output. Fails as `serve_all`
/// does.
fn serve_records<O: Object, R: Read, W: Write>(
    node: &mut RecordNode<O>,
    input: &mut R,
    bytes: &mut Vec<u8, O::Alloc>,
    told: &mut Vec<u8, O::Alloc>,
    out: &mut W,
) -> Result<(), Failure>
    ensures served { OnOk result (AreRecordsServed O.sequential node.old node.new (R.remaining input.old) (R.remaining input.new)
        (W.contents out.old) (W.contents out.new) × IsAtEnd (R.remaining input.new)) }
    ensures cut { IfErr result (IsCutFrom O.sequential node.old (R.remaining input.old) (R.remaining input.new)
        (W.contents out.old) (W.contents out.new)) }
{
    let mut at = 0u64;
    for _taken in 0..u64::MAX {
        match serve_next(node, at, input, bytes, told, out)? {
            Some(behind) => at = behind,
            None => return Ok(()),
        }
    }
    Err(Failure::Output)
}

/// Reserves room for the bytes of the longest record, or `Memory`.
fn room_for_bytes<A: Allocator + Copy>(alloc: A) -> Result<Vec<u8, A>, Fault>
    ensures refused { IfErr result (λ fault. fault ≡ Memory) }
{
    Ok(Vec::with_capacity(alloc, MAX_RECORD_BYTES)?)
}

/// Takes the next record of the input, whose first byte has index `at`, and writes out the node's output. Returns the
/// index of the first byte after it: `None` where no record is left. The whole output is built in `told` before any of
/// it is written.
///
/// Errors:
/// - `Refused` with `Memory`, or `BadFrame` at this index where the record is faulty: nothing is written.
/// - `Output`: the request is carried out, and a prefix of the output is written.
fn serve_next<O: Object, R: Read, W: Write>(
    node: &mut RecordNode<O>,
    at: u64,
    input: &mut R,
    bytes: &mut Vec<u8, O::Alloc>,
    told: &mut Vec<u8, O::Alloc>,
    out: &mut W,
) -> Result<Option<u64>, Failure>
    ensures next { IfOk result (λ next. IsNextServed {A = O.Alloc} O.sequential at next node.old node.new (R.remaining input.old) (R.remaining input.new)
        (W.contents out.old) (W.contents out.new)) }
    ensures stop { IfErr result (IsStop O.sequential at node.old (R.remaining input.old) (R.remaining input.new)
        (W.contents out.old) (W.contents out.new)) }
{
    let kind = match read_record(input, bytes) {
        Ok(Some(kind)) => kind,
        Ok(None) => return Ok(None),
        Err(Fault::BadFrame) => return Err(Failure::BadFrame(at)),
        Err(fault) => return Err(Failure::Refused(fault)),
    };
    told.clear();
    match node.take(kind, bytes.as_slice(), told) {
        Ok(true) => {}
        Ok(false) => return Err(Failure::BadFrame(at)),
        Err(_) => return Err(Failure::Refused(Fault::Memory)),
    }
    match write_out(told.as_slice(), out) {
        Ok(()) => Ok(Some(at.saturating_add(3 + bytes.len() as u64))),
        Err(_) => Err(Failure::Output),
    }
}

/// Writes all of the bytes and flushes `out`. Where that fails, a prefix of the bytes is written, perhaps all of them.
fn write_out<W: Write>(bytes: &[u8], out: &mut W) -> io::Result<()>
    ensures all { OnOk result (Appends (W.contents out.old) (W.contents out.new) bytes.now) }
    ensures front { OnErr result ((count : ℕ) × Appends (W.contents out.old) (W.contents out.new) (take count bytes.now)) }
{
    let mut written = 0;
    while written < bytes.len() {
        match write_some(&bytes[written..], out) {
            0 => return Err(io::Error::from(ErrorKind::WriteZero)),
            count => written += count,
        }
    }
    out.flush()
}

/// Writes a prefix of the bytes and returns its length: 0 only where there are none or `out` fails. It repeats an
/// interrupted write.
fn write_some<W: Write>(bytes: &[u8], out: &mut W) -> usize
    ensures bound { result ≤ length bytes.now }
    ensures front { Appends (W.contents out.old) (W.contents out.new) (take result bytes.now) }
{
    for _ in 0..u64::MAX {
        match out.write(bytes) {
            Ok(count) => return count,
            Err(error) if error.kind() == ErrorKind::Interrupted => {}
            Err(_) => return 0,
        }
    }
    0
}
