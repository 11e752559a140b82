//! Reading records from an input.
//!
//! Formats: Records

ghost use Rattle.std.specs.Prelude.{◌≡◌, ◌<◌, ◌⊎◌, true, false, OnOk, OnErr, IfOk, IfErr, length, take};
ghost use Rattle.std.specs.Io.{ReadsAtMost};
ghost use Rattle.std.specs.Io.KnownBytes.{Keeps, Consumes, IsAtEnd};
ghost use Rattle.byteorder.specs.Endian.{big_bytes};
ghost use Rattle.ring_base.specs.declared.fault.Fault.TheVariants.{Memory, BadFrame};
ghost use Rattle.ring_records.specs.Records.{IsNext, IsNextByte, TakesFewer, TakesUnfinished};

use ring_base::Fault;
use std::alloc::Allocator;
use std::io::{ErrorKind, Read};

/// The maximum length in bytes of a record after its kind and its length.
///
/// Rules: Limits 1
pub const MAX_RECORD_BYTES: usize = 65535;

/// Reads the next record of the input into `bytes`, and returns its kind, or `None` at the end of the input.
///
/// The record's bytes, without kind and length, replace the contents of `bytes`. Kind and bytes aren't checked:
/// [`record_request`](crate::record_request) does that.
///
/// Errors: `BadFrame` if the input fails, or ends within a record. `Memory` if an allocation for the record's bytes
/// fails. Less than a record has then been read. Contracts don't promise that `BadFrame` is returned, since none covers
/// a failing read.
///
/// Formats: Records
pub fn read_record<A: Allocator, R: Read>(
    input: &mut R,
    bytes: &mut Vec<u8, A>,
) -> Result<Option<u8>, Fault>
    ensures next { IfOk result (λ kind. IsNext (R.remaining input.old) (R.remaining input.new) kind bytes.new.items) }
    ensures refused { IfErr result (λ fault. (fault ≡ Memory) ⊎ (fault ≡ BadFrame)) }
    ensures part { OnErr result (TakesUnfinished (R.remaining input.old) (R.remaining input.new)) }
{
    let Some(kind) = read_byte(input)? else {
        return Ok(None);
    };
    let length = read_length(input)?;
    read_bytes(input, length, bytes)?;
    Ok(Some(kind))
}

/// Reads a length: 2 bytes, big-endian.
///
/// Errors: `BadFrame` if the input fails or ends before that.
fn read_length<R: Read>(input: &mut R) -> Result<u16, Fault>
    ensures bytes { IfOk result (λ length. Consumes (R.remaining input.old) (R.remaining input.new) (big_bytes 2 length)) }
    ensures refused { IfErr result (λ fault. fault ≡ BadFrame) }
    ensures part { OnErr result (TakesFewer 2 (R.remaining input.old) (R.remaining input.new)) }
{
    let Some(high) = read_byte(input)? else {
        return Err(Fault::BadFrame);
    };
    let Some(low) = read_byte(input)? else {
        return Err(Fault::BadFrame);
    };
    Ok(256 * u16::from(high) + u16::from(low))
}

/// Reads `count` bytes, which replace the contents of `bytes`.
///
/// Errors: `BadFrame` if the input fails or ends before that. `Memory` if an allocation fails.
fn read_bytes<A: Allocator, R: Read>(
    input: &mut R,
    count: u16,
    bytes: &mut Vec<u8, A>,
) -> Result<(), Fault>
    ensures bytes { OnOk result (Consumes (R.remaining input.old) (R.remaining input.new) bytes.new.items) }
    ensures length { OnOk result (length bytes.new.items ≡ count) }
    ensures refused { IfErr result (λ fault. (fault ≡ Memory) ⊎ (fault ≡ BadFrame)) }
    ensures part { OnErr result (TakesFewer count (R.remaining input.old) (R.remaining input.new)) }
{
    bytes.clear();
    bytes.resize(usize::from(count), 0)?;
    if fill_from_input(input, bytes.as_mut_slice()) {
        Ok(())
    } else {
        Err(Fault::BadFrame)
    }
}

/// Fills `room` from the input.
///
/// Returns false if the input fails or ends before that.
fn fill_from_input<R: Read>(input: &mut R, room: &mut [u8]) -> bool
    ensures whole { result ≡ true → Consumes (R.remaining input.old) (R.remaining input.new) room.new }
    ensures part { result ≡ false → TakesFewer (length room.new) (R.remaining input.old) (R.remaining input.new) }
{
    let mut filled = 0;
    while filled < room.len() {
        match read_retrying(input, &mut room[filled..]) {
            Ok(0) => return false,
            Ok(count) => filled += count,
            Err(_) => return false,
        }
    }
    true
}

/// Reads one byte, or returns `None` at the end of the input.
///
/// Errors: `BadFrame` if the input fails.
fn read_byte<R: Read>(input: &mut R) -> Result<Option<u8>, Fault>
    ensures next { IfOk result (λ byte. IsNextByte (R.remaining input.old) (R.remaining input.new) byte) }
    ensures refused { IfErr result (λ fault. fault ≡ BadFrame) }
    ensures kept { OnErr result (Keeps (R.remaining input.old) (R.remaining input.new)) }
{
    let mut byte = [0];
    match read_retrying(input, &mut byte) {
        Ok(0) => Ok(None),
        Ok(_) => Ok(Some(byte[0])),
        Err(fault) => Err(fault),
    }
}

/// Reads some bytes into the beginning of `room`, and returns their number.
///
/// The number is 0 only at the end of the input or if `room` is empty. An interrupted read is tried again.
///
/// Errors: `BadFrame` if the input fails.
fn read_retrying<R: Read>(input: &mut R, room: &mut [u8]) -> Result<usize, Fault>
    ensures bound { ReadsAtMost result room.new }
    ensures taken { IfOk result (λ count. Consumes (R.remaining input.old) (R.remaining input.new) (take count room.new)) }
    ensures end { IfOk result (λ count. count ≡ 0 → 0 < length room.old → IsAtEnd (R.remaining input.new)) }
    ensures kept { OnErr result (Keeps (R.remaining input.old) (R.remaining input.new)) }
    ensures refused { IfErr result (λ fault. fault ≡ BadFrame) }
{
    for _ in 0..u64::MAX {
        match input.read(room) {
            Ok(count) => return Ok(count),
            Err(error) if error.kind() == ErrorKind::Interrupted => {}
            Err(_) => return Err(Fault::BadFrame),
        }
    }
    Err(Fault::BadFrame)
}
