//! Snapshots prefixed by their length, as parts of a larger snapshot.
//!
//! Formats: Snapshots

ghost use Rattle.std.specs.Prelude.{◌≡◌, ◌++◌, IfErr, OnOk, OnErr};
ghost use Rattle.ring_base.specs.declared.fault.Fault.TheVariants.{Memory};
ghost use Rattle.ring_object.specs.Sized.{sized};

use crate::object::Object;
use byteorder::{BigEndian, ByteOrder};
use ring_base::Fault;

/// Appends the object's snapshot to `out`, preceded by its length in bytes as a big-endian `u64`.
///
/// The bytes that `out` already has are unchanged.
///
/// Errors: `Memory` if an allocation fails; the bytes of `out` are then unchanged.
///
/// Formats: Snapshots
pub fn append_sized_snapshot<O: Object>(
    object: &O,
    out: &mut Vec<u8, O::Alloc>,
) -> Result<(), Fault>
    ensures content { OnOk result (O.is_content object.now) }
    ensures ok { OnOk result (out.new.items ≡ out.old.items ++ sized 8 (O.sequential.snapshot_of object.now)) }
    ensures err { OnErr result (out.new.items ≡ out.old.items) }
    ensures refused { IfErr result (λ fault. fault ≡ Memory) }
{
    let start = out.len();
    out.extend_from_slice(&[0; 8])?;
    if let Err(fault) = object.snapshot(out) {
        out.truncate(start);
        return Err(fault);
    }
    let len = out.len() - start - 8;
    BigEndian::write_u64(&mut out.as_mut_slice()[start..], len as u64);
    Ok(())
}
