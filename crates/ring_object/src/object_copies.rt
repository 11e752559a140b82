//! Copies of objects.

ghost use Rattle.std.specs.Prelude.{◌≡◌, IfOk, IfErr};
ghost use Rattle.ring_base.specs.declared.fault.Fault.TheVariants.{Memory};

use crate::object::Object;
use ring_base::Fault;

/// Returns a copy of the object with the same content, in memory of `alloc`.
///
/// The copy is restored from the object's snapshot.
///
/// Errors: `Memory` if an allocation fails.
///
/// Rules: Objects 3
pub fn copy_by_snapshot<O: Object>(alloc: O::Alloc, object: &O) -> Result<O, Fault>
    ensures ok { IfOk result (λ copy. copy ≡ object.now) }
    ensures refused { IfErr result (λ fault. fault ≡ Memory) }
{
    let mut bytes = Vec::new(alloc);
    object.snapshot(&mut bytes)?;
    O::restore(alloc, bytes.as_slice())
}
