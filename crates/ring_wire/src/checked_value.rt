//! Returning a decoded value only if it is within its limits.

ghost use Rattle.std.specs.Prelude.{◌≡◌, ℕ, List, Some, None, if◌then◌else◌};
ghost use Rattle.ring_payload.specs.Codecs.{IsReadResult};

use ring_payload::Fault;

/// Returns the decoded `value` if `is_valid` is true.
///
/// Errors: `BadFrame` if it is false; the value is then dropped.
#[inline(always)]
pub(crate) fn checked_value<T: Drop>(is_valid: bool, value: T) -> Result<T, Fault>
    ensures { (rest : List ℕ) → IsReadResult result rest (if is_valid then Some (value, rest) else None) }
{
    if is_valid {
        Ok(value)
    } else {
        Err(Fault::BadFrame)
    }
}
