//! Pairing a value with the value of a result.

ghost use Rattle.std.specs.Prelude.{◌≡◌, Ok, Err, IfOk, IfErr};

/// Returns the pair of `first` and the value of `second`.
///
/// Errors: the error of `second`; `first` is then dropped.
pub fn pair_result<T: Drop, U, E>(first: T, second: Result<U, E>) -> Result<(T, U), E>
    ensures first { IfOk result (λ pair. pair.0 ≡ first) }
    ensures second { IfOk result (λ pair. second ≡ Ok pair.1) }
    ensures refused { IfErr result (λ error. second ≡ Err error) }
{
    match second {
        Ok(second) => Ok((first, second)),
        Err(error) => Err(error),
    }
}
