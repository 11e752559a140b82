//! Ghost values: values that only contracts read.
//!
//! The code of a ring forgets: it keeps a window, two numbers and some bits. Its contracts speak of all that ever
//! happened. A [`Ghost`] holds such a history for contracts, and occupies no memory at run time.
//!
//! A ghost value alone promises nothing: [`ghost_of`] sets it to any value that its caller names. The struct that has
//! it as a field ties it to the code. The struct's `Model` shows the value to contracts, and the `Model`'s invariant
//! says how the other fields, which the code reads, follow from it. A method that changes the value and not the fields,
//! or the fields and not the value, is refused: the invariant must hold again. The limits of `T` aren't known of the
//! value: of a `u64` in it contracts know only that it is a number. So each bound that is needed belongs in the
//! invariant too.
//!
//! No proof says that a method keeps the history: a method with a weak clause may set it to any value that the
//! invariant allows. So each method that changes such a struct fixes its new value by an equation with the old one.
//! Whoever adds a method follows this rule.

ghost use Rattle.std.specs.Prelude.{◌≡◌};
ghost use base.Fml.{ftrue};

use std::alloc::AllocError;
use std::marker::{Model, PhantomData, Send, Sync};

/// A `T` that only contracts see.
///
/// It has no bytes and owns nothing, and no `T` is ever made for it. The module's documentation says how a struct ties
/// such a field to its code.
pub struct Ghost<T> {
    marker: PhantomData<T>,
    /// The value that contracts read.
    ///
    /// Code can't read it.
    pub ghost value: { T },
}

impl<T> Model for Ghost<T> {
    ghost also_owns = { λ _. ftrue };
}

/// Returns the ghost value that the caller's proof names by `ghost-ghost_of`, a term over the values of `from`.
///
/// The caller borrows in `from` all values that the term uses, as in `ghost_of(&(&self.ghost_value, x))`. At run time
/// the call does nothing.
pub fn ghost_of<T, A>(from: &A) -> Ghost<T>
    ghost ghost_step: { T }
    ensures { result.value ≡ ghost_step }
{
    // Only the caller's proof reads it.
    let _ = from;
    Ghost {
        marker: PhantomData,
    }
}

/// Returns a ghost value that equals `value` at this moment.
///
/// Later changes of `value` don't change it.
pub fn ghost_now<T>(value: &T) -> Ghost<T>
    ensures { result.value ≡ value.now }
{
    ghost_of(&value)
}

/// Returns a new ghost value, computed from `ghost_value` and from the value that `from` borrows.
///
/// The caller's proof names the function that computes it by `ghost-ghost_step`. `ghost_value` is unchanged.
pub fn ghost_step<T, F>(ghost_value: &Ghost<T>, from: &F) -> Ghost<T>
    ghost step: { T → F → T }
    ensures { result.value ≡ step ghost_value.now.value from.now }
{
    ghost_of(&(ghost_value, from))
}

/// Returns a new ghost value, computed from `ghost_value` and from the values that `first` and `second` borrow.
///
/// The caller's proof names the function that computes it by `ghost-ghost_step_of_two`. `ghost_value` is unchanged.
pub fn ghost_step_of_two<T, F, G>(ghost_value: &Ghost<T>, first: &F, second: &G) -> Ghost<T>
    ghost step: { T → F → G → T }
    ensures { result.value ≡ step ghost_value.now.value first.now second.now }
{
    ghost_of(&(ghost_value, first, second))
}

/// A copy has the same value.
///
/// Copying never fails.
impl<T> Clone for Ghost<T> {
    ghost is_clone = { λ ghost_value copy. copy.value ≡ ghost_value.value };

    fn clone(&self) -> Result<Ghost<T>, AllocError> {
        Ok(ghost_of(&self))
    }
}

// Sound, like the next impl: a ghost value has no bytes and no `T` is ever made for it, so no part of a `T` moves to
// another thread or is shared.
unsafe impl<T> Send for Ghost<T> {}

unsafe impl<T> Sync for Ghost<T> {}

impl<T> Drop for Ghost<T> {
    fn drop(self) {
        let Self { marker: _ } = self;
    }
}
