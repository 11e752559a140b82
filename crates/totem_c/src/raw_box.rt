//! A box as its raw pointer.

ghost use Rattle.std.specs.Prelude.{◌≡◌};
ghost use Rattle.std.specs.Box.Ownership.{box_owns};

use std::alloc::Allocator;
use std::marker::Model;

/// A box that was taken apart: the address of its block, and its allocator.
pub(crate) struct RawBox<T, A: Allocator> {
    /// The address of the block with the value.
    pub(crate) at: *mut T,
    /// The allocator that gave the block.
    pub(crate) alloc: A,
    pub(crate) ghost value: { T },
}

impl<T, A: Allocator> Model for RawBox<T, A> {
    ghost also_owns = { λ l. box_owns (A.dealloc_token l.alloc) T.row l.at l.value };
}

impl<T: Drop, A: Allocator> RawBox<T, A> {
    /// Takes a box apart into address and allocator.
    ///
    /// The value stays where it is and isn't dropped.
    pub(crate) fn take_apart_box(value: Box<T, A>) -> RawBox<T, A>
        ensures { result.value ≡ value.value }
    {
        let (at, alloc) = Box::into_raw_with_allocator(value);
        RawBox { at, alloc }
    }

    /// Puts the box together again, with the same value.
    pub(crate) fn into_box(self) -> Box<T, A>
        ensures { result.value ≡ self.value }
    {
        let RawBox { at, alloc } = self;
        // Sound: a `RawBox` owns what the box that was taken apart owned. It is consumed here, so the block has one
        // owner again.
        unsafe { Box::from_raw(alloc, at) }
    }
}
