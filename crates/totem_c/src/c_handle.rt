//! A boxed node as C holds it: an untyped pointer, and a flag that says whether there is a node.
//!
//! Formats: A library for C

ghost use Rattle.std.specs.Prelude.{◌≡◌, None, Some, MatchOption};
ghost use Rattle.std.specs.declared.option.Option.{Option as Maybe};
ghost use Rattle.totem_c.specs.declared.handle_contents.HandleContents.{HandleContents};
ghost use Rattle.totem_c.specs.Handles.{handle_owns};

use crate::handle_contents::HandleContents;
use crate::raw_box::RawBox;
use std::alloc::Global;
use std::marker::Model;
use std::ptr;

/// A handle of a C program: empty, or a node on the heap.
///
/// A type that C passes can't contain a reference, `Box` or `Option` of a node, so the address is one of bytes. The
/// address of an empty handle has no meaning: C makes an empty handle of zeros.
///
/// Formats: A library for C
#[repr(C)]
#[derive(Drop)]
pub struct Handle {
    at: *mut u8,
    made: bool,
    ghost value: { Maybe HandleContents },
}

impl Model for Handle {
    ghost also_owns = { λ h. handle_owns h.made h.at h.value };
}

impl Handle {
    /// Makes an empty handle.
    ///
    /// Its address is null.
    pub(crate) fn empty_handle() -> Handle
        ensures { result.value ≡ None }
    {
        Handle {
            at: ptr::null_mut(),
            made: false,
        }
    }

    /// Makes the handle of a node, which the handle then owns.
    pub(crate) fn from_contents(contents: RawBox<HandleContents, Global>) -> Handle
        ensures { result.value ≡ Some contents.value }
    {
        let RawBox { at, alloc: _ } = contents;
        Handle {
            at: at.cast::<u8>(),
            made: true,
        }
    }

    /// Takes the node out of the handle, or returns `None` for an empty handle.
    ///
    /// `alloc` must be the allocator that made the node.
    pub(crate) fn into_raw_box(self, alloc: Global) -> Option<RawBox<HandleContents, Global>>
        ensures { MatchOption result (self.value ≡ None) (λ raw_box. self.value ≡ Some raw_box.value) }
    {
        let Handle { at, made } = self;
        if made {
            Some(RawBox {
                at: at.cast::<HandleContents>(),
                alloc,
            })
        } else {
            None
        }
    }
}
