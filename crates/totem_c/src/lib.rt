//! One node with the standard object, as a static library for C.
//!
//! `include/totem.h` declares these functions and states the rules that a C program must follow.
//!
//! Rules: Nodes that records drive 1 to 4, 6 and 7
//! Formats: A library for C
#![tactic(auto)]

mod c_handle;
mod handle_contents;
mod handle_functions;
mod raw_box;
mod status;

ghost use Rattle.std.specs.Prelude.{◌≡◌, None};
ghost use Rattle.ring_timers.specs.Periods.{default_periods};
ghost use Rattle.totem_c.specs.Calls.{Opens, OpensTimed, Takes, Reads};
ghost use Rattle.totem_c.specs.Status.{status_number};
ghost use Rattle.totem_c.specs.declared.status.Status.{Status as Told};

use c_handle::Handle;
use ring_object::Object;
use ring_record_node::Periods;
use ring_things::StandardObjects;
use status::Status;
use std::alloc::Global;

/// Opens processor `me`, counted from 1, of a group with these votes, 1 to 255 each, and puts it into an empty handle.
///
/// Its timeouts have the default periods. Returns a status: 0 if the node was opened.
///
/// Errors, as numbers: 255 if the handle isn't empty; 1 unless there are 1 to 16 votes of 1 to 255 and `me` is 1 to
/// their number; 11 if an allocation fails. The handle is then unchanged.
///
/// Rules: Nodes that records drive 1
/// Formats: A library for C
#[unsafe(no_mangle)]
pub extern "C" fn totem_c_open(alloc: Global, handle: &mut Handle, me: u32, votes: &[u8]) -> u8
    ensures { (status : Told) × (result ≡ status_number status) × Opens handle.old.value me votes.now default_periods status handle.new.value }
{
    handle_functions::open(alloc, handle, me, votes, Periods::default()).number()
}

/// Opens processor `me` of a group with these votes, as `totem_c_open` does, with these periods of its timeouts, in
/// milliseconds, each at least 1.
///
/// Returns a status: 0 if the node was opened.
///
/// Errors, as numbers: 255 if a period is 0 or the handle isn't empty; 1 unless there are 1 to 16 votes of 1 to 255 and
/// `me` is 1 to their number; 11 if an allocation fails. The handle is then unchanged.
///
/// Rules: Nodes that records drive 1 and 7; A node with a clock 3
/// Formats: A library for C
#[unsafe(no_mangle)]
pub extern "C" fn totem_c_open_timed(
    alloc: Global,
    handle: &mut Handle,
    me: u32,
    votes: &[u8],
    join: u32,
    retransmit: u32,
    consensus: u32,
    loss: u32,
) -> u8
    ensures { (status : Told) × (result ≡ status_number status)
        × OpensTimed handle.old.value me votes.now join retransmit consensus loss status handle.new.value }
{
    match Periods::new(join, retransmit, consensus, loss) {
        Some(periods) => handle_functions::open(alloc, handle, me, votes, periods).number(),
        None => Status::Misused.number(),
    }
}

/// Carries out a record's request at the handle's node.
///
/// The record has the kind `kind` and the bytes `bytes`. The records that the node produces follow those that are still
/// unread; `totem_c_read` reads them. Returns a status: 0 if the request was carried out, even if a record says that
/// the node refused it.
///
/// Errors, as numbers, in this order: 255 if the handle is empty; 8 if the node is gone; 12 if the record is not a
/// valid request; 11 if an allocation fails. After 11 the node is gone, with everything unread: close the handle. After
/// the others nothing was done.
///
/// Rules: Nodes that records drive 1 to 4
/// Formats: A library for C; Records
#[unsafe(no_mangle)]
pub extern "C" fn totem_c_take(alloc: Global, handle: &mut Handle, kind: u8, bytes: &[u8]) -> u8
    ensures { let object = ⟦<StandardObjects<Global> as Object>⟧ in
        (status : Told) × (result ≡ status_number status) × Takes object.sequential handle.old.value kind bytes.now status handle.new.value }
{
    handle_functions::take(alloc, handle, kind, bytes).number()
}

/// Moves the first unread bytes of the handle's node to the front of `into`, and returns their number.
///
/// These bytes are then no longer unread, and the node is unchanged. What the rest of `into` has is unspecified.
///
/// Returns 0 only if no byte is unread, `into` is empty or the handle is empty. Unread bytes may be left even if the
/// result is less than the length of `into`.
///
/// Formats: A library for C
#[unsafe(no_mangle)]
pub extern "C" fn totem_c_read(alloc: Global, handle: &mut Handle, into: &mut [u8]) -> usize
    ensures { Reads handle.old.value into.old into.new result handle.new.value }
{
    handle_functions::read_unread_bytes(alloc, handle, into)
}

/// Frees the handle's node, with its unread bytes, and leaves the handle empty.
///
/// An empty handle stays empty.
///
/// Formats: A library for C
#[unsafe(no_mangle)]
pub extern "C" fn totem_c_close(alloc: Global, handle: &mut Handle)
    ensures { handle.new.value ≡ None }
{
    handle_functions::close(alloc, handle);
}
