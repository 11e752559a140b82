//! The work of each C function on the node of a handle.
//!
//! Formats: A library for C

ghost use Rattle.std.specs.Prelude.{◌≡◌, None, IfOk, IfErr};
ghost use Rattle.ring_record_node.specs.RecordNodes.{IsOpeningRefused};
ghost use Rattle.totem_c.specs.Calls.{IsOneOf, IsOpened, Opens, Takes, Reads};

use crate::c_handle::Handle;
use crate::handle_contents::HandleContents;
use crate::raw_box::RawBox;
use crate::status::Status;
use ring_base::Fault;
use ring_object::Object;
use ring_record_node::Periods;
use ring_things::StandardObjects;
use std::alloc::Global;
use std::mem::replace;

/// Makes the node and puts it on the heap.
///
/// Errors: those of [`HandleContents::new`]; then `Memory` if an allocation fails.
fn box_contents(
    alloc: Global,
    me: u32,
    votes: &[u8],
    periods: Periods,
) -> Result<Box<HandleContents, Global>, Fault>
    ensures ok { IfOk result (λ contents. IsOpened me votes.now periods contents.value) }
    ensures refused { IfErr result (IsOpeningRefused (IsOneOf me votes.now)) }
{
    let contents = HandleContents::new(alloc, me, votes, periods)?;
    Ok(Box::new(alloc, contents)?)
}

/// Creates a node in an empty handle, as `totem_c_open` does.
///
/// Returns `Misused` if the handle isn't empty, otherwise `Refused` with a fault of [`HandleContents::new`], or with
/// `Memory` if an allocation fails. The handle is then unchanged.
///
/// Formats: A library for C
pub(crate) fn open(
    alloc: Global,
    handle: &mut Handle,
    me: u32,
    votes: &[u8],
    periods: Periods,
) -> Status
    ensures { Opens handle.old.value me votes.now periods result handle.new.value }
{
    match replace(handle, Handle::empty_handle()).into_raw_box(alloc) {
        Some(raw_box) => {
            *handle = Handle::from_contents(raw_box);
            Status::Misused
        }
        None => match box_contents(alloc, me, votes, periods) {
            Ok(contents) => {
                *handle = Handle::from_contents(RawBox::take_apart_box(contents));
                Status::Done
            }
            Err(fault) => Status::Refused(fault),
        },
    }
}

/// Takes the record at the handle's node, as `totem_c_take` does.
///
/// Returns `Misused` if the handle is empty. Otherwise returns `Refused`, in this order, with `Stopped` if the node is
/// gone, `BadFrame` if the record is not a valid request, or `Memory` if an allocation fails.
///
/// Rules: Nodes that records drive 1 to 4
/// Formats: A library for C; Records
pub(crate) fn take(alloc: Global, handle: &mut Handle, kind: u8, bytes: &[u8]) -> Status
    ensures { let object = ⟦<StandardObjects<Global> as Object>⟧ in Takes object.sequential handle.old.value kind bytes.now result handle.new.value }
{
    match replace(handle, Handle::empty_handle()).into_raw_box(alloc) {
        Some(raw_box) => {
            let mut contents = raw_box.into_box();
            let taken = contents.node.take(kind, bytes);
            *handle = Handle::from_contents(RawBox::take_apart_box(contents));
            match taken {
                Ok(()) => Status::Done,
                Err(fault) => Status::Refused(fault),
            }
        }
        None => Status::Misused,
    }
}

/// Moves the first unread bytes of the handle's node to the front of `into`, and returns their number; 0 for an empty
/// handle.
///
/// Formats: A library for C
pub(crate) fn read_unread_bytes(alloc: Global, handle: &mut Handle, into: &mut [u8]) -> usize
    ensures { Reads handle.old.value into.old into.new result handle.new.value }
{
    match replace(handle, Handle::empty_handle()).into_raw_box(alloc) {
        Some(raw_box) => {
            let mut contents = raw_box.into_box();
            let count = contents.node.read(into);
            *handle = Handle::from_contents(RawBox::take_apart_box(contents));
            count
        }
        None => 0,
    }
}

/// Frees the handle's node, if there is one, with its unread bytes.
///
/// The handle is then empty.
///
/// Formats: A library for C
pub(crate) fn close(alloc: Global, handle: &mut Handle)
    ensures { handle.new.value ≡ None }
{
    if let Some(raw_box) = replace(handle, Handle::empty_handle()).into_raw_box(alloc) {
        drop(raw_box.into_box());
    }
}
