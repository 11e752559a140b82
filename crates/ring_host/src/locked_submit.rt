//! The submit of a call, with the node's cell and the book locked.
//!
//! Rules: The book and the threads 24

ghost use Rattle.std.specs.Prelude.{◌≡◌, ◌<◌, ◌+◌, ◌↔◌, length, None, Err, IfOk, IfErr, OnOk, OnErr};
ghost use Rattle.ring_base.specs.declared.fault.Fault.TheVariants.{BookFull};
ghost use Rattle.ring_payload.specs.Calls.{CallFits};
ghost use Rattle.ring_node_spec.specs.Stepping.{submit_fault};
ghost use Rattle.ring_book_lines.specs.Machines.{node_machine};
ghost use Rattle.ring_book_lines.specs.declared.input.LineInput.TheVariants.{Submitted};
ghost use Rattle.ring_host.specs.LockedSteps.{IsFull, IsEntered, IsCallRefused, IsSubmitRefused};
ghost use Rattle.ring_host.specs.RefusingHeap.{IsSubmitFault};

use ring_base::Fault;
use ring_book::{Book, BookName, Cell, Place};
use ring_object::Object;
use ring_payload::Call;
use ring_session::Ticket;

/// Reserves a place, submits the call at the node, enters its line, and returns the ticket.
///
/// `call` must be within the limits of its format.
///
/// Errors, in this order: `BookFull`; `Memory` if an allocation for the place fails; `Stranger`; `Stopped`;
/// `PendingFull`; `Memory` if an allocation for the call fails. The book is then unchanged.
///
/// Rules: The book and the threads 24
pub(crate) fn submit_call<O: Object, K: BookName<O::Alloc>>(
    cell: &mut Cell<O, K>,
    book: &mut Book<O, K>,
    call: Call<O::Alloc>,
) -> Result<Ticket, Fault>
    requires fits { CallFits call }
    ensures ticket { IfOk result (λ ticket. ticket ≡ length cell.old.node.tickets) }
    ensures taken { OnOk result (submit_fault cell.old.node ≡ None) }
    ensures entered { let m = node_machine O.sequential K.name.group in
        OnOk result (IsEntered m cell.old cell.new book.old.lines book.new.lines (Submitted call)) }
    ensures reserved { OnOk result (book.new.reserved ≡ book.old.reserved) }
    ensures err { OnErr result (book.new ≡ book.old) }
    ensures full { (result ≡ Err BookFull) ↔ IsFull book.old }
    ensures why { let m = node_machine O.sequential K.name.group in IfErr result (IsSubmitRefused m cell.old cell.new book.old) }
    ensures refused { IfErr result IsSubmitFault }
{
    let reserved = book.reserve()?;
    match enter_call(cell, book, reserved, call) {
        Ok(ticket) => Ok(ticket),
        Err(fault) => {
            book.release(reserved);
            Err(fault)
        }
    }
}

/// Submits the call in a reserved place.
///
/// If the call is refused, the place stays reserved.
fn enter_call<O: Object, K: BookName<O::Alloc>>(
    cell: &mut Cell<O, K>,
    book: &mut Book<O, K>,
    place: Place,
    call: Call<O::Alloc>,
) -> Result<Ticket, Fault>
    requires place { 0 < book.old.reserved }
    requires fits { CallFits call }
    ensures ticket { IfOk result (λ ticket. ticket ≡ length cell.old.node.tickets) }
    ensures entered { let m = node_machine O.sequential K.name.group in
        OnOk result (IsEntered m cell.old cell.new book.old.lines book.new.lines (Submitted call)) }
    ensures reserved { OnOk result (book.old.reserved ≡ book.new.reserved + 1) }
    ensures err { OnErr result (book.new ≡ book.old) }
    ensures why { let m = node_machine O.sequential K.name.group in IfErr result (IsCallRefused m cell.old cell.new book.old.lines) }
    ensures refused { IfErr result IsSubmitFault }
{
    let ticket = cell.submit(call)?;
    match book.enter(place, cell) {
        Ok(_) => Ok(ticket),
        Err(fault) => Err(fault),
    }
}
