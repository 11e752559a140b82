//! The submit and the stop of a host, with the node's cell and the book locked.
//!
//! Rules: The book and the threads 20, 24 and 25

ghost use Rattle.std.specs.Prelude.{◌≡◌, ◌⊎◌, Err, IfOk, IfErr, IfSome, IsSomeAnd, OnOk};
ghost use Rattle.ring_base.specs.declared.fault.Fault.TheVariants.{Stranger};
ghost use Rattle.ring_payload.specs.Calls.{CallFits};
ghost use Rattle.ring_host.specs.LockedSteps.{IsSettled};
ghost use Rattle.ring_host.specs.RefusingHeap.{IsTurnFault, IsSubmitFault};
ghost use Rattle.ring_host.specs.SubmitsAndStops.{IsSubmitted, IsStopped};

use crate::locked_step::{finish_step, stop_cell};
use crate::locked_submit::submit_call;
use ring_base::{Fault, Proc};
use ring_book::{Book, BookName, Cell};
use ring_object::Object;
use ring_payload::Call;
use ring_seat::Outbox;
use ring_session::Ticket;
use std::alloc::Allocator;

/// The content of a node's lock, for a book `B` in the book's lock.
///
/// A host's submits and stops know both contents by this trait alone. Only its calls state that a call was submitted or
/// a node stopped, and only the locks give the values to call them on. So no body of
/// [`HostOf::submit`](crate::HostOf::submit) or [`HostOf::stop`](crate::HostOf::stop) can make up its result.
///
/// Rules: The book and the threads 20, 24 and 25
pub trait LockedNode<B, A: Allocator + Copy + Drop> {
    ghost use Rattle.std.specs.Prelude.{ℕ};
    ghost use Rattle.ring_payload.specs.declared.call.Call.{Call as OneCall};

    /// True of a processor, a call that was submitted at its node, and the ticket.
    ///
    /// For a cell: some run of the group ends with the issue of the call there, and the ticket is the index of this
    /// call, from 0, among all calls that the run issues there.
    ghost is_submitted: { ℕ → OneCall A → ℕ → Type 0 };

    /// True of a processor whose node was stopped.
    ///
    /// For a cell: some run of the group ends with the stop of that node.
    ghost is_stopped: { ℕ → Type 0 };

    /// True of a node whose last step isn't in the book.
    ///
    /// For a cell: it is a line ahead.
    ghost is_ahead: { Self → Type 0 };

    /// Submits a call at the processor `node`, whose node this is, enters its line in the book, and returns the ticket.
    ///
    /// Takes the call out of `call`, which must have one, within the limits of its format.
    ///
    /// Errors, in this order: `Stranger` if this is the node of another processor; `BookFull` if the book has no free
    /// place; `Memory` if an allocation for the place fails; `Stranger` while the node's last step isn't in the book;
    /// `Stopped` if the node has stopped; `PendingFull` if it can give no ticket; `Memory` if an allocation for the
    /// call fails. Node and book are then unchanged. Unless it returns `Stranger`, it leaves no node ahead that wasn't
    /// so before.
    ///
    /// Rules: The book and the threads 16 and 24
    // The call is borrowed: Rattle makes no proof of an `impl` for `Cell<O, K>` with a method that takes it by value.
    fn submit_in(
        &mut self,
        book: &mut B,
        node: Proc,
        call: &mut Option<Call<A>>,
    ) -> Result<Ticket, Fault>
        requires fits { IsSomeAnd call.old CallFits }
        ensures submitted { IfOk result (λ ticket. IfSome call.old (λ c. is_submitted node c ticket)) }
        ensures settled { is_ahead self.new → is_ahead self.old ⊎ (result ≡ Err Stranger) }
        ensures refused { IfErr result IsSubmitFault };

    /// Stops the processor `node`, whose node this is, for good, and enters the stop in the book.
    ///
    /// `outbox` takes the frames of the line, which sends none.
    ///
    /// Errors, in this order: `Stranger` if this is the node of another processor; `BookFull` if the book has no free
    /// place; `Memory` if an allocation fails; `Stranger` while the node's last step isn't in the book; `Stopped` if
    /// the node had already stopped. Node and book are then unchanged. Unless it returns `Stranger`, it leaves no node
    /// ahead that wasn't so before.
    ///
    /// Rules: The book and the threads 16 and 25
    fn stop_in(&mut self, book: &mut B, node: Proc, outbox: &mut Outbox<A>) -> Result<(), Fault>
        ensures stopped { OnOk result (is_stopped node) }
        ensures settled { is_ahead self.new → is_ahead self.old ⊎ (result ≡ Err Stranger) }
        ensures refused { IfErr result IsTurnFault };
}

impl<O: Object, K: BookName<O::Alloc>> LockedNode<Book<O, K>, O::Alloc> for Cell<O, K> {
    ghost use Rattle.std.specs.Prelude.{◌≡◌, true};
    ghost use Rattle.ring_host.specs.SubmitsAndStops.{IsSubmitted, IsStopped};

    ghost is_submitted = { λ node call ticket. IsSubmitted O.sequential K.name.group node call ticket };

    ghost is_stopped = { λ node. IsStopped O.Alloc O.sequential K.name.group node };

    ghost is_ahead = { λ cell. cell.ahead ≡ true };

    fn submit_in(
        &mut self,
        book: &mut Book<O, K>,
        node: Proc,
        call: &mut Option<Call<O::Alloc>>,
    ) -> Result<Ticket, Fault> {
        let Some(call) = call.take() else {
            unreachable!()
        };
        submit_at(self, book, node, call)
    }

    fn stop_in(
        &mut self,
        book: &mut Book<O, K>,
        node: Proc,
        outbox: &mut Outbox<O::Alloc>,
    ) -> Result<(), Fault> {
        stop_at(self, book, node, outbox)
    }
}

/// Submits the call at processor `node`, whose cell this is, enters its line, and returns the ticket.
///
/// `call` must be within the limits of its format.
///
/// Errors: as for [`LockedNode::submit_in`].
///
/// Rules: The book and the threads 24
fn submit_at<O: Object, K: BookName<O::Alloc>>(
    cell: &mut Cell<O, K>,
    book: &mut Book<O, K>,
    node: Proc,
    call: Call<O::Alloc>,
) -> Result<Ticket, Fault>
    requires fits { CallFits call }
    ensures submitted { IfOk result (λ ticket. IsSubmitted O.sequential K.name.group node call ticket) }
    ensures settled { IsSettled result cell.old cell.new }
    ensures refused { IfErr result IsSubmitFault }
{
    check_processor(cell, node)?;
    let ticket = submit_call(cell, book, call)?;
    // Laws: no effect at run time. They tell the proof that the lines are a run of the group, and that the node's state
    // is the one after that run.
    book.run_law();
    book.cell_follows_book_law(cell);
    Ok(ticket)
}

/// Stops processor `node`, whose cell this is, and enters the stop.
///
/// Errors: as for [`LockedNode::stop_in`].
///
/// Rules: The book and the threads 25
fn stop_at<O: Object, K: BookName<O::Alloc>>(
    cell: &mut Cell<O, K>,
    book: &mut Book<O, K>,
    node: Proc,
    outbox: &mut Outbox<O::Alloc>,
) -> Result<(), Fault>
    ensures stopped { OnOk result (IsStopped O.Alloc O.sequential K.name.group node) }
    ensures settled { IsSettled result cell.old cell.new }
    ensures refused { IfErr result IsTurnFault }
{
    check_processor(cell, node)?;
    let place = book.reserve()?;
    let stopped = stop_cell(cell);
    finish_step(book, place, cell, stopped, outbox)?;
    Ok(())
}

/// Checks that the cell's node is processor `node`.
///
/// Errors: `Stranger` if it isn't. No lock of a host holds such a cell.
fn check_processor<O: Object, K: BookName<O::Alloc>>(
    cell: &Cell<O, K>,
    node: Proc,
) -> Result<(), Fault>
    ensures ok { OnOk result (cell.now.me ≡ node) }
    ensures err { IfErr result (λ fault. fault ≡ Stranger) }
{
    if cell.processor() == node {
        Ok(())
    } else {
        Err(Fault::Stranger)
    }
}
