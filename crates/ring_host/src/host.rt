//! The host: a book's nodes in locks, and the calls of its threads and callers.
//!
//! Rules: The book and the threads 19, 20, 24 to 26 and 28

ghost use Rattle.std.specs.Prelude.{◌≡◌, ◌<◌, ◌≤◌, ◌⊎◌, [], ◌++◌, All, IfOk, IfErr, IfSome, IfNone, OnOk, OnErr};
ghost use Rattle.std.specs.Prelude.{Ok, Some, None, option_to_list};
ghost use Rattle.ring_base.specs.declared.fault.Fault.TheVariants.{NotMember, Memory, Stranger};
ghost use Rattle.std.specs.Fn.{FnOnceReturnsAt};
ghost use Rattle.ring_payload.specs.Calls.{CallFits};
ghost use Rattle.ring_seat.specs.Clocks.{clock_after_turn};
ghost use Rattle.ring_seat.specs.Seats.{IsAt, IsOwn};
ghost use Rattle.ring_host.specs.Answering.{IsAnswered};
ghost use Rattle.ring_host.specs.RefusingHeap.{IsTurnFault, IsSubmitFault};
ghost use Rattle.ring_host.specs.declared.inbox_frame_and_task.Task.TheVariants.{Timeout};
ghost use Rattle.ring_host.specs.Tasks.{TaskFits, IsFrame};
ghost use Rattle.ring_host.specs.Turns.{published_by, IsCounted, IsReported};

use crate::answer_cache::AnswerCache;
use crate::event_count::EventCount;
use crate::gate::YieldingGate;
use crate::gated_turn::turn_report;
use crate::inbox::Inbox;
use crate::inbox_frame_and_task::Task;
use crate::latch::{AtomicLatch, Latch};
use crate::locked_node::LockedNode;
use crate::locking::lock_after_spinning;
use crate::turn::Turn;
use ring_base::{Fault, Kind, MAX_PROCESSORS, Proc};
use ring_book::{Book, BookName, Cell};
use ring_object::Object;
use ring_payload::Call;
use ring_seat::{Gauge, Outbox, Seat};
use ring_session::{Answer, Ticket};
use ring_wire::Frame;
use std::alloc::{Allocator, Global};
use std::marker::Model;
use std::sync::{Mutex, Wait};

/// The ticket of a call that was submitted at a node of the host.
///
/// [`HostOf::poll`] takes this and returns the answer.
///
/// Rules: The book and the threads 24 and 26
#[derive(Clone, Copy, Debug, PartialEq, Eq)]
pub struct HostTicket {
    /// The node at which the call was submitted.
    pub node: Proc,
    /// The ticket that the node gave for the call: its index, from 0, among all tickets of the node.
    pub ticket: Ticket,
}

/// A host: a book's nodes in locks, with their inboxes, the book and the gauge.
///
/// `C` is the content of a node's lock, `B` that of the book's lock, and `L` the latch that closes the host. Contracts
/// see the host's gauge, the size of each inbox and the latch. The host's seats belong to its gauge, which has a word
/// for each node.
///
/// Lock order: a node's lock, then the book's. No call holds the locks of two nodes.
///
/// Rules: The book and the threads 19 and 20
#[derive(Drop)]
pub struct HostOf<C, B, A: Allocator + Copy + Drop = Global, L = AtomicLatch> {
    /// The allocator of copies of frames.
    pub(crate) alloc: A,
    /// The cells in their locks, that of processor 1 first.
    pub(crate) cells: Vec<Mutex<C>, A>,
    /// The inboxes of the nodes, that of processor 1 first.
    pub(crate) inboxes: Vec<Inbox<A>, A>,
    /// The number of items for which each inbox has room.
    pub(crate) inbox_size: usize,
    /// The committed length of each node, as its turns published it.
    pub(crate) gauge: Gauge<A>,
    /// Notified by each submit, by each stop and by the close.
    pub(crate) event_count: EventCount,
    /// Set once the host is closed.
    pub(crate) closed: L,
    /// The book in its lock.
    pub(crate) book: Mutex<B>,
}

impl<C, B, A: Allocator + Copy + Drop, L> Model for HostOf<C, B, A, L> {
    ghost use Rattle.std.specs.Prelude.{◌≡◌, vec_len, All};
    ghost use Rattle.ring_host.specs.Hosts.{HostView};
    ghost use Rattle.ring_host.specs.Items.{HasRoomFor};

    ghost Value = { HostView L };

    ghost view = { λ h. record { gauge = h.gauge; inbox_size = h.inbox_size; closed = h.closed } };

    ghost invariant = { λ h. (vec_len h.cells ≡ h.gauge.words)
        × ((vec_len h.inboxes ≡ h.gauge.words) × All (HasRoomFor h.inbox_size) h.inboxes.items) };
}

/// The host of the book that `K` names: the cells of its nodes, with objects `O`, and the book, all in locks.
///
/// Rules: The book and the threads 19
pub type Host<O: Object, K> = HostOf<Cell<O, K>, Book<O, K>, O::Alloc>;

impl<C, B, A: Allocator + Copy + Drop> HostOf<C, B, A> {
    /// Locks the book, calls the closure with it once, and returns the closure's result.
    ///
    /// Waits for the book's lock. The closure must not call a function of this host that takes a lock: it may deadlock.
    ///
    /// Rules: The book and the threads 26
    pub fn read_book<W: Wait, R, F: FnOnce(&B) -> R>(&self, rt: &W, f: F) -> R
        requires { F.IsAlwaysCallable f }
        ensures { (b : _) × FnOnceReturnsAt F.FnOnce f b result }
    {
        let book = lock_after_spinning(rt, &self.book);
        f(&book)
    }

    /// Returns the host's processor `number`.
    ///
    /// Does not allocate.
    ///
    /// Errors: `NotMember` unless `number` is 1 to the number of nodes.
    ///
    /// Rules: The book and the threads 19
    pub fn proc(&self, number: u8) -> Result<Proc, Fault>
        ensures ok { IfOk result (λ node. (node ≡ number) × (node ≤ self.now.gauge.words)) }
        ensures err { OnErr result (1 ≤ number → number ≤ 16 → self.now.gauge.words < number) }
        ensures refused { IfErr result (λ fault. fault ≡ NotMember) }
    {
        if number == 0 || number > MAX_PROCESSORS || usize::from(number) > self.inboxes.len() {
            return Err(Fault::NotMember);
        }
        Ok(Proc::new(number))
    }

    /// Removes and returns the last of these seats, or returns `None` if the list is empty.
    ///
    /// The seats must be this host's. Of the list that the host was created with, the seats of no node come first. The
    /// nodes' own seats follow, from the last node to node 1. Does not allocate.
    ///
    /// Rules: The book and the threads 19
    pub fn take_seat(&self, seats: &mut Vec<Seat<A>, A>) -> Option<Seat<A>>
        requires { All (IsAt self.now.gauge) seats.old.items }
        ensures seats { All (IsAt self.now.gauge) seats.new.items }
        ensures seat { IfSome result (IsAt self.now.gauge) }
        ensures last { seats.old.items ≡ seats.new.items ++ option_to_list result }
        ensures none { IfNone result (seats.old.items ≡ []) }
    {
        seats.pop()
    }

    /// Returns the host's gauge: for each node a word with the greatest committed length that was published for it, 0
    /// at first.
    ///
    /// Takes no lock and does not allocate.
    ///
    /// Rules: The book and the threads 33 and 34
    pub fn gauge(&self) -> &Gauge<A>
        ensures { result.now ≡ self.now.gauge }
    {
        &self.gauge
    }

    /// Takes the node's next task: the timeout that is due, otherwise the first item of the inbox, whose frame is read
    /// into `place`.
    ///
    /// Returns `None` if there is neither.
    ///
    /// Errors: `Memory` or `Stranger` if the item can't be read; the item is then spent.
    ///
    /// Rules: The book and the threads 21 and 22
    pub(crate) fn take_task<W: Wait>(
        &self,
        rt: &W,
        node: Proc,
        due: Option<Kind>,
        place: &mut Option<Frame<A>>,
    ) -> Result<Option<Task<A>>, Fault>
        requires { node ≤ self.now.gauge.words }
        ensures due { IfSome due (λ kind. result ≡ Ok (Some (Timeout kind))) }
        ensures item { IfNone due (IfOk result (λ found. IfSome found IsFrame)) }
        ensures fits { IfOk result (λ found. IfSome found (TaskFits place.new)) }
        ensures refused { IfErr result (λ fault. (fault ≡ Memory) ⊎ (fault ≡ Stranger)) }
    {
        if let Some(kind) = due {
            return Ok(Some(Task::Timeout(kind)));
        }
        match self.inboxes[node.number() as usize - 1].pop(rt) {
            Some(item) => Ok(Some(Task::decode_task(self.alloc, item, place)?)),
            None => Ok(None),
        }
    }
}

impl<C, B, A: Allocator + Copy + Drop, L: Latch> HostOf<C, B, A, L> {
    /// Closes the host for good: the threads of `run` end after their current turn, and all rests end.
    ///
    /// Turns and submits of other callers still succeed. Takes no lock and does not allocate. The contract says that
    /// this host's latch was set, which only [`Latch::set`](crate::Latch::set) states.
    ///
    /// Rules: The book and the threads 28 and 29
    pub fn close(&self)
        ensures { L.was_set self.now.closed }
    {
        self.closed.set();
        self.event_count.notify_all();
    }
}

impl<O: Object, K: BookName<O::Alloc>> HostOf<Cell<O, K>, Book<O, K>, O::Alloc> {
    /// Runs one turn of the seat's node: a timeout that is due, or else the first item of its inbox.
    ///
    /// Returns the number of dropped copies and the node's committed length, dropped places included, which it
    /// publishes on the seat. A turn that finds nothing yields, publishes nothing, and returns 0 and `None`.
    ///
    /// The seat must be a node's own seat of this host. [`Seat::tick`] counts the turn on its clock, even if the turn
    /// fails. [`Seat::take`] restarts the timeouts if the item is a token or a commit token that the step doesn't
    /// ignore. Waits for the locks of the node and of the book.
    ///
    /// Errors, in this order: `Memory` if an allocation fails while the item is read, or `Stranger` if its bytes aren't
    /// a frame; `Stranger` if the book doesn't have it for this node; `BookFull`, or `Memory` for the place; then those
    /// of the node's step: `Stranger`, `Stopped`, or `Memory`, which leaves the node stopped, with its stop in the
    /// book. A turn that fails before the step leaves the node unchanged. Any turn that fails sends and publishes
    /// nothing, and the timeout or item that it took is spent.
    ///
    /// Rules: The book and the threads 21 and 22, 30 to 32
    pub fn turn<W: Wait>(&self, rt: &W, seat: &mut Seat<O::Alloc>) -> Result<Turn, Fault>
        requires own { IsOwn self.now.gauge seat.old }
        ensures seat { IsOwn self.now.gauge seat.new × (seat.new.node ≡ seat.old.node) × (seat.new.seen ≡ seat.old.seen) }
        ensures ok { IfOk result (λ turn. seat.new.published ≡ published_by turn.length seat.old.published) }
        ensures empty_turns { IfOk result (λ turn. turn.length ≡ None → turn.dropped ≡ 0) }
        ensures clock { IfOk result (λ turn. IsCounted turn.length seat.old.clock seat.new.clock) }
        ensures step { IfOk result (λ turn.
            IsReported O.Alloc O.sequential K.name.group turn.length seat.old.clock seat.new.clock) }
        ensures err { OnErr result ((seat.new.published ≡ seat.old.published) × (seat.new.clock ≡ clock_after_turn seat.old.clock)) }
        ensures refused { IfErr result IsTurnFault }
    {
        let done = self.gated_turn(rt, seat, &YieldingGate)?;
        Ok(turn_report(done))
    }

    /// Returns the answer to the ticket's call if this host's book has it.
    ///
    /// If there is an answer, some run of the group issues the ticket and has this answer to it. The result may be
    /// `None` forever, for example if the node stops, the book is full or the node didn't give the ticket, so a caller
    /// should limit its polls. That the ticket is one of this host isn't checked. Waits for the book's lock.
    ///
    /// Rules: The book and the threads 26
    pub fn poll<W: Wait>(&self, rt: &W, ticket: &HostTicket) -> Option<Answer>
        ensures { IfSome result (IsAnswered O.Alloc O.sequential K.name.group ticket.now.node ticket.now.ticket) }
    {
        let book = lock_after_spinning(rt, &self.book);
        // A law: no effect at run time. It tells the proof that the book's lines are a run of the group.
        book.run_law();
        book.answer(ticket.node, ticket.ticket)
    }

    /// Returns an empty cache for the node's answers, which [`poll_from`](HostOf::poll_from) fills.
    ///
    /// Does not allocate.
    ///
    /// Rules: The book and the threads 26
    pub fn empty_answers(&self, node: Proc) -> AnswerCache<O, K>
        ensures { result ≡ record { node = node; first = 0; found = [] } }
    {
        AnswerCache::empty_cache(self.alloc, node)
    }

    /// Looks up the answers to `ticket` and to the later tickets of the same node, all under the book's lock.
    ///
    /// They replace the contents of `answers`. They end before the first ticket without an answer, after 64, or where
    /// an allocation fails. So there may be none, perhaps forever: see [`poll`](HostOf::poll). Waits for the book's
    /// lock.
    ///
    /// Rules: The book and the threads 26
    pub fn poll_from<W: Wait>(&self, rt: &W, ticket: &HostTicket, answers: &mut AnswerCache<O, K>)
        ensures node { answers.new.node ≡ ticket.now.node }
        ensures first { answers.new.first ≡ ticket.now.ticket }
    {
        answers.make_room();
        let book = lock_after_spinning(rt, &self.book);
        answers.fill_from_book(&book, ticket);
    }
}

impl<C: LockedNode<B, A>, B, A: Allocator + Copy + Drop> HostOf<C, B, A> {
    /// Submits a call at the node, enters its line, and returns the node with its ticket.
    ///
    /// Seat and node must be this host's. `call` must be within the limits of its format, as each call from `Call::new`
    /// is. A successful submit ends all rests. Waits for the locks of the node and of the book.
    ///
    /// If the call is submitted, some run of the group ends with its issue at the node, and the ticket is the index of
    /// this call, from 0, among all calls that the run issues there.
    ///
    /// Errors, in this order: `BookFull` if the book has no free place; `Memory` if an allocation for the place fails;
    /// `Stranger` while the node's last step isn't in the book; `Stopped` if the node has stopped; `PendingFull` if it
    /// can give no ticket; `Memory` if an allocation for the call fails. Node and book are then unchanged.
    ///
    /// Rules: The book and the threads 24 and 29
    pub fn submit<W: Wait>(
        &self,
        rt: &W,
        seat: &mut Seat<A>,
        node: Proc,
        call: Call<A>,
    ) -> Result<HostTicket, Fault>
        requires seat { seat.old.gauge ≡ self.now.gauge }
        requires member { node ≤ self.now.gauge.words }
        requires fits { CallFits call }
        ensures seat { seat.new ≡ seat.old }
        ensures node { IfOk result (λ t. t.node ≡ node) }
        ensures submitted { IfOk result (λ t. C.is_submitted node call t.ticket) }
        ensures refused { IfErr result IsSubmitFault }
    {
        // Only the contract uses the seat: who submits has a seat of this host.
        let _seat = seat;
        let submitted = self.submit_locked(rt, node, call);
        if submitted.is_ok() {
            self.event_count.notify_all();
        }
        submitted
    }

    /// Stops a node of this host for good, and enters the stop in the book.
    ///
    /// A successful stop ends all rests: resting nodes take so few turns that they would give up the stopped node only
    /// after hours. Waits for the locks of the node and of the book.
    ///
    /// If the node is stopped, some run of the group ends with its stop.
    ///
    /// Errors, in this order: `BookFull` if the book has no free place; `Memory` if an allocation fails; `Stranger`
    /// while the node's last step isn't in the book; `Stopped` if the node had already stopped. Node and book are then
    /// unchanged.
    ///
    /// Rules: The book and the threads 25 and 29
    pub fn stop<W: Wait>(&self, rt: &W, node: Proc) -> Result<(), Fault>
        requires { node ≤ self.now.gauge.words }
        ensures stopped { OnOk result (C.is_stopped node) }
        ensures refused { IfErr result IsTurnFault }
    {
        self.stop_locked(rt, node)?;
        self.event_count.notify_all();
        Ok(())
    }

    /// Submits a call under the node's lock and the book's.
    ///
    /// It holds the book's lock from the reservation to the line: taking it twice would cost more time than the submit
    /// in between.
    fn submit_locked<W: Wait>(&self, rt: &W, node: Proc, call: Call<A>) -> Result<HostTicket, Fault>
        requires member { node ≤ self.now.gauge.words }
        requires fits { CallFits call }
        ensures node { IfOk result (λ t. t.node ≡ node) }
        ensures submitted { IfOk result (λ t. C.is_submitted node call t.ticket) }
        ensures refused { IfErr result IsSubmitFault }
    {
        let mut cell = lock_after_spinning(rt, &self.cells[node.number() as usize - 1]);
        let mut book = lock_after_spinning(rt, &self.book);
        let ticket = cell.submit_in(&mut book, node, &mut Some(call))?;
        Ok(HostTicket { node, ticket })
    }

    /// Stops a node under its lock and the book's.
    fn stop_locked<W: Wait>(&self, rt: &W, node: Proc) -> Result<(), Fault>
        requires { node ≤ self.now.gauge.words }
        ensures stopped { OnOk result (C.is_stopped node) }
        ensures refused { IfErr result IsTurnFault }
    {
        let mut cell = lock_after_spinning(rt, &self.cells[node.number() as usize - 1]);
        let mut book = lock_after_spinning(rt, &self.book);
        let mut none = Outbox::new(self.alloc);
        cell.stop_in(&mut book, node, &mut none)
    }
}
