//! A client's port to one node of a host.
//!
//! Rules: Clients 2 to 5; The book and the threads 26

ghost use Rattle.std.specs.Prelude.{◌≡◌, ◌≤◌, ◌+◌, [], ◌∷◌, ◌++◌, length, All, IfOk, IfErr, IfSome, OnOk, OnErr};
ghost use Rattle.ring_base.specs.declared.fault.Fault.TheVariants.{NotMember};
ghost use Rattle.ring_client.specs.Asking.{new_asked, asked_after_submit, asked_after_refusal, asked_after_poll, IsClientVisible, IsSubmittable};
ghost use Rattle.ring_seat.specs.Seats.{IsAt};
ghost use Rattle.ring_host.specs.Answering.{IsAnswered};
ghost use Rattle.ring_host_port.specs.VisibleAnswer.{if_visible_to_client};
ghost use Rattle.ring_host_port.specs.Submitting.{IsNotSubmitted};

use ring_base::{Fault, Proc};
use ring_client::{Asked, Port, if_client_visible};
use ring_host::{AnswerCache, BookName, Host, HostTicket, Seat};
use ring_object::Object;
use ring_payload::{Call, MAX_OPERATION};
use ring_session::{Answer, copy_of};
use std::sync::Wait;
use std::thread::{self, Parker};
use std::time::Duration;

/// The number of polls of one call after which a port begins to sleep.
const POLLS_TO_SLEEP: u64 = 1_000;

/// The number of polls from one sleep to the next, once a port has begun to sleep.
const POLLS_PER_SLEEP: u64 = 10;

/// The number of polls of a call between two looks at the book while the port's node commits nothing new.
///
/// Rules: The book and the threads 26
const POLLS_PER_LOOK: u64 = 64;

/// The length of a sleep, in microseconds.
const SLEEP_MICROS: u64 = 50;

/// The maximum number of polls that a client on a thread makes at one node for one call, before it tries the next node.
///
/// Rules: Clients 4; The book and the threads 28
pub const MAX_POLLS_AT_NODE: u64 = 1_000_000;

/// A port to a node of a host, with a seat of that host.
///
/// Its calls wait for the host's locks, so it borrows the runtime. A poll that finds no answer yields to the nodes'
/// threads. From the thousandth poll of a call on, every tenth also sleeps for 50 microseconds, so that a call outlasts
/// the sleeps of its nodes. One look at the book serves 64 tickets of the port's node.
///
/// Rules: Clients 2; The book and the threads 26
#[derive(Drop)]
pub struct HostPort<'a, O: Object, K: BookName<O::Alloc>, W: Wait> {
    rt: &'a W,
    host: &'a Host<O, K>,
    seat: Seat<O::Alloc>,
    node: Proc,
    asked: Asked,
    /// The answers that the port's last look at the book found.
    cache: AnswerCache<O, K>,
    /// The ticket and the length for which the port last looked at the book.
    last_look: PendingLook,
    ghost fits: { (seat.gauge ≡ host.now.gauge) × (node ≤ host.now.gauge.words) },
}

/// A look at the book: its ticket, whether that ticket is of the port's node, and the node's committed length just
/// before.
#[derive(Drop)]
struct PendingLook {
    ticket: u64,
    length: u64,
    is_own: bool,
}

impl<'a, O: Object, K: BookName<O::Alloc>, W: Wait> HostPort<'a, O, K, W> {
    /// Creates the port to `node` of the host, before any submit.
    ///
    /// `seat` must be one of the host's: a node's own or one of no node. `node` must be a node of the host. Does not
    /// allocate.
    ///
    /// Rules: Clients 2
    pub fn new(
        rt: &'a W,
        host: &'a Host<O, K>,
        seat: Seat<O::Alloc>,
        node: Proc,
    ) -> HostPort<'a, O, K, W>
        requires { (seat.gauge ≡ host.now.gauge) × (node ≤ host.now.gauge.words) }
        ensures node { result.node ≡ node }
        ensures asked { result.asked ≡ new_asked }
        ensures seat { result.seat ≡ seat }
    {
        HostPort {
            rt,
            host,
            seat,
            node,
            asked: Asked::new(),
            cache: host.empty_answers(node),
            last_look: PendingLook {
                ticket: 0,
                length: 0,
                is_own: false,
            },
        }
    }

    /// Creates the port to node `number` of the host, counted from 1, with the last of `seats`, which it removes.
    ///
    /// The seats must be the host's.
    ///
    /// Does not allocate.
    ///
    /// Errors: `NotMember` if the host has no such node, or no seat is left. The seats are then unchanged.
    ///
    /// Rules: Clients 2; Refusals 1
    pub fn to_node(
        rt: &'a W,
        host: &'a Host<O, K>,
        seats: &mut Vec<Seat<O::Alloc>, O::Alloc>,
        number: u8,
    ) -> Result<HostPort<'a, O, K, W>, Fault>
        requires { All (IsAt host.now.gauge) seats.old.items }
        ensures seats { All (IsAt host.now.gauge) seats.new.items }
        ensures port { IfOk result (λ port. (port.node ≡ number) × (port.asked ≡ new_asked)) }
        ensures last { IfOk result (λ port. seats.old.items ≡ seats.new.items ++ port.seat ∷ []) }
        ensures taken { OnOk result (length seats.old.items ≡ length seats.new.items + 1) }
        ensures kept { OnErr result (seats.new.items ≡ seats.old.items) }
        ensures err { OnErr result (1 ≤ number → number ≤ 16 → number ≤ host.now.gauge.words → seats.old.items ≡ []) }
        ensures refused { IfErr result (λ fault. fault ≡ NotMember) }
    {
        let node = host.proc(number)?;
        match host.take_seat(seats) {
            Some(seat) => Ok(HostPort::new(rt, host, seat, node)),
            None => Err(Fault::NotMember),
        }
    }

    /// Submits a copy of the call.
    fn try_submit(&mut self, call: &Call<O::Alloc>) -> Result<HostTicket, Fault>
        ensures ticket { IfOk result (λ ticket. ticket.node ≡ self.new.node) }
        ensures fits { OnOk result (IsSubmittable call.now) }
        ensures refused { IfErr result (IsNotSubmitted call.now) }
        ensures node { self.new.node ≡ self.old.node }
        ensures asked { self.new.asked ≡ self.old.asked }
    {
        if call.op.as_slice().len() > MAX_OPERATION {
            return Err(Fault::OpTooLong);
        }
        if call.number == 0 {
            return Err(Fault::NumberGap);
        }
        let call = copy_of(call)?;
        self.host.submit(self.rt, &mut self.seat, self.node, call)
    }

    /// Returns whether the last look at the book was for this ticket, of the port's node, and the node has committed
    /// nothing since.
    fn is_look_redundant(&self, ticket: &HostTicket, length: u64) -> bool {
        self.last_look.is_own
            && ticket.node == self.node
            && self.last_look.ticket == ticket.ticket.number()
            && self.last_look.length == length
    }

    /// Returns the answer to the ticket, from the port's cache or by a look at the book.
    ///
    /// After a look without success it looks again only once the port's node has committed more, and at each 64th poll
    /// of the call.
    fn find_answer(&mut self, ticket: &HostTicket) -> Option<Answer>
        ensures answered { IfSome result (IsAnswered O.Alloc O.sequential K.name.group ticket.now.node ticket.now.ticket) }
        ensures node { self.new.node ≡ self.old.node }
        ensures asked { self.new.asked ≡ self.old.asked }
    {
        if let Some(answer) = self.cache.answer(ticket) {
            return Some(answer);
        }
        let length = self.host.gauge().look(&mut self.seat, self.node);
        if self.is_look_redundant(ticket, length) && self.asked.polls % POLLS_PER_LOOK != 0 {
            return None;
        }
        self.last_look = PendingLook {
            ticket: ticket.ticket.number(),
            length,
            is_own: ticket.node == self.node,
        };
        self.host.poll_from(self.rt, ticket, &mut self.cache);
        self.cache.answer(ticket)
    }

    /// Yields to the nodes' threads, and also sleeps at every tenth poll once a call has waited for long.
    fn yield_or_sleep(&self) {
        thread::yield_now();
        let polls = self.asked.polls;
        if polls >= POLLS_TO_SLEEP && polls % POLLS_PER_SLEEP == 0 {
            Parker::new().park_timeout(self.rt, Duration::from_micros(SLEEP_MICROS));
        }
    }

    /// Records a poll for which the host returned `found`, and returns that answer if a client may see it.
    fn note_poll_result(&mut self, found: Option<Answer>) -> Option<Answer>
        ensures answer { result ≡ if_visible_to_client found }
        ensures told { IfSome result IsClientVisible }
        ensures node { self.new.node ≡ self.old.node }
        ensures asked { self.new.asked ≡ asked_after_poll result self.old.asked }
    {
        let answer = if_visible_to_client(found);
        self.asked.note_poll(answer);
        self.asked.answer
    }
}

impl<'a, O: Object, K: BookName<O::Alloc>, W: Wait> Port for HostPort<'a, O, K, W> {
    type Alloc = O::Alloc;

    type Ticket = HostTicket;

    ghost asked_of = { λ port. port.asked };

    /// Submits a copy of the call at the port's node and records it in `asked`.
    ///
    /// Waits for the locks of the node and of the book.
    ///
    /// Errors, in this order: `OpTooLong` if the operation has more than 1,024 bytes. `NumberGap` if the call's number
    /// is 0. `Memory` if an allocation for the copy fails. Then those of [`Host::submit`](ring_host::HostOf::submit):
    /// `BookFull`, `Memory`, `Stranger`, `Stopped`, `PendingFull`, `Memory`. Node and book are then unchanged, and
    /// `asked` has the refusal.
    ///
    /// Rules: Clients 2; The book and the threads 24
    fn submit(&mut self, call: &Call<O::Alloc>) -> Result<HostTicket, Fault>
        ensures ok { OnOk result (self.new.asked ≡ asked_after_submit call.now) }
        ensures refused { IfErr result (λ fault. self.new.asked ≡ asked_after_refusal fault (asked_after_submit call.now)) }
        ensures fits { OnOk result (IsSubmittable call.now) }
        ensures why { IfErr result (IsNotSubmitted call.now) }
        ensures ticket { IfOk result (λ ticket. ticket.node ≡ self.new.node) }
        ensures node { self.new.node ≡ self.old.node }
    {
        self.asked.note_submit(call);
        let submit = self.try_submit(call);
        if let Err(fault) = submit {
            self.asked.note_refusal(fault);
        }
        submit
    }

    /// Returns the answer to the ticket if the host's book has it and a client may see it.
    ///
    /// Some run of the group then has the ticket's issue and this answer to it. Otherwise returns `None`, after it has
    /// yielded and perhaps slept. The result may be `None` forever, so a caller should limit its polls. Waits for the
    /// book's lock if it looks at the book.
    ///
    /// Rules: Clients 2; The book and the threads 26
    fn poll(&mut self, ticket: &HostTicket) -> Option<Answer>
        ensures asked { self.new.asked ≡ asked_after_poll result self.old.asked }
        ensures told { IfSome result IsClientVisible }
        ensures answered { IfSome result (IsAnswered O.Alloc O.sequential K.name.group ticket.now.node ticket.now.ticket) }
        ensures node { self.new.node ≡ self.old.node }
    {
        let found = self.find_answer(ticket);
        let answer = self.note_poll_result(found);
        if answer.is_none() {
            self.yield_or_sleep();
        }
        answer
    }

    /// Returns the record of the last submit at the port, with the polls since.
    ///
    /// Does not allocate.
    ///
    /// Rules: Clients 2
    fn asked(&self) -> &Asked {
        &self.asked
    }
}

/// Returns the answer that was found, if there is one and a client may see it.
fn if_visible_to_client(found: Option<Answer>) -> Option<Answer>
    ensures value { result ≡ if_visible_to_client found }
    ensures told { IfSome result IsClientVisible }
{
    match found {
        Some(answer) => if_client_visible(answer),
        None => None,
    }
}
