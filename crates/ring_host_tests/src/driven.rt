//! Hosts whose nodes take their turns by hand.

ghost use Rattle.std.specs.Prelude.{◌≡◌, ◌≤◌, All, IfOk};
ghost use Rattle.ring_payload.specs.Calls.{CallFits};
ghost use Rattle.ring_seat.specs.Seats.{IsAt};

use ring_base::{Fault, Kind};
use ring_host::{BookName, Host, HostTicket, OpenGate, Opening, Seat, Turn};
use ring_object::{Object, Reply};
use ring_payload::Call;
use ring_seat::TurnClock;
use ring_session::Answer;
use ring_things::Counters;
use std::alloc::Allocator;
use std::sync::Wait;
use std::thread::Threads;

/// The most rounds in which a ring forms and the calls that wait for it are answered.
pub const FORM: u32 = 60;

/// The most turns until a timeout is due.
const LONGEST: u32 = 32_000;

/// Returns the answer to the add that raises the counter to `count`.
pub fn done(count: u8) -> Answer {
    Answer::Done(Reply::from_slice(&[0, 0, 0, 0, 0, 0, 0, 0, count]))
}

/// The call of this client and number that adds 5 to counter 0.
pub fn add_of<A: Allocator + Copy>(alloc: A, client: u32, number: u64) -> Result<Call<A>, Fault>
    ensures { IfOk result CallFits }
{
    let call = Call::new(alloc, client, number, Counters::add(0, 5).as_slice())?;
    Ok(call)
}

/// A host of up to three nodes, with four seats: the nodes' own, and others of no node.
#[derive(Drop)]
pub struct DrivenHost<O: Object, K: BookName<O::Alloc>> {
    alloc: O::Alloc,
    pub host: Host<O, K>,
    first: Seat<O::Alloc>,
    second: Seat<O::Alloc>,
    third: Seat<O::Alloc>,
    foreign_seat: Seat<O::Alloc>,
    ghost at: { (first.gauge ≡ host.gauge) × (second.gauge ≡ host.gauge) × (third.gauge ≡ host.gauge) × (foreign_seat.gauge ≡ host.gauge) },
}

impl<O: Object, K: BookName<O::Alloc>> DrivenHost<O, K> {
    /// Makes the host of the opening that `K` names, with `nodes` nodes and inboxes of this size.
    pub fn new(
        alloc: O::Alloc,
        opening: Opening<O>,
        nodes: u8,
        inbox: usize,
    ) -> Result<DrivenHost<O, K>, Fault>
        requires name { opening ≡ K.name }
        requires inbox { (1 ≤ inbox) × (inbox ≤ 1024) }
    {
        let guests = u16::from(4u8.saturating_sub(nodes));
        let (host, mut seats) = Host::<O, K>::with_inbox(alloc, opening, guests, inbox)?;
        let (first, second, third, foreign_seat) = four_of(&host, &mut seats)?;
        Ok(DrivenHost {
            alloc,
            host,
            first,
            second,
            third,
            foreign_seat,
        })
    }

    /// Makes the host of the opening of two nodes that `K` names.
    ///
    /// Its inboxes have the size of those of a host that is given none.
    pub fn new_of_two(alloc: O::Alloc, opening: Opening<O>) -> Result<DrivenHost<O, K>, Fault>
        requires { opening ≡ K.name }
    {
        let (host, mut seats) = Host::<O, K>::new(alloc, opening, 2)?;
        let (first, second, third, foreign_seat) = four_of(&host, &mut seats)?;
        Ok(DrivenHost {
            alloc,
            host,
            first,
            second,
            third,
            foreign_seat,
        })
    }

    /// Returns the first node's clock.
    pub fn clock(&self) -> TurnClock {
        self.first.clock()
    }

    /// Does one turn of the node.
    pub fn turn<W: Wait>(&mut self, rt: &W, node: u8) -> Result<Turn, Fault> {
        match node {
            1 => turn(rt, &self.host, &mut self.first),
            2 => turn(rt, &self.host, &mut self.second),
            _ => turn(rt, &self.host, &mut self.third),
        }
    }

    /// Does `count` turns of the node and returns the last one's report.
    pub fn turns<W: Wait>(&mut self, rt: &W, node: u8, count: u32) -> Result<Turn, Fault> {
        let mut last = Turn {
            dropped: 0,
            length: None,
        };
        for _ in 0..count {
            last = self.turn(rt, node)?;
        }
        Ok(last)
    }

    /// Does a turn of each of the three nodes, `most` times or until none of them finds anything. A refused turn, as each of a
    /// stopped node, finds nothing.
    pub fn rounds<W: Wait>(&mut self, rt: &W, most: u32) {
        for _ in 0..most {
            let first = has_found(self.turn(rt, 1));
            let second = has_found(self.turn(rt, 2));
            let third = has_found(self.turn(rt, 3));
            if !(first || second || third) {
                break;
            }
        }
    }

    /// Counts turns of the node, doing nothing else, until the timeout of this kind is due at its next turn. Real turns that find
    /// nothing would yield, and thousands of those take long on a busy machine.
    pub fn pass(&mut self, node: u8, kind: Kind) {
        match node {
            1 => pass(&self.host, &mut self.first, kind),
            2 => pass(&self.host, &mut self.second, kind),
            _ => pass(&self.host, &mut self.third, kind),
        }
    }

    /// Makes the timeout of this kind due, and does enough turns for it and for those that go first. Returns the last turn's
    /// report.
    pub fn time_out<W: Wait>(&mut self, rt: &W, node: u8, kind: Kind) -> Result<Turn, Fault> {
        self.pass(node, kind);
        self.turns(rt, node, 4)
    }

    /// Forms a ring of all three nodes within `most` rounds; each node's join comes first.
    pub fn form<W: Wait>(&mut self, rt: &W, most: u32) {
        for node in 1..4u8 {
            self.pass(node, Kind::Join);
        }
        self.rounds(rt, most);
    }

    /// Submits the add of this client and number at the node.
    pub fn submit<W: Wait>(
        &mut self,
        rt: &W,
        node: u8,
        client: u32,
        number: u64,
    ) -> Result<HostTicket, Fault> {
        let node = self.host.proc(node)?;
        let call = add_of(self.alloc, client, number)?;
        self.host.submit(rt, &mut self.foreign_seat, node, call)
    }

    /// Stops the node.
    pub fn stop<W: Wait>(&self, rt: &W, node: u8) -> Result<(), Fault> {
        let node = self.host.proc(node)?;
        self.host.stop(rt, node)
    }

    /// Returns the gauge's length of the node, as the seat of no node sees it.
    pub fn look(&mut self, node: u8) -> Result<u64, Fault> {
        let node = self.host.proc(node)?;
        Ok(self.host.gauge().look(&mut self.foreign_seat, node))
    }

    /// Returns the number of places used in the book.
    pub fn places<W: Wait>(&self, rt: &W) -> u32 {
        self.host.read_book(rt, |book| book.places())
    }

    /// Polls the ticket. Returns the answer, and whether the book itself and one look for many answers give the same.
    pub fn polled<W: Wait>(&self, rt: &W, ticket: &HostTicket) -> (Option<Answer>, bool) {
        let answer = self.host.poll(rt, ticket);
        let mut answers = self.host.empty_answers(ticket.node);
        self.host.poll_from(rt, ticket, &mut answers);
        let looked = answers.answer(ticket);
        let HostTicket { node, ticket } = *ticket;
        let told = self.host.read_book(rt, |book| book.answer(node, ticket));
        (answer, answer == told && looked == told)
    }
}

impl<O: Object + Send, K: BookName<O::Alloc> + Send + Sync> DrivenHost<O, K>
where
    O::Alloc: Send + Sync,
{
    /// Runs node 1 on a thread until that ends, and returns the number of places used in the book then.
    ///
    /// The list of its seat has its memory in `ample`.
    pub fn run_first<W: Threads + Wait + Sync>(
        self,
        rt: &W,
        ample: O::Alloc,
    ) -> Result<u32, Fault> {
        let DrivenHost {
            alloc: _,
            host,
            first,
            second: _,
            third: _,
            foreign_seat: _,
        } = self;
        let seats = alone_in(ample, &host, first)?;
        let ran = run_seats(rt, &host, seats);
        let places = host.read_book(rt, |book| book.places());
        drop(host);
        match ran {
            Ok(()) => Ok(places),
            Err(fault) => Err(fault),
        }
    }
}

/// Whether a turn was taken and found something.
fn has_found(turned: Result<Turn, Fault>) -> bool {
    matches!(
        turned,
        Ok(Turn {
            length: Some(_),
            ..
        })
    )
}

/// Makes a list of this seat.
fn alone_in<O: Object, K: BookName<O::Alloc>>(
    alloc: O::Alloc,
    host: &Host<O, K>,
    seat: Seat<O::Alloc>,
) -> Result<Vec<Seat<O::Alloc>, O::Alloc>, Fault>
    requires { IsAt host.now.gauge seat }
    ensures { IfOk result (λ seats. All (IsAt host.now.gauge) seats.items) }
{
    let _host = host;
    let mut seats = Vec::new(alloc);
    seats.push(seat)?;
    Ok(seats)
}

/// Runs the nodes with these seats of the host until their threads end.
fn run_seats<O: Object + Send, K: BookName<O::Alloc> + Send + Sync, W: Threads + Wait + Sync>(
    rt: &W,
    host: &Host<O, K>,
    seats: Vec<Seat<O::Alloc>, O::Alloc>,
) -> Result<(), Fault>
where
    O::Alloc: Send + Sync,
    requires { All (IsAt host.now.gauge) seats.items }
{
    let mut seats = seats;
    host.run(rt, seats.as_mut_slice(), &OpenGate)
}

/// Removes the last four of the host's seats and returns them, the last one last.
fn four_of<O: Object, K: BookName<O::Alloc>>(
    host: &Host<O, K>,
    seats: &mut Vec<Seat<O::Alloc>, O::Alloc>,
) -> Result<
    (
        Seat<O::Alloc>,
        Seat<O::Alloc>,
        Seat<O::Alloc>,
        Seat<O::Alloc>,
    ),
    Fault,
>
    requires { All (IsAt host.now.gauge) seats.old.items }
    ensures { IfOk result (λ four. IsAt host.now.gauge four.0 × IsAt host.now.gauge four.1 × IsAt host.now.gauge four.2 × IsAt host.now.gauge four.3) }
{
    let fourth = last_seat(host, seats)?;
    let third = last_seat(host, seats)?;
    let second = last_seat(host, seats)?;
    let first = last_seat(host, seats)?;
    Ok((first, second, third, fourth))
}

/// Removes and returns the last of the host's seats.
pub fn last_seat<O: Object, K: BookName<O::Alloc>>(
    host: &Host<O, K>,
    seats: &mut Vec<Seat<O::Alloc>, O::Alloc>,
) -> Result<Seat<O::Alloc>, Fault>
    requires { All (IsAt host.now.gauge) seats.old.items }
    ensures seats { All (IsAt host.now.gauge) seats.new.items }
    ensures seat { IfOk result (IsAt host.now.gauge) }
{
    match host.take_seat(seats) {
        Some(seat) => Ok(seat),
        None => Err(Fault::NotMember),
    }
}

/// Does one turn of a node's own seat; a seat of no node has no turn.
fn turn<O: Object, K: BookName<O::Alloc>, W: Wait>(
    rt: &W,
    host: &Host<O, K>,
    seat: &mut Seat<O::Alloc>,
) -> Result<Turn, Fault>
    requires { IsAt host.now.gauge seat.old }
    ensures { IsAt host.now.gauge seat.new }
{
    let Some(_node) = seat.node() else {
        return Err(Fault::NotMember);
    };
    host.turn(rt, seat)
}

/// Counts turns of the seat until the timeout of this kind is due at the next one.
fn pass<O: Object, K: BookName<O::Alloc>>(host: &Host<O, K>, seat: &mut Seat<O::Alloc>, kind: Kind)
    requires { IsAt host.now.gauge seat.old }
    ensures { IsAt host.now.gauge seat.new }
{
    for _ in 0..LONGEST {
        if left_of(seat.clock(), kind) <= 1 {
            break;
        }
        seat.tick();
    }
}

/// Returns the number of turns until the timeout of this kind is due.
fn left_of(clock: TurnClock, kind: Kind) -> u16 {
    match kind {
        Kind::Join => clock.join,
        Kind::Retransmit => clock.retransmit,
        Kind::Consensus => clock.consensus,
        Kind::Loss => clock.loss,
    }
}
