//! The clients of a live run.
//!
//! Rules: Objects 7; The book and the threads 28
//! Formats: The command line

ghost use Rattle.std.specs.Prelude.{◌≡◌, ◌+◌, ◌≤◌, IfOk, IfErr};
ghost use Rattle.ring_client.specs.Calling.{CallRefused};
ghost use Rattle.ring_live.specs.LiveClients.{count_in_reply, read_bytes, HasRead};

use ring_base::Fault;
use ring_client::{Client, Port};
use ring_client_threads::Caller;
use ring_object::Reply;
use ring_things::{Counters, ReplyParts, ShelfPosition};
use std::sync::atomic::{AtomicU64, Ordering};
use std::sync::{Mutex, Wait};
use std::thread::{self, Parker};
use std::time::Duration;

/// The place of the counters on the shelf of the standard object.
const COUNTERS: ShelfPosition = ShelfPosition::Second;

/// The number of unsuccessful looks after which a client that waits for the others starts to sleep.
const LOOKS_BEFORE_SLEEP: u64 = 1_000;

/// The length of a sleep, in microseconds.
const SLEEP_MICROS: u64 = 50;

/// The results of a client's calls.
///
/// Formats: The command line
#[derive(Clone, Copy)]
pub(crate) struct ClientResult {
    /// The number of its adds that were answered.
    pub(crate) answered: u64,
    /// The counter that client 1 read, 0 for any other client; or the fault because of which there is none: `NoAnswer`
    /// before the client calls.
    pub(crate) counter: Result<u64, Fault>,
}

/// A client of a live run, which adds 1 to the counter, and reads it at the end if it is client 1.
///
/// Its waits need the runtime, so it borrows it.
///
/// Rules: The book and the threads 28
/// Formats: The command line
#[derive(Drop)]
pub(crate) struct LiveCaller<'a, W: Wait> {
    rt: &'a W,
    /// The client's number, from 1, which is also the number of the node that it tries first.
    number: u8,
    /// The number of adds that it makes.
    calls: u8,
    /// The number of clients of the run that have not ended.
    running: &'a AtomicU64,
    result: Mutex<ClientResult>,
}

impl<'a, W: Wait> LiveCaller<'a, W> {
    /// Creates client `number`, which is to make `calls` adds.
    ///
    /// It hasn't called yet: no add is answered, and its counter is the fault `NoAnswer`. `running` counts the clients
    /// of the run that have not ended, this one included.
    pub(crate) fn new(rt: &'a W, number: u8, calls: u8, running: &'a AtomicU64) -> LiveCaller<'a, W>
        ensures { result.number ≡ number }
    {
        LiveCaller {
            rt,
            number,
            calls,
            running,
            result: Mutex::new(ClientResult {
                answered: 0,
                counter: Err(Fault::NoAnswer),
            }),
        }
    }

    /// Returns the results of the client's calls so far.
    pub(crate) fn result(&self) -> ClientResult {
        *self.result.lock(self.rt)
    }

    /// Reads the counter if this is client 1, once no other client runs.
    ///
    /// Returns 0 for any other client.
    ///
    /// Errors: as for [`Client::call`].
    fn read_after_others<P: Port>(&self, client: &mut Client<P>) -> Result<u64, Fault> {
        if self.number != 1 {
            return Ok(0);
        }
        wait_for_others(self.rt, self.running);
        read_counter(client)
    }
}

impl<'a, W: Wait> Caller for LiveCaller<'a, W> {
    ghost first = { λ caller. caller.number };

    fn first_node(&self) -> u8 {
        self.number
    }

    /// Makes the adds, one after the other, or ends at the first fault.
    ///
    /// Client 1 then waits for the others to end, and reads the counter. The results are stored.
    ///
    /// Rules: Objects 7
    /// Formats: The command line
    fn make_calls<P: Port>(&self, client: &mut Client<P>) {
        let answered = add_to_counter(client, self.calls);
        let counter = self.read_after_others(client);
        *self.result.lock(self.rt) = ClientResult { answered, counter };
    }

    /// Counts the client as ended, so that client 1 doesn't wait for it.
    fn after_calls(&self) {
        self.running.fetch_sub(1, Ordering::SeqCst);
    }
}

/// Makes `calls` adds, or ends at the first fault.
///
/// Returns the number of answered adds. The client's next number is higher by as many.
fn add_to_counter<P: Port>(client: &mut Client<P>, calls: u8) -> u64
    ensures most { result ≤ calls }
    ensures answered { client.new.next ≡ client.old.next + result }
{
    let add = COUNTERS.operation(&Counters::add(0, 1));
    for answered in 0..calls {
        if client.call(add.as_slice()).is_err() {
            return u64::from(answered);
        }
    }
    u64::from(calls)
}

/// Reads the counter with a call.
///
/// Errors: as for [`Client::call`].
///
/// Rules: Objects 7
fn read_counter<P: Port>(client: &mut Client<P>) -> Result<u64, Fault>
    ensures counter { IfOk result (HasRead P.asked_of client.old client.new) }
    ensures refused { IfErr result (CallRefused P.asked_of client.old client.new read_bytes) }
{
    let read = COUNTERS.operation(&Counters::read(0));
    match client.call(read.as_slice()) {
        Ok(reply) => Ok(counter_value_in(&reply)),
        Err(fault) => Err(fault),
    }
}

/// Waits until only one client runs.
///
/// A look that finds more yields, and after many looks also sleeps.
fn wait_for_others<W: Wait>(rt: &W, running: &AtomicU64) {
    let mut looks = 0u64;
    for _ in rt.forever() {
        if running.load(Ordering::SeqCst) <= 1 {
            return;
        }
        thread::yield_now();
        looks = looks.saturating_add(1);
        if looks >= LOOKS_BEFORE_SLEEP {
            Parker::new().park_timeout(rt, Duration::from_micros(SLEEP_MICROS));
        }
    }
}

/// Returns the count in a reply, 0 if it has none.
fn counter_value_in(reply: &Reply) -> u64
    ensures { result ≡ count_in_reply reply.now }
{
    match ReplyParts::read(reply.as_slice()) {
        Some(replied) => replied.value.unwrap_or(0),
        None => 0,
    }
}
