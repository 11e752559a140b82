//! Totem as one library: the public names that a user's program needs.
//!
//! Up to 16 processors agree on one order of calls, and each applies it to its own copy of an object. Which names to
//! use:
//!
//! - To simulate a group on one thread, with chosen deliveries, losses, timeouts and stops: [`World`] with its
//!   [`Event`]s. A [`Pump`] holds the copies that are in transit.
//! - To call a simulated group as a client would: [`Client`] over [`WorldPort`]s, which share a [`Network`].
//! - To run a node over your own network: [`Driver`]. It takes [`ValidFrame`]s and the time, and returns frames with
//!   their receivers. It has no socket and measures no time.
//! - To keep a node's timeouts without a driver: [`Timers`], to which your program passes the time.
//! - To run a node with frames that you check yourself: [`Node`] with its [`Input`]s, which returns [`Outs`].
//! - To replicate registers, counters, a queue, names, or four of these: [`Registers`], [`Counters`], [`Queue`],
//!   [`Names`], [`Shelf`].
//! - To replicate a user-defined object: [`Object`], made of [`KeyedOperation`], [`Table`] and [`reply_of`].
//!   `docs/TUTORIAL.md` makes one.
//! - To run ring cores without objects, where virtual synchrony is enough: [`Rings`] with its [`RingEvent`]s.
//! - To test that an order is a linearization of a history: [`is_linearization`].
//! - To name the operations of a user-defined object in scripts: [`Vocabulary`] with [`OperationForm`]s, or
//!   [`EmptyVocabulary`], which has only their bytes.
//! - To make a script of a user-defined object from a seed: [`generate_script_by`], [`generate_by`].
//! - To run a script of a user-defined object and check it: [`script_of`].
//! - To check such a script with a stop and a cut of each node before each event: [`sweep_of`].
//! - To see the effect of each event of such a script: [`trace_of`], with [`ReplyVocabulary`] for the words of replies.
//!
//! Nodes on threads: [`run_callers`] runs the nodes of a group on threads while clients call. Each client is a
//! [`Caller`] on its own thread. The result is the one order of their calls, and its history.
//!
//! The parts of such a run can be combined in other ways. A [`Host`] holds the nodes of an [`Opening`]. [`Host::run`]
//! runs each on a thread with a [`Seat`], until the host is closed. A [`Gate`] decides between turns whether a node may
//! rest. [`OpenGate`] never rests; under [`PacedGate`] a host that has nothing to do rests. A client calls over
//! [`HostPort`]s, each with its own seat, and any thread may stop a node. A [`BookName`] names the opening in types, so
//! that all results of a host are of that opening's run; `std::marker::Brand` is one.
//!
//! A group's configuration is a [`Fixed`]: the number of processors, with their votes. A processor of it is a [`Proc`].
//! Each refused call returns one of fifteen [`Fault`]s. An operation is bytes: an [`Operation`] has those for a ready
//! object, a [`ShelfOperation`] those for an object on a shelf. [`ReplyParts::read`] decodes a reply.
//!
//! `Rattle.totem_ring.specs` has the definitions that the contracts of a user's program may cite. `docs/PROMISES.md`
//! has the promises of each call. Laws are functions without cost whose postconditions a proof may use:
//!
//! - [`object_law`]: the laws of an object.
//! - [`linear_law`]: every run whose calls are within the limits of a call has one order.
//! - [`call_fits_snapshot_law`]: a call within the limits of a frame can be encoded in a snapshot, too.
//! - [`node_fits_law`]: a node and each frame that it sends are within the limits of the formats.
//! - [`stopped_for_memory_law`]: after a single event, a world knows exactly which node stopped because an allocation
//!   failed.
#![tactic(auto)]

pub use ring_base::{Fault, Fixed, Kind, MAX_PROCESSORS, Proc, ProcSet, RingId, State};
pub use ring_client::{Asked, Client, Port};
pub use ring_client_threads::{
    Book, BookName, Caller, ClientCalls, Gate, GatePlace, Gauge, Host, HostPort, HostTicket,
    OpenGate, Opening, PacedGate, Seat, Turn, TurnActivity, run_callers,
};
pub use ring_core_world::{RingEvent, Rings};
pub use ring_driver::{
    Driver, Input, Node, OutgoingFrame, Outs, ValidFrame, call_fits_snapshot_law, linear_law,
    node_fits_law,
};
pub use ring_explore::{ExplorePlan, explore_of};
pub use ring_object::{Object, Reply, ShortBytes, object_law};
pub use ring_payload::Call;
pub use ring_script::{Argument, EmptyVocabulary, OperationForm, ShelfVocabulary, Vocabulary};
pub use ring_script_generator::{generate_by, generate_script_by};
pub use ring_session::{Answer, Ticket, TicketAnswer};
pub use ring_sweep::{is_linearization, script_of, sweep_of};
pub use ring_things::{
    Counters, KeyedOperation, Names, Operation, Outcome, Queue, Registers, ReplyParts, Shelf,
    ShelfOperation, ShelfPosition, Table, done, done_with, not_done_with, reply_of,
};
pub use ring_timers::{Periods, StepOutcome, Timers, timers_law};
pub use ring_trace::{ReplyForm, ReplyVocabulary, Selection, TraceFormat, TraceOptions, trace_of};
pub use ring_wire::{Frame, decode_frame};
pub use ring_world_port::{
    Event, Item, Network, Noise, Pump, SharedNetwork, Told, World, WorldPort,
    stopped_for_memory_law,
};
