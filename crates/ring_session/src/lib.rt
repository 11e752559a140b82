//! Sessions: each numbered call of a client takes effect once and has one reply, however often it arrives.
//!
//! A client numbers its calls 1, 2 and so on, and sends each until it has an answer. [`Sessions`] keeps an object and,
//! for each known client, its last call that took effect and the reply to it; a snapshot of it in bytes restores it.
//! [`Effects`] finds which calls of a list take effect, whatever object they are for. [`Tickets`] keeps the tickets
//! that a node gave for submitted calls; each is answered once its call is committed.
//!
//! Rules: Sessions 2 to 8 and 12; The replicated log 13 to 15; Limits 1 and 2
//! Formats: Snapshots
#![tactic(auto)]

mod answer;
mod buckets;
mod effects;
mod last_call_bytes;
mod pending_ticket;
mod recent_answers;
mod session_laws;
mod sessions;
mod snapshots;
mod ticket;
mod ticket_answer;
mod ticket_laws;
mod tickets;

pub use answer::Answer;
pub use effects::{Effects, effects_of};
pub use pending_ticket::PendingTicket;
pub use recent_answers::RecentAnswers;
pub use ring_object::{Object, Reply};
pub use session_laws::{deduplicated_law, session_law, snapshot_law, table_law};
pub use sessions::Sessions;
pub use ticket::Ticket;
pub use ticket_answer::TicketAnswer;
pub use ticket_laws::tickets_law;
pub use tickets::{Tickets, answers_of, contains_call, copy_of};

/// The maximum number of known clients of a session table.
///
/// A client is known once a call of it has taken effect. With this many, a first call of one more client is answered
/// `Refused` with the number of `SessionsFull`.
///
/// Rules: Limits 1 and 2; Sessions 3
pub const MAX_CLIENTS: usize = 1024;

/// The maximum number of unanswered tickets of a node.
///
/// With this many the node refuses a submit with `PendingFull`.
///
/// Rules: Limits 1 and 2
pub const MAX_UNANSWERED: usize = 64;

/// The maximum number of answers that a node keeps: those of the tickets that it answered last.
///
/// Rules: Limits 1 and 2; The replicated log 15
pub const KEPT_ANSWERS: usize = 64;
