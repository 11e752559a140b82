//! Unanswered tickets.
//!
//! Rules: The replicated log 13 and 14

use crate::ticket::Ticket;
use ring_payload::Call;
use std::alloc::{Allocator, Global};

/// An unanswered ticket, with its call.
///
/// Rules: The replicated log 13 and 14
#[derive(Clone, Drop)]
pub struct PendingTicket<A: Allocator + Copy = Global> {
    /// The ticket that the node gave for the call.
    pub ticket: Ticket,
    /// The call that was submitted for the ticket.
    pub call: Call<A>,
}
