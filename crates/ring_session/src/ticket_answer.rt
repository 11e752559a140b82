//! Answered tickets.
//!
//! Rules: The replicated log 14

use crate::Answer;
use crate::ticket::Ticket;
use ring_payload::Call;
use std::alloc::{Allocator, Global};

/// The answer to a ticket, with the ticket's call, as a node's step outputs it.
///
/// Rules: The replicated log 14
#[derive(Clone, Drop)]
pub struct TicketAnswer<A: Allocator + Copy = Global> {
    /// The ticket that is answered.
    pub ticket: Ticket,
    /// The call for which the node gave the ticket.
    pub call: Call<A>,
    /// The sessions' answer to this call, at its place among the committed calls.
    pub answer: Answer,
}
