//! The items of a history.
//!
//! Rules: Sessions 9

use ring_core_spec::Call;
use ring_session::Reply;
use std::alloc::{Allocator, Global};

/// `Item`: an item of a history, the record of calls and replies from which it is judged whether an order is legal.
///
/// A history lists its items in the order in which they happened, at whichever node.
///
/// Rules: Sessions 9 and 10
#[derive(Clone, Drop)]
pub enum Item<A: Allocator + Copy = Global> {
    /// The call was submitted at a node, which gave it a ticket.
    ///
    /// A refused submit isn't in the history.
    ///
    /// Rules: Sessions 9
    Issue(Call<A>),
    /// A node answered a ticket of the call with this reply, as `Done` or `Kept`.
    ///
    /// An answer `Refused` isn't in the history.
    ///
    /// Rules: Sessions 4 and 9
    Reply(Call<A>, Reply),
}
