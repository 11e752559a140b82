//! The order and the history of the calls of a group's clients, read from a host's book.
//!
//! Rules: Sessions 9 to 11; The book and the threads 15

ghost use Rattle.std.specs.Prelude.{◌≡◌, IfOk, IfErr};
ghost use Rattle.ring_base.specs.declared.fault.Fault.TheVariants.{Memory};
ghost use Rattle.ring_host_port.specs.ClientCalls.{AreOfLines, AreOfRun};

use ring_base::Fault;
use ring_host::{Book, BookName, Host, linear_law};
use ring_node_spec::Item;
use ring_object::Object;
use ring_payload::Call;
use std::alloc::{Allocator, Global};
use std::sync::Wait;

/// The calls of a group's clients according to a host's book, which are those of a run of the group.
///
/// Rules: Sessions 9 to 11
#[derive(Drop)]
pub struct ClientCalls<A: Allocator + Copy + Drop = Global> {
    /// The calls that take effect, in the one order, as far as some node had committed them when the book was read.
    pub order: Vec<Call<A>, A>,
    /// The history: each issue of a call and each reply, in the order in which they happened.
    ///
    /// `order` is a linearization of it.
    pub history: Vec<Item<A>, A>,
}

/// Returns the order and the history of the host's book.
///
/// Both are read while the book is locked once, so they belong to one run. Waits for the book's lock.
///
/// Errors: `Memory` if an allocation fails.
///
/// Rules: The book and the threads 15 and 26; Sessions 9 to 11
pub fn order_and_history_of<O: Object, K: BookName<O::Alloc>, W: Wait>(
    rt: &W,
    host: &Host<O, K>,
) -> Result<ClientCalls<O::Alloc>, Fault>
    ensures calls { IfOk result (AreOfRun O.sequential K.name.group) }
    ensures refused { IfErr result (λ fault. fault ≡ Memory) }
{
    host.read_book(
        rt,
        |book| -> Result<ClientCalls<O::Alloc>, Fault>
            ensures calls { IfOk result (AreOfRun O.sequential K.name.group) }
            ensures refused { IfErr result (λ fault. fault ≡ Memory) }
        { client_calls_in_book(book) },
    )
}

/// Returns the order and the history of a book.
///
/// Errors: `Memory` if an allocation fails.
fn client_calls_in_book<O: Object, K: BookName<O::Alloc>>(
    book: &Book<O, K>,
) -> Result<ClientCalls<O::Alloc>, Fault>
    ensures calls { IfOk result (AreOfRun O.sequential K.name.group) }
    ensures lines { IfOk result (AreOfLines O.sequential K.name.group book.now.lines) }
    ensures refused { IfErr result (λ fault. fault ≡ Memory) }
{
    // Laws: no effect at run time. They give the proof that the lines are a run, whose order is a linearization of its
    // history.
    book.run_law();
    linear_law::<O>();
    let order = book.order()?;
    let history = book.history()?;
    Ok(ClientCalls { order, history })
}
