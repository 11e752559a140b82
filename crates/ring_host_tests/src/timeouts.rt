//! Timeouts that are due at the same turn, and the number of joins that one inbox holds.
//!
//! Rules: The book and the threads 19, 23 and 30 to 32

ghost use Rattle.std.specs.Prelude.{◌≡◌};

use crate::driven::DrivenHost;
use ring_base::{Fault, Fixed, Kind};
use ring_host::{Book, BookName, Cause, Opening};
use ring_object::Object;
use ring_things::Counters;
use std::alloc::Global;
use std::marker::Brand;
use std::sync::Wait;

/// The timeouts in the lines of node 1's first four turns that find one, and the numbers of copies dropped by its joins.
///
/// The first number is that of the joins until node 2, which takes no turn, has 1,024 of them in its inbox. The second
/// is that of the next join.
type Observed = ([Option<Kind>; 4], u32, u32);

/// Returns the timeout in the line of this number, if it has one.
fn timeout_in<O: Object, K: BookName<O::Alloc>>(book: &Book<O, K>, line: u32) -> Option<Kind> {
    match book.line(line)?.cause() {
        Cause::Timeout(kind) => Some(*kind),
        _ => None,
    }
}

/// Returns the timeouts in the first four lines.
fn first_four<O: Object, K: BookName<O::Alloc>>(book: &Book<O, K>) -> [Option<Kind>; 4] {
    [
        timeout_in(book, 0),
        timeout_in(book, 1),
        timeout_in(book, 2),
        timeout_in(book, 3),
    ]
}

/// Sends `count` joins of node 1, and returns the number of copies dropped.
fn send_joins<O: Object, K: BookName<O::Alloc>, W: Wait>(
    rt: &W,
    driven: &mut DrivenHost<O, K>,
    count: u32,
) -> Result<u32, Fault> {
    let mut dropped = 0u32;
    for _ in 0..count {
        driven.pass(1, Kind::Join);
        dropped = dropped.saturating_add(driven.turn(rt, 1)?.dropped);
    }
    Ok(dropped)
}

/// Does the turns of node 1 from the one on at which the loss timeout is due beside others, and fills node 2's inbox.
///
/// The timeouts join, consensus and loss send three joins to node 2. Then node 1 sends joins until that node's inbox is
/// full, and one more.
fn observe<O: Object, K: BookName<O::Alloc>, W: Wait>(
    rt: &W,
    driven: &mut DrivenHost<O, K>,
) -> Result<Observed, Fault> {
    driven.time_out(rt, 1, Kind::Loss)?;
    let timeouts = driven.host.read_book(rt, |book| first_four(book));
    let dropped = send_joins(rt, driven, 1024 - 3)?;
    Ok((timeouts, dropped, send_joins(rt, driven, 1)?))
}

/// Runs `observe` on a host of two nodes at an opening, with inboxes of the size of a host that is given none.
fn opened<O: Object, K: BookName<O::Alloc>, W: Wait>(
    rt: &W,
    alloc: O::Alloc,
    opening: Opening<O>,
) -> Result<Observed, Fault>
    requires { opening ≡ K.name }
{
    let mut driven = DrivenHost::<O, K>::new_of_two(alloc, opening)?;
    let observed = observe(rt, &mut driven);
    drop(driven);
    observed
}

/// Runs `opened` with counters.
fn counted<W: Wait>(rt: &W, alloc: Global) -> Result<Observed, Fault> {
    let opening = Opening::<Counters>::new(alloc, Fixed::new(2)?)?;
    opened::<Counters, Brand, W>(rt, alloc, opening)
}

/// Each turn does the first timeout that is due in the order join, retransmit, consensus, loss.
///
/// Join and loss are due at turn 32,000, retransmit and loss at the next turn, and then consensus and loss. The other
/// inbox has 1,024 places.
#[test]
fn one_timeout_is_done_a_turn_and_an_inbox_has_1024_places(rt: HostRuntime) {
    let order = [
        Some(Kind::Join),
        Some(Kind::Retransmit),
        Some(Kind::Consensus),
        Some(Kind::Loss),
    ];
    assert!(rt; counted(&rt, rt.alloc()) == Ok((order, 0, 1)));
}
