//! Copies that a full inbox drops.
//!
//! Rules: The book and the threads 23
//! Formats: small inboxes

ghost use Rattle.std.specs.Prelude.{◌≡◌, ◌≤◌};

use crate::driven::{DrivenHost, FORM, done};
use ring_base::{Fault, Fixed, Kind};
use ring_host::{BookName, Opening};
use ring_object::Object;
use ring_session::Answer;
use ring_things::Counters;
use std::alloc::Global;
use std::marker::Brand;
use std::sync::Wait;

/// Returns the number of copies dropped by turns 500 and 1,000 of node 1. Each sends a join to node 2, which takes nothing from
/// its inbox.
fn dropped<O: Object, K: BookName<O::Alloc>, W: Wait>(
    rt: &W,
    driven: &mut DrivenHost<O, K>,
) -> Result<(u32, u32), Fault> {
    let at_500 = driven.turns(rt, 1, 500)?;
    let at_1000 = driven.turns(rt, 1, 500)?;
    Ok((at_500.dropped, at_1000.dropped))
}

/// Runs `dropped` at an opening, with inboxes of one item.
fn opened<O: Object, K: BookName<O::Alloc>, W: Wait>(
    rt: &W,
    alloc: O::Alloc,
    opening: Opening<O>,
) -> Result<(u32, u32), Fault>
    requires { opening ≡ K.name }
{
    let mut driven = DrivenHost::<O, K>::new(alloc, opening, 2, 1)?;
    let dropped = dropped(rt, &mut driven);
    drop(driven);
    dropped
}

/// Runs `opened` with counters.
fn counted<W: Wait>(rt: &W, alloc: Global) -> Result<(u32, u32), Fault> {
    let opening = Opening::<Counters>::new(alloc, Fixed::new(2)?)?;
    opened::<Counters, Brand, W>(rt, alloc, opening)
}

#[test]
fn an_inbox_of_one_place_drops_the_second_join(rt: HostRuntime) {
    assert!(rt; counted(&rt, rt.alloc()) == Ok((0, 1)));
}

/// The outcome of calls by three clients, each at its own node, and the number of copies dropped by two turns of node 1.
#[derive(Clone, Copy, Debug, PartialEq, Eq)]
struct SmallInboxes {
    /// Dropped copies of the turn in which node 1 hears node 2; it sends nothing.
    at_second: u32,
    /// Dropped copies of the turn in which it also hears node 3 and proposes the ring: node 2's inbox still has two joins.
    at_third: u32,
    /// Whether the calls are answered with the three sums of three adds of 5, in any order.
    are_answered: bool,
    /// Whether the book has the same answer to each.
    are_same: bool,
}

/// Whether one of these is the answer to the add that raises the counter to `count`.
fn has(first: Option<Answer>, second: Option<Answer>, third: Option<Answer>, count: u8) -> bool {
    let wanted = Some(done(count));
    first == wanted || second == wanted || third == wanted
}

/// Each node sends its join at its first turn, so that each inbox has two. Node 1 takes both of its own before another node takes
/// any. So its commit token is dropped, and is sent again when the retransmit timeout is due.
fn crowd<O: Object, K: BookName<O::Alloc>, W: Wait>(
    rt: &W,
    driven: &mut DrivenHost<O, K>,
) -> Result<SmallInboxes, Fault> {
    let first = driven.submit(rt, 1, 7, 1)?;
    let second = driven.submit(rt, 2, 8, 1)?;
    let third = driven.submit(rt, 3, 9, 1)?;
    driven.form(rt, 1);
    let at_second = driven.turn(rt, 1)?.dropped;
    let at_third = driven.turn(rt, 1)?.dropped;
    driven.rounds(rt, FORM);
    driven.time_out(rt, 1, Kind::Retransmit)?;
    driven.rounds(rt, FORM);
    let (first, is_first) = driven.polled(rt, &first);
    let (second, is_second) = driven.polled(rt, &second);
    let (third, is_third) = driven.polled(rt, &third);
    Ok(SmallInboxes {
        at_second,
        at_third,
        are_answered: has(first, second, third, 5)
            && has(first, second, third, 10)
            && has(first, second, third, 15),
        are_same: is_first && is_second && is_third,
    })
}

/// Runs `crowd` at an opening, with inboxes of two items.
fn opened_cramped<O: Object, K: BookName<O::Alloc>, W: Wait>(
    rt: &W,
    alloc: O::Alloc,
    opening: Opening<O>,
) -> Result<SmallInboxes, Fault>
    requires { opening ≡ K.name }
{
    let mut driven = DrivenHost::<O, K>::new(alloc, opening, 3, 2)?;
    let crowded = crowd(rt, &mut driven);
    drop(driven);
    crowded
}

/// Runs `opened_cramped` with counters.
fn counted_cramped<W: Wait>(rt: &W, alloc: Global) -> Result<SmallInboxes, Fault> {
    let opening = Opening::<Counters>::new(alloc, Fixed::new(3)?)?;
    opened_cramped::<Counters, Brand, W>(rt, alloc, opening)
}

/// Each client adds 5, and each add takes effect once.
#[test]
fn three_clients_are_answered_over_inboxes_of_two_places(rt: HostRuntime) {
    let wanted = SmallInboxes {
        at_second: 0,
        at_third: 1,
        are_answered: true,
        are_same: true,
    };
    let seen = counted_cramped(&rt, rt.alloc());
    assert!(rt; seen == Ok(wanted), "{seen:?}");
}
