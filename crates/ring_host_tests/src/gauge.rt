//! The gauge under two threads at once.
//!
//! Rules: The book and the threads 33 and 34

ghost use Rattle.std.specs.Prelude.{◌≡◌, ◌≤◌, All, IfSome};
ghost use Rattle.ring_seat.specs.Seats.{IsAt};

use ring_base::Fault;
use ring_seat::{Gauge, Seat};
use std::alloc::Global;
use std::thread::{Threads, join};

/// Publishes the lengths below `most` on a node's own seat and looks at the node's word after each. Returns the seat, and whether
/// each look found just that length.
fn publish_up_to(gauge: &Gauge, mut seat: Seat, most: u64) -> (Seat, bool)
    requires { IsAt gauge.now seat }
    ensures { IsAt gauge.now result.0 }
{
    let Some(node) = seat.node() else {
        return (seat, false);
    };
    let mut is_exact = true;
    for length in 0..most {
        gauge.publish(&mut seat, length);
        is_exact = is_exact && gauge.look(&mut seat, node) == length;
    }
    (seat, is_exact)
}

/// Returns the length of the other seat's node, as this seat sees it.
fn look_at_other(gauge: &Gauge, seat: &mut Seat, other: &Seat) -> Option<u64>
    requires seat { IsAt gauge.now seat.old }
    requires other { IsAt gauge.now other.now }
    ensures { IsAt gauge.now seat.new }
{
    let node = other.node()?;
    Some(gauge.look(seat, node))
}

/// Two threads publish, each on its own seat. Returns whether each read its own lengths back, and the length that each then sees
/// of the other.
fn two_callers<R: Threads + Sync>(
    rt: &R,
    gauge: &Gauge,
    first: Seat,
    second: Seat,
) -> (bool, bool, Option<u64>, Option<u64>)
    requires first { IsAt gauge.now first }
    requires second { IsAt gauge.now second }
{
    let ((mut first, is_first), (mut second, is_second)) = join(
        rt,
        move || -> (Seat, bool)
            requires { IsAt gauge.now first }
            ensures { IsAt gauge.entry.now result.0 }
        { publish_up_to(gauge, first, 300) },
        move || -> (Seat, bool)
            requires { IsAt gauge.now second }
            ensures { IsAt gauge.entry.now result.0 }
        { publish_up_to(gauge, second, 500) },
    );
    let of_second = look_at_other(gauge, &mut first, &second);
    let of_first = look_at_other(gauge, &mut second, &first);
    (is_first, is_second, of_second, of_first)
}

/// Removes and returns the last of the gauge's seats.
fn last_seat(gauge: &Gauge, seats: &mut Vec<Seat>) -> Option<Seat>
    requires { All (IsAt gauge.now) seats.old.items }
    ensures seats { All (IsAt gauge.now) seats.new.items }
    ensures seat { IfSome result (IsAt gauge.now) }
{
    seats.pop()
}

/// Runs `two_callers` with the last two of these seats.
fn of_seats<R: Threads + Sync>(
    rt: &R,
    gauge: &Gauge,
    seats: &mut Vec<Seat>,
) -> Option<(bool, bool, Option<u64>, Option<u64>)>
    requires { All (IsAt gauge.now) seats.old.items }
{
    let second = last_seat(gauge, seats)?;
    let first = last_seat(gauge, seats)?;
    Some(two_callers(rt, gauge, first, second))
}

/// Runs `of_seats` at a gauge of two nodes.
fn at_gauge<R: Threads + Sync>(
    rt: &R,
    alloc: Global,
) -> Result<(bool, bool, Option<u64>, Option<u64>), Fault> {
    let (gauge, mut seats) = Gauge::new(alloc, 2, 0)?;
    of_seats(rt, &gauge, &mut seats).ok_or(Fault::NotMember)
}

#[test]
fn each_reads_its_own_lengths_and_the_last_of_the_other(rt: HostRuntime) {
    assert!(rt; at_gauge(&rt, rt.alloc()) == Ok((true, true, Some(499), Some(299))));
}
