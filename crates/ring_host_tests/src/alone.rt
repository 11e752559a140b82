//! A lone node, turned by hand. Its own frames form its ring, and its call is answered at turn 506. The length of a turn counts
//! dropped places.
//!
//! Rules: The book and the threads 21, 30 to 34

ghost use Rattle.std.specs.Prelude.{◌≡◌};

use crate::driven::{DrivenHost, done};
use ring_base::{Fault, Fixed, Kind};
use ring_host::{BookName, HostTicket, INBOX, Opening, Turn};
use ring_object::Object;
use ring_seat::TurnClock;
use ring_session::Answer;
use ring_things::Counters;
use std::alloc::Global;
use std::marker::Brand;
use std::sync::Wait;

/// The state after a turn: the turn's report, the gauge's length of the node, the answer to the call, and whether it is the
/// book's own.
type Row = (Turn, u64, (Option<Answer>, bool));

/// Does `turns` turns of node 1 and returns the state after them.
fn row<O: Object, K: BookName<O::Alloc>, W: Wait>(
    rt: &W,
    driven: &mut DrivenHost<O, K>,
    ticket: &HostTicket,
    turns: u32,
) -> Result<Row, Fault> {
    let turn = driven.turns(rt, 1, turns)?;
    let length = driven.look(1)?;
    Ok((turn, length, driven.polled(rt, ticket)))
}

/// Returns the node's clock as it is, and as it is after the node has taken its token once more.
///
/// The retransmit timeout sends the token again, so that the inbox has two copies. The second clock is that after the
/// turn that takes the first copy, the third that after the turn that ignores the second copy.
fn clocks<O: Object, K: BookName<O::Alloc>, W: Wait>(
    rt: &W,
    driven: &mut DrivenHost<O, K>,
) -> Result<[TurnClock; 3], Fault> {
    let answered = driven.clock();
    driven.pass(1, Kind::Retransmit);
    driven.turns(rt, 1, 2)?;
    let taken = driven.clock();
    driven.turn(rt, 1)?;
    Ok([answered, taken, driven.clock()])
}

/// Submits a call before the first turn.
///
/// Returns the states after turns 505 and 506, and the node's clocks from then on.
fn both_rows<O: Object, K: BookName<O::Alloc>, W: Wait>(
    rt: &W,
    driven: &mut DrivenHost<O, K>,
) -> Result<(Row, Row, [TurnClock; 3]), Fault> {
    let ticket = driven.submit(rt, 1, 7, 1)?;
    let before = row(rt, driven, &ticket, 505)?;
    let after = row(rt, driven, &ticket, 1)?;
    Ok((before, after, clocks(rt, driven)?))
}

/// Runs `both_rows` on a host of one node at an opening.
fn opened<O: Object, K: BookName<O::Alloc>, W: Wait>(
    rt: &W,
    alloc: O::Alloc,
    opening: Opening<O>,
) -> Result<(Row, Row, [TurnClock; 3]), Fault>
    requires { opening ≡ K.name }
{
    let mut driven = DrivenHost::<O, K>::new(alloc, opening, 1, INBOX)?;
    let rows = both_rows(rt, &mut driven);
    drop(driven);
    rows
}

/// Runs `opened` with counters.
fn counted<W: Wait>(rt: &W, alloc: Global) -> Result<(Row, Row, [TurnClock; 3]), Fault> {
    let opening = Opening::<Counters>::new(alloc, Fixed::new(1)?)?;
    opened::<Counters, Brand, W>(rt, alloc, opening)
}

/// Submits `many` calls of client 7, numbered from `first` on, and takes turns until they are done. Returns the last turn's
/// report.
fn calls<O: Object, K: BookName<O::Alloc>, W: Wait>(
    rt: &W,
    driven: &mut DrivenHost<O, K>,
    first: u64,
    many: u64,
) -> Result<Turn, Fault> {
    for more in 0..many {
        driven.submit(rt, 1, 7, first.saturating_add(more))?;
    }
    driven.turns(rt, 1, 4)
}

/// Returns the reports of the turn in which the node has done 256 calls, and of that in which it has done one more.
fn all_told<O: Object, K: BookName<O::Alloc>, W: Wait>(
    rt: &W,
    driven: &mut DrivenHost<O, K>,
) -> Result<(Turn, Turn), Fault> {
    driven.turns(rt, 1, 506)?;
    for first in [1, 65, 129] {
        calls(rt, driven, first, 64)?;
    }
    let all = calls(rt, driven, 193, 64)?;
    Ok((all, calls(rt, driven, 257, 1)?))
}

/// Runs `all_told` on a host of one node at an opening.
fn many<O: Object, K: BookName<O::Alloc>, W: Wait>(
    rt: &W,
    alloc: O::Alloc,
    opening: Opening<O>,
) -> Result<(Turn, Turn), Fault>
    requires { opening ≡ K.name }
{
    let mut driven = DrivenHost::<O, K>::new(alloc, opening, 1, INBOX)?;
    let told = all_told(rt, &mut driven);
    drop(driven);
    told
}

/// Runs `many` with counters.
fn counted_many<W: Wait>(rt: &W, alloc: Global) -> Result<(Turn, Turn), Fault> {
    let opening = Opening::<Counters>::new(alloc, Fixed::new(1)?)?;
    many::<Counters, Brand, W>(rt, alloc, opening)
}

/// The report of a turn that published this length and dropped no copy.
fn told(length: u64) -> Turn {
    Turn {
        dropped: 0,
        length: Some(length),
    }
}

/// The clock at which all timeouts but join begin to count anew.
fn begun_anew(join: u16) -> TurnClock {
    TurnClock {
        join,
        retransmit: 1000,
        consensus: 8000,
        loss: 32000,
    }
}

/// The turn that answers the call has taken a token, so all timeouts but join begin to count anew.
///
/// The join timeout was due at turn 500. The token goes out again at turn 1,506. Turn 1,507 takes the first copy. Turn
/// 1,508 ignores the second, and the timeouts go on to count.
#[test]
fn a_call_is_answered_at_turn_506(rt: HostRuntime) {
    let before = (told(0), 0, (None, true));
    let after = (told(1), 1, (Some(done(5)), true));
    let ignored = TurnClock {
        join: 492,
        retransmit: 999,
        consensus: 7999,
        loss: 31999,
    };
    let clocks = [begun_anew(494), begun_anew(493), ignored];
    assert!(rt; counted(&rt, rt.alloc()) == Ok((before, after, clocks)));
}

#[test]
fn dropped_places_count(rt: HostRuntime) {
    assert!(rt; counted_many(&rt, rt.alloc()) == Ok((told(256), told(257))));
}
