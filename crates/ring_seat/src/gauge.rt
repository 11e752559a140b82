//! The gauge, which has the greatest published length of each node.
//!
//! Rules: The book and the threads 33 and 34

ghost use Rattle.std.specs.Prelude.{◌≡◌, ◌<◌, ◌≤◌, ◌+◌, ◌-◌, ◌++◌, ◌∷◌, [], Some, length, All, IfOk, IfErr, OnOk};
ghost use Rattle.ring_base.specs.declared.fault.Fault.TheVariants.{Memory};
ghost use Rattle.ring_base.specs.Numbers.{greatest};
ghost use Rattle.ring_seat.specs.Gauges.{last_seen, maker_view};
ghost use Rattle.ring_seat.specs.Seats.{IsAt, IsOwn, AreNew};

use crate::gauge_rule::{ForeignSeat, GaugeRule, GaugeView, Look, OwnSeat, Publish};
use crate::seat::Seat;
use atomic_table::{Seat as TableSeat, Shared, Table};
use ring_base::{Fault, Proc};
use std::alloc::{Allocator, Global};
use std::marker::Model;

/// A watermark for each node: the greatest length published for it.
///
/// Each node has an atomic word that only `fetch_max` changes, so it never falls, and no lock is taken. Contracts see
/// which gauge it is, and the number of its nodes.
///
/// Rules: The book and the threads 33 and 34
#[derive(Drop)]
pub struct Gauge<A: Allocator + Copy + Drop = Global> {
    table: Table<u8, GaugeView, u64, GaugeRule, A>,
}

impl<A: Allocator + Copy + Drop> Model for Gauge<A> {
    ghost use Rattle.atomic_table.specs.Seated.{TableId};

    ghost Value = { TableId };

    ghost view = { λ g. g.table.shared.table_id };
}

impl<A: Allocator + Copy + Drop> Gauge<A> {
    /// Creates a gauge of nodes 1 to `nodes`, with each word 0, and its seats.
    ///
    /// The seats are one for each node, in ascending order, then `more` seats of no node. `nodes` must be 1 to 16.
    ///
    /// Errors: `Memory` if an allocation fails.
    ///
    /// Rules: The book and the threads 19 and 33
    pub fn new(alloc: A, nodes: u8, more: u16) -> Result<(Gauge<A>, Vec<Seat<A>, A>), Fault>
        requires { (1 ≤ nodes) × (nodes ≤ 16) }
        ensures words { IfOk result (λ r. r.0.words ≡ nodes) }
        ensures count { IfOk result (λ r. length r.1.items ≡ nodes + more) }
        ensures seats { IfOk result (λ r. AreNew r.0 nodes r.1.items) }
        ensures at { IfOk result (λ r. All (IsAt r.0) r.1.items) }
        ensures refused { IfErr result (λ fault. fault ≡ Memory) }
    {
        let count = u64::from(nodes);
        let words = vec![in alloc; 0u64; nodes as usize]?;
        let (table, mut maker) = Table::<u8, GaugeView, u64, GaugeRule, A>::of_words(
            alloc,
            words.as_slice(),
            &count,
        )?;
        let mut seats = seats_of_nodes(alloc, &table.shared, &mut maker, nodes)?;
        add_foreign_seats(alloc, &table.shared, &mut maker, nodes, more, &mut seats)?;
        Ok((Gauge { table }, seats))
    }

    /// Publishes a length for the seat's node: from now on the node's word is at least `length`.
    ///
    /// A smaller length never replaces a greater one. `seat` must be a node's own seat, of this gauge. Takes no lock,
    /// does not allocate, and always returns.
    ///
    /// Rules: The book and the threads 33 and 34
    pub fn publish(&self, seat: &mut Seat<A>, length: u64)
        requires own { IsOwn self.now seat.old }
        ensures { seat.new ≡ record (seat.old) { published = seat.old.published ++ length ∷ [] } }
    {
        let Some(node) = seat.node else {
            unreachable!()
        };
        self.table
            .shared
            .fetch_max::<Publish>(&mut seat.seat, node.number() as usize - 1, length);
    }

    /// Returns the gauge's length for `node`, which is 0 or a length that was published for it.
    ///
    /// It is never less than a length that `seat` saw of that node before. On the node's own seat it is the greatest
    /// length published there, or 0 before the first. How fresh it is for another node is unspecified. `seat` must be
    /// of this gauge, and `node` one of its nodes. Takes no lock, does not allocate, and always returns.
    ///
    /// Rules: The book and the threads 33 and 34
    pub fn look(&self, seat: &mut Seat<A>, node: Proc) -> u64
        requires gauge { seat.old.gauge ≡ self.now }
        requires within { node ≤ self.now.words }
        ensures seat { seat.new ≡ record (seat.old) { seen = (node - 1, result) ∷ seat.old.seen } }
        ensures rises { last_seen seat.old.seen (node - 1) ≤ result }
        ensures exact { seat.old.node ≡ Some node → result ≡ greatest seat.old.published }
    {
        self.table
            .shared
            .load::<Look>(&mut seat.seat, node.number() as usize - 1)
    }
}

/// Returns the seats of `nodes` nodes, in ascending order.
///
/// `maker` must be the first seat of the words, and must have made none before.
///
/// Errors: `Memory` if an allocation fails.
fn seats_of_nodes<A: Allocator + Copy + Drop>(
    alloc: A,
    words: &Shared<u8, GaugeView, u64, GaugeRule>,
    maker: &mut TableSeat<u8, GaugeView>,
    nodes: u8,
) -> Result<Vec<Seat<A>, A>, Fault>
    requires table { maker.old.table_id ≡ words.now.table_id }
    requires maker { maker.old.me.0 ≡ maker_view nodes 0 }
    requires words { words.now.table_id.words ≡ nodes }
    requires few { nodes ≤ 16 }
    ensures table { OnOk result (maker.new.table_id ≡ words.now.table_id) }
    ensures maker { OnOk result (maker.new.me.0 ≡ maker_view nodes nodes) }
    ensures count { IfOk result (λ seats. length seats.items ≡ nodes) }
    ensures seats { IfOk result (λ seats. AreNew words.now.table_id nodes seats.items) }
    ensures refused { IfErr result (λ fault. fault ≡ Memory) }
{
    let mut seats = Vec::new(alloc);
    for node in 0..nodes {
        let seat = words.split_seat::<OwnSeat>(maker);
        seats.push(Seat::new(alloc, Some(Proc::new(node + 1)), seat))?;
    }
    Ok(seats)
}

/// Appends `more` seats of no node to the seats of the nodes.
///
/// `maker` must be the first seat of the words.
///
/// Errors: `Memory` if an allocation fails.
fn add_foreign_seats<A: Allocator + Copy + Drop>(
    alloc: A,
    words: &Shared<u8, GaugeView, u64, GaugeRule>,
    maker: &mut TableSeat<u8, GaugeView>,
    nodes: u8,
    more: u16,
    seats: &mut Vec<Seat<A>, A>,
) -> Result<(), Fault>
    requires table { maker.old.table_id ≡ words.now.table_id }
    requires words { 0 < words.now.table_id.words }
    requires count { length seats.old.items ≡ nodes }
    requires seats { AreNew words.now.table_id nodes seats.old.items }
    ensures count { OnOk result (length seats.new.items ≡ nodes + more) }
    ensures seats { OnOk result (AreNew words.now.table_id nodes seats.new.items) }
    ensures refused { IfErr result (λ fault. fault ≡ Memory) }
{
    for foreign_seat in 0..more {
        let seat = words.split_seat::<ForeignSeat>(maker);
        seats.push(Seat::new(alloc, None, seat))?;
    }
    Ok(())
}
