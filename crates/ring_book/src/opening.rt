//! Construction of a book and its cells.
//!
//! Rules: The book and the threads 12

ghost use Rattle.std.specs.Prelude.{◌≡◌, ◌+◌, ◌-◌, ◌<◌, ◌≤◌, [], length, drop, IfOk, IfErr, OnOk};
ghost use Rattle.std.specs.List.{AllByRecursion};
ghost use Rattle.ring_base.specs.declared.fault.Fault.TheVariants.{Memory};
ghost use Rattle.ring_book_lines.specs.Machines.{node_machine};
ghost use Rattle.ring_book.specs.Openings.{AllStart, AllStartEnds, empty_book, new_cell, new_cells, rings_of};

use crate::answer_indexes::AnswerIndex;
use crate::book::Book;
use crate::book_name::BookName;
use crate::cell::Cell;
use crate::journal_writer::JournalWriter;
use bytes::BytesMut;
use ring_base::{Fault, Fixed, MAX_FRAME_BYTES, Proc};
use ring_book_lines::{Step, node_fits_law};
use ring_node::Node;
use ring_object::Object;
use rtrb::{Consumer, Producer, RingBuffer};
use std::alloc::Allocator;
use std::collections::VecDeque;
use std::marker::{Model, PhantomData};

/// The nodes of a group and their journals, before their book has a name.
///
/// It can't be copied, and it gives its book and cells only once.
///
/// Rules: The book and the threads 12
#[derive(Drop)]
pub struct Opening<O: Object> {
    alloc: O::Alloc,
    group: Fixed,
    nodes: VecDeque<Node<O>, O::Alloc>,
    writers: VecDeque<Producer<Step<O::Alloc>, O::Alloc>, O::Alloc>,
    ends: Vec<Consumer<Step<O::Alloc>, O::Alloc>, O::Alloc>,
}

impl<O: Object> Model for Opening<O> {
    ghost use Rattle.std.specs.Prelude.{length, ◌≡◌, ◌≤◌};
    ghost use Rattle.ring_book.specs.JournalEnds.{Name};
    ghost use Rattle.ring_book_lines.specs.Machines.{node_machine};
    ghost use Rattle.ring_book.specs.Openings.{rings_of, AllStart, AllStartEnds};

    ghost Value = { Name O.Alloc };

    ghost view = { λ o. record { group = o.group; rings = rings_of o.writers.items } };

    ghost invariant = { λ o. AllStart (node_machine O.sequential o.group) 1 o.nodes.items o.writers.items
        × AllStartEnds o.writers.items o.ends.items × (length o.nodes.items ≡ o.group.count) × (o.group.count ≤ 16)
        × (1 ≤ o.group.count) };
}

impl<O: Object> Opening<O> {
    /// Returns the opening of a group: each node at its opening, with an empty journal that has room for one step.
    ///
    /// Errors: `Memory` if an allocation fails.
    ///
    /// Rules: The book and the threads 12 and 13
    pub fn new(alloc: O::Alloc, group: Fixed) -> Result<Opening<O>, Fault>
        ensures ok { IfOk result (λ o. o.group ≡ group) }
        ensures refused { IfErr result (λ fault. fault ≡ Memory) }
    {
        let mut nodes = VecDeque::new(alloc);
        let mut writers = VecDeque::new(alloc);
        let mut ends = Vec::new(alloc);
        open_nodes(alloc, group, &mut nodes, &mut writers, &mut ends)?;
        Ok(Opening {
            alloc,
            group,
            nodes,
            writers,
            ends,
        })
    }

    /// Returns the empty book and the cells, one for each processor of the group (1 to 16), in ascending order.
    ///
    /// Consumes the opening. `K` must be its name.
    ///
    /// Errors: `Memory` if an allocation fails; the opening is dropped.
    ///
    /// Rules: The book and the threads 12; Refusals 5
    pub fn parts<K: BookName<O::Alloc>>(
        self,
    ) -> Result<(Book<O, K>, Vec<Cell<O, K>, O::Alloc>), Fault>
        requires { self ≡ K.name }
        ensures counted { (1 ≤ K.name.group.count) × (K.name.group.count ≤ 16) }
        ensures ok { IfOk result (λ r. (r.0 ≡ empty_book) × (r.1.items ≡ new_cells (node_machine O.sequential K.name.group) K.name.group.count)) }
        ensures refused { IfErr result (λ fault. fault ≡ Memory) }
    {
        let text = BytesMut::with_capacity(self.alloc, MAX_FRAME_BYTES)?;
        let answer_indexes = empty_answers(self.alloc, self.nodes.len())?;
        let Opening {
            alloc,
            group: _,
            nodes,
            writers,
            ends,
        } = self;
        let cells = cells_of(alloc, nodes, writers)?;
        Ok((Book::new(alloc, ends, answer_indexes, text), cells))
    }
}

/// Opens the nodes of the group and their journals.
///
/// The lists must be empty.
///
/// Errors: `Memory` if an allocation fails.
fn open_nodes<O: Object>(
    alloc: O::Alloc,
    group: Fixed,
    nodes: &mut VecDeque<Node<O>, O::Alloc>,
    writers: &mut VecDeque<Producer<Step<O::Alloc>, O::Alloc>, O::Alloc>,
    ends: &mut Vec<Consumer<Step<O::Alloc>, O::Alloc>, O::Alloc>,
) -> Result<(), Fault>
    requires nodes { nodes.old.items ≡ [] }
    requires writers { writers.old.items ≡ [] }
    requires ends { ends.old.items ≡ [] }
    ensures start { OnOk result (AllStart (node_machine O.sequential group) 1 nodes.new.items writers.new.items) }
    ensures ends { OnOk result (AllStartEnds writers.new.items ends.new.items) }
    ensures count { OnOk result (length nodes.new.items ≡ group.count) }
    ensures group { (1 ≤ group.count) × (group.count ≤ 16) }
    ensures refused { IfErr result (λ fault. fault ≡ Memory) }
{
    for i in 0..group.count() {
        open_node(alloc, group, Proc::new(i + 1), nodes, writers, ends)?;
    }
    Ok(())
}

/// Opens the next node and its journal.
///
/// Errors: `Memory` if an allocation fails.
fn open_node<O: Object>(
    alloc: O::Alloc,
    group: Fixed,
    me: Proc,
    nodes: &mut VecDeque<Node<O>, O::Alloc>,
    writers: &mut VecDeque<Producer<Step<O::Alloc>, O::Alloc>, O::Alloc>,
    ends: &mut Vec<Consumer<Step<O::Alloc>, O::Alloc>, O::Alloc>,
) -> Result<(), Fault>
    requires member { me ≤ group.count }
    requires next { length nodes.old.items + 1 ≡ me }
    requires start { AllStart (node_machine O.sequential group) 1 nodes.old.items writers.old.items }
    requires ends { AllStartEnds writers.old.items ends.old.items }
    ensures start { OnOk result (AllStart (node_machine O.sequential group) 1 nodes.new.items writers.new.items) }
    ensures ends { OnOk result (AllStartEnds writers.new.items ends.new.items) }
    ensures count { OnOk result (length nodes.new.items ≡ me) }
    ensures refused { IfErr result (λ fault. fault ≡ Memory) }
{
    let node = Node::new(alloc, group, me)?;
    nodes.push_back(node)?;
    let (writer, end) = RingBuffer::new(alloc, 1)?;
    writers.push_back(writer)?;
    ends.push(end)?;
    Ok(())
}

/// Returns an empty answer index for each of `count` nodes.
///
/// Errors: `Memory` if an allocation fails.
fn empty_answers<A: Allocator + Copy + Drop>(
    alloc: A,
    count: usize,
) -> Result<Vec<AnswerIndex<A>, A>, Fault>
    ensures none { IfOk result (λ answer_indexes. AllByRecursion (λ t. t.answers ≡ []) answer_indexes.items) }
    ensures count { IfOk result (λ answer_indexes. length answer_indexes.items ≡ count) }
    ensures refused { IfErr result (λ fault. fault ≡ Memory) }
{
    let mut answer_indexes = Vec::new(alloc);
    for _ in 0..count {
        answer_indexes.push(AnswerIndex::new(alloc))?;
    }
    Ok(answer_indexes)
}

/// Returns the cells of the group's nodes, with their journals.
///
/// Errors: `Memory` if an allocation fails.
fn cells_of<O: Object, K: BookName<O::Alloc>>(
    alloc: O::Alloc,
    mut nodes: VecDeque<Node<O>, O::Alloc>,
    mut writers: VecDeque<Producer<Step<O::Alloc>, O::Alloc>, O::Alloc>,
) -> Result<Vec<Cell<O, K>, O::Alloc>, Fault>
    requires few { K.name.group.count ≤ 16 }
    requires start { AllStart (node_machine O.sequential K.name.group) 1 nodes.items writers.items }
    requires count { length nodes.items ≡ K.name.group.count }
    requires rings { K.name.rings ≡ rings_of writers.items }
    ensures ok { IfOk result (λ cells. cells.items ≡ new_cells (node_machine O.sequential K.name.group) K.name.group.count) }
    ensures refused { IfErr result (λ fault. fault ≡ Memory) }
{
    let mut cells = Vec::new(alloc);
    add_cells(alloc, &mut nodes, &mut writers, &mut cells)?;
    Ok(cells)
}

/// Appends the cells of the group's nodes, with their journals, to `cells`, which must be empty.
///
/// Errors: `Memory` if an allocation fails.
fn add_cells<O: Object, K: BookName<O::Alloc>>(
    alloc: O::Alloc,
    nodes: &mut VecDeque<Node<O>, O::Alloc>,
    writers: &mut VecDeque<Producer<Step<O::Alloc>, O::Alloc>, O::Alloc>,
    cells: &mut Vec<Cell<O, K>, O::Alloc>,
) -> Result<(), Fault>
    requires few { K.name.group.count ≤ 16 }
    requires start { AllStart (node_machine O.sequential K.name.group) 1 nodes.old.items writers.old.items }
    requires count { length nodes.old.items ≡ K.name.group.count }
    requires rings { K.name.rings ≡ rings_of writers.old.items }
    requires empty { cells.old.items ≡ [] }
    ensures ok { OnOk result (cells.new.items ≡ new_cells (node_machine O.sequential K.name.group) K.name.group.count) }
    ensures refused { IfErr result (λ fault. fault ≡ Memory) }
{
    for i in 0..nodes.len() {
        cells.push(next_cell(alloc, Proc::new(i as u8 + 1), nodes, writers)?)?;
    }
    Ok(())
}

/// Returns the cell of the first node in the list, which must be processor `me`, with the first journal.
///
/// Errors: `Memory` if an allocation fails.
fn next_cell<O: Object, K: BookName<O::Alloc>>(
    alloc: O::Alloc,
    me: Proc,
    nodes: &mut VecDeque<Node<O>, O::Alloc>,
    writers: &mut VecDeque<Producer<Step<O::Alloc>, O::Alloc>, O::Alloc>,
) -> Result<Cell<O, K>, Fault>
    requires member { (1 ≤ me) × (me ≤ K.name.group.count) }
    requires few { K.name.group.count ≤ 16 }
    requires some { 0 < length nodes.old.items }
    requires start { AllStart (node_machine O.sequential K.name.group) me nodes.old.items writers.old.items }
    requires rings { drop (me - 1) K.name.rings ≡ rings_of writers.old.items }
    ensures cell { IfOk result (λ cell. cell ≡ new_cell (node_machine O.sequential K.name.group) me) }
    ensures start { OnOk result (AllStart (node_machine O.sequential K.name.group) (me + 1) nodes.new.items writers.new.items) }
    ensures rings { OnOk result (drop me K.name.rings ≡ rings_of writers.new.items) }
    ensures count { OnOk result (length nodes.old.items ≡ length nodes.new.items + 1) }
    ensures refused { IfErr result (λ fault. fault ≡ Memory) }
{
    let text = BytesMut::with_capacity(alloc, MAX_FRAME_BYTES)?;
    let Some(node) = nodes.pop_front() else {
        unreachable!()
    };
    let Some(journal) = writers.pop_front() else {
        unreachable!()
    };
    // A law: no effect at run time. The proof takes from it that a node is within the limits at its opening.
    node_fits_law::<O>();
    Ok(Cell {
        node,
        writer: JournalWriter {
            me,
            is_step_unentered: false,
            journal,
            alloc,
            text,
        },
        book_name: PhantomData,
    })
}
