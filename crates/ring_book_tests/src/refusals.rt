//! Refusals of `enter`. Clauses say exactly when `check` and `reserve` refuse.
//! Rules: The book and the threads 15 and 16; Refusals 2 and 3

ghost use Rattle.std.specs.Prelude.{◌≡◌};
ghost use Rattle.ring_node_spec.specs.NodeLimits.{InputFits};

use crate::driven::{DrivenBook, FIRST, cell_of};
use ring_base::{Fault, Fixed, Kind};
use ring_book::{Book, BookName, Cell, FrameRef, Opening, Place};
use ring_node::Input;
use ring_object::Object;
use ring_things::Counters;
use ring_wire::decode_frame;
use std::alloc::Allocator;
use std::marker::Brand;

/// Another place of the first line.
const ELSEWHERE: FrameRef = FrameRef { line: 0, place: 1 };

/// The refusal of an `enter`, if any, and the number of places used or reserved afterwards.
type Entered = (Option<Fault>, u32);

/// Enters the cell's step.
fn entered<O: Object, K: BookName<O::Alloc>>(
    book: &mut Book<O, K>,
    place: Place,
    cell: &mut Cell<O, K>,
) -> Entered {
    let refusal = book.enter(place, cell).err();
    (refusal, book.places())
}

/// Tries to enter at processor 2: first without a step, then a step on a frame whose `FrameRef` is wrong.
fn entered_at_two<O: Object, K: BookName<O::Alloc>>(
    driven: &mut DrivenBook<O, K>,
    place: Place,
) -> Result<(Entered, Entered), Fault> {
    let sent = driven.encoded_frame(FIRST)?;
    let frame = decode_frame(driven.alloc, sent.as_slice())?;
    let cell = cell_of(driven.cells.as_mut_slice(), 2)?;
    let nothing = entered(&mut driven.book, place, cell);
    cell.step(Input::Frame(frame), ELSEWHERE)?;
    Ok((nothing, entered(&mut driven.book, place, cell)))
}

/// Enters at processor 1: a step in the reserved place, then one for which no place is reserved.
fn entered_at_one<O: Object, K: BookName<O::Alloc>>(
    driven: &mut DrivenBook<O, K>,
    place: Place,
) -> Result<(Entered, Entered), Fault> {
    let cell = cell_of(driven.cells.as_mut_slice(), 1)?;
    cell.step(Input::Noise, FIRST)?;
    let step = entered(&mut driven.book, place, cell);
    cell.step(Input::Noise, FIRST)?;
    Ok((step, entered(&mut driven.book, place, cell)))
}

/// Enters at both processors, with one reserved place.
fn entered_at_both<O: Object, K: BookName<O::Alloc>>(
    driven: &mut DrivenBook<O, K>,
) -> Result<((Entered, Entered), (Entered, Entered)), Fault> {
    driven.time(1)?;
    let place = driven.book.reserve()?;
    let at_two = entered_at_two(driven, place)?;
    Ok((at_two, entered_at_one(driven, place)?))
}

/// Returns these refusals, in the book of an opening.
fn refused_entries<O: Object, K: BookName<O::Alloc>>(
    alloc: O::Alloc,
    opening: Opening<O>,
) -> Result<((Entered, Entered), (Entered, Entered)), Fault>
    requires { opening ≡ K.name }
{
    let mut driven = DrivenBook::<O, K>::new(alloc, opening)?;
    let entered = entered_at_both(&mut driven);
    drop(driven);
    entered
}

/// The frame of processor 1's join timeout at the opening of two nodes.
const JOIN: &[u8] = b"TR\x01\x03\0\0\0\x0d\x01\0\0\0\0\0\0\0\0\0\x03\0\0";

/// The refusal of an `enter`, if any, and afterwards the number of places used or reserved, and the number of lines.
type EarlyEntry = (Option<Fault>, u32, u32);

/// Returns the number of lines in the list, of at most four.
fn lines_in<O: Object, K: BookName<O::Alloc>>(book: &Book<O, K>) -> u32 {
    let mut lines = 0u32;
    for number in 0..4u32 {
        lines = lines.saturating_add(u32::from(book.line(number).is_some()));
    }
    lines
}

/// Enters the step of this processor's cell.
fn entered_at<O: Object, K: BookName<O::Alloc>>(
    driven: &mut DrivenBook<O, K>,
    place: Place,
    processor: u8,
) -> Result<EarlyEntry, Fault> {
    let cell = cell_of(driven.cells.as_mut_slice(), processor)?;
    let (refusal, places) = entered(&mut driven.book, place, cell);
    Ok((refusal, places, lines_in(&driven.book)))
}

/// Steps this processor's cell, and enters nothing.
fn step_at<O: Object, K: BookName<O::Alloc>>(
    driven: &mut DrivenBook<O, K>,
    processor: u8,
    input: Input<O::Alloc>,
) -> Result<(), Fault>
    requires { InputFits input }
{
    let cell = cell_of(driven.cells.as_mut_slice(), processor)?;
    cell.step(input, FIRST)
}

/// Steps both processors: 1 sends its join, and 2 takes it from the place where it will be.
fn step_both<O: Object, K: BookName<O::Alloc>>(driven: &mut DrivenBook<O, K>) -> Result<(), Fault> {
    step_at(driven, 1, Input::Timeout(Kind::Join))?;
    let frame = decode_frame(driven.alloc, JOIN)?;
    step_at(driven, 2, Input::Frame(frame))
}

/// Enters at processor 2, which takes a frame whose sender has stepped and not entered; then at the sender, processor 1; and
/// then at processor 2. Returns also the refusal of a step of processor 2 before its step is entered.
fn entered_early<O: Object, K: BookName<O::Alloc>>(
    driven: &mut DrivenBook<O, K>,
) -> Result<([EarlyEntry; 3], Option<Fault>), Fault> {
    let first = driven.book.reserve()?;
    let second = driven.book.reserve()?;
    step_both(driven)?;
    let early = entered_at(driven, second, 2)?;
    let refused = step_at(driven, 2, Input::Noise).err();
    let sender = entered_at(driven, first, 1)?;
    Ok(([early, sender, entered_at(driven, second, 2)?], refused))
}

/// Returns these entries, in the book of an opening.
fn early_entries<O: Object, K: BookName<O::Alloc>>(
    alloc: O::Alloc,
    opening: Opening<O>,
) -> Result<([EarlyEntry; 3], Option<Fault>), Fault>
    requires { opening ≡ K.name }
{
    let mut driven = DrivenBook::<O, K>::new(alloc, opening)?;
    let entered = entered_early(&mut driven);
    drop(driven);
    entered
}

/// Returns the refused entries of a book of counters, with two nodes.
fn counted_entries<A: Allocator + Copy + Drop>(
    alloc: A,
) -> Result<((Entered, Entered), (Entered, Entered)), Fault> {
    let opening = Opening::<Counters<A>>::new(alloc, Fixed::new(2)?)?;
    refused_entries::<Counters<A>, Brand>(alloc, opening)
}

#[test]
fn strange_entries(rt: HostRuntime) {
    let refused = (Some(Fault::Stranger), 2);
    let entries = ((refused, refused), ((None, 2), refused));
    assert!(rt; counted_entries(rt.alloc()) == Ok(entries));
}

/// Returns these entries of a book of counters, with two nodes.
fn counted_early_entries<A: Allocator + Copy + Drop>(
    alloc: A,
) -> Result<([EarlyEntry; 3], Option<Fault>), Fault> {
    let opening = Opening::<Counters<A>>::new(alloc, Fixed::new(2)?)?;
    early_entries::<Counters<A>, Brand>(alloc, opening)
}

/// The refused entry changes nothing: the list is empty, both places stay reserved, and the cell still has its step to enter.
#[test]
fn a_frame_is_entered_after_its_sender(rt: HostRuntime) {
    let strange = Some(Fault::Stranger);
    let entries = [(strange, 2, 0), (None, 2, 1), (None, 2, 2)];
    assert!(rt; counted_early_entries(rt.alloc()) == Ok((entries, strange)));
}
