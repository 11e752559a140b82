//! Random schedules of ring cores, with all their outputs, computed from the definitions.
//!
//! Frames are lost, repeated and reordered, and there are timeouts of all kinds. The expected outputs are those of an
//! independent implementation of the protocol, frame by frame. The schedules have every transition, every kind of
//! output, recoveries that break off, and gaps.
//!
//! Rules: Rings and states 14

ghost use Rattle.std.specs.Prelude.{◌≡◌};
ghost use Rattle.ring_synchrony_examples.specs.OfOne.{world as world_of_one, outs as outs_of_one};
ghost use Rattle.ring_synchrony_examples.specs.OfTwoRest.{world as world_of_two_rest, outs as outs_of_two_rest};
ghost use Rattle.ring_synchrony_examples.specs.OfTwoGather.{world as world_of_two_gather, outs as outs_of_two_gather};
ghost use Rattle.ring_synchrony_examples.specs.OfTwoFormed.{world as world_of_two_formed, outs as outs_of_two_formed};
ghost use Rattle.ring_synchrony_examples.specs.OfThreeBroken.{world as world_of_three_broken, outs as outs_of_three_broken};
ghost use Rattle.ring_synchrony_examples.specs.OfThreeStops.{world as world_of_three_stops, outs as outs_of_three_stops};
ghost use Rattle.ring_synchrony_examples.specs.OfFourGap.{world as world_of_four_gap, outs as outs_of_four_gap};
ghost use Rattle.ring_synchrony_examples.specs.OfFourPacks.{world as world_of_four_packs, outs as outs_of_four_packs};
ghost use Rattle.ring_synchrony_examples.specs.OfFourBroken.{world as world_of_four_broken, outs as outs_of_four_broken};
ghost use Rattle.ring_synchrony_examples.specs.OfFourFormed.{world as world_of_four_formed, outs as outs_of_four_formed};
ghost use Rattle.ring_synchrony_examples.specs.OfFive.{world as world_of_five, outs as outs_of_five};
ghost use Rattle.ring_synchrony_examples.specs.OfSix.{world as world_of_six, outs as outs_of_six};

/// States all outputs of a random schedule of one processor, whose calls are packed in a ring of one.
///
/// Rules: Rings and states 14; Token and window 9
pub fn schedule_of_one()
    ensures { world_of_one.outs ≡ outs_of_one }
{}

/// States all outputs of a random schedule of two processors that change rings.
///
/// The rest of an old ring has a Pack and a Part.
///
/// Rules: Rings and states 14; Outputs 5
pub fn schedule_of_two_rest()
    ensures { world_of_two_rest.outs ≡ outs_of_two_rest }
{}

/// States all outputs of a random schedule of two processors in which a join makes a node in a ring enter Gather.
///
/// The join has other sets than the node.
///
/// Rules: Rings and states 14; Gather 13
pub fn schedule_of_two_gather()
    ensures { world_of_two_gather.outs ≡ outs_of_two_gather }
{}

/// States all outputs of a random schedule of two processors in a formed ring.
///
/// There are Packs, Parts and Heads, and recovery wraps a Pack.
///
/// Rules: Rings and states 14; Recovery 4
pub fn schedule_of_two_formed()
    ensures { world_of_two_formed.outs ≡ outs_of_two_formed }
{}

/// States all outputs of a random schedule of three processors with broken recoveries.
///
/// Two recoveries break off after calls were wrapped, and later ones wrap them again.
///
/// Rules: Rings and states 14; Recovery 10
pub fn schedule_of_three_broken()
    ensures { world_of_three_broken.outs ≡ outs_of_three_broken }
{}

/// States all outputs of a random schedule of three processors, two of which stop.
///
/// Rules: Rings and states 12 and 14
pub fn schedule_of_three_stops()
    ensures { world_of_three_stops.outs ≡ outs_of_three_stops }
{}

/// States all outputs of a random schedule of four processors with a gap.
///
/// Past the gap, the messages that transitional members sent are delivered and the others discarded.
///
/// Rules: Rings and states 14; Recovery 9
pub fn schedule_of_four_gap()
    ensures { world_of_four_gap.outs ≡ outs_of_four_gap }
{}

/// States all outputs of a random schedule of four processors with wrapped Packs.
///
/// A message that an outsider sent past a gap is discarded, and one processor stops.
///
/// Rules: Rings and states 14; Recovery 4 and 9
pub fn schedule_of_four_packs()
    ensures { world_of_four_packs.outs ≡ outs_of_four_packs }
{}

/// States all outputs of a random schedule of four processors with broken recoveries.
///
/// Recoveries break off after a Pack was wrapped.
///
/// Rules: Rings and states 14; Recovery 10
pub fn schedule_of_four_broken()
    ensures { world_of_four_broken.outs ≡ outs_of_four_broken }
{}

/// States all outputs of a random schedule of four processors in a formed ring.
///
/// Heads, a Pack and a Call are wrapped for all, and are the rest of the old ring.
///
/// Rules: Rings and states 14; Recovery 4; Outputs 5
pub fn schedule_of_four_formed()
    ensures { world_of_four_formed.outs ≡ outs_of_four_formed }
{}

/// States all outputs of a random schedule of five processors, with a ring under load.
///
/// Rules: Rings and states 14
pub fn schedule_of_five()
    ensures { world_of_five.outs ≡ outs_of_five }
{}

/// States all outputs of a random schedule of six processors.
///
/// They send joins with many different sets before their rings form.
///
/// Rules: Rings and states 14; Gather 3 to 5
pub fn schedule_of_six()
    ensures { world_of_six.outs ≡ outs_of_six }
{}
