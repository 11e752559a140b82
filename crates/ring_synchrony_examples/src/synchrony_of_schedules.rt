//! The random schedules from the opening are virtually synchronous: all five facts are computed for their lives.
//!
//! Rules: Outputs 11

ghost use Rattle.std.specs.Prelude.{◌≡◌, true};
ghost use Rattle.ring_synchrony_examples.specs.OfOne.{world as world_of_one};
ghost use Rattle.ring_synchrony_examples.specs.OfTwoRest.{world as world_of_two_rest};
ghost use Rattle.ring_synchrony_examples.specs.OfTwoGather.{world as world_of_two_gather};
ghost use Rattle.ring_synchrony_examples.specs.OfThreeBroken.{world as world_of_three_broken};
ghost use Rattle.ring_synchrony_examples.specs.OfThreeStops.{world as world_of_three_stops};
ghost use Rattle.ring_synchrony_examples.specs.OfFourGap.{world as world_of_four_gap};
ghost use Rattle.ring_synchrony_examples.specs.OfFourPacks.{world as world_of_four_packs};
ghost use Rattle.ring_synchrony_examples.specs.OfFourBroken.{world as world_of_four_broken};
ghost use Rattle.ring_synchrony_examples.specs.OfFive.{world as world_of_five};
ghost use Rattle.ring_synchrony_examples.specs.OfSix.{world as world_of_six};
ghost use Rattle.ring_synchrony_proof.specs.Tests.{is_virtually_synchronous};

/// States that the schedule of one processor is virtually synchronous. Its calls are packed in a ring of one.
///
/// Rules: Outputs 11
pub fn schedule_of_one_is_synchronous()
    ensures { is_virtually_synchronous world_of_one ≡ true }
{}

/// States that a schedule of two processors with a ring change is virtually synchronous.
///
/// The rest of an old ring has a Pack and a Part.
///
/// Rules: Outputs 5 and 11
pub fn schedule_of_two_rest_is_synchronous()
    ensures { is_virtually_synchronous world_of_two_rest ≡ true }
{}

/// States that a schedule of two processors is virtually synchronous in which a join makes a node in a ring enter
/// Gather.
///
/// The join has other sets than the node.
///
/// Rules: Gather 13; Outputs 11
pub fn schedule_of_two_gather_is_synchronous()
    ensures { is_virtually_synchronous world_of_two_gather ≡ true }
{}

/// States that a schedule of three processors with broken recoveries is virtually synchronous.
///
/// Two recoveries break off after calls were wrapped.
///
/// Rules: Recovery 10; Outputs 11
pub fn schedule_of_three_broken_is_synchronous()
    ensures { is_virtually_synchronous world_of_three_broken ≡ true }
{}

/// States that a schedule of three processors, two of which stop, is virtually synchronous.
///
/// Rules: Rings and states 12; Outputs 11
pub fn schedule_of_three_stops_is_synchronous()
    ensures { is_virtually_synchronous world_of_three_stops ≡ true }
{}

/// States that a schedule of four processors with a gap is virtually synchronous.
///
/// Past the gap, only the messages that transitional members sent are delivered.
///
/// Rules: Recovery 9; Outputs 11
pub fn schedule_of_four_gap_is_synchronous()
    ensures { is_virtually_synchronous world_of_four_gap ≡ true }
{}

/// States that a schedule of four processors with wrapped Packs is virtually synchronous.
///
/// A message that an outsider sent past a gap is discarded, and one processor stops.
///
/// Rules: Recovery 4 and 9; Outputs 11
pub fn schedule_of_four_packs_is_synchronous()
    ensures { is_virtually_synchronous world_of_four_packs ≡ true }
{}

/// States that a schedule of four processors with broken recoveries is virtually synchronous.
///
/// Recoveries break off after a Pack was wrapped.
///
/// Rules: Recovery 10; Outputs 11
pub fn schedule_of_four_broken_is_synchronous()
    ensures { is_virtually_synchronous world_of_four_broken ≡ true }
{}

/// States that a schedule of five processors, with a ring under load, is virtually synchronous.
///
/// Rules: Outputs 11
pub fn schedule_of_five_is_synchronous()
    ensures { is_virtually_synchronous world_of_five ≡ true }
{}

/// States that a schedule of six processors is virtually synchronous.
///
/// They send joins with many different sets before their rings form.
///
/// Rules: Gather 3 to 5; Outputs 11
pub fn schedule_of_six_is_synchronous()
    ensures { is_virtually_synchronous world_of_six ≡ true }
{}
