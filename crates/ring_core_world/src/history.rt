//! The opening and the events of a world, as ghost values that only contracts read.

ghost use Rattle.std.specs.Prelude.{◌≡◌, false, []};
ghost use Rattle.ring_core_world.specs.Running.{more, empty_run, empty_formed_run};

use ring_base::{Fixed, Ghost, ghost_of, ghost_step};
use ring_core_proof::RingEvent;
use std::alloc::{Allocator, Global};
use std::marker::{Model, PhantomData};

/// The opening and the events of a world of ring cores, as contracts see them.
///
/// Code never creates a value of this type.
pub(crate) struct WorldHistory<A: Allocator + Copy = Global> {
    allocator: PhantomData<A>,
}

impl<A: Allocator + Copy> Model for WorldHistory<A> {
    ghost use Rattle.std.specs.Prelude.{false, []};
    ghost use Rattle.ring_core_world.specs.Running.{WorldRun};

    ghost Value = { WorldRun A };

    ghost view = { λ _. record { count = 1; formed = false; events = [] } };
}

/// Returns the history of a world at the opening, without events.
pub(crate) fn history_of_unformed<A: Allocator + Copy>(fixed: Fixed) -> Ghost<WorldHistory<A>>
    ensures { result.value ≡ empty_run fixed.count }
{
    ghost_of(&fixed)
}

/// Returns the history of a formed ring, without events: the representative has visited the first token.
pub(crate) fn ring_formed<A: Allocator + Copy>(fixed: Fixed) -> Ghost<WorldHistory<A>>
    ensures { result.value ≡ empty_formed_run fixed.count }
{
    ghost_of(&fixed)
}

/// Returns the history with one event added at its end.
pub(crate) fn history_with_event<A: Allocator + Copy>(
    history: &Ghost<WorldHistory<A>>,
    event: &RingEvent<A>,
) -> Ghost<WorldHistory<A>>
    ensures { result.value ≡ more history.now.value event.now }
{
    ghost_step(history, event)
}
