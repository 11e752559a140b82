//! The lists of facts of a core, as ghost values that only contracts read, and how they grow.
//!
//! Rules: Rings and states 3

ghost use Rattle.std.specs.Prelude.{◌≡◌, [], ◌∷◌, ◌++◌};
ghost use Rattle.ring_core_spec.specs.State.{formed, opening};
ghost use Rattle.ring_srp_state.specs.Histories.{with_ring, history_with_core_visit, history_with_plan, history_with_install};
ghost use Rattle.ring_srp_state.specs.Histories.{history_of};

use ring_base::{Fixed, Ghost, Proc, RingId, ghost_of, ghost_step};
use ring_core_spec::Configuration;
use ring_token::Visit;
use ring_wire::{CommitEntry, CommitToken};
use std::alloc::{Allocator, Global};
use std::marker::{Model, PhantomData};

/// The lists of facts of a core: all that ever happened to it, except for the messages held.
///
/// They are the rings taken part in, the rings installed, the visits, the marks raised by plans, the reports, and the
/// plans, each newest first. Code never creates a value of this type.
///
/// Rules: Rings and states 3
pub struct CoreHistory<A: Allocator + Copy = Global> {
    allocator: PhantomData<A>,
}

impl<A: Allocator + Copy> Model for CoreHistory<A> {
    ghost use Rattle.ring_core_spec.specs.State.{opening};
    ghost use Rattle.ring_srp_state.specs.Histories.{History, history_of};

    ghost Value = { History A };

    ghost view = { λ _. history_of (opening 1 1) };
}

/// Returns the lists of facts of processor `me` at the opening.
///
/// That `me` is in the group isn't checked.
///
/// Rules: Rings and states 5
pub fn opening_history<A: Allocator + Copy>(fixed: Fixed, me: Proc) -> Ghost<CoreHistory<A>>
    ensures { result.value ≡ history_of (opening fixed.count me) }
{
    ghost_of(&(&fixed, &me))
}

/// Returns the lists of facts of processor `me` in the formed ring of all processors.
///
/// That `me` is in the group isn't checked.
///
/// Rules: Rings and states 14
pub fn formed_history<A: Allocator + Copy>(fixed: Fixed, me: Proc) -> Ghost<CoreHistory<A>>
    ensures { result.value ≡ history_of (formed fixed.count me) }
{
    ghost_of(&(&fixed, &me))
}

/// Returns the lists after the core takes part in the ring `running`, with `own` as its entry in the commit token.
///
/// `running` is now the newest ring taken part in, and `own`, which reports on the old ring, the newest report, under
/// the name of `running`. The other lists are unchanged.
///
/// Rules: Rings and states 7
pub fn history_with_ring<A: Allocator + Copy>(
    history: &Ghost<CoreHistory<A>>,
    running: Configuration,
    own: &CommitEntry,
) -> Ghost<CoreHistory<A>>
    ensures { result.value ≡ with_ring history.now.value running own.now }
{
    ghost_step(history, &(running, own))
}

/// Returns the lists after one more visit of the token: the newest visit in `visit` is now the newest in the lists.
///
/// If `visit` has no visits, nothing is added. The other lists are unchanged.
///
/// Rules: Token and window 7
pub fn history_with_core_visit<A: Allocator + Copy>(
    history: &Ghost<CoreHistory<A>>,
    visit: &Visit<A>,
) -> Ghost<CoreHistory<A>>
    ensures { result.value ≡ history_with_core_visit history.now.value visit.now.turns }
{
    ghost_step(history, visit)
}

/// Returns the lists after the core makes its plan from the full commit token `token`.
///
/// `token` is now the newest plan. `mark`, the safe mark to which the plan raises the ring `old`, is now the newest
/// raised mark. The other lists are unchanged.
///
/// Rules: Recovery 3
pub fn history_with_plan<A: Allocator + Copy>(
    history: &Ghost<CoreHistory<A>>,
    token: &Ghost<CommitToken>,
    old: RingId,
    mark: u64,
) -> Ghost<CoreHistory<A>>
    ensures { result.value ≡ history_with_plan history.now.value token.now.value old mark }
{
    ghost_step(history, &(token, old, mark))
}

/// Returns the lists after the core installs the ring `running`: it is now the newest installed ring.
///
/// The other lists are unchanged.
///
/// Rules: Recovery 7
pub fn history_with_install<A: Allocator + Copy>(
    history: &Ghost<CoreHistory<A>>,
    running: Configuration,
) -> Ghost<CoreHistory<A>>
    ensures { result.value ≡ history_with_install history.now.value running }
{
    ghost_step(history, &running)
}

/// Returns the empty ghost list.
pub fn empty_ghost_list<M>() -> Ghost<[M; 0]>
    ensures { result.value ≡ [] }
{
    ghost_of(&())
}

/// Returns the ghost list with an item added at its head.
pub fn ghost_list_with_first<M>(items: &Ghost<[M; 0]>, item: &M) -> Ghost<[M; 0]>
    ensures { result.value ≡ item.now ∷ items.now.value }
{
    ghost_of(&(items, item))
}

/// Returns the ghost list with an item added at its end.
pub fn ghost_list_with_last<M>(items: &Ghost<[M; 0]>, item: &M) -> Ghost<[M; 0]>
    ensures { result.value ≡ items.now.value ++ item.now ∷ [] }
{
    ghost_of(&(items, item))
}
