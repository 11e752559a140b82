//! The history of a replica as ghost values, for contracts only.

ghost use Rattle.std.specs.Prelude.{◌≡◌, List, [], ◌++◌};
ghost use Rattle.ring_replica.specs.Replicas.{ghost_state_opening, ghost_state_after_step, ghost_state_after_ticket};

use ring_base::{Ghost, Proc, ghost_of, ghost_step};
use ring_payload::Call;
use ring_replication::EpochHistory;
use ring_session::TicketAnswer;
use std::alloc::{Allocator, Global};
use std::marker::{Model, PhantomData};

/// The ghost state of a replica: its node's epochs up to the last finished step, its tickets, the calls done and its
/// answers.
///
/// No value of this type exists at run time.
///
/// Rules: The replicated log 1
pub struct ReplicaHistory<A: Allocator + Copy = Global> {
    allocator: PhantomData<A>,
}

impl<A: Allocator + Copy> Model for ReplicaHistory<A> {
    ghost use Rattle.ring_replica.specs.Replicas.{ReplicaGhostState, ghost_state_opening};

    ghost Value = { ReplicaGhostState A };

    ghost view = { λ _. ghost_state_opening 1 };
}

/// Returns the history of processor `me` at the opening: no tickets, no calls done, no answers.
pub(crate) fn history_opening<A: Allocator + Copy>(me: Proc) -> Ghost<ReplicaHistory<A>>
    ensures { result.value ≡ ghost_state_opening me }
{
    ghost_of(&me)
}

/// Returns the history after a finished step, in which the calls `committed` were done and `answers` were given.
pub(crate) fn history_after_step<A: Allocator + Copy>(
    history: &Ghost<ReplicaHistory<A>>,
    epochs: &Ghost<EpochHistory<A>>,
    committed: &[Call<A>],
    answers: &[TicketAnswer<A>],
) -> Ghost<ReplicaHistory<A>>
    ensures { result.value ≡ ghost_state_after_step history.now.value epochs.now.value committed.now answers.now }
{
    ghost_step(history, &(epochs, committed, answers))
}

/// Returns the history after the call was given a ticket, and handed to the core if `runs`.
pub(crate) fn history_after_ticket<A: Allocator + Copy>(
    history: &Ghost<ReplicaHistory<A>>,
    call: &Call<A>,
    runs: bool,
) -> Ghost<ReplicaHistory<A>>
    ensures { result.value ≡ ghost_state_after_ticket history.now.value call.now runs }
{
    ghost_step(history, &(call, runs))
}
