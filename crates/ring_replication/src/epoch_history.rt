//! The history of a node as ghost values, for contracts only.

ghost use Rattle.std.specs.Prelude.{◌≡◌, List, [], ◌∷◌, ◌++◌};
ghost use Rattle.ring_log.specs.Epochs.{history_opening_of, epochs_with_message, epochs_with_mark, epochs_with_sends, epochs_with_trim, epoch_opening};
ghost use Rattle.ring_replication.specs.Replications.{handed_if};

use ring_base::{Ghost, Proc, ProcSet, RingId, ghost_of, ghost_step};
use ring_payload::{Call, Payload};
use ring_wire::Message;
use std::alloc::{Allocator, Global};
use std::marker::{Model, PhantomData};

/// The history of a node as contracts see it: its epochs, the newest first.
///
/// An epoch is the time in one installed ring. Each epoch has the messages received, the payloads handed to the core,
/// the trimmed length and the safe mark. No value of this type exists at run time.
///
/// Rules: Outputs 9
pub struct EpochHistory<A: Allocator + Copy = Global> {
    allocator: PhantomData<A>,
}

impl<A: Allocator + Copy> Model for EpochHistory<A> {
    ghost use Rattle.std.specs.Prelude.{List, []};
    ghost use Rattle.ring_log.specs.Epochs.{Epoch};

    ghost Value = { List (Epoch A) };

    ghost view = { λ _. [] };
}

/// Returns the history of processor `me` at the opening: one epoch, in the ring (0, `me`).
pub(crate) fn history_opening_of<A: Allocator + Copy>(me: Proc) -> Ghost<EpochHistory<A>>
    ensures { result.value ≡ history_opening_of me }
{
    ghost_of(&me)
}

/// Returns the history with one more message received in its newest epoch.
pub(crate) fn history_with_message<A: Allocator + Copy>(
    epochs: &Ghost<EpochHistory<A>>,
    message: &Message<A>,
) -> Ghost<EpochHistory<A>>
    ensures { result.value ≡ epochs_with_message message.now epochs.now.value }
{
    ghost_step(epochs, &message)
}

/// Returns the history with the safe mark `upto` in its newest epoch.
pub(crate) fn history_with_mark<A: Allocator + Copy>(
    epochs: &Ghost<EpochHistory<A>>,
    upto: u64,
) -> Ghost<EpochHistory<A>>
    ensures { result.value ≡ epochs_with_mark upto epochs.now.value }
{
    ghost_step(epochs, &upto)
}

/// Returns the history with a new epoch, in `ring` of these members.
pub(crate) fn history_with_epoch<A: Allocator + Copy>(
    epochs: &Ghost<EpochHistory<A>>,
    ring: RingId,
    members: ProcSet,
) -> Ghost<EpochHistory<A>>
    ensures { result.value ≡ epoch_opening ring members ∷ epochs.now.value }
{
    ghost_step(epochs, &(ring, members))
}

/// Returns the history with the payloads `due` handed to the core in its newest epoch.
pub(crate) fn history_with_sends<A: Allocator + Copy>(
    epochs: &Ghost<EpochHistory<A>>,
    due: &Vec<Payload<A>, A>,
) -> Ghost<EpochHistory<A>>
    ensures { result.value ≡ epochs_with_sends due.now.items epochs.now.value }
{
    ghost_step(epochs, &due)
}

/// Returns the history with the call handed to the core in its newest epoch if `runs`, otherwise unchanged.
pub(crate) fn history_with_call<A: Allocator + Copy>(
    epochs: &Ghost<EpochHistory<A>>,
    call: &Call<A>,
    runs: bool,
) -> Ghost<EpochHistory<A>>
    ensures { result.value ≡ epochs_with_sends (handed_if runs call.now) epochs.now.value }
{
    ghost_step(epochs, &(call, runs))
}

/// Returns the history with the trimmed length `places` in its newest epoch.
pub(crate) fn history_with_trim<A: Allocator + Copy>(
    epochs: &Ghost<EpochHistory<A>>,
    places: u64,
) -> Ghost<EpochHistory<A>>
    ensures { result.value ≡ epochs_with_trim places epochs.now.value }
{
    ghost_step(epochs, &places)
}
