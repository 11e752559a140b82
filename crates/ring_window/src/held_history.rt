//! The messages that a window has ever held, as ghost values for contracts.

ghost use Rattle.std.specs.Prelude.{◌≡◌, [], ◌∷◌};

use ring_base::{Ghost, ghost_of};

/// Returns the empty history: no message has been held yet.
pub(crate) fn empty_held_history<M>() -> Ghost<[M; 0]>
    ensures { result.value ≡ [] }
{
    ghost_of(&())
}

/// Returns the history with `message` added as the newest. The history lists the newest message first.
pub(crate) fn with_held_message<M>(history: &Ghost<[M; 0]>, message: &M) -> Ghost<[M; 0]>
    ensures { result.value ≡ message.now ∷ history.now.value }
{
    ghost_of(&(history, message))
}
