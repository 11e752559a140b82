//! The messages that a node saw, as ghost lists that only contracts read.

ghost use Rattle.std.specs.Prelude.{◌≡◌, [], ◌∷◌, ◌++◌};

use ring_base::{Ghost, ghost_of};

/// Returns the empty list.
pub(crate) fn nothing_seen<M>() -> Ghost<[M; 0]>
    ensures { result.value ≡ [] }
{
    ghost_of(&())
}

/// Returns the list with `message` added at its head.
pub(crate) fn with_message_first<M>(history: &Ghost<[M; 0]>, message: &M) -> Ghost<[M; 0]>
    ensures { result.value ≡ message.now ∷ history.now.value }
{
    ghost_of(&(history, message))
}

/// Returns the list with `message` added at its end.
pub(crate) fn with_message_last<M>(history: &Ghost<[M; 0]>, message: &M) -> Ghost<[M; 0]>
    ensures { result.value ≡ history.now.value ++ message.now ∷ [] }
{
    ghost_of(&(history, message))
}
