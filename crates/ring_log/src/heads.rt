//! How the Heads of all members determine the owner and the wanted places.
//!
//! Rules: The replicated log 4 and 5

ghost use Rattle.std.specs.Prelude.{◌≡◌};
ghost use Rattle.ring_log.specs.Heads.{chosen_head, least_committed};
ghost use Rattle.ring_log.specs.Exchanges.{wanted_from_heads, wanted_from_owner};

use crate::received_head::ReceivedHead;
use crate::wanted::Wanted;
use ring_base::Proc;
use ring_wire::Head;

/// Returns the owner and the wanted part of its log, given the Heads of all members, or `None` if there is no Head.
///
/// Rules: The replicated log 4 and 5
pub(crate) fn wanted_from_heads(heads: &[ReceivedHead]) -> Option<Wanted>
    ensures { result ≡ wanted_from_heads heads.now }
{
    let (first, rest) = heads.split_first()?;
    let chosen = chosen_head(*first, rest);
    let least = least_committed(first.head.committed, rest);
    Some(wanted_from_owner(chosen.sender, &chosen.head, least))
}

/// Returns the wanted part of an owner's log, given its Head and `least`, the least committed length of all Heads.
///
/// These are the places from `least` on. If the owner has dropped some of them, a snapshot of all dropped places is
/// wanted, and the places after them.
fn wanted_from_owner(owner: Proc, head: &Head, least: u64) -> Wanted
    ensures { result ≡ wanted_from_owner owner head.now least }
{
    let (snapshot, from) = if least < head.trimmed {
        (Some(head.trimmed), head.trimmed)
    } else {
        (None, least)
    };
    Wanted {
        owner,
        snapshot,
        from,
        to: head.length,
    }
}

/// Returns the chosen Head of `first` and `rest`.
fn chosen_head(first: ReceivedHead, rest: &[ReceivedHead]) -> ReceivedHead
    ensures { result ≡ chosen_head first rest.now }
{
    let mut best = first;
    for received_head in rest {
        if best.is_chosen_after(received_head) {
            best = *received_head;
        }
    }
    best
}

/// Returns the least of `first` and the committed lengths of `rest`.
fn least_committed(first: u64, rest: &[ReceivedHead]) -> u64
    ensures { result ≡ least_committed first rest.now }
{
    let mut least = first;
    for received_head in rest {
        least = least.min(received_head.head.committed);
    }
    least
}
