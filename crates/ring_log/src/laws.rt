//! Laws of logs and of their exchange.
//!
//! Rules: The replicated log 3, 6, 12, 16 and 20

ghost use Rattle.std.specs.Prelude.{◌≡◌, ℕ, ◌+◌, ◌≤◌, true, List, [], ◌∷◌, ◌++◌, length, take, Some, None};
ghost use Rattle.ring_base.specs.Prefixes.{IsListPrefix};
ghost use Rattle.ring_base.specs.Group.{Group, is_primary};
ghost use Rattle.ring_base.specs.declared.ring_id.RingId.{RingId};
ghost use Rattle.ring_wire.specs.Payloads.{Call as OneCall};
ghost use Rattle.ring_wire.specs.declared.message.Message.{Message};
ghost use Rattle.ring_log.specs.declared.base.Base.{Base};
ghost use Rattle.ring_log.specs.declared.wanted.Wanted.{Wanted};
ghost use Rattle.ring_log.specs.Exchanges.{Exchange, exchange_opening, wanted, heard_pieces, base_at, handed_out};
ghost use Rattle.ring_log.specs.Parts.{pieces_of};
ghost use Rattle.ring_log.specs.Logs.{Log, log_opening, log_with_calls_if_room, log_after_base_if_may, trimmed_log, committed_upto, committed_calls, IsLog, KeepsCommitted};
ghost use Rattle.ring_log.specs.EpochHistories.{CompleteExchange, complete_exchange, drained_exchange_after, base_ending, own_base};

use std::alloc::Allocator;

/// States that committed places never change, for every log that the calls of `Log` can make.
///
/// No call of a log lowers its committed length or changes a committed place that the log has kept, not even `adopt`
/// with an arbitrary base. Only committed places are dropped. The committed places are always a prefix of the log.
///
/// Rules: The replicated log 6, 12 and 20
pub fn log_keeps_committed_law<A: Allocator + Copy>()
    ensures opening { IsLog (log_opening {A = A}) }
    ensures first { (log : Log A) → IsLog log →
        IsListPrefix (committed_calls log) log.calls × (log.trimmed + length (committed_calls log) ≡ log.committed) }
    ensures followed { (log : Log A) (calls : List (OneCall A)) → IsLog log → KeepsCommitted log (log_with_calls_if_room log calls) }
    ensures adopted { (log : Log A) (ring : RingId) (base : Base A) → IsLog log → KeepsCommitted log (log_after_base_if_may log ring base) }
    ensures committed { (log : Log A) (n : ℕ) → IsLog log → KeepsCommitted log (committed_upto log n) }
    ensures dropped { (log : Log A) → IsLog log → KeepsCommitted log (trimmed_log log) }
{}

/// States when an exchange hands out its base, and that a log that adopts the base becomes the ring's base.
///
/// The law holds for every primary ring and every list of its messages in order. The base is handed out exactly once,
/// at the message that completes the exchange; later messages come after the exchange. Without a snapshot, a log's own
/// places below the base's `from` come before the base's calls; with one, the places that the snapshot replaces do. All
/// pieces of a wanted snapshot, in their order, give its bytes.
///
/// Rules: The replicated log 3, 4, 6 and 16
pub fn exchange_base_law<A: Allocator + Copy>()
    ensures handed { (group : Group) (members : ℕ) (text : List (Message A)) (x : Message A) → is_primary group members ≡ true →
        base_at (drained_exchange_after (exchange_opening members) text) x.sender x.payload
        ≡ base_ending (complete_exchange group members text) (complete_exchange group members (text ++ x ∷ [])) }
    ensures ends { (group : Group) (members : ℕ) (text : List (Message A)) (x : Message A) (w : CompleteExchange A) →
        complete_exchange group members text ≡ None → complete_exchange group members (text ++ x ∷ []) ≡ Some w → (w.end ≡ x.number) × (w.rest ≡ []) }
    ensures later { (group : Group) (members : ℕ) (text : List (Message A)) (x : Message A) (w : CompleteExchange A) →
        complete_exchange group members text ≡ Some w → complete_exchange group members (text ++ x ∷ []) ≡ Some (record w { rest = w.rest ++ x ∷ [] }) }
    ensures base { (e : Exchange A) (base : Base A) (own front : List (OneCall A)) →
        handed_out e ≡ Some base → base.snapshot ≡ None → take base.from own ++ base.calls ≡ own_base own front e }
    ensures snapshot { (e : Exchange A) (base : Base A) (bytes : List ℕ) (own front : List (OneCall A)) →
        handed_out e ≡ Some base → base.snapshot ≡ Some bytes → (bytes ≡ e.bytes) × (own_base own front e ≡ front ++ base.calls) }
    ensures pieces { (e : Exchange A) (w : Wanted) (at : ℕ) (bytes : List ℕ) → wanted e ≡ Some w → w.snapshot ≡ Some at →
        e.received_bytes ≡ 0 → e.total ≡ 0 → e.bytes ≡ [] → 1 ≤ length bytes →
        heard_pieces e w.owner (pieces_of at bytes) ≡ record e { received_bytes = length bytes; total = length bytes; bytes = bytes } }
{}
