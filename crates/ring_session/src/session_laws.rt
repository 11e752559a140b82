//! Laws of sessions, for every list of calls.
//!
//! Rules: Sessions 3, 6 to 8 and 12

ghost use Rattle.std.specs.Prelude.{◌≡◌, ℕ, ◌^◌, ◌<◌, ◌∷◌, [], ◌++◌, List, length, Some, All};
ghost use Rattle.ring_base.specs.Prefixes.{IsListPrefix};
ghost use Rattle.ring_object.specs.Operations.{content_after};
ghost use Rattle.ring_object.specs.Snapshots.{HasExactSnapshots};
ghost use Rattle.ring_payload.specs.declared.call.Call.{Call};
ghost use Rattle.ring_session.specs.Deduplicated.{takes_effect, deduplicated, IsCallAt, IsNumbered, operations};
ghost use Rattle.ring_session.specs.OneEffect.{EachIsDone, IsDoneOnce, RepliesAreTheObjects, RepliesAreOne, AnswersStay};
ghost use Rattle.ring_session.specs.SessionAnswer.{is_done, session_answer};
ghost use Rattle.ring_session.specs.Snapshots.{HasSnapshot, KeepsLimits, table_snapshot, restored_table};
ghost use Rattle.ring_session.specs.Table.{table_answer, table_after};

use ring_object::Object;
use std::alloc::Allocator;

/// States that the deduplicated calls of a list, those that take effect, are calls of the list, each client's numbered
/// in order.
///
/// The deduplicated calls of each client have the numbers 1, 2, .. in this order. So a call with a client's number
/// takes effect at one place at most. Calls that are appended to the list only append to its deduplicated calls.
///
/// Rules: Sessions 6
pub fn deduplicated_law<A: Allocator + Copy>()
    ensures from_list { (calls : List (Call A)) (p : ℕ) (c : Call A) → IsCallAt (deduplicated calls) p c → (q : ℕ) × IsCallAt calls q c }
    ensures numbered { (calls : List (Call A)) → IsNumbered (deduplicated calls) }
    ensures once { (calls : List (Call A)) (p q : ℕ) (c d : Call A) → IsCallAt (deduplicated calls) p c
        → IsCallAt (deduplicated calls) q d → c.client ≡ d.client → c.number ≡ d.number → p ≡ q }
    ensures grows { (calls more : List (Call A)) → IsListPrefix (deduplicated calls) (deduplicated (calls ++ more)) }
{}

/// States that, for every object and every list of calls, each client's call has one effect and one reply.
///
/// A call that takes effect is answered `Done` at its place, with the object's reply. A number of a client is answered
/// `Done` at one place at most. A number with a reply names one call, and has the same reply at all places. No later
/// call changes an answer.
///
/// Rules: Sessions 3, 7 and 8
pub fn session_law<O: Object>()
    ensures done { (calls : List (Call O.Alloc)) → EachIsDone O.sequential calls }
    ensures once { (calls : List (Call O.Alloc)) → IsDoneOnce O.sequential calls }
    ensures replied { (calls : List (Call O.Alloc)) → RepliesAreTheObjects O.sequential calls }
    ensures one_reply { (calls : List (Call O.Alloc)) → RepliesAreOne O.sequential calls }
    ensures stays { (calls : List (Call O.Alloc)) → AnswersStay O.sequential calls }
{}

/// States that the session table after a list of calls gives the next call the answer that depends only on the list.
///
/// This holds for every object and every list. The object in the table has the content after the calls that took
/// effect. The answer is `Done` exactly if the call takes effect.
///
/// Rules: Sessions 6 to 8
pub fn table_law<O: Object>()
    ensures told { (calls : List (Call O.Alloc)) (c : Call O.Alloc) → session_answer O.sequential (calls ++ c ∷ [])
        (length calls) ≡ Some (table_answer O.sequential (table_after O.sequential calls) c) }
    ensures effect { (calls : List (Call O.Alloc)) (c : Call O.Alloc)
        → is_done (table_answer O.sequential (table_after O.sequential calls) c) ≡ takes_effect (deduplicated calls) c }
    ensures content { (calls : List (Call O.Alloc)) → (table_after O.sequential calls).content
        ≡ content_after O.sequential O.sequential.initial (operations (deduplicated calls)) }
{}

/// States that exactly the snapshots of session tables within the limits are restored, each to its table, for every
/// object.
///
/// Within the limits means at most 1,024 clients, operations of at most 1,024 bytes, and a valid content. After every
/// list of calls within the limits the table is within the limits too. If its snapshot has fewer than 2^64 bytes, the
/// snapshot restores it.
///
/// Rules: Sessions 12
pub fn snapshot_law<O: Object>()
    ensures restores { HasExactSnapshots (HasSnapshot O.is_content) (table_snapshot O.sequential.snapshot_of) (restored_table O.sequential.restored) }
    ensures reached { (calls : List (Call O.Alloc)) → All KeepsLimits calls
        → HasSnapshot O.is_content (table_after O.sequential calls) }
    ensures comes_back { (calls : List (Call O.Alloc)) → All KeepsLimits calls →
        let table = table_after O.sequential calls in
        length (table_snapshot O.sequential.snapshot_of table) < 2 ^ 64
        → restored_table O.sequential.restored (table_snapshot O.sequential.snapshot_of table) ≡ Some table }
{}
