//! The law of the contents and replies to which a list of operations leads, for any object.
//!
//! Rules: Objects 1 and 3

ghost use Rattle.std.specs.Prelude.{◌≡◌, ℕ, ◌+◌, ◌^◌, ◌<◌, List, ◌++◌, length, Some, All};
ghost use Rattle.ring_object.specs.Bytes.{AreBytes};
ghost use Rattle.ring_object.specs.Operations.{IsReply, content_after, reply_at};

use crate::object::Object;

/// States that operations lead only to valid contents, and that later operations don't change earlier replies.
///
/// This holds for every object and every list of operations, which may be any bytes. A snapshot of the content after
/// the list restores that content, if it has fewer than 2^64 bytes. The reply to each operation of the list has at most
/// 64 bytes, and stays the same when operations are appended to the list.
///
/// Rules: Objects 1 and 3
pub fn object_law<O: Object>()
    ensures reached { (ops : List (List ℕ)) → All AreBytes ops →
        O.is_content (content_after O.sequential O.sequential.initial ops) }
    ensures comes_back { (ops : List (List ℕ)) → All AreBytes ops →
        let content = content_after O.sequential O.sequential.initial ops in
        length (O.sequential.snapshot_of content) < 2 ^ 64 → O.sequential.restored (O.sequential.snapshot_of content) ≡ Some content }
    ensures grows { (ops more : List (List ℕ)) →
        content_after O.sequential O.sequential.initial (ops ++ more)
        ≡ content_after O.sequential (content_after O.sequential O.sequential.initial ops) more }

    ensures replied { (ops : List (List ℕ)) (p : ℕ) → All AreBytes ops → p < length ops →
        IsReply (reply_at O.sequential ops p) }
    ensures stays { (ops more : List (List ℕ)) (p : ℕ) → p < length ops →
        reply_at O.sequential (ops ++ more) p ≡ reply_at O.sequential ops p }
{}
