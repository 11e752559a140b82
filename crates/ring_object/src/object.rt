//! The interface of a sequential object, and its laws.
//!
//! Rules: Objects 1 to 4

ghost use Rattle.std.specs.Prelude.{◌≡◌, ℕ, Bool, false, ◌^◌, ◌<◌, List, ◌++◌, length, Some, IfOk, IfErr, OnOk, OnErr};
ghost use Rattle.ring_base.specs.declared.fault.Fault.TheVariants.{Memory};
ghost use Rattle.ring_object.specs.Bytes.{AreBytes};
ghost use Rattle.ring_object.specs.Operations.{IsReply, Sequential, unreadable_reply};
ghost use Rattle.ring_object.specs.Snapshots.{HasExactSnapshots, IsSnapshotRefusal};

use crate::short_bytes::Reply;
use ring_base::Fault;
use std::alloc::Allocator;

/// `Object`: a sequential object, the state machine that is replicated.
///
/// Contracts see its content.
///
/// Its laws: operations lead from valid contents to valid contents. A reply has at most 64 bytes. An operation that
/// can't be read changes nothing, and its reply is the byte `FF`. Exactly the snapshots of valid contents are restored,
/// each to its content.
///
/// Rules: Objects 1 to 4
pub trait Object: Sized + Drop {
    /// The allocator of the memory that holds the content.
    type Alloc: Allocator + Copy + Drop;

    /// True of the valid contents.
    ///
    /// The start content is valid, and operations lead from valid contents to valid contents.
    ghost is_content: { Self → Type 0 };

    /// Whether these bytes are an operation that the object can read.
    ghost is_readable: { List ℕ → Bool };

    /// The object as functions: the start content, the reply to an operation and the next content, the snapshot of a
    /// content, and the content of a snapshot.
    ghost sequential: { Sequential Self };

    /// Returns a new object with the start content, in memory of `alloc`.
    ///
    /// Errors: `Memory` if an allocation fails.
    ///
    /// Rules: Objects 1
    fn start(alloc: Self::Alloc) -> Result<Self, Fault>
        ensures ok { IfOk result (λ object. object ≡ sequential.initial) }
        ensures refused { IfErr result (λ fault. fault ≡ Memory) };

    /// Applies the operation `op`, any bytes, and returns the reply, 0 to 64 bytes.
    ///
    /// Reply and new content depend only on the content and `op`. An operation that can't be read changes nothing, and
    /// its reply is the byte `FF`.
    ///
    /// Errors: `Memory` if an allocation fails; the content is then unchanged.
    ///
    /// Rules: Objects 1, 2 and 4
    fn apply(&mut self, op: &[u8]) -> Result<Reply, Fault>
        ensures reply { IfOk result (λ r. r ≡ sequential.reply self.old op.now) }
        ensures ok { OnOk result (self.new ≡ sequential.next self.old op.now) }
        ensures err { OnErr result (self.new ≡ self.old) }
        ensures refused { IfErr result (λ fault. fault ≡ Memory) };

    /// Appends the snapshot of the content to `out`, and changes nothing before it.
    ///
    /// [`restore`](Object::restore) of exactly these bytes gives the content back, if they are fewer than 2^64.
    ///
    /// Errors: `Memory` if an allocation fails; the bytes of `out` are then unchanged.
    ///
    /// Rules: Objects 3 and 4
    fn snapshot(&self, out: &mut Vec<u8, Self::Alloc>) -> Result<(), Fault>
        ensures content { OnOk result (is_content self.now) }
        ensures ok { OnOk result (out.new.items ≡ out.old.items ++ sequential.snapshot_of self.now) }
        ensures err { OnErr result (out.new.items ≡ out.old.items) }
        ensures refused { IfErr result (λ fault. fault ≡ Memory) };

    /// Returns the object whose snapshot is exactly `bytes`, in memory of `alloc`.
    ///
    /// Errors: `BadSnapshot`, exactly if `bytes` isn't a snapshot of such an object; a snapshot followed by more bytes
    /// isn't one. `Memory` if it is one and an allocation fails.
    ///
    /// Rules: Objects 3
    fn restore(alloc: Self::Alloc, bytes: &[u8]) -> Result<Self, Fault>
        ensures ok { IfOk result (λ object. sequential.restored bytes.now ≡ Some object) }
        ensures refused { IfErr result (IsSnapshotRefusal (sequential.restored bytes.now)) };

    /// States that the start content is valid.
    ghost starts: { is_content sequential.initial };

    /// States that an operation leads from a valid content to a valid content.
    ghost keeps: { (content : Self) (op : List ℕ) → AreBytes op → is_content content → is_content (sequential.next content op) };

    /// States that the reply to an operation on a valid content has at most 64 bytes.
    ghost replies: { (content : Self) (op : List ℕ) → AreBytes op → is_content content → IsReply (sequential.reply content op) };

    /// States that an operation that can't be read changes nothing and has the byte `FF` as its reply.
    ghost ignores: { (content : Self) (op : List ℕ) → is_readable op ≡ false →
        (sequential.reply content op ≡ unreadable_reply) × (sequential.next content op ≡ content) };

    /// States that exactly the snapshots of valid contents are restored, each to its content.
    ghost restores: { HasExactSnapshots is_content sequential.snapshot_of sequential.restored };
}
