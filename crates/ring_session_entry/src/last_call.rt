//! A client's last call that took effect, with the reply to it.
//!
//! Rules: Sessions 2, 3 and 5

ghost use Rattle.std.specs.Prelude.{◌≡◌, ◌+◌, ◌≤◌, ◌==◌, length, IfOk, IfErr, OnOk, OnErr};
ghost use Rattle.ring_payload.specs.Faults.{Memory};
ghost use Rattle.ring_session_entry.specs.LastCalls.{last_call, no_call};

use ring_object::{Object, Reply};
use ring_payload::{Call, Fault};
use std::alloc::{AllocError, Allocator};
use std::marker::Model;

/// The last call of a client that took effect: its number, its operation, and the reply to it.
///
/// Rules: Sessions 2
#[derive(Drop)]
pub struct LastCall<A: Allocator + Copy> {
    number: u64,
    operation: Vec<u8, A>,
    reply: Reply,
}

impl<A: Allocator + Copy> Model for LastCall<A> {
    ghost use Rattle.ring_session_entry.specs.LastCalls.{LastCall as OneCall};

    ghost Value = { OneCall };

    ghost view = { λ last. record { number = last.number; operation = last.operation.items; reply = last.reply } };
}

impl<A: Allocator + Copy> Clone for LastCall<A> {
    ghost is_clone = { λ last copy. copy ≡ last };

    fn clone(&self) -> Result<LastCall<A>, AllocError> {
        Ok(LastCall {
            number: self.number,
            operation: self.operation.clone()?,
            reply: self.reply,
        })
    }
}

impl<A: Allocator + Copy> LastCall<A> {
    /// Returns the entry of a client none of whose calls has taken effect yet.
    ///
    /// It has the number 0, an empty operation and an empty reply. Does not allocate.
    ///
    /// Rules: Sessions 2
    pub fn before_first_call(alloc: A) -> LastCall<A>
        ensures { result ≡ no_call }
    {
        LastCall {
            number: 0,
            operation: Vec::new(alloc),
            reply: Reply::from_slice(&[]),
        }
    }

    /// Returns the entry with this number, a copy of this operation, and this reply.
    ///
    /// The reply must have at most 64 bytes.
    ///
    /// Errors: `Memory` if an allocation fails.
    ///
    /// Rules: Sessions 2
    pub fn from_parts(
        alloc: A,
        number: u64,
        operation: &[u8],
        reply: &[u8],
    ) -> Result<LastCall<A>, Fault>
        requires { length reply.now ≤ 64 }
        ensures ok { IfOk result (λ last. last
            ≡ record { number = number; operation = operation.now; reply = reply.now }) }
        ensures refused { IfErr result (λ fault. fault ≡ Memory) }
    {
        Ok(LastCall {
            number,
            operation: Vec::from_slice(alloc, operation)?,
            reply: Reply::from_slice(reply),
        })
    }

    /// Returns the number of the last call that took effect, 0 before the first.
    ///
    /// Rules: Sessions 2
    pub fn number(&self) -> u64
        ensures { result ≡ self.now.number }
    {
        self.number
    }

    /// Returns the bytes of the last call's operation, none before the first call.
    ///
    /// Rules: Sessions 2
    pub fn operation(&self) -> &[u8]
        ensures { result.now ≡ self.now.operation }
    {
        self.operation.as_slice()
    }

    /// Returns the reply to the last call, 0 to 64 bytes.
    ///
    /// It is empty before the first call.
    ///
    /// Rules: Sessions 2
    pub fn reply(&self) -> Reply
        ensures { result ≡ self.now.reply }
    {
        self.reply
    }

    /// Returns whether `number` is the client's next: one more than the number of its last call.
    ///
    /// No number is next after 2^64 - 1.
    ///
    /// Rules: Sessions 3
    pub fn is_next_number(&self, number: u64) -> bool
        ensures { result ≡ (number == self.now.number + 1) }
    {
        self.number.checked_add(1) == Some(number)
    }

    /// Applies the call's operation to `object`, keeps the call and its reply as the client's last, and returns the
    /// reply.
    ///
    /// That the call is the client's next isn't checked.
    ///
    /// Errors: `Memory` if an allocation fails; the entry and the object's content are then unchanged.
    ///
    /// Rules: Sessions 3 and 5
    pub fn apply<O: Object<Alloc = A>>(
        &mut self,
        object: &mut O,
        call: &Call<A>,
    ) -> Result<Reply, Fault>
        ensures reply { IfOk result (λ reply. reply ≡ O.sequential.reply object.old call.now.op) }
        ensures kept { OnOk result (self.new ≡ last_call call.now (O.sequential.reply object.old call.now.op)) }
        ensures applied { OnOk result (object.new ≡ O.sequential.next object.old call.now.op) }
        ensures err { OnErr result (self.new ≡ self.old) }
        ensures content { OnErr result (object.new ≡ object.old) }
        ensures refused { IfErr result (λ fault. fault ≡ Memory) }
    {
        let operation = call.op.as_slice();
        let more = operation.len().saturating_sub(self.operation.len());
        self.operation.reserve(more)?;
        let reply = object.apply(operation)?;
        self.operation.clear();
        self.operation.extend_from_slice(operation).unwrap();
        self.number = call.number;
        self.reply = reply;
        Ok(reply)
    }
}
