//! The state of a processor in Recovery.
//!
//! Rules: Recovery 4 to 7; Outputs 1

ghost use Rattle.std.specs.Prelude.{◌≡◌, ◌≤◌, ◌++◌, length, IfOk, IfErr, OnOk, OnErr};
ghost use Rattle.ring_base.specs.Prefixes.{IsListPrefix};
ghost use Rattle.ring_base.specs.declared.fault.Fault.TheVariants.{Memory};
ghost use Rattle.ring_window.specs.Held.{front_of};
ghost use Rattle.ring_window.specs.Windows.{window_after_take};
ghost use Rattle.ring_srp_state.specs.Copies.{IsCopied};
ghost use Rattle.ring_srp_state.specs.Setting.{HasDeferred};
ghost use Rattle.ring_srp_state.specs.Taking.{window_front, with_taken, with_inner};
ghost use Rattle.ring_srp_state.specs.Users.{users_in, user_of};

use crate::ring_part::WindowAndVisits;
use ring_base::Fault;
use ring_payload::Payload;
use ring_recover::{EndCounts, Plan, is_user_payload, unwrap};
use ring_window::Window;
use ring_wire::Message;
use std::alloc::{AllocError, Allocator, Global};

/// The state of a processor in Recovery: its running ring, its plan for the old ring, and the progress of the members.
///
/// Installation delivers the running ring's user messages from number 1 on. Those that the window may drop before then
/// are deferred: they are kept here.
///
/// Rules: Recovery 4 to 7; Outputs 1
#[derive(Drop)]
pub struct RecoveryState<A: Allocator + Copy = Global> {
    /// The window and the visits of the running ring.
    pub part: WindowAndVisits<A>,
    /// The plan: what the transitional members hold of the old ring, and which of its messages were seen wrapped.
    pub plan: Plan<A>,
    /// The counts of Ends and user messages in the running ring's front, which decide on installation.
    pub ends: EndCounts<A>,
    /// The greatest number up to which the running ring's user messages have been deferred, 0 at first.
    pub most: u64,
    /// The deferred messages, in ascending order of their numbers.
    pub deferred: Vec<Message<A>, A>,
}

impl<A: Allocator + Copy> RecoveryState<A> {
    /// Defers the running ring's user messages up to its front, so that the window may drop them.
    ///
    /// `most` must be at least the window's safe mark, and `deferred` must have the user messages numbered 1 to `most`.
    /// Both hold afterwards too, and `most` is then at least the front. If it already was, nothing changes.
    ///
    /// Errors: `Memory` if an allocation fails; the messages before the failing one have then been deferred.
    ///
    /// Rules: Recovery 7; Outputs 1
    pub fn defer_messages(&mut self) -> Result<(), Fault>
        requires mark { self.old.part.window.mark ≤ self.old.most }
        requires deferred { self.old.deferred.items ≡ users_in self.old.part.window 0 self.old.most }
        ensures more { HasDeferred self.old self.new }
        ensures all { OnOk result (front_of self.new.part.window.held self.new.part.window.ring ≤ self.new.most) }
        ensures refused { IfErr result (λ fault. fault ≡ Memory) }
    {
        for before in self.most..self.part.window.front() {
            if let Some(message) = self.part.window.get(before + 1) {
                push_copy_if_user(message, &mut self.deferred)?;
            }
            self.most = before + 1;
        }
        Ok(())
    }

    /// Holds a message of the running ring.
    ///
    /// The plan records it, and the window takes it if it belongs to the running ring and its number is new there. Then
    /// the messages that the front newly covers are counted. The window's safe mark must be at most the number of
    /// messages counted so far, which must be those from number 1 on. Pass only messages of the running ring: the window
    /// ignores any other, but the plan records it unchecked.
    ///
    /// Rules: Recovery 5, 7 and 11
    pub fn take(&mut self, message: Message<A>)
        requires front { IsListPrefix self.old.ends (window_front (window_after_take self.old.part.window message)) }
        requires mark { (window_after_take self.old.part.window message).mark ≤ length self.old.ends }
        ensures { self.new ≡ with_taken self.old message }
    {
        self.plan.observe_message(&message);
        self.part.window.take(message);
        self.ends.count_front(&self.part.window);
    }
}

impl<A: Allocator + Copy> Clone for RecoveryState<A> {
    ghost is_clone = { IsCopied };

    fn clone(&self) -> Result<RecoveryState<A>, AllocError> {
        Ok(RecoveryState {
            plan: self.plan.clone()?,
            ends: self.ends.clone()?,
            most: self.most,
            deferred: copied_messages(&self.deferred)?,
            part: self.part.clone()?,
        })
    }
}

/// Returns a copy of the list with copies of its messages.
///
/// Errors: `AllocError` if an allocation fails.
fn copied_messages<A: Allocator + Copy>(
    messages: &Vec<Message<A>, A>,
) -> Result<Vec<Message<A>, A>, AllocError>
    ensures { IfOk result (λ copy. copy.items ≡ messages.now.items) }
{
    messages.clone()
}

/// Appends a copy of the message if it is a user message.
///
/// Errors: `Memory` if an allocation fails; nothing is appended.
fn push_copy_if_user<A: Allocator + Copy>(
    message: &Message<A>,
    deferred: &mut Vec<Message<A>, A>,
) -> Result<(), Fault>
    ensures ok { OnOk result (deferred.new.items ≡ deferred.old.items ++ user_of message.now) }
    ensures kept { OnErr result (deferred.new.items ≡ deferred.old.items) }
    ensures refused { IfErr result (λ fault. fault ≡ Memory) }
{
    if is_user_payload(&message.payload) {
        let copy = message.clone()?;
        deferred.push(copy)?;
    }
    Ok(())
}

/// Adds a copy of the inner message of a Wrapped to `window`, if it belongs to the window's ring and its number is new
/// there.
///
/// `window` is that of the old ring. Any other payload changes nothing.
///
/// Errors: `Memory` if an allocation fails; the window is unchanged.
///
/// Rules: Recovery 6
pub fn unwrap_into<A: Allocator + Copy>(
    payload: &Payload<A>,
    window: &mut Window<A>,
) -> Result<(), Fault>
    ensures ok { OnOk result (window.new ≡ with_inner window.old payload.now) }
    ensures refused { IfErr result (λ fault. fault ≡ Memory) }
    ensures kept { OnErr result (window.new ≡ window.old) }
{
    match payload {
        Payload::Wrapped(wrapped) => {
            unwrap(wrapped, window)?;
            Ok(())
        }
        Payload::Call(_)
        | Payload::End
        | Payload::Head(_)
        | Payload::Part(_)
        | Payload::Pack(_)
        | Payload::Snap(_) => Ok(()),
    }
}
