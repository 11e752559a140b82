//! Appends the outputs of one ring's messages and safe mark to a list of outputs.
//!
//! A function marked `inline(never)` keeps the large stack slot of an output out of its caller.
//!
//! Rules: Outputs 3 to 6

ghost use Rattle.std.specs.Prelude.{◌≡◌, ◌++◌, ◌∷◌, [], ◌≤◌, IfErr, OnOk};
ghost use Rattle.ring_base.specs.declared.fault.Fault.TheVariants.{Memory};
ghost use Rattle.ring_window.specs.Held.{front_of};
ghost use Rattle.ring_core_spec.specs.Giving.{all_agreed};
ghost use Rattle.ring_core_spec.specs.declared.out.Out.TheVariants.{Agreed, Safe};
ghost use Rattle.ring_srp_state.specs.Rests.{rest_one, rest_of};
ghost use Rattle.ring_srp_state.specs.Users.{agreed_in, agreed_of, safe_to};

use ring_base::{Fault, RingId};
use ring_core_spec::Out;
use ring_recover::{NumberSet, is_user_payload};
use ring_window::Window;
use ring_wire::Message;
use std::alloc::Allocator;

/// Appends an `Agreed` for each user message that the front covers and whose number is above `below`, ascending.
///
/// The messages are those of the window's ring. `below` must be at least the window's safe mark, so that the window
/// still has all of them. Nothing is appended if `below` is the front or more.
///
/// Errors: `Memory` if an allocation fails; the contents of `outs` are then unspecified.
///
/// Rules: Outputs 3 and 6
pub fn give_agreed<A: Allocator + Copy>(
    window: &Window<A>,
    below: u64,
    outs: &mut Vec<Out<A>, A>,
) -> Result<(), Fault>
    requires { window.now.mark ≤ below }
    ensures ok { OnOk result (outs.new.items ≡ outs.old.items ++ agreed_in window.now below (front_of window.now.held window.now.ring)) }
    ensures refused { IfErr result (λ fault. fault ≡ Memory) }
{
    for before in below..window.front() {
        if let Some(message) = window.get(before + 1) {
            push_agreed_if_user(window.ring(), message, outs)?;
        }
    }
    Ok(())
}

/// Appends an `Agreed` for the message if it is a user message.
#[inline(never)]
fn push_agreed_if_user<A: Allocator + Copy>(
    ring: RingId,
    message: &Message<A>,
    outs: &mut Vec<Out<A>, A>,
) -> Result<(), Fault>
    ensures ok { OnOk result (outs.new.items ≡ outs.old.items ++ agreed_of ring message.now) }
    ensures refused { IfErr result (λ fault. fault ≡ Memory) }
{
    if is_user_payload(&message.payload) {
        let copy = message.clone()?;
        outs.reserve(1)?;
        outs.push_reserved(Out::Agreed(ring, message.number, copy));
    }
    Ok(())
}

/// Appends a `Safe` with the ring and its safe mark `mark` if `mark` is above `before`, otherwise nothing.
///
/// `before` must be the ring's safe mark at the start of the step.
///
/// Errors: `Memory` if an allocation fails; the contents of `outs` are then unspecified.
///
/// Rules: Outputs 4
pub fn give_safe<A: Allocator + Copy>(
    ring: RingId,
    before: u64,
    mark: u64,
    outs: &mut Vec<Out<A>, A>,
) -> Result<(), Fault>
    ensures ok { OnOk result (outs.new.items ≡ outs.old.items ++ safe_to ring before mark) }
    ensures refused { IfErr result (λ fault. fault ≡ Memory) }
{
    if before < mark {
        push_safe(ring, mark, outs)?;
    }
    Ok(())
}

#[inline(never)]
fn push_safe<A: Allocator + Copy>(
    ring: RingId,
    mark: u64,
    outs: &mut Vec<Out<A>, A>,
) -> Result<(), Fault>
    ensures ok { OnOk result (outs.new.items ≡ outs.old.items ++ Safe ring mark ∷ []) }
    ensures refused { IfErr result (λ fault. fault ≡ Memory) }
{
    outs.reserve(1)?;
    outs.push_reserved(Out::Safe(ring, mark));
    Ok(())
}

/// Appends a `Rest` for each user message of these numbers that the window still has, in ascending order.
///
/// A number is skipped if the window doesn't hold it or has dropped its message, or if its message is an End or a
/// Wrapped.
///
/// Errors: `Memory` if an allocation fails; the contents of `outs` are then unspecified.
///
/// Rules: Outputs 5 and 6
pub fn give_rest<A: Allocator + Copy>(
    window: &Window<A>,
    numbers: &NumberSet,
    outs: &mut Vec<Out<A>, A>,
) -> Result<(), Fault>
    ensures ok { OnOk result (outs.new.items ≡ outs.old.items ++ rest_of window.now numbers.now) }
    ensures refused { IfErr result (λ fault. fault ≡ Memory) }
{
    for number in numbers.iter() {
        push_rest_of_number(window, number, outs)?;
    }
    Ok(())
}

/// Appends a `Rest` for message `number`, if the window still has it and it is a user message.
fn push_rest_of_number<A: Allocator + Copy>(
    window: &Window<A>,
    number: u64,
    outs: &mut Vec<Out<A>, A>,
) -> Result<(), Fault>
    ensures ok { OnOk result (outs.new.items ≡ outs.old.items ++ rest_of window.now (number ∷ [])) }
    ensures refused { IfErr result (λ fault. fault ≡ Memory) }
{
    match window.get(number) {
        Some(message) => push_rest_if_user(message, outs),
        None => Ok(()),
    }
}

/// Appends a `Rest` for the message if it is a user message.
fn push_rest_if_user<A: Allocator + Copy>(
    message: &Message<A>,
    outs: &mut Vec<Out<A>, A>,
) -> Result<(), Fault>
    ensures ok { OnOk result (outs.new.items ≡ outs.old.items ++ rest_one message.now) }
    ensures refused { IfErr result (λ fault. fault ≡ Memory) }
{
    if is_user_payload(&message.payload) {
        outs.push(Out::Rest(message.ring, message.number, message.clone()?))?;
    }
    Ok(())
}

/// Appends an `Agreed` of `ring` for each of the messages, in their order.
///
/// The messages are to be the user messages of `ring` that Recovery deferred until its installation; this isn't
/// checked. If there are none, nothing is appended.
///
/// Errors: `Memory` if an allocation fails; the contents of `outs` are then unspecified.
///
/// Rules: Outputs 1 and 3
pub fn give_deferred<A: Allocator + Copy>(
    ring: &RingId,
    messages: Vec<Message<A>, A>,
    outs: &mut Vec<Out<A>, A>,
) -> Result<(), Fault>
    ensures ok { OnOk result (outs.new.items ≡ outs.old.items ++ all_agreed ring.now messages.items) }
    ensures refused { IfErr result (λ fault. fault ≡ Memory) }
{
    for message in messages {
        outs.push(agreed_output(*ring, message))?;
    }
    Ok(())
}

fn agreed_output<A: Allocator + Copy>(ring: RingId, message: Message<A>) -> Out<A>
    ensures { result ≡ Agreed ring message.number message }
{
    let number = message.number;
    Out::Agreed(ring, number, message)
}
