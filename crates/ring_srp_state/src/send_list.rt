//! Appends frames to a list of sends, unless they have no receiver.
//!
//! A function marked `inline(never)` keeps the large stack slot of a copied frame out of its caller.
//!
//! Rules: Token and window 12

ghost use Rattle.std.specs.Prelude.{◌≡◌, [], ◌∷◌, ◌++◌, IfErr, OnOk};
ghost use Rattle.ring_base.specs.declared.fault.Fault.TheVariants.{Memory};
ghost use Rattle.ring_wire.specs.declared.frame.Frame.TheVariants.{Message as MessageFrame, Token as TokenFrame};
ghost use Rattle.ring_core_spec.specs.Giving.{sends_with_receivers};

use ring_base::{Fault, ProcSet};
use ring_core_spec::OutgoingFrame;
use ring_wire::{Frame, Message, Requests, Token};
use std::alloc::Allocator;

/// Appends `frame`, addressed to `to`, to `sends`.
///
/// If `to` is empty, nothing is appended, and the frame is dropped.
///
/// Errors: `Memory` if an allocation fails; the contents of `sends` are then unspecified.
///
/// Rules: Token and window 12
pub fn push_frame<A: Allocator + Copy>(
    sends: &mut Vec<OutgoingFrame<A>, A>,
    to: ProcSet,
    frame: Frame<A>,
) -> Result<(), Fault>
    ensures ok { OnOk result (sends.new.items ≡ sends.old.items ++ sends_with_receivers (record { to = to; frame = frame } ∷ [])) }
    ensures refused { IfErr result (λ fault. fault ≡ Memory) }
{
    if !to.is_empty() {
        sends.reserve(1)?;
        sends.push_reserved(OutgoingFrame { to, frame });
    }
    Ok(())
}

/// Appends a copy of `frame`, addressed to `to`, to `sends`, unless `to` is empty.
///
/// It is meant for the kept token or commit token, of which the core needs the original.
///
/// Errors: `Memory` if an allocation fails; the contents of `sends` are then unspecified.
///
/// Rules: Token and window 12; Rings and states 10
pub fn send_copy<A: Allocator + Copy>(
    sends: &mut Vec<OutgoingFrame<A>, A>,
    to: ProcSet,
    frame: &Frame<A>,
) -> Result<(), Fault>
    ensures ok { OnOk result (sends.new.items ≡ sends.old.items ++ sends_with_receivers (record { to = to; frame = frame.now } ∷ [])) }
    ensures refused { IfErr result (λ fault. fault ≡ Memory) }
{
    match frame {
        Frame::Token(token) => send_token(sends, to, token),
        _ => send_clone(sends, to, frame),
    }
}

/// Appends a copy of a frame of any kind, unless it has no receiver.
#[inline(never)]
fn send_clone<A: Allocator + Copy>(
    sends: &mut Vec<OutgoingFrame<A>, A>,
    to: ProcSet,
    frame: &Frame<A>,
) -> Result<(), Fault>
    ensures ok { OnOk result (sends.new.items ≡ sends.old.items ++ sends_with_receivers (record { to = to; frame = frame.now } ∷ [])) }
    ensures refused { IfErr result (λ fault. fault ≡ Memory) }
{
    let copy = frame.clone()?;
    push_frame(sends, to, copy)
}

/// Appends a copy of a token, unless it has no receiver.
fn send_token<A: Allocator + Copy>(
    sends: &mut Vec<OutgoingFrame<A>, A>,
    to: ProcSet,
    token: &Token,
) -> Result<(), Fault>
    ensures ok { OnOk result (sends.new.items ≡ sends.old.items ++ sends_with_receivers (record { to = to; frame = TokenFrame token.now } ∷ [])) }
    ensures refused { IfErr result (λ fault. fault ≡ Memory) }
{
    if !to.is_empty() {
        push_token_copy(sends, to, token)?;
    }
    Ok(())
}

/// Appends a copy of a token. A token without requests is built in place, so its array of requests isn't moved.
fn push_token_copy<A: Allocator + Copy>(
    sends: &mut Vec<OutgoingFrame<A>, A>,
    to: ProcSet,
    token: &Token,
) -> Result<(), Fault>
    ensures ok { OnOk result (sends.new.items ≡ sends.old.items ++ record { to = to; frame = TokenFrame token.now } ∷ []) }
    ensures refused { IfErr result (λ fault. fault ≡ Memory) }
{
    if !token.requests.as_slice().is_empty() {
        return push_token_with_requests(sends, to, token);
    }
    sends.reserve(1)?;
    sends.push_reserved(OutgoingFrame {
        to,
        frame: Frame::Token(Token {
            ring: token.ring,
            number: token.number,
            seq: token.seq,
            aru: token.aru,
            aru_id: token.aru_id,
            requests: Requests::new(),
        }),
    });
    Ok(())
}

/// Does the same for a token that may have requests.
#[inline(never)]
fn push_token_with_requests<A: Allocator + Copy>(
    sends: &mut Vec<OutgoingFrame<A>, A>,
    to: ProcSet,
    token: &Token,
) -> Result<(), Fault>
    ensures ok { OnOk result (sends.new.items ≡ sends.old.items ++ record { to = to; frame = TokenFrame token.now } ∷ []) }
    ensures refused { IfErr result (λ fault. fault ≡ Memory) }
{
    sends.reserve(1)?;
    sends.push_reserved(OutgoingFrame {
        to,
        frame: Frame::Token(copied_token(token)),
    });
    Ok(())
}

/// Returns a copy of the token, its requests included. Does not allocate.
pub(crate) fn copied_token(token: &Token) -> Token
    ensures { result ≡ token.now }
{
    Token {
        ring: token.ring,
        number: token.number,
        seq: token.seq,
        aru: token.aru,
        aru_id: token.aru_id,
        requests: token.requests.copy_of_requests(),
    }
}

/// Appends a frame with a copy of `message`, addressed to `to`, to `sends`, unless `to` is empty.
///
/// Errors: `Memory` if an allocation fails; the contents of `sends` are then unspecified.
///
/// Rules: Token and window 12
pub fn send_message<A: Allocator + Copy>(
    sends: &mut Vec<OutgoingFrame<A>, A>,
    to: ProcSet,
    message: &Message<A>,
) -> Result<(), Fault>
    ensures ok { OnOk result (sends.new.items ≡ sends.old.items ++ sends_with_receivers (record { to = to; frame = MessageFrame message.now } ∷ [])) }
    ensures refused { IfErr result (λ fault. fault ≡ Memory) }
{
    if to.is_empty() {
        return Ok(());
    }
    let copy = message.clone()?;
    push_frame(sends, to, Frame::Message(copy))
}
