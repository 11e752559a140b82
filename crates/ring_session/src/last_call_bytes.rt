//! A client's last call: its bytes in a snapshot, and the answers to other calls of the client.
//!
//! Rules: Sessions 3 and 12
//! Formats: Snapshots

ghost use Rattle.std.specs.Prelude.{◌≡◌, ◌++◌, take, vec_len, IfErr, OnOk, Some};
ghost use Rattle.ring_base.specs.declared.fault.Fault.TheVariants.{Memory};
ghost use Rattle.ring_session.specs.Snapshots.{last_call_encoding};
ghost use Rattle.ring_session.specs.Table.{answer_unless_next};

use crate::answer::Answer;
use crate::snapshots::append_number;
use ring_base::Fault;
use ring_payload::Call;
use ring_session_entry::LastCall;
use std::alloc::Allocator;

/// Appends the last call of a client to `out`, as in a snapshot of the sessions: its number, its operation and the
/// reply.
///
/// To be read again, the operation must have at most 1,024 bytes.
///
/// Errors: `Memory` if an allocation fails; a prefix of the encoding may then have been appended to `out`.
///
/// Rules: Sessions 12
/// Formats: Snapshots
pub fn append_last_call<A: Allocator + Copy>(
    last: &LastCall<A>,
    out: &mut Vec<u8, A>,
) -> Result<(), Fault>
    ensures ok { OnOk result (out.new.items ≡ out.old.items ++ last_call_encoding last.now) }
    ensures front { take (vec_len out.old) out.new.items ≡ out.old.items }
    ensures refused { IfErr result (λ fault. fault ≡ Memory) }
{
    let (operation, reply) = (last.operation(), last.reply());
    append_number(out, last.number(), 8)?;
    append_number(out, operation.len() as u64, 2)?;
    out.extend_from_slice(operation)?;
    out.push(reply.len() as u8)?;
    out.extend_from_slice(reply.as_slice())?;
    Ok(())
}

/// Returns the answer to a call that isn't the next of its client, whose last call is `last`.
///
/// It is `Kept` if the call has the number and the operation of `last`. Otherwise it is `Refused`: with `Conflict` for
/// the same number, with `Stale` for a smaller one, and with `NumberGap` for a greater one.
///
/// Rules: Sessions 3
pub fn answer_unless_next<A: Allocator + Copy>(last: &LastCall<A>, call: &Call<A>) -> Answer
    ensures { result ≡ answer_unless_next (Some last.now) call.now }
{
    if call.number == last.number() {
        if last.operation() == call.op.as_slice() {
            Answer::Kept(last.reply())
        } else {
            Answer::refusal(Fault::Conflict)
        }
    } else if call.number < last.number() {
        Answer::refusal(Fault::Stale)
    } else {
        Answer::refusal(Fault::NumberGap)
    }
}
