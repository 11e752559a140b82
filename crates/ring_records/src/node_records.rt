//! Writing the records of a node's outputs other than frames.
//!
//! Rules: Nodes that records drive 3 and 4
//! Formats: Records

ghost use Rattle.std.specs.Prelude.{◌≡◌, ◌++◌, OnOk};
ghost use Rattle.std.specs.Io.KnownBytes.{Appends};
ghost use Rattle.ring_records.specs.NodeRecords.{answer_record, answers_text, committed_record, all_committed_text, ticket_record, refusal_record};
ghost use Rattle.ring_records.specs.NodeRecords.{restored_text, state_number, status_bytes, status_record, counts_record, members_record, end_record};

use crate::kinds;
use crate::membership::Membership;
use crate::timed_end::TimedEnd;
use crate::token_outcome::TokenOutcome;
use crate::writing::write_record;
use byteorder::{BigEndian, ByteOrder};
use ring_base::{Fault, RingId, State};
use ring_payload::Call;
use ring_session::{Answer, Ticket, TicketAnswer};
use std::alloc::Allocator;
use std::io::{self, Write};

/// Writes a record `D`, `K` or `R` for each answer, in order.
///
/// Each has the ticket in 8 bytes, then the reply (`D`, `K`) or the number of the fault (`R`), 4 to 7.
///
/// Errors: any error of `out`. How much has been written is then unspecified.
///
/// Rules: Nodes that records drive 3
/// Formats: Records
pub fn write_answers<A: Allocator + Copy + Drop, W: Write>(
    answers: &[TicketAnswer<A>],
    out: &mut W,
) -> io::Result<()>
    ensures { OnOk result (Appends (W.contents out.old) (W.contents out.new) (answers_text answers.now)) }
{
    for answered in answers {
        write_answer(answered.ticket, &answered.answer, out)?;
    }
    Ok(())
}

/// Writes the record of one answer.
fn write_answer<W: Write>(ticket: Ticket, answer: &Answer, out: &mut W) -> io::Result<()>
    ensures { OnOk result (Appends (W.contents out.old) (W.contents out.new) (answer_record ticket answer.now)) }
{
    let mut word = [0; 8];
    BigEndian::write_u64(&mut word, ticket.number());
    match answer {
        Answer::Done(reply) => write_record(out, kinds::DONE, &word, reply.as_slice()),
        Answer::Kept(reply) => write_record(out, kinds::KEPT, &word, reply.as_slice()),
        Answer::Refused(number) => write_record(out, kinds::NO_EFFECT, &word, &[*number]),
    }
}

/// Writes a record `C` for each newly committed call, in order.
///
/// Each has the client in 4 bytes, the number in 8, and the operation.
///
/// Errors: any error of `out`, and `InvalidInput` for an operation of more than 65,523 bytes. How much has been written
/// is then unspecified.
///
/// Rules: Nodes that records drive 3
/// Formats: Records
pub fn write_all_committed<A: Allocator + Copy + Drop, W: Write>(
    calls: &[Call<A>],
    out: &mut W,
) -> io::Result<()>
    ensures { OnOk result (Appends (W.contents out.old) (W.contents out.new) (all_committed_text calls.now)) }
{
    for call in calls {
        write_committed(call, out)?;
    }
    Ok(())
}

/// Writes the record of one newly committed call.
fn write_committed<A: Allocator + Copy + Drop, W: Write>(
    call: &Call<A>,
    out: &mut W,
) -> io::Result<()>
    ensures { OnOk result (Appends (W.contents out.old) (W.contents out.new) (committed_record call.now)) }
{
    let mut words = [0; 12];
    BigEndian::write_u32(&mut words[..4], call.client);
    BigEndian::write_u64(&mut words[4..], call.number);
    write_record(out, kinds::CALL, &words, call.op.as_slice())
}

/// Writes a record `G` if the step restored a snapshot: the number of places that the snapshot replaces, in 8 bytes.
///
/// Writes nothing if `restored` is `None`: the step restored nothing.
///
/// Errors: any error of `out`. How much has been written is then unspecified.
///
/// Rules: Nodes that records drive 3
/// Formats: Records
pub fn write_restored<W: Write>(restored: Option<u64>, out: &mut W) -> io::Result<()>
    ensures { OnOk result (Appends (W.contents out.old) (W.contents out.new) (restored_text restored)) }
{
    let Some(places) = restored else {
        return Ok(());
    };
    let mut word = [0; 8];
    BigEndian::write_u64(&mut word, places);
    write_record(out, kinds::RESTORED, &word, &[])
}

/// Writes a record `T` with the ticket of a submitted call, in 8 bytes.
///
/// Errors: any error of `out`. How much has been written is then unspecified.
///
/// Rules: Nodes that records drive 3
/// Formats: Records
pub fn write_ticket<W: Write>(ticket: Ticket, out: &mut W) -> io::Result<()>
    ensures { OnOk result (Appends (W.contents out.old) (W.contents out.new) (ticket_record ticket)) }
{
    let mut word = [0; 8];
    BigEndian::write_u64(&mut word, ticket.number());
    write_record(out, kinds::TICKET, &word, &[])
}

/// Writes a record `X` with the number, in 1 byte, of the fault with which an input was refused.
///
/// Errors: any error of `out`. How much has been written is then unspecified.
///
/// Rules: Nodes that records drive 4
/// Formats: Records
pub fn write_refusal<W: Write>(fault: Fault, out: &mut W) -> io::Result<()>
    ensures { OnOk result (Appends (W.contents out.old) (W.contents out.new) (refusal_record fault)) }
{
    write_record(out, kinds::REFUSED, &[fault.number()], &[])
}

/// Writes a record `Q` with a node's status: its state, its last installed ring, and the three lengths of its log.
///
/// `committed`, `log` and `trimmed` are the committed, the whole and the trimmed length, in places from the beginning
/// of the log: dropped places count. The ring's members, if given, are appended; nodes without a clock give `None`.
///
/// Errors: any error of `out`. How much has been written is then unspecified.
///
/// Rules: Nodes that records drive 3 and 7
/// Formats: Records
pub fn write_status_record<W: Write>(
    state: State,
    ring: RingId,
    committed: u64,
    log: u64,
    trimmed: u64,
    members: Option<Membership>,
    out: &mut W,
) -> io::Result<()>
    ensures { OnOk result (Appends (W.contents out.old) (W.contents out.new) (status_record state ring committed log trimmed members)) }
{
    let bytes = encode_status(state, ring, committed, log, trimmed);
    match members {
        Some(members) => write_record(out, kinds::STATUS, &bytes, &members.encode_membership()),
        None => write_record(out, kinds::STATUS, &bytes, &[]),
    }
}

/// Encodes a node's status, without the members of its ring.
fn encode_status(state: State, ring: RingId, committed: u64, log: u64, trimmed: u64) -> [u8; 34]
    ensures { result ≡ status_bytes state ring committed log trimmed }
{
    let mut bytes = [0; 34];
    bytes[0] = state_byte(state);
    BigEndian::write_u64(&mut bytes[1..9], ring.seq);
    bytes[9] = ring.rep.number();
    BigEndian::write_u64(&mut bytes[10..18], committed);
    BigEndian::write_u64(&mut bytes[18..26], log);
    BigEndian::write_u64(&mut bytes[26..34], trimmed);
    bytes
}

/// Writes a record `I` with the counts of a node, each as 8 bytes, big-endian.
///
/// `numbers` must be in the order of the format, as `NodeCounts::numbers` of `ring_counts` returns them; this isn't
/// checked.
///
/// Errors: any error of `out`. How much has been written is then unspecified.
///
/// Rules: Nodes that records drive 8
/// Formats: Records
pub fn write_counts<W: Write>(numbers: &[u64; 20], out: &mut W) -> io::Result<()>
    ensures { OnOk result (Appends (W.contents out.old) (W.contents out.new) (counts_record numbers.now)) }
{
    let mut bytes = [0; 160];
    BigEndian::write_u64_into(numbers, &mut bytes);
    write_record(out, kinds::COUNTS, &[], &bytes)
}

/// Writes a record `M` with an installed ring and its members.
///
/// Errors: any error of `out`. How much has been written is then unspecified.
///
/// Rules: Nodes that records drive 7
/// Formats: Records
pub fn write_members<W: Write>(ring: RingId, members: Membership, out: &mut W) -> io::Result<()>
    ensures { OnOk result (Appends (W.contents out.old) (W.contents out.new) (members_record ring members)) }
{
    let mut bytes = [ring.rep.number(); 9];
    BigEndian::write_u64(&mut bytes[..8], ring.seq);
    write_record(out, kinds::MEMBERS, &bytes, &members.encode_membership())
}

/// Writes a record `E`, the last one that an input produces: the node's state and the outcome of a token, in 1 byte
/// each.
///
/// `timed`, if given, is appended; nodes without a clock give `None`.
///
/// Errors: any error of `out`. How much has been written is then unspecified.
///
/// Rules: Nodes that records drive 3 and 7
/// Formats: Records
pub fn write_end<W: Write>(
    state: State,
    token: TokenOutcome,
    timed: Option<TimedEnd>,
    out: &mut W,
) -> io::Result<()>
    ensures { OnOk result (Appends (W.contents out.old) (W.contents out.new) (end_record state token timed)) }
{
    let bytes = [state_byte(state), token.outcome_byte()];
    match timed {
        Some(timed) => write_record(out, kinds::END, &bytes, &timed.encode_timed_end()),
        None => write_record(out, kinds::END, &bytes, &[]),
    }
}

fn state_byte(state: State) -> u8
    ensures { result ≡ state_number state }
{
    match state {
        State::Gather => 0,
        State::Commit => 1,
        State::Recovery => 2,
        State::Operational => 3,
        State::Stopped => 4,
    }
}
