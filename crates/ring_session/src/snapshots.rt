//! The bytes of a session table's snapshot.
//!
//! Rules: Sessions 12
//! Formats: Snapshots

ghost use Rattle.std.specs.Prelude.{◌≡◌, suc, ◌^◌, ◌<◌, ◌≤◌, ◌++◌, length, take, Some, IsSome, IfSome, OnOk, OnErr, IfOk, IfErr, vec_len};
ghost use Rattle.std.specs.List.{flat_map};
ghost use Rattle.std.specs.Option.{option_map};
ghost use Rattle.ring_base.specs.declared.fault.Fault.TheVariants.{Memory};
ghost use Rattle.byteorder.specs.Endian.{big_bytes};
ghost use Rattle.ring_payload.specs.Codecs.{number_at, raw_bytes_at, ◌⊕◌};
ghost use Rattle.ring_payload.specs.Operations.{op_at};
ghost use Rattle.ring_session.specs.Deduplicated.{max_clients};
ghost use Rattle.ring_session.specs.Snapshots.{client_encoding, reply_at, next_client_at, clients_at, clients_in, AreSplitParts};

use crate::MAX_CLIENTS;
use crate::last_call_bytes::append_last_call;
use byteorder::{BigEndian, ByteOrder};
use ring_base::Fault;
use ring_object::MAX_REPLY;
use ring_payload::MAX_OPERATION;
use ring_session_entry::LastCall;
use std::alloc::Allocator;
use std::collections::BTreeMap;
use std::marker::Model;

// ---- writing

/// Appends the lowest `width` bytes of `number` to `out`, big-endian.
///
/// `width` must be at most 8.
///
/// Errors: `Memory` if an allocation fails; the bytes of `out` are then unchanged.
///
/// Formats: Numbers and parts
pub fn append_number<A: Allocator + Copy>(
    out: &mut Vec<u8, A>,
    number: u64,
    width: usize,
) -> Result<(), Fault>
    requires { width ≤ 8 }
    ensures ok { OnOk result (out.new.items ≡ out.old.items ++ big_bytes width number) }
    ensures err { OnErr result (out.new.items ≡ out.old.items) }
    ensures refused { IfErr result (λ fault. fault ≡ Memory) }
{
    let mut word = [0; 8];
    BigEndian::write_u64(&mut word, number);
    out.extend_from_slice(&word[8 - width..])?;
    Ok(())
}

/// Appends the number of clients to `out`, in 2 bytes, then the clients, ascending, each with its last call.
///
/// Errors: `Memory` if an allocation fails; a prefix of the encoding may then have been appended to `out`.
///
/// Rules: Sessions 12
/// Formats: Snapshots
pub fn append_clients<A: Allocator + Copy>(
    out: &mut Vec<u8, A>,
    sessions: &BTreeMap<u32, LastCall<A>, A>,
) -> Result<(), Fault>
    ensures ok { OnOk result (out.new.items
        ≡ out.old.items ++ big_bytes 2 (length sessions.now.entries) ⊕ flat_map client_encoding sessions.now.entries) }
    ensures front { take (vec_len out.old) out.new.items ≡ out.old.items }
    ensures refused { IfErr result (λ fault. fault ≡ Memory) }
{
    append_number(out, sessions.len() as u64, 2)?;
    for (client, last) in sessions.iter() {
        append_number(out, u64::from(*client), 4)?;
        append_last_call(last, out)?;
    }
    Ok(())
}

// ---- reading

/// Splits off a big-endian number of `width` bytes, which must be 1 to 8.
///
/// Returns `None` if there are fewer bytes.
fn first_number(width: usize, bytes: &[u8]) -> Option<(u64, &[u8])>
    requires low { 1 ≤ width }
    requires high { width ≤ 8 }
    ensures value { option_map (λ p. (p.0, p.1.now)) result ≡ number_at width bytes.now }
    ensures in_range { IfSome result (λ p. p.0 < 256 ^ width) }
{
    if bytes.len() < width {
        return None;
    }
    Some((BigEndian::read_uint(bytes, width), &bytes[width..]))
}

/// Splits off the first `len` bytes.
///
/// Returns `None` if there are fewer.
fn split_off_bytes(len: u64, bytes: &[u8]) -> Option<(&[u8], &[u8])>
    ensures { option_map (λ p. (p.0.now, p.1.now)) result ≡ raw_bytes_at len bytes.now }
{
    if (bytes.len() as u64) < len {
        return None;
    }
    Some(bytes.split_at(len as usize))
}

/// Splits off an operation preceded by its length in 2 bytes.
///
/// Returns `None` if there is none of at most 1,024 bytes.
#[tactic(auto, unfolding(ring_payload::specs::Operations::op_at))]
fn first_operation(bytes: &[u8]) -> Option<(&[u8], &[u8])>
    ensures { option_map (λ p. (p.0.now, p.1.now)) result ≡ op_at bytes.now }
{
    let (len, rest) = first_number(2, bytes)?;
    if len > MAX_OPERATION as u64 {
        return None;
    }
    split_off_bytes(len, rest)
}

/// Splits off a reply preceded by its length in one byte.
///
/// Returns `None` if there is none of at most 64 bytes.
#[tactic(auto, unfolding(crate::specs::Snapshots::reply_at))]
fn first_reply(bytes: &[u8]) -> Option<(&[u8], &[u8])>
    ensures { option_map (λ p. (p.0.now, p.1.now)) result ≡ reply_at bytes.now }
{
    let [len, rest @ ..] = bytes else {
        return None;
    };
    if *len as usize > MAX_REPLY {
        return None;
    }
    split_off_bytes(u64::from(*len), rest)
}

/// A client and its last call, borrowed from the bytes of a snapshot.
///
/// Formats: Snapshots
#[derive(Drop)]
pub struct ClientFields<'a> {
    client: u32,
    number: u64,
    operation: &'a [u8],
    reply: &'a [u8],
}

impl<'a> Model for ClientFields<'a> {
    ghost use Rattle.std.specs.Prelude.{ℕ, ◌≤◌, length};
    ghost use Rattle.ring_session.specs.Table.{LastCall};

    ghost Value = { ℕ × LastCall };

    ghost view = { λ t. (t.client, record { number = t.number; operation = t.operation.now; reply = t.reply.now }) };

    ghost invariant = { λ t. length t.reply.now ≤ 64 };
}

impl<'a> ClientFields<'a> {
    /// Returns the client's number.
    fn client(&self) -> u32
        ensures { result ≡ self.now.0 }
    {
        self.client
    }

    /// Returns the smallest number that the next client may have.
    fn next_client_low(&self) -> u64
        ensures { result ≡ suc self.now.0 }
    {
        u64::from(self.client) + 1
    }

    /// Returns a copy of the client's last call.
    ///
    /// Errors: `Memory` if an allocation fails.
    fn last_call<A: Allocator + Copy>(&self, alloc: A) -> Result<LastCall<A>, Fault>
        ensures ok { IfOk result (λ last. last ≡ self.now.1) }
        ensures refused { IfErr result (λ fault. fault ≡ Memory) }
    {
        LastCall::from_parts(alloc, self.number, self.operation, self.reply)
    }
}

/// Splits off the first client.
///
/// Returns `None` if there is none, or its number is below `low`.
fn split_off_client(low: u64, bytes: &[u8]) -> Option<(ClientFields<'_>, &[u8])>
    ensures { option_map (λ p. (p.0, p.1.now)) result ≡ next_client_at low bytes.now }
{
    let (client, rest) = first_number(4, bytes)?;
    let (number, rest) = first_number(8, rest)?;
    if number < 1 {
        return None;
    }
    let (operation, rest) = first_operation(rest)?;
    let (reply, rest) = first_reply(rest)?;
    if client < low {
        return None;
    }
    let client_entry = ClientFields {
        client: client as u32,
        number,
        operation,
        reply,
    };
    Some((client_entry, rest))
}

/// Returns the bytes after `count` ascending clients, or `None` if the bytes don't begin with such clients.
fn bytes_after_clients(count: u64, bytes: &[u8]) -> Option<&[u8]>
    ensures { option_map (λ rest. rest.now) result ≡ option_map (λ x. x.1) (clients_at count 0 bytes.now) }
{
    let mut rest = bytes;
    let mut low = 0;
    for _i in 0..count {
        let Some((client_entry, rest_after_client)) = split_off_client(low, rest) else {
            return None;
        };
        low = client_entry.next_client_low();
        rest = rest_after_client;
    }
    Some(rest)
}

/// Splits a snapshot of the sessions into its three parts.
///
/// They are the number of clients, 0 to 1,024, the bytes from the first client on, and the object's snapshot, which
/// isn't checked. Returns `None` if the bytes don't consist of exactly these parts.
///
/// Rules: Sessions 12
/// Formats: Snapshots
pub fn split_sessions_snapshot(bytes: &[u8]) -> Option<(u64, &[u8], &[u8])>
    ensures { AreSplitParts bytes.now (option_map (λ p. (p.0, p.1.now, p.2.now)) result) }
{
    let (count, clients) = first_number(2, bytes)?;
    if count > MAX_CLIENTS as u64 {
        return None;
    }
    let rest = bytes_after_clients(count, clients)?;
    let (len, rest) = first_number(8, rest)?;
    let (object, rest) = split_off_bytes(len, rest)?;
    if !rest.is_empty() {
        return None;
    }
    Some((count, clients, object))
}

/// Decodes `count` clients with their last calls from the front of `bytes`.
///
/// `bytes` must begin with the encodings of `count` ascending clients.
///
/// Errors: `Memory` if an allocation fails.
///
/// Rules: Sessions 12
/// Formats: Snapshots
pub fn read_clients<A: Allocator + Copy>(
    alloc: A,
    count: u64,
    bytes: &[u8],
) -> Result<BTreeMap<u32, LastCall<A>, A>, Fault>
    requires { IsSome (clients_in count bytes.now) }
    ensures ok { IfOk result (λ sessions. clients_in count bytes.now ≡ Some sessions.entries) }
    ensures refused { IfErr result (λ fault. fault ≡ Memory) }
{
    let mut sessions = BTreeMap::new(alloc);
    let mut rest = bytes;
    let mut low = 0;
    for _i in 0..count {
        let (client_entry, rest_after_client) = split_off_client(low, rest).unwrap();
        let last = client_entry.last_call(alloc)?;
        sessions.insert(client_entry.client(), last)?;
        low = client_entry.next_client_low();
        rest = rest_after_client;
    }
    Ok(sessions)
}
