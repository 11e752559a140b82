//! A set of names, with the operations insert, remove and has.
//!
//! Rules: Objects 2 to 5
//! Formats: Operations and replies, Snapshots

ghost use Rattle.std.specs.Prelude.{◌≡◌, ◌<◌, ◌≤◌, true, suc, [], ◌∷◌, ◌++◌, length, take, drop, All, vec_len};
ghost use Rattle.std.specs.Prelude.{Some, is_some, IfSome, IfOk, IfErr, OnOk, OnErr};
ghost use Rattle.std.specs.Ordering.{is_lt};
ghost use Rattle.ring_things.specs.Names.{max_names, decoding, encoding, by_bytes, AreAscending, IsName, IsFound, IsMissing};
ghost use Rattle.ring_things.specs.Names.{next_name as name_at, names_of, snapshot_of};
ghost use Rattle.ring_things.specs.NamesLaws.{Fits};

use crate::operations::{Operation, prefixed_bytes};
use crate::replies::{Outcome, outcome_reply};
use byteorder::{BigEndian, ByteOrder};
use ring_base::Fault;
use ring_object::{Object, Reply, ShortBytes};
use std::alloc::{Allocator, Global};
use std::marker::Model;

/// The maximum number of names in a set.
const MAX_NAMES: usize = 1024;

/// The maximum length of a name in bytes.
const MAX_NAME_LENGTH: usize = 64;

/// A name, 1 to 64 bytes.
type Name = ShortBytes<MAX_NAME_LENGTH>;

/// A set of at most 1,024 names of 1 to 64 bytes, empty at the start.
///
/// A name is found in logarithmic time.
///
/// | Operation | Bytes | Reply |
/// |---|---|---|
/// | insert | `01` name | `00`, and the name is added; `01` if it is present; `02` if it is absent and the set full |
/// | remove | `02` name | `00`, and the name is removed; `01` if it is absent |
/// | has | `03` name | `00` if the name is present, `01` if it is absent |
///
/// The snapshot is the number of names in 2 bytes, big-endian, then the names, ascending by their bytes, each preceded
/// by its length in one byte.
///
/// Rules: Objects 5
/// Formats: Operations and replies, Snapshots
#[derive(Drop)]
pub struct Names<A: Allocator + Copy = Global> {
    names: Vec<Name, A>,
}

impl<A: Allocator + Copy> Model for Names<A> {
    ghost use Rattle.std.specs.Prelude.{ℕ, List};
    ghost use Rattle.ring_things.specs.Names.{IsSet};

    ghost Value = { List (List ℕ) };

    ghost view = { λ set. set.names.items };

    ghost invariant = { λ set. IsSet set.names.items };
}

impl<A: Allocator + Copy + Drop> Object for Names<A> {
    ghost use Rattle.std.specs.Prelude.{[]};
    ghost use Rattle.ring_things.specs.Names.{IsSet, is_readable, reply, next, snapshot_of, set_of};
    ghost use Rattle.ring_things.specs.NamesLaws.{empty_IsSet, next_kept, replies_fit, ignored, sets_restore};

    type Alloc = A;

    ghost is_content = { IsSet };

    ghost is_readable = { is_readable };

    ghost sequential = { record { initial = []; reply = reply; next = next; snapshot_of = snapshot_of; restored = set_of } };

    ghost starts = { empty_IsSet };

    ghost keeps = { next_kept };

    ghost replies = { replies_fit };

    ghost ignores = { ignored };

    ghost restores = { sets_restore };

    fn start(alloc: A) -> Result<Names<A>, Fault> {
        Ok(Names {
            names: Vec::new(alloc),
        })
    }

    fn apply(&mut self, op: &[u8]) -> Result<Reply, Fault> {
        let Some(operation) = NamesOperation::decode_names_operation(op) else {
            return Ok(outcome_reply(Outcome::Unreadable));
        };
        match operation {
            NamesOperation::Insert(name) => self.insert_name(name),
            NamesOperation::Remove(name) => Ok(self.remove_name(&name)),
            NamesOperation::Has(name) => Ok(self.membership_reply(&name)),
        }
    }

    fn snapshot(&self, out: &mut Vec<u8, A>) -> Result<(), Fault> {
        let len = out.len();
        if let Err(fault) = append_names(out, self.names.as_slice()) {
            out.truncate(len);
            return Err(fault);
        }
        Ok(())
    }

    fn restore(alloc: A, bytes: &[u8]) -> Result<Names<A>, Fault> {
        if bytes.len() < 2 {
            return Err(Fault::BadSnapshot);
        }
        let count = BigEndian::read_u16(bytes) as usize;
        let rest = &bytes[2..];
        if count > MAX_NAMES || !are_encoded_names(count, rest) {
            return Err(Fault::BadSnapshot);
        }
        let names = decode_names(alloc, count, rest)?;
        Ok(Names { names })
    }
}

impl<A: Allocator + Copy + Drop> Names<A> {
    ghost use Rattle.ring_things.specs.Names.{reply_to, after};
    ghost use Rattle.ring_things.specs.declared.names.NamesOperation.TheVariants.{Insert, Remove, Has};

    /// Adds the name to the set, unless it is there already or the set is full, and returns the reply.
    ///
    /// Errors: `Memory` if an allocation fails; the set is then unchanged.
    fn insert_name(&mut self, name: Name) -> Result<Reply, Fault>
        requires { IsName name }
        ensures reply { IfOk result (λ r. r ≡ reply_to self.old (Some (Insert name))) }
        ensures ok { OnOk result (self.new ≡ after self.old (Some (Insert name))) }
        ensures err { OnErr result (self.new ≡ self.old) }
        ensures refused { IfErr result (λ fault. fault ≡ Fault.Memory) }
    {
        match index_of_name(self.names.as_slice(), &name) {
            Ok(_) => Ok(outcome_reply(Outcome::NotDone)),
            Err(place) => {
                if self.names.len() == MAX_NAMES {
                    return Ok(outcome_reply(Outcome::Full));
                }
                self.names.insert(place, name)?;
                Ok(outcome_reply(Outcome::Done))
            }
        }
    }

    /// Removes the name from the set if it is there, and returns the reply.
    fn remove_name(&mut self, name: &Name) -> Reply
        ensures reply { result ≡ reply_to self.old (Some (Remove name.now)) }
        ensures after { self.new ≡ after self.old (Some (Remove name.now)) }
    {
        match index_of_name(self.names.as_slice(), name) {
            Ok(place) => {
                self.names.remove(place);
                outcome_reply(Outcome::Done)
            }
            Err(_) => outcome_reply(Outcome::NotDone),
        }
    }

    /// Returns the reply that says whether the name is in the set.
    fn membership_reply(&self, name: &Name) -> Reply
        ensures { result ≡ reply_to self.now (Some (Has name.now)) }
    {
        match index_of_name(self.names.as_slice(), name) {
            Ok(_) => outcome_reply(Outcome::Done),
            Err(_) => outcome_reply(Outcome::NotDone),
        }
    }
}

/// The operations of a set of names, as bytes.
///
/// A name has 1 to 64 bytes.
///
/// Formats: Operations and replies
impl Names {
    ghost use Rattle.ring_things.specs.declared.names.NamesOperation.TheVariants.{Insert, Remove, Has};

    /// Returns the operation that adds `name` to the set: `01` and the name.
    ///
    /// `name` must not be empty.
    ///
    /// Errors: `OpTooLong` if `name` has more than 64 bytes.
    ///
    /// Formats: Operations and replies
    #[tactic(auto, using(crate::proofs::OperationsRead::named_read))]
    pub fn insert(name: &[u8]) -> Result<Operation, Fault>
        requires { 1 ≤ length name.now }
        ensures bytes { IfOk result (λ op. op ≡ encoding (Insert name.now)) }
        ensures read { IfOk result (λ op. decoding op ≡ Some (Insert name.now)) }
        ensures short { OnOk result (length name.now ≤ 64) }
        ensures long { IfErr result (λ fault. (64 < length name.now) × (fault ≡ Fault.OpTooLong)) }
    {
        name_operation_bytes(1, name)
    }

    /// Returns the operation that removes `name` from the set: `02` and the name.
    ///
    /// `name` must not be empty.
    ///
    /// Errors: `OpTooLong` if `name` has more than 64 bytes.
    ///
    /// Formats: Operations and replies
    #[tactic(auto, using(crate::proofs::OperationsRead::named_read))]
    pub fn remove(name: &[u8]) -> Result<Operation, Fault>
        requires { 1 ≤ length name.now }
        ensures bytes { IfOk result (λ op. op ≡ encoding (Remove name.now)) }
        ensures read { IfOk result (λ op. decoding op ≡ Some (Remove name.now)) }
        ensures short { OnOk result (length name.now ≤ 64) }
        ensures long { IfErr result (λ fault. (64 < length name.now) × (fault ≡ Fault.OpTooLong)) }
    {
        name_operation_bytes(2, name)
    }

    /// Returns the operation that asks whether `name` is in the set: `03` and the name.
    ///
    /// `name` must not be empty.
    ///
    /// Errors: `OpTooLong` if `name` has more than 64 bytes.
    ///
    /// Formats: Operations and replies
    #[tactic(auto, using(crate::proofs::OperationsRead::named_read))]
    pub fn has(name: &[u8]) -> Result<Operation, Fault>
        requires { 1 ≤ length name.now }
        ensures bytes { IfOk result (λ op. op ≡ encoding (Has name.now)) }
        ensures read { IfOk result (λ op. decoding op ≡ Some (Has name.now)) }
        ensures short { OnOk result (length name.now ≤ 64) }
        ensures long { IfErr result (λ fault. (64 < length name.now) × (fault ≡ Fault.OpTooLong)) }
    {
        name_operation_bytes(3, name)
    }
}

/// Returns the operation that has a code and a name.
///
/// Errors: `OpTooLong` if `name` has more than 64 bytes.
fn name_operation_bytes(code: u8, name: &[u8]) -> Result<Operation, Fault>
    ensures bytes { IfOk result (λ op. op ≡ code ∷ name.now) }
    ensures short { OnOk result (length name.now ≤ 64) }
    ensures long { IfErr result (λ fault. (64 < length name.now) × (fault ≡ Fault.OpTooLong)) }
{
    if name.len() > MAX_NAME_LENGTH {
        return Err(Fault::OpTooLong);
    }
    Ok(prefixed_bytes(code, name))
}

/// An operation of a set of names, decoded.
enum NamesOperation {
    Insert(Name),
    Remove(Name),
    Has(Name),
}

impl NamesOperation {
    /// Decodes an operation of a set of names, or returns `None` for bytes that aren't one.
    fn decode_names_operation(op: &[u8]) -> Option<NamesOperation>
        ensures value { result ≡ decoding op.now }
        ensures fits { Fits result }
    {
        let [code, name @ ..] = op else {
            return None;
        };
        if name.is_empty() || name.len() > MAX_NAME_LENGTH {
            return None;
        }
        let name = Name::from_slice(name);
        match *code {
            1 => Some(NamesOperation::Insert(name)),
            2 => Some(NamesOperation::Remove(name)),
            3 => Some(NamesOperation::Has(name)),
            _ => None,
        }
    }
}

/// Returns the index of `name` among ascending names, counted from 0.
///
/// If it is absent, returns as `Err` the index at which to insert it.
fn index_of_name(names: &[Name], name: &Name) -> Result<usize, usize>
    requires { AreAscending names.now }
    ensures found { IfOk result (IsFound name.now names.now) }
    ensures missing { IfErr result (IsMissing name.now names.now) }
{
    names.binary_search_by(|other| other.as_slice().cmp(name.as_slice()))
}

/// Returns whether `name` is below `other`: at the first byte that differs, or as its proper prefix.
fn is_name_below(name: &Name, other: &Name) -> bool
    ensures { result ≡ is_lt (by_bytes name.now other.now) }
{
    name.as_slice().cmp(other.as_slice()).is_lt()
}

/// Decodes the name at the start of `bytes`.
///
/// Returns `None` if there is none, or if it isn't above `last`.
fn next_name(last: &Name, bytes: &[u8]) -> Option<Name>
    ensures value { result ≡ name_at last.now bytes.now }
    ensures within { IfSome result (λ name. length name < length bytes.now) }
{
    let [len, rest @ ..] = bytes else {
        return None;
    };
    let len = *len as usize;
    if len < 1 || len > MAX_NAME_LENGTH || len > rest.len() {
        return None;
    }
    let name = Name::from_slice(&rest[..len]);
    if !is_name_below(last, &name) {
        return None;
    }
    Some(name)
}

/// Returns the bytes after the encoding of `name`, with which `bytes` must begin.
fn bytes_after_name<'a>(name: &Name, bytes: &'a [u8]) -> &'a [u8]
    requires { length name.now < length bytes.now }
    ensures { result.now ≡ drop (suc (length name.now)) bytes.now }
{
    &bytes[name.len() + 1..]
}

/// Returns whether the bytes are exactly the encodings of `count` names, strictly ascending.
fn are_encoded_names(count: usize, bytes: &[u8]) -> bool
    ensures { result ≡ is_some (names_of count [] bytes.now) }
{
    let mut rest = bytes;
    let mut last = Name::from_slice(&[]);
    for _i in 0..count {
        let Some(name) = next_name(&last, rest) else {
            return false;
        };
        rest = bytes_after_name(&name, rest);
        last = name;
    }
    rest.is_empty()
}

/// Decodes `count` names.
///
/// The bytes must be exactly their encodings.
///
/// Errors: `Memory` if an allocation fails.
fn decode_names<A: Allocator + Copy + Drop>(
    alloc: A,
    count: usize,
    bytes: &[u8],
) -> Result<Vec<Name, A>, Fault>
    requires { is_some (names_of count [] bytes.now) ≡ true }
    ensures ok { IfOk result (λ names. names_of count [] bytes.now ≡ Some names.items) }
    ensures refused { IfErr result (λ fault. fault ≡ Fault.Memory) }
{
    let mut names = Vec::with_capacity(alloc, count)?;
    let mut rest = bytes;
    let mut last = Name::from_slice(&[]);
    for _i in 0..count {
        let name = next_name(&last, rest).unwrap();
        rest = bytes_after_name(&name, rest);
        last = name;
        names.push(name).unwrap();
    }
    Ok(names)
}

/// Appends the number of names to `out`, then the names, each preceded by its length.
///
/// Errors: `Memory` if an allocation fails; some of the bytes may then have been appended.
fn append_names<A: Allocator + Copy + Drop>(
    out: &mut Vec<u8, A>,
    names: &[Name],
) -> Result<(), Fault>
    requires few { length names.now ≤ max_names }
    requires fit { All IsName names.now }
    ensures ok { OnOk result (out.new.items ≡ out.old.items ++ snapshot_of names.now) }
    ensures front { take (vec_len out.old) out.new.items ≡ out.old.items }
    ensures refused { IfErr result (λ fault. fault ≡ Fault.Memory) }
{
    let mut head = [0; 2];
    BigEndian::write_u16(&mut head, names.len() as u16);
    out.extend_from_slice(&head)?;
    for name in names {
        out.push(name.len() as u8)?;
        out.extend_from_slice(name.as_slice())?;
    }
    Ok(())
}
