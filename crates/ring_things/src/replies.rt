//! The replies of the objects: an outcome in one byte, followed by a value of 8 bytes or by nothing.
//!
//! Formats: Operations and replies

ghost use Rattle.std.specs.Prelude.{◌≡◌, [], ◌∷◌, Some, IfSome};
ghost use Rattle.byteorder.specs.Endian.{big_bytes};
ghost use Rattle.ring_things.specs.Outcome.{code_of, outcome_of, encoding, decoding, ValueFits};
ghost use Rattle.ring_things.specs.declared.replies.ReplyParts.{ReplyParts as OneReplied};

use byteorder::{BigEndian, ByteOrder};
use ring_object::Reply;

/// The outcome of an operation, which is the first byte of the reply.
///
/// The discriminant is that byte.
///
/// Formats: Operations and replies
#[derive(Clone, Copy, Debug, PartialEq, Eq)]
pub enum Outcome {
    /// The operation was done.
    ///
    /// The reply also has a value if the operation returns one.
    Done = 0,
    /// The content of the object didn't allow the operation.
    ///
    /// Nothing changed.
    NotDone = 1,
    /// The object is full.
    ///
    /// Nothing changed.
    Full = 2,
    /// The bytes aren't an operation of the object.
    ///
    /// Nothing changed.
    Unreadable = 255,
}

impl Outcome {
    /// Decodes the byte of an outcome.
    ///
    /// Returns `None` for other bytes.
    fn outcome_from_code(code: u8) -> Option<Outcome>
        ensures { result ≡ outcome_of code }
    {
        match code {
            0 => Some(Outcome::Done),
            1 => Some(Outcome::NotDone),
            2 => Some(Outcome::Full),
            255 => Some(Outcome::Unreadable),
            _ => None,
        }
    }
}

/// A decoded reply: the outcome of the operation, and a value if the reply has one.
///
/// Formats: Operations and replies
#[derive(Clone, Copy, Debug, PartialEq, Eq)]
pub struct ReplyParts {
    /// The outcome of the operation, which is the first byte of the reply.
    pub outcome: Outcome,
    /// The value in the reply, or `None` for a reply of one byte.
    pub value: Option<u64>,
}

impl ReplyParts {
    /// Decodes a reply: the byte of an outcome, followed by a value of 8 bytes, big-endian, or by nothing.
    ///
    /// Returns `None` for all other bytes.
    ///
    /// Formats: Operations and replies
    pub fn read(reply: &[u8]) -> Option<ReplyParts>
        ensures value { result ≡ decoding reply.now }
        ensures found { IfSome result (λ replied. encoding replied ≡ reply.now) }
        ensures only { (replied : OneReplied) → ValueFits replied.value → encoding replied ≡ reply.now → result ≡ Some replied }
    {
        decode_reply(reply)
    }
}

/// Decodes a reply, as [`ReplyParts::read`] does.
fn decode_reply(bytes: &[u8]) -> Option<ReplyParts>
    ensures { result ≡ decoding bytes.now }
{
    let [code, rest @ ..] = bytes else {
        return None;
    };
    let outcome = Outcome::outcome_from_code(*code)?;
    let value = match rest.len() {
        0 => None,
        8 => Some(BigEndian::read_u64(rest)),
        _ => return None,
    };
    Some(ReplyParts { outcome, value })
}

/// Returns the reply of one byte, which encodes `outcome`.
///
/// Formats: Operations and replies
pub fn outcome_reply(outcome: Outcome) -> Reply
    ensures { result ≡ code_of outcome ∷ [] }
{
    Reply::from_slice(&[outcome as u8])
}

/// Returns the reply of nine bytes: the byte of `outcome`, then `value` in 8 bytes, big-endian.
///
/// Formats: Operations and replies
pub fn outcome_reply_with(outcome: Outcome, value: u64) -> Reply
    ensures { result ≡ code_of outcome ∷ big_bytes 8 value }
{
    let mut bytes = [outcome as u8; 9];
    BigEndian::write_u64(&mut bytes[1..], value);
    Reply::from_slice(&bytes)
}
