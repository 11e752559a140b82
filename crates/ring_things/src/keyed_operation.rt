//! Operations made of a code, a key and an optional value, for user-defined objects.

ghost use Rattle.std.specs.Prelude.{◌≡◌, ◌∷◌, Some};
ghost use Rattle.byteorder.specs.Endian.{big_bytes};
ghost use Rattle.ring_things.specs.KeyedOperation.{encoding, decoding};

use crate::operations::Operation;
use byteorder::{BigEndian, ByteOrder};

/// An operation of a user-defined object, decoded: a code, a key, and an optional value.
///
/// Its bytes are the code, the key, and the value in 8 bytes, big-endian, so it has 2 or 10 bytes.
#[derive(Clone, Copy, Debug, PartialEq, Eq)]
pub struct KeyedOperation {
    /// The code of the operation, 0 to 255.
    ///
    /// The object defines what it means.
    pub code: u8,
    /// The key to which the operation applies, 0 to 255.
    pub key: u8,
    /// The value, or `None` for an operation of two bytes.
    pub value: Option<u64>,
}

impl KeyedOperation {
    /// Decodes an operation: a code and a key, followed by a value of 8 bytes or by nothing.
    ///
    /// Every code and every key is accepted. Returns `None` for any other number of bytes.
    pub fn read(op: &[u8]) -> Option<KeyedOperation>
        ensures { result ≡ decoding op.now }
    {
        let [code, key, rest @ ..] = op else {
            return None;
        };
        let value = match rest.len() {
            0 => None,
            8 => Some(BigEndian::read_u64(rest)),
            _ => return None,
        };
        Some(KeyedOperation {
            code: *code,
            key: *key,
            value,
        })
    }

    /// Returns the bytes of the operation, 2 without a value and 10 with one.
    ///
    /// [`read`](KeyedOperation::read) decodes them.
    pub fn encode(self) -> Operation
        ensures bytes { result ≡ encoding self }
        ensures read { decoding result ≡ Some self }
    {
        let KeyedOperation { code, key, value } = self;
        match value {
            Some(value) => key_value_bytes(code, key, value),
            None => Operation::from_slice(&[code, key]),
        }
    }
}

/// Returns the bytes of an operation with a value.
#[tactic(auto, using(crate::proofs::KeyedRead::valued_read))]
fn key_value_bytes(code: u8, key: u8, value: u64) -> Operation
    ensures bytes { result ≡ code ∷ key ∷ big_bytes 8 value }
    ensures read { decoding result ≡ Some (record { code = code; key = key; value = Some value }) }
{
    let mut bytes = [code; 10];
    bytes[1] = key;
    BigEndian::write_u64(&mut bytes[2..], value);
    Operation::from_slice(&bytes)
}
