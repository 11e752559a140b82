//! The operations of the objects, as byte strings stored inline.
//!
//! Formats: Operations and replies

ghost use Rattle.std.specs.Prelude.{◌≡◌, ◌<◌, [], ◌∷◌, length};
ghost use Rattle.byteorder.specs.Endian.{big_bytes};

use byteorder::{BigEndian, ByteOrder};
use ring_object::ShortBytes;

/// An operation of an object that isn't on a shelf, for the object's [`apply`](ring_object::Object::apply).
///
/// It has 1 to 65 bytes.
///
/// Formats: Operations and replies
pub type Operation = ShortBytes<65>;

/// An operation of an object on a shelf, for the shelf's [`apply`](ring_object::Object::apply).
///
/// It has 2 to 66 bytes. The first byte is the object's number, 0 to 3.
///
/// Formats: Operations and replies
pub type ShelfOperation = ShortBytes<66>;

/// Returns the operation of two bytes: the code and the key.
///
/// Formats: Operations and replies
pub fn key_operation(code: u8, key: u8) -> Operation
    ensures { result ≡ code ∷ key ∷ [] }
{
    Operation::from_slice(&[code, key])
}

/// Returns the operation of ten bytes: the code, the key, and the value in 8 bytes, big-endian.
///
/// Formats: Operations and replies
pub fn key_value_operation(code: u8, key: u8, value: u64) -> Operation
    ensures { result ≡ code ∷ key ∷ big_bytes 8 value }
{
    let mut bytes = [code; 10];
    bytes[1] = key;
    BigEndian::write_u64(&mut bytes[2..], value);
    Operation::from_slice(&bytes)
}

/// Returns the byte `head` followed by the bytes `text`, which must be fewer than `N`.
pub fn prefixed_bytes<const N: usize>(head: u8, text: &[u8]) -> ShortBytes<N>
    requires { length text.now < N }
    ensures { result ≡ head ∷ text.now }
{
    let mut bytes = [head; N];
    let bytes_to_fill = &mut bytes[..];
    bytes_to_fill[1..=text.len()].copy_from_slice(text);
    ShortBytes::from_slice(&bytes_to_fill[..=text.len()])
}
