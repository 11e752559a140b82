//! Lists of numbers of 8 bytes each, big-endian.

ghost use Rattle.std.specs.Prelude.{◌≡◌, ◌+◌, ◌*◌, ◌≤◌, ◌++◌, length, IfOk, IfErr, vec_len, vec_capacity};
ghost use Rattle.ring_things.specs.Numbers.{list_encoding, numbers_from_bytes};

use byteorder::{BigEndian, ByteOrder};
use ring_base::Fault;
use std::alloc::Allocator;

/// Appends `numbers` to `out`, in order, in 8 bytes each, big-endian.
///
/// `out` must have room for them. Does not allocate.
pub(crate) fn append_encoded_numbers<A: Allocator>(out: &mut Vec<u8, A>, numbers: &[u64])
    requires { vec_len out.old + 8 * length numbers.now ≤ vec_capacity out.old }
    ensures items { out.new.items ≡ out.old.items ++ list_encoding 8 numbers.now }
    ensures len { vec_len out.new ≡ vec_len out.old + 8 * length numbers.now }
    ensures room { vec_capacity out.old ≤ vec_capacity out.new }
{
    for number in numbers {
        let mut word = [0; 8];
        BigEndian::write_u64(&mut word, *number);
        out.extend_from_slice(&word).unwrap();
    }
}

/// Decodes `count` numbers of 8 bytes each, big-endian, into a new vector.
///
/// `bytes` must have exactly 8 * `count` bytes.
///
/// Errors: `Memory` if an allocation fails.
pub(crate) fn decode_numbers<A: Allocator + Copy + Drop>(
    alloc: A,
    count: usize,
    bytes: &[u8],
) -> Result<Vec<u64, A>, Fault>
    requires { length bytes.now ≡ 8 * count }
    ensures ok { IfOk result (λ numbers. numbers.items ≡ numbers_from_bytes 8 count bytes.now) }
    ensures refused { IfErr result (λ fault. fault ≡ Fault.Memory) }
{
    let mut numbers = vec![in alloc; 0; count]?;
    BigEndian::read_u64_into(bytes, numbers.as_mut_slice());
    Ok(numbers)
}
