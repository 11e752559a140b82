//! Lists of values, encoded one after the other.

ghost use Rattle.std.specs.Prelude.{◌≡◌, ℕ, ◌+◌, ◌^◌, ◌<◌, ◌≤◌, List, [], ◌++◌, length, All};
ghost use Rattle.std.specs.List.{flat_map};
ghost use Rattle.ring_codec.specs.Reading.{IsReadResultBy, Appends, repeated_at};
ghost use Rattle.ring_base.specs.Numbers.{max_frame_bytes};

use crate::codec::{Decode, Encode};
use crate::reader::Reader;
use arrayvec::ArrayVec;
use bytes::BytesMut;
use ring_base::Fault;
use std::alloc::Allocator;

/// Appends the encodings of `items` to `out`, in order, without their number.
///
/// The values must be within the limits of their format, and `out` must have room for all encodings. An empty list
/// appends nothing. Does not allocate.
///
/// Formats: Numbers and parts
pub fn encode_list<T: Encode, B: Allocator + Copy>(items: &[T], out: &mut BytesMut<B>)
    requires fits { All T.is_within_limits items.now }
    requires room { length (flat_map T.encoding items.now) ≤ out.old.spare }
    ensures { Appends out.old out.new (flat_map T.encoding items.now) }
{
    for item in items {
        item.write(out);
    }
}

/// Returns the total length of the encodings of `items`, in bytes.
///
/// The values must be within the limits of their format, and the total must be at most 8,192.
///
/// Formats: Numbers and parts
pub fn list_encoded_len<T: Encode>(items: &[T]) -> usize
    requires fits { All T.is_within_limits items.now }
    requires small { length (flat_map T.encoding items.now) ≤ max_frame_bytes }
    ensures { result ≡ length (flat_map T.encoding items.now) }
{
    let mut size = 0;
    for item in items {
        size += item.encoded_len();
    }
    size
}

/// Decodes the `count` values at the front of `from` into a new vector, in order, and moves `from` past them.
///
/// Errors: `BadFrame`, only if `from` doesn't begin with the encodings of `count` values. `Memory` if an allocation
/// fails. What is then left to read is unspecified.
///
/// Formats: Numbers and parts
pub fn decode_list<A: Allocator + Copy, T: Decode<A> + Drop>(
    alloc: A,
    count: usize,
    from: &mut Reader<'_>,
) -> Result<Vec<T, A>, Fault>
    ensures { IsReadResultBy (λ items. items.items) result from.new (repeated_at count T.decoding_at_front from.old) }
{
    let mut items = Vec::with_capacity(alloc, count)?;
    for _ in 0..count {
        let item = T::read(alloc, from)?;
        items.push(item)?;
    }
    Ok(items)
}

/// Decodes the `count` values at the front of `from` into `decoded_list`, in order, and moves `from` past them.
///
/// `decoded_list` must be empty, and `count` must be at most its capacity `N`.
///
/// Errors: `BadFrame`, only if `from` doesn't begin with the encodings of `count` values. `Memory` if an allocation
/// fails. The content of `decoded_list`, and what is left to read, are then unspecified.
///
/// Formats: Numbers and parts
pub fn decode_list_into<A: Allocator + Copy, T: Decode<A> + Drop, const N: usize>(
    alloc: A,
    count: usize,
    from: &mut Reader<'_>,
    decoded_list: &mut ArrayVec<T, N>,
) -> Result<(), Fault>
    requires room { count ≤ N }
    requires empty { decoded_list.old.items ≡ [] }
    ensures { IsReadResultBy (λ _. decoded_list.new.items) result from.new (repeated_at count T.decoding_at_front from.old) }
{
    for _ in 0..count {
        let item = T::read(alloc, from)?;
        decoded_list.push(item);
    }
    Ok(())
}
