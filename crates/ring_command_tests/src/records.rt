//! A node's output records.
//! Formats: Records

/// A record: its kind and its bytes.
#[derive(Clone, Copy)]
pub(crate) struct Record<'a> {
    pub(crate) kind: u8,
    pub(crate) bytes: &'a [u8],
}

/// Splits off the first record, and returns it with the rest: `None` where there is no whole record.
pub(crate) fn first_record(told: &[u8]) -> Option<(Record<'_>, &[u8])> {
    if told.len() < 3 {
        return None;
    }
    let end = 3 + usize::from(u16::from_be_bytes([told[1], told[2]]));
    if end > told.len() {
        return None;
    }
    let record = Record {
        kind: told[0],
        bytes: &told[3..end],
    };
    Some((record, &told[end..]))
}

/// Splits off the big-endian number in the first `count` bytes, and returns it with the rest. Where there are fewer bytes, the
/// number has all of them.
pub(crate) fn first_number(bytes: &[u8], count: usize) -> (u64, &[u8]) {
    let (front, behind) = bytes.split_at(bytes.len().min(count));
    let mut number = 0u64;
    for byte in front {
        number = number.wrapping_mul(256).wrapping_add(u64::from(*byte));
    }
    (number, behind)
}
