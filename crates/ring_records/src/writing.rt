//! Writing one record.
//!
//! Formats: Records

ghost use Rattle.std.specs.Prelude.{◌++◌, OnOk};
ghost use Rattle.std.specs.Io.KnownBytes.{Appends};
ghost use Rattle.ring_records.specs.Records.{record_of};

use byteorder::{BigEndian, ByteOrder};
use std::io::{self, ErrorKind, Write};

/// Writes a record: the kind, the length in 2 bytes, big-endian, then the bytes of `first` and of `rest`.
///
/// Errors: `InvalidInput` if `first` and `rest` have more than 65,535 bytes together; nothing has then been written.
/// Otherwise any error of `out`; how much has been written is then unspecified.
///
/// Formats: Records
pub(crate) fn write_record<W: Write>(
    out: &mut W,
    kind: u8,
    first: &[u8],
    rest: &[u8],
) -> io::Result<()>
    ensures { OnOk result (Appends (W.contents out.old) (W.contents out.new) (record_of kind (first.now ++ rest.now))) }
{
    let Ok(length) = u16::try_from(first.len().saturating_add(rest.len())) else {
        return Err(io::Error::from(ErrorKind::InvalidInput));
    };
    let mut word = [0; 2];
    BigEndian::write_u16(&mut word, length);
    out.write_all(&[kind])?;
    out.write_all(&word)?;
    out.write_all(first)?;
    out.write_all(rest)
}
