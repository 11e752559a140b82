//! Bytes in hexadecimal, in lines, with comments in lines that begin with `#`.

use std::alloc::Global;
use std::io::{self, Error, ErrorKind};
use std::str;

/// Decodes the hexadecimal in the lines of a text, and returns the bytes.
///
/// Lines that begin with `#` are comments. An empty line has no bytes.
///
/// Errors: of kind `InvalidData` if the text isn't UTF-8, or if a line is neither hexadecimal nor a comment; of kind
/// `OutOfMemory` if an allocation fails.
pub fn decode_hex(alloc: Global, text: &[u8]) -> io::Result<Vec<u8>> {
    let Ok(text) = str::from_utf8(text) else {
        return Err(Error::from(ErrorKind::InvalidData));
    };
    let mut bytes = Vec::new(alloc);
    decode_lines(alloc, text, &mut bytes)?;
    Ok(bytes)
}

/// Adds the bytes of the lines of a text.
fn decode_lines(alloc: Global, text: &str, bytes: &mut Vec<u8>) -> io::Result<()> {
    for line in text.lines() {
        if !line.starts_with("#") {
            decode_line(alloc, line, bytes)?;
        }
    }
    Ok(())
}

/// Adds the bytes of one line.
fn decode_line(alloc: Global, line: &str, bytes: &mut Vec<u8>) -> io::Result<()> {
    match hex::decode(alloc, line) {
        Ok(more) => Ok(bytes.extend_from_slice(more.as_slice())?),
        Err(_) => Err(Error::from(ErrorKind::InvalidData)),
    }
}
