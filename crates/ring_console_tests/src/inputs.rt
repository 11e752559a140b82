//! A reader that fails.

use std::io;
use std::io::{Error, ErrorKind, Read};

/// A reader that returns these bytes, and then fails.
#[derive(Drop)]
pub struct FailingReader<'a>(pub &'a [u8]);

impl Read for FailingReader<'_> {
    fn read(&mut self, buf: &mut [u8]) -> io::Result<usize> {
        if self.0.is_empty() {
            return Err(Error::from(ErrorKind::Other));
        }
        self.0.read(buf)
    }
}
