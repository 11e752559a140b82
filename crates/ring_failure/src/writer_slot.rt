//! A slot for a writer that a buffer borrows.

ghost use Rattle.std.specs.Prelude.{◌≡◌, Some};
ghost use Rattle.std.specs.Io.Buffered.{writer_buffer, writer_inner};
ghost use Rattle.ring_failure.specs.WriterSlots.{slot_bytes};

use std::alloc::Allocator;
use std::io::{self, BufWriter, ErrorKind, Write};

/// A slot for a borrowed writer, so that a buffer over it can be made before it borrows, and dropped while the writer
/// stays.
///
/// All bytes are passed on to the writer. While the slot is empty, writing and flushing fail.
///
/// In contracts its contents are unknown while it is empty; otherwise they are the borrow's name and then the known
/// bytes, so they know that a buffer over it still holds the same borrow.
#[derive(Drop)]
pub struct WriterSlot<'a, W> {
    /// The borrowed writer, if there is one.
    pub writer: Option<&'a mut W>,
}

impl<W: Write> Write for WriterSlot<'_, W> {
    ghost contents = { λ slot. slot_bytes W.contents slot.writer };

    fn write(&mut self, buf: &[u8]) -> io::Result<usize> {
        match &mut self.writer {
            Some(writer) => (*writer).write(buf),
            None => Err(io::Error::from(ErrorKind::NotConnected)),
        }
    }

    fn flush(&mut self) -> io::Result<()> {
        match &mut self.writer {
            Some(writer) => (*writer).flush(),
            None => Err(io::Error::from(ErrorKind::NotConnected)),
        }
    }

    fn write_all(&mut self, buf: &[u8]) -> io::Result<()> {
        match &mut self.writer {
            Some(writer) => (*writer).write_all(buf),
            None => Err(io::Error::from(ErrorKind::NotConnected)),
        }
    }
}

/// Puts a borrowed writer into the slot behind the buffer.
///
/// The bytes in the buffer stay.
pub fn fill_slot<'a, W: Write, A: Allocator>(
    buffer: &mut BufWriter<WriterSlot<'a, W>, A>,
    writer: &'a mut W,
)
    ensures slot { writer_inner buffer.new ≡ record { writer = Some writer.entry } }
    ensures bytes { writer_buffer buffer.new ≡ writer_buffer buffer.old }
{
    buffer.get_mut().writer = Some(writer);
}
