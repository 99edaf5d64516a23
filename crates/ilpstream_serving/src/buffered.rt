//! A stream of which reads are buffered.

ghost use Rattle.std.specs.Prelude.{◌≡◌, [], IfErr, IfOk};
ghost use Rattle.std.specs.Io.Buffered.{reader_buffer, reader_inner, reader_remaining};
ghost use Rattle.std.specs.IoError.{error_kind};
ghost use Rattle.std.specs.declared.io.ErrorKind.TheVariants.{OutOfMemory};

use std::alloc::Allocator;
use std::io;
use std::io::{BufReader, Read, Write};

/// How many bytes are asked of the stream at once: a head and the greatest body that a Prepare of an end has.
const BUFFER: usize = 16_384;

/// A stream with a buffer in front of its reads. The inner stream is read in parts of up to 16,384 bytes, and reads are
/// served from the buffer, so that a message that is read byte by byte costs few reads of the inner stream. What is left
/// in the buffer is left unread. Writes pass through to the inner stream unchanged.
#[derive(Drop)]
pub struct Buffered<S, A: Allocator> {
    reader: BufReader<S, A>,
}

impl<S: Read + Drop, A: Allocator> Buffered<S, A> {
    /// The stream with an empty buffer. Fails with an error of kind `OutOfMemory` if memory is refused.
    pub fn new(alloc: A, stream: S) -> io::Result<Buffered<S, A>>
        ensures stream { IfOk result (λ b. reader_inner b.reader ≡ stream) }
        ensures empty { IfOk result (λ b. reader_buffer b.reader ≡ []) }
        ensures only_memory { IfErr result (λ e. error_kind e ≡ OutOfMemory) }
    {
        let reader = BufReader::with_capacity(alloc, BUFFER, stream)?;
        Ok(Buffered { reader })
    }
}

impl<S: Read, A: Allocator> Read for Buffered<S, A> {
    // The bytes in the buffer, and then those of the inner stream.
    ghost remaining = { λ s. reader_remaining S.remaining s.reader };

    fn read(&mut self, buf: &mut [u8]) -> io::Result<usize> {
        self.reader.read(buf)
    }
}

impl<S: Read + Write, A: Allocator> Write for Buffered<S, A> {
    ghost contents = { λ s. S.contents (reader_inner s.reader) };

    fn write(&mut self, buf: &[u8]) -> io::Result<usize> {
        self.reader.get_mut().write(buf)
    }

    fn flush(&mut self) -> io::Result<()> {
        self.reader.get_mut().flush()
    }
}
