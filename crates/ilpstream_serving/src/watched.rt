//! A stream of which the status of what is written is known.

use std::cell::Cell;
use std::io;
use std::io::{ErrorKind, Read, Write};

/// How many bytes a response has before its status, which has three digits: `HTTP/1.1 `.
const FRONT: u8 = 9;

/// The status of a response, as far as its bytes were written.
#[derive(Clone, Copy)]
struct StatusLine {
    /// How many bytes were read.
    at: u8,
    status: u16,
}

impl StatusLine {
    /// Reads the next byte of the response.
    fn see(&mut self, byte: u8) {
        if self.at >= FRONT {
            let digit = u16::from(byte.saturating_sub(b'0'));
            self.status = self.status.saturating_mul(10).saturating_add(digit);
        }
        self.at = self.at.saturating_add(1);
    }

    /// Reads the next bytes.
    fn see_all(&mut self, bytes: &[u8]) {
        for byte in bytes {
            if self.at >= FRONT + 3 {
                return;
            }
            self.see(*byte);
        }
    }
}

/// A stream on which one response is written, and which keeps its status. Each call is passed through as it is, but nothing
/// is written once the response is withheld.
#[derive(Drop)]
pub(crate) struct Watched<'a, S> {
    stream: S,
    line: StatusLine,
    withheld: &'a Cell<bool>,
}

impl<'a, S> Watched<'a, S> {
    /// The stream, on which nothing was written yet.
    pub(crate) fn new(stream: S, withheld: &'a Cell<bool>) -> Watched<'a, S> {
        Watched {
            stream,
            line: StatusLine { at: 0, status: 0 },
            withheld,
        }
    }

    /// The status of the response. `None` if not so much of it was written.
    pub(crate) fn status(&self) -> Option<u16> {
        if self.line.at < FRONT + 3 {
            return None;
        }
        Some(self.line.status)
    }
}

impl<S: Read> Read for Watched<'_, S> {
    ghost remaining = { λ s. S.remaining s.stream };

    fn read(&mut self, buf: &mut [u8]) -> io::Result<usize> {
        self.stream.read(buf)
    }
}

impl<S: Write> Write for Watched<'_, S> {
    ghost contents = { λ s. S.contents s.stream };

    fn write(&mut self, buf: &[u8]) -> io::Result<usize> {
        if self.withheld.get() {
            return Err(ErrorKind::BrokenPipe.into());
        }
        let written = self.stream.write(buf);
        if let Ok(n) = written {
            self.line.see_all(&buf[..n.min(buf.len())]);
        }
        written
    }

    fn flush(&mut self) -> io::Result<()> {
        self.stream.flush()
    }
}
