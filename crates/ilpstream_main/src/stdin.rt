//! Standard input, of which no read waits long.

use libc::net::{POLLIN, poll};
use libc::types::pollfd;
use std::io;
use std::io::{ErrorKind, Read};
use std::os::fd::RawFd;

/// How many milliseconds a read waits for input.
const WAIT: i32 = 200;

/// The descriptor of standard input.
pub(crate) const STDIN: RawFd = 0;

/// A reader of a file descriptor. A read for which no input arrives within 200 milliseconds fails with
/// `ErrorKind::Interrupted`, so that its caller can look for a reason to stop before it reads again. A regular file is
/// always ready.
#[derive(Drop)]
pub(crate) struct Interruptible<R> {
    reader: R,
    fd: RawFd,
}

impl<R> Interruptible<R> {
    /// The reader of this descriptor.
    pub(crate) fn new(reader: R, fd: RawFd) -> Interruptible<R> {
        Interruptible { reader, fd }
    }
}

/// Whether a read of a descriptor returns at once, after a wait of up to 200 milliseconds: there is input, or the input is
/// at its end or failed.
fn is_ready(fd: RawFd) -> bool {
    let mut fds = [pollfd {
        fd,
        events: POLLIN,
        revents: 0,
    }];
    poll(&mut fds, WAIT) > 0
}

impl<R: Read> Read for Interruptible<R> {
    ghost remaining = { λ s. R.remaining s.reader };

    fn read(&mut self, buf: &mut [u8]) -> io::Result<usize> {
        if !is_ready(self.fd) {
            return Err(io::Error::from(ErrorKind::Interrupted));
        }
        self.reader.read(buf)
    }
}
