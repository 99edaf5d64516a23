//! Standard error as a terminal.

use libc::net::{POLLOUT, poll};
use libc::types::pollfd;
use libc::{isatty, write};
use std::os::fd::RawFd;

/// The descriptor of standard error.
const STDERR: RawFd = 2;

/// Whether standard error is a terminal.
pub fn has_terminal() -> bool {
    isatty(STDERR) == 1
}

/// Writes to standard error, if that accepts a text at once: a terminal that was stopped (Ctrl-S) delays nothing.
pub fn put_terminal(text: &[u8]) {
    let mut fds = [pollfd {
        fd: STDERR,
        events: POLLOUT,
        revents: 0,
    }];
    if poll(&mut fds, 0) > 0 {
        let _ = write(STDERR, text);
    }
}
