//! The log of a command, in a file.

use ilpstream_log::Journal;
use std::alloc::{AllocError, Global};
use std::fs::File;
use std::os::fd::AsRawFd;
use std::time::Clock;

/// A log in a file.
pub type LogFile = Journal<File>;

/// The file, of which no read and no write waits for the other end, if it is a pipe or a terminal: neither one of this file nor
/// one by another descriptor of the same open file.
pub fn without_waits(file: File) -> File {
    // It fails for no file that is open, and a call would wait then.
    os::set_nonblocking(file.as_raw_fd(), true);
    file
}

/// Has all lines of a log from now on written to this file, after its present content, those that wait among them. False if
/// another thread writes for too long: then the log keeps its file.
pub fn log_anew(clock: &impl Clock, log: &LogFile, file: File) -> bool {
    log.change(clock, without_waits(file))
}

/// A log in this file, after its present content. If it is a pipe or a terminal, no write waits for whoever reads: neither
/// one of this log nor one by another descriptor of the same open file. `last` is the greatest number of a neighbour: 0 but for
/// a connector. Fails if memory is refused.
pub fn log_in(alloc: Global, file: File, last: u32) -> Result<LogFile, AllocError> {
    Journal::new(alloc, without_waits(file), last)
}
