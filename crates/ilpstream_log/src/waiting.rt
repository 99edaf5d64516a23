//! The lines that wait for the writer of a log.

ghost use Rattle.std.specs.Prelude.{◌≤◌, length};
ghost use Rattle.std.specs.VecDeque.{deque_capacity};
ghost use Rattle.ilpstream_log.specs.Waiting.{first_of};

use std::collections::VecDeque;

/// The most lines that wait.
pub(crate) const MOST_LINES: usize = 1_024;

/// The text of one line, with its newline.
#[derive(Drop)]
pub(crate) struct Line {
    pub(crate) text: Vec<u8>,
}

/// Lines that wait, first in, first out.
#[derive(Drop)]
pub(crate) struct Queue {
    pub(crate) lines: VecDeque<Line>,
    /// How many bytes of the first line are written.
    pub(crate) begun: usize,
    /// Events whose lines found no room, not reported yet. The count stops at `u64::MAX`.
    pub(crate) lost: u64,
    ghost few: { length lines.items ≤ 1024 },
    ghost room: { 1024 ≤ deque_capacity lines },
    ghost within: { begun ≤ length (first_of lines.items) },
}
