//! The writer of a log, and the lines that wait for it.

ghost use Rattle.std.specs.Prelude.{◌≡◌, [], IfOk};
ghost use Rattle.ilpstream_log.specs.Writing.{Writes};

use crate::waiting::Queue;
use std::alloc::{AllocError, Global};
use std::io::{ErrorKind, Write};

/// The most calls of the writer in one round.
const CALLS: u32 = 65_536;

/// How a round of writing ended.
#[derive(Clone, Copy)]
pub(crate) enum Round {
    /// All lines are written.
    All,
    /// The writer accepts no more now: nobody reads, or the reader is slow.
    Later,
    /// The writer failed.
    Failed,
}

/// How one call of the writer ended.
#[derive(Clone, Copy)]
enum Call {
    More,
    Later,
    Failed,
}

/// A writer that does not wait for whoever reads, and the lines that wait for it.
#[derive(Drop)]
pub(crate) struct Outlet<W> {
    writer: W,
    pub(crate) queue: Queue,
}

impl<W> Outlet<W> {
    /// A writer for which no line waits.
    pub(crate) fn new(alloc: Global, writer: W) -> Result<Outlet<W>, AllocError>
    where
        W: Drop,
        ensures writer { IfOk result (λ outlet. outlet.writer ≡ writer) }
        ensures empty { IfOk result (λ outlet. outlet.queue.lines.items ≡ []) }
    {
        let queue = Queue::new(alloc)?;
        Ok(Outlet { writer, queue })
    }

    /// Has the lines that wait, and later ones, written by another writer: a line that was written in part is written anew.
    pub(crate) fn change(&mut self, writer: W)
    where
        W: Drop,
        ensures writer { self.new.writer ≡ writer }
        ensures lines { self.new.queue.lines.items ≡ self.old.queue.lines.items }
        ensures whole { self.new.queue.begun ≡ 0 }
        ensures lost { self.new.queue.lost ≡ self.old.queue.lost }
    {
        self.writer = writer;
        self.queue.begin_anew();
    }
}

impl<W: Write> Outlet<W> {
    /// Writes what it can of the first line, with one call of the writer.
    fn call(&mut self) -> Call
        ensures { Writes W.contents self.old self.new }
    {
        match self.writer.write(self.queue.first()) {
            Ok(0) => Call::Later,
            Ok(n) => {
                self.queue.written(n);
                Call::More
            }
            Err(e) => match e.kind() {
                ErrorKind::Interrupted => Call::More,
                ErrorKind::WouldBlock | ErrorKind::BrokenPipe => Call::Later,
                _ => Call::Failed,
            },
        }
    }

    /// Writes the lines that wait, as far as the writer accepts them. Each byte is written once, in its order, so a line that
    /// is written in part is completed by a later round.
    pub(crate) fn round(&mut self) -> Round
        ensures written { Writes W.contents self.old self.new }
        ensures all { result ≡ Round.All → self.new.queue.lines.items ≡ [] }
    {
        for _ in 0..CALLS {
            if self.queue.is_empty() {
                return Round::All;
            }
            match self.call() {
                Call::More => {}
                Call::Later => return Round::Later,
                Call::Failed => return Round::Failed,
            }
        }
        Round::Later
    }
}
