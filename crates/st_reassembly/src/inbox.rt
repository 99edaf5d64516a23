//! The received bytes of one stream, until they are read.

ghost use Rattle.std.specs.Prelude.{◌≡◌, ◌+◌, ◌^◌, ◌<◌, ◌≤◌, ◌↔◌, ◌&&◌, ◌||◌, is_some, true, false, nat_lt, not, length, take, IfOk, OnOk, OnErr, IsErrOf, IsOkUnless};
ghost use Rattle.st_reassembly.specs.Held.{nothing_held, is_over, after_insert};
ghost use Rattle.st_reassembly.specs.Closing.{after_finish, after_abort, is_at_end, is_spent};
ghost use Rattle.st_reassembly.specs.Run.{run, after_take};
ghost use Rattle.st_reassembly.specs.Inserting.{Inserts, EndsPastWindow};

use crate::error::InboxError;
use crate::ring::{Ring, WINDOW, copy, empty, forget, join, none, room, row, row_length};
use std::alloc::Allocator;
use std::marker::Model;

/// The receive buffer of one direction of a stream: the bytes that arrived and are not read yet, each at its offset.
///
/// It also has the number of bytes that were read, and how the direction ended. The bytes are the data of StreamData
/// frames (RFC 0029, section 5.3). It reserves its memory when it is made, room for `WINDOW` bytes, and gives it back once
/// no byte can come or be read any more: after an abort, or once all bytes before the end were read.
#[derive(Drop)]
pub struct Inbox<A: Allocator + Copy> {
    ring: Ring<A>,
    alloc: A,
    /// The number of bytes that were read.
    read: u64,
    /// The least offset past every byte that is buffered or was read: from `read` to `read + WINDOW`.
    top: u64,
    /// Whether the stream was closed cleanly. `top` is then its end.
    finished: bool,
    /// The code of the abort, once the stream was aborted.
    aborted: Option<u64>,
}

impl<A: Allocator + Copy> Model for Inbox<A> {
    ghost use Rattle.st_reassembly.specs.Held.{Held};
    ghost use Rattle.std.specs.FinMap as map;
    ghost use Rattle.std.specs.Coded.{codes};

    ghost Value = { Held };

    ghost coded = { Prim.hlevel (codes, map.code) };

    ghost use Rattle.std.specs.Prelude.{◌+◌, ◌||◌, if◌then◌else◌, is_some, vec_capacity, Some, None};
    ghost use Rattle.st_reassembly.specs.Closing.{is_at_end};
    ghost use Rattle.st_streams.specs.Table.{table};
    ghost use Rattle.st_reassembly.specs.Ring.{IsSound, cell};

    ghost view = { λ s. record { bytes = table (cell s.ring.bytes.items s.ring.marks.items) s.read 65536; read = s.read; end = if s.finished then Some s.top else None; aborted = s.aborted } };

    ghost invariant = { λ s. IsSound (is_some s.aborted || is_at_end s.read (if s.finished then Some s.top else None)) s.ring.bytes.items s.ring.marks.items (vec_capacity s.ring.bytes + vec_capacity s.ring.marks) s.read s.top };
}

impl<A: Allocator + Copy> Inbox<A> {
    /// An empty inbox. Allocates all the memory that it needs for arriving bytes.
    ///
    /// Fails with `NoMemory` if memory is refused.
    pub fn new(alloc: A) -> Result<Inbox<A>, InboxError>
        ensures only_memory { IsOkUnless result InboxError.NoMemory }
        ensures empty { IfOk result (λ s. s ≡ nothing_held) }
    {
        let ring = empty(alloc)?;
        Ok(Inbox {
            ring,
            alloc,
            read: 0,
            top: 0,
            finished: false,
            aborted: None,
        })
    }

    /// Inserts a chunk whose first byte is at `offset` in the stream. Does not allocate.
    ///
    /// A byte that is buffered already stays as it is. A byte that was read, lies past a fixed end or arrives after an
    /// abort is dropped. Fails with `Overflow` if the chunk ends past 2^64 - 1. As long as the stream is neither
    /// closed nor aborted, it fails with `PastWindow` if the chunk ends more than `WINDOW` bytes past the read
    /// count. A call that fails changes nothing.
    pub fn insert(&mut self, offset: u64, bytes: &[u8]) -> Result<(), InboxError>
        ensures overflow { IsErrOf result InboxError.Overflow ↔ (2 ^ 64 ≤ offset + length bytes.now) }
        ensures past_window { IsErrOf result InboxError.PastWindow ↔ EndsPastWindow offset bytes.now self.old }
        ensures joins { OnOk result (self.new ≡ after_insert offset bytes.now self.old) }
        ensures unchanged { OnErr result (self.new ≡ self.old) }
        ensures answer { Inserts offset bytes.now self.old self.new result }
    {
        let Some(end) = offset.checked_add(bytes.len() as u64) else {
            return Err(InboxError::Overflow);
        };
        if self.is_past_window(end) {
            return Err(InboxError::PastWindow);
        }
        if self.is_spent_at(self.read) {
            return Ok(());
        }
        let high = self.end_at().unwrap_or(end);
        let past = join(&mut self.ring, offset, bytes, self.read, high);
        self.top = self.top.max(past);
        Ok(())
    }

    /// Reads at most `max` bytes: the first of those that are buffered without a gap from the read count on. They leave
    /// the buffer.
    ///
    /// Fails with `NoMemory` if memory for them is refused. The inbox then stays as it was.
    pub fn take(&mut self, max: usize) -> Result<Vec<u8, A>, InboxError>
        ensures only_memory { IsOkUnless result InboxError.NoMemory }
        ensures taken { IfOk result (λ v. v.items ≡ take max (run self.old)) }
        ensures few { IfOk result (λ v. length v.items ≤ 65536) }
        ensures left { OnOk result (self.new ≡ after_take max self.old) }
        ensures unchanged { OnErr result (self.new ≡ self.old) }
    {
        if self.is_spent() {
            return Ok(Vec::new(self.alloc));
        }
        let count = row_length(&self.ring, self.read).min(max);
        let row = row(self.alloc, &self.ring, self.read, count)?;
        if self.is_spent_at(self.read + count as u64) {
            self.ring = none(self.alloc);
            self.read += count as u64;
            return Ok(row);
        }
        forget(&mut self.ring, self.read, count);
        self.read += count as u64;
        Ok(row)
    }

    /// A second inbox with the same contents. Fails with `NoMemory` if memory is refused.
    pub fn copy(&self) -> Result<Inbox<A>, InboxError>
        ensures only_memory { IsOkUnless result InboxError.NoMemory }
        ensures same { IfOk result (λ c. c ≡ self.now) }
    {
        let ring = copy(self.alloc, &self.ring, self.is_spent())?;
        Ok(Inbox {
            ring,
            alloc: self.alloc,
            read: self.read,
            top: self.top,
            finished: self.finished,
            aborted: self.aborted,
        })
    }

    /// Closes the stream cleanly: the end is fixed just past the highest byte that was buffered or read. Changes
    /// nothing after a close or an abort.
    pub fn finish(&mut self)
        ensures { self.new ≡ after_finish self.old }
    {
        if self.is_over() {
            return;
        }
        self.finished = true;
        if self.top == self.read {
            self.ring = none(self.alloc);
        }
    }

    /// Aborts the stream with `code`: the buffered bytes are dropped. Changes nothing after a close or an abort.
    pub fn abort(&mut self, code: u64)
        ensures { self.new ≡ after_abort code self.old }
    {
        if self.is_over() {
            return;
        }
        self.ring = none(self.alloc);
        self.top = self.read;
        self.aborted = Some(code);
    }

    /// The number of bytes that are buffered without a gap from the read count on: at most 65,536.
    pub fn run_length(&self) -> usize
        ensures length { result ≡ length (run self.now) }
        ensures near { result ≤ 65536 }
    {
        let first = self.read;
        if self.is_spent_at(first) {
            return 0;
        }
        row_length(&self.ring, first)
    }

    /// The memory that is kept for bytes, in bytes. It is 0 once no byte can come or be read any more.
    pub fn room(&self) -> usize
        ensures { is_spent self.now ≡ true → result ≡ 0 }
    {
        room(&self.ring)
    }

    /// The number of bytes that were read. It is also the offset of the next byte to read.
    pub fn read_count(&self) -> u64
        ensures { result ≡ self.now.read }
    {
        self.read
    }

    /// The length of the stream in bytes, once a clean close has fixed it.
    pub fn end_at(&self) -> Option<u64>
        ensures { result ≡ self.now.end }
    {
        if self.finished { Some(self.top) } else { None }
    }

    /// The code of the abort, once the stream was aborted.
    pub fn abort_code(&self) -> Option<u64>
        ensures { result ≡ self.now.aborted }
    {
        self.aborted
    }

    /// Whether the stream was closed or aborted.
    fn is_over(&self) -> bool
        ensures { result ≡ is_over self.now }
    {
        self.finished || self.aborted.is_some()
    }

    /// Whether no byte could come or be read any more, if `read` bytes had been read.
    fn is_spent_at(&self, read: u64) -> bool
        ensures { result ≡ (is_some self.now.aborted || is_at_end read self.now.end) }
    {
        match self.end_at() {
            Some(end) => self.aborted.is_some() || end == read,
            None => self.aborted.is_some(),
        }
    }

    /// Whether no byte can come or be read any more.
    fn is_spent(&self) -> bool
        ensures { result ≡ is_spent self.now }
    {
        self.is_spent_at(self.read)
    }

    /// Whether a chunk that ends at `end` ends past the window.
    fn is_past_window(&self, end: u64) -> bool
        ensures { result ≡ (not (is_over self.now) && nat_lt (self.now.read + 65536) end) }
    {
        !self.is_over() && WINDOW < end.saturating_sub(self.read)
    }
}
