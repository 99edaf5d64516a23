//! What finds room among the lines that wait, and what leaves.

ghost use Rattle.std.specs.Prelude.{◌≡◌, ◌==◌, ◌<◌, ◌≤◌, ◌⊎◌, [], IfOk, IsTrue, OnErr, drop, length, true};
ghost use Rattle.ilpstream_log.specs.Lines.{line_text};
ghost use Rattle.ilpstream_log.specs.Queue as spec;
ghost use Rattle.ilpstream_log.specs.Waiting.{first_of, unwritten};

use crate::event::Event;
use crate::text::line;
use crate::waiting::{Line, MOST_LINES, Queue};
use st_ilp::Moment;
use std::alloc::{AllocError, Global};
use std::collections::VecDeque;

impl Queue {
    /// No line waits.
    pub(crate) fn new(alloc: Global) -> Result<Queue, AllocError>
        ensures empty { IfOk result (λ queue. (queue.lines.items ≡ []) × (queue.begun ≡ 0) × (queue.lost ≡ 0)) }
    {
        let lines = VecDeque::with_capacity(alloc, MOST_LINES)?;
        Ok(Queue {
            lines,
            begun: 0,
            lost: 0,
        })
    }

    /// Nothing of the first line counts as written any more.
    pub(crate) fn begin_anew(&mut self)
        ensures lines { self.new.lines.items ≡ self.old.lines.items }
        ensures begun { self.new.begun ≡ 0 }
        ensures lost { self.new.lost ≡ self.old.lost }
    {
        self.begun = 0;
    }

    /// How many lines wait.
    pub(crate) fn len(&self) -> usize
        ensures { result ≡ length self.now.lines.items }
    {
        self.lines.len()
    }

    /// Whether no line waits.
    pub(crate) fn is_empty(&self) -> bool
        ensures { result ≡ (length self.now.lines.items == 0) }
    {
        self.lines.is_empty()
    }

    /// Whether a line finds room, with one before it that reports how many events were lost, if some were.
    pub(crate) fn has_room(&self) -> bool
        ensures { result ≡ spec.has_room self.now }
    {
        let places = if self.lost == 0 { 1 } else { 2 };
        self.lines.len() + places <= MOST_LINES
    }

    /// Counts this number of events as lost.
    pub(crate) fn lose(&mut self, count: u64)
        ensures { spec.Loses self.old count self.new }
    {
        self.lost = self.lost.saturating_add(count);
    }

    /// Adds a line after all others, if it finds room; otherwise `count` events are lost. Returns whether it found room. If some
    /// events were lost, a line with their number precedes it, with the moment that it is now.
    ///
    /// Fails if memory for that line is refused. `count` events are lost then, too.
    pub(crate) fn add(
        &mut self,
        alloc: Global,
        now: Moment,
        line: Line,
        count: u64,
    ) -> Result<bool, AllocError>
        ensures room { IfOk result (λ found. found ≡ spec.has_room self.old) }
        ensures added { IfOk result (λ found. spec.Adds self.old now line.text.items count found self.new) }
        ensures no_memory { OnErr result (spec.Loses self.old count self.new) }
    {
        if !self.has_room() {
            self.lose(count);
            return Ok(false);
        }
        if self.lost > 0 {
            return self.add_behind_lost(alloc, now, line, count);
        }
        self.lines.push_back_reserved(line);
        Ok(true)
    }

    /// The same if some events were lost, and there is room.
    fn add_behind_lost(
        &mut self,
        alloc: Global,
        now: Moment,
        line: Line,
        count: u64,
    ) -> Result<bool, AllocError>
        requires room { IsTrue (spec.has_room self.old) }
        requires lost { 0 < self.old.lost }
        ensures room { IfOk result (λ found. found ≡ true) }
        ensures added { IfOk result (λ found. spec.Adds self.old now line.text.items count found self.new) }
        ensures no_memory { OnErr result (spec.Loses self.old count self.new) }
    {
        match line_of_lost(alloc, now, self.lost) {
            Ok(told) => {
                self.lines.push_back_reserved(told);
                self.lines.push_back_reserved(line);
                self.lost = 0;
                Ok(true)
            }
            Err(error) => {
                self.lose(count);
                Err(error)
            }
        }
    }

    /// What is to be written of the first line. Empty if no line waits.
    pub(crate) fn first(&self) -> &[u8]
        ensures { result.now ≡ drop self.now.begun (first_of self.now.lines.items) }
    {
        match self.lines.front() {
            Some(line) => &line.text[self.begun..],
            None => &[],
        }
    }

    /// `count` more bytes of the first line are written. It leaves once all of it is.
    pub(crate) fn written(&mut self, count: usize)
        requires { count ≤ length (drop self.old.begun (first_of self.old.lines.items)) }
        ensures bytes { unwritten self.new.lines.items self.new.begun ≡ drop count (unwritten self.old.lines.items self.old.begun) }
        ensures lines { (self.new.lines.items ≡ self.old.lines.items) ⊎ (self.new.lines.items ≡ drop 1 self.old.lines.items) }
        ensures lost { self.new.lost ≡ self.old.lost }
    {
        if count < self.first().len() {
            self.begun += count;
        } else {
            self.lines.pop_front();
            self.begun = 0;
        }
    }
}

/// The line with the number of lost events.
fn line_of_lost(alloc: Global, now: Moment, lost: u64) -> Result<Line, AllocError>
    ensures { IfOk result (λ told. told.text.items ≡ line_text now 0 (Event.NoRoom lost)) }
{
    let text = line(alloc, now, 0, &Event::NoRoom { count: lost })?;
    Ok(Line { text })
}
