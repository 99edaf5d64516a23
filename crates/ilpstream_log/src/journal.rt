//! A log that threads share.

use crate::event::{Event, KINDS, Kind};
use crate::outlet::{Outlet, Round};
use crate::pace::{Left, Pace, Verdict};
use crate::text::line;
use crate::waiting::{Line, MOST_LINES};
use st_ilp::Moment;
use std::alloc::{AllocError, Global};
use std::io::Write;
use std::sync::atomic::{AtomicBool, AtomicU64, Ordering};
use std::sync::{Mutex, MutexGuard};
use std::thread;
use std::time::{Clock, Duration};

/// How often a lock is tried before it is given up.
const TRIES: u32 = 200;

/// How often a writer that accepts no more is tried at the end of a run, before the lines that wait are given up.
const LAST_TRIES: u32 = 500;

/// How many milliseconds pass between two of these tries.
const PAUSE: u64 = 1;

/// A log: a writer that many threads share, with at most ten lines a second of one kind from one neighbour.
///
/// A line is made without a lock. Lines wait in a queue of 1,024, and whoever adds one writes what the writer accepts. The
/// writer is to be one that does not wait for its reader. What finds no room, or is delayed by another thread for a fifth of a
/// second, is counted as lost, and reported before a later line. A write that fails is tried again with the next line.
#[derive(Drop)]
pub struct Journal<W> {
    alloc: Global,
    pace: Mutex<Pace>,
    outlet: Mutex<Outlet<W>>,
    has_failed: AtomicBool,
    /// Events without a line that are not counted in the queue yet.
    missed: AtomicU64,
}

/// Locks a mutex if it is free within some time.
fn within<'a, T>(clock: &impl Clock, lock: &'a Mutex<T>) -> Option<MutexGuard<'a, T>> {
    for _ in 0..TRIES {
        if let Some(guard) = lock.try_lock() {
            return Some(guard);
        }
        thread::sleep(clock, Duration::from_millis(PAUSE));
    }
    None
}

/// The second of a moment.
fn second_of(moment: Moment) -> u64 {
    moment.ms().unsigned_abs() / 1_000
}

/// The number of events that a line reports.
fn events_of(event: &Event<'_>) -> u64 {
    match event {
        Event::More { count, .. } | Event::NoRoom { count } => *count,
        _ => 1,
    }
}

// Each function here that acquires a lock releases it before it returns.

impl<W: Write> Journal<W> {
    /// A log that writes to `writer`, after what is there already. `last` is the greatest number of a neighbour: 0 but for a
    /// connector. Fails if memory is refused.
    pub fn new(alloc: Global, writer: W, last: u32) -> Result<Journal<W>, AllocError>
    where
        W: Drop,
    {
        let pace = Pace::new(alloc, last)?;
        let outlet = Outlet::new(alloc, writer)?;
        Ok(Journal {
            alloc,
            pace: Mutex::new(pace),
            outlet: Mutex::new(outlet),
            has_failed: AtomicBool::new(false),
            missed: AtomicU64::new(0),
        })
    }

    /// Whether the last write failed. The lines that it was to write wait.
    pub fn has_failed(&self) -> bool {
        self.has_failed.load(Ordering::SeqCst)
    }

    /// Has all lines from now on written by another writer, those that wait among them. A line that was written in part is written
    /// anew. False if another thread writes for too long: then the writer stays.
    pub fn change<C: Clock>(&self, clock: &C, writer: W) -> bool
    where
        W: Drop,
    {
        let Some(mut outlet) = within(clock, &self.outlet) else {
            return false;
        };
        self.round(&mut outlet);
        outlet.change(writer);
        self.round(&mut outlet);
        true
    }

    /// Writes the line of an event that happened now, about the neighbour of this number. Not to be called by a thread that has
    /// locked a hub or a desk.
    pub fn note<C: Clock>(&self, clock: &C, now: Moment, neighbour: usize, event: &Event<'_>) {
        let kind = event.kind();
        match self.verdict(clock, now, kind, neighbour) {
            Some(Verdict::Write { more }) => {
                if more > 0 {
                    self.write(clock, now, neighbour, &Event::More { kind, count: more });
                }
                self.write(clock, now, neighbour, event);
            }
            Some(Verdict::LeaveOut) => {}
            None => self.miss(1),
        }
    }

    /// Writes how many events were left out and are not reported yet. To be called now and then, as each minute, and at the end.
    pub fn catch_up<C: Clock>(&self, clock: &C, now: Moment) {
        let last = match within(clock, &self.pace) {
            Some(pace) => pace.last(),
            None => return,
        };
        for neighbour in 0..=last {
            for place in 0..KINDS {
                let kind = Kind::ALL[place];
                if let Some(left) = self.left(clock, kind, neighbour as usize) {
                    let Left {
                        kind,
                        neighbour,
                        count,
                    } = left;
                    self.write(clock, now, neighbour, &Event::More { kind, count });
                }
            }
        }
    }

    /// Writes the line of the command's end, and what waits before it. If the writer accepts no more, it is waited for: half a
    /// second for room for the line, and half a second for all lines to be written.
    pub fn finish<C: Clock>(&self, clock: &C, now: Moment, event: &Event<'_>) {
        // (room for two lines, since one with the number of lost events may precede it)
        self.settle(clock, MOST_LINES - 2);
        self.note(clock, now, 0, event);
        self.settle(clock, 0);
    }

    /// Waits until at most `most` lines wait, for half a second at most, and not if a write fails.
    fn settle<C: Clock>(&self, clock: &C, most: usize) {
        for _ in 0..LAST_TRIES {
            let Some(mut outlet) = within(clock, &self.outlet) else {
                return;
            };
            let is_over = self.round(&mut outlet) != Round::Later || outlet.queue.len() <= most;
            drop(outlet);
            if is_over {
                return;
            }
            thread::sleep(clock, Duration::from_millis(PAUSE));
        }
    }

    /// What is to be done with an event. `None` if that is not known in time.
    fn verdict<C: Clock>(
        &self,
        clock: &C,
        now: Moment,
        kind: Kind,
        neighbour: usize,
    ) -> Option<Verdict> {
        let mut pace = within(clock, &self.pace)?;
        Some(pace.lets(kind, neighbour, second_of(now)))
    }

    /// The events of a kind from a neighbour that are to be reported.
    fn left<C: Clock>(&self, clock: &C, kind: Kind, neighbour: usize) -> Option<Left> {
        let mut pace = within(clock, &self.pace)?;
        pace.tell(kind, neighbour)
    }

    /// Counts events as lost.
    fn miss(&self, count: u64) {
        self.missed.fetch_add(count, Ordering::SeqCst);
    }

    /// A round of writing.
    fn round(&self, outlet: &mut Outlet<W>) -> Round {
        let round = outlet.round();
        self.has_failed
            .store(round == Round::Failed, Ordering::SeqCst);
        round
    }

    /// Writes the line of an event after those that wait, or lets it wait. Its events are counted as lost if memory is
    /// refused, another thread writes for too long, or it finds no room.
    fn write<C: Clock>(&self, clock: &C, now: Moment, neighbour: usize, event: &Event<'_>) {
        let count = events_of(event);
        let Ok(text) = line(self.alloc, now, neighbour, event) else {
            return self.miss(count);
        };
        let Some(mut outlet) = within(clock, &self.outlet) else {
            return self.miss(count);
        };
        outlet.queue.lose(self.missed.swap(0, Ordering::SeqCst));
        self.round(&mut outlet);
        // If memory for the line of what was lost is refused, the events of this one are lost, too.
        let _ = outlet.queue.add(self.alloc, now, Line { text }, count);
        self.round(&mut outlet);
    }
}
