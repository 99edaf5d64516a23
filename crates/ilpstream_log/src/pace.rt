//! How many lines are written of one kind from one neighbour.

ghost use Rattle.std.specs.Prelude.{◌≡◌, ◌<◌, ◌+◌, ◌*◌, IfOk, IfSome, None, Some, replicate};
ghost use Rattle.ilpstream_log.specs.Pacing as spec;
ghost use Rattle.ilpstream_log.specs.Pacing.{Paces, Tells, empty, slot_place, ChangesAt};

use crate::event::{KINDS, Kind};
use std::alloc::{AllocError, Global};

/// The most lines in one second of one kind from one neighbour.
pub const LINES_A_SECOND: u64 = 10;

/// What to do with an event.
#[derive(Clone, Copy)]
pub enum Verdict {
    /// Write its line, after one with the number of those left out before, if that number is not 0.
    Write {
        /// How many were left out since the last line of this kind from this neighbour.
        more: u64,
    },
    /// Write nothing. It was counted.
    LeaveOut,
}

/// What is counted of one kind from one neighbour.
#[derive(Clone, Copy)]
pub(crate) struct Slot {
    /// The second in which the last line was written.
    second: u64,
    /// How many lines were written in it.
    written: u64,
    /// How many events were left out since, and not reported yet.
    left: u64,
}

/// Events that were left out, and are reported now.
#[derive(Clone, Copy)]
pub struct Left {
    /// Their kind.
    pub kind: Kind,
    /// From which neighbour.
    pub neighbour: usize,
    /// Their number: at least 1.
    pub count: u64,
}

impl Slot {
    /// Nothing was written.
    fn empty() -> Slot
        ensures { result ≡ empty }
    {
        Slot {
            second: 0,
            written: 0,
            left: 0,
        }
    }

    /// Whether the line of an event in this second is written.
    fn lets(&mut self, second: u64) -> Verdict
        ensures { Paces self.old second result self.new }
    {
        let written = if second == self.second {
            self.written
        } else {
            0
        };
        if written >= LINES_A_SECOND {
            self.left = self.left.saturating_add(1);
            return Verdict::LeaveOut;
        }
        let more = self.left;
        *self = Slot {
            second,
            written: written + 1,
            left: 0,
        };
        Verdict::Write { more }
    }

    /// The number of those that were left out and not reported yet. They count as reported now.
    fn tell(&mut self) -> u64
        ensures { Tells self.old result self.new }
    {
        let left = self.left;
        self.left = 0;
        left
    }
}

/// What is counted of all kinds from all neighbours.
#[derive(Drop)]
pub struct Pace {
    /// The greatest number of a neighbour that has places of its own. Those above share its places.
    last: u32,
    /// For each neighbour one for each kind.
    slots: Vec<Slot>,
}

impl Pace {
    /// Nothing was counted. `last` is the greatest number of a neighbour.
    pub fn new(alloc: Global, last: u32) -> Result<Pace, AllocError>
        ensures last { IfOk result (λ pace. pace.last ≡ last) }
        ensures slots { IfOk result (λ pace. pace.slots.items ≡ replicate ((last + 1) * 14) empty) }
    {
        let count = (last as usize + 1) * KINDS;
        let slots = Vec::from_elem(alloc, Slot::empty(), count)?;
        Ok(Pace { last, slots })
    }

    /// The place at which events of this kind from this neighbour are counted.
    fn place(&self, kind: Kind, neighbour: usize) -> usize
        ensures { result ≡ slot_place self.now.last kind neighbour }
    {
        neighbour.min(self.last as usize) * KINDS + kind.place()
    }

    /// Whether the line of an event of this kind from this neighbour in this second is written: if fewer than ten were.
    /// Otherwise the event is counted.
    pub fn lets(&mut self, kind: Kind, neighbour: usize, second: u64) -> Verdict
        ensures last { self.new.last ≡ self.old.last }
        ensures paced { ChangesAt (slot_place self.old.last kind neighbour) self.old.slots.items self.new.slots.items
            (result ≡ Verdict.Write 0) (λ old new. Paces old second result new) }
    {
        let place = self.place(kind, neighbour);
        match self.slots.get_mut(place) {
            Some(slot) => slot.lets(second),
            None => Verdict::Write { more: 0 },
        }
    }

    /// Reports the events left out at one place, and sets their count to 0. `None` if none are left out there.
    pub fn tell(&mut self, kind: Kind, neighbour: usize) -> Option<Left>
        ensures last { self.new.last ≡ self.old.last }
        ensures told { ChangesAt (slot_place self.old.last kind neighbour) self.old.slots.items self.new.slots.items
            (result ≡ None) (λ old new. Tells old (spec.told_in result) new) }
        ensures whose { IfSome result (λ left. (left.kind ≡ kind) × (left.neighbour ≡ neighbour) × (0 < left.count)) }
    {
        let place = self.place(kind, neighbour);
        let count = match self.slots.get_mut(place) {
            Some(slot) => slot.tell(),
            None => 0,
        };
        if count == 0 {
            return None;
        }
        Some(Left {
            kind,
            neighbour,
            count,
        })
    }

    /// The greatest number of a neighbour that has places of its own.
    pub fn last(&self) -> u32
        ensures { result ≡ self.now.last }
    {
        self.last
    }
}
