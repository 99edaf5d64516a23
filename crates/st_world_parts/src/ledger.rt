//! What was written and read of each stream, by direction.

ghost use Rattle.std.specs.Prelude.{◌≡◌, IfOk, MatchOption, Some, None, replicate};
ghost use Rattle.std.specs.FinMap as fmap;
ghost use Rattle.st_world_parts.specs.StreamLogs.{ledger_or};

use std::alloc::{AllocError, Allocator};
use std::marker::Model;

/// How many numbers a call can name.
const NUMBERS: usize = 256;

/// What was written and read of a stream in one direction, and how its reader learned of its end.
pub struct StreamLog<A: Allocator + Copy> {
    pub(crate) written: Vec<u8, A>,
    pub(crate) read: Vec<u8, A>,
    pub(crate) clean: bool,
    pub(crate) aborted: bool,
    pub(crate) saw_end: bool,
    pub(crate) saw_abort: bool,
}

// It is written out, so that a caller does not prove again how each part is dropped.
impl<A: Allocator + Copy> Drop for StreamLog<A> {
    fn drop(self) {
        let StreamLog {
            written: _,
            read: _,
            clean: _,
            aborted: _,
            saw_end: _,
            saw_abort: _,
        } = self;
    }
}

impl<A: Allocator + Copy> Model for StreamLog<A> {
    ghost use Rattle.st_world_parts.specs.StreamLogs as ledgers;
    ghost use Rattle.std.specs.Coded.{codes};

    ghost Value = { ledgers.StreamLog };

    ghost coded = { Prim.hlevel (codes) };

    ghost view = { λ a. record { written = a.written.items; read = a.read.items; clean = a.clean; aborted = a.aborted; saw_end = a.saw_end; saw_abort = a.saw_abort } };
}

impl<A: Allocator + Copy> StreamLog<A> {
    /// Nothing happened.
    fn new(alloc: A) -> StreamLog<A>
        ensures { result ≡ ledger_or None }
    {
        StreamLog {
            written: Vec::new(alloc),
            read: Vec::new(alloc),
            clean: false,
            aborted: false,
            saw_end: false,
            saw_abort: false,
        }
    }

    /// The bytes of all accepted writes, joined.
    pub fn written(&self) -> &[u8]
        ensures { result.now ≡ self.now.written }
    {
        self.written.as_slice()
    }

    /// The bytes of all reads, joined.
    pub fn read(&self) -> &[u8]
        ensures { result.now ≡ self.now.read }
    {
        self.read.as_slice()
    }

    /// Whether a clean close was accepted.
    pub fn is_closed(&self) -> bool
        ensures { result ≡ self.now.clean }
    {
        self.clean
    }

    /// Whether an abort was accepted.
    pub fn is_aborted(&self) -> bool
        ensures { result ≡ self.now.aborted }
    {
        self.aborted
    }

    /// Whether a read gave the end of the stream.
    pub fn saw_end(&self) -> bool
        ensures { result ≡ self.now.saw_end }
    {
        self.saw_end
    }

    /// Whether a read gave an abort of the stream.
    pub fn saw_abort(&self) -> bool
        ensures { result ≡ self.now.saw_abort }
    {
        self.saw_abort
    }
}

/// The place of one stream's ledger. A ledger that is not there yet can have room for what it is to take.
#[derive(Drop)]
pub(crate) struct Slot<A: Allocator + Copy> {
    pub(crate) ledger: StreamLog<A>,
    pub(crate) is_there: bool,
}

impl<A: Allocator + Copy> Model for Slot<A> {
    ghost use Rattle.std.specs.Prelude.{◌≡◌, false, cond, Some, None, Option};
    ghost use Rattle.st_world_parts.specs.StreamLogs as ledgers;
    ghost use Rattle.std.specs.Coded.{codes};

    ghost Value = { Option ledgers.StreamLog };

    ghost coded = { Prim.hlevel (codes) };

    ghost view = { λ s. cond s.is_there (Some s.ledger) None };

    ghost invariant = { λ s. s.is_there ≡ false → s.ledger ≡ ledgers.new_ledger };
}

/// The ledgers of all streams in one direction.
#[derive(Drop)]
pub struct StreamLogs<A: Allocator + Copy> {
    pub(crate) slots: Vec<Slot<A>, A>,
}

impl<A: Allocator + Copy> Model for StreamLogs<A> {
    ghost use Rattle.std.specs.Prelude.{◌≡◌, length};
    ghost use Rattle.std.specs.Ordering.{nat_cmp};
    ghost use Rattle.std.specs.FinMap as map;
    ghost use Rattle.std.specs.Coded.{codes};
    ghost use Rattle.st_world_parts.specs.StreamLogs as ledgers;
    ghost use Rattle.st_world_parts.specs.Kept.{all_from};

    ghost Value = { map.FinMap nat_cmp ledgers.StreamLog };

    ghost coded = { Prim.hlevel (codes, map.code) };

    ghost view = { λ a. all_from 0 a.slots.items };

    ghost invariant = { λ a. length a.slots.items ≡ 256 };
}

/// Places for ledgers, all empty.
fn no_ledgers<A: Allocator + Copy>(alloc: A, places: usize) -> Result<Vec<Slot<A>, A>, AllocError>
    ensures { IfOk result (λ v. v.items ≡ replicate places None) }
{
    let mut slots = Vec::with_capacity(alloc, places)?;
    for place in 0..places {
        slots.push(Slot {
            ledger: StreamLog::new(alloc),
            is_there: false,
        })?;
    }
    Ok(slots)
}

impl<A: Allocator + Copy> StreamLogs<A> {
    /// The ledgers of streams on which nothing was written or read. Fails if memory is refused.
    pub fn new(alloc: A) -> Result<StreamLogs<A>, AllocError>
        ensures { IfOk result (λ l. l ≡ fmap.empty) }
    {
        Ok(StreamLogs {
            slots: no_ledgers(alloc, NUMBERS)?,
        })
    }

    /// The ledger of a stream. `None` if nothing was accepted or read of it.
    pub fn get(&self, stream: u8) -> Option<&StreamLog<A>>
        ensures { MatchOption result (fmap.get self.now stream ≡ None) (λ x. fmap.get self.now stream ≡ Some x.now) }
    {
        let slot = &self.slots[usize::from(stream)];
        if slot.is_there {
            Some(&slot.ledger)
        } else {
            None
        }
    }
}
