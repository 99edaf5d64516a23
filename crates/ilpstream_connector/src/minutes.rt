//! The reports of a connector while it runs.

use crate::accounts::{AccountTotals, note};
use crate::counts::{Counts, counts_now};
use crate::crew::Crew;
use st_hop_desk::HopDesk;
use std::alloc::Global;
use std::sync::ledger::Ledger;
use std::sync::{Mutex, Wait};

/// What a connector is asked while it runs.
#[derive(Clone, Copy)]
pub enum Order {
    /// Nothing, for now.
    Nothing,
    /// Something that was done by whoever gives the order. More may follow.
    Done,
    /// To report what it has of its accounts, as each period.
    Report,
    /// To accept no further connection, to finish those that it has, and to end then.
    Stop,
    /// The same, but the listener stays as it is: connections wait there for whoever accepts next.
    Pause,
}

/// Receives the reports that a connector makes each period of its accounts, while it runs, and may ask the connector for
/// something.
pub trait Minutes {
    /// Whether the connector may be asked for something. Then it checks for the next order each 200 milliseconds.
    fn is_asked(&self) -> bool {
        false
    }

    /// The next thing that the connector is asked for. It is not to wait. No lock is kept meanwhile, but no thread is made.
    fn next_order(&mut self) -> Order {
        Order::Nothing
    }

    /// A period is over. `totals` and `counts` are copies, by the account's place, and `overloaded` is how many Prepares
    /// were answered with T00 because too many threads were busy. No lock is kept meanwhile, but no thread is made.
    fn minute(&mut self, totals: &[AccountTotals], counts: &Counts, overloaded: u64);
}

/// Reports nothing, and asks for nothing.
#[derive(Clone, Copy)]
pub struct NoMinutes;

impl Minutes for NoMinutes {
    fn minute(&mut self, _: &[AccountTotals], _: &Counts, _: u64) {}
}

// Each function here that acquires a lock releases it before it returns.

fn note_now<C: Ledger, D: Ledger>(
    rt: &impl Wait,
    desk: &Mutex<HopDesk<C, D, Global>>,
    totals: &mut [AccountTotals],
) {
    note(desk.lock(rt).hop(), totals);
}

/// Reports what a connector has now, for which `totals` has places. Reports nothing if memory for a copy is refused.
pub(crate) fn tell_minute<C: Ledger, D: Ledger, M: Minutes>(
    rt: &impl Wait,
    alloc: Global,
    desk: &Mutex<HopDesk<C, D, Global>>,
    counts: &Mutex<Counts>,
    crew: &Crew,
    totals: &mut [AccountTotals],
    minutes: &mut M,
) {
    note_now(rt, desk, totals);
    if let Ok(counts) = counts_now(rt, alloc, counts) {
        minutes.minute(totals, &counts, crew.overloaded(rt));
    }
}
