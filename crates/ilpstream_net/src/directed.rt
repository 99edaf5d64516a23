//! What a receiver is asked while it runs.

ghost use Rattle.std.specs.Prelude.{◌≡◌};

use crate::control::{Asked, Control};
use crate::progress::Teller;
use ilpstream_log::{Blocked, Brief};
use ilpstream_serving::Watch;
use st_streams::EndTotals;
use std::fs::{File, Files};
use std::time::{Clock, Duration};

/// How many lines there may be at one look of a receiver.
const MOST_LINES: u32 = 64;

/// How many milliseconds pass between two looks of a receiver.
const LOOK_MILLIS: u64 = 200;

/// Reports the progress of a receiver, and reads what it is asked while it runs.
#[derive(Drop)]
pub struct Directed<'a, N> {
    teller: Teller<'a, N>,
    pub control: Option<Control<'a, N>>,
    /// The name of the file for its totals, if there is one.
    totals: Option<&'a str>,
    is_stopped: bool,
}

impl<'a, N: Files<File = File> + Clock> Directed<'a, N> {
    /// The reports of this teller, and what is asked by this pipe, if there is one.
    pub fn new(
        teller: Teller<'a, N>,
        control: Option<Control<'a, N>>,
        totals: Option<&'a str>,
    ) -> Directed<'a, N>
        ensures { result.control ≡ control.entry }
    {
        Directed {
            teller,
            control,
            totals,
            is_stopped: false,
        }
    }

    /// Does what is asked.
    fn obey(&mut self, totals: &EndTotals) {
        for _ in 0..MOST_LINES {
            let Some(control) = &mut self.control else {
                return;
            };
            match control.next() {
                None => return,
                Some(Some(Asked::Stop)) => self.is_stopped = true,
                Some(Some(Asked::Totals)) => self.teller.put_now(self.totals, totals),
                Some(_) => {}
            }
        }
    }
}

impl<N: Files<File = File> + Clock> Watch for Directed<'_, N> {
    fn period(&self) -> Option<Duration> {
        let period = self.teller.period();
        if self.control.is_none() {
            return period;
        }
        let look = Duration::from_millis(LOOK_MILLIS);
        Some(period.map_or(look, |period| period.min(look)))
    }

    fn look(&mut self, totals: &EndTotals, waits: Option<Blocked>, last: Option<Brief>) {
        self.teller.look(totals, waits, last);
        self.obey(totals);
    }

    fn is_stopped(&self) -> bool {
        self.is_stopped
    }

    fn end(&mut self) {
        self.teller.end();
    }
}
