//! The present moment, from the runtime's clock.

ghost use Rattle.std.specs.Prelude.{◌≡◌, ◌⊎◌, ◌/◌, ◌≤◌, ℕ, pos, MatchOption};
ghost use Rattle.std.specs.Duration.{as_nanos};
ghost use Rattle.ilpstream_serving.specs.Moments.{IsMomentOf, Tells, followed, last_told, step_back};

use crate::telling::{Log, tell_set_back};
use st_ilp::Moment;
use st_links::Clock;
use std::io;
use std::sync::{Mutex, Wait};
use std::time::Duration;

/// By how many milliseconds a runtime's clock may be set back and the moment that was given last is kept. One that was set
/// back by more is followed.
const MOST_KEPT: i64 = 5_000;

/// What a clock gives for one reading.
#[derive(Clone, Copy)]
struct Present {
    moment: Moment,
    /// By how many milliseconds the runtime's clock was set back, if it is followed.
    set_back: Option<u64>,
}

/// The moment that a clock gave last; at first, the start of 1970.
#[derive(Clone, Copy)]
pub struct LastMoment {
    moment: Moment,
}

/// The moment that lies this long after the start of 1970, in whole milliseconds. `None` if there is no such
/// `Moment`.
fn moment_of(since: Duration) -> Option<Moment>
    ensures { MatchOption result ((ms : ℕ) → ¬ (IsMomentOf since ms)) (λ moment. (ms : ℕ) × IsMomentOf since ms × (moment ≡ pos ms)) }
{
    let millis = i64::try_from(since.as_millis()).ok()?;
    Moment::new(millis)
}

impl LastMoment {
    /// None was given yet.
    pub fn none() -> LastMoment
        ensures { result.moment ≡ pos 0 }
    {
        let Some(moment) = Moment::new(0) else {
            unreachable!();
        };
        LastMoment { moment }
    }

    /// The moment for this one, which was read of the runtime's clock. If that is earlier than the last one by at most five
    /// seconds, it is the last one again.
    fn follow(&mut self, read: Moment) -> Present
        ensures moment { result.moment ≡ followed self.old.moment read }
        ensures set_back { result.set_back ≡ step_back self.old.moment read }
        ensures last { self.new.moment ≡ result.moment }
    {
        let back = self.moment.ms() - read.ms();
        if back > MOST_KEPT {
            self.moment = read;
            return Present {
                moment: read,
                set_back: Some(back.unsigned_abs()),
            };
        }
        if self.moment.ms() < read.ms() {
            self.moment = read;
        }
        Present {
            moment: self.moment,
            set_back: None,
        }
    }

    /// The moment for one reading of the runtime's clock: what was read. If that is earlier than the last one by at most
    /// five seconds, could not be read, or is past the last `Moment`, it is the last one again.
    fn tell(&mut self, read: io::Result<Duration>) -> Present
        ensures told { Tells self.old.moment read result.moment result.set_back }
        ensures last { self.new.moment ≡ result.moment }
    {
        let kept = Present {
            moment: self.moment,
            set_back: None,
        };
        let Ok(since) = read else {
            return kept;
        };
        match moment_of(since) {
            Some(moment) => self.follow(moment),
            None => kept,
        }
    }
}

/// The moment that it is now. If the runtime's clock cannot be read, or is past the last `Moment`, the start of 1970.
pub(crate) fn moment_now(rt: &impl std::time::Clock) -> Moment {
    LastMoment::none().tell(rt.since_1970()).moment
}

/// A clock that gives the moments of a runtime's clock, in milliseconds since the start of 1970 (UTC). If that was set
/// back by at most five seconds, cannot be read, or is past the last `Moment`, it gives the moment that it gave last; at
/// first, the start of 1970. One that was set back by more is followed, and that is reported to the log.
#[derive(Drop)]
pub struct RuntimeClock<'a, R: std::time::Clock> {
    rt: &'a R,
    last: LastMoment,
    log: Log<'a>,
}

impl<'a, R: std::time::Clock> RuntimeClock<'a, R> {
    /// Makes a clock over a runtime that has given no moment yet, without a log.
    pub fn new(rt: &'a R) -> RuntimeClock<'a, R>
        ensures { last_told result ≡ pos 0 }
    {
        RuntimeClock::with_log(rt, None)
    }

    /// The same with a log.
    pub fn with_log(rt: &'a R, log: Log<'a>) -> RuntimeClock<'a, R>
        ensures { last_told result ≡ pos 0 }
    {
        RuntimeClock {
            rt,
            last: LastMoment::none(),
            log,
        }
    }
}

impl<R: std::time::Clock> Clock for RuntimeClock<'_, R> {
    fn now(&mut self) -> Moment
        ensures { last_told self.new ≡ result }
    {
        let read = self.rt.since_1970();
        let present = self.last.tell(read);
        tell_set_back(self.rt, self.log, present.set_back);
        present.moment
    }
}

/// A clock of one of several threads, which have the moment that was given last in common: so a clock that was set back is
/// followed once, by all of them, and that is reported once.
#[derive(Drop)]
pub struct SharedClock<'a, R: std::time::Clock + Wait> {
    pub rt: &'a R,
    pub last: &'a Mutex<LastMoment>,
    pub log: Log<'a>,
}

impl<R: std::time::Clock + Wait> SharedClock<'_, R> {
    /// Reads the runtime's clock while no other thread does. The lock is released before it returns.
    fn read(&self) -> Present {
        let mut last = self.last.lock(self.rt);
        last.tell(self.rt.since_1970())
    }
}

impl<R: std::time::Clock + Wait> Clock for SharedClock<'_, R> {
    fn now(&mut self) -> Moment {
        let present = self.read();
        tell_set_back(self.rt, self.log, present.set_back);
        present.moment
    }
}
