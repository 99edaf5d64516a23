//! Points in time.

ghost use Rattle.std.specs.Prelude.{◌≡◌, MatchOption};
ghost use Rattle.st_ilp.specs.Moments.{IsMoment};

use std::marker::Model;

/// The last moment, in milliseconds since the start of 1970.
const LAST: i64 = 253_402_300_000_000;

/// A point in time in whole milliseconds since 1970-01-01 00:00 UTC: 0 to 253,402,300,000,000.
#[derive(Clone, Copy, Debug, PartialEq, Eq)]
pub struct Moment {
    millis: i64,
}

impl Model for Moment {
    ghost use Rattle.std.specs.Prelude.{ℤ};
    ghost use Rattle.st_ilp.specs.Moments.{IsMoment};

    ghost Value = { ℤ };

    ghost view = { λ m. m.millis };

    ghost inverse = { λ millis. record { millis = millis } };

    ghost invariant = { λ m. IsMoment m.millis };
}

impl Moment {
    /// The point in time `ms` milliseconds after 1970-01-01 00:00 UTC. `None` outside 0 to 253,402,300,000,000.
    pub fn new(ms: i64) -> Option<Moment>
        ensures { MatchOption result (¬ (IsMoment ms)) (λ moment. (moment ≡ ms) × IsMoment ms) }
    {
        if (0..=LAST).contains(&ms) {
            Some(Moment { millis: ms })
        } else {
            None
        }
    }

    /// The milliseconds since 1970-01-01 00:00 UTC.
    pub fn ms(&self) -> i64
        ensures value { result ≡ self.now }
        ensures range { IsMoment result }
    {
        self.millis
    }
}
