//! Counts of a device's I/O calls.

ghost use Rattle.std.specs.Prelude.{◌≡◌};
ghost use Rattle.st_devices.specs.Tallies.{CountsCall, no_calls};

use std::io;
use std::io::ErrorKind;

/// Counts of a device's I/O calls: all, failed and interrupted ones. Each count stops at `u64::MAX`. It also says
/// whether everything written is flushed.
#[derive(Clone, Copy, Debug, PartialEq, Eq)]
pub struct Tally {
    /// The number of all calls: reads, writes and flushes.
    pub calls: u64,
    /// The number of calls that failed, interrupted calls left out.
    pub faults: u64,
    /// The number of calls that failed with an error of kind `Interrupted` and are to be repeated.
    pub interruptions: u64,
    /// Whether no write succeeded since the last successful flush, or since the device was wrapped.
    pub flushed: bool,
}

impl Tally {
    /// All counts at 0.
    pub(crate) fn none() -> Self
        ensures { result ≡ no_calls }
    {
        Tally {
            calls: 0,
            faults: 0,
            interruptions: 0,
            flushed: true,
        }
    }

    /// Counts a call by its result.
    pub(crate) fn count<T>(&mut self, answer: &io::Result<T>)
        ensures counts { CountsCall self.old self.new answer.now }
        ensures flushed { self.new.flushed ≡ self.old.flushed }
    {
        self.calls = self.calls.saturating_add(1);
        if let Err(e) = answer {
            if e.kind() == ErrorKind::Interrupted {
                self.interruptions = self.interruptions.saturating_add(1);
            } else {
                self.faults = self.faults.saturating_add(1);
            }
        }
    }
}
