//! For tests: readers and writers of which one chosen call fails.

ghost use Rattle.std.specs.Prelude.{◌≡◌, ◌↔◌, IsTrue};
ghost use Rattle.std.specs.Io.{ReadsAtMost, WritesAtMost};
ghost use Rattle.std.specs.Io.KnownBytes.{Keeps, ReadConsumes, WriteAppends};
ghost use Rattle.st_devices.specs.FailAt.{FailsAlone, IsDue, device_behind, failing_call, tally_in_all};
ghost use Rattle.st_devices.specs.Tallies.{CountsCall, device_of, no_calls, tally_of};

use crate::counted::{Counted, Counting};
use crate::tally::Tally;
use std::io;
use std::io::{ErrorKind, Read, Write};

/// A reader, a writer or both, of which one chosen call fails with an error of kind `Other`.
///
/// The failed call is counted and does not reach the device; every other call does. Calls are numbered from 1, reads,
/// writes and flushes together.
#[derive(Drop)]
pub struct FailAt<T> {
    device: Counting<T>,
    tally: Tally,
    fails_at: u64,
}

impl<T> FailAt<T> {
    /// Wraps a device so that its call number `k` fails. Where `k` is 0 no call fails.
    pub fn new(inner: T, k: u64) -> Self
        ensures device { device_of (device_behind result) ≡ inner }
        ensures through { tally_of (device_behind result) ≡ no_calls }
        ensures tally { tally_in_all result ≡ no_calls }
        ensures number { failing_call result ≡ k }
    {
        FailAt {
            device: Counting::new(inner),
            tally: Tally::none(),
            fails_at: k,
        }
    }

    /// The counts so far, with the call that failed on purpose.
    pub fn tally(&self) -> Tally
        ensures { result ≡ tally_in_all self.now }
    {
        self.tally
    }

    /// Gives the device back, without the counts.
    pub fn into_inner(self) -> T
        ensures { result ≡ device_of (device_behind self) }
    {
        self.device.into_inner()
    }

    /// Whether the next call fails.
    fn is_due(&self) -> bool
        ensures { IsTrue result ↔ IsDue self.now }
    {
        0 < self.fails_at && self.tally.calls == self.fails_at - 1
    }
}

impl<T> Counted for FailAt<T> {
    ghost fault_count = { λ s. (tally_in_all s).faults };

    fn faults(&self) -> u64 {
        self.tally.faults
    }
}

impl<T: Read> Read for FailAt<T> {
    ghost remaining = { λ s. T.remaining (device_of (device_behind s)) };

    fn read(&mut self, buf: &mut [u8]) -> io::Result<usize>
        ensures bound { ReadsAtMost result buf.new }
        ensures bytes { ReadConsumes (T.remaining (device_of (device_behind self.old))) (T.remaining (device_of (device_behind self.new))) result buf.new }
        ensures counts { CountsCall (tally_in_all self.old) (tally_in_all self.new) result }
        ensures number { failing_call self.new ≡ failing_call self.old }
        ensures fails { IsDue self.old → FailsAlone self.old self.new result }
        ensures goes_through { ¬ (IsDue self.old) → CountsCall (tally_of (device_behind self.old)) (tally_of (device_behind self.new)) result }
    {
        let result = if self.is_due() {
            Err(io::Error::from(ErrorKind::Other))
        } else {
            self.device.read(buf)
        };
        self.tally.count(&result);
        result
    }
}

impl<T: Write> Write for FailAt<T> {
    ghost contents = { λ s. T.contents (device_of (device_behind s)) };

    fn write(&mut self, buf: &[u8]) -> io::Result<usize>
        ensures bound { WritesAtMost result buf.now }
        ensures bytes { WriteAppends (T.contents (device_of (device_behind self.old))) (T.contents (device_of (device_behind self.new))) result buf.now }
        ensures counts { CountsCall (tally_in_all self.old) (tally_in_all self.new) result }
        ensures number { failing_call self.new ≡ failing_call self.old }
        ensures fails { IsDue self.old → FailsAlone self.old self.new result }
        ensures goes_through { ¬ (IsDue self.old) → CountsCall (tally_of (device_behind self.old)) (tally_of (device_behind self.new)) result }
    {
        let result = if self.is_due() {
            Err(io::Error::from(ErrorKind::Other))
        } else {
            self.device.write(buf)
        };
        self.tally.count(&result);
        result
    }

    fn flush(&mut self) -> io::Result<()>
        ensures bytes { Keeps (T.contents (device_of (device_behind self.old))) (T.contents (device_of (device_behind self.new))) }
        ensures counts { CountsCall (tally_in_all self.old) (tally_in_all self.new) result }
        ensures number { failing_call self.new ≡ failing_call self.old }
        ensures fails { IsDue self.old → FailsAlone self.old self.new result }
        ensures goes_through { ¬ (IsDue self.old) → CountsCall (tally_of (device_behind self.old)) (tally_of (device_behind self.new)) result }
    {
        let result = if self.is_due() {
            Err(io::Error::from(ErrorKind::Other))
        } else {
            self.device.flush()
        };
        self.tally.count(&result);
        result
    }
}
