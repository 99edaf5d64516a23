//! Readers and writers that count their calls and their errors.

ghost use Rattle.std.specs.Prelude.{◌≡◌, ℕ, true, false, OnOk};
ghost use Rattle.std.specs.Io.{ReadsAtMost, WritesAtMost};
ghost use Rattle.std.specs.Io.KnownBytes.{Keeps, ReadConsumes, WriteAppends};
ghost use Rattle.st_devices.specs.Tallies.{CountsCall, device_of, no_calls, tally_of};

use crate::tally::Tally;
use std::io;
use std::io::{Read, Write};

/// A device that counts its I/O errors. An error of kind `Interrupted` is not counted: that call is to be repeated.
pub trait Counted {
    // How many errors there were, as far as the count goes.
    ghost fault_count: { Self → ℕ };

    /// The number of calls that failed, interrupted calls left out. The count stops at `u64::MAX`.
    fn faults(&self) -> u64
        ensures { result ≡ fault_count self.now };
}

/// A reader, a writer or both, with a count of its I/O calls and of their errors.
#[derive(Drop)]
pub struct Counting<T> {
    inner: T,
    tally: Tally,
}

/// A reader with a count of its I/O calls and of their errors.
pub type CountRead<T> = Counting<T>;

/// A writer with a count of its I/O calls and of their errors.
pub type CountWrite<T> = Counting<T>;

impl<T> Counting<T> {
    /// Wraps a device, with all counts at 0.
    pub fn new(inner: T) -> Self
        ensures device { device_of result ≡ inner }
        ensures tally { tally_of result ≡ no_calls }
    {
        Counting {
            inner,
            tally: Tally::none(),
        }
    }

    /// The counts so far, and whether the device is flushed.
    pub fn tally(&self) -> Tally
        ensures { result ≡ tally_of self.now }
    {
        self.tally
    }

    /// Gives the device back, without the counts.
    pub fn into_inner(self) -> T
        ensures { result ≡ device_of self }
    {
        self.inner
    }
}

impl<T> Counted for Counting<T> {
    ghost fault_count = { λ s. (tally_of s).faults };

    fn faults(&self) -> u64 {
        self.tally.faults
    }
}

impl<T: Read> Read for Counting<T> {
    ghost remaining = { λ s. T.remaining (device_of s) };

    fn read(&mut self, buf: &mut [u8]) -> io::Result<usize>
        ensures bound { ReadsAtMost result buf.new }
        ensures bytes { ReadConsumes (T.remaining (device_of self.old)) (T.remaining (device_of self.new)) result buf.new }
        ensures counts { CountsCall (tally_of self.old) (tally_of self.new) result }
        ensures flushed { (tally_of self.new).flushed ≡ (tally_of self.old).flushed }
    {
        let result = self.inner.read(buf);
        self.tally.count(&result);
        result
    }
}

impl<T: Write> Write for Counting<T> {
    ghost contents = { λ s. T.contents (device_of s) };

    fn write(&mut self, buf: &[u8]) -> io::Result<usize>
        ensures bound { WritesAtMost result buf.now }
        ensures bytes { WriteAppends (T.contents (device_of self.old)) (T.contents (device_of self.new)) result buf.now }
        ensures counts { CountsCall (tally_of self.old) (tally_of self.new) result }
        ensures waiting { OnOk result ((tally_of self.new).flushed ≡ false) }
    {
        let result = self.inner.write(buf);
        self.tally.count(&result);
        if result.is_ok() {
            self.tally.flushed = false;
        }
        result
    }

    fn flush(&mut self) -> io::Result<()>
        ensures bytes { Keeps (T.contents (device_of self.old)) (T.contents (device_of self.new)) }
        ensures counts { CountsCall (tally_of self.old) (tally_of self.new) result }
        ensures flushed { OnOk result ((tally_of self.new).flushed ≡ true) }
    {
        let result = self.inner.flush();
        self.tally.count(&result);
        if result.is_ok() {
            self.tally.flushed = true;
        }
        result
    }
}
