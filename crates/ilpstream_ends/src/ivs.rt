//! Sources of IVs.

ghost use Rattle.std.specs.Prelude.{◌≡◌, IfSome, MatchOption};
ghost use Rattle.std.specs.Io.KnownBytes.{Consumes};
ghost use Rattle.st_devices.specs.Faults.{count_after};

use st_devices::Counted;
use st_hub::Ivs;
use std::io::Read;
use std::sync::{Mutex, Wait};

/// A source of IVs of 12 bytes each, read from a reader such as a device of random bytes. It gives none if the
/// reader fails, or ends before the twelfth byte.
#[derive(Drop)]
pub struct ReaderIvs<G> {
    reader: G,
    /// How often it gave none. At `u64::MAX` the count stays.
    refused: u64,
}

impl<G: Read> ReaderIvs<G> {
    /// Makes a source of IVs from a reader.
    pub fn new(reader: G) -> ReaderIvs<G> {
        ReaderIvs { reader, refused: 0 }
    }
}

impl<G: Read> Counted for ReaderIvs<G> {
    ghost fault_count = { λ s. s.refused };

    fn faults(&self) -> u64 {
        self.refused
    }
}

impl<G: Read> Ivs for ReaderIvs<G> {
    // The next twelve bytes of the reader.
    ghost gives = { λ old iv new. Consumes (G.remaining old.reader) (G.remaining new.reader) iv };

    fn next_iv(&mut self) -> Option<[u8; 12]>
        ensures given { IfSome result (λ iv. Consumes (G.remaining self.old.reader) (G.remaining self.new.reader) iv) }
        ensures counted { MatchOption result (self.new.refused ≡ count_after 1 self.old.refused) (λ _. self.new.refused ≡ self.old.refused) }
    {
        let mut iv = [0; 12];
        match self.reader.read_exact(&mut iv) {
            Ok(()) => Some(iv),
            Err(_) => {
                self.refused = self.refused.saturating_add(1);
                None
            }
        }
    }
}

/// One worker's access to a source of IVs that several workers share under a lock. Each IV is given to one worker.
#[derive(Drop)]
pub struct SharedIvs<'a, I: Ivs, R: Wait> {
    rt: &'a R,
    source: &'a Mutex<I>,
    refused: u64,
}

impl<'a, I: Ivs, R: Wait> SharedIvs<'a, I, R> {
    /// Makes one worker's access to a shared source. `rt` is the runtime that waits for the lock.
    pub fn new(rt: &'a R, source: &'a Mutex<I>) -> SharedIvs<'a, I, R> {
        SharedIvs {
            rt,
            source,
            refused: 0,
        }
    }
}

impl<I: Ivs, R: Wait> Counted for SharedIvs<'_, I, R> {
    ghost fault_count = { λ s. s.refused };

    fn faults(&self) -> u64 {
        self.refused
    }
}

impl<I: Ivs, R: Wait> Ivs for SharedIvs<'_, I, R> {
    // One that the shared source gave.
    ghost gives = { λ _ iv _. (before : I) × (after : I) × I.gives before iv after };

    fn next_iv(&mut self) -> Option<[u8; 12]>
        ensures given { IfSome result (λ iv. (before : I) × (after : I) × I.gives before iv after) }
        ensures counted { MatchOption result (self.new.refused ≡ count_after 1 self.old.refused) (λ _. self.new.refused ≡ self.old.refused) }
    {
        let iv = self.source.lock(self.rt).next_iv();
        if iv.is_none() {
            self.refused = self.refused.saturating_add(1);
        }
        iv
    }
}
