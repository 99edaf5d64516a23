//! The bytes of one outgoing stream until they are acknowledged.
ghost use Rattle.std.specs.Prelude.{◌≡◌, ◌≢◌, true, false, ℕ, ◌+◌, ◌-◌, ◌*◌, ◌^◌, ◌<◌, ◌≤◌, IfOk, OnErr, OnOk, MatchOption, IsSome, None, Some, length, slice_index, vec_capacity};
ghost use Rattle.std.specs.FinMap.{get, empty, len};
ghost use Rattle.st_unacked.specs.Runs.{shown_by, status_at, is_kept, IsTiled, Rise};
ghost use Rattle.st_unacked.specs.Chunks.{byte_in, covers, Laid, IsTidy};
ghost use Rattle.st_unacked.specs.Sent.{nothing_sent, due_at, after_accept, after_claim, after_acknowledged, after_failed, after_drop, carried, rows, IsFlightEnd, IsLowestDue, IsPastDue};

use crate::chunk::{CHUNK, Chunk, add, copy, let_go};
use crate::run::{
    DUE, Run, acknowledge, append, claim, drop_all, due_end, fail, first_due, first_kept,
    flight_end, join, kept_count, past_due,
};
use std::alloc::{AllocError, Allocator};
use std::marker::Model;

/// Joins neighbouring runs of the same status, and frees the chunks without a byte that is kept.
fn tidy<A: Allocator>(chunks: &mut Vec<Chunk<A>, A>, runs: &mut Vec<Run, A>, accepted: u64)
    requires tiled { IsTiled runs.old.items 0 accepted }
    requires rise { Rise 0 runs.old.items }
    requires laid { Laid 0 accepted chunks.old.items }
    requires covered { (q : ℕ) → is_kept (status_at runs.old.items q) ≡ true → covers chunks.old.items q ≡ true }
    ensures same { shown_by runs.new.items (byte_in chunks.new.items) 0 accepted ≡ shown_by runs.old.items (byte_in chunks.old.items) 0 accepted }
    ensures tidy { IsTidy runs.new.items chunks.new.items accepted (vec_capacity chunks.new) }
{
    join(runs);
    let_go(chunks, runs);
}

/// The send buffer of one outgoing stream: the accepted bytes, each queued, in flight or acknowledged. They lie in chunks
/// of 4,096 bytes. A chunk whose bytes are all acknowledged or dropped is freed, even if an earlier packet has no answer yet.
#[derive(Drop)]
pub struct Unacked<A: Allocator + Copy> {
    /// The bytes that are not acknowledged, in chunks.
    chunks: Vec<Chunk<A>, A>,
    /// Runs of offsets up to the last byte's end.
    runs: Vec<Run, A>,
    alloc: A,
    /// The number of bytes accepted.
    accepted: u64,
}

impl<A: Allocator + Copy> Model for Unacked<A> {
    ghost use Rattle.st_unacked.specs.Sent.{Sent};
    ghost use Rattle.std.specs.FinMap as map;
    ghost use Rattle.std.specs.Coded.{codes};

    ghost Value = { Sent };

    ghost coded = { Prim.hlevel (codes, map.code) };

    ghost use Rattle.std.specs.Prelude.{vec_capacity};
    ghost use Rattle.st_unacked.specs.Runs.{shown_by};
    ghost use Rattle.st_unacked.specs.Chunks.{IsTidy, byte_in};

    ghost view = { λ s. shown_by s.runs.items (byte_in s.chunks.items) 0 s.accepted };

    ghost invariant = { λ s. IsTidy s.runs.items s.chunks.items s.accepted (vec_capacity s.chunks) };
}

impl<A: Allocator + Copy> Unacked<A> {
    /// An empty buffer. Does not allocate.
    pub fn new(alloc: A) -> Unacked<A>
        ensures { result ≡ nothing_sent }
    {
        Unacked {
            chunks: Vec::new(alloc),
            runs: Vec::new(alloc),
            alloc,
            accepted: 0,
        }
    }

    /// The memory of all chunks, in bytes. It is at most the unacknowledged bytes and two chunks for each row of them, so
    /// 0 once all are acknowledged or dropped.
    pub fn room(&self) -> usize
        ensures bound { result ≤ len self.now.unacked + 8192 * rows self.now }
        ensures none { self.now.unacked ≡ empty → result ≡ 0 }
    {
        self.chunks.len().saturating_mul(CHUNK)
    }

    /// The total number of bytes that were accepted. It is also the offset of the next byte.
    pub fn accepted(&self) -> u64
        ensures { result ≡ self.now.accepted }
    {
        self.accepted
    }

    /// The number of accepted bytes that are neither acknowledged nor dropped.
    pub fn count(&self) -> u64
        ensures { result ≡ len self.now.unacked }
    {
        kept_count(&self.runs, 0)
    }

    /// Appends bytes to the stream and queues them: all of them, or none.
    ///
    /// Fails with `AllocError` if memory is refused. The buffer then stays as it was. Requires that the total stays
    /// below 2^64.
    pub fn accept(&mut self, bytes: &[u8]) -> Result<(), AllocError>
        requires { self.old.accepted + length bytes.now < 2 ^ 64 }
        ensures accepts { OnOk result (self.new ≡ after_accept bytes.now self.old) }
        ensures raises { OnOk result (len self.new.unacked ≡ len self.old.unacked + length bytes.now) }
        ensures unchanged { OnErr result (self.new ≡ self.old) }
    {
        let count = bytes.len();
        if count == 0 {
            return Ok(());
        }
        let end = self.accepted + count as u64;
        self.runs.reserve(1)?;
        add(self.alloc, &mut self.chunks, self.accepted, bytes)?;
        append(&mut self.runs, 0, end, DUE).unwrap();
        self.accepted = end;
        Ok(())
    }

    /// The lowest range of queued bytes: its first offset and the offset past its last byte. `None` if nothing is
    /// queued.
    pub fn lowest_due(&self) -> Option<(u64, u64)>
        ensures { MatchOption result ((q : ℕ) → due_at self.now q ≡ None) (λ r. IsLowestDue self.now r.0 r.1) }
    {
        let Some(from) = first_due(&self.runs, 0) else {
            return None;
        };
        Some((from, due_end(&self.runs, from)))
    }

    /// The offset past the highest queued byte, or 0 if nothing is queued.
    pub fn past_due(&self) -> u64
        ensures { IsPastDue self.now result }
    {
        past_due(&self.runs, 0)
    }

    /// Whether every accepted byte is acknowledged or dropped.
    pub fn is_done(&self) -> bool
        ensures yes { result ≡ true → self.now.unacked ≡ empty }
        ensures no { result ≡ false → self.now.unacked ≢ empty }
    {
        match first_kept(&self.runs, 0) {
            Some(_) => false,
            None => true,
        }
    }

    /// A copy of the bytes from offset `from` on and below `to`. Fails with `AllocError` if memory is refused. Requires
    /// that each of the bytes is unacknowledged.
    pub fn piece(&self, alloc: A, from: u64, to: u64) -> Result<Vec<u8, A>, AllocError>
        requires order { from ≤ to }
        requires there { (q : ℕ) → from ≤ q → q < to → IsSome (get self.now.unacked q) }
        ensures len { IfOk result (λ v. length v.items ≡ to - from) }
        ensures bytes { IfOk result (λ v. (k : ℕ) → k < length v.items → get self.now.unacked (from + k) ≡ Some (slice_index v.items k)) }
    {
        let bytes = copy(alloc, &self.chunks, from, to)?;
        Ok(bytes)
    }

    /// Marks the queued bytes from offset `from` on and below `to` as in flight under the sequence number.
    ///
    /// Fails with `AllocError` if memory is refused. The buffer then stays as it was. Requires that each of the
    /// bytes is queued.
    pub fn claim(&mut self, sequence: u64, from: u64, to: u64) -> Result<(), AllocError>
        requires order { from ≤ to }
        requires due { (q : ℕ) → from ≤ q → q < to → IsSome (due_at self.old q) }
        ensures claims { OnOk result (self.new ≡ after_claim sequence from (to - from) self.old) }
        ensures unchanged { OnErr result (self.new ≡ self.old) }
    {
        self.runs = claim(self.alloc, &self.runs, 0, from, to, sequence)?;
        Ok(())
    }

    /// Handles a Fulfill: the bytes carried by the sequence number are acknowledged. Does not allocate.
    ///
    /// Returns the offset past the last byte that it carried, dropped ones included, or 0 if it carried none.
    pub fn acknowledged(&mut self, sequence: u64) -> u64
        ensures acknowledges { self.new ≡ after_acknowledged sequence self.old }
        ensures end { IsFlightEnd sequence self.old result }
        ensures within { result ≤ self.old.accepted }
        ensures lowers { len self.new.unacked + len (carried sequence self.old) ≡ len self.old.unacked }
    {
        let end = flight_end(&self.runs, 0, sequence);
        acknowledge(&mut self.runs, sequence);
        tidy(&mut self.chunks, &mut self.runs, self.accepted);
        end
    }

    /// Handles a failed packet: the bytes carried by the sequence number are queued again, except those that were
    /// dropped. Does not allocate.
    pub fn failed(&mut self, sequence: u64)
        ensures { self.new ≡ after_failed sequence self.old }
    {
        fail(&mut self.runs, sequence);
        tidy(&mut self.chunks, &mut self.runs, self.accepted);
    }

    /// Drops all bytes. Those in flight stay in flight until their answer arrives.
    pub fn drop_bytes(&mut self)
        ensures { self.new ≡ after_drop self.old }
    {
        drop_all(&mut self.runs);
        tidy(&mut self.chunks, &mut self.runs, self.accepted);
    }
}
