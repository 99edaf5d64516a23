//! The totals of an end, and the reads of its streams.

ghost use Rattle.std.specs.Prelude.{◌≡◌, ◌≤◌, IfOk, OnErr};
ghost use Rattle.st_receiver.specs.Decided.{got_seen};
ghost use Rattle.st_receiver.specs.Limits as limits;
ghost use Rattle.st_receiver.specs.Reading.{got_count};
ghost use Rattle.st_sender.specs.Stops.{blocked_at};
ghost use Rattle.st_end.specs.Calls.{OrWants};
ghost use Rattle.st_end.specs.Reading as reading;
ghost use Rattle.st_end.specs.Ready.{is_ready};
ghost use Rattle.st_end.specs.Seen.{read_seen};
ghost use Rattle.st_end.specs.Totals as totals;

use crate::end::EndState;
use st_sender::Blocked;
use st_streams::{EndError, EndTotals, StreamId, StreamRead};
use std::alloc::Allocator;

/// A count as it is reported.
fn capped(count: u128) -> u64
    ensures { result ≡ limits.capped count }
{
    if count < 18_446_744_073_709_551_615 {
        count as u64
    } else {
        u64::MAX
    }
}

impl<A: Allocator + Copy> EndState<A> {
    /// The totals of this end. Does not allocate.
    pub fn totals(&self) -> EndTotals
        ensures { result ≡ totals.totals self.now }
    {
        EndTotals {
            accepted: capped(self.outbox.accepted()),
            delivered: capped(self.intake.delivered()),
            credited: self.intake.credited(),
            paid: capped(self.outbox.paid()),
        }
    }

    /// Whether this end's own StreamClose of the stream was fulfilled: of a clean close or of an abort. Does not
    /// allocate.
    pub fn settled(&self, stream: StreamId) -> bool
        ensures { result ≡ totals.settled self.now stream }
    {
        self.outbox.is_settled(stream)
    }

    /// How many of this end's Prepares were sent and have no answer yet. Does not allocate.
    pub fn in_flight(&self) -> usize
        ensures { result ≡ totals.in_flight self.now }
    {
        self.outbox.in_flight()
    }

    /// Whether accepted bytes of a stream are not acknowledged by the peer, or the stream's close is not fulfilled. Does not
    /// allocate.
    pub fn waits(&self, stream: StreamId) -> bool
        ensures { result ≡ totals.waits self.now stream }
    {
        self.outbox.is_waiting(stream)
    }

    /// The greatest amount that this end's next Prepare may have, in units of its asset: at first that of the
    /// `EndConfig`, then what each Reject F08 (RFC 0027) left. Does not allocate.
    pub fn packet_limit(&self) -> u64
        ensures { result ≡ self.now.sending.packet_limit }
    {
        self.outbox.packet_limit()
    }

    /// The limit of the peer at which bytes or money wait, if the Prepare in flight under this sequence carries a Blocked
    /// frame (RFC 0029, section 5.3). A Prepare is in flight from `send_unsealed` on, whether its condition is kept or
    /// not. `None` if it carries none, and once its outcome was reported. Does not allocate.
    pub fn blocked_at(&self, sequence: u64) -> Option<Blocked>
        ensures { result ≡ blocked_at self.now.sending.flights sequence }
    {
        self.outbox.blocked_at(sequence)
    }

    /// Whether the connection failed. Nothing is sent any more then. Does not allocate.
    pub fn is_failed(&self) -> bool
        ensures { result ≡ self.now.sending.failed }
    {
        self.outbox.is_failed()
    }

    /// Whether `read` gives anything on a stream but `Nothing`: bytes, the end, or an abort. `false` if the stream is not
    /// open. Does not allocate.
    pub fn is_ready(&self, stream: StreamId) -> bool
        ensures { result ≡ is_ready self.now stream }
    {
        self.intake.is_ready(stream)
    }

    /// Reads the first bytes that can be read on a stream, at most `max` of them; `max` must be at least 1. If
    /// there are none, it gives `End` once all bytes were read, else `Nothing`. After an abort it gives `Aborted` with
    /// the code. No read gives more than 65,536 bytes, a stream's window. Fails with `NoStream` if the stream is not
    /// open, and with `NoMemory` if memory is refused. Nothing has changed then.
    pub fn read(&mut self, stream: StreamId, max: usize) -> Result<StreamRead<A>, EndError>
        requires { 1 ≤ max }
        ensures answers { OrWants self.old (reading.read self.old stream max) (read_seen result, self.new) }
        ensures few { IfOk result (λ g. got_count (got_seen g) ≤ 65536) }
        ensures unchanged { OnErr result (self.new ≡ self.old) }
    {
        if !self.intake.has_stream(stream) {
            return Err(EndError::NoStream);
        }
        match self.intake.read(stream, max) {
            Ok(got) => Ok(got),
            Err(_) => Err(EndError::NoMemory),
        }
    }
}
