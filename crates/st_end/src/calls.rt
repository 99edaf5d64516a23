//! The calls on an end's streams.

ghost use Rattle.std.specs.Prelude.{◌≡◌, ◌≢◌, true, OnErr, IfSome, MatchOption, None};
ghost use Rattle.st_streams.specs.Numbers.{IsStreamNumber};
ghost use Rattle.st_sender.specs.Sending.{outgoing_at};
ghost use Rattle.st_end.specs.Calls as calls;
ghost use Rattle.st_end.specs.Calls.{IsNoStream, OrWants};
ghost use Rattle.st_end.specs.Ready.{TellsRoom};

use crate::end::EndState;
use st_streams::{EndError, StreamId};
use std::alloc::Allocator;

impl<A: Allocator + Copy> EndState<A> {
    /// The refusals that a connection makes of itself.
    fn check_connection(&self) -> Result<(), EndError>
        ensures { result ≡ calls.answer (calls.connection_refusal self.now) }
    {
        if self.outbox.is_failed() {
            return Err(EndError::ConnectionFailed);
        }
        if self.intake.is_closed() {
            return Err(EndError::Closed);
        }
        Ok(())
    }

    /// The refusals that come before the sending side's own.
    fn check_stream(&self, stream: StreamId) -> Result<(), EndError>
        ensures { result ≡ calls.answer (calls.refusal self.now stream None) }
    {
        if !self.outbox.has_stream(stream) {
            return Err(EndError::NoStream);
        }
        self.check_connection()
    }

    /// Queues bytes to be sent on a stream: all of them, or none. Fails with the first of these that applies:
    /// `NoStream` if the stream is not open; `ConnectionFailed`; `Closed` if the peer closed the connection, or
    /// after a close or an abort of the stream; `Full` if too many bytes would be unacknowledged; `NoMemory` if
    /// memory is refused. Nothing has changed then.
    #[tactic(auto)]
    pub fn write(&mut self, stream: StreamId, bytes: &[u8]) -> Result<(), EndError>
        ensures answers { OrWants self.old (calls.write self.old stream bytes.now) (result, self.new) }
        ensures unchanged { OnErr result (self.new ≡ self.old) }
    {
        self.check_stream(stream)?;
        self.outbox.accept(stream, bytes)?;
        Ok(())
    }

    /// How many bytes `write` takes of a stream at most: a longer one is `Full`, and a shorter one is not refused but for
    /// memory. Fails as `write` does with no bytes: `NoStream`, `ConnectionFailed`, `Closed`. Does not allocate.
    #[tactic(auto, using(crate::proofs::Room::is_room, crate::proofs::Room::no_room, crate::proofs::Room::not_open))]
    pub fn room(&self, stream: StreamId) -> Result<u64, EndError>
        ensures { TellsRoom self.now stream result }
    {
        self.check_stream(stream)?;
        Ok(self.outbox.room(stream)?)
    }

    /// Closes a stream cleanly. Its StreamClose with code 1 (RFC 0029, section 5.3) is sent once all its bytes are
    /// acknowledged and all its money is fulfilled. Fails with the first of these that applies: `NoStream` if the
    /// stream is not open; `ConnectionFailed`; `Closed` if the peer closed the connection, or after a close or an
    /// abort of the stream. Nothing has changed then. Does not allocate.
    #[tactic(auto)]
    pub fn close(&mut self, stream: StreamId) -> Result<(), EndError>
        ensures answers { calls.close self.old stream ≡ (result, self.new) }
    {
        self.check_stream(stream)?;
        self.outbox.close(stream)?;
        Ok(())
    }

    /// Aborts a stream with a code of RFC 0029, section 5.3, other than 1. What is not acknowledged is dropped. Fails
    /// with the first of these that applies: `NoStream` if the stream is not open; `ConnectionFailed`; `Closed`
    /// if the peer closed the connection, or after an abort of the stream. Nothing has changed then. Does not
    /// allocate.
    pub fn abort(&mut self, stream: StreamId, code: u8) -> Result<(), EndError>
        requires { code ≢ 1 }
        ensures answers { calls.abort self.old stream code ≡ (result, self.new) }
    {
        self.check_stream(stream)?;
        self.outbox.abort(stream, code)?;
        Ok(())
    }

    /// Offers `amount` more units of this end's asset on a stream. Fails with the first of these that applies:
    /// `NoStream` if the stream is not open; `ConnectionFailed`; `Closed` if the peer closed the connection, or
    /// after a close or an abort of the stream; `AmountTooLarge` if all offers together would be 2^63 or more.
    /// Nothing has changed then. Does not allocate.
    pub fn offer(&mut self, stream: StreamId, amount: u64) -> Result<(), EndError>
        ensures answers { calls.offer self.old stream amount ≡ (result, self.new) }
    {
        self.check_stream(stream)?;
        self.outbox.offer(stream, amount)?;
        Ok(())
    }

    /// Raises a stream's receive max (RFC 0029, section 5.3) to `amount`, in units of this end's asset. It is the most
    /// that the stream may receive in all. A smaller amount than before changes nothing. For a stream that the peer has
    /// not opened yet, it is kept until the stream opens. Fails with `NoStream` alone, if the stream is not open and
    /// the peer may not open one of this number. Does not allocate.
    pub fn set_receive_max(&mut self, stream: StreamId, amount: u64) -> Result<(), EndError>
        ensures answers { calls.set_receive_max self.old stream amount ≡ (result, self.new) }
    {
        if !self.intake.may_name(stream) {
            return Err(EndError::NoStream);
        }
        self.intake.set_receive_max(stream, amount);
        Ok(())
    }

    /// The first of this end's own numbers whose stream is not open.
    #[tactic(auto, using(crate::proofs::Numbers::from_first, crate::proofs::Numbers::next_number, crate::proofs::Numbers::no_number))]
    fn own_number(&self) -> Option<StreamId>
        ensures number { result ≡ calls.own_number self.now }
        ensures free { IfSome result (λ k. IsStreamNumber k × (outgoing_at self.now.sending k ≡ None)) }
    {
        let first = 2_u8.saturating_sub(self.intake.parity());
        for i in 0..32_u8 {
            let stream = StreamId::new(2 * i + first).unwrap();
            if !self.outbox.has_stream(stream) {
                return Some(stream);
            }
        }
        None
    }

    /// Opens the next of this end's own streams and gives its number: 1, 3, .. 63 at a client, 2, 4, .. 64 at a server
    /// (RFC 0029, section 4.1). Fails with the first of these that applies: `NoStream` if no number is left;
    /// `ConnectionFailed`; `Closed` if the peer closed the connection; `NoMemory` if memory is refused. Nothing
    /// has changed then.
    pub fn open_stream(&mut self) -> Result<StreamId, EndError>
        ensures answers { OrWants self.old (calls.open_stream self.old) (result, self.new) }
        ensures unchanged { OnErr result (self.new ≡ self.old) }
    {
        let Some(stream) = self.own_number() else {
            return Err(EndError::NoStream);
        };
        self.check_connection()?;
        if self.intake.open(stream).is_err() {
            return Err(EndError::NoMemory);
        }
        self.outbox.add_stream(stream);
        Ok(stream)
    }

    /// The stream of a number. `None` if no stream can have this number: each call on it would fail with `NoStream`. Does
    /// not allocate.
    pub fn stream_of(&self, number: u8) -> Option<StreamId>
        ensures { MatchOption result (IsNoStream self.now number) (λ stream. stream ≡ number) }
    {
        let _own = &self.own;
        StreamId::new(number)
    }

    /// Whether a stream is open. Does not allocate.
    pub fn has_stream(&self, stream: StreamId) -> bool
        ensures { result ≡ calls.has_stream self.now stream }
    {
        self.outbox.has_stream(stream)
    }
}
