//! An end of a connection, with the flights that wait for their answer and the bytes that the last call returned.

ghost use Rattle.std.specs.Prelude.{◌≡◌, ◌<◌, ◌≤◌, true, Some, None, OnErr, IfOk, MatchBool, MatchOption, IsOkUnless};
ghost use Rattle.st_oer.specs.Address.{is_address};
ghost use Rattle.st_keys.specs.Keys.{keys_of};
ghost use Rattle.st_end.specs.declared.flight.Open as open_flight;
ghost use Rattle.st_end.specs.State.{new_end};
ghost use Rattle.st_end.specs.Sending.{is_open};
ghost use Rattle.st_end.specs.Calls.{OrWants};
ghost use Rattle.st_end.specs.Reading as reading;
ghost use Rattle.st_end.specs.Receiving.{received};
ghost use Rattle.host_objects.specs.Ends.{IsNewEnd, IsSameEnd, IsFlight, HasNoFlight, IsSpent, answered_seen, piece_seen, IfNoBytes, SendsKept, TakesAnswer, FindsNoFlight};

use st_end::{EndError, EndState, OpenFlight, Received, Role, by_number};
use st_ilp::Moment;
use st_keys::Keys;
use st_receiver::Got;
use st_sender::EndConfig;
use std::alloc::Global;

/// The place of an open flight of this sequence.
fn place_of(state: &EndState<Global>, kept: &[OpenFlight], sequence: u64) -> Option<usize>
    ensures { MatchOption result (HasNoFlight state.now kept.now sequence) (λ place. (f : open_flight.Open) × IsFlight state.now kept.now sequence place f) }
{
    for (place, flight) in kept.iter().enumerate() {
        if flight.sequence() == sequence && flight.is_open(state) {
            return Some(place);
        }
    }
    None
}

/// What an end did with bytes that arrived, in addition to the answer.
#[derive(Clone, Copy, Debug, PartialEq, Eq)]
pub struct Answered {
    /// 0 for a Fulfill; else why it is a Reject.
    pub reason: u8,
    /// The amount of the Prepare.
    pub amount: u64,
    /// The sequence of its packet, if that was opened.
    pub sequence: Option<u64>,
}

/// What a read gave.
#[derive(Clone, Copy, Debug, PartialEq, Eq)]
pub enum Piece {
    /// The bytes are the output.
    Bytes,
    /// None can be read yet.
    Nothing,
    /// All were read, and the peer closed the stream.
    End,
    /// The peer aborted the stream with this code.
    Aborted(u64),
}

/// An end of a connection, the flights that it gave out and that are not spent, and the bytes that the last call returned.
#[derive(Drop)]
pub struct HostEnd {
    /// The end.
    pub state: EndState<Global>,
    /// Its open flights, in the order in which they were given out.
    pub flights: Vec<OpenFlight>,
    /// The bytes that the last call returned.
    pub output: Vec<u8>,
}

impl HostEnd {
    /// An end with these keys, addresses and numbers. Fails with `NoMemory` alone, if memory is refused.
    pub fn new(
        alloc: Global,
        role: Role,
        secret: [u8; 32],
        own: &str,
        peer: &str,
        config: EndConfig,
    ) -> Result<HostEnd, EndError>
        requires own { is_address own.now ≡ true }
        requires peer { is_address peer.now ≡ true }
        ensures only_memory { IsOkUnless result EndError.NoMemory }
        ensures made { IfOk result (λ h. IsNewEnd (new_end role (keys_of secret) own.now peer.now config) h) }
    {
        Ok(HostEnd {
            state: EndState::new(alloc, role, Keys::of(secret), own, peer, config)?,
            flights: Vec::new(alloc),
            output: Vec::new(alloc),
        })
    }

    /// Outputs the bytes of the next Prepare, and returns the number of its flight: the sequence of its packet (RFC 0029).
    /// `None` if nothing is to be sent. Fails with `NoMemory` alone, if memory is refused.
    pub fn send(&mut self, iv: [u8; 12], now: Moment) -> Result<Option<u64>, EndError>
        ensures only_memory { IsOkUnless result EndError.NoMemory }
        ensures goes { IfOk result (λ sent. SendsKept iv now self.old self.new sent) }
        ensures unchanged { OnErr result (IsSameEnd self.old self.new) }
    {
        self.flights.reserve(1)?;
        match self.state.send(iv, now)? {
            None => Ok(None),
            Some((flight, bytes)) => {
                let sequence = flight.read().sequence;
                self.flights.push_reserved(OpenFlight::new(flight));
                self.output = bytes;
                Ok(Some(sequence))
            }
        }
    }

    /// Outputs the answer to bytes that arrived, and returns the rest of it. Fails with `NoMemory` alone, if memory is
    /// refused.
    pub fn receive(&mut self, bytes: &[u8], now: Moment) -> Result<Answered, EndError>
        ensures only_memory { IsOkUnless result EndError.NoMemory }
        ensures answers { IfOk result (λ a. received self.old.state bytes.now now ≡ (answered_seen self.new.output.items a, self.new.state)) }
        ensures flights { self.new.flights ≡ self.old.flights }
        ensures unchanged { OnErr result (self.new ≡ self.old) }
    {
        let Received {
            bytes,
            reason,
            amount,
            sequence,
        } = self.state.receive(bytes, now)?;
        self.output = bytes;
        Ok(Answered {
            reason,
            amount,
            sequence,
        })
    }

    /// Outputs the first bytes that can be read on a stream, at most `max`. Fails as `EndState::read` does.
    pub fn read(&mut self, stream: u8, max: usize) -> Result<Piece, EndError>
        requires { 1 ≤ max }
        ensures answers { OrWants self.old.state (reading.read self.old.state stream max) (piece_seen self.new.output.items result, self.new.state) }
        ensures flights { self.new.flights ≡ self.old.flights }
        ensures output { IfOk result (λ piece. IfNoBytes piece (self.new.output ≡ self.old.output)) }
        ensures unchanged { OnErr result (self.new ≡ self.old) }
    {
        match by_number::read(&mut self.state, stream, max)? {
            Got::Bytes(bytes) => {
                self.output = bytes;
                Ok(Piece::Bytes)
            }
            Got::Nothing => Ok(Piece::Nothing),
            Got::End => Ok(Piece::End),
            Got::Aborted(code) => Ok(Piece::Aborted(code)),
        }
    }

    /// Handles the bytes of the answer to a flight: whether they are a Fulfill that fits. They are decrypted in
    /// place. `None` exactly if no open flight has this number.
    pub fn answer(&mut self, number: u64, bytes: &mut [u8]) -> Option<bool>
        ensures { TakesAnswer number bytes.old self.old self.new result }
    {
        let place = place_of(&self.state, &self.flights, number)?;
        let flight = self.flights.remove(place).spend();
        Some(self.state.answer(flight, bytes))
    }

    /// There is no answer to a flight: what it carries is due again. Whether an open flight has this number.
    pub fn fault(&mut self, number: u64) -> bool
        ensures { MatchBool result ((f : open_flight.Open) × IsSpent self.old self.new number None f) (FindsNoFlight number self.old self.new) }
    {
        let Some(place) = place_of(&self.state, &self.flights, number) else {
            return false;
        };
        let flight = self.flights.remove(place).spend();
        self.state.fault(flight);
        true
    }
}
