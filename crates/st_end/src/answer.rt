//! The answers to Prepares.

ghost use Rattle.std.specs.Prelude.{◌≡◌, true, Some, None};
ghost use Rattle.std.specs.Option.{option_or};
ghost use Rattle.st_ilp.specs.Reading.{answer_at};
ghost use Rattle.st_sender.specs.Sending as sender;
ghost use Rattle.st_sender.specs.Flights.{flight_at};
ghost use Rattle.st_sender.specs.Answering.{after_failed};
ghost use Rattle.st_end.specs.Sending as sending;
ghost use Rattle.st_end.specs.Answers as answers;

use crate::back::{Back, amounts_in, raise_from, read_back};
use crate::end::EndState;
use crate::failed::Failed;
use crate::flight::{Flight, Open};
use st_frames::PacketKind;
use st_ilp::ErrorCode;
use st_keys::{Keys, condition};
use st_sender::Outbox;
use std::alloc::Allocator;

/// By what code a fault, an unreadable answer and a Fulfill that does not fit count.
const TEMPORARY: [u8; 3] = *b"T00";

/// A Reject fails what was sent by a sequence.
fn take_reject<A: Allocator + Copy>(
    outbox: &mut Outbox<A>,
    sequence: u64,
    code: ErrorCode,
    payload: &[u8],
)
    ensures { (p : sender.Flight) → flight_at outbox.old.flights sequence ≡ Some p
        → outbox.new ≡ after_failed outbox.old p (answers.failure_of code payload.now) }
{
    if code == ErrorCode::AMOUNT_TOO_LARGE {
        outbox.too_large(sequence, amounts_in(payload));
    } else {
        outbox.failed(sequence, code.text());
    }
}

/// Handles the bytes of an answer to a flight, notes why they fail it, and says whether they are a Fulfill that fits.
fn take_answer<A: Allocator + Copy>(
    outbox: &mut Outbox<A>,
    last: &mut Option<Failed>,
    keys: &Keys,
    flight: Open,
    bytes: &mut [u8],
) -> bool
    ensures left { (p : sender.Flight) → flight_at outbox.old.flights flight.sequence ≡ Some p
        → outbox.new ≡ answers.answered_by keys.now outbox.old flight p (answer_at bytes.old) }
    ensures taken { result ≡ answers.pays_by flight (answer_at bytes.old) }
    ensures noted { last.new ≡ option_or (answers.failed_by flight (answer_at bytes.old)) last.old }
{
    match read_back(bytes) {
        Back::Fulfill { fulfillment, start } => {
            if condition(fulfillment) != flight.condition {
                *last = Some(Failed::unfit());
                outbox.failed(flight.sequence, TEMPORARY);
                return false;
            }
            outbox.acknowledged(flight.sequence);
            raise_from(
                outbox,
                keys,
                PacketKind::Fulfill,
                flight.sequence,
                &mut bytes[start..],
            );
            true
        }
        Back::Reject {
            code,
            by,
            message,
            start,
        } => {
            *last = Some(Failed::rejected(code, by, message));
            take_reject(outbox, flight.sequence, code, &bytes[start..]);
            raise_from(
                outbox,
                keys,
                PacketKind::Reject,
                flight.sequence,
                &mut bytes[start..],
            );
            false
        }
        Back::Unreadable => {
            *last = Some(Failed::unreadable());
            outbox.failed(flight.sequence, TEMPORARY);
            false
        }
    }
}

impl<A: Allocator + Copy> EndState<A> {
    /// Whether a flight is one of this end that has no outcome yet: a Prepare with its sequence and its condition is in
    /// flight here. Does not allocate.
    #[tactic(auto, using(crate::proofs::Lawfulness::kept_is_open))]
    pub fn is_open(&self, flight: &Flight) -> bool
        ensures { result ≡ sending.is_open self.now flight.now }
    {
        let flight = flight.read();
        self.conditions.has(flight.sequence, &flight.condition)
    }

    /// Handles the bytes that were returned for an open flight (RFC 0027), and says whether they are its Fulfill: one whose
    /// fulfillment has the flight's condition as its SHA-256. Everything else counts as a failure of the Prepare, and
    /// what it carried can be sent again.
    ///
    /// The answer's data are decrypted in place. If they are a packet (RFC 0029, section 5) of this flight's
    /// sequence, the limits in it are applied. The flight must be open here, as `is_open` says. Does not allocate.
    #[tactic(auto, using(crate::proofs::Lawfulness::open_found))]
    pub fn answer(&mut self, flight: Flight, bytes: &mut [u8]) -> bool
        requires { sending.is_open self.old flight ≡ true }
        ensures left { self.new ≡ answers.ended self.old flight (Some bytes.old) }
        ensures taken { result ≡ answers.pays flight (Some bytes.old) }
    {
        let flight = flight.spend();
        self.conditions.remove(flight.sequence);
        take_answer(&mut self.outbox, &mut self.last, &self.keys, flight, bytes)
    }

    /// Handles an open flight without an answer: what the Prepare carried can be sent again. The flight must be
    /// open here, as `is_open` says. Does not allocate.
    #[tactic(auto, using(crate::proofs::Lawfulness::open_found))]
    pub fn fault(&mut self, flight: Flight)
        requires { sending.is_open self.old flight ≡ true }
        ensures { self.new ≡ answers.ended self.old flight None }
    {
        let flight = flight.spend();
        self.conditions.remove(flight.sequence);
        self.last = Some(Failed::lost());
        self.outbox.failed(flight.sequence, TEMPORARY);
    }

    /// Why the last Prepare that failed did so. `None` before the first failure; a Fulfill that fits leaves it as it
    /// was. Does not allocate.
    pub fn last_failure(&self) -> Option<Failed>
        ensures { result ≡ self.now.last }
    {
        match &self.last {
            Some(failed) => Some(failed.again()),
            None => None,
        }
    }
}
