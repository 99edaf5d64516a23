//! What the answer to a Prepare changes, and a packet that is taken back.

ghost use Rattle.std.specs.Prelude.{◌≡◌, ◌≢◌, ℕ, List, MatchOption};
ghost use Rattle.st_frames.specs.Frames.{Known};
ghost use Rattle.st_sender.specs.Answering.{after_fulfilled, after_failed, failure_of, TooLarge, TakesBack};
ghost use Rattle.st_sender.specs.Flights.{flight_at};
ghost use Rattle.st_sender.specs.Loads.{Sends};
ghost use Rattle.st_sender.specs.Sending.{Sending};
ghost use Rattle.st_sender.specs.Shown.{why};

use crate::failure::{Failure, fails};
use crate::flying::{acknowledge, acknowledge_limits, free};
use crate::load::{Load, take_flight};
use crate::outbox::Outbox;
use std::alloc::Allocator;

impl<A: Allocator + Copy> Outbox<A> {
    /// Handles a fitting Fulfill for the Prepare of this sequence: what it carried is acknowledged. If none is in
    /// flight under this sequence, nothing changes. Does not allocate.
    pub fn acknowledged(&mut self, sequence: u64)
        ensures { MatchOption (flight_at self.old.flights sequence) (self.new ≡ self.old) (λ p. self.new ≡ after_fulfilled self.old p) }
    {
        let Some(flight) = take_flight(&mut self.flights, sequence) else {
            return;
        };
        acknowledge(&mut self.streams, &flight);
        acknowledge_limits(&mut self.marks, &mut self.blocked, &flight);
        self.failures = 0;
        self.paid += u128::from(flight.amount);
    }

    /// The flight of this sequence failed.
    fn fail(&mut self, sequence: u64, failure: Failure)
        ensures { MatchOption (flight_at self.old.flights sequence) (self.new ≡ self.old) (λ p. self.new ≡ after_failed self.old p (why failure)) }
    {
        let Some(flight) = take_flight(&mut self.flights, sequence) else {
            return;
        };
        free(&mut self.streams, &flight);
        self.packet_limit = failure.limit_after(self.packet_limit, flight.amount);
        self.failures += 1;
        self.failed = fails(self.failed, failure, self.failures);
    }

    /// Handles a Reject of this code (RFC 0027) for the Prepare of this sequence. What it carried can be sent again,
    /// unless an abort dropped it. F08 lowers the packet limit, as `too_large` without amounts does. Any other code
    /// that begins with F, except F99, fails the connection, and so do `MAX_FAILURES` failures in a row. Report no
    /// answer, or an answer that does not fit, with a code that begins with T. If none is in flight under this
    /// sequence, nothing changes. Does not allocate.
    pub fn failed(&mut self, sequence: u64, code: [u8; 3])
        ensures { MatchOption (flight_at self.old.flights sequence) (self.new ≡ self.old) (λ p. self.new ≡ after_failed self.old p (failure_of code)) }
    {
        self.fail(sequence, Failure::of(code));
    }

    /// Handles a Reject F08 (RFC 0027) for the Prepare of this sequence. `told` is the received and the maximum amount of
    /// its data, if they can be read. The packet limit becomes the amount sent times the maximum divided by the
    /// received amount, at least 1, or half of the amount sent if these say nothing. It never rises. If none is
    /// in flight under this sequence, nothing changes. Does not allocate.
    pub fn too_large(&mut self, sequence: u64, told: Option<(u64, u64)>)
        ensures { MatchOption (flight_at self.old.flights sequence) (self.new ≡ self.old) (λ p. self.new ≡ after_failed self.old p (TooLarge told)) }
    {
        self.fail(sequence, Failure::TooLarge(told));
    }

    /// Undoes the call of `next` that gave this `Load`, if that was the last call: its sequence is used again. If
    /// other calls came in between, what they changed stays. If the last sequence is another one, or its Prepare is
    /// no longer in flight, nothing changes. Does not allocate.
    pub fn take_back(&mut self, load: Load<A>)
        ensures stale { load.sequence ≢ self.old.last → self.new ≡ self.old }
        ensures undoes { (before : Sending) (limits : List Known) (room : ℕ) → Sends before limits room load self.old → self.new ≡ before }
        ensures exact { load.sequence ≡ self.old.last → TakesBack self.old load.sequence load.turn self.new }
    {
        let sequence = load.sequence();
        let turn = load.turn();
        if sequence != self.last {
            return;
        }
        let Some(flight) = take_flight(&mut self.flights, sequence) else {
            return;
        };
        free(&mut self.streams, &flight);
        self.last -= 1;
        self.turn = turn;
    }
}
