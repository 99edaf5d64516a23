//! A flight that is kept until its outcome is known.

ghost use Rattle.std.specs.Prelude.{◌≡◌, ◌&&◌, nat_eq, bytes_eq};
ghost use Rattle.st_end.specs.Sending.{is_open};

use crate::end::EndState;
use crate::flight::{Flight, Open};
use std::alloc::Allocator;
use std::marker::Model;

/// A flight that waits for its answer. It may be dropped, unlike a `Flight`, and is abandoned then.
pub struct OpenFlight {
    flight: Flight,
}

impl Model for OpenFlight {
    ghost use Rattle.st_end.specs.declared.flight.Open as open_flight;

    ghost Value = { open_flight.Open };

    ghost view = { λ k. k.flight };
}

impl Drop for OpenFlight {
    fn drop(self) {
        let OpenFlight { flight } = self;
        flight.abandon();
    }
}

impl OpenFlight {
    /// Keeps a flight.
    pub fn new(flight: Flight) -> OpenFlight
        ensures { result ≡ flight }
    {
        OpenFlight { flight }
    }

    /// The sequence of the Prepare.
    pub fn sequence(&self) -> u64
        ensures { result ≡ self.now.sequence }
    {
        self.flight.read().sequence
    }

    /// Whether it is this one.
    pub fn is(&self, wanted: &Open) -> bool
        ensures { result ≡ (nat_eq self.now.sequence wanted.now.sequence && bytes_eq self.now.condition wanted.now.condition) }
    {
        let open = self.flight.read();
        open.sequence == wanted.sequence && open.condition == wanted.condition
    }

    /// Whether it is one of this end that has no outcome yet. Does not allocate.
    pub fn is_open<A: Allocator + Copy>(&self, state: &EndState<A>) -> bool
        ensures { result ≡ is_open state.now self.now }
    {
        state.is_open(&self.flight)
    }

    /// The flight, to report its outcome.
    pub fn spend(self) -> Flight
        ensures { result ≡ self }
    {
        let OpenFlight { flight } = self;
        flight
    }
}
