//! A Prepare in flight, and the right to report its outcome.

ghost use Rattle.std.specs.Prelude.{◌≡◌};

use std::marker::Model;

/// What identifies a Prepare in flight.
#[derive(Clone, Copy, Debug, PartialEq, Eq)]
pub struct Open {
    /// The sequence of its packet (RFC 0029, section 5.2). No two Prepares of an end have the same.
    pub sequence: u64,
    /// Its condition (RFC 0027): the SHA-256 of the fulfillment.
    pub condition: [u8; 32],
}

/// The right to report the outcome of a Prepare, once. It must be given up: to `EndState::answer`, to
/// `EndState::fault`, or by `abandon`.
#[must_use]
pub struct Flight {
    open: Open,
}

impl Model for Flight {
    ghost use Rattle.st_end.specs.declared.flight.Open as open_flight;

    ghost Value = { open_flight.Open };

    ghost view = { λ f. f.open };
}

impl Flight {
    pub(crate) fn new(flight: Open) -> Flight
        ensures { result ≡ flight }
    {
        Flight { open: flight }
    }

    /// The sequence and the condition of the Prepare.
    pub fn read(&self) -> Open
        ensures { result ≡ self.now }
    {
        self.open
    }

    pub(crate) fn spend(self) -> Open
        ensures { result ≡ self }
    {
        let Flight { open } = self;
        open
    }

    /// Gives the flight up if no outcome will be reported: what the Prepare carried stays in flight.
    pub fn abandon(self) {
        let Flight { open: _ } = self;
    }
}
